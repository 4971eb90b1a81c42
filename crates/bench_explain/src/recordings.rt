//! The codes of recordings: packets, bodies and sinks.

use crate::explanation::Explanation;

/// Each code of them, in order.
pub(crate) static EXPLANATIONS: [Explanation; 13] = [
    Explanation {
        code: "K1",
        means: "fewer than 24 bytes where a packet should begin",
        remedy: "Copy the file whole; one that was cut ends inside a packet.",
        example: "bench: K1 offset 52",
    },
    Explanation {
        code: "K2",
        means: "no sync pattern 25 EB where a packet should begin",
        remedy: "See that the file is a Chapter 11 recording, and that the packet before the offset has its true \
            length.",
        example: "bench: K2 offset 32",
    },
    Explanation {
        code: "K3",
        means: "the checksum of a packet header is wrong",
        remedy: "The header was changed or damaged; copy the file again from its source.",
        example: "bench: K3 offset 0",
    },
    Explanation {
        code: "K4",
        means: "a packet length under 24, or no multiple of four",
        remedy: "The header is damaged, or its writer does not keep IRIG 106 Chapter 11.",
        example: "bench: K4 offset 0",
    },
    Explanation {
        code: "K5",
        means: "the packet is too short for its header, its secondary header and its data",
        remedy: "The header is damaged, or its writer does not keep IRIG 106 Chapter 11.",
        example: "bench: K5 offset 0",
    },
    Explanation {
        code: "N1",
        means: "memory was refused for the index of a recording",
        remedy: "Give the program more memory.",
        example: "bench: memory",
    },
    Explanation {
        code: "N2",
        means: "the file ends before the packet does",
        remedy: "Copy the file whole, or cut it at the offset, where the last whole packet ends.",
        example: "bench: N2 offset 32",
    },
    Explanation {
        code: "F1",
        means: "a packet of MIL-STD-1553 messages with fewer than four bytes of data",
        remedy: "The packet is damaged, or its writer does not keep Format 1.",
        example: "bench: F1 offset 0",
    },
    Explanation {
        code: "F2",
        means: "a message whose length is an odd number of bytes",
        remedy: "The packet is damaged, or its writer does not keep Format 1.",
        example: "bench: F2 offset 0",
    },
    Explanation {
        code: "F3",
        means: "a packet whose data end inside a message",
        remedy: "The packet is damaged, or the count of its messages is wrong.",
        example: "bench: F3 offset 0",
    },
    Explanation {
        code: "G1",
        means: "a packet limit outside 256 to 524288 bytes",
        remedy: "Choose a limit in the range.",
        example: "--limit 100",
    },
    Explanation {
        code: "G2",
        means: "memory was refused for the buffers of a packet",
        remedy: "Give the program more memory.",
        example: "bench: memory",
    },
    Explanation {
        code: "V1",
        means: "the out file failed while it was written",
        remedy: "See that the disk has room and that the file may be written.",
        example: "bench: U4 taken 100",
    },
];
