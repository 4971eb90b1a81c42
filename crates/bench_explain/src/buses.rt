//! The codes of terminals and buses, and the words for files, memory and lines that are not understood.

use crate::explanation::Explanation;

/// Each code of them, in order.
pub(crate) static EXPLANATIONS: [Explanation; 7] = [
    Explanation {
        code: "Z1",
        means: "a terminal address above 30",
        remedy: "Take an address of 0 to 30.",
        example: "terminal 31",
    },
    Explanation {
        code: "Z2",
        means: "memory was refused for a terminal",
        remedy: "Give the program more memory.",
        example: "bench: memory",
    },
    Explanation {
        code: "B1",
        means: "a terminal address above 30, or one twice on a bus",
        remedy: "Take each address of 0 to 30 once.",
        example: "terminal 5 and below it terminal 5",
    },
    Explanation {
        code: "B2",
        means: "memory was refused for a bus",
        remedy: "Give the program more memory.",
        example: "bench: memory",
    },
    Explanation {
        code: "device",
        means: "a file or a stream failed; - is standard input or output",
        remedy: "See that the file is there and may be read, or that its folder is there and may be written; the \
            line behind the fault has the system's own words, if any.",
        example: "bench: device missing.ch11",
    },
    Explanation {
        code: "memory",
        means: "memory was refused",
        remedy: "Give the program more memory, close others, or take fewer or shorter inputs.",
        example: "bench: memory",
    },
    Explanation {
        code: "unknown",
        means: "a line that bench step does not understand",
        remedy: "Its lines are forward, back, go, find, find back, state, data, show, help and quit; help says what \
            stands behind each.",
        example: "forwards",
    },
];
