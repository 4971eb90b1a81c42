//! The codes of runs, reports, the queue and the debugger.

use crate::explanation::Explanation;

/// Each code of them, in order.
pub(crate) static EXPLANATIONS: [Explanation; 23] = [
    Explanation {
        code: "U1",
        means: "two jobs of one channel",
        remedy: "Give each job a channel of its own.",
        example: "bench run .. one.job one.job",
    },
    Explanation {
        code: "U2",
        means: "no job, more than 32, or --limit or --queue out of range",
        remedy: "Name 1 to 32 jobs; --limit is 256 to 524288 and --queue 1 to 4096.",
        example: "bench run --queue 0 ..",
    },
    Explanation {
        code: "U3",
        means: "memory or a thread was refused to a run",
        remedy: "Give the program more memory, or run fewer jobs at once.",
        example: "bench: memory",
    },
    Explanation {
        code: "U4",
        means: "the out file failed once it had taken so many bytes",
        remedy: "See that the disk has room; what was there before the run is kept, and FILE.part has what was taken.",
        example: "bench: U4 taken 100",
    },
    Explanation {
        code: "U5",
        means: "the prologue is no list of sound packets, or has one of MIL-STD-1553 messages",
        remedy: "Name a file of Chapter 11 packets of other types, such as a setup record; bench dump says what is in \
            it.",
        example: "bench run --prologue flight.ch11 ..",
    },
    Explanation {
        code: "X1",
        means: "a word of a report that cannot stand there, is missing or is left over",
        remedy: "Use the report of the run as it was written.",
        example: "made 5 5",
    },
    Explanation {
        code: "X2",
        means: "a number of a report that is none or out of its range",
        remedy: "Use the report of the run as it was written.",
        example: "channel 0",
    },
    Explanation {
        code: "X3",
        means: "a line of a report out of its place, or its last line is missing",
        remedy: "Use the report of the run as it was written, whole.",
        example: "refused 4 and below it refused 3",
    },
    Explanation {
        code: "X4",
        means: "memory was refused while a report was read",
        remedy: "Give the program more memory.",
        example: "bench: memory",
    },
    Explanation {
        code: "Y1",
        means: "jobs, report and recording do not agree; this is the first difference",
        remedy: "Name the recording, the report and the jobs of one run, the jobs in the order of that run; number 0 \
            says that their channels differ.",
        example: "bench: Y1 channel 1 number 3",
    },
    Explanation {
        code: "Y2",
        means: "there is no such message, or none makes the condition true",
        remedy: "Go back, or try another condition; the place stays as it was.",
        example: "find bit busy",
    },
    Explanation {
        code: "Y3",
        means: "the place is the beginning already",
        remedy: "Go forward.",
        example: "back",
    },
    Explanation {
        code: "Y4",
        means: "memory was refused to the debugger",
        remedy: "Give the program more memory, or debug a shorter recording.",
        example: "bench: memory",
    },
    Explanation {
        code: "O1",
        means: "a step of a channel that there is not",
        remedy: "Only programs that use bench_core see it.",
        example: "World::play",
    },
    Explanation {
        code: "O2",
        means: "memory was refused at a step",
        remedy: "Only programs that use bench_core see it.",
        example: "World::play",
    },
    Explanation {
        code: "O3",
        means: "an action posted to an address at which its channel has no terminal",
        remedy: "Only programs that use bench_core see it.",
        example: "World::play",
    },
    Explanation {
        code: "O4",
        means: "more posts of a channel than the settings allow",
        remedy: "Only programs that use bench_core see it: raise Settings::posts, up to 65536.",
        example: "World::play",
    },
    Explanation {
        code: "E1",
        means: "a capacity of a mailbox outside 1 to 4096 posts",
        remedy: "Only programs that use bench_mail see it: choose a capacity in the range.",
        example: "Mailbox::make",
    },
    Explanation {
        code: "E2",
        means: "memory was refused for a mailbox",
        remedy: "Only programs that use bench_mail see it: give the program more memory.",
        example: "Mailbox::make",
    },
    Explanation {
        code: "E3",
        means: "a post to an address at which the job has no terminal",
        remedy: "Post to a terminal that the job of the channel names; a line of bench run --live has the channel, \
            the address and the action.",
        example: "bench: E3 line 4",
    },
    Explanation {
        code: "E4",
        means: "a post to a mailbox that is full",
        remedy: "Only programs that use bench_mail see it: post again later, or make a larger mailbox.",
        example: "Mailbox::post",
    },
    Explanation {
        code: "Q1",
        means: "a capacity of the queue outside 1 to 4096",
        remedy: "Choose a capacity in the range.",
        example: "--queue 5000",
    },
    Explanation {
        code: "Q2",
        means: "memory was refused for the queue",
        remedy: "Give the program more memory.",
        example: "bench: memory",
    },
];
