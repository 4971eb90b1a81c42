//! The codes of dictionaries of signals.

use crate::explanation::Explanation;

/// Each code of them, in order.
pub(crate) static EXPLANATIONS: [Explanation; 4] = [
    Explanation {
        code: "D1",
        means: "a word of a dictionary that cannot stand there, is missing or is left over; or a name, a label or a \
            unit of another form",
        remedy: "Write signal NAME, perhaps channel N, a selector, word I [bits H L] or words I, and unsigned, signed, \
            bcd or names NUMBER=LABEL, then perhaps scale, offset and unit.",
        example: "signal speed tx 5 2 unsigned",
    },
    Explanation {
        code: "D2",
        means: "a number of a dictionary that is none, or is no decimal",
        remedy: "Write one to seven decimal digits; a scale and an offset have 1 to 18 digits, as -0.25.",
        example: "signal speed tx 5 2 word 1 unsigned scale .5",
    },
    Explanation {
        code: "D3",
        means: "a number of a dictionary out of its range, a name or a number twice, more than 64 named numbers or \
            more than 10,000 signals",
        remedy: "Take data words 1 to 32, bits 15 to 0 with the upper one first, a width that is a multiple of four \
            for bcd, a scale that is not zero, and each name and number once.",
        example: "signal speed tx 5 2 word 33 unsigned",
    },
    Explanation {
        code: "D4",
        means: "memory was refused while a dictionary was read",
        remedy: "Give the program more memory.",
        example: "bench: memory",
    },
];
