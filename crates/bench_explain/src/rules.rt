//! The codes of rules by which a recording is judged.

use crate::explanation::Explanation;

/// Each code of them, in order.
pub(crate) static EXPLANATIONS: [Explanation; 4] = [
    Explanation {
        code: "I1",
        means: "a word of a rule that cannot stand there, is missing or is left over; or a text without a rule",
        remedy: "Write expect, then perhaps channel N, line A or B, from TIME and to TIME, then a selector and a \
            check; whole stands behind any alone.",
        example: "expect tx 5 ok",
    },
    Explanation {
        code: "I2",
        means: "a number of a rule that is none, a word that is not four hexadecimal digits, or a time without its \
            unit",
        remedy: "Write one to seven decimal digits, * for any address, subaddress or code, words as 2C00, and times as \
            3.0s, 300ms or 12.5us.",
        example: "expect mode 5 2 status 12",
    },
    Explanation {
        code: "I3",
        means: "a number of a rule out of its range, a least one above the greatest, from behind to, more than 32 data \
            words, or more than 10,000 rules",
        remedy: "Take addresses 0 to 30, subaddresses 1 to 30, mode codes 0 to 31, data words 1 to 32 and gaps up to \
            255 ticks; broadcasts are brx, brt and bmode.",
        example: "expect rx 31 1 ok",
    },
    Explanation {
        code: "I4",
        means: "memory was refused while rules were read",
        remedy: "Give the program more memory.",
        example: "bench: memory",
    },
];
