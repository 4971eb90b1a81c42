//! The codes of job texts, host actions and planned faults.

use crate::explanation::Explanation;

/// Each code of them, in order.
pub(crate) static EXPLANATIONS: [Explanation; 15] = [
    Explanation {
        code: "J1",
        means: "an unknown word in a job, or one that is missing or left over, as nth behind a selector",
        remedy: "Compare the line with those of docs/jobs.md; words are parted by spaces, and a tab is no space.",
        example: "terminals 5",
    },
    Explanation {
        code: "J2",
        means: "not a number or time, one out of its range, or more than 1000000 actions of series lines",
        remedy: "Times are as 1.5ms and at most 14073748.8355328s, places behind nth, message numbers and steps 1 to \
            1000000 with the first at most the last; \
                 channels are 1 to 65535, terminals 0 to 30, subaddresses of series 1 to 29, a start tick at most \
            140737488355328.",
        example: "terminal 31",
    },
    Explanation {
        code: "J3",
        means: "channel or start twice, channel missing, or script missing",
        remedy: "Write channel once and close the part above the script by a line script.",
        example: "channel 1 and below it channel 2",
    },
    Explanation {
        code: "J4",
        means: "a terminal twice, or an at or series line whose terminal no line above names",
        remedy: "Name each terminal once, above the at and series lines of its host.",
        example: "terminal 5 and below it terminal 5",
    },
    Explanation {
        code: "J5",
        means: "the action of an at line; the code behind it, H1 to H3, says why",
        remedy: "Look up the code that stands behind the line, as in bench explain H3.",
        example: "at 1 5 response 20",
    },
    Explanation {
        code: "J6",
        means: "a planned fault; the code behind it, L1 or L2, says why",
        remedy: "Look up the code that stands behind the line, as in bench explain L2.",
        example: "fault 1 late 1 500",
    },
    Explanation {
        code: "J7",
        means: "the script of a job; the code behind it says why, its line counted in the whole text",
        remedy: "Look up the code behind the place, as in bench explain S2.",
        example: "script and below it send A rx 5 1",
    },
    Explanation {
        code: "J8",
        means: "memory was refused while a job was read",
        remedy: "Give the program more memory.",
        example: "bench: memory",
    },
    Explanation {
        code: "J9",
        means: "the messages that a job has inserted and those that its script sends at worst are more than 1000000",
        remedy: "Insert fewer messages, or shorten the loops of the script.",
        example: "at 1 bc insert A mode 5 1 above a script of 1000000 messages",
    },
    Explanation {
        code: "H1",
        means: "a word of a host action that cannot stand there, is missing or is left over",
        remedy: "Compare it with the list of actions in docs/formats.md; a message is written as behind send in a \
            script.",
        example: "at 1 5 busy maybe",
    },
    Explanation {
        code: "H2",
        means: "not a number, or no data word of four hexadecimal digits",
        remedy: "Write numbers with one to seven decimal digits and data words with four hexadecimal digits.",
        example: "at 1 5 vector FF",
    },
    Explanation {
        code: "H3",
        means: "a number of a host action out of its range",
        remedy: "Subaddresses are 1 to 30 (29 for transmit), counts and places of words 1 to 32, mode codes 0 to 31, \
            response times 40 to 120 ticks of 0.1 us, gaps 21 to 255.",
        example: "at 1 5 response 20",
    },
    Explanation {
        code: "L1",
        means: "a fifth fault of one message",
        remedy: "Plan at most four faults of a message.",
        example: "five lines fault 1 ..",
    },
    Explanation {
        code: "L2",
        means: "a place or a value of a planned fault out of its range",
        remedy: "Runs are 0 to 2 (1 or 2 for late, mute and early), places 0 to 39 (1 to 39 for pause), late gaps 121 \
            to 255 ticks, early ones 21 to 39, pauses 21 to 255, babbled words 1 to 40, masks not all zero.",
        example: "fault 1 late 1 500",
    },
    Explanation {
        code: "L3",
        means: "memory was refused while a fault was planned",
        remedy: "Give the program more memory.",
        example: "bench: memory",
    },
];
