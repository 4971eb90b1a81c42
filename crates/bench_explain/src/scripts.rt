//! The codes of scripts, messages, the assembler, the loader and images.

use crate::explanation::Explanation;

/// Each code of them, in order.
pub(crate) static EXPLANATIONS: [Explanation; 33] = [
    Explanation {
        code: "S1",
        means: "a byte that is in no token of the script language",
        remedy: "Take the byte out: words have letters, digits and _, and beside them there are { } ( ) [ ], spaces \
            and comments behind #.",
        example: "send A rx 5 1 [0001];",
    },
    Explanation {
        code: "S2",
        means: "a token that cannot stand there",
        remedy: "See what the grammar allows at that place: docs/formats.md, Scripts.",
        example: "send C rx 5 1 [0001]",
    },
    Explanation {
        code: "S3",
        means: "a word that is no number",
        remedy: "Write a number of one to seven decimal digits, or a data word of exactly four hexadecimal digits.",
        example: "send A rx 5 1 [1]",
    },
    Explanation {
        code: "S4",
        means: "a message whose numbers do not go together; the code behind it, M1 to M5, says why",
        remedy: "Look up the code that stands behind the place, as in bench explain M3.",
        example: "send A rx 5 1 []",
    },
    Explanation {
        code: "S5",
        means: "the text ends inside a frame or a block",
        remedy: "Finish the last frame, or close the block with }.",
        example: "repeat 3 { send A mode 5 1",
    },
    Explanation {
        code: "S6",
        means: "more than 16 blocks in one another, those of called frames counted, or more than 16 operators above a \
            test",
        remedy: "Take blocks apart, or put the frames one behind the other.",
        example: "repeat 1 { repeat 1 { .. seventeen of them .. } }",
    },
    Explanation {
        code: "S7",
        means: "a number out of its range: repeat and until 1 to 10000, retry 1 to 8, gap 40 to 65535, frame 100 to \
            6553500 in hundreds",
        remedy: "Choose a number in the range; loops in one another multiply.",
        example: "repeat 0 { send A mode 5 1 }",
    },
    Explanation {
        code: "S8",
        means: "the script may send more than 1000000 messages",
        remedy: "Lower the counts of the loops; a retry counts as often as it may be tried.",
        example: "repeat 10000 { repeat 101 { send A mode 5 1 } }",
    },
    Explanation {
        code: "S9",
        means: "memory was refused while a script was read",
        remedy: "Give the program more memory, or close others.",
        example: "bench: memory",
    },
    Explanation {
        code: "S10",
        means: "a definition of a name that was defined before, or a call of a name that was not",
        remedy: "Give each definition a name of its own, and define a frame above its first call; a frame cannot call \
            itself.",
        example: "define poll { call poll }",
    },
    Explanation {
        code: "S11",
        means: "a thirty-third definition",
        remedy: "Put frames that are always run together into one definition.",
        example: "thirty-three definitions",
    },
    Explanation {
        code: "M1",
        means: "a terminal address above 30",
        remedy: "Take an address of 0 to 30; 31 is that of all terminals, which the broadcast forms use by themselves.",
        example: "send A rx 31 1 [0001]",
    },
    Explanation {
        code: "M2",
        means: "a subaddress that is not 1 to 30",
        remedy: "Take a subaddress of 1 to 30; 0 and 31 are those of mode commands, so write mode or mode0 for these.",
        example: "send A rx 5 0 [0001]",
    },
    Explanation {
        code: "M3",
        means: "a count that is not 1 to 32, or a mode code that has no such form",
        remedy: "Give 1 to 32 data words; for mode codes see the table in docs/standard.md.",
        example: "send A tx 5 1 33",
    },
    Explanation {
        code: "M4",
        means: "both ends of a transfer are the same terminal",
        remedy: "Name two terminals.",
        example: "send A rt 5 1 5 2 3",
    },
    Explanation {
        code: "M5",
        means: "a mode command lacks its data word, or has one too many",
        remedy: "Codes 17, 20 and 21 take one word in brackets; codes 0 to 15, 16, 18 and 19 take none.",
        example: "send A mode 5 17",
    },
    Explanation {
        code: "A1",
        means: "the script needs more than 4096 operations",
        remedy: "Use repeat N { .. } where frames stand again and again, or define NAME { .. } and call NAME.",
        example: "4097 frames one behind the other",
    },
    Explanation {
        code: "A2",
        means: "the script has more than 1024 messages",
        remedy: "A message counts once for each place where it is written, however often it is sent: put messages that \
            recur into repeat N { .. }, or into define NAME { .. } with call NAME where they are sent; else share the \
            script out over several jobs.",
        example: "1025 send frames",
    },
    Explanation {
        code: "A3",
        means: "memory was refused while a script was assembled",
        remedy: "Give the program more memory.",
        example: "bench: memory",
    },
    Explanation {
        code: "P1",
        means: "a jump of an image that goes where it must not",
        remedy: "Assemble the script again; an image that the assembler writes never has this fault.",
        example: "an image that was changed by hand",
    },
    Explanation {
        code: "P2",
        means: "loops or frames of an image that do not pair in a routine, or more than 17 loops or 16 frames open at \
            once",
        remedy: "Assemble the script again.",
        example: "an image that was changed by hand",
    },
    Explanation {
        code: "P3",
        means: "an image sends a message that it does not have",
        remedy: "Assemble the script again.",
        example: "an image that was changed by hand",
    },
    Explanation {
        code: "P4",
        means: "an image has no operation, or does not end with Halt",
        remedy: "Assemble the script again.",
        example: "an image that was changed by hand",
    },
    Explanation {
        code: "P5",
        means: "the script may take more than 100000000 steps or 1000000 messages",
        remedy: "Lower the counts of the loops: loops in one another multiply, a retry counts as often as it may be \
            tried, and both branches of an if count.",
        example: "repeat 10000 { repeat 10000 { gap 40 } }",
    },
    Explanation {
        code: "P6",
        means: "memory was refused while an image was loaded",
        remedy: "Give the program more memory.",
        example: "bench: memory",
    },
    Explanation {
        code: "P7",
        means: "an image with more than 32 routines, or a Call of a routine that does not end before its own begins",
        remedy: "Assemble the script again; an image that the assembler writes never has this fault.",
        example: "an image that was changed by hand",
    },
    Explanation {
        code: "P8",
        means: "the periods of the script's frames come to more than 2^46 ticks (81 days) in one run",
        remedy: "Lower the periods, or the counts of the loops that the frames stand in.",
        example: "repeat 10000 { repeat 1000 { frame 6553500 { } } }",
    },
    Explanation {
        code: "C1",
        means: "no image: fewer than four bytes, or another mark than BC01, BC02 and BC03",
        remedy: "Name a file that bench assemble wrote.",
        example: "a script in the place of an image",
    },
    Explanation {
        code: "C2",
        means: "an image that ends too early, or goes on behind its last message",
        remedy: "Copy the file whole, or assemble the script again.",
        example: "an image that was cut",
    },
    Explanation {
        code: "C3",
        means: "an operation that there is not, or an operand out of its range",
        remedy: "Assemble the script again.",
        example: "an image that was changed by hand",
    },
    Explanation {
        code: "C4",
        means: "more than 1024 messages in an image, or bytes that are no message",
        remedy: "Assemble the script again.",
        example: "an image that was changed by hand",
    },
    Explanation {
        code: "C5",
        means: "memory was refused while an image was read",
        remedy: "Give the program more memory.",
        example: "bench: memory",
    },
    Explanation {
        code: "C6",
        means: "an image with the mark BC02 that has no operation above 9, or BC03 with none above 11",
        remedy: "Assemble the script again: the mark is the lowest that knows all operations.",
        example: "an image that was changed by hand",
    },
];
