//! The numbers that words spell, in base ten and sixteen. Each edge of a rule has a row on both sides.
use crate::tests::equal::same_in;
use numerals::{digit, spelled};

/// Bytes, and their values as digits; 36 is none.
const DIGITS: &[(u8, u8)] = &[
    (b'/', 36),
    (b'0', 0),
    (b'9', 9),
    (b':', 36),
    (b'@', 36),
    (b'A', 10),
    (b'Z', 35),
    (b'[', 36),
    (b'`', 36),
    (b'a', 10),
    (b'z', 35),
    (b'{', 36),
];

#[test]
fn values_of_digits(rt: HostRuntime) {
    for (byte, value) in DIGITS {
        let found = (*byte, digit(*byte));
        same_in(&rt, "byte, digit", &found, &(*byte, *value));
    }
}

/// Words, and the numbers that they spell as one to seven decimal digits.
const DECIMAL: &[(&str, Option<u64>)] = &[
    ("0", Some(0)),
    ("0000012", Some(12)),
    ("9999999", Some(9_999_999)),
    ("", None),
    ("00000012", None),
    ("-1", None),
    ("+1", None),
    ("1a", None),
    ("a", None),
    ("1 ", None),
];

/// Words, and the numbers that they spell as four hexadecimal digits.
const HEXADECIMAL: &[(&str, Option<u64>)] = &[
    ("0000", Some(0)),
    ("12aF", Some(0x12AF)),
    ("FFFF", Some(0xFFFF)),
    ("ffff", Some(0xFFFF)),
    ("fff", None),
    ("0ffff", None),
    ("000g", None),
    ("0x12", None),
];

#[test]
fn words_that_spell_numbers(rt: HostRuntime) {
    for (word, number) in DECIMAL {
        same_in(&rt, word, &spelled(10, 1, 7, word.as_bytes()), number);
    }
    for (word, number) in HEXADECIMAL {
        same_in(&rt, word, &spelled(16, 4, 4, word.as_bytes()), number);
    }
    let fifteen = spelled(16, 15, 15, b"fffffffffffffff");
    same_in(&rt, "fifteen", &fifteen, &Some(0xFFF_FFFF_FFFF_FFFF));
}
