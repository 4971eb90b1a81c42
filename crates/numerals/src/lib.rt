//! Numbers in texts, for each reader of one: the value of a digit, the digit of a value, and the number that the
//! digits of a word spell. Letters are digits of either case.
//!
//! It may know: no other crate. Its tests: `mil_tests`. Its wrong bodies: `edits/`.
#![tactic(auto)]

ghost use Rattle.numerals.specs.Numerals.{are_digits, digit_of, spelled};
ghost use Rattle.std.specs.Char.{digit_value};
ghost use Rattle.std.specs.Prelude.{◌≡◌, ◌≤◌, ◌<◌, ◌^◌, true, length, IfSome};
ghost use Rattle.std.specs.Str.Parse.{digits_value};

/// The value of a digit or a letter, and 36 for any other byte.
pub fn digit(byte: u8) -> u8
    ensures value { result ≡ digit_value byte }
    ensures small { result ≤ 36 }
{
    match byte {
        b'0'..=b'9' => byte - b'0',
        b'A'..=b'Z' => byte - b'A' + 10,
        b'a'..=b'z' => byte - b'a' + 10,
        _ => 36,
    }
}

/// The hexadecimal digit of a value, in upper case.
pub fn digit_of(value: u8) -> u8
    requires { value < 16 }
    ensures { result ≡ digit_of value }
{
    if value < 10 {
        b'0' + value
    } else {
        b'A' + (value - 10)
    }
}

/// Whether each byte of a word is a digit in the base.
fn all_digits(base: u8, word: &[u8]) -> bool
    ensures { result ≡ are_digits base word.now }
{
    word.iter().all(|byte| digit(*byte) < base)
}

/// The number that digits spell, at most fifteen of them.
fn number(base: u8, word: &[u8]) -> u64
    requires base { base ≤ 16 }
    requires few { length word.now ≤ 15 }
    requires digits { are_digits base word.now ≡ true }
    ensures { result ≡ digits_value base word.now }
{
    let mut total = 0u64;
    for byte in word {
        total = total * u64::from(base) + u64::from(digit(*byte));
    }
    total
}

/// The number that a word of `least` to `most` digits in a base spells; `None` where it spells none.
#[tactic(auto, unfolding(crate::specs::Numerals::spelled))]
pub fn spelled(base: u8, least: usize, most: usize, word: &[u8]) -> Option<u64>
    requires base { base ≤ 16 }
    requires few { most ≤ 15 }
    ensures value { result ≡ spelled base least most word.now }
    ensures small { IfSome result (λ n. n < 16 ^ most) }
{
    if least <= word.len() && word.len() <= most && all_digits(base, word) {
        Some(number(base, word))
    } else {
        None
    }
}
