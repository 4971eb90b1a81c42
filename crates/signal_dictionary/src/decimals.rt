//! Decimal numbers in the words of a text.
ghost use Rattle.numerals.specs.Numerals.{are_digits};
ghost use Rattle.signal_dictionary.specs.Decimals as spec;
ghost use Rattle.signal_dictionary.specs.Fitting.{is_decimal};
ghost use Rattle.std.specs.Prelude.{◌≡◌, ◌+◌, ◌*◌, ◌^◌, ◌<◌, ◌≤◌, true, drop, length, IfOk};
ghost use Rattle.std.specs.Option.{option_copied};
ghost use Rattle.std.specs.Str.Parse.{digits_value};

use judge_rules::{RuleFault, parts_at_point};
use numerals::digit;
use text_lines::Words;

/// How many digits a decimal has at most.
const MOST_DIGITS: usize = 18;

/// A decimal number: `digits` over ten to the power `places`, below zero where it is negative.
#[derive(Clone, Copy, Debug, PartialEq, Eq)]
pub struct Decimal {
    pub negative: bool,
    /// Its digits as a number, at most 18 of them.
    pub digits: u64,
    /// How many of them stand behind the point, at most 17.
    pub places: u8,
}

/// The decimal 1, which is the scale where none is told.
pub(crate) const ONE: Decimal = Decimal {
    negative: false,
    digits: 1,
    places: 0,
};

/// The decimal 0, which is the offset where none is told.
pub(crate) const ZERO: Decimal = Decimal {
    negative: false,
    digits: 0,
    places: 0,
};

/// What stands behind the point with which a text begins: nothing of a text without one; none of a point alone.
fn behind_point(text: &[u8]) -> Option<&[u8]>
    ensures { option_copied result ≡ spec.behind_point text.now }
{
    let Some((_, behind)) = text.split_first() else {
        return Some(text);
    };
    if behind.is_empty() {
        None
    } else {
        Some(behind)
    }
}

/// Whether these are the digits of a decimal: at least one in front of the point, at most 18.
fn are_those_of_decimal(whole: &[u8], behind: &[u8]) -> bool
    ensures { result ≡ spec.are_those_of_decimal whole.now behind.now }
{
    1 <= whole.len()
        && whole.len() <= MOST_DIGITS
        && behind.len() <= MOST_DIGITS - whole.len()
        && all_digits(whole)
        && all_digits(behind)
}

/// Whether each byte is a decimal digit.
fn all_digits(text: &[u8]) -> bool
    ensures { result ≡ are_digits 10 text.now }
{
    text.iter().all(|byte| digit(*byte) < 10)
}

/// The number that decimal digits spell, at most eighteen of them.
fn number(text: &[u8]) -> u64
    requires few { length text.now ≤ 18 }
    requires digits { are_digits 10 text.now ≡ true }
    ensures value { result ≡ digits_value 10 text.now }
    ensures small { result < 10 ^ length text.now }
{
    let mut total = 0u64;
    for byte in text {
        total = total * 10 + u64::from(digit(*byte));
    }
    total
}

/// Ten to a power.
fn ten_to(places: usize) -> u64
    requires { places ≤ 18 }
    ensures value { result ≡ 10 ^ places }
    ensures small { result ≤ 10 ^ 18 }
{
    10u64.pow(places as u32)
}

/// The digits in front of the point and behind it as one number.
fn joined(whole: &[u8], behind: &[u8]) -> u64
    requires few { length whole.now + length behind.now ≤ 18 }
    requires front { are_digits 10 whole.now ≡ true }
    requires back { are_digits 10 behind.now ≡ true }
    ensures value { result ≡ spec.joined whole.now behind.now }
    ensures small { result < 10 ^ 18 }
{
    let front = number(whole);
    let scale = ten_to(behind.len());
    let back = number(behind);
    let upper = front * scale;
    upper + back
}

/// The decimal without its sign that a text spells.
fn unsigned(negative: bool, text: &[u8]) -> Result<Decimal, RuleFault>
    ensures value { result ≡ spec.unsigned negative text.now }
    ensures range { IfOk result (λ d. is_decimal d ≡ true) }
{
    let (whole, rest) = parts_at_point(text);
    let Some(behind) = behind_point(rest) else {
        return Err(RuleFault::Number);
    };
    if !are_those_of_decimal(whole, behind) {
        return Err(RuleFault::Number);
    }
    Ok(Decimal {
        negative,
        digits: joined(whole, behind),
        places: behind.len() as u8,
    })
}

/// The decimal that a text spells, as `-0.25`: perhaps `-`, digits, and perhaps a point and digits, 1 to 18 of them,
/// of which at least one stands in front of the point. Else a fault of a number.
#[tactic(auto, unfolding(crate::specs::Decimals::decimal_of))]
pub fn decimal_of(text: &[u8]) -> Result<Decimal, RuleFault>
    ensures value { result ≡ spec.decimal_of text.now }
    ensures range { IfOk result (λ d. is_decimal d ≡ true) }
{
    match text.split_first() {
        Some((first, rest)) => {
            if *first == b'-' {
                unsigned(true, rest)
            } else {
                unsigned(false, text)
            }
        }
        None => Err(RuleFault::Number),
    }
}

/// A decimal as the next word.
fn read_decimal(words: &mut Words<'_>) -> Result<Decimal, RuleFault>
    ensures value { result ≡ spec.decimal_in words.old }
    ensures rest { words.new ≡ drop 1 words.old }
{
    match words.next() {
        Some(word) => decimal_of(word),
        None => Err(RuleFault::Word),
    }
}

/// The decimal behind a word, where that comes next; else the one that counts where none is told.
fn read_told(words: &mut Words<'_>, word: &[u8], untold: Decimal) -> Result<Decimal, RuleFault>
    ensures value { result ≡ spec.told_in word.now untold words.old }
    ensures rest { words.new ≡ spec.behind_told word.now words.old }
{
    if words.takes(word) {
        read_decimal(words)
    } else {
        Ok(untold)
    }
}

/// The scale, 1 where none is told.
pub(crate) fn read_scale(words: &mut Words<'_>) -> Result<Decimal, RuleFault>
    ensures value { result ≡ spec.scale_in words.old }
    ensures rest { words.new ≡ spec.behind_scale words.old }
{
    read_told(words, b"scale", ONE)
}

/// The offset, 0 where none is told.
pub(crate) fn read_offset(words: &mut Words<'_>) -> Result<Decimal, RuleFault>
    ensures value { result ≡ spec.offset_in words.old }
    ensures rest { words.new ≡ spec.behind_offset words.old }
{
    read_told(words, b"offset", ZERO)
}
