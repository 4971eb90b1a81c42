//! The check of a rule, with which its line ends.
ghost use Rattle.judge_rules.specs.Checks as spec;
ghost use Rattle.std.specs.Prelude.{◌≡◌, drop};

use crate::fault::{RuleFault, both};
use crate::kinds::read_counted;
use crate::rules::{Bounds, Check, Datum, WordRange};
use crate::values::{read_bounds, read_data, read_number, read_word};
use crate::words::ended;
use text_lines::{Words, meaning};

/// The longest gap that a recording tells, in ticks.
const MOST_TICKS: u32 = 255;
/// The greatest number of seven digits.
const MOST: u32 = 9_999_999;
/// The most data words that a message has.
const MOST_WORDS: u32 = 32;

/// The name of a check.
#[derive(Clone, Copy)]
pub(crate) enum CheckName {
    Sound,
    Failed,
    Clean,
    Status,
    Data,
    Response,
    Period,
    Count,
    DataWord,
    Whole,
}

/// The words that name checks.
const NAMES: [(&[u8], CheckName); 10] = [
    (b"ok", CheckName::Sound),
    (b"fail", CheckName::Failed),
    (b"clean", CheckName::Clean),
    (b"status", CheckName::Status),
    (b"data", CheckName::Data),
    (b"response", CheckName::Response),
    (b"period", CheckName::Period),
    (b"count", CheckName::Count),
    (b"word", CheckName::DataWord),
    (b"whole", CheckName::Whole),
];

/// The check that a word names.
#[tactic(auto, unfolding(crate::specs::Checks::name_of))]
fn name_of(word: &[u8]) -> Option<CheckName>
    ensures { result ≡ spec.name_of word.now }
{
    meaning(&NAMES, word)
}

/// A mask, all bits where there is none.
fn read_mask(words: &mut Words<'_>) -> Result<u16, RuleFault>
    ensures { result ≡ spec.mask_in words.old }
{
    let mask = if words.takes(b"mask") {
        read_word(words)
    } else {
        Ok(0xFFFF)
    };
    ended(words, mask)
}

/// The value of a status word, and perhaps a mask.
fn read_status(words: &mut Words<'_>) -> Result<Datum, RuleFault>
    ensures { result ≡ spec.status_in words.old }
{
    let value = read_word(words);
    let mask = read_mask(words);
    let (value, mask) = both(value, mask)?;
    Ok(Datum { value, mask })
}

/// A least and a greatest number, and no more.
fn read_only_bounds(words: &mut Words<'_>, most: u32) -> Result<Bounds, RuleFault>
    ensures { result ≡ spec.only_bounds most words.old }
{
    let bounds = read_bounds(words, most);
    ended(words, bounds)
}

/// How many messages there are to be, all or those of a kind, and no more.
fn read_count(words: &mut Words<'_>) -> Result<Check, RuleFault>
    ensures { result ≡ spec.count_in words.old }
{
    let bounds = read_bounds(words, MOST);
    let counted = read_counted(words);
    let (bounds, counted) = both(bounds, counted)?;
    match counted {
        None => Ok(Check::Count(bounds)),
        Some(kind) => Ok(Check::CountOf { bounds, kind }),
    }
}

/// Which of the data words a check is about.
fn read_place(words: &mut Words<'_>) -> Result<u8, RuleFault>
    ensures value { result ≡ spec.place_in words.old }
    ensures rest { words.new ≡ drop 1 words.old }
{
    match read_number(words, 1, MOST_WORDS) {
        Ok(place) => Ok(place as u8),
        Err(fault) => Err(fault),
    }
}

/// The least and the greatest value of the data word at a place, and no more.
fn read_range(words: &mut Words<'_>, place: Result<u8, RuleFault>) -> Result<WordRange, RuleFault>
    ensures { result ≡ spec.range_in place words.old }
{
    let low = read_word(words);
    let high = read_word(words);
    let range = in_order(both(place, both(low, high)));
    ended(words, range)
}

/// A place and two values as a range, where the least is not above the greatest.
fn in_order(parts: Result<(u8, (u16, u16)), RuleFault>) -> Result<WordRange, RuleFault>
    ensures { result ≡ spec.in_order parts }
{
    let (place, (low, high)) = parts?;
    if low <= high {
        Ok(WordRange { place, low, high })
    } else {
        Err(RuleFault::Range)
    }
}

/// Which data word a check is about, and its values, or by how much it grows.
#[tactic(auto, unfolding(crate::specs::Checks::data_word_in))]
fn read_data_word(words: &mut Words<'_>) -> Result<Check, RuleFault>
    ensures { result ≡ spec.data_word_in words.old }
{
    let place = read_place(words);
    if words.takes(b"step") {
        Ok(Check::DataStep(read_range(words, place)?))
    } else {
        Ok(Check::DataWord(read_range(words, place)?))
    }
}

/// The check that the words spell, and no more.
pub fn read_check(words: &mut Words<'_>) -> Result<Check, RuleFault>
    ensures { result ≡ spec.check_in words.old }
{
    let Some(word) = words.next() else {
        return Err(RuleFault::Word);
    };
    let Some(name) = name_of(word) else {
        return Err(RuleFault::Word);
    };
    match name {
        CheckName::Sound => ended(words, Ok(Check::Sound)),
        CheckName::Failed => ended(words, Ok(Check::Failed)),
        CheckName::Clean => ended(words, Ok(Check::Clean)),
        CheckName::Status => Ok(Check::Status(read_status(words)?)),
        CheckName::Data => Ok(Check::Data(read_data(words)?)),
        CheckName::Response => Ok(Check::Response(read_only_bounds(words, MOST_TICKS)?)),
        CheckName::Period => Ok(Check::Period(read_only_bounds(words, MOST)?)),
        CheckName::Count => read_count(words),
        CheckName::DataWord => read_data_word(words),
        CheckName::Whole => ended(words, Ok(Check::Whole)),
    }
}
