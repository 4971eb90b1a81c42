//! Times in seconds, and single words.
ghost use Rattle.bench_dump.specs.DumpText.{word_digits};
ghost use Rattle.bench_export.specs.Frames as spec;
ghost use Rattle.std.specs.Prelude.{◌≡◌, ◌/◌, ◌++◌, ◌∷◌, [], OnOk};

use crate::row::Row;
use itoa::Buffer;
use numerals::digit_of;
use std::alloc::AllocError;

/// How many ticks of 0.1 µs a second has.
const SECOND: u64 = 10_000_000;

/// How many digits stand behind the point of a time in seconds.
const DECIMALS: u32 = 7;

/// Puts so many decimal digits of a number.
#[tactic(auto, unfolding(crate::specs::Frames::digits_of))]
fn put_digits(text: &mut Vec<u8>, count: u32, value: u64) -> Result<(), AllocError>
    ensures { OnOk result (text.new.items ≡ text.old.items ++ spec.digits_of count value) }
{
    if count == 0 {
        return Ok(());
    }
    put_digits(text, count - 1, value / 10)?;
    text.push(b'0' + (value % 10) as u8)?;
    Ok(())
}

/// Ticks as a field in seconds. The text is room for it.
pub(crate) fn push_seconds(row: &mut Row, text: &mut Vec<u8>, ticks: u64) -> Result<(), AllocError>
    ensures { OnOk result (row.new ≡ row.old ++ spec.seconds_text ticks ∷ []) }
{
    let mut buffer = Buffer::new();
    text.clear();
    text.extend_from_slice(buffer.format(ticks / SECOND).as_bytes())?;
    text.push(b'.')?;
    put_digits(text, DECIMALS, ticks % SECOND)?;
    row.push(text.as_slice())
}

/// Puts a word as four digits.
fn put_word(text: &mut Vec<u8>, word: u16) -> Result<(), AllocError>
    ensures { OnOk result (text.new.items ≡ text.old.items ++ word_digits word) }
{
    let (high, low) = ((word / 256) as u8, (word % 256) as u8);
    text.push(digit_of(high / 16))?;
    text.push(digit_of(high % 16))?;
    text.push(digit_of(low / 16))?;
    text.push(digit_of(low % 16))?;
    Ok(())
}

/// Puts 0x, where it is asked for.
fn put_prefix(text: &mut Vec<u8>, prefixed: bool) -> Result<(), AllocError>
    ensures { OnOk result (text.new.items ≡ text.old.items ++ spec.prefix_text prefixed) }
{
    if prefixed {
        text.extend_from_slice(b"0x")
    } else {
        Ok(())
    }
}

/// A word as a field, behind 0x where it is asked for; empty where there is none. The text is room for it.
#[tactic(auto, unfolding(crate::specs::Frames::word_text))]
pub(crate) fn push_word(
    row: &mut Row,
    text: &mut Vec<u8>,
    prefixed: bool,
    word: Option<u16>,
) -> Result<(), AllocError>
    ensures { OnOk result (row.new ≡ row.old ++ spec.word_if prefixed word ∷ []) }
{
    let Some(word) = word else {
        return row.push(b"");
    };
    text.clear();
    put_prefix(text, prefixed)?;
    put_word(text, word)?;
    row.push(text.as_slice())
}
