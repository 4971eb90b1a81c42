//! Numbers by 64 letters.
ghost use Rattle.bench_view.specs.Letters as spec;
ghost use Rattle.std.specs.Prelude.{◌≡◌, ◌<◌, ◌++◌, ◌∷◌, [], OnOk};

use std::alloc::AllocError;

/// How many letters a number of 64 bits has at most.
const MOST: u32 = 11;

/// The letter of a value below 64: a digit, a letter of either case, `_` or `.`.
fn letter_of(value: u64) -> u8
    requires { value < 64 }
    ensures { result ≡ spec.letter value }
{
    if value < 10 {
        b'0' + value as u8
    } else if value < 36 {
        b'A' - 10 + value as u8
    } else if value < 62 {
        b'a' - 36 + value as u8
    } else if value == 62 {
        b'_'
    } else {
        b'.'
    }
}

/// Puts a number in at most so many letters, the highest place first, without leading zeros.
#[tactic(auto, unfolding(crate::specs::Letters::letters))]
fn put_letters(text: &mut Vec<u8>, most: u32, value: u64) -> Result<(), AllocError>
    ensures { OnOk result (text.new.items ≡ text.old.items ++ spec.letters most value) }
{
    if most == 0 {
        return Ok(());
    }
    let last = letter_of(value % 64);
    if value < 64 {
        text.push(last)?;
        return Ok(());
    }
    put_letters(text, most - 1, value / 64)?;
    text.push(last)?;
    Ok(())
}

/// Puts a number.
pub(crate) fn put_number(text: &mut Vec<u8>, value: u64) -> Result<(), AllocError>
    ensures { OnOk result (text.new.items ≡ text.old.items ++ spec.number_text value) }
{
    put_letters(text, MOST, value)
}

/// Puts a word as three letters.
pub(crate) fn put_word(text: &mut Vec<u8>, word: u16) -> Result<(), AllocError>
    ensures { OnOk result (text.new.items ≡ text.old.items ++ spec.word_text word) }
{
    let value = u64::from(word);
    text.push(letter_of(value / 4096))?;
    text.push(letter_of(value / 64 % 64))?;
    text.push(letter_of(value % 64))?;
    Ok(())
}
