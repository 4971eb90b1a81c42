//! Words as hexadecimal digits.
ghost use Rattle.bench_judge.specs.Told as spec;
ghost use Rattle.std.specs.List.{flat_map};
ghost use Rattle.std.specs.Prelude.{◌≡◌, ◌++◌, OnOk};

use numerals::digit_of;
use std::alloc::AllocError;

/// Appends a word as four hexadecimal digits.
pub(crate) fn put_digits(text: &mut Vec<u8>, word: u16) -> Result<(), AllocError>
    ensures { OnOk result (text.new.items ≡ text.old.items ++ spec.word_digits word) }
{
    text.extend_from_slice(&[
        digit_of((word / 4096 % 16) as u8),
        digit_of((word / 256 % 16) as u8),
        digit_of((word / 16 % 16) as u8),
        digit_of((word % 16) as u8),
    ])
}

/// Appends a word behind a space.
pub(crate) fn put_word(text: &mut Vec<u8>, word: u16) -> Result<(), AllocError>
    ensures { OnOk result (text.new.items ≡ text.old.items ++ spec.spaced_word word) }
{
    text.push(b' ')?;
    put_digits(text, word)
}

/// Appends words, each behind a space.
pub(crate) fn put_words(text: &mut Vec<u8>, words: &[u16]) -> Result<(), AllocError>
    ensures { OnOk result (text.new.items ≡ text.old.items ++ flat_map spec.spaced_word words.now) }
{
    let mut rest = words;
    'words: while let Some((word, others)) = rest.split_first() {
        put_word(text, *word)?;
        rest = others;
    }
    Ok(())
}
