//! The place of a signal.
ghost use Rattle.signal_dictionary.specs.Places as spec;
ghost use Rattle.std.specs.Prelude.{◌≡◌, ◌≤◌, drop};

use crate::signals::Place;
use judge_rules::{RuleFault, both, read_number};
use text_lines::Words;

/// A small number as the next word.
fn read_small(words: &mut Words<'_>, low: u8, high: u8) -> Result<u8, RuleFault>
    ensures value { result ≡ spec.small_in low high words.old }
    ensures rest { words.new ≡ drop 1 words.old }
{
    match read_number(words, u32::from(low), u32::from(high)) {
        Ok(number) => Ok(number as u8),
        Err(fault) => Err(fault),
    }
}

/// The upper and the lower bit, all bits of a word where none are told.
fn read_bits(words: &mut Words<'_>) -> Result<(u8, u8), RuleFault>
    ensures value { result ≡ spec.bits_in words.old }
    ensures rest { words.new ≡ spec.behind_bits words.old }
{
    if !words.takes(b"bits") {
        return Ok((15, 0));
    }
    let high = read_small(words, 0, 15);
    let low = read_small(words, 0, 15);
    both(high, low)
}

/// A word, and perhaps bits of it.
fn read_word(words: &mut Words<'_>) -> Result<Place, RuleFault>
    ensures value { result ≡ spec.word_in words.old }
    ensures rest { words.new ≡ spec.behind_word words.old }
{
    let word = read_small(words, 1, 32);
    let bits = read_bits(words);
    let (word, (high, low)) = both(word, bits)?;
    Ok(Place::Bits { word, high, low })
}

/// Two words.
fn read_pair(words: &mut Words<'_>) -> Result<Place, RuleFault>
    ensures value { result ≡ spec.pair_in words.old }
    ensures rest { words.new ≡ drop 1 words.old }
{
    let first = read_small(words, 1, 31)?;
    Ok(Place::Pair { first })
}

/// The place that the next words spell.
pub(crate) fn read_place(words: &mut Words<'_>) -> Result<Place, RuleFault>
    ensures value { result ≡ spec.place_in words.old }
    ensures rest { words.new ≡ spec.behind_place words.old }
{
    let Some(name) = words.next() else {
        return Err(RuleFault::Word);
    };
    if name == b"word".as_slice() {
        read_word(words)
    } else if name == b"words".as_slice() {
        read_pair(words)
    } else {
        Err(RuleFault::Word)
    }
}
