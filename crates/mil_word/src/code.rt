//! The wave of a word, and the word of a wave.
ghost use Rattle.mil_word.specs.Wave.{digits, number, pair, first_halves, wave_of, raw_of, word_of};
ghost use Rattle.mil_word.specs.declared.Sync.TheVariants.{CommandSync, DataSync};
ghost use Rattle.mil_word.specs.declared.Word.{Word};
ghost use Rattle.std.specs.List.{flat_map};
ghost use Rattle.std.specs.Prelude.{◌≡◌, ◌+◌, ◌*◌, ◌/◌, ◌%◌, ◌<◌, ◌^◌, ◌↔◌, ◌==◌, if◌then◌else◌, Some};

use crate::tables::{FIRSTS, PAIRS};
use crate::{Sync, Wave, Word};

/// The half bits of a byte: 10 for a one, 01 for a zero.
#[inline]
fn pairs_of(byte: u8) -> u64
    ensures halves { result ≡ number (flat_map pair (digits 8 byte)) }
    ensures small { result < 2 ^ 16 }
{
    u64::from(PAIRS[byte as usize])
}

/// The half bits of a word from those of its parts.
#[inline]
fn joined(sync: u64, high: u64, low: u64, last: u64) -> u64
    requires six { sync < 2 ^ 6 }
    requires sixteen { high < 2 ^ 16 }
    requires sixteen_more { low < 2 ^ 16 }
    requires two { last < 4 }
    ensures { result ≡ sync * 2 ^ 34 + (high * 2 ^ 18 + (low * 4 + last)) }
{
    sync << 34 | (high << 18 | (low << 2 | last))
}

/// The half bits of a word (MIL-STD-1553B 4.3.3.2, 4.3.3.5).
pub(crate) fn half_bits_of(word: Word) -> u64
    ensures value { result ≡ wave_of word }
    ensures small { result < 2 ^ 40 }
{
    let sync: u64 = match word.sync {
        Sync::CommandSync => 0b111000,
        Sync::DataSync => 0b000111,
    };
    let high = pairs_of((word.value >> 8) as u8);
    let low = pairs_of((word.value & 0xff) as u8);
    let last = u64::from((word.value.count_ones() + 1) % 2) + 1;
    joined(sync, high, low, last)
}

/// The wave of a word (MIL-STD-1553B 4.3.3.2, 4.3.3.5). Its half bits are worked out where they are asked for.
#[inline]
pub fn encode(word: Word) -> Wave
    ensures { result ≡ wave_of word }
{
    Wave::of_word(word)
}

/// The first halves of the four pairs in eight half bits.
#[inline]
fn firsts_of(halves: u8) -> u16
    ensures firsts { result ≡ number (first_halves (digits 8 halves)) }
    ensures small { result < 16 }
{
    u16::from(FIRSTS[halves as usize])
}

/// A number of four digits of four bits each.
#[inline]
fn nibbles(a: u16, b: u16, c: u16, d: u16) -> u16
    requires first { a < 16 }
    requires second { b < 16 }
    requires third { c < 16 }
    requires fourth { d < 16 }
    ensures { result ≡ a * 2 ^ 12 + (b * 2 ^ 8 + (c * 2 ^ 4 + d)) }
{
    a << 12 | (b << 8 | (c << 4 | d))
}

/// The first half of each of the 16 information pairs of these half bits.
fn raw_in(half_bits: u64) -> u16
    ensures { result ≡ raw_of half_bits }
{
    nibbles(
        firsts_of((half_bits >> 26 & 0xff) as u8),
        firsts_of((half_bits >> 18 & 0xff) as u8),
        firsts_of((half_bits >> 10 & 0xff) as u8),
        firsts_of((half_bits >> 2 & 0xff) as u8),
    )
}

/// The first half of each of the 16 information pairs, sound or not.
#[inline]
pub fn raw_bits(wave: Wave) -> u16
    ensures { result ≡ raw_of wave }
{
    match decode(wave) {
        Some(word) => word.value,
        None => raw_in(wave.half_bits()),
    }
}

/// The sync of a sound wave.
fn sync_of(half_bits: u64) -> Sync
    ensures { result ≡ (if half_bits / 2 ^ 34 == 56 then CommandSync else DataSync) }
{
    if half_bits >> 34 == 0b111000 {
        Sync::CommandSync
    } else {
        Sync::DataSync
    }
}

/// The word that these half bits are; None where the sync, a pair or the parity is wrong (MIL-STD-1553B 4.4.1.1).
pub(crate) fn read(half_bits: u64) -> Option<Word>
    requires { half_bits < 2 ^ 40 }
    ensures { result ≡ word_of half_bits }
{
    let word = Word {
        sync: sync_of(half_bits),
        value: raw_in(half_bits),
    };
    if half_bits_of(word) == half_bits {
        Some(word)
    } else {
        None
    }
}

/// The word whose wave this is; None where the sync, a pair or the parity is wrong (MIL-STD-1553B 4.4.1.1).
#[inline]
pub fn decode(wave: Wave) -> Option<Word>
    ensures read { result ≡ word_of wave }
    ensures sound { (word : Word) → word.value < 2 ^ 16 → ((result ≡ Some word) ↔ (wave ≡ wave_of word)) }
{
    wave.word()
}
