//! The codec bit by bit: plain, slow bodies under the contracts of `mil_word`, for tests to compare with.
ghost use Rattle.mil_word.specs.Wave.{wave_of, raw_of, word_of};
ghost use Rattle.mil_word.specs.declared.Sync.TheVariants.{CommandSync, DataSync};
ghost use Rattle.mil_word.specs.declared.Word.{Word};
ghost use Rattle.std.specs.Prelude.{◌≡◌, ◌+◌, ◌*◌, ◌/◌, ◌%◌, ◌<◌, ◌^◌, ◌↔◌, ◌==◌, if◌then◌else◌, Some};

use mil_word::{Sync, Wave, Word};

/// A bit of the value, by its place.
fn bit_at(value: u16, place: u32) -> u64
    requires { place < 16 }
    ensures { result ≡ value / 2 ^ place % 2 }
{
    u64::from(value >> place & 1)
}

/// The half bits with the pair of one more bit: 10 for a one, 01 for a zero.
fn with_pair(half_bits: u64, bit: u64) -> u64
    requires room { half_bits < 2 ^ 38 }
    requires binary { bit < 2 }
    ensures { result ≡ half_bits * 4 + (bit + 1) }
{
    half_bits << 2 | bit + 1
}

/// The wave of a word.
pub fn encode(word: Word) -> Wave
    ensures { result ≡ wave_of word }
{
    let mut half_bits: u64 = match word.sync {
        Sync::CommandSync => 0b111000,
        Sync::DataSync => 0b000111,
    };
    let mut ones: u64 = 0;
    for place in (0..16u32).rev() {
        let bit = bit_at(word.value, place);
        half_bits = with_pair(half_bits, bit);
        ones += bit;
    }
    half_bits = with_pair(half_bits, (ones + 1) % 2);
    Wave::of(half_bits)
}

/// A half bit of the wave, by its place.
fn half_at(wave: Wave, place: u32) -> u64
    requires { place < 40 }
    ensures { result ≡ wave / 2 ^ place % 2 }
{
    wave.half_bits() >> place & 1
}

/// The first half of each of the 16 information pairs, sound or not.
pub fn raw_bits(wave: Wave) -> u16
    ensures { result ≡ raw_of wave }
{
    let mut raw: u64 = 0;
    for pair in (0..16u32).rev() {
        raw = raw * 2 + half_at(wave, 2 * pair + 3);
    }
    raw as u16
}

/// The sync of a sound wave.
fn sync_of(wave: Wave) -> Sync
    ensures sync { result ≡ (if wave / 2 ^ 34 == 56 then CommandSync else DataSync) }
    ensures small { wave < 2 ^ 40 }
{
    if wave.half_bits() >> 34 == 0b111000 {
        Sync::CommandSync
    } else {
        Sync::DataSync
    }
}

/// Whether a wave is that of a word.
fn is_wave_of(wave: Wave, word: Word) -> bool
    ensures { result ≡ (wave_of word == wave) }
{
    encode(word) == wave
}

/// The word whose wave this is; None where the sync, a pair or the parity is wrong.
pub fn decode(wave: Wave) -> Option<Word>
    ensures read { result ≡ word_of wave }
    ensures sound { (word : Word) → word.value < 2 ^ 16 → ((result ≡ Some word) ↔ (wave ≡ wave_of word)) }
{
    let word = Word {
        sync: sync_of(wave),
        value: raw_bits(wave),
    };
    if is_wave_of(wave, word) {
        Some(word)
    } else {
        None
    }
}
