//! The word codec for callers in C: `benches/words` measures it beside the same in C and in Rust.
//!
//! It may know: words. It has no tests: what it answers is compared by `benches/words`. Its wrong bodies: `edits/`.
#![tactic(auto)]

ghost use Rattle.mil_word.specs.Wave.{raw_of, word_of};
ghost use Rattle.mil_word.specs.Words.{command_wave};
ghost use Rattle.std.specs.Prelude.{◌≡◌};
ghost use Rattle.word_speed.specs.Told.{told, lowest_forty};

use mil_word::{Sync, Wave, Word, decode, encode, raw_bits};

/// The forty half bits of a command word with these 16 bits.
#[unsafe(no_mangle)]
pub extern "C" fn rattle_encode(value: u16) -> u64
    ensures { result ≡ command_wave value }
{
    encode(Word {
        sync: Sync::CommandSync,
        value,
    })
    .half_bits()
}

/// The wave of the lowest forty bits.
#[inline]
fn wave_of_lowest(half_bits: u64) -> Wave
    ensures { result ≡ lowest_forty half_bits }
{
    Wave::of(half_bits % 0x100_0000_0000)
}

/// The word of a wave in the lowest forty bits: its 16 bits, with 2^16 added for data sync; 2^17 where it is none.
#[unsafe(no_mangle)]
pub extern "C" fn rattle_decode(half_bits: u64) -> u32
    ensures { result ≡ told (word_of (lowest_forty half_bits)) }
{
    match decode(wave_of_lowest(half_bits)) {
        Some(word) => match word.sync {
            Sync::CommandSync => u32::from(word.value),
            Sync::DataSync => u32::from(word.value) + 0x1_0000,
        },
        None => 0x2_0000,
    }
}

/// The first halves of the 16 information pairs of a wave in the lowest forty bits.
#[unsafe(no_mangle)]
pub extern "C" fn rattle_raw_bits(half_bits: u64) -> u16
    ensures { result ≡ raw_of (lowest_forty half_bits) }
{
    raw_bits(wave_of_lowest(half_bits))
}
