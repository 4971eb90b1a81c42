//! The wave of a word on the line.
ghost use Rattle.mil_word.specs.Kept as kept;
ghost use Rattle.mil_word.specs.Wave.{wave_of, word_of};
ghost use Rattle.std.proofs.Common.{rules};
ghost use Rattle.std.specs.Cmp.Rules.{comparing};
ghost use Rattle.std.specs.Prelude.{◌≡◌, ◌<◌, ◌^◌, ◌==◌, bit_xor};

use crate::code::{half_bits_of, read};
use crate::{Sync, Word};
use std::marker::Model;

/// Where the words of sound waves begin, above all half bits.
const WORDS: u64 = 0x100_0000_0000;

/// Forty half bits of 0.5 µs, the first on the line the most significant; contracts see their number,
/// which is below 2^40 (MIL-STD-1553B 4.3.3.4: twenty bit times of 1 µs).
#[derive(Clone, Copy, Debug)]
pub struct Wave {
    /// The half bits of an unsound wave, and the word of a sound one, whose half bits are worked out where they are
    /// asked for.
    kept: u64,
}

impl Model for Wave {
    ghost use Rattle.mil_word.specs.Kept.{half_bits_in, kept_for, IsKept, kept_back};
    ghost use Rattle.std.specs.Prelude.{ℕ};

    ghost Value = { ℕ };

    ghost view = { λ w. half_bits_in w.kept };

    ghost invariant = { λ w. IsKept w.kept };

    ghost inverse = { λ n. record { kept = kept_for n } };

    ghost inverse_ok = { λ w h i. record { kept = kept_back w.kept h i } };
}

/// A word as a number.
#[inline]
fn number_of(word: Word) -> u64
    ensures value { result ≡ kept.word_number word }
    ensures small { result < 2 ^ 17 }
{
    match word.sync {
        Sync::DataSync => u64::from(word.value),
        Sync::CommandSync => 0x1_0000 + u64::from(word.value),
    }
}

/// The word of a number.
#[inline]
fn word_at(number: u64) -> Word
    ensures { result ≡ kept.word_at number }
{
    Word {
        sync: if number >> 16 == 0 {
            Sync::DataSync
        } else {
            Sync::CommandSync
        },
        value: (number & 0xffff) as u16,
    }
}

impl Wave {
    /// The wave with these half bits.
    #[inline]
    pub fn of(half_bits: u64) -> Wave
        requires { half_bits < 2 ^ 40 }
        ensures { result ≡ half_bits }
    {
        match read(half_bits) {
            Some(word) => Wave::of_word(word),
            None => Wave { kept: half_bits },
        }
    }

    /// The wave of a word.
    #[inline]
    pub(crate) fn of_word(word: Word) -> Wave
        ensures { result ≡ wave_of word }
    {
        Wave {
            kept: WORDS + number_of(word),
        }
    }

    /// The word whose wave this is, if it is sound.
    #[inline]
    pub fn word(self) -> Option<Word>
        ensures value { result ≡ word_of self }
        ensures small { self < 2 ^ 40 }
    {
        if self.kept < WORDS {
            None
        } else {
            Some(word_at(self.kept - WORDS))
        }
    }

    /// The half bits as a number.
    #[inline]
    pub fn half_bits(self) -> u64
        ensures value { result ≡ self }
        ensures small { result < 2 ^ 40 }
    {
        if self.kept < WORDS {
            self.kept
        } else {
            half_bits_of(word_at(self.kept - WORDS))
        }
    }

    /// This wave with the half bits inverted that the mask has.
    #[inline]
    pub fn masked(self, mask: Wave) -> Wave
        ensures { result ≡ bit_xor self mask }
    {
        Wave::of(self.half_bits() ^ mask.half_bits())
    }
}

/// Two waves are equal where their half bits are.
impl PartialEq for Wave {
    ghost eq = { λ a b. a == b };

    ghost laws = { Prim.search (comparing, rules) };

    fn eq(&self, other: &Wave) -> bool {
        self.half_bits() == other.half_bits()
    }
}

impl Eq for Wave {
    ghost laws = { Prim.search (comparing, rules) };
}

/// No half bit high, which is no sound wave.
impl Default for Wave {
    ghost is_default = { λ w. w ≡ 0 };

    fn default() -> Wave
        ensures { result ≡ 0 }
    {
        Wave { kept: 0 }
    }
}
