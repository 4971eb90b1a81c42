//! The gap before a word.
ghost use Rattle.mil_word.specs.Timing.{contiguous_gap};
ghost use Rattle.std.proofs.Common.{rules};
ghost use Rattle.std.specs.Cmp.Rules.{comparing};
ghost use Rattle.std.specs.Prelude.{◌≡◌, ◌≤◌, ◌==◌};

use mil_word::timing::CONTIGUOUS_GAP;
use std::marker::Model;

/// The gap before a word, 20 to 65,535 ticks of 0.1 µs; contracts see the number. It runs from the middle of the
/// parity bit of the word before to the middle of the word's sync (MIL-STD-1553B 4.3.3.7, 4.3.3.8), so contiguous
/// words have a gap of 20, and 65,535 stands for all longer ones.
#[derive(Clone, Copy, Debug)]
pub struct Gap {
    /// The ticks over those of contiguous words, so that rooms for words that have the gap of contiguous ones are all
    /// zeros.
    over: u16,
}

impl Model for Gap {
    ghost use Rattle.mil_word.specs.Timing.{contiguous_gap};
    ghost use Rattle.std.specs.Prelude.{◌≡◌, ℕ, ◌+◌, ◌-◌, ◌<◌, ◌^◌};

    ghost Value = { ℕ };

    ghost view = { λ g. g.over + contiguous_gap };

    ghost invariant = { λ g. (g.over + contiguous_gap < 2 ^ 16) × (g.over + contiguous_gap - contiguous_gap ≡ g.over) };

    ghost inverse = { λ n. record { over = n - contiguous_gap } };

    ghost inverse_ok = { λ g h i. record { over = h.1 i } };
}

impl Gap {
    /// The gap of so many ticks.
    #[inline]
    pub fn of(ticks: u16) -> Gap
        requires { contiguous_gap ≤ ticks }
        ensures { result ≡ ticks }
    {
        Gap {
            over: ticks - CONTIGUOUS_GAP,
        }
    }

    /// The gap of a word that follows the one before at once.
    #[inline]
    pub fn contiguous() -> Gap
        ensures { result ≡ contiguous_gap }
    {
        Gap { over: 0 }
    }

    /// The ticks of this gap.
    #[inline]
    pub fn ticks(self) -> u16
        ensures value { result ≡ self }
        ensures at_least { contiguous_gap ≤ result }
    {
        self.over + CONTIGUOUS_GAP
    }

    /// Whether a word with this gap follows the one before at once.
    #[inline]
    pub fn is_contiguous(self) -> bool
        ensures { result ≡ (self == contiguous_gap) }
    {
        self.over == 0
    }
}

/// Two gaps are equal where their ticks are.
impl PartialEq for Gap {
    ghost eq = { λ a b. a == b };

    ghost laws = { Prim.search (comparing, rules) };

    fn eq(&self, other: &Gap) -> bool {
        self.ticks() == other.ticks()
    }
}

impl Eq for Gap {
    ghost laws = { Prim.search (comparing, rules) };
}

/// The gap of a word that follows the one before at once.
impl Default for Gap {
    ghost is_default = { λ g. g ≡ contiguous_gap };

    fn default() -> Gap
        ensures { result ≡ contiguous_gap }
    {
        Gap { over: 0 }
    }
}
