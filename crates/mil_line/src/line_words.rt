//! A word of a run as it comes on a line.
ghost use Rattle.mil_line.specs.Faults.{at_once};
ghost use Rattle.std.specs.Prelude.{◌≡◌};

use crate::Gap;
use mil_word::Wave;

/// A word of a run as it comes on a line, and the gap before it, which does not count for the first of a run: that has
/// the run's.
#[derive(Clone, Copy, Debug, PartialEq, Eq)]
pub struct LineWord {
    /// What comes on the line, sound or not.
    pub wave: Wave,
    /// The gap before it, in ticks of 0.1 µs.
    pub gap: Gap,
}

impl Default for LineWord {
    ghost use Rattle.mil_word.specs.Timing.{contiguous_gap};

    ghost is_default = { λ w. w ≡ record { wave = 0; gap = contiguous_gap } };

    fn default() -> LineWord
        ensures { result ≡ record { wave = 0; gap = contiguous_gap } }
    {
        LineWord {
            wave: Wave::default(),
            gap: Gap::default(),
        }
    }
}

impl LineWord {
    /// A word that follows the one before at once.
    #[inline]
    pub fn at_once(wave: Wave) -> LineWord
        ensures { result ≡ at_once wave }
    {
        LineWord {
            wave,
            gap: Gap::contiguous(),
        }
    }
}
