//! A run of words.
ghost use Rattle.mil_bus.specs.DataRuns.{run_from};
ghost use Rattle.mil_word.specs.Words.{command_in, command_wave, data_wave};
ghost use Rattle.std.specs.Prelude.{◌≡◌, cond, false, None};

use crate::wholes::wave_of;
use crate::{Sent, Source};
use mil_line::Gap;

/// What the words of a run have in common, and the gap before the first: the others follow at once.
#[derive(Clone, Copy, Debug)]
pub struct Run {
    /// 0 is the controller's, 1 and up are the replies.
    pub number: u8,
    pub source: Source,
    pub gap: Gap,
}

impl Run {
    /// A word of it behind a gap: a command or a status word, or a data word.
    #[inline]
    pub fn word(&self, gap: Gap, command: bool, value: u16) -> Sent
        ensures word { result ≡ record {
          wave = cond command (command_wave value) (data_wave value);
          gap = gap;
          run = self.now.number;
          source = self.now.source;
        } }
        ensures data { command ≡ false → command_in result.wave ≡ None }
    {
        Sent {
            wave: wave_of(command, value),
            gap,
            run: self.number,
            source: self.source,
        }
    }

    /// What its words from a place on have.
    #[inline]
    pub fn from(&self, place: usize) -> Run
        ensures { result ≡ run_from place self.now }
    {
        if place == 0 {
            *self
        } else {
            Run {
                number: self.number,
                source: self.source,
                gap: Gap::contiguous(),
            }
        }
    }
}
