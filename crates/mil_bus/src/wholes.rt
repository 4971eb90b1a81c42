//! A run that is sent as it should.
ghost use Rattle.mil_bus.specs.DataRuns.{gap_at};
ghost use Rattle.mil_bus.specs.Wholes.{whole_words};
ghost use Rattle.mil_bus.specs.declared.talks.Sent.{Sent as SentValue};
ghost use Rattle.mil_word.specs.Words.{command_wave, data_wave};
ghost use Rattle.std.specs.Prelude.{◌≡◌, ℕ, ◌<◌, List, length, take, drop, get_or, cond, nat_lt};

use crate::{Sent, Source};
use mil_line::Gap;
use mil_word::{Sync, Wave, Word, encode};

/// A run that is sent as it should: commands or a status word first, and then data words.
#[derive(Clone, Copy, Debug)]
pub struct Whole {
    /// 0 is the controller's, 1 and up are the replies.
    pub number: u8,
    pub source: Source,
    /// The gap before its first word: the others follow at once.
    pub gap: Gap,
    /// How many of its words are commands or a status word.
    pub commands: u8,
    /// How many words it has, 1 to 40.
    pub count: u8,
}

impl Default for Whole {
    ghost use Rattle.mil_bus.specs.declared.talks.Source.TheVariants.{Controller};
    ghost use Rattle.mil_word.specs.Timing.{contiguous_gap};

    ghost is_default = { λ w.
        w ≡ record { number = 0; source = Controller; gap = contiguous_gap; commands = 0; count = 0 } };

    fn default() -> Whole {
        Whole {
            number: 0,
            source: Source::Controller,
            gap: Gap::default(),
            commands: 0,
            count: 0,
        }
    }
}

/// The wave of a word with command sync or with data sync.
#[inline]
pub fn wave_of(command: bool, value: u16) -> Wave
    ensures { result ≡ cond command (command_wave value) (data_wave value) }
{
    let sync = if command {
        Sync::CommandSync
    } else {
        Sync::DataSync
    };
    encode(Word { sync, value })
}

impl Whole {
    /// The gap before a word of it, by its place.
    #[inline]
    fn gap_at(&self, place: usize) -> Gap
        ensures { result ≡ gap_at place self.now.gap }
    {
        if place == 0 {
            self.gap
        } else {
            Gap::contiguous()
        }
    }

    /// A word of it, by its place and its value.
    #[inline]
    pub fn word(&self, values: &[u16], place: usize) -> Sent
        requires { place < length values.now }
        ensures { (d : SentValue) → get_or (whole_words self.now values.now) place d ≡ result }
    {
        Sent {
            wave: wave_of(place < usize::from(self.commands), values[place]),
            gap: self.gap_at(place),
            run: self.number,
            source: self.source,
        }
    }
}
