//! A wave that was heard, with its word.
ghost use Rattle.mil_word.specs.Fields.{address_of, is_broadcast};
ghost use Rattle.mil_word.specs.Wave.{word_of};
ghost use Rattle.mil_word.specs.Words.{command_in, data_in, value_if};
ghost use Rattle.mil_word.specs.declared.Word.{Word};
ghost use Rattle.std.specs.Option.{option_and_then};
ghost use Rattle.std.specs.Prelude.{◌≡◌, ◌&&◌, ◌||◌, ◌==◌};

use crate::addresses::Address;
use mil_word::{Command, Sync, Wave, Word};
use std::marker::Model;

/// A wave and the word that it is the wave of, if it is sound; contracts see the wave.
#[derive(Drop)]
pub struct Sound {
    wave: Wave,
    word: Option<Word>,
}

impl Model for Sound {
    ghost use Rattle.mil_word.specs.Wave.{word_of};
    ghost use Rattle.std.specs.Prelude.{◌≡◌, ℕ};

    ghost Value = { ℕ };

    ghost view = { λ s. s.wave };

    ghost invariant = { λ s. s.word ≡ word_of s.wave };
}

impl Sound {
    /// A wave that was heard, and the word that it is.
    #[inline]
    pub fn of(wave: Wave, word: Option<Word>) -> Sound
        requires { word ≡ word_of wave }
        ensures { result ≡ wave }
    {
        Sound { wave, word }
    }

    /// The value of a sound word with command sync.
    #[inline]
    pub fn command(&self) -> Option<Command>
        ensures { result ≡ command_in self.now }
    {
        match self.word {
            Some(word) => match word.sync {
                Sync::CommandSync => Some(Command::of(word.value)),
                Sync::DataSync => None,
            },
            None => None,
        }
    }

    /// The value of a sound word with data sync.
    #[inline]
    pub fn data(&self) -> Option<u16>
        ensures { result ≡ data_in self.now }
    {
        match self.word {
            Some(word) => match word.sync {
                Sync::CommandSync => None,
                Sync::DataSync => Some(word.value),
            },
            None => None,
        }
    }

    /// The command, where it is to this terminal, or to all and the terminal takes these.
    #[inline]
    pub fn command_to(&self, own: Address, takes_broadcast: bool) -> Option<Command>
        ensures { result ≡ option_and_then
            (λ c. value_if (address_of c == own || is_broadcast c && takes_broadcast) c) (command_in self.now) }
    {
        match self.command() {
            Some(command) => {
                if command.address() == own.value() || command.is_broadcast() && takes_broadcast {
                    Some(command)
                } else {
                    None
                }
            }
            None => None,
        }
    }
}
