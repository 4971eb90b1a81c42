//! The sync word and the BIT word.
ghost use Rattle.std.specs.Prelude.{◌≡◌};

use mil_mode::codes::{
    INITIATE_SELF_TEST, RESET_REMOTE_TERMINAL, SYNCHRONIZE, SYNCHRONIZE_WITH_WORD,
};
use mil_word::Command;

/// The word that synchronized the terminal, and the result of its last self test.
#[derive(Clone, Copy, Debug)]
pub struct Synced {
    pub sync_word: u16,
    pub bit_word: u16,
}

impl Synced {
    ghost use Rattle.mil_terminal.specs.Updates.{synchronized};

    /// Nothing yet.
    pub fn none() -> Synced
        ensures { result ≡ record { sync_word = 0; bit_word = 0 } }
    {
        Synced {
            sync_word: 0,
            bit_word: 0,
        }
    }

    /// A good command and its data words: a synchronize sets the sync word, to 0 without a data word, as a reset does,
    /// and the self test gives its result (MIL-STD-1553B 4.3.3.5.1.7.2, .4, .9 and .12).
    pub fn act(&mut self, command: Command, words: &[u16], self_test: u16)
        ensures { self.new ≡ synchronized self.old command words.now self_test }
    {
        if command.is_mode() {
            match (command.is_transmit(), command.code()) {
                (true, SYNCHRONIZE) | (true, RESET_REMOTE_TERMINAL) => self.sync_word = 0,
                (true, INITIATE_SELF_TEST) => self.bit_word = self_test,
                (false, SYNCHRONIZE_WITH_WORD) => self.sync_word = words
                    .first()
                    .copied()
                    .unwrap_or(0),
                _ => {}
            }
        }
    }
}
