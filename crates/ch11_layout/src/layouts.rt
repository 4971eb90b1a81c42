//! The words of a recorded message by what they are.
ghost use Rattle.ch11_f1.specs.Views.{message_of};
ghost use Rattle.ch11_layout.specs.Layouts as spec;
ghost use Rattle.ch11_layout.specs.Stamps.{counted};
ghost use Rattle.mil_word.specs.Fields.{has_bit};
ghost use Rattle.std.specs.Prelude.{◌≡◌, ◌≤◌, ◌==◌, ◌&&◌, nat_lt, if◌then◌else◌};

use crate::block::TERMINAL_TO_TERMINAL;
use ch11_f1::Seen;
use mil_word::Command;

/// What a word of a message is.
#[derive(Clone, Copy, Debug, PartialEq, Eq)]
pub enum Role {
    /// A command word of the controller.
    Command,
    /// A status word of a terminal.
    Status,
    /// A data word.
    Data,
}

/// The words of a recorded message: commands, perhaps a status word, data words, and perhaps a status word, of any form
/// (MIL-STD-1553B 4.3.3.6). Places count words from 0.
#[derive(Clone, Copy, Debug, PartialEq, Eq)]
pub struct Layout {
    /// How many words there are.
    pub words: usize,
    /// How many of them are commands, 0 to 2: they come first.
    pub commands: usize,
    /// Where the data words begin; between the commands and this place stands the status word of their sender, if at
    /// all.
    pub data_start: usize,
    /// Where the data words end; a word from this place on is the status word of their receiver.
    pub data_end: usize,
}

impl Layout {
    /// The layout of a message, by its block status word, its gap times word and its first word.
    #[inline]
    pub(crate) fn of(seen: &Seen<'_>) -> Layout
        ensures value { result ≡ spec.layout_of (counted (message_of seen.now)) }
        ensures commands { result.commands ≤ result.data_start }
        ensures start { result.data_start ≤ result.data_end }
        ensures end { result.data_end ≤ result.words }
    {
        let words = seen.word_count();
        let between = is_set(seen.block, TERMINAL_TO_TERMINAL);
        let commands = commands_of(words, between);
        let first = Command::of(seen.word(0));
        let answers = between || first.is_transmit() && !first.is_broadcast();
        let front = commands < words && first_gap(seen) != 0 && answers;
        let data_start = if front { commands + 1 } else { commands };
        let last_gap = if between {
            second_gap(seen)
        } else if front {
            0
        } else {
            first_gap(seen)
        };
        let back = data_start < words && last_gap != 0;
        let data_end = if back { words - 1 } else { words };
        Layout {
            words,
            commands,
            data_start,
            data_end,
        }
    }

    /// What the word at a place is.
    pub fn role(&self, place: usize) -> Role
        ensures { result ≡ spec.role_at self.now place }
    {
        if place < self.commands {
            Role::Command
        } else if place < self.data_start {
            Role::Status
        } else if place < self.data_end {
            Role::Data
        } else {
            Role::Status
        }
    }
}

fn commands_of(words: usize, between: bool) -> usize
    ensures { result ≡ (if words == 0 then 0 else if between && nat_lt 1 words then 2 else 1) }
{
    if words == 0 {
        0
    } else if between && words > 1 {
        2
    } else {
        1
    }
}

/// Whether a bit of a word is set, of which 0 is the last on the line. Condition: the place is at most 15.
#[inline]
pub fn is_set(word: u16, place: u32) -> bool
    requires { place ≤ 15 }
    ensures { result ≡ has_bit place word }
{
    word >> place & 1 == 1
}

/// The gap of the first reply in ticks of 0.1 µs: 0 where there was none, 255 where it was that or longer.
#[inline]
pub(crate) fn first_gap(seen: &Seen<'_>) -> u8
    ensures { result ≡ spec.first_gap (counted (message_of seen.now)) }
{
    (seen.gaps % 256) as u8
}

/// The gap of the second reply in ticks of 0.1 µs: 0 where there was none, 255 where it was that or longer.
#[inline]
pub(crate) fn second_gap(seen: &Seen<'_>) -> u8
    ensures { result ≡ spec.second_gap (counted (message_of seen.now)) }
{
    (seen.gaps / 256) as u8
}
