//! What the messages of a job do that is probably a mistake, beside whom they call.
ghost use Rattle.bench_check.specs.Mistakes as spec;
ghost use Rattle.std.specs.Prelude.{◌≡◌};

use crate::filling::Filled;
use mil_bus::Talk;
use mil_message::Commands;
use mil_mode::codes::{TRANSMIT_LAST_COMMAND, TRANSMIT_STATUS_WORD};
use mil_status::StatusBit;
use mil_word::Command;
use mil_word::fields::{FIELD_VALUES, WRAP_AROUND};

/// The mode codes whose status word is that of the command before (4.3.3.5.1.7.3, 4.3.3.5.1.7.13): transmit status
/// word, transmit last command.
const OF_LAST_COMMAND: [u8; 2] = [TRANSMIT_STATUS_WORD, TRANSMIT_LAST_COMMAND];

/// A message that was answered with the message error bit.
#[derive(Clone, Copy, Debug)]
struct Refused {
    number: u32,
    commands: Commands,
}

/// How many messages had an error, the first message that transmits from a subaddress where no words were put up, for
/// each terminal and subaddress, and the messages that were answered with the message error bit and not sent again.
#[derive(Clone, Copy, Debug)]
pub struct Oddities {
    failed: u32,
    unfilled: [[u32; FIELD_VALUES]; FIELD_VALUES],
    refused: Option<Refused>,
    left: u32,
    first_left: u32,
}

impl Oddities {
    /// No messages.
    pub(crate) fn none() -> Oddities {
        Oddities {
            failed: 0,
            unfilled: [[0; FIELD_VALUES]; FIELD_VALUES],
            refused: None,
            left: 0,
            first_left: 0,
        }
    }

    /// Takes in the message of a number, behind all others.
    pub(crate) fn note(&mut self, number: u32, filled: &Filled, talk: &Talk) {
        self.note_answer(number, talk);
        let commands = talk.message.commands();
        self.note_call(number, filled, commands.first);
        if let Some(second) = commands.second {
            self.note_call(number, filled, second);
        }
    }

    /// What the message of a number came to.
    fn note_answer(&mut self, number: u32, talk: &Talk) {
        let outcome = talk.outcome();
        if outcome.failed {
            self.failed = self.failed.saturating_add(1);
        }
        self.note_repeat(talk.message.commands());
        let refused = outcome.bits >> StatusBit::MessageError.place() & 1 == 1;
        if refused && !asks_of_last_command(talk) {
            let commands = talk.message.commands();
            self.refused = Some(Refused { number, commands });
        }
    }

    /// A message with these commands follows the one that was refused.
    fn note_repeat(&mut self, commands: Commands) {
        if let Some(refused) = self.refused {
            if refused.commands != commands {
                self.leave(refused.number);
            }
        }
        self.refused = None;
    }

    /// The message was not sent again.
    fn leave(&mut self, number: u32) {
        if self.left == 0 {
            self.first_left = number;
        }
        self.left = self.left.saturating_add(1);
    }

    /// A command of the message of a number.
    fn note_call(&mut self, number: u32, filled: &Filled, command: Command) {
        let (address, sub) = (command.address(), command.subaddress());
        let transmits = command.is_transmit() && !command.is_mode() && !command.is_broadcast();
        if transmits && sub != WRAP_AROUND && !filled.is_filled(number, address, sub) {
            let (row, place) = (usize::from(address), usize::from(sub));
            if self.unfilled[row][place] == 0 {
                self.unfilled[row][place] = number;
            }
        }
    }

    /// No message follows.
    pub(crate) fn finish(&mut self) {
        if let Some(refused) = self.refused {
            self.leave(refused.number);
        }
        self.refused = None;
    }

    /// How many messages had an error.
    pub fn failed(&self) -> u32
        ensures { result ≡ self.now.failed }
    {
        self.failed
    }

    /// How many messages were answered with the message error bit and not sent again.
    pub fn left(&self) -> u32
        ensures { result ≡ self.now.left }
    {
        self.left
    }

    /// The number of the first of them; 0 where there is none.
    pub fn first_left(&self) -> u32
        ensures { result ≡ self.now.first_left }
    {
        self.first_left
    }

    /// The number of the first message that transmits from a subaddress of a terminal where no words were put up; 0
    /// where there is none.
    pub fn unfilled(&self, address: u8, sub: u8) -> u32
        ensures { result ≡ spec.first_unfilled self.now address sub }
    {
        match self.unfilled.get(usize::from(address)) {
            Some(firsts) => match firsts.get(usize::from(sub)) {
                Some(first) => *first,
                None => 0,
            },
            None => 0,
        }
    }
}

/// Whether a message asks for the status word of the command before it.
fn asks_of_last_command(talk: &Talk) -> bool {
    let command = talk.message.commands().first;
    command.is_mode() && command.is_transmit() && OF_LAST_COMMAND.contains(&command.code())
}
