//! What a terminal answers, and what its answers change.
ghost use Rattle.mil_word.specs.Fields.{field_values, most_words};
ghost use Rattle.std.specs.Option.{option_to_list};
ghost use Rattle.std.specs.Prelude.{◌≡◌, ◌≤◌, ◌<◌, true, length};

use crate::exactly::push_exactly;
use crate::put_up::PUT_UP;
use crate::registers::Registers;
use arrayvec::ArrayVec;
use mil_line::Gap;
use mil_mode::codes::{TRANSMIT_BIT_WORD, TRANSMIT_LAST_COMMAND, TRANSMIT_VECTOR_WORD};
use mil_word::Command;
use mil_word::fields::WRAP_AROUND;

impl Registers {
    ghost use Rattle.mil_terminal.specs.Updates.{answer_now, handed, mode_data_now, put_up_at};

    /// The reply to a command, its words in place of others, and what it changes; its gap.
    pub fn respond<const CAP: usize>(
        &mut self,
        command: Command,
        good: bool,
        words: &mut ArrayVec<u16, CAP>,
    ) -> Gap
        requires room { 33 ≤ CAP }
        ensures after { self.new ≡ handed good self.old command }
        ensures reply { answer_now self.old command good ≡ record { gap = result; words = words.new } }
    {
        let gap = self.host.response;
        self.answer(command, good, words);
        if good {
            self.give(command);
        }
        gap
    }

    /// A good command was answered: the words that the reply carried go on, and the vector word ends a service request
    /// that was asked for once.
    fn give(&mut self, command: Command)
        ensures { self.new ≡ handed true self.old command }
    {
        if !command.is_transmit() || self.host.busy {
            return;
        }
        if !command.is_mode() {
            self.block.carry(command.subaddress(), command.count());
        } else if command.code() == TRANSMIT_VECTOR_WORD {
            self.host.serve();
        }
    }

    /// The status, and behind it the data words of a good command, in place of other words.
    fn answer<const CAP: usize>(&self, command: Command, good: bool, words: &mut ArrayVec<u16, CAP>)
        requires room { 33 ≤ CAP }
        ensures { words.new ≡ (answer_now self.now command good).words }
    {
        *words = ArrayVec::new();
        words.push(self.conditions.word(self.own));
        if good && command.is_transmit() {
            if command.is_mode() {
                if let Some(word) = self.mode_data(command.code()) {
                    words.push(word);
                }
            } else if !self.host.busy {
                push_exactly(
                    words,
                    command.count() as usize,
                    self.put_up(command.subaddress()),
                );
            }
        }
    }

    /// The data word that a mode command is answered with, if one.
    fn mode_data(&self, code: u8) -> Option<u16>
        ensures { option_to_list result ≡ mode_data_now self.now code }
    {
        match code {
            TRANSMIT_LAST_COMMAND => Some(self.last_command),
            TRANSMIT_VECTOR_WORD if !self.host.busy => Some(self.host.vector),
            TRANSMIT_BIT_WORD if !self.host.busy => Some(self.synced.bit_word),
            _ => None,
        }
    }

    /// The words that a transmit command at the subaddress sends.
    pub fn put_up(&self, sub: u8) -> &[u16]
        requires { sub < field_values }
        ensures value { result.now ≡ put_up_at self.now sub }
        ensures few { length result.now ≤ most_words }
    {
        if sub == WRAP_AROUND {
            self.block.at(usize::from(WRAP_AROUND))
        } else {
            self.block.at(PUT_UP + sub as usize)
        }
    }
}
