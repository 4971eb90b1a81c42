//! A message in one of the ten forms.
ghost use Rattle.mil_message.specs.Forms.{commands, first_command, second_command, data_words, controller_words};
ghost use Rattle.mil_message.specs.Forms.{with_data_words};
ghost use Rattle.mil_message.specs.Forms.{controller_waves, command_of, replies_due, form_number};
ghost use Rattle.mil_message.specs.Request.{request_of};
ghost use Rattle.mil_message.specs.Rules.{checked, request_for, IsLawful};
ghost use Rattle.mil_message.specs.declared.forms.Form.{Form as FormValue};
ghost use Rattle.mil_word.specs.Fields.{most_words};
ghost use Rattle.mil_word.specs.Words.{command_wave, data_wave};
ghost use Rattle.std.specs.Option.{option_to_list};
ghost use Rattle.std.specs.Prelude.{◌≡◌, ◌<◌, ◌≤◌, ◌↔◌, ◌∷◌, ◌++◌, Ok, length, map, take, drop, slice_set};

use crate::command::{
    mode_command, mode_command_to_all, receive_command, receive_command_to_all, transmit_command,
};
use crate::{BadMessage, Commands, Draft, Due, Form, ModeSubaddress, Values, Waves, judge};
use arrayvec::ArrayVec;
use mil_word::{Command, Sync, Word};
use std::alloc::AllocError;
use std::marker::Model;
use std::slice;

/// A message in one of the ten forms, all its numbers in their ranges; contracts see its form.
#[derive(Debug, Drop, PartialEq, Eq)]
pub struct Message {
    form: Form,
}

impl Model for Message {
    ghost use Rattle.mil_message.specs.declared.forms.Form.{Form};

    ghost Value = { Form };

    ghost use Rattle.mil_message.specs.Rules.{IsLawful};

    ghost view = { λ m. m.form };

    ghost invariant = { λ m. IsLawful m.form };

    ghost inverse = { λ f. record { form = f } };
}

impl Message {
    /// The message that the draft asks for, or the first fault that it has.
    pub fn check(draft: Draft<'_>) -> Result<Message, BadMessage>
        ensures judged { result ≡ checked (request_of draft.entry) }
        ensures accepted { (form : FormValue)
            → (result ≡ Ok form) ↔ (IsLawful form × (request_of draft.entry ≡ request_for form)) }
    {
        let form = judge::form(draft)?;
        Ok(Message { form })
    }

    /// The message by its form.
    pub fn form(&self) -> &Form
        ensures value { result.now ≡ self.now }
        ensures lawful { IsLawful self.now }
    {
        &self.form
    }

    /// The number of the form, 0 to 9, in the order of `Form`.
    pub fn form_number(&self) -> u8
        ensures number { result ≡ form_number self.now }
        ensures range { result ≤ 9 }
    {
        match &self.form {
            Form::ToTerminal { .. } => 0,
            Form::FromTerminal { .. } => 1,
            Form::Between { .. } => 2,
            Form::Mode { .. } => 3,
            Form::ModeFrom { .. } => 4,
            Form::ModeTo { .. } => 5,
            Form::ToAll { .. } => 6,
            Form::BetweenAll { .. } => 7,
            Form::ModeAll { .. } => 8,
            Form::ModeAllTo { .. } => 9,
        }
    }

    /// The command words: a second one in the two forms between terminals alone.
    pub fn commands(&self) -> Commands
        ensures first { result.first ≡ first_command self.now }
        ensures second { result.second ≡ second_command self.now }
        ensures all { result.first ∷ option_to_list result.second ≡ commands self.now }
    {
        Commands {
            first: self.first_command(),
            second: self.second_command(),
        }
    }

    /// The first command word.
    #[rattlefmt::skip]
    fn first_command(&self) -> Command
        ensures { result ≡ first_command self.now }
    {
        match &self.form {
            Form::ToTerminal { address, subaddress, words } =>
                receive_command(*address, *subaddress, words.len() as u8),
            Form::FromTerminal { address, subaddress, count } => transmit_command(*address, *subaddress, *count),
            Form::Between { receiver, receiver_subaddress, count, .. } =>
                receive_command(*receiver, *receiver_subaddress, *count),
            Form::Mode { address, subaddress, code } | Form::ModeFrom { address, subaddress, code } => {
                mode_command(*address, true, *subaddress, *code)
            }
            Form::ModeTo { address, subaddress, code, .. } => mode_command(*address, false, *subaddress, *code),
            Form::ToAll { subaddress, words } => receive_command_to_all(*subaddress, words.len() as u8),
            Form::BetweenAll { receiver_subaddress, count, .. } => receive_command_to_all(*receiver_subaddress, *count),
            Form::ModeAll { subaddress, code } => mode_command_to_all(true, *subaddress, *code),
            Form::ModeAllTo { subaddress, code, .. } => mode_command_to_all(false, *subaddress, *code),
        }
    }

    /// The second command word, which calls the sender of the two forms between terminals.
    fn second_command(&self) -> Option<Command>
        ensures { result ≡ second_command self.now }
    {
        match &self.form {
            Form::Between {
                sender,
                sender_subaddress,
                count,
                ..
            }
            | Form::BetweenAll {
                sender,
                sender_subaddress,
                count,
                ..
            } => Some(transmit_command(*sender, *sender_subaddress, *count)),
            _ => None,
        }
    }

    /// The data words that the controller sends after its commands.
    pub fn data_words(&self) -> &[u16]
        ensures words { result.now ≡ data_words self.now }
        ensures at_most_32 { length result.now ≤ most_words }
    {
        match &self.form {
            Form::ToTerminal { words, .. } | Form::ToAll { words, .. } => words.as_slice(),
            Form::ModeTo { word, .. } | Form::ModeAllTo { word, .. } => slice::from_ref(word),
            _ => &[],
        }
    }

    /// The replies that are due, in their order.
    pub fn replies_due(&self) -> ArrayVec<Due, 2>
        ensures { result.items ≡ replies_due self.now }
    {
        let mut due = ArrayVec::new();
        match &self.form {
            Form::ToTerminal { address, .. }
            | Form::Mode { address, .. }
            | Form::ModeTo { address, .. } => due.push(Due {
                address: *address,
                words: 0,
            }),
            Form::FromTerminal { address, count, .. } => due.push(Due {
                address: *address,
                words: *count,
            }),
            Form::Between {
                sender,
                receiver,
                count,
                ..
            } => {
                due.push(Due {
                    address: *sender,
                    words: *count,
                });
                due.push(Due {
                    address: *receiver,
                    words: 0,
                });
            }
            Form::ModeFrom { address, .. } => due.push(Due {
                address: *address,
                words: 1,
            }),
            Form::BetweenAll { sender, count, .. } => due.push(Due {
                address: *sender,
                words: *count,
            }),
            Form::ToAll { .. } | Form::ModeAll { .. } | Form::ModeAllTo { .. } => {}
        }
        due
    }

    /// How many words the controller sends: 1 to 33.
    pub fn controller_count(&self) -> usize
        ensures count { result ≡ length (controller_words self.now) }
        ensures at_most_33 { result ≤ 33 }
    {
        let commands = if self.commands().second.is_some() {
            2
        } else {
            1
        };
        commands + self.data_words().len()
    }

    /// The words that the controller sends: its commands, then its data words.
    pub fn controller_words(&self) -> ArrayVec<Word, 34>
        ensures { result.items ≡ controller_words self.now }
    {
        let commands = self.commands();
        let mut words = ArrayVec::new();
        words.push(command(commands.first));
        if let Some(second) = commands.second {
            words.push(command(second));
        }
        for &value in self.data_words() {
            words.push(Word {
                sync: Sync::DataSync,
                value,
            });
        }
        words
    }

    /// The values of the words that the controller sends.
    pub fn values(&self) -> Values
        ensures waves { map command_wave (take result.commands result.words.items)
            ++ map data_wave (drop result.commands result.words.items) ≡ controller_waves self.now }
        ensures few { result.commands ≤ 2 }
    {
        let commands = self.commands();
        let mut words = ArrayVec::new();
        words.push(commands.first.value());
        if let Some(second) = commands.second {
            words.push(second.value());
        }
        let count = words.len() as u8;
        // There is room for all of them.
        let _ = words.try_extend_from_slice(self.data_words());
        Values {
            words,
            commands: count,
        }
    }

    /// Puts another data word in the place of one that the controller sends, counted from 0.
    #[tactic(auto, using(crate::proofs::Putting::first_set, crate::proofs::Putting::as_many))]
    pub fn put_data_word(&mut self, index: usize, word: u16)
        requires { index < length (data_words self.old) }
        ensures { self.new ≡ with_data_words (slice_set (data_words self.old) index word) self.old }
    {
        match &mut self.form {
            Form::ToTerminal { words, .. } => words[index] = word,
            Form::ToAll { words, .. } => words[index] = word,
            Form::ModeTo { word: own, .. } => *own = word,
            Form::ModeAllTo { word: own, .. } => *own = word,
            _ => {}
        }
    }

    /// The same message once more, which takes no memory.
    pub fn copy(&self) -> Message
        ensures { result ≡ self.now }
    {
        Message {
            form: self.form.copy(),
        }
    }
}

impl Message {
    /// The same message once more, in the place of another.
    pub fn copy_into(&self, other: &mut Message)
        ensures { other.new ≡ self.now }
    {
        self.form.copy_into(&mut other.form);
    }
}

/// A command as a word of the bus.
fn command(command: Command) -> Word
    ensures { result ≡ command_of command }
{
    Word {
        sync: Sync::CommandSync,
        value: command.value(),
    }
}

/// A clone takes no memory, and so never fails.
impl Clone for Message {
    ghost use Rattle.std.specs.Prelude.{◌≡◌, ⊤};

    ghost is_clone = { λ message copied. copied ≡ message };

    ghost is_infallible = { λ _. ⊤ };

    fn clone(&self) -> Result<Message, AllocError> {
        Ok(self.copy())
    }
}

/// A message to begin with where another is to take its place: terminal 0 is asked for its status word (mode code 2).
impl Default for Message {
    ghost use Rattle.mil_message.specs.declared.drafts.ModeSubaddress.TheVariants.{Zero};
    ghost use Rattle.mil_message.specs.declared.forms.Form.TheVariants.{Mode};
    ghost use Rattle.std.specs.Prelude.{◌≡◌};

    ghost is_default = { λ m. m ≡ Mode 0 Zero 2 };

    fn default() -> Message
        ensures { result ≡ Mode 0 Zero 2 }
    {
        Message {
            form: Form::Mode {
                address: 0,
                subaddress: ModeSubaddress::Zero,
                code: 2,
            },
        }
    }
}
