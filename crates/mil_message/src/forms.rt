//! The ten forms of a message (MIL-STD-1553B 4.3.3.6).
ghost use Rattle.std.specs.Prelude.{◌≡◌};

use crate::ModeSubaddress;
use arrayvec::ArrayVec;
use mil_word::{Command, copied};

/// A message by its form. Addresses are 0 to 30, subaddresses 1 to 30, counts and numbers of words 1 to 32, mode codes
/// those of the form.
#[derive(Clone, Debug, Drop, PartialEq, Eq)]
pub enum Form {
    /// Controller to terminal.
    ToTerminal {
        address: u8,
        subaddress: u8,
        words: ArrayVec<u16, 32>,
    },
    /// Terminal to controller.
    FromTerminal {
        address: u8,
        subaddress: u8,
        count: u8,
    },
    /// Terminal to terminal.
    Between {
        sender: u8,
        sender_subaddress: u8,
        receiver: u8,
        receiver_subaddress: u8,
        count: u8,
    },
    /// A mode command without a data word: codes 0 to 15.
    Mode {
        address: u8,
        subaddress: ModeSubaddress,
        code: u8,
    },
    /// A mode command with a data word that the terminal sends: codes 16, 18, 19 and 22 to 31.
    ModeFrom {
        address: u8,
        subaddress: ModeSubaddress,
        code: u8,
    },
    /// A mode command with a data word that the controller sends: codes 17, 20, 21 and 22 to 31.
    ModeTo {
        address: u8,
        subaddress: ModeSubaddress,
        code: u8,
        word: u16,
    },
    /// Controller to all terminals.
    ToAll {
        subaddress: u8,
        words: ArrayVec<u16, 32>,
    },
    /// Terminal to all others.
    BetweenAll {
        sender: u8,
        sender_subaddress: u8,
        receiver_subaddress: u8,
        count: u8,
    },
    /// A mode command without a data word to all terminals: codes 0 to 15.
    ModeAll {
        subaddress: ModeSubaddress,
        code: u8,
    },
    /// A mode command with a data word that the controller sends to all terminals: codes 17, 20, 21 and 22 to 31.
    ModeAllTo {
        subaddress: ModeSubaddress,
        code: u8,
        word: u16,
    },
}

impl Form {
    /// The same form once more, which takes no memory.
    pub fn copy(&self) -> Form
        ensures { result ≡ self.now }
    {
        match self {
            Form::ToTerminal {
                address,
                subaddress,
                words,
            } => Form::ToTerminal {
                address: *address,
                subaddress: *subaddress,
                words: copied(words),
            },
            Form::ToAll { subaddress, words } => Form::ToAll {
                subaddress: *subaddress,
                words: copied(words),
            },
            _ => match self.clone() {
                Ok(form) => form,
                Err(_) => unreachable!(),
            },
        }
    }
}

/// Puts words in the place of others.
#[inline]
fn put_words(others: &mut ArrayVec<u16, 32>, words: &ArrayVec<u16, 32>)
    ensures { others.new ≡ words.now }
{
    *others = ArrayVec::new();
    // There is room for all of them.
    let _ = others.try_extend_from_slice(words.as_slice());
}

impl Form {
    /// The same form once more, in the place of another.
    #[inline]
    pub fn copy_into(&self, other: &mut Form)
        ensures { other.new ≡ self.now }
    {
        if let Form::ToTerminal {
            address,
            subaddress,
            words,
        } = self
        {
            if let Form::ToTerminal {
                address: other_address,
                subaddress: other_subaddress,
                words: others,
            } = other
            {
                *other_address = *address;
                *other_subaddress = *subaddress;
                put_words(others, words);
                return;
            }
        }
        *other = self.copy();
    }
}

/// A reply that is due.
#[derive(Clone, Copy, Debug, Default, PartialEq, Eq)]
pub struct Due {
    /// The address of the terminal that is to reply.
    pub address: u8,
    /// How many data words follow its status word.
    pub words: u8,
}

/// The command words of a message.
#[derive(Clone, Copy, Debug, PartialEq, Eq)]
pub struct Commands {
    pub first: Command,
    /// The second command word of the two forms between terminals, which calls the sender.
    pub second: Option<Command>,
}
