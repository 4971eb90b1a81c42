//! What a script or a job asks for: a message with unchecked numbers.
ghost use Rattle.mil_message.specs.Request.{request_of, written, mode_request, mode_request_to_all};
ghost use Rattle.std.specs.Prelude.{◌≡◌};

use mil_mode::codes::{
    FIRST_RESERVED_WITH_WORD, LAST_WITHOUT_WORD, TRANSMIT_BIT_WORD, TRANSMIT_LAST_COMMAND,
    TRANSMIT_VECTOR_WORD,
};

/// The two subaddresses that mark a mode command, alike in meaning (MIL-STD-1553B 4.3.3.5.1.7, Notice 2).
#[derive(Clone, Copy, Debug, PartialEq, Eq)]
pub enum ModeSubaddress {
    Zero,
    ThirtyOne,
}

/// A message as it is asked for, with numbers that may be out of range: `Message::check` judges it.
///
/// In the five mode forms `words` is `None` where no data words are written at all.
#[derive(Clone, Copy, Debug)]
pub enum Draft<'a> {
    /// Controller to terminal.
    ToTerminal {
        address: u32,
        subaddress: u32,
        words: &'a [u16],
    },
    /// Terminal to controller.
    FromTerminal {
        address: u32,
        subaddress: u32,
        count: u32,
    },
    /// Terminal to terminal.
    Between {
        sender: u32,
        sender_subaddress: u32,
        receiver: u32,
        receiver_subaddress: u32,
        count: u32,
    },
    /// A mode command without a data word.
    Mode {
        address: u32,
        subaddress: ModeSubaddress,
        code: u32,
        words: Option<&'a [u16]>,
    },
    /// A mode command with a data word that the terminal sends.
    ModeFrom {
        address: u32,
        subaddress: ModeSubaddress,
        code: u32,
        words: Option<&'a [u16]>,
    },
    /// A mode command with a data word that the controller sends.
    ModeTo {
        address: u32,
        subaddress: ModeSubaddress,
        code: u32,
        words: Option<&'a [u16]>,
    },
    /// Controller to all terminals.
    ToAll {
        subaddress: u32,
        words: &'a [u16],
    },
    /// Terminal to all others.
    BetweenAll {
        sender: u32,
        sender_subaddress: u32,
        receiver_subaddress: u32,
        count: u32,
    },
    /// A mode command without a data word to all terminals.
    ModeAll {
        subaddress: ModeSubaddress,
        code: u32,
        words: Option<&'a [u16]>,
    },
    /// A mode command with a data word that the controller sends to all terminals.
    ModeAllTo {
        subaddress: ModeSubaddress,
        code: u32,
        words: Option<&'a [u16]>,
    },
}

impl<'a> Draft<'a> {
    /// The draft of a mode command to one terminal, where the code and whether words are written choose the form:
    /// codes 0 to 15 go without a data word, 16, 18 and 19 have one from the terminal, 17, 20 and 21 one to it, and
    /// all above have one to it where words are written, else one from it (own choice).
    pub fn mode_command(
        address: u32,
        subaddress: ModeSubaddress,
        code: u32,
        words: Option<&'a [u16]>,
    ) -> Draft<'a>
        ensures { request_of result ≡ mode_request address subaddress code (written words.entry) }
    {
        let is_sent = code == u32::from(TRANSMIT_VECTOR_WORD)
            || code == u32::from(TRANSMIT_LAST_COMMAND)
            || code == u32::from(TRANSMIT_BIT_WORD);
        let from_terminal = is_sent
            || code >= u32::from(FIRST_RESERVED_WITH_WORD) && words.is_none();
        if code <= u32::from(LAST_WITHOUT_WORD) {
            Draft::Mode {
                address,
                subaddress,
                code,
                words,
            }
        } else if from_terminal {
            Draft::ModeFrom {
                address,
                subaddress,
                code,
                words,
            }
        } else {
            Draft::ModeTo {
                address,
                subaddress,
                code,
                words,
            }
        }
    }

    /// The draft of a mode command to all terminals: codes 0 to 15 go without a data word, all above with one (own
    /// choice).
    pub fn mode_command_to_all(
        subaddress: ModeSubaddress,
        code: u32,
        words: Option<&'a [u16]>,
    ) -> Draft<'a>
        ensures { request_of result ≡ mode_request_to_all subaddress code (written words.entry) }
    {
        if code <= u32::from(LAST_WITHOUT_WORD) {
            Draft::ModeAll {
                subaddress,
                code,
                words,
            }
        } else {
            Draft::ModeAllTo {
                subaddress,
                code,
                words,
            }
        }
    }
}
