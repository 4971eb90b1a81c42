//! What is wrong with a text, as the readers of scripts, jobs and rules tell it.

use frame_text::Cause;
use mil_message::BadMessage;

/// What is wrong with a script.
#[derive(Clone, Copy, Debug, PartialEq, Eq)]
pub enum ScriptFault {
    /// S1: a byte that is in no token.
    Byte,
    /// S2: a token that may not stand there.
    Token,
    /// S3: no number, or no data word.
    Number,
    /// S4: numbers that no message has, at its first word.
    Message(MessageFault),
    /// S5: the text ends inside a frame or a block.
    End,
    /// S6: too many blocks or operators in one another.
    Depth,
    /// S7: a number out of its range.
    Range,
    /// S8: too many messages.
    Messages,
    /// S10: a name that is defined already, or not defined.
    Name,
    /// S11: too many definitions.
    Definitions,
}

impl ScriptFault {
    /// The fault that the reader of scripts tells.
    pub fn of(cause: Cause) -> ScriptFault {
        match cause {
            Cause::Byte => ScriptFault::Byte,
            Cause::Token => ScriptFault::Token,
            Cause::Number => ScriptFault::Number,
            Cause::Message(bad) => ScriptFault::Message(MessageFault::of(bad)),
            Cause::End => ScriptFault::End,
            Cause::Depth => ScriptFault::Depth,
            Cause::Range => ScriptFault::Range,
            Cause::Messages => ScriptFault::Messages,
            Cause::Name => ScriptFault::Name,
            Cause::Definitions => ScriptFault::Definitions,
        }
    }
}

/// What is wrong with the numbers of a message.
#[derive(Clone, Copy, Debug, PartialEq, Eq)]
pub enum MessageFault {
    /// M1: an address.
    Address,
    /// M2: a subaddress.
    Subaddress,
    /// M3: a count, or a mode code that has no such form.
    CountOrCode,
    /// M4: both ends of a transfer are one terminal.
    SameEnds,
    /// M5: the data word of a mode command.
    ModeWord,
}

impl MessageFault {
    fn of(bad: BadMessage) -> MessageFault {
        match bad {
            BadMessage::Address => MessageFault::Address,
            BadMessage::Subaddress => MessageFault::Subaddress,
            BadMessage::CountOrCode => MessageFault::CountOrCode,
            BadMessage::SameEnds => MessageFault::SameEnds,
            BadMessage::ModeWord => MessageFault::ModeWord,
        }
    }
}

/// What is wrong with a line of a job.
#[derive(Clone, Copy, Debug, PartialEq, Eq)]
pub enum LineFault {
    /// J1: a word that may not stand there, is missing or is left over.
    Word,
    /// J2: a number.
    Number,
    /// J3: a line that stands twice, or is missing.
    Order,
    /// J4: a terminal.
    Terminal,
    /// J5 H1: a word of an action.
    ActionWord,
    /// J5 H2: a number of an action that is none.
    ActionNumber,
    /// J5 H3: a number of an action out of its range.
    ActionRange,
    /// J6 L1: a fifth fault of a message.
    FaultCount,
    /// J6 L2: a place or a value of a planned fault.
    FaultRange,
}

/// What is wrong with a line of rules.
#[derive(Clone, Copy, Debug, PartialEq, Eq)]
pub enum RuleFault {
    /// I1: a word that may not stand there, is missing or is left over; or no rule.
    Word,
    /// I2: what is no number, or no four hexadecimal digits.
    Number,
    /// I3: a number out of its range, a least one above the greatest, too many data words or rules.
    Range,
}
