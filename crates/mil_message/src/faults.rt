//! Why a draft is no message.
use std::fmt::{self, Display, Formatter, Write};

/// Why a draft is no message: the first that holds, in this order.
#[derive(Clone, Copy, Debug, PartialEq, Eq)]
pub enum BadMessage {
    /// An address over 30.
    Address,
    /// A subaddress outside 1 to 30.
    Subaddress,
    /// A count or number of words outside 1 to 32, or a code that has no such form.
    CountOrCode,
    /// A transfer from a terminal to itself.
    SameEnds,
    /// A mode command without its data word, with more than one, or with one that is not asked for.
    ModeWord,
}

/// `M1` to `M5`.
impl Display for BadMessage {
    ghost use Rattle.mil_message.specs.Codes.{fault_code};
    ghost use Rattle.std.specs.Prelude.{Some};

    ghost output = { λ fault. Some (fault_code fault) };

    fn fmt<W: Write>(&self, f: &mut Formatter<W>) -> fmt::Result {
        f.write_str(match self {
            BadMessage::Address => "M1",
            BadMessage::Subaddress => "M2",
            BadMessage::CountOrCode => "M3",
            BadMessage::SameEnds => "M4",
            BadMessage::ModeWord => "M5",
        })
    }
}
