//! Why bytes are no body of a packet of MIL-STD-1553 messages.
use std::fmt::{self, Display, Formatter, Write};

/// Why bytes are no body. Messages are judged in their order, and the length of a message before its end.
#[derive(Clone, Copy, Debug, PartialEq, Eq)]
pub enum BodyError {
    /// F1: there are fewer than four bytes.
    Short,

    /// F2: the bus words of a message take an odd number of bytes.
    Odd,

    /// F3: the body ends inside a message.
    End,
}

impl Display for BodyError {
    ghost use Rattle.ch11_f1.specs.Codes.{fault_code};
    ghost use Rattle.std.specs.Prelude.{Some};

    ghost output = { λ e. Some (fault_code e) };

    fn fmt<W: Write>(&self, f: &mut Formatter<W>) -> fmt::Result {
        f.write_str(match self {
            BodyError::Short => "F1",
            BodyError::Odd => "F2",
            BodyError::End => "F3",
        })
    }
}
