//! Why a fault is not taken into a plan.
use std::fmt::{self, Display, Formatter, Write};

/// Why `Plan::add` refuses; the refusals come in this order.
#[derive(Clone, Copy, Debug, PartialEq, Eq)]
pub enum LineError {
    /// A fifth fault of one message (L1).
    TooMany,
    /// A message's number, a place or a value out of its range (L2).
    OutOfRange,
    /// Memory (L3).
    Memory,
}

/// `L1` to `L3`.
impl Display for LineError {
    ghost use Rattle.mil_line.specs.Codes.{fault_code};
    ghost use Rattle.std.specs.Prelude.{Some};

    ghost output = { λ fault. Some (fault_code fault) };

    fn fmt<W: Write>(&self, f: &mut Formatter<W>) -> fmt::Result {
        f.write_str(match self {
            LineError::TooMany => "L1",
            LineError::OutOfRange => "L2",
            LineError::Memory => "L3",
        })
    }
}
