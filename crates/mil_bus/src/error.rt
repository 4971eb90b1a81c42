//! Why there is no such bus.
use std::fmt::{self, Display, Formatter, Write};

/// Why `Bus::make` refuses.
#[derive(Clone, Copy, Debug, PartialEq, Eq)]
pub enum BusError {
    /// An address over 30, or one that stands twice (B1).
    Addresses,
    /// Memory (B2).
    Memory,
}

/// `B1` and `B2`.
impl Display for BusError {
    ghost use Rattle.mil_bus.specs.Codes.{fault_code};
    ghost use Rattle.std.specs.Prelude.{Some};

    ghost output = { λ fault. Some (fault_code fault) };

    fn fmt<W: Write>(&self, f: &mut Formatter<W>) -> fmt::Result {
        f.write_str(match self {
            BusError::Addresses => "B1",
            BusError::Memory => "B2",
        })
    }
}
