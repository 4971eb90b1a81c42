//! Why no trunk was made.
use std::error::Error;
use std::fmt::{self, Display, Formatter, Write};

/// Why no trunk was made.
#[derive(Clone, Copy, Debug, PartialEq, Eq)]
pub enum TrunkError {
    /// `Q1`: the capacity is outside 1 to 4096 items.
    Capacity,
    /// `Q2`: memory was refused.
    Memory,
}

/// `Q1` and `Q2`.
impl Display for TrunkError {
    ghost use Rattle.mil_trunk.specs.Codes.{fault_code};
    ghost use Rattle.std.specs.Prelude.{Some};

    ghost output = { λ fault. Some (fault_code fault) };

    fn fmt<W: Write>(&self, f: &mut Formatter<W>) -> fmt::Result {
        f.write_str(match self {
            TrunkError::Capacity => "Q1",
            TrunkError::Memory => "Q2",
        })
    }
}

impl Error for TrunkError {}
