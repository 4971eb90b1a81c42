//! Why there is no builder.
use std::fmt::{self, Display, Formatter, Write};

/// Why there is no builder. The limit is judged first.
#[derive(Clone, Copy, Debug, PartialEq, Eq)]
pub enum BuilderError {
    /// G1: the packet limit is outside 256 to 524,288 bytes.
    Limit,

    /// G2: memory was refused.
    Memory,
}

impl Display for BuilderError {
    ghost use Rattle.ch11_builder.specs.Codes.{fault_code};
    ghost use Rattle.std.specs.Prelude.{Some};

    ghost output = { λ e. Some (fault_code e) };

    fn fmt<W: Write>(&self, f: &mut Formatter<W>) -> fmt::Result {
        f.write_str(match self {
            BuilderError::Limit => "G1",
            BuilderError::Memory => "G2",
        })
    }
}
