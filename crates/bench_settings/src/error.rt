//! Why nothing was run.

use std::error::Error;
use std::fmt::{self, Display, Formatter, Write};

/// Why nothing was run.
#[derive(Clone, Copy, Debug, PartialEq, Eq)]
pub enum WorldError {
    /// U2: there is no job or more than 32, or a setting is out of its range.
    Settings,
    /// U1: two jobs have the same channel.
    ChannelTwice,
    /// U5: the prologue is not a list of sound packets, or has one of MIL-STD-1553 messages.
    Prologue,
    /// U3: memory was refused.
    Memory,
}

/// `U2`, `U1`, `U5`, `U3`.
impl Display for WorldError {
    ghost use Rattle.bench_settings.specs.Lawful.{fault_code};
    ghost use Rattle.std.specs.Prelude.{Some};

    ghost output = { λ e. Some (fault_code e) };

    fn fmt<W: Write>(&self, f: &mut Formatter<W>) -> fmt::Result {
        f.write_str(match self {
            WorldError::Settings => "U2",
            WorldError::ChannelTwice => "U1",
            WorldError::Prologue => "U5",
            WorldError::Memory => "U3",
        })
    }
}

impl Error for WorldError {}
