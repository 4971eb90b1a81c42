//! Why there is no such terminal.
ghost use Rattle.mil_terminal.specs.Codes.{fault_code};
ghost use Rattle.mil_terminal.specs.declared.error.TerminalError.TheVariants.{Memory};
ghost use Rattle.std.specs.Prelude.{◌≡◌, Some};

use std::alloc::AllocError;
use std::fmt::{self, Display, Formatter, Write};

/// Why `Terminal::make` refuses.
#[derive(Clone, Copy, Debug, PartialEq, Eq)]
pub enum TerminalError {
    /// An address over 30 (Z1).
    Address,
    /// Memory (Z2).
    Memory,
}

/// `Z1` and `Z2`.
impl Display for TerminalError {
    ghost output = { λ fault. Some (fault_code fault) };

    fn fmt<W: Write>(&self, f: &mut Formatter<W>) -> fmt::Result {
        f.write_str(match self {
            TerminalError::Address => "Z1",
            TerminalError::Memory => "Z2",
        })
    }
}

impl From<AllocError> for TerminalError {
    ghost from_gives = { λ _ e. e ≡ Memory };

    fn from(_: AllocError) -> TerminalError {
        TerminalError::Memory
    }
}
