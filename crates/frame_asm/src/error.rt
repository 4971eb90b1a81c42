//! Why a frame has no image.
ghost use Rattle.frame_asm.specs.declared.error.AsmError.TheVariants.{Memory};
ghost use Rattle.std.specs.Prelude.{◌≡◌, Some};

use std::alloc::AllocError;
use std::fmt::{self, Display, Formatter, Write};

/// Why a frame has no image.
#[derive(Clone, Copy, PartialEq, Eq, Debug)]
pub enum AsmError {
    /// A1: there are more than 4096 operations.
    Operations,
    /// A2: there are more than 1024 messages.
    Messages,
    /// A3: memory was refused.
    Memory,
}

impl Display for AsmError {
    ghost use Rattle.frame_asm.specs.Codes as letters;

    ghost output = { λ e. Some (letters.fault_code e) };

    fn fmt<W: Write>(&self, f: &mut Formatter<W>) -> fmt::Result {
        f.write_str(match self {
            AsmError::Operations => "A1",
            AsmError::Messages => "A2",
            AsmError::Memory => "A3",
        })
    }
}

impl From<AllocError> for AsmError {
    ghost from_gives = { λ _ e. e ≡ Memory };

    fn from(_: AllocError) -> AsmError {
        AsmError::Memory
    }
}
