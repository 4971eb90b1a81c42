//! Why a text was not written.
ghost use Rattle.std.specs.Prelude.{◌≡◌};
ghost use Rattle.text_lines.specs.declared.fault.WriteFault.TheVariants.{Device, Memory};

use std::alloc::AllocError;
use std::io;

/// Why a text was not written, or not to its end.
#[derive(Clone, Copy, Debug, PartialEq, Eq)]
pub enum WriteFault {
    /// Memory was refused.
    Memory,

    /// The writer failed, which may have got some of the text.
    Device,
}

impl From<AllocError> for WriteFault {
    ghost from_gives = { λ _ e. e ≡ Memory };

    fn from(_: AllocError) -> WriteFault {
        WriteFault::Memory
    }
}

impl From<io::Error> for WriteFault {
    ghost from_gives = { λ _ e. e ≡ Device };

    fn from(_: io::Error) -> WriteFault {
        WriteFault::Device
    }
}
