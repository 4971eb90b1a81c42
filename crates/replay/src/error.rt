//! Why the debugger refuses.
use std::alloc::{AllocError, AllocFailed};
use std::error::Error;
use std::fmt::{self, Display, Formatter, Write};

/// Why a recording is not opened, or a move is not made.
#[derive(Clone, Copy, Debug, PartialEq, Eq)]
pub enum ReplayError {
    /// Y1: jobs, report and recording do not agree, and this is the first difference.
    Mismatch {
        /// The number of the channel.
        channel: u16,
        /// The number of the message in its channel, counted from 1; 0 where the channels themselves disagree.
        number: u32,
    },
    /// Y2: the place is past the end, or there is no such message.
    Past,
    /// Y3: the debugger stands at the start.
    Start,
    /// Y4: memory was refused.
    Memory,
}

/// `Y1 channel 1 number 3`, `Y2`, `Y3`, `memory`.
impl Display for ReplayError {
    ghost use Rattle.replay.specs.Codes.{error_text};
    ghost use Rattle.std.specs.Prelude.{Some};

    ghost output = { λ e. Some (error_text e) };

    fn fmt<W: Write>(&self, f: &mut Formatter<W>) -> fmt::Result {
        match self {
            ReplayError::Mismatch { channel, number } => {
                write!(f, "Y1 channel {channel} number {number}")
            }
            ReplayError::Past => write!(f, "Y2"),
            ReplayError::Start => write!(f, "Y3"),
            ReplayError::Memory => write!(f, "memory"),
        }
    }
}

impl Error for ReplayError {}

impl From<AllocError> for ReplayError {
    ghost use Rattle.replay.specs.declared.error.ReplayError.TheVariants.{Memory};
    ghost use Rattle.std.specs.Prelude.{◌≡◌};

    ghost from_gives = { λ _ e. e ≡ Memory };

    fn from(_: AllocError) -> ReplayError {
        ReplayError::Memory
    }
}

impl<T: Drop> From<AllocFailed<T>> for ReplayError {
    ghost use Rattle.replay.specs.declared.error.ReplayError.TheVariants.{Memory};
    ghost use Rattle.std.specs.Prelude.{◌≡◌};

    ghost from_gives = { λ _ e. e ≡ Memory };

    fn from(_: AllocFailed<T>) -> ReplayError {
        ReplayError::Memory
    }
}
