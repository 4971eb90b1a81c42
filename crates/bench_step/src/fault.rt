//! Why a session ended before its lines did, or with a refusal for memory.
ghost use Rattle.bench_step.specs.Answering.{IsReaders, fault_of};
ghost use Rattle.bench_step.specs.FaultText.{fault_text};
ghost use Rattle.std.specs.IoError.{error_kind};
ghost use Rattle.std.specs.Prelude.{◌≡◌, Some};

use ch11_reader::{ReadError, Refusal};
use std::fmt::{self, Display, Formatter, Write};
use std::io;

/// Why a session ended before its lines did, or with a refusal for memory.
#[derive(Clone, Copy, Debug, PartialEq, Eq)]
pub enum StepFault {
    /// The recording can't be read: K1 to K5, N2 or F1 to F3 with the packet's offset. No line was read.
    Refused(Refusal),
    /// Y1: jobs, report and recording do not agree, and this is the first difference. No line was read.
    Mismatch {
        /// The number of the channel.
        channel: u16,
        /// The number of the message in its channel, counted from 1; 0 where the channels themselves disagree.
        number: u32,
    },
    /// Memory was refused: before the first line, or for what a line asked, where all lines were answered.
    Memory,
    /// Memory was refused for a line as it was read.
    LineMemory,
    /// The lines could not be read.
    Input,
    /// The writer failed, which may have got some of an answer.
    Output,
}

/// `K3 offset 0`, `Y1 channel 1 number 3`, `memory`, `device -`.
impl Display for StepFault {
    ghost output = { λ e. Some (fault_text e) };

    fn fmt<W: Write>(&self, f: &mut Formatter<W>) -> fmt::Result {
        match self {
            StepFault::Refused(refusal) => write!(f, "{refusal}"),
            StepFault::Mismatch { channel, number } => {
                write!(f, "Y1 channel {channel} number {number}")
            }
            StepFault::Memory | StepFault::LineMemory => write!(f, "memory"),
            StepFault::Input | StepFault::Output => write!(f, "device -"),
        }
    }
}

impl From<ReadError> for StepFault {
    ghost from_gives = { λ unread e. e ≡ fault_of unread };

    fn from(unread: ReadError) -> StepFault {
        match unread {
            ReadError::Refused(refusal) => StepFault::Refused(refusal),
            ReadError::Memory => StepFault::Memory,
        }
    }
}

impl StepFault {
    /// The fault of a reader: memory was refused for a line, or the lines could not be read.
    pub(crate) fn of_reader(error: &io::Error) -> StepFault
        ensures { IsReaders (error_kind error.now) result }
    {
        if error.kind() == io::ErrorKind::OutOfMemory {
            StepFault::LineMemory
        } else {
            StepFault::Input
        }
    }
}
