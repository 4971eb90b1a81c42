//! Why a recording was not read to its end, or what is made of it not written.
ghost use Rattle.ch11_stream.specs.FaultText.{fault_text};
ghost use Rattle.ch11_stream.specs.Feeding.{fault_of_reading};
ghost use Rattle.ch11_stream.specs.declared.fault.StreamFault.TheVariants.{Device, Memory};
ghost use Rattle.std.specs.Prelude.{◌≡◌, Some};

use ch11_reader::{ReadError, Refusal};
use std::alloc::AllocError;
use std::fmt::{self, Display, Formatter, Write};
use std::io;

/// Why a packet could not be read, or what is made of packets not written.
#[derive(Clone, Copy, Debug, PartialEq, Eq)]
pub enum StreamFault {
    /// K1 to K5, N2 and F1 to F3, with the packet's offset.
    Refused(Refusal),

    /// Memory was refused.
    Memory,

    /// The reader failed, or the packet ends behind byte 2^64 - 2; or the writer failed, which may have got some of the
    /// text.
    Device,
}

impl Display for StreamFault {
    ghost output = { λ e. Some (fault_text e) };

    fn fmt<W: Write>(&self, f: &mut Formatter<W>) -> fmt::Result {
        match self {
            StreamFault::Refused(refusal) => write!(f, "{refusal}"),
            StreamFault::Memory => write!(f, "memory"),
            StreamFault::Device => write!(f, "device -"),
        }
    }
}

impl From<ReadError> for StreamFault {
    ghost from_gives = { λ cause e. e ≡ fault_of_reading cause };

    fn from(cause: ReadError) -> StreamFault {
        match cause {
            ReadError::Refused(refusal) => StreamFault::Refused(refusal),
            ReadError::Memory => StreamFault::Memory,
        }
    }
}

impl From<AllocError> for StreamFault {
    ghost from_gives = { λ _ e. e ≡ Memory };

    fn from(_: AllocError) -> StreamFault {
        StreamFault::Memory
    }
}

impl From<io::Error> for StreamFault {
    ghost from_gives = { λ _ e. e ≡ Device };

    fn from(_: io::Error) -> StreamFault {
        StreamFault::Device
    }
}
