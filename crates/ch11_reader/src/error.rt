//! Why a recording can't be read.
ghost use Rattle.ch11_reader.specs.Codes.{fault_code, refusal_text, error_text};
ghost use Rattle.ch11_reader.specs.declared.error.ReadError.TheVariants.{Memory};
ghost use Rattle.std.specs.Prelude.{◌≡◌, Some};

use ch11_f1::BodyError;
use ch11_header::HeaderError;
use std::alloc::{AllocError, AllocFailed};
use std::fmt::{self, Display, Formatter, Write};

/// What is wrong with a packet. The header is judged first, then the packet's end, then its body.
#[derive(Clone, Copy, Debug, PartialEq, Eq)]
pub enum PacketFault {
    /// K1 to K5: no header stands there.
    Header(HeaderError),

    /// N2: the file ends before the packet does.
    End,

    /// F1 to F3: the body of a packet of messages can't be read.
    Body(BodyError),
}

/// The first fault of a recording.
#[derive(Clone, Copy, Debug, PartialEq, Eq)]
pub struct Refusal {
    /// Where the packet begins, in bytes from the start of the file.
    pub offset: usize,

    /// What is wrong with it.
    pub fault: PacketFault,
}

/// Why no index was built.
#[derive(Clone, Copy, Debug, PartialEq, Eq)]
pub enum ReadError {
    /// K1 to K5, N2 and F1 to F3, each with the packet's offset.
    Refused(Refusal),

    /// N1: the recording can be read, but memory for its index was refused.
    Memory,
}

impl Display for PacketFault {
    ghost output = { λ e. Some (fault_code e) };

    fn fmt<W: Write>(&self, f: &mut Formatter<W>) -> fmt::Result {
        match self {
            PacketFault::Header(fault) => write!(f, "{fault}"),
            PacketFault::End => write!(f, "N2"),
            PacketFault::Body(fault) => write!(f, "{fault}"),
        }
    }
}

impl Display for Refusal {
    ghost output = { λ e. Some (refusal_text e) };

    fn fmt<W: Write>(&self, f: &mut Formatter<W>) -> fmt::Result {
        write!(f, "{} offset {}", self.fault, self.offset)
    }
}

impl Display for ReadError {
    ghost output = { λ e. Some (error_text e) };

    fn fmt<W: Write>(&self, f: &mut Formatter<W>) -> fmt::Result {
        match self {
            ReadError::Refused(refusal) => write!(f, "{refusal}"),
            ReadError::Memory => write!(f, "memory"),
        }
    }
}

impl From<AllocError> for ReadError {
    ghost from_gives = { λ _ e. e ≡ Memory };

    fn from(_: AllocError) -> ReadError {
        ReadError::Memory
    }
}

impl<T: Drop> From<AllocFailed<T>> for ReadError {
    ghost from_gives = { λ _ e. e ≡ Memory };

    fn from(_: AllocFailed<T>) -> ReadError {
        ReadError::Memory
    }
}
