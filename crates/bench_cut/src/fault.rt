//! Why a recording was not cut.
ghost use Rattle.bench_cut.specs.declared.fault.CutFault.TheVariants.{Reading, Writing};
ghost use Rattle.ch11_stream.specs.declared.fault.StreamFault.TheVariants.{Memory};
ghost use Rattle.std.specs.Prelude.{◌≡◌};

use ch11_stream::StreamFault;
use std::alloc::{AllocError, AllocFailed};
use std::io;

/// Why a recording was not cut, or not to its end.
#[derive(Clone, Copy, Debug, PartialEq, Eq)]
pub enum CutFault {
    /// The next packet could not be read: the recording is refused with its first fault, memory was refused, or the
    /// reader failed. The writer may have got packets in front of it.
    Reading(StreamFault),

    /// The writer failed, which may have got some of the packets.
    Writing,
}

impl From<StreamFault> for CutFault {
    ghost from_gives = { λ cause e. e ≡ Reading cause };

    fn from(cause: StreamFault) -> CutFault {
        CutFault::Reading(cause)
    }
}

impl From<AllocError> for CutFault {
    ghost from_gives = { λ _ e. e ≡ Reading Memory };

    fn from(_: AllocError) -> CutFault {
        CutFault::Reading(StreamFault::Memory)
    }
}

impl<T: Drop> From<AllocFailed<T>> for CutFault {
    ghost from_gives = { λ _ e. e ≡ Reading Memory };

    fn from(_: AllocFailed<T>) -> CutFault {
        CutFault::Reading(StreamFault::Memory)
    }
}

impl From<io::Error> for CutFault {
    ghost from_gives = { λ _ e. e ≡ Writing };

    fn from(_: io::Error) -> CutFault {
        CutFault::Writing
    }
}
