//! Why two recordings were not compared.
ghost use Rattle.bench_compare.specs.declared.fault.CompareFault.TheVariants as faults;
ghost use Rattle.bench_compare.specs.declared.fault.SideFault.TheVariants as sides;
ghost use Rattle.ch11_stream.specs.declared.fault.StreamFault.TheVariants as streams;
ghost use Rattle.std.specs.Prelude.{◌≡◌};

use ch11_stream::StreamFault;
use std::alloc::{AllocError, AllocFailed};
use std::io;

/// Why a recording was not read to its end.
#[derive(Debug, Drop)]
pub enum SideFault {
    /// It could not be opened for a pass.
    Opening(io::Error),

    /// It is refused with its first fault, memory was refused, or the reader failed.
    Reading(StreamFault),
}

impl From<StreamFault> for SideFault {
    ghost from_gives = { λ cause e. e ≡ sides.Reading cause };

    fn from(cause: StreamFault) -> SideFault {
        SideFault::Reading(cause)
    }
}

/// Why two recordings were not compared.
#[derive(Debug, Drop)]
pub enum CompareFault {
    /// The first was not read to its end.
    First(SideFault),

    /// The second was not read to its end.
    Second(SideFault),
}

impl From<AllocError> for CompareFault {
    ghost from_gives = { λ _ e. e ≡ faults.First (sides.Reading streams.Memory) };

    fn from(_: AllocError) -> CompareFault {
        CompareFault::First(SideFault::Reading(StreamFault::Memory))
    }
}

impl<T: Drop> From<AllocFailed<T>> for CompareFault {
    ghost from_gives = { λ _ e. e ≡ faults.First (sides.Reading streams.Memory) };

    fn from(_: AllocFailed<T>) -> CompareFault {
        CompareFault::First(SideFault::Reading(StreamFault::Memory))
    }
}
