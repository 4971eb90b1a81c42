//! Why a recording was not completed.
ghost use Rattle.bench_complete.specs.Faults.{fault_of_reading};
ghost use Rattle.bench_complete.specs.declared.fault.CompleteFault.TheVariants.{Device, Memory};
ghost use Rattle.std.specs.Prelude.{◌≡◌};

use ch11_reader::Refusal;
use ch11_stream::StreamFault;
use std::alloc::{AllocError, AllocFailed};
use std::io;

/// Why a recording was not completed. The variants stand in the order in which they are judged, but for the last three.
#[derive(Clone, Copy, Debug, PartialEq, Eq)]
pub enum CompleteFault {
    /// A usage fault: the text of the setup record has no byte, or more than 524,000.
    SetupSize,

    /// The recording can't be read: K1 to K5, N2 or F1 to F3 with the packet's offset.
    Refused(Refusal),

    /// A usage fault: the recording has computer generated data of Format 1 (type 01), as a setup record is, already.
    SetupTwice,

    /// A usage fault: the recording has a time packet already, and second ones are not asked for.
    TimeTwice,

    /// A usage fault: the channel of the time packets has packets in the recording.
    ChannelTaken,

    /// A usage fault: there would be more than 1,000,000 time packets.
    TooLong,

    /// Memory was refused.
    Memory,

    /// The reader failed, or the recording has become shorter since its packets were listed.
    Reader,

    /// The writer failed, which may have got some of the file.
    Device,
}

impl From<StreamFault> for CompleteFault {
    ghost from_gives = { λ cause e. e ≡ fault_of_reading cause };

    fn from(cause: StreamFault) -> CompleteFault {
        match cause {
            StreamFault::Refused(refusal) => CompleteFault::Refused(refusal),
            StreamFault::Memory => CompleteFault::Memory,
            StreamFault::Device => CompleteFault::Reader,
        }
    }
}

impl From<AllocError> for CompleteFault {
    ghost from_gives = { λ _ e. e ≡ Memory };

    fn from(_: AllocError) -> CompleteFault {
        CompleteFault::Memory
    }
}

impl<T: Drop> From<AllocFailed<T>> for CompleteFault {
    ghost from_gives = { λ _ e. e ≡ Memory };

    fn from(_: AllocFailed<T>) -> CompleteFault {
        CompleteFault::Memory
    }
}

impl From<io::Error> for CompleteFault {
    ghost from_gives = { λ _ e. e ≡ Device };

    fn from(_: io::Error) -> CompleteFault {
        CompleteFault::Device
    }
}
