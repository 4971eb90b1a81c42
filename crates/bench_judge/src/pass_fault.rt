//! Faults of passes over a recording of which something is said.
ghost use Rattle.bench_judge.specs.declared.fault.PrintFault.TheVariants.{Device};
ghost use Rattle.bench_judge.specs.declared.pass_fault.PassFault.TheVariants.{Printing, Recording};
ghost use Rattle.ch11_stream.specs.declared.fault.StreamFault.TheVariants.{Memory};
ghost use Rattle.std.specs.Prelude.{◌≡◌};

use crate::fault::PrintFault;
use ch11_stream::StreamFault;
use std::alloc::AllocError;
use std::io;

/// Why what is said of a recording was not said to its end.
#[derive(Debug, Drop)]
pub enum PassFault {
    /// A reader of the recording could not be had for one more pass.
    Opening(io::Error),

    /// The recording is refused, its reader failed, or memory for it was refused. The writer may have got some of the
    /// text where it was a later pass than the first.
    Recording(StreamFault),

    /// The lines were not printed. The writer may have got some of the text.
    Printing(PrintFault),
}

impl From<AllocError> for PassFault {
    ghost from_gives = { λ _ e. e ≡ Recording Memory };

    fn from(_e: AllocError) -> PassFault {
        PassFault::Recording(StreamFault::Memory)
    }
}

impl From<StreamFault> for PassFault {
    ghost from_gives = { λ fault e. e ≡ Recording fault };

    fn from(fault: StreamFault) -> PassFault {
        PassFault::Recording(fault)
    }
}

impl From<PrintFault> for PassFault {
    ghost from_gives = { λ fault e. e ≡ Printing fault };

    fn from(fault: PrintFault) -> PassFault {
        PassFault::Printing(fault)
    }
}

impl From<io::Error> for PassFault {
    ghost from_gives = { λ cause e. e ≡ Printing (Device cause) };

    fn from(cause: io::Error) -> PassFault {
        PassFault::Printing(PrintFault::Device(cause))
    }
}
