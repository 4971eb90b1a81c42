//! Why verdicts were not printed, or not to their end.
ghost use Rattle.bench_judge.specs.declared.fault.PrintFault.TheVariants.{Device, Memory};
ghost use Rattle.std.specs.Prelude.{◌≡◌};

use std::alloc::AllocError;
use std::io;

/// Why verdicts were not printed to their end.
#[derive(Debug, Drop)]
pub enum PrintFault {
    /// Memory was refused. The writer may have got some of the text.
    Memory,

    /// The writer failed, which may have got some of the text.
    Device(io::Error),
}

impl From<AllocError> for PrintFault {
    ghost from_gives = { λ _ e. e ≡ Memory };

    fn from(_e: AllocError) -> PrintFault {
        PrintFault::Memory
    }
}

impl From<io::Error> for PrintFault {
    ghost from_gives = { λ cause e. e ≡ Device cause };

    fn from(cause: io::Error) -> PrintFault {
        PrintFault::Device(cause)
    }
}
