//! Faults of an export.
ghost use Rattle.bench_export.specs.declared.fault.ExportFault.TheVariants.{Reading, Writing};
ghost use Rattle.std.specs.Prelude.{◌≡◌};

use ch11_stream::StreamFault;
use csv::ErrorKind;
use text_lines::WriteFault;

/// Why a recording was not exported, or not to its end.
#[derive(Clone, Copy, Debug, PartialEq, Eq)]
pub enum ExportFault {
    /// The next packet could not be read: the recording is refused with its first fault, memory for a packet of
    /// messages was refused, or the reader failed. The writer may have got rows of packets in front of it; of a value
    /// change dump only where the second pass met it.
    Reading(StreamFault),

    /// What was read could not be written: memory for it was refused, or the writer failed.
    Writing(WriteFault),
}

impl From<StreamFault> for ExportFault {
    ghost from_gives = { λ cause e. e ≡ Reading cause };

    fn from(cause: StreamFault) -> ExportFault {
        ExportFault::Reading(cause)
    }
}

impl From<WriteFault> for ExportFault {
    ghost from_gives = { λ cause e. e ≡ Writing cause };

    fn from(cause: WriteFault) -> ExportFault {
        ExportFault::Writing(cause)
    }
}

/// What an error of a writer of comma-separated values is.
pub(crate) fn written(error: &csv::Error) -> WriteFault {
    match error.kind() {
        ErrorKind::OutOfMemory => WriteFault::Memory,
        _ => WriteFault::Device,
    }
}
