//! Why a recording was not reproduced.

use ch11_stream::StreamFault;
use job_file::JobError;
use std::alloc::{AllocError, AllocFailed};

/// Why a recording was not reproduced.
#[derive(Drop)]
pub enum ReproduceFault {
    /// It is refused with its first fault, memory was refused, or the reader failed.
    Reading(StreamFault),
    /// The channel has no message.
    Nothing,
    /// The channel has more than 1,000,000 messages.
    Many,
    /// Its messages begin more than 2^47 ticks after the first, or their times are not known.
    Span,
    /// The job that was written can't be read.
    Refused(JobError),
}

impl From<StreamFault> for ReproduceFault {
    fn from(cause: StreamFault) -> ReproduceFault {
        ReproduceFault::Reading(cause)
    }
}

impl From<JobError> for ReproduceFault {
    fn from(cause: JobError) -> ReproduceFault {
        match cause {
            JobError::Memory => ReproduceFault::Reading(StreamFault::Memory),
            cause => ReproduceFault::Refused(cause),
        }
    }
}

impl From<AllocError> for ReproduceFault {
    fn from(_: AllocError) -> ReproduceFault {
        ReproduceFault::Reading(StreamFault::Memory)
    }
}

impl<T: Drop> From<AllocFailed<T>> for ReproduceFault {
    fn from(_: AllocFailed<T>) -> ReproduceFault {
        ReproduceFault::Reading(StreamFault::Memory)
    }
}
