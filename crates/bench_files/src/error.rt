//! Why a file cannot be written.
use std::alloc::AllocError;
use std::io;

/// Why a file cannot be written.
#[derive(Debug, Drop)]
pub enum OutError {
    /// The system refused it, or memory was refused.
    System(io::Error),
    /// Another process is writing it.
    Busy,
    /// What is there is of another kind than what is to be written.
    OtherKind,
    /// What is there under the name that the file has until it is whole is of another kind, or has a second name.
    OtherPart,
}

impl From<io::Error> for OutError {
    fn from(error: io::Error) -> OutError {
        OutError::System(error)
    }
}

impl From<AllocError> for OutError {
    fn from(_: AllocError) -> OutError {
        OutError::System(io::Error::from(io::ErrorKind::OutOfMemory))
    }
}
