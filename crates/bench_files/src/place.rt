//! What the system tells of a file that is to be written.
use crate::beginnings::is_of_kind;
use crate::error::OutError;
use crate::kind::Kind;
use std::fs::{self, File, Metadata, TryLockError};
use std::io::{self, Read};
use std::os::unix::fs::{FileTypeExt, MetadataExt};
use std::rt::Files;

/// So many bytes at the beginning of a file tell its kind.
const BEGINNING: usize = 64;

/// The name of the standard output as a file.
const OUTPUT: &str = "/dev/stdout";

/// An open file that one process at a time may hold, until it closes it or ends.
pub trait Hold {
    /// Holds it; false where another process does.
    fn try_hold(&self) -> io::Result<bool>;
}

impl Hold for File {
    fn try_hold(&self) -> io::Result<bool> {
        match self.try_lock() {
            Ok(()) => Ok(true),
            Err(TryLockError::WouldBlock) => Ok(false),
            Err(TryLockError::Error(error)) => Err(error),
        }
    }
}

/// Whether these are of one file.
pub(crate) fn is_one(one: &Metadata, other: &Metadata) -> bool {
    one.dev() == other.dev() && one.ino() == other.ino()
}

/// What there is of this name, if anything: links are followed.
pub(crate) fn found<R: Files>(rt: &R, name: &str) -> io::Result<Option<Metadata>> {
    match fs::metadata(rt, name) {
        Ok(metadata) => Ok(Some(metadata)),
        Err(error) if error.kind() == io::ErrorKind::NotFound => Ok(None),
        Err(error) => Err(error),
    }
}

/// Whether this is the file or pipe that the standard output goes to, which others write to as well. A terminal and the
/// null device do not count: nothing is lost there.
pub(crate) fn is_output<R: Files>(rt: &R, metadata: &Metadata) -> bool {
    match fs::metadata(rt, OUTPUT) {
        Ok(output) => is_one(metadata, &output) && !metadata.file_type().is_char_device(),
        Err(_) => false,
    }
}

/// Whether a name leads to the file or pipe that the standard output goes to.
pub fn leads_to_output<R: Files>(rt: &R, name: &str) -> bool {
    match fs::metadata(rt, name) {
        Ok(metadata) => is_output(rt, &metadata),
        Err(_) => false,
    }
}

/// Refuses a file of this name that is there and is of another kind, by its first bytes.
pub fn refuse_other_kind<R: Files>(rt: &R, name: &str, kind: Kind) -> Result<(), OutError> {
    match found(rt, name)? {
        Some(metadata) if metadata.is_file() => {}
        _ => return Ok(()),
    }
    let mut beginning = [0u8; BEGINNING];
    let mut file = fs::open(rt, name)?;
    let count = file.read(&mut beginning)?;
    if is_of_kind(kind, &beginning[..count]) {
        Ok(())
    } else {
        Err(OutError::OtherKind)
    }
}
