//! A file that is being written: beside its place until it is whole, or straight where it is a stream.
use crate::error::OutError;
use crate::kind::Kind;
use crate::names::{followed, part_of};
use crate::part::hold_part;
use crate::place::{Hold, found, is_one, is_output, refuse_other_kind};
use std::fs::{Metadata, OpenFile, OpenOptions};
use std::io::{self, Write};
use std::os::unix::fs::FileTypeExt;
use std::rt::Files;

/// The system's number for a name that leads nowhere (ENOENT).
const NO_SUCH_FILE: i32 = 2;

/// A file that is to be written. What was there stays as it was, and no other process can begin to write it, until it
/// takes its place or is given up.
#[derive(Drop)]
pub struct OutFile<'a, F: Drop> {
    /// Its name as given.
    name: &'a str,
    /// What is written to; none where it is opened when there is something to write.
    file: Option<F>,
    way: Way,
}

/// How a file is written.
#[derive(Drop)]
enum Way {
    /// As it is, since it is a stream or the standard output.
    Straight,
    /// Under another name until it is whole. Whether nothing was there when it was begun.
    Beside {
        path: String,
        part: String,
        is_new: bool,
    },
}

/// Opens what is there; a pipe is opened when there is something to write, since that waits for its reader.
fn open_there<R: Files>(rt: &R, name: &str, there: &Metadata) -> io::Result<Option<R::File>> {
    if there.file_type().is_fifo() {
        return Ok(None);
    }
    Ok(Some(open_to_write(rt, name)?))
}

fn open_to_write<R: Files>(rt: &R, name: &str) -> io::Result<R::File> {
    let mut options = OpenOptions::new();
    options.write(true);
    options.open(rt, name)
}

/// Whether what is there is written as it is: a stream, the standard output, or a file that has no name to be replaced
/// by.
fn is_straight<R: Files>(rt: &R, path: &str, there: &Metadata) -> bool {
    if !there.is_file() || is_output(rt, there) {
        return true;
    }
    match found(rt, path) {
        Ok(Some(named)) => !is_one(&named, there),
        _ => true,
    }
}

impl<'a, F: OpenFile + Write + Hold + Drop> OutFile<'a, F> {
    /// Begins to write the file of this name: all that it needs of the system is asked for, and what is there stays as
    /// it is. A file that is there and is of another kind is refused unless `force` says that it may be replaced, and
    /// so is one that another process is writing.
    pub fn begin<R: Files<File = F> + AllocGlobal>(
        rt: &R,
        name: &'a str,
        kind: Kind,
        force: bool,
    ) -> Result<OutFile<'a, F>, OutError> {
        if !force {
            refuse_other_kind(rt, name, kind)?;
        }
        let Some(there) = found(rt, name)? else {
            return OutFile::begin_beside(rt, name, followed(rt, name)?, kind, None);
        };
        let file = open_there(rt, name, &there)?;
        let path = followed(rt, name)?;
        if is_straight(rt, path.as_str(), &there) {
            return Ok(OutFile {
                name,
                file,
                way: Way::Straight,
            });
        }
        OutFile::begin_beside(rt, name, path, kind, Some(&there))
    }

    fn begin_beside<R: Files<File = F> + AllocGlobal>(
        rt: &R,
        name: &'a str,
        path: String,
        kind: Kind,
        there: Option<&Metadata>,
    ) -> Result<OutFile<'a, F>, OutError> {
        if path.is_empty() || path.as_str().ends_with('/') {
            return Err(OutError::from(io::Error::from_raw_os_error(NO_SUCH_FILE)));
        }
        let part = part_of(rt.alloc(), path.as_str())?;
        let file = hold_part(rt, part.as_str(), kind, there)?;
        Ok(OutFile {
            name,
            file: Some(file),
            way: Way::Beside {
                path,
                part,
                is_new: there.is_none(),
            },
        })
    }

    /// Where its bytes go: asked for once, when the first of them is there. The standard output loses what it had
    /// where it is a file.
    pub fn writer<R: Files<File = F>>(&mut self, rt: &R) -> io::Result<F> {
        if let Way::Beside { .. } = &self.way {
            if let Some(file) = &self.file {
                return file.try_clone();
            }
        }
        let file = match self.file.take() {
            Some(file) => file,
            None => open_to_write(rt, self.name)?,
        };
        if file.metadata()?.is_file() {
            file.set_len(0)?;
        }
        Ok(file)
    }

    /// Has the system put all bytes where they outlast a loss of power.
    pub fn sync(&self) -> io::Result<()> {
        match (&self.way, &self.file) {
            (Way::Beside { .. }, Some(file)) => file.sync_all(),
            _ => Ok(()),
        }
    }

    /// Gives what was written its name, in the place of what was there.
    pub fn take_place<R: Files<File = F>>(self, rt: &R) -> io::Result<()> {
        match &self.way {
            Way::Straight => Ok(()),
            Way::Beside { path, part, .. } => rt.rename(part.as_str(), path.as_str()),
        }
    }

    /// Makes an empty file where there was none, and leaves what was there.
    pub fn leave_empty<R: Files<File = F>>(self, rt: &R) -> io::Result<()> {
        if let Way::Beside { is_new: true, .. } = &self.way {
            return self.take_place(rt);
        }
        self.give_up(rt);
        Ok(())
    }

    /// Leaves what was there, and nothing of what was written.
    pub fn give_up<R: Files<File = F>>(self, rt: &R) {
        if let Way::Beside { part, .. } = &self.way {
            // A file beside that cannot be removed stays; why nothing was written is told.
            let _ = rt.remove_file(part.as_str());
        }
    }

    /// Leaves what was there, and beside it what was written, if anything was.
    pub fn leave<R: Files<File = F>>(self, rt: &R) {
        if let Some(file) = &self.file {
            if let Ok(metadata) = file.metadata() {
                if metadata.len() > 0 {
                    return;
                }
            }
        }
        self.give_up(rt);
    }
}
