//! The file beside an out file that has the bytes until they are whole, and that tells other processes that they are
//! being written.
use crate::error::OutError;
use crate::kind::Kind;
use crate::place::{Hold, found, is_one, refuse_other_kind};
use std::fs::{self, Metadata, OpenFile, OpenOptions};
use std::io;
use std::os::unix::fs::{MetadataExt, OpenOptionsExt};
use std::rt::Files;

/// How often a part is opened, where another process that is done takes it away at that moment.
const TRIES: usize = 100;

/// Who may read and write a file that was not there, less what the user's mask takes away.
const ANYONE: u32 = 0o666;

/// Those bits of a file's mode that say who may do what.
const PERMISSIONS: u32 = 0o777;

/// Refuses a part that no run can have left: a link, a file with two names, one of another kind.
fn refuse_other_part<R: Files>(rt: &R, part: &str, kind: Kind) -> Result<(), OutError> {
    match fs::symlink_metadata(rt, part) {
        Ok(metadata) if !metadata.is_file() || metadata.nlink() > 1 => Err(OutError::OtherPart),
        Ok(_) => match refuse_other_kind(rt, part, kind) {
            Err(OutError::OtherKind) => Err(OutError::OtherPart),
            answer => answer,
        },
        Err(_) => Ok(()),
    }
}

/// The part of this name, made where it is not there, held by this process alone, without a byte, and with the
/// permissions of what is there. Another process that holds it is writing the file.
pub(crate) fn hold_part<R: Files>(
    rt: &R,
    part: &str,
    kind: Kind,
    there: Option<&Metadata>,
) -> Result<R::File, OutError>
where
    R::File: Hold,
{
    let mode = match there {
        Some(metadata) => metadata.mode() & PERMISSIONS,
        None => ANYONE,
    };
    for _ in 0..TRIES {
        refuse_other_part(rt, part, kind)?;
        let mut options = OpenOptions::new();
        options.write(true).create(true).mode(mode);
        let file = options.open(rt, part)?;
        if !file.try_hold()? {
            return Err(OutError::Busy);
        }
        if is_named(rt, part, &file)? {
            prepare(rt, part, &file, there)?;
            return Ok(file);
        }
    }
    Err(OutError::Busy)
}

/// Whether an open file still has this name.
fn is_named<R: Files>(rt: &R, part: &str, file: &R::File) -> io::Result<bool> {
    match found(rt, part)? {
        Some(named) => Ok(is_one(&named, &file.metadata()?)),
        None => Ok(false),
    }
}

/// Takes out what an earlier run left, and makes owner and permissions those of what is there; only the superuser may
/// give a file to another owner.
fn prepare<R: Files>(
    rt: &R,
    part: &str,
    file: &R::File,
    there: Option<&Metadata>,
) -> io::Result<()> {
    file.set_len(0)?;
    let Some(there) = there else {
        return Ok(());
    };
    let made = file.metadata()?;
    if made.uid() != there.uid() || made.gid() != there.gid() {
        if rt
            .chown(part, Some(there.uid()), Some(there.gid()))
            .is_err()
        {
            // Where the owner may not be given away the group may; neither is a fault.
            let _ = rt.chown(part, None, Some(there.gid()));
        }
    }
    file.set_permissions(there.permissions())
}
