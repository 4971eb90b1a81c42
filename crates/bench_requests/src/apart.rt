//! Files told apart by what they are, so that no command writes over a file that it reads or that it writes besides.
ghost use Rattle.bench_requests.specs.Apart.{is_same_place};
ghost use Rattle.std.specs.Prelude.{◌≡◌};

use crate::fault::CommandFault;
use bench_files::{followed, part_of};
use std::alloc::AllocError;
use std::fs::{self, Metadata};
use std::os::unix::fs::{FileTypeExt, MetadataExt};
use std::rt::Files;

/// Where a name leads.
#[derive(Clone, Copy, Debug)]
pub enum Place<'a> {
    /// A file that is there, by its device and its number on it (inode).
    File {
        device: u64,
        inode: u64,
    },
    /// No file yet: a name in a folder, which is told by device and number.
    Free {
        device: u64,
        inode: u64,
        name: &'a str,
    },
    /// A terminal, a pipe or another stream, where nothing is lost; or no place where a file can be.
    Elsewhere,
}

/// Whether two names lead to one file, or to where one file will be.
fn is_same_place(one: Place<'_>, other: Place<'_>) -> bool
    ensures { result ≡ is_same_place one.entry other.entry }
{
    match one {
        Place::File { device, inode } => match other {
            Place::File {
                device: others_device,
                inode: others_inode,
            } => device == others_device && inode == others_inode,
            _ => false,
        },
        Place::Free {
            device,
            inode,
            name,
        } => match other {
            Place::Free {
                device: others_device,
                inode: others_inode,
                name: others_name,
            } => device == others_device && inode == others_inode && name == others_name,
            _ => false,
        },
        Place::Elsewhere => false,
    }
}

/// The place of a file with this metadata.
fn place_of(metadata: &Metadata) -> Place<'static> {
    let kind = metadata.file_type();
    if kind.is_char_device() || kind.is_fifo() || kind.is_socket() {
        return Place::Elsewhere;
    }
    Place::File {
        device: metadata.dev(),
        inode: metadata.ino(),
    }
}

/// The folder of a name, and the name in it.
fn parted(name: &str) -> (&str, &str) {
    match name.rsplit_once('/') {
        Some(("", last)) => ("/", last),
        Some((folder, last)) => (folder, last),
        None => (".", name),
    }
}

/// Where a name leads: links are followed.
fn place_named<'a, R: Files>(rt: &R, name: &'a str) -> Place<'a> {
    if let Ok(metadata) = fs::metadata(rt, name) {
        return place_of(&metadata);
    }
    let (folder, last) = parted(name);
    match fs::metadata(rt, folder) {
        Ok(metadata) => Place::Free {
            device: metadata.dev(),
            inode: metadata.ino(),
            name: last,
        },
        Err(_) => Place::Elsewhere,
    }
}

/// The name itself where something is there; else the name of what would be there, where a link leads to it.
fn led<R: Files + AllocGlobal>(rt: &R, name: &str) -> Result<String, AllocError> {
    if fs::metadata(rt, name).is_err() {
        if let Ok(path) = followed(rt, name) {
            return Ok(path);
        }
    }
    String::from_str(rt.alloc(), name)
}

/// The name that a file has until it is whole.
fn part_named<R: Files + AllocGlobal>(rt: &R, name: &str) -> Result<String, AllocError> {
    match followed(rt, name) {
        Ok(path) => part_of(rt.alloc(), path.as_str()),
        Err(_) => part_of(rt.alloc(), name),
    }
}

/// Refuses, as a usage fault, a file that is to be written and is also one of these others, or is one of them until it
/// is whole.
fn apart<'a, R: Files + AllocGlobal>(
    rt: &R,
    written: &'a str,
    others: &[&'a str],
) -> Result<(), CommandFault<'a>> {
    let path = led(rt, written)?;
    let part = part_named(rt, written)?;
    for other in others {
        let others_path = led(rt, other)?;
        let place = place_named(rt, others_path.as_str());
        if is_same_place(place_named(rt, path.as_str()), place)
            || is_same_place(place_named(rt, part.as_str()), place)
        {
            return Err(CommandFault::OneFile { written, other });
        }
    }
    Ok(())
}

/// Refuses, as a usage fault, a file that a command is to write and also to read, or to write twice.
pub fn told_apart<'a, R: Files + AllocGlobal>(
    rt: &R,
    written: &[&'a str],
    read: &[&'a str],
) -> Result<(), CommandFault<'a>> {
    for index in 0..written.len() {
        let name = written[index];
        apart(rt, name, &written[index + 1..])?;
        apart(rt, name, &written[..index])?;
        apart(rt, name, read)?;
    }
    Ok(())
}
