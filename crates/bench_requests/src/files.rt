//! Files, read and written whole.

use crate::fault::CommandFault;
use bench_dump::read_sized;
use bench_files::{Hold, Kind, OutFile, refuse_other_kind};
use ch11_stream::StreamFault;
use std::fs::{self, OpenFile};
use std::io::Write;
use std::rt::Files;

/// How many bytes a file is said to have; none where it is no plain file, or does not tell.
fn size_of<F: OpenFile>(file: &F) -> u64 {
    match file.metadata() {
        Ok(about) if about.is_file() => about.len(),
        _ => 0,
    }
}

/// A file that is to be read from its start. One that cannot be opened is a device fault with its name as given.
pub fn open_to_read<'a, R: Files>(rt: &R, name: &'a str) -> Result<R::File, CommandFault<'a>> {
    match fs::open(rt, name) {
        Ok(file) => Ok(file),
        Err(error) => Err(CommandFault::of_stream(name, &error)),
    }
}

/// All bytes of a file. Room for as many as it is said to have is asked for before the first is read. One that cannot
/// be opened or read, or that does not end within 1,000,000 reads of up to 65,536 bytes (own choice), is a device
/// fault with its name as given.
pub fn read_whole<'a, R: Files + AllocGlobal>(
    rt: &R,
    name: &'a str,
) -> Result<Vec<u8>, CommandFault<'a>> {
    let mut file = open_to_read(rt, name)?;
    let size = size_of(&file);
    match read_sized(rt.alloc(), &mut file, size) {
        Ok(bytes) => Ok(bytes),
        Err(StreamFault::Memory) => Err(CommandFault::Memory),
        Err(_) => Err(CommandFault::Device(name)),
    }
}

/// Refuses to read once more what is no plain file.
fn again<'a, R: Files>(rt: &R, name: &'a str) -> Result<(), CommandFault<'a>> {
    match fs::metadata(rt, name) {
        Ok(about) if about.is_file() => Ok(()),
        _ => Err(CommandFault::Device(name)),
    }
}

/// All bytes of a file that was read before. What is no plain file, as a pipe, can be read once alone: it is a device
/// fault, and not opened.
pub fn read_again<'a, R: Files + AllocGlobal>(
    rt: &R,
    name: &'a str,
) -> Result<Vec<u8>, CommandFault<'a>> {
    again(rt, name)?;
    read_whole(rt, name)
}

/// All bytes of each of these files, which were read before.
pub fn texts_again<'a, R: Files + AllocGlobal>(
    rt: &R,
    names: &[&'a str],
) -> Result<Vec<Vec<u8>>, CommandFault<'a>> {
    for name in names {
        again(rt, name)?;
    }
    read_texts(rt, names)
}

/// All bytes of each of these files, which are read in their order.
pub fn read_texts<'a, R: Files + AllocGlobal>(
    rt: &R,
    names: &[&'a str],
) -> Result<Vec<Vec<u8>>, CommandFault<'a>> {
    let mut texts = Vec::new(rt.alloc());
    for name in names {
        let text = read_whole(rt, name)?;
        texts.push(text).map_err(|_| CommandFault::Memory)?;
    }
    Ok(texts)
}

/// Refuses, as a usage fault, a file that is there and is of another kind, unless it may be replaced in any case.
pub fn replaceable<'a, R: Files>(
    rt: &R,
    name: &'a str,
    kind: Kind,
    force: bool,
) -> Result<(), CommandFault<'a>> {
    if force {
        return Ok(());
    }
    match refuse_other_kind(rt, name, kind) {
        Ok(()) => Ok(()),
        Err(error) => Err(CommandFault::of_out(name, kind, &error)),
    }
}

/// Begins to write a file of this kind; what is there stays until it is whole. One that cannot be written is a device
/// fault with its name as given, and so is one that another process is writing; one of another kind is a usage fault,
/// unless it may be replaced.
pub fn begin<'a, R: Files + AllocGlobal>(
    rt: &R,
    name: &'a str,
    kind: Kind,
    force: bool,
) -> Result<OutFile<'a, R::File>, CommandFault<'a>>
where
    R::File: Hold,
{
    match OutFile::begin(rt, name, kind, force) {
        Ok(file) => Ok(file),
        Err(error) => Err(CommandFault::of_out(name, kind, &error)),
    }
}

/// Where the bytes of a file that was begun go. One that cannot be opened is a device fault with its name as given.
pub fn writer_of<'a, R: Files>(
    rt: &R,
    name: &'a str,
    file: &mut OutFile<'a, R::File>,
) -> Result<R::File, CommandFault<'a>>
where
    R::File: Hold,
{
    match file.writer(rt) {
        Ok(writer) => Ok(writer),
        Err(error) => Err(CommandFault::of_stream(name, &error)),
    }
}

/// Gives a file that is whole its place. One that cannot be replaced is a device fault with its name as given.
pub fn put_in_place<'a, R: Files>(
    rt: &R,
    name: &'a str,
    file: OutFile<'a, R::File>,
) -> Result<(), CommandFault<'a>>
where
    R::File: Hold,
{
    let synced = file.sync();
    match synced {
        Ok(()) => match file.take_place(rt) {
            Ok(()) => Ok(()),
            Err(error) => Err(CommandFault::of_stream(name, &error)),
        },
        Err(error) => {
            file.give_up(rt);
            Err(CommandFault::of_stream(name, &error))
        }
    }
}

/// Makes a file of these bytes, in the place of one that is there, which stays until the new one is whole. It is
/// refused as `begin` says.
pub fn write_new<'a, R: Files + AllocGlobal>(
    rt: &R,
    name: &'a str,
    kind: Kind,
    force: bool,
    bytes: &[u8],
) -> Result<(), CommandFault<'a>>
where
    R::File: Hold,
{
    let mut file = begin(rt, name, kind, force)?;
    match write_bytes(rt, name, &mut file, bytes) {
        Ok(()) => put_in_place(rt, name, file),
        Err(fault) => {
            file.give_up(rt);
            Err(fault)
        }
    }
}

/// Writes all these bytes into a file that was begun.
fn write_bytes<'a, R: Files>(
    rt: &R,
    name: &'a str,
    file: &mut OutFile<'a, R::File>,
    bytes: &[u8],
) -> Result<(), CommandFault<'a>>
where
    R::File: Hold,
{
    let mut writer = writer_of(rt, name, file)?;
    match writer.write_all(bytes) {
        Ok(()) => Ok(()),
        Err(error) => Err(CommandFault::of_stream(name, &error)),
    }
}
