//! The file that a command writes: judged before anything is read, and in its place once it is whole.

use bench_files::{Hold, Kind, OutFile, leads_to_output};
use bench_requests::{CommandFault, begin, put_in_place, replaceable, told_apart, writer_of};
use std::fs;
use std::rt::Files;

/// Refuses, as a usage fault, an out file that is also one of the files that are read, and one that is there and is of
/// another kind, unless it may be replaced in any case.
pub fn may_write<'a, R: Files + AllocGlobal>(
    rt: &R,
    out: &'a str,
    kind: Kind,
    force: bool,
    read: &[&'a str],
) -> Result<(), CommandFault<'a>> {
    told_apart(rt, &[out], read)?;
    replaceable(rt, out, kind, force)
}

/// A file of this kind that was begun, and where its bytes go. What is there stays until it is whole.
pub fn begin_to_write<'a, R: Files<File: Hold> + AllocGlobal>(
    rt: &R,
    out: &'a str,
    kind: Kind,
    force: bool,
) -> Result<(OutFile<'a, R::File>, R::File), CommandFault<'a>> {
    let mut file = begin(rt, out, kind, force)?;
    match writer_of(rt, out, &mut file) {
        Ok(writer) => Ok((file, writer)),
        Err(fault) => {
            file.give_up(rt);
            Err(fault)
        }
    }
}

/// Gives the out file its place where all was written, and else leaves what is there.
pub fn put_or_give_up<'a, R: Files<File: Hold>>(
    rt: &R,
    out: &'a str,
    file: OutFile<'a, R::File>,
    written: Result<(), CommandFault<'a>>,
) -> Result<(), CommandFault<'a>> {
    match written {
        Ok(()) => put_in_place(rt, out, file),
        Err(fault) => {
            file.give_up(rt);
            Err(fault)
        }
    }
}

/// Whether what is written to this name takes its place only once it is whole: a new file, or a plain one that is not
/// the standard output.
pub fn is_replaced<R: Files>(rt: &R, name: &str) -> bool {
    match fs::metadata(rt, name) {
        Ok(about) => about.is_file() && !leads_to_output(rt, name),
        Err(_) => true,
    }
}
