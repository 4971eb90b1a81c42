//! Messages of a recording that are written to a file as they are read, as `bench export`, `bench signals` and
//! `bench cut` do.

use crate::extracting::Extract;
use crate::looking::tell_of_unread;
use crate::opening::{OpenWay, Opened};
use crate::replacing::{begin_to_write, is_replaced, put_or_give_up};
use bench_clock::Clock as RecordingClock;
use bench_files::Hold;
use bench_requests::CommandFault;
use std::io::{IsTerminal, Write};
use std::rt::{Clock, Files};

/// What came of a pass that writes.
#[derive(Drop)]
pub enum WriteEnd<'a> {
    /// The recording was read and written to its end; whether any message is chosen.
    Written(bool),
    /// The out file failed with this fault, and the recording may not have been read to its end.
    Failed(CommandFault<'a>),
}

/// How messages of a recording are written.
pub trait Writes {
    /// Whether any message of a recording is chosen, or the fault of one that cannot be read: a pass that writes
    /// nothing.
    fn selects<'a, R: Files + AllocGlobal + Clock, E: Eprint + IsTerminal>(
        &self,
        opened: &Opened<'_, 'a, R, E>,
    ) -> Result<bool, CommandFault<'a>>;

    /// Writes the messages that are chosen to where the bytes of the out file go. A fault is that of the recording.
    fn write<'a, R: Files + AllocGlobal + Clock, E: Eprint + IsTerminal, W: Write + Drop>(
        &self,
        opened: &Opened<'_, 'a, R, E>,
        clock: &RecordingClock,
        writer: W,
    ) -> Result<WriteEnd<'a>, CommandFault<'a>>;
}

/// Writes the messages of a recording that are chosen. The out file takes the place of what is there once it is whole;
/// it may be none of the files that are read. Where a selection has no message, nothing is written. The faults of the
/// recording come before those of the out file.
pub fn write_chosen<
    'a,
    R: Files<File: Hold> + AllocGlobal + Clock,
    E: Eprint + IsTerminal,
    M: Writes,
>(
    rt: &R,
    errors: &E,
    extract: &Extract<'a>,
    opening: OpenWay<'a>,
    manner: &M,
) -> Result<(), CommandFault<'a>> {
    let opened = extract.open(rt, errors, opening)?;
    let written = write_file(rt, &opened, manner);
    opened.end(errors);
    tell_of_unread(errors, extract.recording, written?);
    Ok(())
}

/// Writes the messages that are chosen; answers whether times of day are asked for and the recording has time packets
/// of which none can be read. Where the out file takes its place once it is whole, the pass that writes is also the one
/// that tells whether the recording can be read and has a message of the selection; else a pass before it does, and so
/// does one where the out file cannot be begun or written.
fn write_file<'a, R: Files<File: Hold> + AllocGlobal + Clock, E: Eprint + IsTerminal, M: Writes>(
    rt: &R,
    opened: &Opened<'_, 'a, R, E>,
    manner: &M,
) -> Result<bool, CommandFault<'a>> {
    let (out, force, opening) = (opened.out(), opened.extract.force, opened.opening);
    if !is_replaced(rt, out) {
        some_selected(opened, manner)?;
    }
    let read = opened.recording().clock(opening.times)?;
    let (file, writer) = match begin_to_write(rt, out, opening.kind, force) {
        Ok(begun) => begun,
        Err(fault) => {
            some_selected(opened, manner)?;
            return Err(fault);
        }
    };
    let written = write_into(opened, manner, &read.clock, writer);
    put_or_give_up(rt, out, file, written)?;
    Ok(read.unread)
}

/// Writes the messages that are chosen to where the bytes of the out file go.
fn write_into<
    'a,
    R: Files + AllocGlobal + Clock,
    E: Eprint + IsTerminal,
    M: Writes,
    W: Write + Drop,
>(
    opened: &Opened<'_, 'a, R, E>,
    manner: &M,
    clock: &RecordingClock,
    writer: W,
) -> Result<(), CommandFault<'a>> {
    match manner.write(opened, clock, writer)? {
        WriteEnd::Written(selected) => opened.extract.judge_selected(selected),
        WriteEnd::Failed(fault) => {
            some_selected(opened, manner)?;
            Err(fault)
        }
    }
}

/// The fault of a recording that cannot be read, or of which no message is chosen: a pass.
fn some_selected<'a, R: Files + AllocGlobal + Clock, E: Eprint + IsTerminal, M: Writes>(
    opened: &Opened<'_, 'a, R, E>,
    manner: &M,
) -> Result<(), CommandFault<'a>> {
    let selected = manner.selects(opened)?;
    opened.extract.judge_selected(selected)
}
