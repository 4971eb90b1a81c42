//! What is answered where a reader or a writer fails, and of a file that was damaged between two passes over it.

use crate::tests::equal::{are, same, wrote};
use crate::tests::streamed::{counted, damaged, failing, pair, refusal};
use crate::tests::streams::{Slow, reader_of};
use bench_clock::{Clock, read_clock};
use bench_decode::{Output, Shown, decode};
use bench_dump::{dump, dump_with_times};
use bench_export::{Columns, ExportFault, Exported, Table, export, export_waves, selects_any};
use bench_judge::judge;
use bench_select::Selection;
use ch11_check::check;
use ch11_stream::StreamFault;
use judge_rules::read_rules;
use std::alloc::Global;
use std::io;
use std::io::{ErrorKind, Write};
use std::process::Abort;
use text_lines::WriteFault;

/// Why there are no verdicts on a reader's file.
fn fault_of_verdicts(rt: &impl Abort, alloc: Global, input: Slow<'_>) -> Option<StreamFault> {
    let rules = read_rules(alloc, b"expect any ok\n")
        .ok()
        .expect(rt, "rules");
    judge(alloc, input, rules.as_slice(), &[]).err()
}

/// Why a reader's file has no figures and no verdicts, is not checked, and is not searched for a selected message or
/// for times of day.
fn faults_of(rt: &impl Abort, alloc: Global, input: Slow<'_>) -> [Option<StreamFault>; 5] {
    [
        counted(alloc, input).err(),
        fault_of_verdicts(rt, alloc, input),
        check(alloc, input).err(),
        selects_any(alloc, input, &Selection::all()).err(),
        read_clock(alloc, input, None).err(),
    ]
}

/// The reader fails at its first byte, between two packets, within one, or where the file ends.
#[test]
fn a_failing_reader_is_told(rt: HostRuntime) {
    let file = pair();
    for end in [0, 32, 150, 192] {
        let found = faults_of(&rt, rt.alloc(), failing(&file, end));
        are(&rt, found.as_slice(), &[Some(StreamFault::Device); 5]);
    }
}

/// What is printed of two readers' files, and how that ends.
fn dumped(alloc: Global, first: Slow<'_>, second: Slow<'_>) -> (Result<(), StreamFault>, Vec<u8>) {
    let mut out = Vec::new(alloc);
    let answer = dump(alloc, first, second, &mut out);
    (answer, out)
}

#[test]
fn nothing_is_printed_where_the_first_pass_fails(rt: HostRuntime) {
    let file = pair();
    let (first, second) = (failing(&file, 100), reader_of(&file, 7));
    let failed = Err(StreamFault::Device);
    wrote(&rt, dumped(rt.alloc(), first, second), failed, "");
}

/// The file was damaged between the passes; its lines are too few to be handed on before the fault.
#[test]
fn the_second_pass_has_its_own_fault(rt: HostRuntime) {
    let (file, broken) = (pair(), damaged());
    let refused = Err(StreamFault::Refused(refusal()));
    let (first, second) = (reader_of(&file, 7), reader_of(&broken, 7));
    wrote(&rt, dumped(rt.alloc(), first, second), refused, "");
}

/// What is printed of two readers' files with times of day, and whether none of the time packets can be read.
fn dumped_with_times(
    alloc: Global,
    first: Slow<'_>,
    second: Slow<'_>,
) -> (Result<bool, StreamFault>, Vec<u8>) {
    let mut out = Vec::new(alloc);
    let answer = dump_with_times(alloc, first, second, None, &mut out);
    (answer, out)
}

#[test]
fn no_times_are_printed_where_the_first_pass_fails(rt: HostRuntime) {
    let file = pair();
    let (first, second) = (failing(&file, 192), reader_of(&file, 7));
    let found = dumped_with_times(rt.alloc(), first, second);
    wrote(&rt, found, Err(StreamFault::Device), "");
}

/// What is printed of the messages of a reader's file, and of how many or why not.
fn printed(alloc: Global, input: Slow<'_>) -> (Result<u64, StreamFault>, Vec<u8>) {
    let output = Output {
        selection: Selection::all(),
        decoded: false,
        shown: Shown::Plain,
        skip: false,
        signals: &[],
    };
    let mut out = Vec::new(alloc);
    let answer = decode(alloc, input, &mut out, &output);
    (answer, out)
}

/// Lines in front of the fault are too few to be handed on.
#[test]
fn messages_of_a_failing_reader_are_not_printed(rt: HostRuntime) {
    let file = pair();
    let found = printed(rt.alloc(), failing(&file, 150));
    wrote(&rt, found, Err(StreamFault::Device), "");
}

/// The value change dump of a recording that two readers give, and whether a message is selected or why there is none.
fn waved(alloc: Global, first: Slow<'_>, second: Slow<'_>) -> (Result<bool, ExportFault>, Vec<u8>) {
    let mut out = Vec::new(alloc);
    let answer = export_waves(alloc, first, second, &Selection::all(), &mut out);
    (answer, out)
}

/// Nothing is written where the first pass can't read a packet.
#[test]
fn a_failing_reader_has_no_value_changes(rt: HostRuntime) {
    let file = pair();
    let (first, second) = (failing(&file, 100), reader_of(&file, 1));
    let failed = Err(ExportFault::Reading(StreamFault::Device));
    wrote(&rt, waved(rt.alloc(), first, second), failed, "");
}

/// A writer that takes nothing.
#[derive(Drop)]
struct Full;

impl Write for Full {
    fn write(&mut self, _buf: &[u8]) -> io::Result<usize> {
        Err(io::Error::from(ErrorKind::Other))
    }

    fn flush(&mut self) -> io::Result<()> {
        Ok(())
    }
}

/// What of all messages of a reader's file is exported to a writer.
fn exported<W: Write + Drop>(
    alloc: Global,
    input: Slow<'_>,
    out: W,
) -> Result<Exported<W>, ExportFault> {
    let table = Table {
        columns: Columns::Messages,
        timed: false,
        selection: Selection::all(),
    };
    let clock = Clock::unset(alloc);
    export(alloc, input, &table, &clock, out)
}

#[test]
fn a_failing_reader_and_a_failing_writer_are_told_apart(rt: HostRuntime) {
    let alloc = rt.alloc();
    let file = pair();
    let found = exported(alloc, failing(&file, 100), Vec::new(alloc));
    let read = ExportFault::Reading(StreamFault::Device);
    same(&rt, &found.err(), &Some(read));
    let found = exported(alloc, reader_of(&file, 7), Full);
    let written = ExportFault::Writing(WriteFault::Device);
    same(&rt, &found.err(), &Some(written));
}
