//! Writers over sinks that take all, stop, or fail now and then.
ghost use Rattle.std.specs.Prelude.{◌≡◌, ◌+◌, ◌-◌, ◌<◌, ◌≤◌, ◌^◌, false, length};

use crate::tests::equal::{are_bytes, same};
use ch11_writer::{
    DripSink, FlakySink, FuseSink, MemorySink, Sink, SinkFault, StdSink, WriteFault, Writer,
};
use std::alloc::Global;
use std::io;
use std::io::{ErrorKind, Write};
use std::process::Abort;
use test_values::ONE_PACKET;

type Answer = Result<(), WriteFault>;

/// A fault where so many bytes were taken.
fn fault(taken: u64) -> Answer {
    Err(WriteFault { taken })
}

/// A writer over a sink, which answers a prologue so.
fn begun<S: Sink>(rt: &impl Abort, sink: S, bytes: &[u8], wanted: Answer) -> Writer<S>
    requires countable { S.failures sink < 2 ^ 64 - 1 }
    ensures unfinished { result.finished ≡ false }
    ensures few { result.taken ≤ length bytes.now }
{
    let mut writer = Writer::make(sink);
    let answer = writer.prologue(bytes);
    same(rt, &answer, &wanted);
    writer
}

/// The answer of a writer to bytes.
fn puts<S: Sink>(rt: &impl Abort, writer: &mut Writer<S>, bytes: &[u8], wanted: Answer)
    requires unfinished { writer.old.finished ≡ false }
    requires few { writer.old.taken + length bytes.now < 2 ^ 64 }
    ensures unfinished { writer.new.finished ≡ false }
    ensures few { writer.new.taken ≤ writer.old.taken + length bytes.now }
{
    let answer = writer.put(bytes);
    same(rt, &answer, &wanted);
}

/// A writer ends, and the end is told once more where it fails. Answers the sink.
fn ends<S: Sink>(rt: &impl Abort, mut writer: Writer<S>, wanted: Answer) -> S
    requires unfinished { writer.finished ≡ false }
{
    let answer = writer.finish();
    same(rt, &answer, &wanted);
    if answer.is_err() {
        same(rt, &writer.finish(), &wanted);
    }
    writer.into_sink()
}

/// The answer of a sink to bytes.
fn takes<S: Sink>(rt: &impl Abort, sink: &mut S, bytes: &[u8], wanted: Result<usize, SinkFault>)
    requires some { 0 < length bytes.now }
    requires countable { S.failures sink.old < 2 ^ 64 - 1 }
    ensures few { S.failures sink.new ≤ S.failures sink.old + 1 }
{
    let answer = sink.take(bytes);
    same(rt, &answer, &wanted);
}

/// The answer of a sink to the end.
fn flushes<S: Sink>(rt: &impl Abort, sink: &mut S, wanted: Result<(), SinkFault>)
    requires countable { S.failures sink.old < 2 ^ 64 - 1 }
    ensures few { S.failures sink.new ≤ S.failures sink.old + 1 }
{
    let answer = sink.finish();
    same(rt, &answer, &wanted);
}

const ALL: [u8; 6] = [1, 2, 3, 4, 5, 6];

/// The answer where a fuse of so many bytes takes at least so many.
fn of_fuse(room: usize, wanted: usize) -> Answer {
    if room < wanted {
        return fault(room as u64);
    }
    Ok(())
}

/// What is written to a fuse of so many bytes: three, none, two and one.
fn is_fused(rt: &impl Abort, alloc: Global, room: usize) {
    let sink = FuseSink::make(alloc, room);
    let mut writer = begun(rt, sink, &ALL[..3], of_fuse(room, 3));
    puts(rt, &mut writer, &[], of_fuse(room, 3));
    puts(rt, &mut writer, &ALL[3..5], of_fuse(room, 5));
    puts(rt, &mut writer, &ALL[5..], of_fuse(room, 6));
    let sink = ends(rt, writer, of_fuse(room, 6));
    are_bytes(rt, sink.bytes(), &ALL[..room.min(6)]);
    same(rt, &sink.failures(), &u64::from(room < 6));
}

#[test]
fn fuses_of_each_length(rt: HostRuntime) {
    for room in 0..8usize {
        is_fused(&rt, rt.alloc(), room);
    }
}

#[test]
fn a_fuse_blows_at_the_take_after_its_last_byte(rt: HostRuntime) {
    let mut sink = FuseSink::make(rt.alloc(), 2);
    takes(&rt, &mut sink, &[7, 8, 9], Ok(2));
    flushes(&rt, &mut sink, Ok(()));
    takes(&rt, &mut sink, &[9], Err(SinkFault));
    flushes(&rt, &mut sink, Err(SinkFault));
    same(&rt, &sink.failures(), &2);
    are_bytes(&rt, sink.bytes(), &[7, 8]);
}

/// A sink takes two bytes and then others, and the end. Answers the sink.
fn takes_all<S: Sink>(rt: &impl Abort, sink: S, others: &[u8]) -> S
    requires countable { S.failures sink < 2 ^ 64 - 1 }
    requires few { length others.now < 2 ^ 63 }
{
    let mut writer = begun(rt, sink, &[1, 2], Ok(()));
    puts(rt, &mut writer, others, Ok(()));
    let sink = ends(rt, writer, Ok(()));
    same(rt, &sink.failures(), &0);
    sink
}

#[test]
fn memory_and_a_writer_take_all(rt: HostRuntime) {
    let sink = takes_all(&rt, MemorySink::make(rt.alloc()), &[3]);
    are_bytes(&rt, sink.bytes(), &[1, 2, 3]);
    let held = takes_all(&rt, StdSink::make(Vec::new(rt.alloc())), &[3]);
    are_bytes(&rt, held.writer(), &[1, 2, 3]);
}

#[test]
fn one_byte_a_call(rt: HostRuntime) {
    let mut sink = takes_all(&rt, DripSink::make(rt.alloc()), &[3, 4, 5]);
    are_bytes(&rt, sink.bytes(), &[1, 2, 3, 4, 5]);
    assert!(rt; sink.failures() == 0);
    takes(&rt, &mut sink, &[6, 7], Ok(1));
    same(&rt, &sink.bytes().len(), &6);
    same(&rt, &sink.failures(), &0);
}

/// The packet of the message `A rx 5 1 [0001 0002 0003]` is put twice into a sink that fails at one of its takes: its
/// answers, its takes, and how many bytes it holds.
fn fails_once(
    rt: &impl Abort,
    alloc: Global,
    fails_at: u64,
    answers: (Answer, Answer),
    takes: u64,
    held: usize,
) {
    let mut writer = Writer::make(FlakySink::make(alloc, fails_at));
    puts(rt, &mut writer, &ONE_PACKET, answers.0);
    puts(rt, &mut writer, &ONE_PACKET, answers.1);
    let sink = writer.into_sink();
    same(rt, &sink.takes(), &takes);
    same(rt, &sink.failures(), &u64::from(answers.1.is_err()));
    same(rt, &sink.bytes().len(), &held);
}

/// A fault counts what was taken, and the sink that failed is asked no more.
#[test]
fn a_sink_that_fails_once(rt: HostRuntime) {
    fails_once(&rt, rt.alloc(), 1, (fault(0), fault(0)), 1, 0);
    fails_once(&rt, rt.alloc(), 2, (Ok(()), fault(52)), 2, 52);
    fails_once(&rt, rt.alloc(), 3, (Ok(()), Ok(())), 2, 104);
}

/// A writer that takes one byte a call until it has taken so many. Then it answers 0, or an error. It counts its calls.
#[derive(Drop)]
struct Reluctant {
    left: u8,
    answers_zero: bool,
    writes: u8,
    flushes: u8,
}

impl Write for Reluctant {
    fn write(&mut self, buf: &[u8]) -> io::Result<usize> {
        self.writes = self.writes.saturating_add(1);
        if self.left > 0 && buf.len() > 0 {
            self.left -= 1;
            return Ok(1);
        }
        if self.answers_zero {
            return Ok(0);
        }
        Err(io::Error::from(ErrorKind::Other))
    }

    fn flush(&mut self) -> io::Result<()> {
        self.flushes = self.flushes.saturating_add(1);
        if self.left == 0 {
            return Err(io::Error::from(ErrorKind::Other));
        }
        Ok(())
    }
}

/// A writer over one that takes so many bytes.
fn make_reluctant(left: u8, answers_zero: bool) -> Writer<StdSink<Reluctant>>
    ensures unfinished { result.finished ≡ false }
    ensures none { result.taken ≡ 0 }
{
    Writer::make(StdSink::make(Reluctant {
        left,
        answers_zero,
        writes: 0,
        flushes: 0,
    }))
}

/// How often a sink has failed, and how often its writer was called, to write and to flush.
fn has_called(rt: &impl Abort, sink: &StdSink<Reluctant>, failures: u64, writes: u8, flushes: u8) {
    let device = sink.writer();
    let counts = (sink.failures(), device.writes, device.flushes);
    same(rt, &counts, &(failures, writes, flushes));
}

#[test]
fn a_writer_that_takes_nothing_is_called_once(rt: HostRuntime) {
    for answers_zero in [false, true] {
        let mut writer = make_reluctant(2, answers_zero);
        puts(&rt, &mut writer, &[1, 2, 3], fault(2));
        puts(&rt, &mut writer, &[4], fault(2));
        let sink = ends(&rt, writer, fault(2));
        has_called(&rt, &sink, 1, 3, 0);
    }
}

/// A writer that takes so many bytes is given three, and the end: what that answers, and how often it has failed then.
fn is_flushed(rt: &impl Abort, left: u8, wanted: Answer, failures: u64) {
    let mut writer = make_reluctant(left, false);
    puts(rt, &mut writer, &[1, 2, 3], Ok(()));
    let sink = ends(rt, writer, wanted);
    has_called(rt, &sink, failures, 3, 1);
}

#[test]
fn a_writer_is_flushed_at_the_end(rt: HostRuntime) {
    is_flushed(&rt, 4, Ok(()), 0);
    is_flushed(&rt, 3, fault(3), 1);
}

#[test]
fn a_fault_prints_its_count(rt: HostRuntime) {
    let printed = format!(in rt.alloc(); "{}", WriteFault { taken: 100 });
    same(
        &rt,
        &printed.expect(&rt, "memory").as_str(),
        &"V1 taken 100",
    );
}
