//! Recordings of one channel, byte by byte.
use crate::tests::equal::{are_bytes, printed, reads, same_in};
use bench_core::{ChannelFault, one_channel};
use ch11_writer::{FuseSink, MemorySink, Sink};
use job_file::{Job, read_job};
use std::alloc::Global;
use std::process::Abort;
use test_values::ONE_PACKET;

/// A job that sends three words to a terminal.
const ONE_MESSAGE: &str = "channel 1\nterminal 5\nscript\nsend A rx 5 1 [0001 0002 0003]\n";

/// The job that a text spells.
pub(crate) fn job_of(rt: &impl Abort, alloc: Global, text: &str) -> Job {
    read_job(alloc, text.as_bytes()).ok().expect(rt, text)
}

/// The sink in memory that took a job's messages, in packets of at most so many bytes.
fn recorded(rt: &impl Abort, alloc: Global, text: &str, limit: u32) -> MemorySink {
    let job = job_of(rt, alloc, text);
    let sent = one_channel(alloc, &job, 6, limit, MemorySink::make(alloc));
    sent.ok().expect(rt, "no fault")
}

#[test]
fn one_message_is_one_packet(rt: HostRuntime) {
    is_one_packet(&rt, &recorded(&rt, rt.alloc(), ONE_MESSAGE, 4096));
}

fn is_one_packet(rt: &impl Abort, sink: &MemorySink) {
    are_bytes(rt, "one packet", sink.bytes(), &ONE_PACKET);
    same_in(rt, "failures", &sink.failures(), &0);
}

/// A job of one message is sent with a limit into a sink that fails behind so many bytes: the fault as it is printed,
/// which is nothing where there is none, and how many bytes the sink holds then.
const SENT: &[(u32, usize, &str, usize)] = &[
    (255, 52, "G1", 0),
    (524_289, 52, "G1", 0),
    (256, 51, "U4 taken 51", 51),
    (256, 0, "U4 taken 0", 0),
    (524_288, 52, "", 52),
];

#[test]
fn limits_out_of_range_and_failing_sinks(rt: HostRuntime) {
    for (limit, room, text, held) in SENT {
        is_sent(&rt, rt.alloc(), *limit, *room, text, *held);
    }
}

fn is_sent(rt: &impl Abort, alloc: Global, limit: u32, room: usize, text: &str, held: usize) {
    let job = job_of(rt, alloc, ONE_MESSAGE);
    match one_channel(alloc, &job, 6, limit, FuseSink::make(alloc, room)) {
        Ok(sink) => is_whole(rt, &sink, text, held),
        Err(fault) => is_fault(rt, alloc, &fault, text, held),
    }
}

/// There is no fault, and the sink holds so many bytes.
fn is_whole(rt: &impl Abort, sink: &FuseSink, text: &str, held: usize) {
    same_in(rt, text, &text.is_empty(), &true);
    same_in(rt, "held", &sink.bytes().len(), &held);
}

/// A fault is printed as this text, and its sink holds so many bytes.
fn is_fault(
    rt: &impl Abort,
    alloc: Global,
    fault: &ChannelFault<FuseSink>,
    text: &str,
    held: usize,
) {
    same_in(rt, text, &held_by(fault), &held);
    reads(rt, text, &printed(rt, alloc, fault), text);
}

/// How many bytes the sink of a fault holds.
fn held_by(fault: &ChannelFault<FuseSink>) -> usize {
    match fault {
        ChannelFault::Limit { sink } => sink.bytes().len(),
        ChannelFault::Memory { sink } => sink.bytes().len(),
        ChannelFault::Sink { sink, .. } => sink.bytes().len(),
    }
}
