//! Recordings of several channels, as their packets close, and sinks that fail.
ghost use Rattle.std.specs.Prelude.{◌≡◌};

use crate::tests::equal::{are_bytes, same};
use crate::tests::messages::message_of;
use crate::tests::readers::built;
use ch11_builder::BuilderError;
use ch11_f1::Record;
use ch11_header::read_header;
use ch11_reader::Index;
use ch11_recording::Recorder;
use ch11_writer::{FuseSink, MemorySink, WriteFault};
use std::alloc::Global;
use std::process::Abort;

/// A receive command for one word, the word, and the status of terminal 5.
fn received(stamp: u64) -> Record
    ensures { result.stamp ≡ stamp }
{
    message_of(stamp, 0x50, &[0x2821, 1, 0x2800])
}

/// Channel, length, sequence and flags of the packet at the front.
fn shape_of(bytes: &[u8]) -> Option<(u16, u32, u8, u8)> {
    let header = read_header(bytes).ok()?;
    Some((
        header.channel,
        header.packet_length,
        header.sequence,
        header.flags,
    ))
}

/// A packet of channel 2 with 48 bytes, then one of channel 1 with 88.
fn has_two_packets(rt: &impl Abort, file: &[u8]) {
    let second = shape_of(file.get(48..).unwrap_or(&[]));
    let found = (file.len(), shape_of(file), second);
    let wanted = (136, Some((2, 48, 0, 0)), Some((1, 88, 0, 0x10)));
    same(rt, &found, &wanted);
}

/// The channel and the stamp of a message, by its number.
fn message_at(index: &Index<'_>, number: u64) -> Option<(u16, u64)> {
    let (channel, seen) = index.message(number)?;
    Some((channel, seen.stamp))
}

/// Four messages, of which the last is of channel 1 at 2720.
fn has_four_messages(rt: &impl Abort, index: &Index<'_>) {
    let found = (index.total(), message_at(index, 4));
    same(rt, &found, &(4, Some((1, 2720))));
}

/// The sink of two channels: a number that does not rise and a channel that is not there are refused.
fn two_channels(rt: &impl Abort, alloc: Global) -> MemorySink {
    let sink = MemorySink::make(alloc);
    let mut recorder = Recorder::make(alloc, 6, 4096, &[1, 2], sink)
        .ok()
        .expect(rt, "a recorder");
    let answers = [
        recorder.keep(1, 1, &received(0)),
        recorder.end(1),
        recorder.keep(0, 1, &received(0)),
        recorder.keep(0, 2, &received(680)),
    ];
    same(rt, &answers, &[true, true, true, true]);
    let again = recorder.keep(0, 2, &received(2000));
    assert!(rt; !again);
    let nowhere = recorder.keep(2, 3, &received(2000));
    assert!(rt; !nowhere);
    let kept = recorder.keep(0, 5, &received(2720));
    assert!(rt; kept);
    let packets = recorder.packets();
    let ended = recorder.end(0);
    assert!(rt; ended);
    let finished = recorder.finish().is_ok();
    let found = (packets, finished, recorder.packets());
    same(rt, &found, &(1, true, 2));
    recorder.into_sink()
}

#[test]
fn packets_stand_as_they_close(rt: HostRuntime) {
    let sink = two_channels(&rt, rt.alloc());
    has_two_packets(&rt, sink.bytes());
    has_four_messages(&rt, &built(&rt, rt.alloc(), sink.bytes()));
}

#[test]
fn a_prologue_stands_first(rt: HostRuntime) {
    let sink = MemorySink::make(rt.alloc());
    let mut recorder = Recorder::make(rt.alloc(), 6, 4096, &[1], sink)
        .ok()
        .expect(&rt, "a recorder");
    recorder.prologue(&[7, 8, 9]);
    let found = (recorder.end(0), recorder.finish(), recorder.packets());
    same(&rt, &found, &(true, Ok(()), 0));
    are_bytes(&rt, recorder.into_sink().bytes(), &[7, 8, 9]);
}

/// One message and its end are kept in a sink of so many bytes: how the recording ends, and how many packets it has.
fn ends_in_fuse(
    rt: &impl Abort,
    alloc: Global,
    room: usize,
    wanted: Result<(), WriteFault>,
    packets: u64,
) {
    let sink = FuseSink::make(alloc, room);
    let mut recorder = Recorder::make(alloc, 6, 4096, &[1], sink)
        .ok()
        .expect(rt, "a recorder");
    let answers = (recorder.keep(0, 1, &received(0)), recorder.end(0));
    let ends = (recorder.finish(), recorder.packets());
    let held = recorder.into_sink().bytes().len();
    same(
        rt,
        &(answers, ends, held),
        &((true, true), (wanted, packets), room),
    );
}

#[test]
fn a_failing_sink_keeps_what_it_took(rt: HostRuntime) {
    for room in 0..48usize {
        let fault = WriteFault { taken: room as u64 };
        ends_in_fuse(&rt, rt.alloc(), room, Err(fault), 0);
    }
    ends_in_fuse(&rt, rt.alloc(), 48, Ok(()), 1);
}

/// A prologue of three bytes and one message are kept in a sink of so many bytes.
fn counts_in_fuse(rt: &impl Abort, alloc: Global, room: usize, packets: u64) {
    let sink = FuseSink::make(alloc, room);
    let mut recorder = Recorder::make(alloc, 6, 4096, &[1], sink)
        .ok()
        .expect(rt, "a recorder");
    recorder.prologue(&[7, 8, 9]);
    let answers = (recorder.keep(0, 1, &received(0)), recorder.end(0));
    same(rt, &(answers, recorder.packets()), &((true, true), packets));
}

#[test]
fn a_prologue_is_no_packet_of_the_count(rt: HostRuntime) {
    for room in 0..51usize {
        counts_in_fuse(&rt, rt.alloc(), room, 0);
    }
    counts_in_fuse(&rt, rt.alloc(), 51, 1);
}

#[test]
fn a_limit_out_of_range_hands_the_sink_back(rt: HostRuntime) {
    let refused = limit_refused(rt.alloc());
    same(&rt, &refused, &Some((BuilderError::Limit, 0)));
}

/// Why a limit of 255 is refused, and how many bytes are in the sink that comes back.
fn limit_refused(alloc: Global) -> Option<(BuilderError, usize)> {
    match Recorder::make(alloc, 6, 255, &[1], FuseSink::make(alloc, 3)) {
        Ok(_) => None,
        Err((fault, sink)) => Some((fault, sink.bytes().len())),
    }
}
