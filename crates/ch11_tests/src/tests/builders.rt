//! Packets of a channel, against worked bytes and at their limits.
ghost use Rattle.std.specs.Prelude.{◌≡◌};

use crate::tests::equal::{reads, same};
use crate::tests::messages::message_of;
use ch11_builder::{Builder, BuilderError, Pushed, run_gives_the_packets};
use ch11_f1::Record;
use ch11_header::read_header;
use std::alloc::Global;
use std::process::Abort;
use test_values::ONE_PACKET;

#[test]
fn one_message(rt: HostRuntime) {
    let made = Builder::make(rt.alloc(), 1, 6, 4096);
    let mut builder = made.ok().expect(&rt, "a builder");
    let message = message_of(0, 0x50, &[0x2823, 1, 2, 3, 0x2800]);
    let kept = matches!(builder.push(1, &message), Pushed::Kept);
    same(&rt, &kept, &true);
    ends_with_one_packet(&rt, &mut builder);
}

/// A builder closes the worked packet, and no other behind it.
fn ends_with_one_packet(rt: &impl Abort, builder: &mut Builder) {
    same(rt, &builder.close(), &Some(ONE_PACKET.as_slice()));
    same(rt, &builder.close(), &None);
}

/// A message of 36 words.
fn long_message(stamp: u64) -> Record
    ensures { result.stamp ≡ stamp }
{
    message_of(stamp, 0, &[7; 36])
}

/// Length, data length, sequence and flags of a packet.
type Shape = (usize, u32, u8, u8);

/// The shape of a packet: none where its header can't be read.
fn shape_of(packet: &[u8]) -> Option<Shape> {
    let header = read_header(packet).ok()?;
    Some((
        packet.len(),
        header.data_length,
        header.sequence,
        header.flags,
    ))
}

/// The shape of the packet that a push closed.
fn closed_shape(pushed: Pushed<'_>) -> Option<Shape> {
    match pushed {
        Pushed::Kept => None,
        Pushed::Closed(packet) => shape_of(packet),
    }
}

/// The shape of the last packet of a builder, if there is one.
fn last_shape(builder: &mut Builder) -> Option<Shape> {
    shape_of(builder.close()?)
}

#[test]
fn packets_end_at_their_limit(rt: HostRuntime) {
    run_gives_the_packets();
    let made = Builder::make(rt.alloc(), 1, 6, 256);
    let mut builder = made.ok().expect(&rt, "a builder");
    let first = closed_shape(builder.push(1, &long_message(0)));
    let second = closed_shape(builder.push(2, &long_message(10_000)));
    let third = closed_shape(builder.push(3, &long_message(20_000)));
    let fourth = closed_shape(builder.push(4, &long_message(30_000)));
    let fifth = closed_shape(builder.push(5, &long_message(40_000)));
    let found = [
        first,
        second,
        third,
        fourth,
        fifth,
        last_shape(&mut builder),
    ];
    let (packet, next) = (Some((200, 176, 0, 0)), Some((200, 176, 1, 0)));
    let last = Some((116, 90, 2, 0));
    same(&rt, &found, &[None, None, packet, None, next, last]);
}

/// A message at 0 and one so much later: what the second closes, and the last packet.
fn are_packed(rt: &impl Abort, alloc: Global, later: u32, wanted: Option<Shape>, last: Shape) {
    run_gives_the_packets();
    let made = Builder::make(alloc, 1, 6, 256);
    let mut builder = made.ok().expect(rt, "a builder");
    let first = closed_shape(builder.push(1, &long_message(0)));
    let second = closed_shape(builder.push(2, &long_message(u64::from(later))));
    let found = [first, second, last_shape(&mut builder)];
    same(rt, &found, &[None, wanted, Some(last)]);
}

#[test]
fn packets_span_less_than_a_tenth_of_a_second(rt: HostRuntime) {
    are_packed(&rt, rt.alloc(), 999_999, None, (200, 176, 0, 0));
    let closed = Some((116, 90, 0, 0));
    are_packed(&rt, rt.alloc(), 1_000_000, closed, (116, 90, 1, 0));
}

/// A limit outside its range is refused.
fn is_no_limit(rt: &impl Abort, alloc: Global, limit: u32) {
    let fault = Builder::make(alloc, 1, 6, limit).err();
    same(rt, &fault, &Some(BuilderError::Limit));
}

#[test]
fn limits_outside_their_range(rt: HostRuntime) {
    is_no_limit(&rt, rt.alloc(), 255);
    is_no_limit(&rt, rt.alloc(), 524_289);
    let longest = Builder::make(rt.alloc(), 1, 6, 524_288).is_ok();
    same(&rt, &longest, &true);
    prints(&rt, rt.alloc(), BuilderError::Limit, "G1");
    prints(&rt, rt.alloc(), BuilderError::Memory, "G2");
}

/// A refusal is printed as this text.
fn prints(rt: &impl Abort, alloc: Global, refusal: BuilderError, text: &str) {
    let printed = format!(in alloc; "{refusal}").expect(rt, "memory");
    reads(rt, printed.as_str(), text);
}
