//! Recordings that may be damaged as they come from a reader, against the reading of all bytes.

use crate::tests::equal::{same, wrote};
use crate::tests::streamed::failing;
use crate::tests::streams::{Slow, reader_of};
use bench_clock::Clock;
use bench_dump::dump_skipping;
use ch11_header::HeaderError;
use ch11_reader::{Index, Packet, PacketFault, Skip};
use ch11_stream::{StreamFault, Stretch, Stretches};
use std::alloc::Global;
use std::process::Abort;
use test_values::{FOREIGN, foreign_with};

/// The foreign file with bytes in front of it, one between its packets, and some behind it. Behind the last sync
/// pattern there are too few bytes for a header.
fn among_others() -> [u8; 105] {
    let mut file = [0u8; 105];
    file[..3].copy_from_slice(&[0xFF, 0x25, 0x00]);
    file[3..35].copy_from_slice(&FOREIGN[..32]);
    file[35] = 0x25;
    file[36..100].copy_from_slice(&FOREIGN[32..]);
    file[100..].copy_from_slice(&[0x25, 0xEB, 0x00, 0x00, 0x00]);
    file
}

/// What is printed of a reader's file, and how that ends.
fn dumped(alloc: Global, input: Slow<'_>) -> (Result<(), StreamFault>, Vec<u8>) {
    let clock = Clock::unset(alloc);
    let mut out = Vec::new(alloc);
    let answer = dump_skipping(alloc, input, &clock, false, &mut out);
    (answer, out)
}

/// A reading that gives this next.
fn gives(
    rt: &impl Abort,
    stretches: &mut Stretches<Slow<'_>>,
    wanted: Result<Option<Stretch>, StreamFault>,
) {
    same(rt, &stretches.next(), &wanted);
}

/// Three bytes were skipped before the reader failed, which stays the answer.
#[test]
fn a_failing_reader_is_told(rt: HostRuntime) {
    let file = among_others();
    let input = failing(&file, 40);
    let mut stretches = Stretches::over(rt.alloc(), input)
        .ok()
        .expect(&rt, "memory");
    let skip = Skip {
        offset: 0,
        length: 3,
        fault: PacketFault::Header(HeaderError::Sync),
    };
    gives(&rt, &mut stretches, Ok(Some(Stretch::Skipped(skip))));
    same(&rt, &stretches.messages().left(), &0);
    same(&rt, &stretches.next().is_ok(), &true);
    gives(&rt, &mut stretches, Err(StreamFault::Device));
    gives(&rt, &mut stretches, Err(StreamFault::Device));
    let found = dumped(rt.alloc(), input);
    wrote(&rt, found, Err(StreamFault::Device), "");
}

/// The stretches of a reader are these packets and skips, and no others.
fn are_given(
    rt: &impl Abort,
    stretches: &mut Stretches<Slow<'_>>,
    packets: &[Packet],
    skips: &[Skip],
) {
    let (mut packets, mut skips) = (packets.iter(), skips.iter());
    for _made in 0..packets.len() + skips.len() {
        match stretches.next() {
            Ok(Some(Stretch::Sound(packet))) => {
                same(rt, &Some(packet), &packets.next().copied());
            }
            Ok(Some(Stretch::Skipped(skip))) => {
                same(rt, &Some(skip), &skips.next().copied());
            }
            _ => same(rt, &"a stretch", &"none"),
        }
    }
    same(rt, &stretches.next(), &Ok(None));
}

/// The foreign file with one byte changed to any other is read as all its bytes are.
#[test]
fn reads_each_change_alike(rt: HostRuntime) {
    for place in 0..FOREIGN.len() {
        for change in 1..=255u8 {
            let file = foreign_with(place, change);
            let found = Index::build_skipping(rt.alloc(), &file).ok();
            let found = found.expect(&rt, "memory");
            let over = Stretches::over(rt.alloc(), reader_of(&file, 5)).ok();
            let mut stretches = over.expect(&rt, "memory");
            are_given(&rt, &mut stretches, found.index.packets(), found.skipped());
        }
    }
}
