//! What is told of channels beside their figures, as packets come from a reader, worked out by hand.

use crate::tests::equal::same;
use crate::tests::streamed::{damaged, pair, pair_figures, refusal};
use crate::tests::streams::reader_of;
use bench_select::Selection;
use bench_stat::{Flow, Shown, ToldChannels, told_channels};
use ch11_stream::StreamFault;
use std::alloc::Global;
use std::process::Abort;

/// All that packets tell of.
const ALL: Shown = Shown {
    long: true,
    by_subaddress: true,
    load: true,
    time: false,
};

/// Nothing of it.
const NOTHING: Shown = Shown {
    long: false,
    by_subaddress: false,
    load: false,
    time: false,
};

/// The pair, where the flags of its last packet say that messages are missing; the header's checksum counts them.
fn lossy() -> [u8; 192] {
    let mut file = pair();
    file[142] = 0x90;
    file[150] = 0x18;
    file
}

/// Two messages of 106.0 µs, the first with an error; the second begins 894.0 µs behind the first one's end. A gap is
/// measured from the middle of a parity bit to the middle of a sync: 2.0 µs more.
fn of_pair() -> Flow {
    Flow {
        messages: 2,
        errors: 1,
        begun: 10_000,
        ended: Some(11_060),
        least_gap: 8_960,
        greatest_gap: 8_960,
    }
}

/// What is told of channel 1 of the lossy pair.
fn told_of(rt: &impl Abort, alloc: Global, shown: &Shown) -> ToldChannels {
    let file = lossy();
    let all = Selection::all();
    let found = told_channels(alloc, reader_of(&file, 7), &all, &[pair_figures()], shown);
    found.ok().expect(rt, "a sound file")
}

/// The command word 2823 is of terminal 5, to receive, subaddress 1: entry 5 times 64 and 1.
#[test]
fn channels_are_told_of(rt: HostRuntime) {
    let channels = told_of(&rt, rt.alloc(), &ALL);
    let messages = &channels.of(1).expect(&rt, "channel 1").messages;
    let details = messages.details.expect(&rt, "details");
    same(&rt, &details.flow, &of_pair());
    let flows = messages.flows.as_slice();
    same(&rt, &flows.len(), &2048);
    same(&rt, &flows.get(321).copied(), &Some(of_pair()));
    same(&rt, &flows.get(320).copied(), &Some(Flow::none()));
}

#[test]
fn what_is_not_shown_is_not_told(rt: HostRuntime) {
    let channels = told_of(&rt, rt.alloc(), &NOTHING);
    let told = channels.of(1).expect(&rt, "channel 1");
    same(&rt, &told.losses.overflows, &1);
    same(&rt, &told.messages.details.is_none(), &true);
    same(&rt, &told.messages.flows.len(), &0);
    same(&rt, &told.messages.slices.len(), &0);
}

#[test]
fn nothing_is_told_of_a_damaged_file(rt: HostRuntime) {
    let file = damaged();
    let all = Selection::all();
    let found = told_channels(
        rt.alloc(),
        reader_of(&file, 1),
        &all,
        &[pair_figures()],
        &ALL,
    );
    same(&rt, &found.err(), &Some(StreamFault::Refused(refusal())));
}
