//! Pictures of recordings that are read anew for each pass.

use crate::tests::equal::same;
use crate::tests::rereading::{Changing, apart};
use crate::tests::streamed::{damaged, refusal};
use bench_clock::Clock;
use bench_draw::{Asked, By, DrawFault, Drawing, draw};
use bench_names::ChannelNames;
use bench_select::Selection;
use ch11_stream::StreamFault;
use std::alloc::Global;
use std::process::Abort;

/// The picture of these messages, with a lane for each line.
fn by_line<'o>(selection: &Selection<'o>) -> Asked<'o> {
    Asked {
        selection: *selection,
        signals: &[],
        by: By::Line,
    }
}

/// The picture of a recording whose times of day are not known.
fn drawn(
    alloc: Global,
    recording: &Changing<'_>,
    selection: &Selection,
) -> Result<Drawing, DrawFault> {
    let clock = Clock::unset(alloc);
    let names = ChannelNames::of(&[]);
    draw(alloc, recording, &by_line(selection), &clock, &names)
}

/// How often a recording that can be opened so many times is opened for the picture of a channel's messages, or of all;
/// and how many these are.
fn passes_of(rt: &impl Abort, alloc: Global, channel: Option<u16>, most: usize) -> (usize, u64) {
    let file = apart();
    let mut selection = Selection::all();
    selection.channel = channel;
    let recording = Changing::of(&file, &file, most);
    let found = drawn(alloc, &recording, &selection);
    let picture = found.ok().expect(rt, "a picture");
    (recording.opened.get(), picture.messages)
}

/// All channels take one pass, and one comes before it; of one channel there are two passes, and of none one.
#[test]
fn a_picture_comes_from_passes(rt: HostRuntime) {
    let alloc = rt.alloc();
    same(&rt, &passes_of(&rt, alloc, None, 2), &(2, 2));
    same(&rt, &passes_of(&rt, alloc, Some(2), 2), &(2, 1));
    same(&rt, &passes_of(&rt, alloc, Some(3), 1), &(1, 0));
}

#[test]
fn a_damaged_recording_is_not_drawn(rt: HostRuntime) {
    let alloc = rt.alloc();
    let (file, broken) = (apart(), damaged());
    for recording in [
        Changing::of(&broken, &file, 2),
        Changing::of(&file, &broken, 2),
    ] {
        let found = drawn(alloc, &recording, &Selection::all());
        let fault = match found {
            Err(DrawFault::Recording(fault)) => Some(fault),
            _ => None,
        };
        same(&rt, &fault, &Some(StreamFault::Refused(refusal())));
    }
    let recording = Changing::of(&file, &file, 1);
    let found = drawn(alloc, &recording, &Selection::all());
    same(&rt, &matches!(&found, Err(DrawFault::Opening(_))), &true);
}
