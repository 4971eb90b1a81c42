//! A whole picture.
ghost use Rattle.ch11_reader.specs.Contents.{capped};
ghost use Rattle.bench_draw.specs.Chosen.{chosen};
ghost use Rattle.ch11_reader.specs.Indexed.{found_in};
ghost use Rattle.ch11_reader.specs.Recording.{packets_in};
ghost use Rattle.std.specs.Prelude.{◌≡◌, ◌≤◌, ℕ, List, Some, Ok, vec_len, IfOk};

use crate::asked::Asked;
use crate::axis::{Begin, draw_axis};
use crate::canvas::Canvas;
use crate::drawn::draw_group;
use crate::extent::Extent;
use crate::fault::DrawFault;
use crate::frame::{draw_head, draw_nothing};
use crate::group::Group;
use crate::loads::Loads;
use crate::picture::{MOST_BYTES, Picture};
use crate::plan::Plan;
use crate::plots::Plots;
use crate::scale::Scale;
use bench_clock::Clock;
use bench_decode::{Shown, TextLine};
use bench_names::ChannelNames;
use bench_watch::Reopen;
use std::alloc::Global;

/// A picture.
#[derive(Drop)]
pub struct Drawing {
    /// The picture as SVG, at most 5,000,000 bytes.
    pub text: Vec<u8>,
    /// How many messages were selected.
    pub messages: u64,
}

/// Draws what is asked of a recording as SVG: a lane for each line of each channel in rising order (the first 32 of
/// them that the file has), or for each terminal that its selected messages call, in rising order with broadcast last;
/// each message a bar over the time that it took with its number, its address, T or R, and its subaddress, in the lane
/// of a terminal with the words that this sends or is sent alone; all of them where there are at most 24, and else
/// those that have the room, and the load of each lane where some have not, by one scale for all lanes; and a line
/// where a frame begins, where commands recur with a period. The axis has the time of the recording, from its tick 0
/// or where stamps are times of day from 1970-01-01T00:00:00; over it stands when the first of the messages began, by
/// the clock too if that says it. The name of a channel stands behind its number. Messages of which no time is known
/// are not drawn, and by terminal none without words. Under the channels each of the signals has a lane for each
/// channel whose selected messages have it (64 lanes at most): its numbers over time as steps, from the least at the
/// bottom to the greatest at the top, or its names as bands; it stands as it is until the next message that has it.
/// The picture has at most 5,000,000 bytes: what there is no room for is left out. The recording is read once for what
/// is to be drawn, and once more for all its channels, or as often as it has to be where not all of them have room;
/// twice more where there are signals. It takes memory for the largest packet of messages or of time, the picture, and
/// 128 KiB at most for each channel and each lane. A recording that can't be read is refused with its first fault, K1
/// to K5, N2 or F1 to F3; want of memory and failures of the reader are the others.
pub fn draw<S: Reopen>(
    alloc: Global,
    recording: &S,
    asked: &Asked<'_>,
    clock: &Clock,
    names: &ChannelNames<'_>,
) -> Result<Drawing, DrawFault>
    ensures bounded { IfOk result (λ drawing. vec_len drawing.text ≤ MOST_BYTES) }
    ensures messages { (file : List ℕ) → S.bytes recording.now ≡ Some file → IfOk result (λ drawing.
        (packets_in file ≡ Ok (found_in file))
        × (drawing.messages ≡ capped (chosen asked.now.selection (found_in file)))) }
{
    let extent = match recording.reopen() {
        Ok(input) => Extent::of(alloc, input, &asked.selection)?,
        Err(error) => return Err(DrawFault::Opening(error)),
    };
    Ok(Drawing {
        messages: extent.messages,
        text: draw_extent(alloc, recording, asked, clock, names, &extent)?,
    })
}

/// Draws the selected messages, whose extent this is.
fn draw_extent<S: Reopen>(
    alloc: Global,
    recording: &S,
    asked: &Asked<'_>,
    clock: &Clock,
    names: &ChannelNames<'_>,
    extent: &Extent,
) -> Result<Vec<u8>, DrawFault>
    ensures { IfOk result (λ text. vec_len text ≤ MOST_BYTES) }
{
    let scale = Scale::of(extent.begin, extent.end);
    let plan = Plan::of(alloc, extent, extent.rows(&scale), asked.by)?;
    let shown = if plan.strips.is_empty() {
        &[]
    } else {
        asked.signals
    };
    let plots = Plots::of(alloc, recording, &asked.selection, shown, plan.low)?;
    let low = plots.low();
    let mut picture = Picture::new(alloc);
    draw_head(alloc, &mut picture, low)?;
    if plan.strips.is_empty() {
        draw_nothing(&mut picture)?;
        return Ok(picture.end()?);
    }
    let begin = Begin {
        kind: extent.kind,
        day: clock.of_stamp(extent.kind, extent.begin),
    };
    draw_axis(alloc, &mut picture, &scale, begin, low)?;
    let mut canvas = Canvas {
        alloc,
        selection: asked.selection,
        scale,
        picture,
        details: TextLine::new(alloc, Shown::Plain)?,
    };
    draw_channels(&mut canvas, recording, &plan, names)?;
    plots.draw(&mut canvas, recording)?;
    Ok(canvas.picture.end()?)
}

/// Draws the channels, in one pass where all of them have room.
fn draw_channels<S: Reopen>(
    canvas: &mut Canvas<'_>,
    recording: &S,
    plan: &Plan,
    names: &ChannelNames<'_>,
) -> Result<(), DrawFault> {
    let mut loads = Loads::of(canvas.alloc, plan)?;
    let mut drawn = 0usize;
    for place in 0..plan.strips.len() {
        if place == drawn {
            let group = Group::of(canvas, plan, names, place)?;
            let count = draw_group(canvas, plan, &mut loads, group, recording)?;
            drawn = place.saturating_add(count);
        }
    }
    Ok(())
}
