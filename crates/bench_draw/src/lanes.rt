//! The lanes of a channel.

use crate::bars::bar_of;
use crate::canvas::Canvas;
use crate::extent::is_bar;
use crate::frames::draw_frames;
use crate::labels::{Label, Labels};
use crate::loads::Loads;
use crate::plan::Strip;
use crate::rhythm::Rhythm;
use crate::rows::{Lane, Rows};
use crate::scale::{end_of, runs_of};
use crate::track::Track;
use bench_decode::Place;
use ch11_layout::View;
use std::alloc::{AllocError, Global};

/// A lane on the way into the picture: what has it, where it stands, and its labels.
#[derive(Drop)]
struct Row {
    track: Track,
    lane: Lane,
    labels: Labels,
}

/// A channel on the way into the picture: its number, what lanes show, where they begin and end, how many lanes stand
/// in front of its own, how many of its messages were passed, its elements so far, how many bytes these have, its
/// lanes, and the rhythm of its messages.
#[derive(Drop)]
pub(crate) struct Lanes {
    pub(crate) channel: u16,
    rows: Rows,
    heights: (u64, u64),
    before: usize,
    passed: u64,
    elements: Vec<String>,
    pub(crate) size: usize,
    lanes: Vec<Row>,
    rhythm: Rhythm,
}

impl Lanes {
    /// The lanes of a channel, with no message yet.
    pub(crate) fn new(alloc: Global, rows: &Rows, strip: &Strip) -> Result<Lanes, AllocError> {
        let mut lanes = Vec::new(alloc);
        for (place, track) in strip.tracks.iter().enumerate() {
            lanes.push(Row {
                track: *track,
                lane: strip.lane(rows, place),
                labels: Labels::new(alloc),
            })?;
        }
        Ok(Lanes {
            channel: strip.channel,
            rows: *rows,
            heights: strip.heights(rows),
            before: strip.before,
            passed: 0,
            elements: Vec::new(alloc),
            size: 0,
            lanes,
            rhythm: Rhythm::new(alloc),
        })
    }

    /// One more element.
    pub(crate) fn keep(&mut self, element: String) -> Result<(), AllocError> {
        self.size = self.size.saturating_add(element.len());
        self.elements.push(element)?;
        Ok(())
    }

    /// How many lanes there are.
    pub(crate) fn count(&self) -> usize {
        self.lanes.len()
    }

    /// One more message of the channel, with its number in the file: where it is, if it is selected and its time is
    /// known.
    pub(crate) fn pass(
        &mut self,
        canvas: &Canvas<'_>,
        number: u64,
        view: &View<'_>,
    ) -> Result<Option<Place>, AllocError> {
        self.passed = self.passed.saturating_add(1);
        if !canvas.selection.selects(number, self.channel, view) || !view.has_time() {
            return Ok(None);
        }
        self.rhythm.add(canvas.alloc, view, end_of(view))?;
        Ok(Some(Place {
            number,
            channel: self.channel,
            in_channel: self.passed,
        }))
    }

    /// The element of a message in the lane at a place, where it stands there and has the room of a bar.
    pub(crate) fn drawn(
        &mut self,
        canvas: &mut Canvas<'_>,
        lane: usize,
        place: &Place,
        view: &View<'_>,
    ) -> Result<Option<String>, AllocError> {
        let ticks = end_of(view).saturating_sub(view.stamp());
        if !self.rows.all && !is_bar(&canvas.scale, ticks) {
            return Ok(None);
        }
        match self.lanes.get_mut(lane) {
            Some(row) if row.track.has(view) => Ok(Some(row.drawn(canvas, place, view)?)),
            _ => Ok(None),
        }
    }
}

impl Row {
    /// The element of a message that stands in the lane, which has a label too.
    fn drawn(
        &mut self,
        canvas: &mut Canvas<'_>,
        place: &Place,
        view: &View<'_>,
    ) -> Result<String, AllocError> {
        self.labels.add(Label {
            at: canvas.scale.tenths(begin_in(self.track, view)) / 10,
            number: place.number,
            on_b: matches!(self.track, Track::Terminal(_)) && view.is_on_line_b(),
            form: view.form(),
        })?;
        bar_of(canvas, self.track, &self.lane, place, view)
    }
}

/// When the first of a message's words begins that stands in a lane which has it, in ticks.
fn begin_in(track: Track, view: &View<'_>) -> u64 {
    let mut before = 0usize;
    for run in runs_of(view) {
        if run.words > 0 && track.has_word(view, before) {
            return run.begin;
        }
        before = before.saturating_add(run.words as usize);
    }
    view.stamp()
}

/// Draws the elements of a channel, the begins of frames, the labels, and the loads of its lanes.
pub(crate) fn draw_lanes(
    canvas: &mut Canvas<'_>,
    lanes: &Lanes,
    loads: &Loads,
) -> Result<(), AllocError> {
    for element in lanes.elements.iter() {
        canvas.picture.put(element.as_str())?;
    }
    draw_rhythm(canvas, lanes)?;
    for row in lanes.lanes.iter() {
        let (alloc, picture) = (canvas.alloc, &mut canvas.picture);
        row.labels.draw(alloc, picture, &row.lane, lanes.rows.all)?;
    }
    for (place, row) in lanes.lanes.iter().enumerate() {
        loads.draw(canvas, lanes.before.saturating_add(place), &row.lane)?;
    }
    Ok(())
}

/// Draws the begins of frames, where the messages have a rhythm.
fn draw_rhythm(canvas: &mut Canvas<'_>, lanes: &Lanes) -> Result<(), AllocError> {
    let (alloc, scale) = (canvas.alloc, &canvas.scale);
    match lanes.rhythm.frames(alloc, scale)? {
        Some(frames) => {
            let (top, low) = lanes.heights;
            draw_frames(alloc, &mut canvas.picture, scale, top, low, &frames)
        }
        None => Ok(()),
    }
}
