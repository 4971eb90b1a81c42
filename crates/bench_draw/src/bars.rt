//! Messages as bars.

use crate::canvas::Canvas;
use crate::labels::direction;
use crate::rows::{BAR, Lane};
use crate::scale::{LEFT, Run, Scale, WORD, end_of, runs_of};
use crate::track::Track;
use bench_decode::{Place, put_details};
use ch11_layout::{Role, View};
use mil_word::{Command, Status};
use std::alloc::AllocError;
use std::str;

/// How many tenths of a pixel a bar takes at least that shows an address, and one that shows whom a command calls with
/// its subaddress.
const ROOM: (u64, u64) = (140, 420);

/// The same of a command to all terminals.
const BROADCAST_ROOM: (u64, u64) = (540, 820);

/// How many tenths of a pixel a bar takes for each data word that it shows.
const DATA_ROOM: u64 = 280;

/// How many tenths of a pixel a bar takes at least that has an edge.
const EDGED: u64 = 30;

fn color(role: Role) -> &'static str {
    match role {
        Role::Command => "#2a5caa",
        Role::Status => "#e08a1e",
        Role::Data => "#8fc1a9",
    }
}

/// The element of a message in a lane: a bar for the words of each role that stand there with what there is room for, a
/// mark where there is an error, and where the mouse rests on it the message as people read it.
pub(crate) fn bar_of(
    canvas: &mut Canvas<'_>,
    track: Track,
    lane: &Lane,
    place: &Place,
    view: &View<'_>,
) -> Result<String, AllocError> {
    let scale = &canvas.scale;
    let mut text = String::new(canvas.alloc);
    text.push_str("<g><title>")?;
    put_details(&mut canvas.details, place, view);
    text.push_str(str::from_utf8(canvas.details.text()).unwrap_or(""))?;
    text.push_str("</title>")?;
    let mut before = 0usize;
    for run in runs_of(view) {
        if run.words > 0 && track.has_word(view, before) {
            put_run(&mut text, scale, lane, &run)?;
            put_words(&mut text, scale, lane, &run, view, before)?;
        }
        before = before.saturating_add(run.words as usize);
    }
    if view.has_error() {
        put_error(&mut text, scale, lane, view)?;
    }
    text.push_str("</g>\n")?;
    Ok(text)
}

/// Puts the bar of a run.
fn put_run(text: &mut String, scale: &Scale, lane: &Lane, run: &Run) -> Result<(), AllocError> {
    let left = scale.tenths(run.begin);
    let width = scale.tenths(run.end()).saturating_sub(left).max(10);
    let (x, x_part) = (LEFT.saturating_add(left / 10), left % 10);
    let (wide, wide_part) = (width / 10, width % 10);
    let (top, fill) = (lane.bars, color(run.role));
    write!(
        text,
        "<rect x=\"{x}.{x_part}\" y=\"{top}\" width=\"{wide}.{wide_part}\" height=\"{BAR}\""
    )?;
    if width >= EDGED {
        text.push_str(" class=\"b\"")?;
    }
    write!(text, " fill=\"{fill}\"/>")?;
    Ok(())
}

/// Puts into the bar of a run what its words say, of which so many of the message stand before it.
fn put_words(
    text: &mut String,
    scale: &Scale,
    lane: &Lane,
    run: &Run,
    view: &View<'_>,
    before: usize,
) -> Result<(), AllocError> {
    let base = lane.bars.saturating_add(15);
    let first = view.word(before);
    match run.role {
        Role::Data => put_data(text, scale, base, run, view, before),
        Role::Command => put_command(text, scale, base, run, Command::of(first)),
        Role::Status => {
            let (middle, wide) = middle_of(scale, run.begin, run.end());
            if wide >= ROOM.0 {
                let address = Status::of(first).address();
                write!(
                    text,
                    "<text x=\"{middle}\" y=\"{base}\" class=\"a\">{address}</text>"
                )?;
            }
            Ok(())
        }
    }
}

/// The pixel in the middle of a time, and how many tenths of a pixel the time takes.
fn middle_of(scale: &Scale, begin: u64, end: u64) -> (u64, u64) {
    let (left, right) = (scale.tenths(begin), scale.tenths(end));
    (
        LEFT.saturating_add(left.saturating_add(right) / 20),
        right.saturating_sub(left),
    )
}

/// Puts whom a command calls: its address, and T or R and the subaddress where there is room; to all terminals by name.
fn put_command(
    text: &mut String,
    scale: &Scale,
    base: u64,
    run: &Run,
    command: Command,
) -> Result<(), AllocError> {
    let (middle, wide) = middle_of(scale, run.begin, run.end());
    let all = command.is_broadcast();
    let (least, ample) = if all { BROADCAST_ROOM } else { ROOM };
    if wide < least {
        return Ok(());
    }
    let (address, subaddress) = (command.address(), command.subaddress());
    let direction = direction(command.is_transmit());
    write!(text, "<text x=\"{middle}\" y=\"{base}\" class=\"a\">")?;
    if all {
        text.push_str("broadcast")?;
    } else {
        write!(text, "{address}")?;
    }
    if wide >= ample {
        write!(text, " {direction} {subaddress}")?;
    }
    text.push_str("</text>")
}

/// Puts data words as hexadecimal digits, each in its part of the bar, where these are wide enough.
fn put_data(
    text: &mut String,
    scale: &Scale,
    base: u64,
    run: &Run,
    view: &View<'_>,
    before: usize,
) -> Result<(), AllocError> {
    let (_, wide) = middle_of(scale, run.begin, run.end());
    if wide < run.words.saturating_mul(DATA_ROOM) {
        return Ok(());
    }
    let mut begin = run.begin;
    for place in 0..run.words as usize {
        let end = begin.saturating_add(WORD);
        let (middle, _) = middle_of(scale, begin, end);
        let word = view.word(before.saturating_add(place));
        write!(
            text,
            "<text x=\"{middle}\" y=\"{base}\" class=\"d\">{word:04X}</text>"
        )?;
        begin = end;
    }
    Ok(())
}

/// Puts a mark over a message, which has an error, and under it the kinds of its errors where there is room.
fn put_error(
    text: &mut String,
    scale: &Scale,
    lane: &Lane,
    view: &View<'_>,
) -> Result<(), AllocError> {
    let left = scale.tenths(view.stamp());
    let width = scale.tenths(end_of(view)).saturating_sub(left);
    let (x, wide) = (LEFT.saturating_add(left / 10), (width / 10).max(2));
    let top = lane.bars.saturating_sub(3);
    write!(
        text,
        "<rect x=\"{x}\" y=\"{top}\" width=\"{wide}\" height=\"3\" fill=\"#c22\"/>"
    )?;
    if wide >= KIND {
        let base = lane.bars.saturating_add(BAR + 11);
        write!(text, "<text x=\"{x}\" y=\"{base}\" class=\"e\">")?;
        put_kinds(text, view, wide)?;
        text.push_str("</text>")?;
    }
    Ok(())
}

/// How many pixels the letters of a kind of error take.
const KIND: u64 = 16;

/// Puts the kinds of errors of a message, as many as there is room for in so many pixels.
fn put_kinds(text: &mut String, view: &View<'_>, wide: u64) -> Result<(), AllocError> {
    let kinds = [
        (view.has_response_timeout(), "NR "),
        (view.has_word_count_error(), "WC "),
        (view.has_sync_type_error(), "SY "),
        (view.has_invalid_word_error(), "UW "),
    ];
    let mut used = 0u64;
    for (told, kind) in kinds {
        if told && used.saturating_add(KIND) <= wide {
            text.push_str(kind)?;
            used = used.saturating_add(KIND);
        }
    }
    if used == 0 {
        text.push_str("E")?;
    }
    Ok(())
}
