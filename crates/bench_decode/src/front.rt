//! The columns in front of the form of a message: its number, its time, its channel, its number there, and the line.
ghost use Rattle.bench_decode.specs.MessageText as spec;
ghost use Rattle.bench_decode.specs.Waiting.{drawn_on};
ghost use Rattle.std.specs.Prelude.{◌≡◌, ◌+◌, ◌<◌, ◌≤◌, length};

use crate::digits::{decimals_of, in_columns};
use crate::line::{SIZE, TextLine};
use crate::messages::{Place, letter_of};
use crate::times::Time;
use ch11_layout::View;

/// Where the columns of the line and of the form begin.
const LINE_COLUMN: usize = 38;

pub(crate) const FORM_COLUMN: usize = 43;

/// Where '-' stands in the place of a time, at the end of its column.
const UNTIMED: usize = 20;

/// The least number that has more digits than its column.
const WIDE: u64 = 10_000_000;

/// The least time in ticks whose whole seconds have more digits than their column.
const LONG: u64 = 1_000_000_000_000;

/// How many bytes the columns in front of a form take at most.
pub(crate) const PLACE: usize = 320;

/// Puts the columns in front of the form.
#[inline(always)]
pub(crate) fn put_place(line: &mut TextLine, place: &Place, view: &View<'_>)
    requires begun { line.old.columns ≡ 0 }
    requires room { length line.old.text + PLACE ≤ SIZE }
    ensures put { line.new ≡ drawn_on line.old (spec.place_parts place.now view.now) }
    ensures few { length line.new.text ≤ length line.old.text + PLACE }
    ensures columns { FORM_COLUMN ≤ line.new.columns }
{
    put_place_by(line, place, view.time(), letter_of(view));
}

/// Puts the same of a time and a letter.
#[inline(always)]
fn put_place_by(line: &mut TextLine, place: &Place, time: Option<u64>, letter: u8)
    requires begun { line.old.columns ≡ 0 }
    requires room { length line.old.text + PLACE ≤ SIZE }
    ensures put { line.new ≡ drawn_on line.old (spec.place_by place.now time letter) }
    ensures few { length line.new.text ≤ length line.old.text + PLACE }
    ensures columns { FORM_COLUMN ≤ line.new.columns }
{
    match time {
        Some(ticks) => put_timed_place(line, place, ticks, letter),
        None => put_wide_place(line, place, None, letter),
    }
}

/// Puts the same where a time is known.
#[inline(always)]
fn put_timed_place(line: &mut TextLine, place: &Place, ticks: u64, letter: u8)
    requires begun { line.old.columns ≡ 0 }
    requires room { length line.old.text + PLACE ≤ SIZE }
    ensures put { line.new ≡ drawn_on line.old (spec.place_by place.now (Some ticks) letter) }
    ensures few { length line.new.text ≤ length line.old.text + PLACE }
    ensures columns { FORM_COLUMN ≤ line.new.columns }
{
    if place.number >= WIDE || place.in_channel >= WIDE || ticks >= LONG {
        return put_wide_place(line, place, Some(ticks), letter);
    }
    put_narrow_place(line, place, ticks, letter);
}

/// Puts the same of numbers that their columns have room for.
#[inline(always)]
fn put_narrow_place(line: &mut TextLine, place: &Place, ticks: u64, letter: u8)
    requires number { place.now.number < WIDE }
    requires in_channel { place.now.in_channel < WIDE }
    requires time { ticks < LONG }
    requires begun { line.old.columns ≡ 0 }
    requires room { length line.old.text + PLACE ≤ SIZE }
    ensures put { line.new ≡ drawn_on line.old (spec.place_by place.now (Some ticks) letter) }
    ensures few { length line.new.text ≤ length line.old.text + PLACE }
    ensures columns { FORM_COLUMN ≤ line.new.columns }
{
    let time = Time::of(ticks);
    line.put_front(
        &in_columns(place.number as u32, 1),
        &in_columns(time.seconds as u32, 2),
        &decimals_of(time),
        &in_columns(u32::from(place.channel), 0),
        &in_columns(place.in_channel as u32, 0),
        letter,
    );
}

/// Puts the same of numbers that their columns may have no room for, or of no time, which is '-'.
fn put_wide_place(line: &mut TextLine, place: &Place, time: Option<u64>, letter: u8)
    requires begun { line.old.columns ≡ 0 }
    requires room { length line.old.text + PLACE ≤ SIZE }
    ensures put { line.new ≡ drawn_on line.old (spec.place_by place.now time letter) }
    ensures few { length line.new.text ≤ length line.old.text + PLACE }
    ensures columns { FORM_COLUMN ≤ line.new.columns }
{
    line.put_right(place.number, 7);
    line.put(b" ");
    put_time(line, time);
    line.put(b" ");
    line.put_right(u64::from(place.channel), 7);
    line.put(b" ");
    line.put_right(place.in_channel, 7);
    line.pad_to(LINE_COLUMN);
    line.put(&[letter]);
    line.pad_to(FORM_COLUMN);
}

/// Puts a time in seconds, or '-' where there is none.
fn put_time(line: &mut TextLine, time: Option<u64>)
    requires begun { 8 ≤ line.old.columns }
    requires room { length line.old.text + 80 ≤ SIZE }
    ensures put { line.new ≡ drawn_on line.old (spec.time_parts time) }
    ensures few { length line.new.text ≤ length line.old.text + 65 }
    ensures columns { line.old.columns ≤ line.new.columns }
{
    match time {
        Some(ticks) => {
            let time = Time::of(ticks);
            line.put_right(time.seconds, 5);
            line.put_decimals(time);
        }
        None => {
            line.fill_to(UNTIMED);
            line.put(b"-");
        }
    }
}
