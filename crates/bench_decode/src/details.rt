//! A message on several lines: what a picture shows where the mouse rests on it.
ghost use Rattle.bench_decode.specs.DetailsText as spec;
ghost use Rattle.bench_decode.specs.ReadingText.{IsNear};
ghost use Rattle.bench_decode.specs.Waiting.{drawn_on};
ghost use Rattle.std.specs.Prelude.{◌≡◌, ◌+◌, ◌≤◌, length, min, nat_lt};

use crate::fields::{BLOCK, has_names, put_block, put_form};
use crate::line::{SIZE, TextLine};
use crate::messages::{Place, is_unknown, letter_of};
use crate::readings::{Reading, put_reading};
use crate::times::Time;
use crate::words::{are_any, between};
use ch11_layout::View;

/// How many words are shown at most.
const MOST_WORDS: usize = 40;

/// How many bytes where a message stands takes at most, and words with their label.
const PLACE: usize = 160;

const DATA: usize = 256;

/// Puts a message as people read it, on several lines and with none before them: where it stands, its time in seconds,
/// its form in the words of a script with what a mode command asks, the status words with the names of their bits and
/// the response times, the data words, and the names of the bits of its block status word; what a message does not have
/// has no line, and behind forty words stands `..`. A message of no known form has its block status word, its gap times
/// word and all its words as hexadecimal digits. There is no character that SVG or HTML would take for markup.
pub fn put_details(line: &mut TextLine, place: &Place, view: &View<'_>)
    ensures text { line.new.text ≡ spec.details_text line.old.shown place.now view.now }
    ensures shown { line.new.shown ≡ line.old.shown }
{
    line.clear();
    put_place(line, place, view);
    put_form(line, view.form());
    put_body(line, view);
    put_names(line, view.block());
}

/// Puts what stands behind the form.
fn put_body(line: &mut TextLine, view: &View<'_>)
    requires { length line.old.text + 1200 ≤ SIZE }
    ensures put { line.new ≡ drawn_on line.old (spec.body_parts view.now) }
    ensures few { length line.new.text ≤ length line.old.text + 1200 }
{
    if is_unknown(view.form()) {
        put_raw(line, view);
    } else {
        put_known(line, view, Reading::of(view));
    }
}

/// Puts the status words and the data words.
fn put_known(line: &mut TextLine, view: &View<'_>, reading: Reading)
    requires near { IsNear reading }
    requires room { length line.old.text + 1200 ≤ SIZE }
    ensures put { line.new ≡ drawn_on line.old (spec.known_parts view.now reading) }
    ensures few { length line.new.text ≤ length line.old.text + 1200 }
{
    line.put(b"\nstatus words: ");
    put_reading(line, view, reading);
    put_data(line, b"\ndata words:", view, reading.first_words(view));
    put_data(
        line,
        b"\ndata words of the second command:",
        view,
        reading.other_words(view),
    );
}

/// Puts the names of the bits of a block status word, if there are any.
fn put_names(line: &mut TextLine, block: u16)
    requires { length line.old.text + 200 ≤ SIZE }
    ensures put { line.new ≡ drawn_on line.old (spec.names_parts block) }
    ensures few { length line.new.text ≤ length line.old.text + 200 }
{
    if has_names(block) {
        line.put(b"\nblock status:");
        put_block(line, block);
    }
}

/// Puts where a message stands, and its time.
fn put_place(line: &mut TextLine, place: &Place, view: &View<'_>)
    requires { length line.old.text + PLACE ≤ SIZE }
    ensures put { line.new ≡ drawn_on line.old (spec.place_parts place.now view.now) }
    ensures few { length line.new.text ≤ length line.old.text + PLACE }
{
    line.put_labelled(b"message ", place.number);
    line.put_labelled(b", channel ", u64::from(place.channel));
    line.put_labelled(b", number ", place.in_channel);
    line.put(b" there, line ");
    line.put(&[letter_of(view)]);
    put_time(line, view.time());
}

/// Puts a time, or '-' where none is known, on a line of its own.
fn put_time(line: &mut TextLine, time: Option<u64>)
    requires { length line.old.text + 32 ≤ SIZE }
    ensures put { line.new ≡ drawn_on line.old (spec.time_parts time) }
    ensures few { length line.new.text ≤ length line.old.text + 32 }
{
    match time {
        Some(ticks) => {
            let time = Time::of(ticks);
            line.put_labelled(b"\n", time.seconds);
            line.put_decimals(time);
            line.put(b" s\n");
        }
        None => line.put(b"\n-\n"),
    }
}

/// Puts the block status word and the gap times word, and all words.
fn put_raw(line: &mut TextLine, view: &View<'_>)
    requires { length line.old.text + 320 ≤ SIZE }
    ensures put { line.new ≡ drawn_on line.old (spec.raw_parts view.now) }
    ensures few { length line.new.text ≤ length line.old.text + 320 }
{
    line.put(b"\nblock");
    line.put_word(view.block());
    line.put(b" gaps");
    line.put_word(view.gaps());
    put_data(line, b"\nwords", view, (0, view.word_count()));
}

/// Puts the words from a place up to another behind a label, if there is one.
fn put_data(line: &mut TextLine, label: &[u8], view: &View<'_>, places: (usize, usize))
    requires label { length label.now ≤ 40 }
    requires room { length line.old.text + DATA ≤ SIZE }
    ensures put { line.new ≡ drawn_on line.old (spec.data_parts label.now view.now places) }
    ensures few { length line.new.text ≤ length line.old.text + DATA }
{
    if are_any(places) {
        put_some_data(line, label, view, places);
    }
}

/// Puts the same where there is one.
fn put_some_data(line: &mut TextLine, label: &[u8], view: &View<'_>, places: (usize, usize))
    requires label { length label.now ≤ 40 }
    requires room { length line.old.text + DATA ≤ SIZE }
    ensures put { line.new ≡ drawn_on line.old (spec.some_data label.now view.now places) }
    ensures few { length line.new.text ≤ length line.old.text + DATA }
{
    let (from, to) = places;
    line.put(label);
    line.put_piece(between(view.bytes(), from, last_shown(from, to)));
    put_more(line, has_more(from, to));
}

/// Where the words end that are shown.
fn last_shown(from: usize, to: usize) -> usize
    ensures end { result ≡ min to (from + MOST_WORDS) }
    ensures few { result ≤ from + MOST_WORDS }
{
    if to.saturating_sub(from) > MOST_WORDS {
        from + MOST_WORDS
    } else {
        to
    }
}

/// Whether there are more words than are shown.
fn has_more(from: usize, to: usize) -> bool
    ensures { result ≡ nat_lt (from + MOST_WORDS) to }
{
    to.saturating_sub(from) > MOST_WORDS
}

/// Puts that there are more words.
fn put_more(line: &mut TextLine, more: bool)
    requires { length line.old.text + 3 ≤ SIZE }
    ensures put { line.new ≡ drawn_on line.old (spec.more_parts more) }
    ensures few { length line.new.text ≤ length line.old.text + 3 }
{
    if more {
        line.put(b" ..");
    }
}
