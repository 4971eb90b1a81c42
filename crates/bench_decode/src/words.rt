//! The words of a message in their column.
ghost use Rattle.bench_decode.specs.Columns.{drawn};
ghost use Rattle.bench_decode.specs.MessageText as spec;
ghost use Rattle.bench_decode.specs.Waiting.{IsPut};
ghost use Rattle.std.specs.Prelude.{◌≡◌, ◌+◌, ◌*◌, ◌-◌, ◌≤◌, length, min, nat_lt, OnOk};

use crate::fields::has_names;
use crate::front::FORM_COLUMN;
use crate::line::{SIZE, TextLine};
use ch11_layout::View;
use std::io;
use std::io::Write;

/// Where the column of the words begins.
const WORDS_COLUMN: usize = 103;

/// How many bytes are free at least in front of the data words, behind them, and behind all words, where the names of
/// bits and the end of the line stand.
pub(crate) const BEFORE_WORDS: usize = 832;

const BEFORE_THEN: usize = 768;

pub(crate) const END: usize = 760;

/// The bytes of the words from a place up to another, as far as there are any.
pub(crate) fn between(words: &[u8], from: usize, to: usize) -> &[u8]
    ensures words { result.now ≡ spec.between words.now from to }
    ensures few { length result.now ≤ (to - from) * 2 }
{
    let end = clipped(to, words.len());
    let begin = clipped(from, end);
    &words[begin..end]
}

/// Where the word at a place begins in bytes, of which there are at most so many.
fn clipped(place: usize, most: usize) -> usize
    ensures { result ≡ min (place * 2) most }
{
    let begin = place.saturating_mul(2);
    if begin < most { begin } else { most }
}

/// The bytes of the words of a message from a place up to another.
fn words_between<'a>(view: &View<'a>, places: (usize, usize)) -> &'a [u8]
    ensures { result.now ≡ spec.between view.now.bytes places.0 places.1 }
{
    between(view.bytes(), places.0, places.1)
}

/// Whether words, or names of bits, stand in the column of the words.
fn has_words(view: &View<'_>, first: (usize, usize), other: (usize, usize)) -> bool
    ensures { result ≡ spec.has_words view.now first other }
{
    are_any(first) || are_any(other) || has_names(view.block())
}

/// Whether there are words from a place up to another.
pub(crate) fn are_any(places: (usize, usize)) -> bool
    ensures { result ≡ nat_lt places.0 places.1 }
{
    places.0 < places.1
}

/// Puts the words from a place up to another, comes to their column where these, others or names follow, and puts
/// others, which go with a second command.
pub(crate) fn put_all_words<W: Write>(
    line: &mut TextLine,
    out: &mut W,
    view: &View<'_>,
    first: (usize, usize),
    other: (usize, usize),
) -> io::Result<()>
    requires begun { FORM_COLUMN ≤ line.old.columns }
    requires room { length line.old.text + BEFORE_WORDS ≤ SIZE }
    ensures put { OnOk result (IsPut (W.contents out.old) line.old (W.contents out.new) line.new
        (drawn line.old.shown line.old.columns (spec.words_parts view.now first other))) }
    ensures room { OnOk result (length line.new.text + END ≤ SIZE) }
{
    if has_words(view, first, other) {
        put_some_words(line, out, view, first, other)
    } else {
        Ok(())
    }
}

/// Puts the same where there are words or names.
fn put_some_words<W: Write>(
    line: &mut TextLine,
    out: &mut W,
    view: &View<'_>,
    first: (usize, usize),
    other: (usize, usize),
) -> io::Result<()>
    requires begun { FORM_COLUMN ≤ line.old.columns }
    requires room { length line.old.text + BEFORE_WORDS ≤ SIZE }
    ensures put { OnOk result (IsPut (W.contents out.old) line.old (W.contents out.new) line.new
        (drawn line.old.shown line.old.columns (spec.some_words view.now first other))) }
    ensures room { OnOk result (length line.new.text + END ≤ SIZE) }
{
    line.fill_to(WORDS_COLUMN - 1);
    line.put_words(out, words_between(view, first))?;
    put_then(line, out, view, other)?;
    Ok(())
}

/// Puts words that go with a second command behind 'then', if there are any.
fn put_then<W: Write>(
    line: &mut TextLine,
    out: &mut W,
    view: &View<'_>,
    places: (usize, usize),
) -> io::Result<()>
    requires { length line.old.text + BEFORE_THEN ≤ SIZE }
    ensures put { OnOk result (IsPut (W.contents out.old) line.old (W.contents out.new) line.new
        (drawn line.old.shown 0 (spec.then_parts view.now places))) }
    ensures room { OnOk result (length line.new.text + END ≤ SIZE) }
{
    if are_any(places) {
        put_then_words(line, out, view, places)
    } else {
        Ok(())
    }
}

/// Puts the same where there are any.
fn put_then_words<W: Write>(
    line: &mut TextLine,
    out: &mut W,
    view: &View<'_>,
    places: (usize, usize),
) -> io::Result<()>
    requires { length line.old.text + BEFORE_THEN ≤ SIZE }
    ensures put { OnOk result (IsPut (W.contents out.old) line.old (W.contents out.new) line.new
        (drawn line.old.shown 0 (spec.then_words view.now places))) }
    ensures room { OnOk result (length line.new.text + END ≤ SIZE) }
{
    line.put(b" then");
    line.put_words(out, words_between(view, places))?;
    Ok(())
}
