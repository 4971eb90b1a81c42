//! How the words of a message are shown.
ghost use Rattle.bench_decode.specs.ReadingText as spec;
ghost use Rattle.bench_decode.specs.Waiting.{drawn_on};
ghost use Rattle.std.specs.Prelude.{◌≡◌, ◌+◌, ◌≤◌, length};

use crate::fields::put_form;
use crate::line::{SIZE, TextLine};
use crate::replies::{GAP, REPLIES, address_at, put_front, put_gap, put_replies, put_reply};
use crate::superseding::{has_front, second_command};
use ch11_layout::{RecordedForm, Reply, View};
use mil_word::Command;

/// What the words of a message are shown as.
#[derive(Clone, Copy, Debug, PartialEq, Eq)]
pub(crate) enum Reading {
    /// What its layout has them as.
    Laid,
    /// From this place on a second command, which supersedes the first, and the answer to it.
    Second(usize),
    /// From this place on words that cannot be told apart: status words are due there, and those that stand in their
    /// places are of other terminals.
    Unclear(usize),
}

impl Reading {
    /// What the words of a message are shown as.
    #[inline]
    pub(crate) fn of(view: &View<'_>) -> Reading
        ensures reading { result ≡ spec.reading_of view.now }
        ensures near { spec.IsNear result }
    {
        match second_command(view) {
            Some(place) => Reading::Second(place),
            None => without_second(view),
        }
    }

    /// Where the words begin and end that stand in front of a second command, or where there is none all that are shown
    /// as data words.
    #[tactic(auto, unfolding(crate::specs::ReadingText::first_words))]
    pub(crate) fn first_words(&self, view: &View<'_>) -> (usize, usize)
        ensures { result ≡ spec.first_words view.now self.now }
    {
        let layout = view.layout();
        match *self {
            Reading::Laid => (layout.data_start, layout.data_end),
            Reading::Second(place) => (layout.commands, place),
            Reading::Unclear(place) => (place, layout.words),
        }
    }

    /// Where the data words begin and end that go with a second command.
    #[tactic(auto, unfolding(crate::specs::ReadingText::other_words))]
    pub(crate) fn other_words(&self, view: &View<'_>) -> (usize, usize)
        requires { spec.IsNear self.now }
        ensures { result ≡ spec.other_words view.now self.now }
    {
        match *self {
            Reading::Laid | Reading::Unclear(_) => (0, 0),
            Reading::Second(place) => words_behind(view, place),
        }
    }
}

/// Where the data words begin and end that go with the command at a place: behind the status word that answers it where
/// the terminal transmits, else in front of it.
fn words_behind(view: &View<'_>, place: usize) -> (usize, usize)
    requires { place ≤ 1000 }
    ensures { result ≡ spec.words_behind place view.now }
{
    let words = view.word_count();
    if Command::of(view.word(place)).is_transmit() {
        (place + 2, words)
    } else {
        (place + 1, words.saturating_sub(1))
    }
}

/// What the words of a message are shown as in which no second command is told. Words of another number than is due
/// can't be told apart where a status word is not of the terminal that is due.
fn without_second(view: &View<'_>) -> Reading
    ensures reading { result ≡ spec.without_second view.now }
    ensures near { spec.IsNear result }
{
    if view.has_word_count_error() {
        by_addresses(view)
    } else {
        Reading::Laid
    }
}

/// What words are shown as by the addresses of the status words.
fn by_addresses(view: &View<'_>) -> Reading
    ensures reading { result ≡ spec.by_addresses view.now }
    ensures near { spec.IsNear result }
{
    if front_is_other(view) {
        Reading::Unclear(view.layout().commands)
    } else if back_is_other(view) {
        Reading::Unclear(view.layout().data_start)
    } else {
        Reading::Laid
    }
}

/// Whether the status word in front of the data words is of another terminal than the last command.
fn front_is_other(view: &View<'_>) -> bool
    ensures { result ≡ spec.front_is_other view.now }
{
    let commands = view.layout().commands;
    has_front(view) && address_at(view, commands) != address_at(view, commands.saturating_sub(1))
}

/// Whether the status word behind the data words is of another terminal than the first command.
fn back_is_other(view: &View<'_>) -> bool
    ensures { result ≡ spec.back_is_other view.now }
{
    let layout = view.layout();
    layout.data_end < layout.words && address_at(view, layout.data_end) != address_at(view, 0)
}

/// Puts the status words of a message, each with the names of its bits and its response time; those of a second command
/// behind its form.
#[inline]
pub(crate) fn put_reading(line: &mut TextLine, view: &View<'_>, reading: Reading)
    requires near { spec.IsNear reading }
    requires room { length line.old.text + REPLIES ≤ SIZE }
    ensures put { line.new ≡ drawn_on line.old (spec.reading_parts view.now reading) }
    ensures few { length line.new.text ≤ length line.old.text + REPLIES }
{
    match reading {
        Reading::Laid => put_replies(line, view),
        Reading::Second(place) => put_second(line, view, place),
        Reading::Unclear(place) => put_unclear(line, view, place),
    }
}

/// The status word that answers the command at a place.
fn reply_to(view: &View<'_>, place: usize) -> Reply
    requires { place ≤ 1000 }
    ensures { result ≡ spec.second_reply place view.now }
{
    let command = Command::of(view.word(place));
    let answer = if command.is_transmit() {
        place + 1
    } else {
        view.word_count().saturating_sub(1)
    };
    Reply {
        status: view.word(answer),
        due: command.address(),
        gap: view.first_gap(),
    }
}

/// Puts a second command, and the status word that answers it.
fn put_second(line: &mut TextLine, view: &View<'_>, place: usize)
    requires near { place ≤ 1000 }
    requires room { length line.old.text + REPLIES ≤ SIZE }
    ensures put { line.new ≡ drawn_on line.old (spec.second_parts place view.now) }
    ensures few { length line.new.text ≤ length line.old.text + REPLIES }
{
    let command = Command::of(view.word(place));
    line.begin_red();
    line.put(b"second command ");
    line.end_red();
    put_form(line, RecordedForm::of_command(command));
    line.put(b": ");
    put_reply(line, reply_to(view, place));
}

/// Puts the status word in front of words that can't be told apart, if it is told.
fn put_told_front(line: &mut TextLine, view: &View<'_>, told: bool)
    requires { length line.old.text + 178 ≤ SIZE }
    ensures put { line.new ≡ drawn_on line.old (spec.told_front told view.now) }
    ensures few { length line.new.text ≤ length line.old.text + 178 }
{
    if told {
        put_front(line, view);
        line.put(b", ");
    }
}

/// Puts a gap that is due, where it is not 0.
fn put_gap_if(line: &mut TextLine, due: bool, gap: u8)
    requires { length line.old.text + GAP ≤ SIZE }
    ensures put { line.new ≡ drawn_on line.old (spec.gap_if due gap) }
    ensures few { length line.new.text ≤ length line.old.text + GAP }
{
    if is_left(due, gap) {
        put_gap(line, gap);
    }
}

/// Whether a gap is due, and not 0.
fn is_left(due: bool, gap: u8) -> bool
    ensures { result ≡ spec.is_left due gap }
{
    due && gap != 0
}

/// Puts the status word in front of words that can't be told apart, if any, and the response times of these words.
fn put_unclear(line: &mut TextLine, view: &View<'_>, place: usize)
    requires { length line.old.text + REPLIES ≤ SIZE }
    ensures put { line.new ≡ drawn_on line.old (spec.unclear_parts place view.now) }
    ensures few { length line.new.text ≤ length line.old.text + REPLIES }
{
    let told = view.layout().commands < place;
    put_told_front(line, view, told);
    line.begin_red();
    line.put(b"words not told apart");
    line.end_red();
    put_gap_if(line, !told, view.first_gap());
    put_gap_if(line, true, view.second_gap());
}
