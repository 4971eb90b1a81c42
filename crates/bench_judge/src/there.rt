//! What a message has of what a rule asks of it.
ghost use Rattle.bench_judge.specs.Told as spec;
ghost use Rattle.std.specs.Prelude.{◌≡◌, ◌++◌, OnOk};

use crate::checks::{data_word, step_from};
use crate::digits::{put_word, put_words};
use crate::numbers::put_number;
use ch11_layout::View;
use judge_rules::Check;
use std::alloc::AllocError;

/// How many ticks of 0.1 µs a microsecond has.
const TICKS: u64 = 10;

/// Appends words behind what they are, or that there is none.
fn put_named(text: &mut Vec<u8>, name: &[u8], words: &[u16]) -> Result<(), AllocError>
    ensures { OnOk result (text.new.items ≡ text.old.items ++ spec.words_told name.now words.now) }
{
    match words.split_first() {
        None => {
            text.extend_from_slice(b"no ")?;
            text.extend_from_slice(name)
        }
        Some(_) => {
            text.extend_from_slice(name)?;
            put_words(text, words)
        }
    }
}

/// Appends the block status word and the gap times word of a message.
#[tactic(auto, unfolding(crate::specs::Told::block_told))]
fn put_block(text: &mut Vec<u8>, view: &View<'_>) -> Result<(), AllocError>
    ensures { OnOk result (text.new.items ≡ text.old.items ++ spec.block_told view.now) }
{
    text.extend_from_slice(b"block")?;
    put_word(text, view.block())?;
    text.extend_from_slice(b" gaps")?;
    put_word(text, view.gaps())
}

/// Appends the status words of a message, or that there is none.
fn put_statuses(text: &mut Vec<u8>, view: &View<'_>) -> Result<(), AllocError>
    ensures { OnOk result (text.new.items ≡ text.old.items ++ spec.statuses_told view.now) }
{
    let found = view.statuses();
    put_named(text, b"status", found.as_slice())
}

/// Appends the data words of a message, or that there is none.
fn put_data(text: &mut Vec<u8>, view: &View<'_>) -> Result<(), AllocError>
    ensures { OnOk result (text.new.items ≡ text.old.items ++ spec.data_words_told view.now) }
{
    let count = view.data_count();
    if count == 0 {
        return text.extend_from_slice(b"no data");
    }
    text.extend_from_slice(b"data")?;
    let start = view.layout().data_start;
    'words: for place in 0..count {
        put_word(text, view.word(start + place))?;
    }
    Ok(())
}

/// Appends the gap of a reply that came.
fn put_gap(text: &mut Vec<u8>, gap: u8) -> Result<(), AllocError>
    ensures { OnOk result (text.new.items ≡ text.old.items ++ spec.gap_told gap) }
{
    if gap == 0 {
        return Ok(());
    }
    put_number(text, b" ", u64::from(gap))
}

/// Appends the gaps of the replies of a message, or that there is none.
#[tactic(auto, unfolding(crate::specs::Told::response_told))]
fn put_response(text: &mut Vec<u8>, view: &View<'_>) -> Result<(), AllocError>
    ensures { OnOk result (text.new.items ≡ text.old.items ++ spec.response_told view.now) }
{
    let (first, second) = (view.first_gap(), view.second_gap());
    if first == 0 && second == 0 {
        return text.extend_from_slice(b"no response");
    }
    text.extend_from_slice(b"response")?;
    put_gap(text, first)?;
    put_gap(text, second)
}

/// Appends ticks as microseconds.
#[tactic(auto, unfolding(crate::specs::Told::micros_told))]
fn put_micros(text: &mut Vec<u8>, ticks: u64) -> Result<(), AllocError>
    ensures { OnOk result (text.new.items ≡ text.old.items ++ spec.micros_told ticks) }
{
    put_number(text, b"", ticks / TICKS)?;
    put_number(text, b".", ticks % TICKS)
}

/// Appends the time from a stamp to that of a message.
fn put_period(text: &mut Vec<u8>, before: Option<u64>, view: &View<'_>) -> Result<(), AllocError>
    ensures { OnOk result (text.new.items ≡ text.old.items ++ spec.period_told before view.now) }
{
    let Some(before) = before else {
        return text.extend_from_slice(b"no time");
    };
    let stamp = view.stamp();
    if !view.has_time() {
        text.extend_from_slice(b"no time")
    } else if before <= stamp {
        text.extend_from_slice(b"period ")?;
        put_micros(text, stamp - before)
    } else {
        text.extend_from_slice(b"a stamp that falls")
    }
}

/// Appends which of the data words a check is about.
#[tactic(auto, unfolding(crate::specs::Told::place_told))]
fn put_place(text: &mut Vec<u8>, place: u8) -> Result<(), AllocError>
    ensures { OnOk result (text.new.items ≡ text.old.items ++ spec.place_told place) }
{
    put_number(text, b"word ", u64::from(place))
}

/// Appends a data word, or that there is none.
fn put_data_word(text: &mut Vec<u8>, place: u8, word: Option<u16>) -> Result<(), AllocError>
    ensures { OnOk result (text.new.items ≡ text.old.items ++ spec.data_word_told place word) }
{
    match word {
        None => {
            text.extend_from_slice(b"no ")?;
            put_place(text, place)
        }
        Some(word) => {
            put_place(text, place)?;
            put_word(text, word)
        }
    }
}

/// Appends a data word, and by how much it is more than the one before it.
fn put_step(
    text: &mut Vec<u8>,
    place: u8,
    before: Option<u64>,
    word: Option<u16>,
) -> Result<(), AllocError>
    ensures { OnOk result (text.new.items ≡ text.old.items ++ spec.step_told place before word) }
{
    put_data_word(text, place, word)?;
    match (before, word) {
        (Some(before), Some(word)) => {
            text.extend_from_slice(b" step")?;
            put_word(text, step_from(before, word))
        }
        _ => Ok(()),
    }
}

/// Appends what a message has of what a check asks of it; the message before it had this of what is compared.
pub(crate) fn put_there(
    text: &mut Vec<u8>,
    check: &Check,
    before: Option<u64>,
    view: &View<'_>,
) -> Result<(), AllocError>
    ensures { OnOk result (text.new.items ≡ text.old.items ++ spec.was_there check.now before view.now) }
{
    match check {
        Check::Sound | Check::Failed | Check::Clean => put_block(text, view),
        Check::Status(_) => put_statuses(text, view),
        Check::Data(_) => put_data(text, view),
        Check::Response(_) => put_response(text, view),
        Check::Period(_) => put_period(text, before, view),
        Check::DataWord(range) => put_data_word(text, range.place, data_word(range.place, view)),
        Check::DataStep(range) => {
            put_step(text, range.place, before, data_word(range.place, view))
        }
        Check::Count(_) | Check::CountOf { .. } | Check::Whole => Ok(()),
    }
}
