//! When a line says that something is due, and at which messages a fault is planned.
ghost use Rattle.job_file.specs.Entries.{IsWhen, IsWhich, words_of_when, words_of_which};
ghost use Rattle.job_file.specs.Spans.{IsSpan};
ghost use Rattle.job_file.specs.Whens as spec;
ghost use Rattle.job_file.specs.declared.error.LineFault.TheVariants.{Word as BadWord, Number as BadNumber};
ghost use Rattle.judge_rules.specs.Selectors.{selector_in, behind_name, behind_selector};
ghost use Rattle.judge_rules.specs.Times.{ticks_spelled};
ghost use Rattle.std.specs.Prelude.{◌≡◌, ◌≤◌, codes, drop, IfOk, IfErr};
ghost use Rattle.std.specs.Result.{result_ok};
ghost use Rattle.text_lines.specs.Readings.{IsOkOption};
ghost use Rattle.text_lines.specs.Words.{words, begins_with};

use crate::error::LineFault;
use crate::numbers::number_within;
use crate::parts::{first_word, front};
use crate::spans::Span;
use job_moments::Moment;
use judge_rules::{Selector, read_selector, read_time};
use text_lines::{Words, next_word};

/// The last tick that a time may be: 2^47.
const LAST_TICK: u64 = 140_737_488_355_328;

/// At the message of a number, or at a moment by time or by command.
#[derive(Clone, Copy)]
pub enum When {
    Number(u32),
    Moment(Moment),
}

/// The messages of these numbers, those of these places among the ones that a selector is about, or each of these that
/// starts from one tick to another.
#[derive(Clone, Copy)]
pub enum Which {
    Numbers(Span),
    Places {
        selector: Selector,
        span: Span,
    },
    Window {
        selector: Selector,
        from: u64,
        to: u64,
    },
}

/// The words of a WHEN: one, or those from a selector on, and the word behind `nth`.
#[derive(Clone, Copy)]
pub enum WhenText<'a> {
    Word(&'a [u8]),
    Command { selector: &'a [u8], place: &'a [u8] },
}

/// The words that say which messages; those from a selector on, where there is one.
#[derive(Clone, Copy)]
pub enum WhichText<'a> {
    Numbers(&'a [u8], &'a [u8], &'a [u8]),
    Places {
        selector: &'a [u8],
        first: &'a [u8],
        last: &'a [u8],
        step: &'a [u8],
    },
    Window {
        selector: &'a [u8],
        from: &'a [u8],
        to: &'a [u8],
    },
}

/// Whether a selector begins with the word.
fn names_selector(word: &[u8]) -> bool
    ensures { result ≡ spec.names_selector word.now }
{
    word == b"any".as_slice()
        || word == b"rx".as_slice()
        || word == b"tx".as_slice()
        || word == b"rt".as_slice()
        || word == b"mode".as_slice()
        || word == b"brx".as_slice()
        || word == b"brt".as_slice()
        || word == b"bmode".as_slice()
}

/// Whether the text begins with a selector.
fn is_selector(text: &[u8]) -> bool
    ensures { result ≡ spec.is_selector (words text.now) }
{
    match next_word(text) {
        Some((word, _)) => names_selector(word),
        None => false,
    }
}

/// What is left behind a first word, if there is one.
fn behind_one(text: &[u8]) -> &[u8]
    ensures { words result.now ≡ drop 1 (words text.now) }
{
    match next_word(text) {
        Some((_, rest)) => rest,
        None => text,
    }
}

/// What is left behind two words, as far as there are so many.
fn behind_two(text: &[u8]) -> &[u8]
    ensures { words result.now ≡ drop 2 (words text.now) }
{
    behind_one(behind_one(text))
}

/// What is left behind the numbers of a selector of this name.
#[tactic(auto, unfolding(judge_rules::specs::Selectors::behind_ends))]
fn behind_numbers<'a>(name: &[u8], rest: &'a [u8]) -> &'a [u8]
    ensures { words result.now ≡ behind_name name.now (words rest.now) }
{
    if name == b"any".as_slice() {
        rest
    } else if name == b"rx".as_slice() || name == b"tx".as_slice() || name == b"mode".as_slice() {
        behind_two(rest)
    } else if name == b"rt".as_slice() {
        behind_two(behind_two(rest))
    } else if name == b"brx".as_slice() || name == b"bmode".as_slice() {
        behind_one(rest)
    } else if name == b"brt".as_slice() {
        behind_one(behind_two(rest))
    } else {
        rest
    }
}

/// What is left behind a selector.
fn behind_selector(text: &[u8]) -> &[u8]
    ensures { words result.now ≡ behind_selector (words text.now) }
{
    match next_word(text) {
        Some((name, rest)) => behind_numbers(name, rest),
        None => text,
    }
}

/// What is left behind a word that has to be this one.
#[tactic(auto, unfolding(crate::specs::Whens::behind_word))]
fn behind_word<'a>(word: &[u8], text: &'a [u8]) -> Result<&'a [u8], LineFault>
    ensures value { IsOkOption (λ x. words x.now) result (spec.behind_word word.now (words text.now)) }
    ensures words { IfErr result (λ f. f ≡ BadWord) }
{
    let (first, rest) = first_word(text)?;
    if first == word {
        Ok(rest)
    } else {
        Err(LineFault::Word)
    }
}

/// The words of a WHEN, and what stands behind them.
#[tactic(auto, unfolding(crate::specs::Whens::when_words))]
pub fn when_words(text: &[u8]) -> Result<(WhenText<'_>, &[u8]), LineFault>
    ensures value { IsOkOption (λ x. (words_of_when x.0, words x.1.now)) result (spec.when_words (words text.now)) }
    ensures words { IfErr result (λ f. f ≡ BadWord) }
{
    if is_selector(text) {
        let rest = behind_word(b"nth", behind_selector(text))?;
        let (place, rest) = first_word(rest)?;
        let words = WhenText::Command {
            selector: text,
            place,
        };
        return Ok((words, rest));
    }
    let (word, rest) = first_word(text)?;
    Ok((WhenText::Word(word), rest))
}

/// The selector with which a text begins.
fn selector(text: &[u8]) -> Result<Selector, LineFault>
    ensures value { IsOkOption (λ s. s) result (result_ok (selector_in (words text.now))) }
    ensures fault { IfErr result (λ f. f ≡ BadNumber) }
{
    match read_selector(&mut Words::of(text)) {
        Ok(selector) => Ok(selector),
        Err(_) => Err(LineFault::Number),
    }
}

/// A tick that is at most 2^47.
fn tick(ticks: u64) -> Result<u64, LineFault>
    ensures value { IsOkOption (λ t. t) result (spec.tick_of ticks) }
    ensures fault { IfErr result (λ f. f ≡ BadNumber) }
{
    if ticks <= LAST_TICK {
        Ok(ticks)
    } else {
        Err(LineFault::Number)
    }
}

/// The tick that a time is.
#[tactic(auto, unfolding(crate::specs::Whens::time_of))]
fn time(word: &[u8]) -> Result<u64, LineFault>
    ensures value { IsOkOption (λ t. t) result (spec.time_of word.now) }
    ensures fault { IfErr result (λ f. f ≡ BadNumber) }
{
    match read_time(word) {
        Some(ticks) => tick(ticks),
        None => Err(LineFault::Number),
    }
}

/// A time, or else a number from `low` to `high`.
fn time_or_number(word: &[u8], low: u32, high: u32) -> Result<When, LineFault>
    ensures value { IsOkOption (λ w. w) result (spec.time_or_number low high word.now (ticks_spelled word.now)) }
    ensures range { IfOk result (λ w. IsWhen low high w) }
    ensures fault { IfErr result (λ f. f ≡ BadNumber) }
{
    match read_time(word) {
        Some(ticks) => Ok(When::Moment(Moment::Time(tick(ticks)?))),
        None => Ok(When::Number(number_within(word, low, high)?)),
    }
}

/// The WHEN of these words, where a number is from `low` to `high`.
#[tactic(auto, unfolding(crate::specs::Whens::when_of))]
pub fn read_when(text: WhenText<'_>, low: u32, high: u32) -> Result<When, LineFault>
    ensures value { IsOkOption (λ w. w) result (spec.when_of low high (words_of_when text.entry)) }
    ensures range { IfOk result (λ w. IsWhen low high w) }
    ensures fault { IfErr result (λ f. f ≡ BadNumber) }
{
    match text {
        WhenText::Word(word) => time_or_number(word, low, high),
        WhenText::Command {
            selector: words,
            place,
        } => {
            let selector = selector(words)?;
            let place = number_within(place, 1, 1_000_000)?;
            Ok(When::Moment(Moment::Nth { selector, place }))
        }
    }
}

/// The two times behind `from` and `to`, and what stands behind them.
#[tactic(auto, unfolding(crate::specs::Whens::window_words))]
fn window_words(text: &[u8]) -> Result<((&[u8], &[u8]), &[u8]), LineFault>
    ensures value { IsOkOption (λ x. ((x.0.0.now, x.0.1.now), words x.1.now)) result
        (spec.window_words (words text.now)) }
    ensures words { IfErr result (λ f. f ≡ BadWord) }
{
    let (from, rest) = first_word(behind_word(b"from", text)?)?;
    let (to, rest) = first_word(behind_word(b"to", rest)?)?;
    Ok(((from, to), rest))
}

/// Whether the text begins with `from`.
fn is_window(text: &[u8]) -> bool
    ensures { result ≡ begins_with (codes "from") (words text.now) }
{
    match next_word(text) {
        Some((word, _)) => word == b"from".as_slice(),
        None => false,
    }
}

/// The words that say which messages, and what stands behind them.
#[tactic(auto, unfolding(crate::specs::Whens::which_words))]
pub fn which_words(text: &[u8]) -> Result<(WhichText<'_>, &[u8]), LineFault>
    ensures value { IsOkOption (λ x. (words_of_which x.0, words x.1.now)) result (spec.which_words (words text.now)) }
    ensures words { IfErr result (λ f. f ≡ BadWord) }
{
    if !is_selector(text) {
        let (first, last, step, rest) = front(text)?;
        return Ok((WhichText::Numbers(first, last, step), rest));
    }
    let behind = behind_selector(text);
    if is_window(behind) {
        let ((from, to), rest) = window_words(behind)?;
        let words = WhichText::Window {
            selector: text,
            from,
            to,
        };
        return Ok((words, rest));
    }
    let (first, last, step, rest) = front(behind)?;
    let words = WhichText::Places {
        selector: text,
        first,
        last,
        step,
    };
    Ok((words, rest))
}

/// The messages, or the places of messages, of three words: the first, the last, and the step.
#[tactic(auto, unfolding(crate::specs::Whens::span_of))]
pub fn span(first: &[u8], last: &[u8], step: &[u8]) -> Result<Span, LineFault>
    ensures value { IsOkOption (λ s. s) result (spec.span_of (first.now, last.now, step.now)) }
    ensures range { IfOk result IsSpan }
    ensures fault { IfErr result (λ f. f ≡ BadNumber) }
{
    let first = number_within(first, 1, 1_000_000)?;
    let last = number_within(last, first, 1_000_000)?;
    let step = number_within(step, 1, 1_000_000)?;
    Ok(Span { first, last, step })
}

/// The messages of these words.
#[tactic(auto, unfolding(crate::specs::Whens::which_of))]
pub fn read_which(text: WhichText<'_>) -> Result<Which, LineFault>
    ensures value { IsOkOption (λ w. w) result (spec.which_of (words_of_which text.entry)) }
    ensures range { IfOk result IsWhich }
    ensures fault { IfErr result (λ f. f ≡ BadNumber) }
{
    match text {
        WhichText::Numbers(first, last, step) => Ok(Which::Numbers(span(first, last, step)?)),
        WhichText::Places {
            selector: words,
            first,
            last,
            step,
        } => {
            let selector = selector(words)?;
            let span = span(first, last, step)?;
            Ok(Which::Places { selector, span })
        }
        WhichText::Window {
            selector: words,
            from,
            to,
        } => {
            let selector = selector(words)?;
            let from = time(from)?;
            let to = time(to)?;
            if from <= to {
                Ok(Which::Window { selector, from, to })
            } else {
                Err(LineFault::Number)
            }
        }
    }
}
