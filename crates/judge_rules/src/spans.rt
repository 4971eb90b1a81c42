//! When the messages of a rule begin.
ghost use Rattle.judge_rules.specs.Spans as spec;
ghost use Rattle.std.specs.Prelude.{◌≡◌, drop};

use crate::fault::{RuleFault, both};
use crate::rules::Span;
use crate::times::read_time;
use text_lines::Words;

/// The last tick that a time may be.
const LAST_TICK: u64 = 1 << 47;

/// A time as the next word.
fn read_tick(words: &mut Words<'_>) -> Result<u64, RuleFault>
    ensures value { result ≡ spec.tick_in words.old }
    ensures rest { words.new ≡ drop 1 words.old }
{
    let Some(word) = words.next() else {
        return Err(RuleFault::Word);
    };
    match read_time(word) {
        None => Err(RuleFault::Number),
        Some(tick) if tick <= LAST_TICK => Ok(tick),
        Some(_) => Err(RuleFault::Range),
    }
}

/// A time behind a keyword, where the words begin with it.
fn read_end(words: &mut Words<'_>, keyword: &[u8]) -> Result<Option<u64>, RuleFault>
    ensures value { result ≡ spec.end_in keyword.now words.old }
    ensures rest { words.new ≡ spec.behind_end keyword.now words.old }
{
    if !words.takes(keyword) {
        return Ok(None);
    }
    match read_tick(words) {
        Ok(tick) => Ok(Some(tick)),
        Err(fault) => Err(fault),
    }
}

/// Whether a first time is not behind a last one, where there are both.
fn are_ordered(from: Option<u64>, to: Option<u64>) -> bool
    ensures { result ≡ spec.are_ordered from to }
{
    match (from, to) {
        (Some(from), Some(to)) => from <= to,
        _ => true,
    }
}

/// When the messages of a rule begin, as far as it says so.
#[tactic(auto, unfolding(crate::specs::Spans::behind_span))]
pub fn read_span(words: &mut Words<'_>) -> Result<Span, RuleFault>
    ensures value { result ≡ spec.span_in words.old }
    ensures rest { words.new ≡ spec.behind_span words.old }
{
    let from = read_end(words, b"from");
    let to = read_end(words, b"to");
    let (from, to) = both(from, to)?;
    if are_ordered(from, to) {
        Ok(Span { from, to })
    } else {
        Err(RuleFault::Range)
    }
}
