//! The rule that a line spells.
ghost use Rattle.judge_rules.specs.Faults.{made};
ghost use Rattle.judge_rules.specs.Lines as spec;
ghost use Rattle.judge_rules.specs.Parts.{of_these, parts_of};
ghost use Rattle.judge_rules.specs.Ranges.{AreInRange};
ghost use Rattle.std.specs.Prelude.{◌≡◌, IfOk, IfSome, option_map};

use crate::channels::{read_bus, read_channel};
use crate::checks::read_check;
use crate::fault::{RuleFault, both};
use crate::rules::{Check, Rule, Selector, Span};
use crate::selectors::read_selector;
use crate::spans::read_span;
use mil_word::Line;
use text_lines::{Words, is_comment, next_word};

/// A channel, a line of the bus and times, a selector and a check.
type Expected = (((Option<u16>, Option<Line>), Span), (Selector, Check));

/// Whether a line is passed over: it has no words, or its first begins with `#`.
pub fn is_passed_over(text: &[u8]) -> bool
    ensures { result ≡ spec.is_passed_over text.now }
{
    match next_word(text) {
        Some((word, _)) => is_comment(word),
        None => true,
    }
}

/// The rule of these parts. Condition: their numbers are in their ranges.
pub fn rule_of(
    line: u64,
    channel: Option<u16>,
    bus: Option<Line>,
    span: Span,
    selector: Selector,
    check: Check,
) -> Rule
    requires { AreInRange channel span selector check }
    ensures { parts_of result ≡ of_these line channel bus span selector check }
{
    Rule {
        line,
        channel,
        bus,
        span,
        selector,
        check,
    }
}

/// Whether no line of the bus is named, and none was to be.
fn is_any_bus(bus: &Result<Option<Line>, RuleFault>) -> bool
    ensures { result ≡ spec.is_any_bus bus.now }
{
    match bus {
        Ok(None) => true,
        Ok(Some(_)) | Err(_) => false,
    }
}

/// Whether no time is named, and none was to be.
fn is_any_time(span: &Result<Span, RuleFault>) -> bool
    ensures { result ≡ spec.is_any_time span.now }
{
    match span {
        Ok(span) => span.from.is_none() && span.to.is_none(),
        Err(_) => false,
    }
}

/// Whether a selector is that of all messages.
fn is_any_message(selector: &Result<Selector, RuleFault>) -> bool
    ensures { result ≡ spec.is_any_message selector.now }
{
    match selector {
        Ok(selector) => matches!(selector, Selector::Any),
        Err(_) => false,
    }
}

/// Whether a check is the one of whole packets.
fn is_whole(check: &Result<Check, RuleFault>) -> bool
    ensures { result ≡ spec.is_whole check.now }
{
    match check {
        Ok(check) => matches!(check, Check::Whole),
        Err(_) => false,
    }
}

/// A check where it may stand: that of whole packets has nothing in front of it but a channel and `any`.
fn fitting(
    bus: &Result<Option<Line>, RuleFault>,
    span: &Result<Span, RuleFault>,
    selector: &Result<Selector, RuleFault>,
    check: Result<Check, RuleFault>,
) -> Result<Check, RuleFault>
    ensures { result ≡ spec.fitting bus.now span.now selector.now check }
{
    if is_whole(&check) && !(is_any_bus(bus) && is_any_time(span) && is_any_message(selector)) {
        return Err(RuleFault::Word);
    }
    check
}

/// The channel, the line of the bus and the times, the selector and the check that the words behind `expect` spell.
#[tactic(auto, unfolding(crate::specs::Lines::expected_in))]
fn read_expected(words: &mut Words<'_>) -> Result<Expected, RuleFault>
    ensures { result ≡ spec.expected_in words.old }
{
    let channel = read_channel(words);
    let bus = read_bus(words);
    let span = read_span(words);
    let selector = read_selector(words);
    let check = read_check(words);
    let check = fitting(&bus, &span, &selector, check);
    both(both(both(channel, bus), span), both(selector, check))
}

/// The rule of a line's words.
#[tactic(auto, unfolding(crate::specs::Lines::rule_in))]
fn read_words(line: u64, words: &mut Words<'_>) -> Result<Rule, RuleFault>
    ensures value { made parts_of result ≡ spec.rule_in line words.old }
    ensures line { IfOk result (λ rule. rule.line ≡ line) }
{
    if !words.takes(b"expect") {
        return Err(RuleFault::Word);
    }
    let (((channel, bus), span), (selector, check)) = read_expected(words)?;
    Ok(rule_of(line, channel, bus, span, selector, check))
}

/// The rule that a line spells, with this number; `None` where the line is passed over.
#[tactic(auto, unfolding(crate::specs::Lines::said))]
pub fn read_line(line: u64, text: &[u8]) -> Option<Result<Rule, RuleFault>>
    ensures value { option_map (made parts_of) result ≡ spec.said line text.now }
    ensures line { IfSome result (λ read. IfOk read (λ rule. rule.line ≡ line)) }
{
    if is_passed_over(text) {
        return None;
    }
    Some(read_words(line, &mut Words::of(text)))
}
