//! The rules that a text spells, which may name signals.
ghost use Rattle.judge_rules.specs.Faults as faults;
ghost use Rattle.judge_rules.specs.Faults.{made};
ghost use Rattle.judge_rules.specs.Lines.{behind_channel, channel_in, from_selector};
ghost use Rattle.judge_rules.specs.Ranges.{IsCheck, IsChoice, IsSpan};
ghost use Rattle.judge_rules.specs.Spans.{behind_end, behind_span, span_in};
ghost use Rattle.signal_judge.specs.Asked.{with_wanted};
ghost use Rattle.signal_judge.specs.Rules as spec;
ghost use Rattle.signal_judge.specs.Taking as taking;
ghost use Rattle.std.specs.Option.{option_copied};
ghost use Rattle.std.specs.Prelude.{◌≡◌, ◌+◌, ◌<◌, ◌≤◌, ◌^◌, ◌∷◌, [], true, IfErr, IfOk, IfSome, OnOk, option_map};
ghost use Rattle.std.specs.Str.{bytes_eq};
ghost use Rattle.text_lines.specs.Lines.{text_lines};
ghost use Rattle.text_lines.specs.Words.{Text, words};

use crate::asked::read_asked;
use crate::rules::{AllRules, Asked, SignalRule};
use judge_rules::{
    Check, Rule, RuleError, RuleFault, Span, both, is_passed_over, read_bus, read_channel,
    read_line, read_span, rule_of,
};
use mil_word::Line;
use signal_dictionary::Signal;
use std::alloc::Global;
use text_lines::{Words, next_line};

/// How many rules a text may have.
const MOST_RULES: usize = 10_000;

/// What stands in front of `signal`: perhaps a channel, perhaps a line of the bus, perhaps times.
type Place = ((Option<u16>, Option<Line>), Span);

/// A signal, and what is asked of it.
type What<'d> = (&'d Signal, (Asked, Check));

/// What a line spells.
#[derive(Drop)]
enum Spelled<'d> {
    Plain(Rule),
    OfSignal(SignalRule<'d>),
}

/// Whether a signal has this name.
fn is_named(signal: &Signal, name: &[u8]) -> bool
    ensures { result ≡ bytes_eq signal.now.name.bytes.items name.now }
{
    signal.name.bytes.as_slice() == name
}

/// The first signal of this name, if there is one.
fn signal_named<'d>(signals: &'d [Signal], name: &[u8]) -> Option<&'d Signal>
    ensures { option_copied result ≡ spec.named signals.now name.now }
{
    for signal in signals {
        if is_named(signal, name) {
            return Some(signal);
        }
    }
    None
}

/// Whether a line has `signal` in the place of a selector.
#[tactic(auto, unfolding(judge_rules::specs::Spans::behind_span))]
fn is_of_signal(text: &[u8]) -> bool
    ensures { result ≡ spec.is_of_signal (words text.now) }
{
    let mut words = Words::of(text);
    if !words.takes(b"expect") {
        return false;
    }
    pass(&mut words, b"channel");
    pass(&mut words, b"line");
    pass(&mut words, b"from");
    pass(&mut words, b"to");
    words.takes(b"signal")
}

/// Passes over a word and the one behind it, where it comes next.
fn pass(words: &mut Words<'_>, keyword: &[u8])
    ensures { words.new ≡ behind_end keyword.now words.old }
{
    if !words.takes(keyword) {
        return;
    }
    // Where the line ends here, whoever reads the word says so.
    let _value = words.next();
}

/// The channel, where one comes next.
fn channel_of(words: &mut Words<'_>) -> Result<Option<u16>, RuleFault>
    ensures value { result ≡ channel_in words.old }
    ensures rest { words.new ≡ behind_channel words.old }
    ensures range { IfOk result (IsChoice 1 65535) }
{
    read_channel(words)
}

/// The times, where any come next.
fn times_of(words: &mut Words<'_>) -> Result<Span, RuleFault>
    ensures value { result ≡ span_in words.old }
    ensures rest { words.new ≡ behind_span words.old }
    ensures range { IfOk result IsSpan }
{
    read_span(words)
}

/// These in front of `signal`.
fn place_of(
    channel: Result<Option<u16>, RuleFault>,
    bus: Result<Option<Line>, RuleFault>,
    span: Result<Span, RuleFault>,
) -> Result<Place, RuleFault>
    requires channel { IfOk channel (IsChoice 1 65535) }
    requires span { IfOk span IsSpan }
    ensures value { result ≡ faults.both (faults.both channel bus) span }
    ensures ranges { IfOk result (λ place. IsChoice 1 65535 place.0.0 × IsSpan place.1) }
{
    let place = both(channel, bus);
    both(place, span)
}

/// What stands in front of `signal`.
fn read_place(words: &mut Words<'_>) -> Result<Place, RuleFault>
    ensures value { result ≡ spec.place_in words.old }
    ensures rest { words.new ≡ from_selector words.old }
    ensures ranges { IfOk result (λ place. IsChoice 1 65535 place.0.0 × IsSpan place.1) }
{
    let channel = channel_of(words);
    let bus = read_bus(words);
    let span = times_of(words);
    place_of(channel, bus, span)
}

/// A signal, which the dictionary has to have.
fn known(signal: Option<&Signal>) -> Result<&Signal, RuleFault>
    ensures { made (λ found. found.now) result ≡ spec.known (option_copied signal.entry) }
{
    match signal {
        Some(signal) => Ok(signal),
        None => Err(RuleFault::Range),
    }
}

/// A signal, and what is asked of it.
fn what_of<'d>(
    signal: Option<&'d Signal>,
    asked: Result<(Asked, Check), RuleFault>,
) -> Result<What<'d>, RuleFault>
    requires { IfOk asked (λ asked. IsCheck asked.1) }
    ensures value { made spec.what_of result
        ≡ faults.both (spec.known (option_copied signal.entry)) (made with_wanted asked) }
    ensures check { IfOk result (λ what. IsCheck what.1.1) }
{
    let found = known(signal);
    both(found, asked)
}

/// The signal that the next word names, and what the words behind it ask of it.
fn read_what<'d>(words: &mut Words<'_>, signals: &'d [Signal]) -> Result<What<'d>, RuleFault>
    ensures value { made spec.what_of result ≡ spec.what_in signals.now words.old }
    ensures check { IfOk result (λ what. IsCheck what.1.1) }
{
    let Some(name) = words.next() else {
        return Err(RuleFault::Word);
    };
    let signal = signal_named(signals, name);
    let asked = read_asked(words, signal);
    what_of(signal, asked)
}

/// The rule of these parts. Conditions: the channel, the times and the numbers of the check are in their ranges.
fn signal_rule<'d>(line: u64, place: Place, what: What<'d>) -> SignalRule<'d>
    requires place { IsChoice 1 65535 place.0.0 × IsSpan place.1 }
    requires check { IsCheck what.1.1 }
    ensures parts { spec.signal_parts result ≡ spec.with_line line (place, spec.what_of what.entry) }
    ensures line { result.rule.line ≡ line }
{
    let ((channel, bus), span) = place;
    let (signal, (asked, check)) = what;
    SignalRule {
        rule: rule_of(line, channel, bus, span, signal.selector, check),
        signal,
        asked,
    }
}

/// The rule of what was read.
fn rule_from<'d>(
    line: u64,
    place: Result<Place, RuleFault>,
    what: Result<What<'d>, RuleFault>,
) -> Result<SignalRule<'d>, RuleFault>
    requires place { IfOk place (λ place. IsChoice 1 65535 place.0.0 × IsSpan place.1) }
    requires check { IfOk what (λ what. IsCheck what.1.1) }
    ensures value { made spec.signal_parts result
        ≡ made (spec.with_line line) (faults.both place (made spec.what_of what.entry)) }
    ensures line { IfOk result (λ rule. rule.rule.line ≡ line) }
{
    match both(place, what) {
        Ok((place, what)) => Ok(signal_rule(line, place, what)),
        Err(fault) => Err(fault),
    }
}

/// The rule of a line that has `signal` in the place of a selector.
#[tactic(auto, unfolding(crate::specs::Rules::signal_rule_in))]
fn read_signal_line<'d>(
    line: u64,
    text: &[u8],
    signals: &'d [Signal],
) -> Result<SignalRule<'d>, RuleFault>
    requires { spec.is_of_signal (words text.now) ≡ true }
    ensures value { made spec.signal_parts result ≡ spec.signal_rule_in signals.now line (words text.now) }
    ensures line { IfOk result (λ rule. rule.rule.line ≡ line) }
{
    let mut words = Words::of(text);
    // (both words are there, since the line is one about a signal)
    let _expect = words.takes(b"expect");
    let place = read_place(&mut words);
    let _signal = words.takes(b"signal");
    let what = read_what(&mut words, signals);
    rule_from(line, place, what)
}

/// The rule that a line spells, with this number; `None` where the line is passed over.
#[tactic(auto, unfolding(crate::specs::Rules::said, judge_rules::specs::Lines::said))]
fn read_any<'d>(
    line: u64,
    text: &[u8],
    signals: &'d [Signal],
) -> Option<Result<Spelled<'d>, RuleFault>>
    ensures value { option_map (made taking.any_of) result ≡ spec.said signals.now line text.now }
    ensures line { IfSome result (λ read. IfOk read (λ rule. spec.line_of (taking.any_of rule) ≡ line)) }
{
    if is_passed_over(text) {
        return None;
    }
    if is_of_signal(text) {
        return match read_signal_line(line, text, signals) {
            Ok(rule) => Some(Ok(Spelled::OfSignal(rule))),
            Err(fault) => Some(Err(fault)),
        };
    }
    match read_line(line, text)? {
        Ok(rule) => Some(Ok(Spelled::Plain(rule))),
        Err(fault) => Some(Err(fault)),
    }
}

impl<'d> AllRules<'d> {
    /// No rule.
    fn none(alloc: Global) -> AllRules<'d>
        ensures plain { result.plain.items ≡ [] }
        ensures signals { result.signals.items ≡ [] }
    {
        AllRules {
            plain: Vec::new(alloc),
            signals: Vec::new(alloc),
        }
    }

    /// How many rules there are.
    pub fn count(&self) -> usize
        ensures { taking.many self.now < 2 ^ 64 → result ≡ taking.many self.now }
    {
        self.plain.len().saturating_add(self.signals.len())
    }

    /// One more rule; answers whether there was memory for it.
    fn take(&mut self, rule: Spelled<'d>) -> bool
        ensures { result ≡ true → taking.IsTaken self.old rule.entry self.new }
    {
        match rule {
            Spelled::Plain(rule) => match self.plain.push(rule) {
                Ok(()) => true,
                Err(_) => false,
            },
            Spelled::OfSignal(rule) => match self.signals.push(rule) {
                Ok(()) => true,
                Err(_) => false,
            },
        }
    }
}

/// Takes the rule of a line, if it spells one.
fn take_line<'d>(
    rules: &mut AllRules<'d>,
    line: u64,
    first: &[u8],
    signals: &'d [Signal],
) -> Result<(), RuleError>
    requires { taking.many rules.old ≤ 10000 }
    ensures read { (text : Text) → (rest : Text) → (behind : Text)
        → taking.IsReading signals.now text rules.old line rest → text_lines rest ≡ first.now ∷ text_lines behind
        → OnOk result (taking.IsReading signals.now text rules.new (line + 1) behind) }
    ensures few { OnOk result (taking.many rules.new ≤ 10000) }
    ensures fault { (text : Text) → (rest : Text) → (behind : Text)
        → taking.IsReading signals.now text rules.old line rest → text_lines rest ≡ first.now ∷ text_lines behind
        → IfErr result (λ e. spec.IsFaultOf e (spec.rules_in signals.now text)) }
{
    match read_any(line, first, signals) {
        None => Ok(()),
        Some(Err(fault)) => Err(RuleError { fault, line }),
        Some(Ok(rule)) => take_rule(rules, rule, line),
    }
}

/// Takes the rule of a line, unless there are as many as may be.
fn take_rule<'d>(rules: &mut AllRules<'d>, rule: Spelled<'d>, line: u64) -> Result<(), RuleError>
    requires { taking.many rules.old ≤ 10000 }
    ensures taken { OnOk result (taking.IsTaken rules.old rule.entry rules.new × (taking.many rules.old + 1 ≤ 10000)) }
    ensures fault { IfErr result (λ e. taking.IsRefused e line rules.old) }
{
    let found = rules.count();
    let full = found >= MOST_RULES;
    if full {
        return Err(RuleError {
            fault: RuleFault::Range,
            line,
        });
    }
    let taken = rules.take(rule);
    if taken {
        Ok(())
    } else {
        Err(RuleError {
            fault: RuleFault::Memory,
            line,
        })
    }
}

/// The rules that a text spells, which may name these signals: a rule's selector may be `signal NAME`, and behind it
/// the check may be `value LOW HIGH`, of a signal with names `value LABEL`, or `step MOST`. Else its first fault, as
/// that of other rules: a check that stands behind no signal, or behind none of its kind, is I1, a word that is no
/// decimal I2, and bounds that are turned, a step below zero and a name that no signal has are I3. Want of memory is
/// answered at the line of the rule for which it was refused.
pub fn read_all_rules<'d>(
    alloc: Global,
    text: &[u8],
    signals: &'d [Signal],
) -> Result<AllRules<'d>, RuleError>
    ensures rules { IfOk result (λ rules. spec.AreRules rules (spec.rules_in signals.now text.now)) }
    ensures fault { IfErr result (λ e. spec.IsFaultOf e (spec.rules_in signals.now text.now)) }
{
    let mut rules = AllRules::none(alloc);
    let mut rest = text;
    let mut line = 1u64;
    'lines: while let Some((first, behind)) = next_line(rest) {
        match take_line(&mut rules, line, first, signals) {
            Ok(()) => {}
            Err(error) => return Err(error),
        }
        rest = behind;
        line += 1;
    }
    let found = rules.count();
    let empty = found == 0;
    if empty {
        return Err(RuleError {
            fault: RuleFault::Word,
            line,
        });
    }
    Ok(rules)
}
