//! The verdict of a rule about a signal while the recording is passed.
ghost use Rattle.bench_judge.specs.Clean.{IsKnown};
ghost use Rattle.bench_judge.specs.Selection.{Origins};
ghost use Rattle.bench_judge.specs.Verdicts.{IsVerdictWith};
ghost use Rattle.bench_select.specs.Signals as signals;
ghost use Rattle.bench_select.specs.Viewed.{Viewed};
ghost use Rattle.signal_judge.specs.Tallies.{IsTally};
ghost use Rattle.signal_judge.specs.Verdicts as spec;
ghost use Rattle.signal_values.specs.Amounts.{number_of};
ghost use Rattle.signal_values.specs.Readings.{value_of};
ghost use Rattle.std.specs.HashMap.{get};
ghost use Rattle.std.specs.Prelude.{◌≡◌, ◌&&◌, ◌+◌, ◌<◌, ◌^◌, ◌∷◌, ◌==◌, [], ℕ, nat_eq, not, true};
ghost use Rattle.std.specs.Prelude.{if◌then◌else◌, option_map, List, None, Some, length, OnOk, IfOk};

use crate::rules::{Asked, SignalRule};
use bench_judge::{RuleVerdict, Tally, verdict_of};
use bench_select::{is_in_span, is_of, is_on, value_in};
use ch11_layout::View;
use judge_rules::Rule;
use signal_dictionary::Kind;
use signal_values::{Amount, Reading, put_reading};
use std::alloc::{AllocError, Global};
use std::collections::HashMap;

/// How many messages a rule selects so far and how many of them miss it, the newest number of each channel, and room
/// for a text.
#[derive(Drop)]
pub struct SignalTally {
    /// What the check of the rule comes to, or how many messages were selected and missed.
    plain: Tally,
    latest: HashMap<u16, Amount>,
    text: Vec<u8>,
}

/// What the next message of a channel is compared with: by a check of messages, and by a step.
#[derive(Clone, Copy)]
pub(crate) struct Before {
    pub(crate) compared: Option<u64>,
    pub(crate) number: Option<Amount>,
}

/// The number that a value is, if it is one.
fn amount_of(value: Reading) -> Option<Amount>
    ensures { option_map number_of result ≡ spec.number_if (Some (value_of value)) }
{
    match value {
        Reading::Number(number) => Some(number),
        Reading::Nothing | Reading::Named(_) => None,
    }
}

/// Whether a value is a number in these bounds.
fn is_between(low: Amount, value: Reading, high: Amount) -> bool
    ensures { result ≡ spec.is_between low high (spec.number_if (Some (value_of value))) }
{
    match value {
        Reading::Number(number) => low.is_at_most(number) && number.is_at_most(high),
        Reading::Nothing | Reading::Named(_) => false,
    }
}

/// Whether a number differs from the one before by at most so much, where there is one.
fn is_within(most: Amount, before: Option<Amount>, number: Amount) -> bool
    ensures { result ≡ spec.is_within most (option_map number_of before) (number_of number) }
{
    match before {
        Some(before) => number.differs_by_at_most(before, most),
        None => true,
    }
}

/// Whether a message of a channel is one of the channel, the line and the times of a rule.
fn is_here(rule: &Rule, origins: &[Option<u64>], channel: u16, view: &View<'_>) -> bool
    ensures { result ≡ spec.is_here rule.now origins.now channel view.now }
{
    is_of(rule.channel, channel)
        && is_on(rule.bus, view)
        && is_in_span(rule.span, origins, channel, view)
}

/// The value of the signal in a message of a channel, if the rule selects the message.
pub(crate) fn value_selected(
    rule: &SignalRule<'_>,
    origins: &[Option<u64>],
    channel: u16,
    view: &View<'_>,
) -> Option<Reading>
    ensures { option_map value_of result ≡ (if spec.is_here rule.now.rule origins.now channel view.now
        then signals.value_in rule.now.signal.now channel view.now else None) }
{
    let here = is_here(&rule.rule, origins, channel, view);
    if here {
        value_in(rule.signal, channel, view)
    } else {
        None
    }
}

impl SignalTally {
    /// No message yet.
    pub(crate) fn new(alloc: Global) -> SignalTally
        ensures { (r : SignalRule) → (origins : Origins) → IsTally r origins [] result }
    {
        SignalTally {
            plain: Tally::new(alloc),
            latest: HashMap::new(alloc),
            text: Vec::new(alloc),
        }
    }

    /// What the next message of a channel is compared with.
    pub(crate) fn before(&self, channel: u16) -> Before {
        let number = match self.latest.get(&channel) {
            Some(number) => Some(*number),
            None => None,
        };
        Before {
            compared: self.plain.before(channel),
            number,
        }
    }

    /// Whether a value is told by a text.
    fn is_told(&mut self, kind: &Kind, value: Reading, text: &[u8]) -> Result<bool, AllocError>
        ensures told { IfOk result (λ told. told ≡ spec.is_told text.now kind.now (Some (value_of value))) }
        ensures plain { self.new.plain ≡ self.old.plain }
        ensures latest { self.new.latest ≡ self.old.latest }
    {
        self.text.clear();
        put_reading(&mut self.text, kind, value)?;
        Ok(self.text.as_slice() == text)
    }

    /// Whether a value differs from the newest of its channel by at most so much; from now on it is the newest.
    fn is_step(&mut self, channel: u16, value: Reading, most: Amount) -> Result<bool, AllocError>
        ensures step { IfOk result (λ step. step ≡ spec.is_step most
            (option_map number_of (get nat_eq self.old.latest channel)) (spec.number_if (Some (value_of value)))) }
        ensures plain { self.new.plain ≡ self.old.plain }
        ensures latest { OnOk result ((c : ℕ) → option_map number_of (get nat_eq self.new.latest c)
            ≡ (if channel == c then spec.first_number (spec.number_if (Some (value_of value)))
            (option_map number_of (get nat_eq self.old.latest c))
            else option_map number_of (get nat_eq self.old.latest c))) }
    {
        let Some(number) = amount_of(value) else {
            return Ok(false);
        };
        let before = self.latest.insert(channel, number)?;
        Ok(is_within(most, before, number))
    }

    /// Counts a message that was selected, which meets what is asked or misses it; answers whether it misses it.
    fn count(&mut self, met: bool) -> bool
        ensures missed { result ≡ not met }
        ensures kinds { self.new.plain.counted ≡ self.old.plain.counted }
        ensures selected { self.old.plain.selected + 1 < 2 ^ 64
            → self.new.plain.selected ≡ self.old.plain.selected + 1 }
        ensures counted { self.old.plain.missed + 1 < 2 ^ 64
            → self.new.plain.missed ≡ self.old.plain.missed + (if met then 0 else 1) }
        ensures latest { self.new.latest ≡ self.old.latest }
    {
        self.plain.selected = self.plain.selected.saturating_add(1);
        if !met {
            self.plain.missed = self.plain.missed.saturating_add(1);
        }
        !met
    }

    /// One more message that the rule selects, with the value of the signal in it; answers whether it misses the rule.
    pub(crate) fn note_value(
        &mut self,
        rule: &SignalRule<'_>,
        origins: &[Option<u64>],
        channel: u16,
        value: Reading,
        view: &View<'_>,
        known: &mut Option<bool>,
    ) -> Result<bool, AllocError>
        requires known { IsKnown known.old view.now }
        requires selected { spec.selects rule.now origins.now channel view.now ≡ true }
        requires value { signals.value_in rule.now.signal.now channel view.now ≡ Some (value_of value) }
        ensures known { IsKnown known.new view.now }
        ensures told { (history : List Viewed) → IsTally rule.now origins.now history self.old
            → IfOk result (λ told. told ≡ not (spec.meets rule.now origins.now history channel view.now)) }
        ensures noted { (history : List Viewed) → IsTally rule.now origins.now history self.old
            → length history + 1 < 2 ^ 64
            → OnOk result (IsTally rule.now origins.now ((channel, view.now) ∷ history) self.new) }
    {
        match &rule.asked {
            Asked::OfMessages => self.plain.note(&rule.rule, origins, channel, view, known),
            Asked::Between { low, high } => Ok(self.count(is_between(*low, value, *high))),
            Asked::Told(label) => {
                let told = self.is_told(&rule.signal.kind, value, label.bytes.as_slice())?;
                Ok(self.count(told))
            }
            Asked::Step(most) => {
                let step = self.is_step(channel, value, *most)?;
                Ok(self.count(step))
            }
        }
    }

    /// The verdict on the rule.
    pub(crate) fn verdict(&self, rule: &SignalRule<'_>) -> RuleVerdict
        ensures { IsVerdictWith rule.now.rule self.now.plain.selected self.now.plain.counted self.now.plain.missed
            result }
    {
        verdict_of(
            &rule.rule,
            self.plain.selected,
            self.plain.counted,
            self.plain.missed,
        )
    }
}
