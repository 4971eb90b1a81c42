//! What a rule asks of a signal, as the words behind its name spell it.
ghost use Rattle.judge_rules.specs.Checks.{check_in};
ghost use Rattle.judge_rules.specs.Faults.{made};
ghost use Rattle.judge_rules.specs.Ranges.{IsCheck};
ghost use Rattle.signal_judge.specs.Asked as spec;
ghost use Rattle.signal_judge.specs.Asked.{wanted_of};
ghost use Rattle.signal_values.specs.Amounts.{number_of};
ghost use Rattle.std.specs.Option.{option_copied};
ghost use Rattle.std.specs.Prelude.{◌≡◌, IfOk, Ok};

use crate::rules::Asked;
use judge_rules::{Check, RuleFault, both, ended, read_check};
use signal_dictionary::{Kind, Signal, decimal_of, label_of};
use signal_values::{Amount, of_decimal};
use text_lines::Words;

/// Whether the numbers of a kind have names.
fn has_names(kind: &Kind) -> bool
    ensures { result ≡ spec.has_names kind.now }
{
    match kind {
        Kind::Names(_) => true,
        Kind::Unsigned(_) => false,
        Kind::Signed(_) => false,
        Kind::Decimals(_) => false,
    }
}

/// Whether the numbers of a signal may have names: one that the dictionary lacks may be of any kind.
fn may_have_names(signal: Option<&Signal>) -> bool
    ensures { result ≡ spec.may_have_names (spec.kind_if (option_copied signal.entry)) }
{
    match signal {
        Some(signal) => has_names(&signal.kind),
        None => true,
    }
}

/// Whether they may have none.
fn may_have_numbers(signal: Option<&Signal>) -> bool
    ensures { result ≡ spec.may_have_numbers (spec.kind_if (option_copied signal.entry)) }
{
    match signal {
        Some(signal) => !has_names(&signal.kind),
        None => true,
    }
}

/// The number of the decimal that a word spells.
fn amount_in(word: &[u8]) -> Result<Amount, RuleFault>
    ensures { made number_of result ≡ spec.number_in word.now }
{
    match decimal_of(word) {
        Ok(decimal) => Ok(of_decimal(decimal)),
        Err(fault) => Err(fault),
    }
}

/// Two numbers as bounds, the least first.
fn in_order(low: Amount, high: Amount) -> Result<Asked, RuleFault>
    ensures { made wanted_of result ≡ spec.in_order (Ok (number_of low, number_of high)) }
{
    if low.is_at_most(high) {
        Ok(Asked::Between { low, high })
    } else {
        Err(RuleFault::Range)
    }
}

/// The bounds of two decimals, the least first.
fn bounds_of(low: &[u8], high: &[u8]) -> Result<Asked, RuleFault>
    ensures { made wanted_of result ≡ spec.bounds_in low.now high.now }
{
    let least = amount_in(low);
    let most = amount_in(high);
    match both(least, most) {
        Ok((low, high)) => in_order(low, high),
        Err(fault) => Err(fault),
    }
}

/// The text that a word tells a value by.
fn label_in(word: &[u8]) -> Result<Asked, RuleFault>
    ensures { made wanted_of result ≡ spec.label_in word.now }
{
    match label_of(word) {
        Ok(label) => Ok(Asked::Told(label)),
        Err(fault) => Err(fault),
    }
}

/// What stands behind `value`, of which this is the first word: a label of a signal with names, two decimals of
/// another.
#[tactic(auto, using(crate::proofs::Asking::ended_made))]
fn read_value_by(
    first: &[u8],
    words: &mut Words<'_>,
    signal: Option<&Signal>,
) -> Result<Asked, RuleFault>
    ensures { made wanted_of result
        ≡ spec.value_by (spec.kind_if (option_copied signal.entry)) first.now words.old }
{
    let Some(second) = words.next() else {
        if may_have_names(signal) {
            return label_in(first);
        }
        return Err(RuleFault::Word);
    };
    if may_have_numbers(signal) {
        return ended(words, bounds_of(first, second));
    }
    Err(RuleFault::Word)
}

/// What stands behind `value`.
fn read_value(words: &mut Words<'_>, signal: Option<&Signal>) -> Result<Asked, RuleFault>
    ensures { made wanted_of result ≡ spec.value_in (spec.kind_if (option_copied signal.entry)) words.old }
{
    match words.next() {
        Some(first) => read_value_by(first, words, signal),
        None => Err(RuleFault::Word),
    }
}

/// A number that is not below zero, as the greatest step.
fn step_of(most: Result<Amount, RuleFault>) -> Result<Asked, RuleFault>
    ensures { made wanted_of result ≡ spec.most_of (made number_of most) }
{
    match most {
        Ok(most) => {
            if most.is_below_zero() {
                return Err(RuleFault::Range);
            }
            Ok(Asked::Step(most))
        }
        Err(fault) => Err(fault),
    }
}

/// What stands behind `step`: the greatest difference, of a signal without names.
#[tactic(auto, using(crate::proofs::Asking::ended_made))]
fn read_step(words: &mut Words<'_>, signal: Option<&Signal>) -> Result<Asked, RuleFault>
    ensures { made wanted_of result ≡ spec.step_in (spec.kind_if (option_copied signal.entry)) words.old }
{
    let Some(word) = words.next() else {
        return Err(RuleFault::Word);
    };
    if may_have_numbers(signal) {
        return ended(words, step_of(amount_in(word)));
    }
    Err(RuleFault::Word)
}

/// What a rule asks of messages, which `whole` does not.
fn read_messages(words: &mut Words<'_>) -> Result<(Asked, Check), RuleFault>
    ensures value { made spec.with_wanted result ≡ spec.of_messages (check_in words.old) }
    ensures check { IfOk result (λ asked. IsCheck asked.1) }
{
    let check = read_check(words)?;
    if matches!(check, Check::Whole) {
        return Err(RuleFault::Word);
    }
    Ok((Asked::OfMessages, check))
}

/// What the words behind the name of a signal ask, and no more: a value, a step, or what a rule asks of messages.
#[tactic(auto, unfolding(crate::specs::Asked::asked_in))]
pub(crate) fn read_asked(
    words: &mut Words<'_>,
    signal: Option<&Signal>,
) -> Result<(Asked, Check), RuleFault>
    ensures value { made spec.with_wanted result
        ≡ spec.asked_in (spec.kind_if (option_copied signal.entry)) words.old }
    ensures check { IfOk result (λ asked. IsCheck asked.1) }
{
    if words.takes(b"value") {
        let value = read_value(words, signal)?;
        return Ok((value, Check::Sound));
    }
    if words.takes(b"step") {
        let step = read_step(words, signal)?;
        return Ok((step, Check::Sound));
    }
    read_messages(words)
}
