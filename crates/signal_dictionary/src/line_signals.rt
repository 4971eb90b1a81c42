//! The signal that a line spells.
ghost use Rattle.judge_rules.specs.Faults.{made};
ghost use Rattle.judge_rules.specs.Ranges.{AreInRange};
ghost use Rattle.judge_rules.specs.Standard.{always};
ghost use Rattle.judge_rules.specs.declared.rules.Check.TheVariants.{Sound};
ghost use Rattle.signal_dictionary.specs.Fitting as fitting;
ghost use Rattle.signal_dictionary.specs.Lines as spec;
ghost use Rattle.signal_dictionary.specs.Parts.{parts_of, with_parts};
ghost use Rattle.std.specs.Prelude.{◌≡◌, true, IfOk, IfSome, option_map};

use crate::fitting::is_fitting;
use crate::kinds::read_kind;
use crate::places::read_place;
use crate::signals::{Kind, Place, Signal};
use crate::texts::{Name, Unit, read_name};
use judge_rules::{RuleFault, Selector, both, is_passed_over, read_channel, read_selector};
use text_lines::Words;

/// The name of a signal and the messages that it is of.
type Chosen = ((Name, Option<u16>), Selector);
/// Where it stands, what it spells, and its unit.
type Meant = (Place, (Kind, Unit));

/// A place and a kind that fit one another.
fn fitting(meant: Result<Meant, RuleFault>) -> Result<Meant, RuleFault>
    ensures { result ≡ spec.fitting meant }
{
    let (place, (kind, unit)) = meant?;
    if is_fitting(place, &kind) {
        Ok((place, (kind, unit)))
    } else {
        Err(RuleFault::Range)
    }
}

/// The name, perhaps a channel, and a selector.
fn read_chosen(words: &mut Words<'_>) -> Result<Chosen, RuleFault>
    ensures value { result ≡ spec.chosen_in words.old }
    ensures rest { words.new ≡ spec.behind_chosen words.old }
{
    let name = read_name(words);
    let channel = read_channel(words);
    let selector = read_selector(words);
    both(both(name, channel), selector)
}

/// The place and what the bits spell, and no more.
fn read_meant(words: &mut Words<'_>) -> Result<Meant, RuleFault>
    ensures { result ≡ spec.meant_in words.old }
{
    let place = read_place(words);
    let kind = read_kind(words);
    fitting(both(place, kind))
}

/// What the words behind `signal` spell.
#[tactic(auto, unfolding(crate::specs::Lines::told_in))]
fn read_told(words: &mut Words<'_>) -> Result<(Chosen, Meant), RuleFault>
    ensures { result ≡ spec.told_in words.old }
{
    let chosen = read_chosen(words);
    let meant = read_meant(words);
    both(chosen, meant)
}

/// The signal of what a line of this number told.
fn signal_of(line: u64, chosen: Chosen, meant: Meant) -> Signal
    requires chosen { AreInRange chosen.0.1 always chosen.1 Sound }
    requires fits { fitting.is_fitting meant.0 meant.1.0 ≡ true }
    ensures { parts_of result ≡ with_parts line (chosen, meant) }
{
    let ((name, channel), selector) = chosen;
    let (place, (kind, unit)) = meant;
    Signal {
        line,
        name,
        channel,
        selector,
        place,
        kind,
        unit,
    }
}

/// The signal of a line's words.
#[tactic(auto, unfolding(crate::specs::Lines::signal_in))]
fn read_words(line: u64, words: &mut Words<'_>) -> Result<Signal, RuleFault>
    ensures value { made parts_of result ≡ spec.signal_in line words.old }
    ensures line { IfOk result (λ signal. signal.line ≡ line) }
{
    if !words.takes(b"signal") {
        return Err(RuleFault::Word);
    }
    let (chosen, meant) = read_told(words)?;
    Ok(signal_of(line, chosen, meant))
}

/// The signal that a line spells, with this number; `None` where the line is passed over.
#[tactic(auto, unfolding(crate::specs::Lines::said))]
pub(crate) fn read_line(line: u64, text: &[u8]) -> Option<Result<Signal, RuleFault>>
    ensures value { option_map (made parts_of) result ≡ spec.said line text.now }
    ensures line { IfSome result (λ read. IfOk read (λ signal. signal.line ≡ line)) }
{
    if is_passed_over(text) {
        return None;
    }
    Some(read_words(line, &mut Words::of(text)))
}
