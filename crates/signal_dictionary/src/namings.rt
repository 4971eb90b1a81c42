//! The names of the numbers of a signal.
ghost use Rattle.signal_dictionary.specs.Namings as spec;
ghost use Rattle.std.specs.Option.{option_copied};
ghost use Rattle.std.specs.Prelude.{◌≡◌, ◌≤◌, drop, length, slice_get, Ok, Err, MatchResult};

use crate::signals::Naming;
use crate::texts::label_of;
use arrayvec::ArrayVec;
use judge_rules::{RuleFault, both};
use numerals::spelled;
use text_lines::Words;

/// How many numbers of a signal have names at most.
const MOST_NAMINGS: usize = 64;

/// Whether a word has an equals sign.
fn is_naming(word: &[u8]) -> bool
    ensures { result ≡ spec.is_naming word.now }
{
    word.iter().any(|byte| *byte == b'=')
}

/// How many bytes stand in front of the first equals sign.
fn len_before_equals(word: &[u8]) -> usize
    ensures value { result ≡ spec.len_before_equals word.now }
    ensures within { result ≤ length word.now }
{
    for (i, byte) in word.iter().enumerate() {
        if *byte == b'=' {
            return i;
        }
    }
    word.len()
}

/// What stands behind the first byte.
fn behind_first(text: &[u8]) -> &[u8]
    ensures { result.now ≡ drop 1 text.now }
{
    match text.split_first() {
        Some((_, behind)) => behind,
        None => text,
    }
}

/// The number in front of an equals sign.
fn number_of(word: &[u8]) -> Result<u32, RuleFault>
    ensures { result ≡ spec.number_of word.now }
{
    match spelled(10, 1, 7, word) {
        Some(number) => Ok(number as u32),
        None => Err(RuleFault::Number),
    }
}

/// The number and its label that a word spells.
fn naming_of(word: &[u8]) -> Result<Naming, RuleFault>
    ensures { result ≡ spec.naming_of word.now }
{
    let (front, back) = word.split_at(len_before_equals(word));
    let number = number_of(front);
    let label = label_of(behind_first(back));
    let (number, label) = both(number, label)?;
    Ok(Naming { number, label })
}

/// Whether a number has a name.
fn is_named(found: &[Naming], number: u32) -> bool
    ensures { result ≡ spec.is_named number found.now }
{
    found.iter().any(|naming| naming.number == number)
}

/// Adds what a word names, where its number is not among the others and there is room for it; else answers the fault.
fn add(found: &mut ArrayVec<Naming, 64>, naming: Result<Naming, RuleFault>) -> Option<RuleFault>
    ensures found { found.new.items ≡ spec.and_fresh found.old.items (spec.fresh found.old.items naming) }
    ensures fault { result ≡ spec.fault_in (spec.fresh found.old.items naming) }
{
    let naming = match naming {
        Ok(naming) => naming,
        Err(fault) => return Some(fault),
    };
    if found.len() < MOST_NAMINGS && !is_named(found.as_slice(), naming.number) {
        found.push(naming);
        None
    } else {
        Some(RuleFault::Range)
    }
}

/// The fault that counts of two, where there are any.
fn worst(fault: Option<RuleFault>, other: Option<RuleFault>) -> Option<RuleFault>
    ensures { result ≡ spec.worst fault other }
{
    match (fault, other) {
        (Some(fault), Some(other)) => Some(fault.or(other)),
        (Some(fault), None) => Some(fault),
        (None, other) => other,
    }
}

/// A word, where it has an equals sign.
fn naming_in(next: Option<&[u8]>) -> Option<&[u8]>
    ensures { option_copied result ≡ spec.naming_if (option_copied next.entry) }
{
    match next {
        Some(word) if is_naming(word) => next,
        _ => None,
    }
}

/// What words come to that named these: a fault, or these, at least one.
fn outcome(
    fault: Option<RuleFault>,
    found: ArrayVec<Naming, 64>,
) -> Result<ArrayVec<Naming, 64>, RuleFault>
    ensures { MatchResult result (λ some. spec.outcome fault found.items ≡ Ok some.items)
        (λ f. spec.outcome fault found.items ≡ Err f) }
{
    match fault {
        Some(fault) => Err(fault),
        None if found.is_empty() => Err(RuleFault::Word),
        None => Ok(found),
    }
}

/// What the words up to the first without an equals sign name, and that word, if there is one.
#[derive(Drop)]
pub(crate) struct Named<'t> {
    pub(crate) namings: Result<ArrayVec<Naming, 64>, RuleFault>,
    pub(crate) next: Option<&'t [u8]>,
}

/// Numbers and their labels, at least one, each number once.
pub(crate) fn read_namings<'t>(words: &mut Words<'t>) -> Named<'t>
    ensures namings { MatchResult result.namings (λ found. spec.namings_in words.old ≡ Ok found.items)
        (λ f. spec.namings_in words.old ≡ Err f) }
    ensures next { option_copied result.next ≡ slice_get (spec.behind_namings words.old) 0 }
    ensures rest { words.new ≡ drop 1 (spec.behind_namings words.old) }
{
    let mut found = ArrayVec::new();
    let mut fault = None;
    let mut next = words.next();
    'words: while let Some(word) = naming_in(next) {
        fault = worst(fault, add(&mut found, naming_of(word)));
        next = words.next();
    }
    Named {
        namings: outcome(fault, found),
        next,
    }
}
