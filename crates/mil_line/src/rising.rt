//! Faults that are planned by rising numbers of messages, which is how nearly all texts have them.
ghost use Rattle.mil_line.specs.Plans.{faults_of};
ghost use Rattle.mil_line.specs.StandsFor.{IsBehind};
ghost use Rattle.std.specs.List.{AllWithin, zip};
ghost use Rattle.std.specs.List.Sorted.{IsNonDecreasing};
ghost use Rattle.std.specs.Prelude.{◌≡◌, ◌∷◌, ◌++◌, [], ◌<◌, ◌≤◌, ◌↔◌, length, All, IfOk, IsTrue, OnErr, OnOk};

use crate::Fault;
use arrayvec::ArrayVec;
use std::alloc::{AllocError, Global};
use std::marker::Model;

/// Faults and the numbers of their messages, which never fall: 28 bytes for each. Contracts see the list of
/// (number, fault). A look-up takes time by the logarithm of how many there are.
#[derive(Drop)]
pub(crate) struct Rising {
    numbers: Vec<u32>,
    /// Each stands at the place of its number.
    faults: Vec<Fault>,
}

impl Model for Rising {
    ghost use Rattle.mil_line.specs.Plans.{Planned};
    ghost use Rattle.mil_line.specs.StandsFor.{AreRising};
    ghost use Rattle.std.specs.List.{zip};
    ghost use Rattle.std.specs.Prelude.{List};

    ghost Value = { List Planned };

    ghost view = { λ r. zip r.numbers.items r.faults.items };

    ghost invariant = { λ r. AreRising r.numbers.items r.faults.items };
}

/// Whether a number is at or behind each of those, which never fall: a look at the last one.
fn is_behind(numbers: &[u32], number: u32) -> bool
    requires { IsNonDecreasing numbers.now }
    ensures { IsTrue result ↔ All (λ n. n ≤ number) numbers.now }
{
    match numbers.last() {
        Some(last) => *last <= number,
        None => true,
    }
}

/// How many numbers are below one, where they never fall.
fn count_below(numbers: &[u32], number: u32) -> usize
    requires { IsNonDecreasing numbers.now }
    ensures within { result ≤ length numbers.now }
    ensures below { AllWithin (λ n. n < number) numbers.now 0 result }
    ensures others { AllWithin (λ n. number ≤ n) numbers.now result (length numbers.now) }
{
    numbers.partition_point(|one| *one < number)
}

/// The faults at a number, of which there are four at most, where numbers never fall and each has its fault beside it.
fn faults_at(numbers: &[u32], faults: &[Fault], number: u32) -> ArrayVec<Fault, 4>
    requires rising { IsNonDecreasing numbers.now }
    requires beside { length faults.now ≡ length numbers.now }
    requires few { length (faults_of number (zip numbers.now faults.now)) ≤ 4 }
    ensures { result.items ≡ faults_of number (zip numbers.now faults.now) }
{
    let mut found = ArrayVec::new();
    for place in count_below(numbers, number)..numbers.len() {
        if numbers[place] != number {
            return found;
        }
        found.push(faults[place]);
    }
    found
}

impl Rising {
    /// No faults. It takes no memory.
    pub(crate) fn none(alloc: Global) -> Rising
        ensures { result ≡ [] }
    {
        Rising {
            numbers: Vec::new(alloc),
            faults: Vec::new(alloc),
        }
    }

    /// Whether a number is at or behind each of these, so that a fault of it may stand behind them.
    pub(crate) fn may_end_with(&self, number: u32) -> bool
        ensures { IsTrue result ↔ IsBehind number self.now }
    {
        is_behind(self.numbers.as_slice(), number)
    }

    /// Puts one more behind these. It changes nothing where memory is refused.
    pub(crate) fn push(&mut self, number: u32, fault: Fault) -> Result<(), AllocError>
        requires { IsBehind number self.old }
        ensures ok { OnOk result (self.new ≡ self.old ++ (number, fault) ∷ []) }
        ensures err { OnErr result (self.new ≡ self.old) }
    {
        self.numbers.reserve(1)?;
        self.faults.reserve(1)?;
        self.numbers.push_reserved(number);
        self.faults.push_reserved(fault);
        Ok(())
    }

    /// The faults of a message, of which there are four at most, in their order.
    pub(crate) fn faults(&self, number: u32) -> ArrayVec<Fault, 4>
        requires { length (faults_of number self.now) ≤ 4 }
        ensures { result.items ≡ faults_of number self.now }
    {
        faults_at(self.numbers.as_slice(), self.faults.as_slice(), number)
    }

    /// A copy of these, which fails for want of memory alone.
    pub(crate) fn copy(&self) -> Result<Rising, AllocError>
        ensures { IfOk result (λ r. r ≡ self.now) }
    {
        Ok(Rising {
            numbers: self.numbers.clone()?,
            faults: self.faults.clone()?,
        })
    }
}
