//! The faults that are planned for the messages of a channel.
ghost use Rattle.mil_line.specs.Plans.{faults_of};
ghost use Rattle.mil_line.specs.Ranges.{is_in_range, is_number};
ghost use Rattle.mil_line.specs.StandsFor.{late_of, HasOneMore};
ghost use Rattle.std.specs.List.{list_all};
ghost use Rattle.std.specs.Prelude.{OnErr};
ghost use Rattle.std.specs.Prelude.{◌≡◌, ◌∷◌, ◌++◌, [], ◌+◌, ◌<◌, ◌≤◌, ◌&&◌, ◌↔◌, true, false, length, Err, OnOk, IfOk};

use crate::rising::Rising;
use crate::{Fault, LineError};
use arrayvec::ArrayVec;
use history::History;
use std::alloc::{AllocError, Global};
use std::collections::BTreeMap;
use std::marker::Model;

/// Faults by the number of their message; contracts see the list of (number, fault) in the order in which they were
/// added. A look-up takes time by the logarithm of how many faults there are.
#[derive(Drop)]
pub struct Plan {
    /// Those whose numbers were at or behind that of each one here.
    rising: Rising,
    /// The others, which came late, by their numbers: of a message they were all added behind those of `rising`.
    late: BTreeMap<u32, ArrayVec<Fault, 4>>,
    added: History<(u32, Fault)>,
}

impl Model for Plan {
    ghost use Rattle.mil_line.specs.Plans.{Planned};
    ghost use Rattle.mil_line.specs.StandsFor.{AreFaultsByNumber};
    ghost use Rattle.std.specs.Prelude.{List};

    ghost Value = { List Planned };

    ghost view = { λ p. p.added };

    ghost invariant = { λ p. AreFaultsByNumber p.rising p.late p.added };
}

/// Whether the number of a message is 1 to 1,000,000, and the fault's place and value are in their ranges.
fn is_fit(number: u32, fault: &Fault) -> bool
    ensures { result ≡ (is_number number && is_in_range fault.now) }
{
    1 <= number && number <= 1_000_000 && fault.is_in_range()
}

/// Puts the faults that came late for a message behind others of it, where that makes four at most.
fn put_late(faults: &mut ArrayVec<Fault, 4>, late: &BTreeMap<u32, ArrayVec<Fault, 4>>, number: u32)
    requires { length faults.old.items + length (late_of number late.now) ≤ 4 }
    ensures { faults.new.items ≡ faults.old.items ++ late_of number late.now }
{
    if let Some(planned) = late.get(&number) {
        for fault in planned.as_slice() {
            faults.push(*fault);
        }
    }
}

/// One more fault that comes late for a message. It changes nothing where memory is refused.
fn add_late(
    late: &mut BTreeMap<u32, ArrayVec<Fault, 4>>,
    number: u32,
    fault: Fault,
) -> Result<(), AllocError>
    requires { length (late_of number late.old) < 4 }
    ensures ok { OnOk result (HasOneMore number fault late.old late.new) }
    ensures err { OnErr result (late.new.entries ≡ late.old.entries) }
{
    let mut faults = ArrayVec::new();
    put_late(&mut faults, late, number);
    faults.push(fault);
    late.insert(number, faults)?;
    Ok(())
}

impl Plan {
    /// A plan with no faults. It takes no memory.
    pub fn make(alloc: Global) -> Plan
        ensures { result ≡ [] }
    {
        Plan {
            rising: Rising::none(alloc),
            late: BTreeMap::new(alloc),
            added: History::none(),
        }
    }

    /// Plans one more fault for the message of this number. Refusals in this order: a fifth fault of one message (L1);
    /// a number, place or value out of its range (L2); memory (L3).
    pub fn add(&mut self, number: u32, fault: Fault) -> Result<(), LineError>
        ensures ok { OnOk result (self.new ≡ self.old ++ (number, fault) ∷ []) }
        ensures too_many { (result ≡ Err LineError.TooMany) ↔ (4 ≤ length (faults_of number self.old)) }
        ensures out_of_range { (result ≡ Err LineError.OutOfRange) ↔
            ((length (faults_of number self.old) < 4) × ((is_number number && is_in_range fault) ≡ false)) }
        ensures err { OnErr result (self.new ≡ self.old) }
    {
        let faults = self.faults(number);
        if faults.is_full() {
            return Err(LineError::TooMany);
        }
        if !is_fit(number, &fault) {
            return Err(LineError::OutOfRange);
        }
        let kept = if self.rising.may_end_with(number) {
            self.rising.push(number, fault)
        } else {
            add_late(&mut self.late, number, fault)
        };
        match kept {
            Ok(()) => {
                self.added = self.added.put_behind(&(number, fault));
                Ok(())
            }
            Err(_) => Err(LineError::Memory),
        }
    }

    /// The faults of the message of this number, in the order in which they were added.
    pub fn faults(&self, number: u32) -> ArrayVec<Fault, 4>
        ensures faults { result.items ≡ faults_of number self.now }
        ensures in_range { list_all is_in_range result.items ≡ true }
    {
        let mut faults = self.rising.faults(number);
        put_late(&mut faults, &self.late, number);
        faults
    }

    /// A copy of this plan, which fails for want of memory alone.
    pub fn copy(&self) -> Result<Plan, AllocError>
        ensures { IfOk result (λ p. p ≡ self.now) }
    {
        Ok(Plan {
            rising: self.rising.copy()?,
            late: self.late.clone()?,
            added: self.added.same(),
        })
    }
}
