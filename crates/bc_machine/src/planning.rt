//! Faults that are planned while the program is under way, each for the next message.
ghost use Rattle.bc_machine.specs.Planning.{next_number, with_fault};
ghost use Rattle.bc_machine.specs.UnderWay.{IsUnderWay};
ghost use Rattle.mil_line.specs.Plans.{faults_of};
ghost use Rattle.mil_line.specs.Ranges.{is_in_range, is_number};
ghost use Rattle.std.specs.Prelude.{◌≡◌, ◌<◌, ◌≤◌, ◌^◌, ◌&&◌, ◌↔◌, false, length, Err, OnOk, OnErr};

use crate::machine::Machine;
use crate::parts::Parts;
use mil_line::{Fault, LineError};

impl Parts {
    /// Plans one more fault for the next message, behind those that are planned.
    fn plan_next(&mut self, fault: Fault) -> Result<(), LineError>
        requires { self.old.point.number < 2 ^ 31 }
        ensures planned { OnOk result (self.new ≡ with_fault self.old fault) }
        ensures too_many { (result ≡ Err LineError.TooMany)
            ↔ (4 ≤ length (faults_of (next_number self.old) self.old.plan)) }
        ensures out_of_range { (result ≡ Err LineError.OutOfRange)
            ↔ ((length (faults_of (next_number self.old) self.old.plan) < 4)
            × ((is_number (next_number self.old) && is_in_range fault) ≡ false)) }
        ensures same { OnErr result (self.new ≡ self.old) }
    {
        let number = self.agenda.number() + 1;
        self.plan.add(number, fault)
    }
}

impl Machine {
    /// Plans one more fault for the next message, behind those that are planned. Refusals in this order, each of which
    /// leaves the controller as it was: a fifth fault of that message (L1); a place or a value out of its range, or a
    /// message behind the millionth (L2); memory (L3).
    pub fn plan_next(&mut self, fault: Fault) -> Result<(), LineError>
        ensures planned { OnOk result (self.new ≡ with_fault self.old fault) }
        ensures too_many { (result ≡ Err LineError.TooMany)
            ↔ (4 ≤ length (faults_of (next_number self.old) self.old.plan)) }
        ensures out_of_range { (result ≡ Err LineError.OutOfRange)
            ↔ ((length (faults_of (next_number self.old) self.old.plan) < 4)
            × ((is_number (next_number self.old) && is_in_range fault) ≡ false)) }
        ensures same { OnErr result (self.new ≡ self.old) }
        ensures under_way { IsUnderWay self.new }
    {
        self.parts.plan_next(fault)
    }
}
