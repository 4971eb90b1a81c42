//! Faults that are planned for a message.
ghost use Rattle.mil_line.specs.Ranges.{is_in_range};
ghost use Rattle.std.specs.List.{list_all};
ghost use Rattle.std.specs.Prelude.{◌≡◌, ◌&&◌, ◌∷◌, ◌++◌, [], true, false, length, nat_lt};

use arrayvec::ArrayVec;
use mil_line::Fault;
use std::marker::Model;

/// Faults of a message: at most four, each in its range, so that lines of a job may have them. Contracts see their
/// list.
#[derive(Drop)]
pub(crate) struct PlannedFaults {
    faults: ArrayVec<Fault, 4>,
}

impl Model for PlannedFaults {
    ghost use Rattle.mil_line.specs.Ranges.{is_in_range};
    ghost use Rattle.mil_line.specs.declared.faults.Fault.{Fault};
    ghost use Rattle.std.specs.List.{list_all};
    ghost use Rattle.std.specs.Prelude.{◌≡◌, List, true};

    ghost Value = { List Fault };

    ghost view = { λ p. p.faults.items };

    ghost invariant = { λ p. list_all is_in_range p.faults.items ≡ true };
}

impl PlannedFaults {
    /// No fault.
    pub(crate) fn none() -> PlannedFaults
        ensures { result ≡ [] }
    {
        PlannedFaults {
            faults: ArrayVec::new(),
        }
    }

    /// Takes them all back.
    pub(crate) fn clear(&mut self)
        ensures { self.new ≡ [] }
    {
        self.faults.clear();
    }

    /// Puts a fault behind the others; false where it is out of its range, or four are planned already, and then
    /// nothing changes.
    pub(crate) fn plan(&mut self, fault: Fault) -> bool
        ensures taken { result ≡ (nat_lt (length self.old) 4 && is_in_range fault) }
        ensures planned { result ≡ true → self.new ≡ self.old ++ fault ∷ [] }
        ensures same { result ≡ false → self.new ≡ self.old }
    {
        if self.faults.is_full() || !fault.is_in_range() {
            return false;
        }
        self.faults.push(fault);
        true
    }

    /// The faults, in the order in which they were planned.
    pub(crate) fn as_slice(&self) -> &[Fault]
        ensures list { result.now ≡ self.now }
        ensures in_range { list_all is_in_range result.now ≡ true }
    {
        self.faults.as_slice()
    }
}
