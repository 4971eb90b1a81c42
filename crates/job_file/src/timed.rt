//! What the lines of a job say by time and by command.
ghost use Rattle.job_file.specs.Timed.{says_nothing};
ghost use Rattle.job_file.specs.TimedLines.{timed_inserts, with_when, with_fault};
ghost use Rattle.job_file.specs.TimedParts.{planned_by, IsSaid};
ghost use Rattle.job_moments.specs.Planning.{MayStand};
ghost use Rattle.std.specs.Prelude.{◌≡◌, ◌∷◌, [], false, true, map, All, OnOk, OnErr};

use bc_machine::HostAction;
use controller_host::Control;
use job_moments::{Moment, Occasion};
use mil_line::Fault;
use std::alloc::{AllocError, Global};
use std::marker::Model;

/// An action of a host that is done once, in front of the message at which it is due.
#[derive(Debug, Drop)]
pub struct TimedAction {
    pub moment: Moment,
    pub action: HostAction,
}

impl TimedAction {
    /// How many messages it has inserted: one, or none.
    fn inserts(&self) -> u64
        ensures { result ≡ timed_inserts (self.now ∷ []) }
    {
        match &self.action {
            HostAction::Controller(Control::Insert(_)) => 1,
            _ => 0,
        }
    }
}

/// A fault that a line plans, and when it is due.
#[derive(Clone, Copy, Debug)]
pub struct TimedFault {
    pub occasion: Occasion,
    pub fault: Fault,
}

/// What the lines of a job say by time and by command; and the faults of all its lines, of which those by number count
/// among the first four at a message.
#[derive(Drop)]
pub struct TimedLines {
    whens: Vec<TimedAction>,
    faults: Vec<TimedFault>,
    is_timed: bool,
}

impl Model for TimedLines {
    ghost use Rattle.job_file.specs.TimedLines.{Timed};
    ghost use Rattle.job_file.specs.TimedParts.{timed_in, AllMayStand};

    ghost Value = { Timed };

    ghost view = { timed_in };

    ghost invariant = { AllMayStand };
}

impl TimedLines {
    /// Nothing was said.
    pub(crate) fn none(alloc: Global) -> TimedLines
        ensures { result ≡ record { whens = []; faults = []; is_timed = false } }
    {
        TimedLines {
            whens: Vec::new(alloc),
            faults: Vec::new(alloc),
            is_timed: false,
        }
    }

    /// An action at a moment, behind the others. It fails for want of memory alone, and then nothing changes.
    pub(crate) fn add_when(&mut self, moment: Moment, action: HostAction) -> Result<(), AllocError>
        ensures added { OnOk result (self.new ≡ with_when moment action self.old) }
        ensures same { OnErr result (self.new ≡ self.old) }
    {
        match self.whens.push(TimedAction { moment, action }) {
            Ok(()) => Ok(()),
            Err(_) => Err(AllocError),
        }
    }

    /// A fault, and when it is due, behind the others. It fails for want of memory alone, and then nothing changes.
    pub(crate) fn add_fault(&mut self, occasion: Occasion, fault: Fault) -> Result<(), AllocError>
        requires { MayStand occasion }
        ensures added { OnOk result (self.new ≡ with_fault occasion fault self.old) }
        ensures same { OnErr result (self.new ≡ self.old) }
    {
        match self.faults.push(TimedFault { occasion, fault }) {
            Ok(()) => Ok(()),
            Err(_) => Err(AllocError),
        }
    }

    /// From now on one of the faults is by time or by command.
    pub(crate) fn find_faults(&mut self)
        ensures { self.new ≡ record self.old { is_timed = true } }
    {
        self.is_timed = true;
    }

    /// How many messages the actions have inserted.
    pub(crate) fn inserts(&self) -> u64
        ensures { result ≡ timed_inserts self.now.whens }
    {
        let mut count = 0u64;
        for when in &self.whens {
            count += when.inserts();
        }
        count
    }

    /// No line is by time or by command.
    pub(crate) fn is_empty(&self) -> bool
        ensures { result ≡ says_nothing self.now }
    {
        self.whens.is_empty() && !self.is_timed
    }

    /// The actions, in the order of the text.
    pub(crate) fn whens(&self) -> &[TimedAction]
        ensures { result.now ≡ self.now.whens }
    {
        self.whens.as_slice()
    }

    /// The faults of all lines, in the order of the text.
    pub(crate) fn faults(&self) -> &[TimedFault]
        ensures faults { map planned_by result.now ≡ self.now.faults }
        ensures said { All IsSaid result.now }
    {
        self.faults.as_slice()
    }

    /// Whether one of the faults is by time or by command.
    pub(crate) fn is_timed(&self) -> bool
        ensures { result ≡ self.now.is_timed }
    {
        self.is_timed
    }
}
