//! A turn of a job's run: what is due in front of the next message is done, and then its controller steps.
ghost use Rattle.bc_machine.specs.Planning.{next_number, with_fault};
ghost use Rattle.bc_machine.specs.Posting.{at_next, with_placed};
ghost use Rattle.bc_machine.specs.Running.{HasEnded, stepped};
ghost use Rattle.bc_machine.specs.UnderWay.{IsUnderWay, TellsStep};
ghost use Rattle.bc_machine.specs.declared.Stepped.TheVariants.{Halted};
ghost use Rattle.bc_machine.specs.declared.placed.HostAction.TheVariants.{Terminal};
ghost use Rattle.job_file.specs.Resolving.{standing, turns_left, made_behind, IsKept, IsWithin, IsAtEnd};
ghost use Rattle.job_file.specs.Resolving.{MayPlan, HasPlanned};
ghost use Rattle.job_file.specs.Timed.{arranged, coming_met, done_at, due_now, faulted, turned, with_faults};
ghost use Rattle.mil_host.specs.declared.actions.Action.{Action};
ghost use Rattle.mil_line.specs.Plans.{faults_of};
ghost use Rattle.mil_line.specs.Ranges.{is_in_range, is_number};
ghost use Rattle.std.specs.Prelude.{◌≡◌, ◌≢◌, ◌+◌, ◌<◌, ◌≤◌, ◌&&◌, ◌++◌, ◌∷◌, [], ℕ, List, Ok, Some, None, true, false};
ghost use Rattle.std.specs.Prelude.{length, IfSome, IfNone, IfOk, OnOk};
ghost use Rattle.std.specs.List.{list_all};

use crate::job_run::{Due, JobRun};
use bc_machine::{HostAction, Machine, Stepped, next_message_is_sent, next_message_stays};
use job_moments::Met;
use mil_line::{Fault, LineError};
use std::alloc::AllocError;

/// Plans one more fault for the next message. It fails for want of memory alone.
fn plan_one(machine: &mut Machine, fault: Fault) -> Result<(), AllocError>
    requires few { length (faults_of (next_number machine.old) machine.old.plan) < 4 }
    requires range { (is_number (next_number machine.old) && is_in_range fault) ≡ true }
    ensures planned { OnOk result (machine.new ≡ with_fault machine.old fault) }
    ensures under_way { IsUnderWay machine.new }
{
    match machine.plan_next(fault) {
        Ok(()) => Ok(()),
        Err(LineError::Memory) => Err(AllocError),
        Err(LineError::TooMany) => unreachable!(),
        Err(LineError::OutOfRange) => unreachable!(),
    }
}

/// Plans these faults for the next message. It fails for want of memory alone.
fn plan_all(machine: &mut Machine, faults: &[Fault]) -> Result<(), AllocError>
    requires few { 1 ≤ length faults.now
        → length (faults_of (next_number machine.old) machine.old.plan) + length faults.now ≤ 4 }
    requires number { is_number (next_number machine.old) ≡ true }
    requires ranges { list_all is_in_range faults.now ≡ true }
    requires under_way { IsUnderWay machine.old }
    ensures planned { OnOk result (machine.new ≡ with_faults machine.old faults.now) }
    ensures under_way { IsUnderWay machine.new }
{
    for fault in faults {
        plan_one(machine, *fault)?;
    }
    Ok(())
}

impl JobRun {
    /// Places the first action that is due in front of this message, which comes next, and gives it; None where none
    /// is. It takes no memory.
    fn do_in_front(&mut self, next: &Met) -> Option<Due>
        requires kept { IsKept self.old }
        requires next { Some next.now ≡ coming_met self.old.machine }
        requires few { self.old.machine.point.number < 1000000 }
        ensures done { standing self.new ≡ done_at (due_now (standing self.old)) (standing self.old) }
        ensures none { IfNone result (due_now (standing self.old) ≡ None) }
        ensures placed { IfSome result (λ due. self.new.machine ≡ with_placed self.old.machine
            (self.old.machine.placed ++ at_next self.old.machine due.action ∷ [])) }
        ensures few { IfSome result (λ _. self.old.machine.point.number < 1000000) }
        ensures still { IfNone result (self.new.machine ≡ self.old.machine) }
        ensures faults { self.new.faults ≡ self.old.faults }
        ensures kept { IsKept self.new }
        ensures within { (addresses : List ℕ) (most : ℕ) → IsWithin addresses most (standing self.old)
            → IsWithin addresses most (standing self.new) }
    {
        match self.whens.take_due(next) {
            Some(due) => {
                let placed = due.copy();
                // There is room for each of them.
                let _ = self.machine.place(due.action);
                Some(placed)
            }
            None => None,
        }
    }

    /// Places the first action that is due in front of this message, which comes next, if one does, and gives it; None
    /// where none is due, or no message comes next. It takes no memory.
    pub(crate) fn do_at(&mut self, next: &Option<Met>) -> Option<Due>
        requires kept { IsKept self.old }
        requires next { next.now ≡ coming_met self.old.machine }
        requires few { IfSome next.now (λ _. self.old.machine.point.number < 1000000) }
        ensures done { standing self.new ≡ done_at (due_now (standing self.old)) (standing self.old) }
        ensures none { IfNone result (due_now (standing self.old) ≡ None) }
        ensures placed { IfSome result (λ due. self.new.machine ≡ with_placed self.old.machine
            (self.old.machine.placed ++ at_next self.old.machine due.action ∷ [])) }
        ensures few { IfSome result (λ _. self.old.machine.point.number < 1000000) }
        ensures still { IfNone result (self.new.machine ≡ self.old.machine) }
        ensures faults { self.new.faults ≡ self.old.faults }
        ensures kept { IsKept self.new }
        ensures within { (addresses : List ℕ) (most : ℕ) → IsWithin addresses most (standing self.old)
            → IsWithin addresses most (standing self.new) }
    {
        match next {
            Some(met) => self.do_in_front(met),
            None => None,
        }
    }

    /// The message that comes next behind an action that was placed in front of this one: what the host of a terminal
    /// is asked for moves no message, and behind what the controller's host is asked for it is looked for anew.
    fn next_behind(&self, next: Option<Met>, due: &Due) -> Option<Met>
        requires kept { IsKept self.now }
        requires few { self.now.machine.point.number < 1000000 }
        requires still { (address : ℕ) (action : Action) → due.now.action ≡ Terminal address action
            → next ≡ coming_met self.now.machine }
        ensures next { result ≡ coming_met self.now.machine }
        ensures few { IfSome result (λ _. self.now.machine.point.number < 1000000) }
    {
        match &due.action {
            HostAction::Terminal { .. } => next,
            HostAction::Controller(_) => self.next(),
        }
    }

    /// Places all that is due in front of the next message, and gives the message that comes next then, if one does. It
    /// takes no memory.
    pub(crate) fn arrange_next(&mut self) -> Option<Met>
        requires { IsKept self.old }
        ensures next { result ≡ coming_met self.new.machine }
        ensures few { IfSome result (λ _. self.new.machine.point.number < 1000000) }
        ensures arranged { standing self.new ≡ arranged (standing self.old) }
        ensures faults { self.new.faults ≡ self.old.faults }
        ensures kept { IsKept self.new }
        ensures within { (addresses : List ℕ) (most : ℕ) → IsWithin addresses most (standing self.old)
            → IsWithin addresses most (standing self.new) }
    {
        // What the host of a terminal is asked for does not change what comes next, for the proof.
        next_message_stays();
        let mut next = self.next();
        'times: for time in 0..self.whens.len() {
            match self.do_at(&next) {
                Some(due) => next = self.next_behind(next, &due),
                None => return next,
            }
        }
        next
    }

    /// Plans the faults that are due at this message, which comes next, if one does. It fails for want of memory alone.
    pub(crate) fn plan_at(&mut self, next: &Option<Met>) -> Result<(), AllocError>
        requires kept { IsKept self.old }
        requires next { next.now ≡ coming_met self.old.machine }
        requires few { IfSome next.now (λ _. self.old.machine.point.number < 1000000) }
        requires planned { MayPlan self.old }
        ensures faulted { OnOk result (self.new.machine ≡ faulted self.old.faults.faults self.old.machine) }
        ensures next { OnOk result (coming_met self.new.machine ≡ coming_met self.old.machine) }
        ensures whens { self.new.whens ≡ self.old.whens }
        ensures faults { self.new.faults ≡ self.old.faults }
        ensures kept { OnOk result (IsKept self.new) }
        ensures planned { OnOk result (HasPlanned self.new) }
    {
        // A fault more does not change what comes next, for the proof.
        next_message_stays();
        match next {
            Some(met) => {
                let due = self.faults.faults(met);
                plan_all(&mut self.machine, due.as_slice())?;
                Ok(())
            }
            None => Ok(()),
        }
    }

    /// The message that was sent, if one was, counts for what is still to come.
    fn meet(&mut self, next: Option<Met>)
        requires whens { IfSome next (λ _. length self.old.whens.made < 1000000) }
        requires faults { IfSome next (λ _. length self.old.faults.made < 1000000) }
        ensures whens { self.new.whens ≡ record {
          left = self.old.whens.left;
          made = made_behind next self.old.whens.made;
        } }
        ensures faults { self.new.faults ≡ record {
          faults = self.old.faults.faults;
          made = made_behind next self.old.faults.made;
        } }
        ensures machine { self.new.machine ≡ self.old.machine }
        ensures origin { self.new.origin ≡ self.old.origin }
    {
        if let Some(met) = next {
            self.whens.meet(&met);
            self.faults.meet(&met);
        }
    }

    /// One step of the controller, where this message comes next, if one does, and what it came to. It takes no memory.
    pub(crate) fn step_at(&mut self, next: Option<Met>) -> Stepped
        requires kept { IsKept self.old }
        requires next { next ≡ coming_met self.old.machine }
        requires few { IfSome next (λ _. self.old.machine.point.number < 1000000) }
        requires planned { HasPlanned self.old }
        ensures stepped { self.new.machine ≡ stepped self.old.machine }
        ensures tells { TellsStep self.old.machine self.new.machine result }
        ensures whens { self.new.whens.left ≡ self.old.whens.left }
        ensures faults { self.new.faults.faults ≡ self.old.faults.faults }
        ensures kept { IsKept self.new }
        ensures planned { MayPlan self.new }
        ensures less { result ≢ Halted → turns_left self.new.machine < turns_left self.old.machine }
        ensures ended { result ≡ Halted → HasEnded self.new.machine }
    {
        next_message_is_sent();
        match self.machine.step() {
            Stepped::Halted => Stepped::Halted,
            step => {
                self.meet(next);
                step
            }
        }
    }

    /// One step, where this message comes next, if one does; whether the controller goes on.
    fn goes_on(&mut self, next: Option<Met>) -> bool
        requires kept { IsKept self.old }
        requires next { next ≡ coming_met self.old.machine }
        requires few { IfSome next (λ _. self.old.machine.point.number < 1000000) }
        requires planned { HasPlanned self.old }
        ensures stepped { self.new.machine ≡ stepped self.old.machine }
        ensures whens { self.new.whens.left ≡ self.old.whens.left }
        ensures faults { self.new.faults.faults ≡ self.old.faults.faults }
        ensures kept { IsKept self.new }
        ensures planned { MayPlan self.new }
        ensures less { result ≡ true → turns_left self.new.machine < turns_left self.old.machine }
        ensures ended { result ≡ false → HasEnded self.new.machine }
    {
        match self.step_at(next) {
            Stepped::Halted => false,
            _ => true,
        }
    }

    /// One step, behind what is due in front of it; whether the controller goes on. It fails for want of memory alone.
    fn turn(&mut self) -> Result<bool, AllocError>
        requires kept { IsKept self.old }
        requires planned { MayPlan self.old }
        ensures turned { IfOk result (λ _. standing self.new ≡ turned self.old.faults.faults (standing self.old)) }
        ensures faults { IfOk result (λ _. self.new.faults.faults ≡ self.old.faults.faults) }
        ensures kept { IfOk result (λ _. IsKept self.new) }
        ensures planned { IfOk result (λ _. MayPlan self.new) }
        ensures within { IfOk result (λ _. (addresses : List ℕ) (most : ℕ)
            → IsWithin addresses most (standing self.old) → IsWithin addresses most (standing self.new)) }
        ensures less { result ≡ Ok true → turns_left self.new.machine < turns_left self.old.machine }
        ensures ended { result ≡ Ok false → HasEnded self.new.machine }
    {
        let next = self.arrange_next();
        self.plan_at(&next)?;
        Ok(self.goes_on(next))
    }

    /// Goes on until the controller has ended. It fails for want of memory alone.
    pub(crate) fn go(&mut self) -> Result<(), AllocError>
        requires kept { IsKept self.old }
        requires planned { MayPlan self.old }
        ensures ended { OnOk result (IsAtEnd self.old.faults.faults (standing self.old) (standing self.new)) }
        ensures kept { OnOk result (IsKept self.new) }
        ensures within { OnOk result ((addresses : List ℕ) (most : ℕ)
            → IsWithin addresses most (standing self.old) → IsWithin addresses most (standing self.new)) }
    {
        'turns: loop {
            let goes_on = self.turn()?;
            if !goes_on {
                return Ok(());
            }
        }
    }
}
