//! The controller of a job under way, with what its lines say by time and by command.
ghost use Rattle.bc_machine.specs.Posting.{at_next, with_placed, with_room};
ghost use Rattle.bc_machine.specs.Running.{HasEnded, started, stepped};
ghost use Rattle.bc_machine.specs.UnderWay.{IsUnderWay, TellsStep};
ghost use Rattle.bc_machine.specs.declared.Stepped.TheVariants.{Halted};
ghost use Rattle.frame_asm.specs.Shapes.{code_of_tree};
ghost use Rattle.job_file.specs.Jobs.{job_in, tree_in};
ghost use Rattle.job_file.specs.Meaning.{bus_of};
ghost use Rattle.job_file.specs.Resolving.{standing, turns_left, whens_left, IsKept, IsWithin, MayPlan, HasPlanned};
ghost use Rattle.job_file.specs.Timed.{arranged, begun_beside, coming_met, done_at, due_now, faulted, found_in};
ghost use Rattle.job_file.specs.Timed.{planned_in};
ghost use Rattle.job_file.specs.TimedParts.{planned_by, IsSaid};
ghost use Rattle.std.specs.Prelude.{◌≡◌, ◌≢◌, ◌<◌, ◌++◌, ◌∷◌, [], ℕ, List, None};
ghost use Rattle.std.specs.Prelude.{map, length, All};
ghost use Rattle.std.specs.Prelude.{IfSome, IfNone, IfOk, OnOk};

use crate::jobs::Job;
use crate::timed::{TimedAction, TimedFault};
use bc_machine::{Actions, BusSetting, Ended, HostAction, Machine, Stepped, next_message_is_sent};
use frame_load::loadable_runs;
use job_moments::{Met, Occasions, Waiting};
use mil_line::Plan;
use std::alloc::{AllocError, Global};

/// An action that is due, and the place of its line among those of the job that have an action by time or by command,
/// counted from 0.
#[derive(Debug, Drop)]
pub struct Due {
    pub place: usize,
    pub action: HostAction,
}

impl Due {
    /// The same once more. It takes no memory.
    pub(crate) fn copy(&self) -> Due
        ensures { result ≡ self.now }
    {
        Due {
            place: self.place,
            action: self.action.copy(),
        }
    }
}

/// The controller of a job under way, and what its lines say by time and by command that is still to come. Whoever runs
/// it does, in front of each message, what is due (`do_first` until it gives none), then places what else there is,
/// then plans the faults that are due (`plan`), and then lets it step.
#[derive(Drop)]
pub struct JobRun {
    pub machine: Machine,
    /// The actions that are still to come, and when each is due.
    pub(crate) whens: Waiting<Due>,
    pub(crate) faults: Occasions,
    /// The job's start tick.
    origin: u64,
}

impl JobRun {
    /// The message that comes next; None where the next step sends none. Its time counts from the job's start tick.
    pub fn next(&self) -> Option<Met>
        requires { IsKept self.now }
        ensures next { result ≡ coming_met self.now.machine }
        ensures few { IfSome result (λ _. self.now.machine.point.number < 1000000) }
    {
        loadable_runs::<BusSetting>();
        next_message_is_sent();
        match self.machine.next_message() {
            Some(next) => Some(Met::of(next.start.saturating_sub(self.origin), &next.message)),
            None => None,
        }
    }

    /// Places the first action that is due at the next number, and gives it; None where none is due in front of the
    /// next message, or no message comes next. It takes no memory.
    pub fn do_first(&mut self) -> Option<Due>
        requires { IsKept self.old }
        ensures done { standing self.new ≡ done_at (due_now (standing self.old)) (standing self.old) }
        ensures none { IfNone result (due_now (standing self.old) ≡ None) }
        ensures placed { IfSome result (λ due. self.new.machine ≡ with_placed self.old.machine
            (self.old.machine.placed ++ at_next self.old.machine due.action ∷ [])) }
        ensures few { IfSome result (λ _. self.old.machine.point.number < 1000000) }
        ensures faults { self.new.faults ≡ self.old.faults }
        ensures kept { IsKept self.new }
        ensures within { (addresses : List ℕ) (most : ℕ) → IsWithin addresses most (standing self.old)
            → IsWithin addresses most (standing self.new) }
    {
        let next = self.next();
        self.do_at(&next)
    }

    /// How many actions are still to come.
    pub fn left(&self) -> usize
        ensures { result ≡ length (standing self.now).left }
    {
        self.whens.len()
    }

    /// Places all that is due in front of the next message. It takes no memory.
    pub fn arrange(&mut self)
        requires { IsKept self.old }
        ensures arranged { standing self.new ≡ arranged (standing self.old) }
        ensures faults { self.new.faults ≡ self.old.faults }
        ensures kept { IsKept self.new }
        ensures within { (addresses : List ℕ) (most : ℕ) → IsWithin addresses most (standing self.old)
            → IsWithin addresses most (standing self.new) }
    {
        // What comes next is of use to a whole turn alone.
        let _ = self.arrange_next();
    }

    /// Plans the faults that are due at the next message. It fails for want of memory alone.
    pub fn plan(&mut self) -> Result<(), AllocError>
        requires kept { IsKept self.old }
        requires planned { MayPlan self.old }
        ensures faulted { OnOk result (self.new.machine ≡ faulted self.old.faults.faults self.old.machine) }
        ensures whens { self.new.whens ≡ self.old.whens }
        ensures faults { self.new.faults ≡ self.old.faults }
        ensures kept { OnOk result (IsKept self.new) }
        ensures planned { OnOk result (HasPlanned self.new) }
    {
        let next = self.next();
        self.plan_at(&next)
    }

    /// One step of the controller, and what it came to. It takes no memory.
    pub fn step(&mut self) -> Stepped
        requires kept { IsKept self.old }
        requires planned { HasPlanned self.old }
        ensures stepped { self.new.machine ≡ stepped self.old.machine }
        ensures tells { TellsStep self.old.machine self.new.machine result }
        ensures whens { self.new.whens.left ≡ self.old.whens.left }
        ensures faults { self.new.faults.faults ≡ self.old.faults.faults }
        ensures kept { IsKept self.new }
        ensures planned { MayPlan self.new }
        ensures less { result ≢ Halted → turns_left self.new.machine < turns_left self.old.machine }
        ensures ended { result ≡ Halted → HasEnded self.new.machine }
    {
        let next = self.next();
        self.step_at(next)
    }
}

/// These actions as they are still to come, each with its place and its moment. It fails for want of memory alone.
fn awaiting(alloc: Global, whens: &[TimedAction]) -> Result<Waiting<Due>, AllocError>
    ensures whens { IfOk result (λ w. whens_left w ≡ whens.now) }
    ensures made { IfOk result (λ w. w.made ≡ []) }
{
    let mut waiting = Waiting::none(alloc);
    for (place, when) in whens.iter().enumerate() {
        let due = Due {
            place,
            action: when.action.copy(),
        };
        waiting.push(when.moment, due)?;
    }
    Ok(waiting)
}

/// These planned faults, before any message. It fails for want of memory alone.
fn occasions(alloc: Global, faults: &[TimedFault]) -> Result<Occasions, AllocError>
    requires { All IsSaid faults.now }
    ensures { IfOk result (λ o. o ≡ record { faults = map planned_by faults.now; made = [] }) }
{
    let mut all = Occasions::none(alloc);
    for one in faults {
        all.push(one.occasion, one.fault)?;
    }
    Ok(all)
}

impl Job {
    /// Where a line is by time or by command, the planned faults of all lines, those by number too, and when each is
    /// due, before any message; else none. It fails for want of memory alone.
    pub fn occasions(&self, alloc: Global) -> Result<Occasions, AllocError>
        ensures { IfOk result (λ o. o ≡ record { faults = self.now.timed.faults; made = [] }) }
    {
        Ok(occasions(alloc, self.timed().faults())?)
    }

    /// Whether one of its faults is by time or by command, so that its plan has those alone that came to be due.
    pub fn finds_faults(&self) -> bool
        ensures { result ≡ self.now.timed.is_timed }
    {
        self.timed().is_timed()
    }
}

/// The plan that a run begins with, and the planned faults that it looks for: where a line plans one by time or by
/// command it looks for those of all lines, and its plan is empty.
fn planned_first(alloc: Global, job: &Job) -> Result<(Plan, Occasions), AllocError>
    ensures plan { IfOk result (λ r. r.0 ≡ planned_in (job_in job.now) job.now.timed) }
    ensures faults { IfOk result (λ r. r.1 ≡ record { faults = found_in job.now.timed; made = [] }) }
{
    if job.finds_faults() {
        return Ok((Plan::make(alloc), job.occasions(alloc)?));
    }
    Ok((job.plan().copy()?, Occasions::none(alloc)))
}

/// The controller of a job before any message under this plan, where these actions are placed and there is room for so
/// many more. It fails for want of memory alone.
fn machine_with_room(
    alloc: Global,
    job: &Job,
    plan: Plan,
    placed: &Actions,
    count: u32,
) -> Result<Machine, AllocError>
    ensures made { IfOk result (λ m. m
        ≡ with_room (started (code_of_tree (tree_in job.now)) (bus_of (job_in job.now)) plan placed.now) count) }
    ensures under_way { IfOk result (λ m. IsUnderWay m) }
{
    let mut machine = job.machine_under(alloc, plan, placed)?;
    machine.room(count)?;
    Ok(machine)
}

impl JobRun {
    /// The controller of a job before any message, where these actions are placed, these others are still to come, and
    /// there is room for so many more. It fails for want of memory alone.
    pub(crate) fn begin(
        alloc: Global,
        job: &Job,
        placed: &Actions,
        whens: &[TimedAction],
        more: u32,
    ) -> Result<JobRun, AllocError>
        ensures beginning { IfOk result (λ r. standing r
            ≡ begun_beside more (record (job_in job.now) { actions = placed.now })
            (record job.now.timed { whens = whens.now })) }
        ensures faults { IfOk result (λ r. r.faults.faults ≡ found_in job.now.timed) }
        ensures kept { IfOk result (λ r. IsKept r) }
        ensures planned { IfOk result (λ r. MayPlan r) }
    {
        // Room for more than 2^32 of them is refused like any that is too much.
        let Ok(count) = u32::try_from(whens.len()) else {
            return Err(AllocError);
        };
        let Some(count) = count.checked_add(more) else {
            return Err(AllocError);
        };
        // Its faults are in their ranges.
        let _said = job.timed();
        let whens = awaiting(alloc, whens)?;
        let (plan, faults) = planned_first(alloc, job)?;
        Ok(JobRun {
            machine: machine_with_room(alloc, job, plan, placed, count)?,
            whens,
            faults,
            origin: job.start(),
        })
    }

    /// The plan and the actions at the end.
    pub(crate) fn end(self) -> Ended
        ensures plan { result.plan ≡ self.machine.plan }
        ensures actions { result.placed ++ result.posted ≡ self.machine.placed }
    {
        self.machine.end()
    }
}
