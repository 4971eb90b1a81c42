//! The job by numbers alone of a job that has lines by time or by command: its controller is run once.
ghost use Rattle.frame_asm.specs.Shapes.{code_of_tree};
ghost use Rattle.frame_load.specs.Budget.{worst_messages};
ghost use Rattle.job_file.specs.Ends.{ComesTo};
ghost use Rattle.job_file.specs.Jobs.{own_inserts, said_in, tree_in, job_in};
ghost use Rattle.job_file.specs.Meaning.{records, records_in};
ghost use Rattle.job_file.specs.Resolving.{standing, IsKept, MayPlan};
ghost use Rattle.job_file.specs.Timed.{begun_beside, found_in, plan_under, resolved, run_out, says_nothing};
ghost use Rattle.job_file.specs.TimedLines.{nothing_yet, timed_inserts};
ghost use Rattle.std.specs.Prelude.{◌≡◌, ◌+◌, ◌≤◌, ◌++◌, [], true, false, IfOk, if◌then◌else◌};

use crate::job_run::JobRun;
use crate::jobs::Job;
use crate::laws::job_runs;
use crate::timed::TimedAction;
use bc_machine::{Actions, Ended};
use mil_line::Plan;
use std::alloc::{AllocError, Global};

/// These actions, and others behind them.
fn joined(mut first: Actions, others: &Actions) -> Result<Actions, AllocError>
    ensures { IfOk result (λ all. all ≡ first ++ others.now) }
{
    for place in 0..others.len() {
        first.push(others.get(place))?;
    }
    Ok(first)
}

/// Runs a job's controller once to its end, where these actions are placed and these others come to be due. It fails
/// for want of memory alone.
fn run_to_end(
    alloc: Global,
    job: &Job,
    placed: &Actions,
    whens: &[TimedAction],
) -> Result<Ended, AllocError>
    ensures { IfOk result (λ e. ComesTo (record (job_in job.now) { actions = placed.now })
        (record job.now.timed { whens = whens.now }) (e.placed ++ e.posted) e.plan) }
{
    let mut run = JobRun::begin(alloc, job, placed, whens, 0)?;
    run.go()?;
    Ok(run.end())
}

/// The actions and the plan at the end of a job's run, with what its lines say by time and by command. It fails for
/// want of memory alone.
fn found_by_run(alloc: Global, job: &Job) -> Result<(Actions, Plan), AllocError>
    ensures { IfOk result (λ r. ComesTo (job_in job.now) job.now.timed r.0 r.1) }
{
    let Ended {
        plan,
        placed,
        posted,
    } = run_to_end(alloc, job, job.actions(), job.timed().whens())?;
    Ok((joined(placed, &posted)?, plan))
}

/// The plan at the end of a job's run where these actions are placed, whatever its lines say of them by time and by
/// command. It fails for want of memory alone.
fn plan_of_run(alloc: Global, job: &Job, placed: &Actions) -> Result<Plan, AllocError>
    requires { job.now.timed.is_timed ≡ true }
    ensures { IfOk result (λ plan. plan ≡ plan_under (job_in job.now) job.now.timed placed.now) }
{
    let Ended { plan, .. } = run_to_end(alloc, job, placed, &[])?;
    Ok(plan)
}

/// The job by numbers alone that a job with lines by time and by command means: its controller is run once, without
/// them, and each of them is placed where it is due. Where there are none, it is the job itself, and no run is made. It
/// fails for want of memory alone. Condition: the job is as its lines say it.
pub(crate) fn resolve(alloc: Global, base: Job) -> Result<Job, AllocError>
    requires own { base.own ≡ [] }
    requires few { own_inserts base.actions + timed_inserts base.timed.whens
        + worst_messages (code_of_tree (tree_in base)).operations ≤ 1000000 }
    ensures job { IfOk result (λ j. job_in j ≡ resolved (job_in base) base.timed) }
    ensures script { IfOk result (λ j. j.script ≡ base.script) }
    ensures own { IfOk result (λ j. j.own ≡ (if says_nothing base.timed then [] else base.actions)) }
    ensures timed { IfOk result (λ j. j.timed ≡ (if says_nothing base.timed then nothing_yet else base.timed)) }
    ensures few { IfOk result (λ j. own_inserts j.actions
        + worst_messages (code_of_tree (tree_in j)).operations ≤ 1000000) }

    // Its records are those of that run.
    ensures records { IfOk result (λ j. says_nothing base.timed ≡ false
        → records_in (run_out (job_in base) base.timed).point.state ≡ records (job_in j) j.actions) }
{
    // The law of a job's records, for the proof.
    job_runs();
    if base.timed().is_empty() {
        return Ok(base.without_lines(alloc));
    }
    match found_by_run(alloc, &base) {
        Ok((actions, plan)) => Ok(base.by_number(actions, plan)),
        Err(error) => Err(error),
    }
}

impl Job {
    /// The job with the faults that are due where these actions are placed, whatever its lines say of them by time and
    /// by command: its controller is run once more to find them. Where none of its faults is by time or by command, it
    /// is the job itself, and no run is made. It fails for want of memory alone.
    pub fn under(self, alloc: Global, placed: &Actions) -> Result<Job, AllocError>
        ensures { IfOk result (λ j. j ≡ record self { plan = plan_under (job_in self) self.timed placed.now }) }
    {
        if !self.finds_faults() {
            return Ok(self);
        }
        match plan_of_run(alloc, &self, placed) {
            Ok(plan) => Ok(self.with_plan(plan)),
            Err(error) => Err(error),
        }
    }

    /// The job's controller before any message, with what its lines say by time and by command still to come, where so
    /// many actions more may be placed. It fails for want of memory alone.
    pub fn begin(&self, alloc: Global, posts: u32) -> Result<JobRun, AllocError>
        ensures beginning { IfOk result (λ r. standing r ≡ begun_beside posts (said_in self.now) self.now.timed) }
        ensures faults { IfOk result (λ r. r.faults.faults ≡ found_in self.now.timed) }
        ensures kept { IfOk result (λ r. IsKept r) }
        ensures planned { IfOk result (λ r. MayPlan r) }
    {
        JobRun::begin(
            alloc,
            self,
            self.said_actions(),
            self.timed().whens(),
            posts,
        )
    }
}
