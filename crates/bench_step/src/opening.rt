//! Opening a recording under the debugger.
ghost use Rattle.bench_step.specs.Answering.{MayBeDebugged, IsOpeningRefusal, IsRefusal, opened_on};
ghost use Rattle.bench_step.specs.Shown.{IsShown, jobs_under};
ghost use Rattle.ch11_reader.specs.Indexed.{found_in};
ghost use Rattle.ch11_reader.specs.Recording.{packets_in};
ghost use Rattle.replay.specs.Accord.{Agrees};
ghost use Rattle.std.specs.Prelude.{◌≡◌, Ok, IfOk, IfErr, OnOk};

use crate::fault::StepFault;
use crate::shown::{any_timed, jobs_under};
use bench_report::Report;
use ch11_reader::Index;
use job_file::Job;
use replay::{Replay, ReplayError, difference_excludes_accord};
use std::alloc::Global;

/// A debugger on a recording that can be read, where these very jobs and the report agree with it.
#[tactic(auto, using(crate::proofs::NotIndexed::not_indexed))]
fn open_with<'a>(
    alloc: Global,
    jobs: &[Job],
    report: &Report,
    recording: &'a [u8],
) -> Result<Replay<'a>, StepFault>
    ensures ok { IfOk result (λ r. r.state ≡ opened_on jobs.now report.now.channels recording.now) }
    ensures accepted { OnOk result (MayBeDebugged jobs.now report.now.channels recording.now) }
    ensures refused { IfErr result (IsOpeningRefusal jobs.now report.now.channels recording.now) }
{
    let index = Index::build(alloc, recording)?;
    match Replay::open(alloc, jobs, report, index) {
        Ok(replay) => Ok(replay),
        Err(ReplayError::Mismatch { channel, number }) => {
            Err(StepFault::Mismatch { channel, number })
        }
        Err(_) => Err(StepFault::Memory),
    }
}

/// The same on these jobs under the faults that are due where the report says that actions were placed. Conditions: the
/// recording can be read, and the jobs as they are given do not agree.
#[tactic(auto, using(crate::proofs::Refusing::refused_under))]
fn open_under<'a>(
    alloc: Global,
    jobs: Vec<Job>,
    report: &Report,
    recording: &'a [u8],
) -> Result<Replay<'a>, StepFault>
    requires readable { packets_in recording.now ≡ Ok (found_in recording.now) }
    requires differ { ¬ Agrees jobs.items report.now.channels (found_in recording.now) }
    ensures shown { IfOk result (λ r. r.state.jobs ≡ jobs_under jobs.items report.now.channels) }
    ensures ok { IfOk result (λ r. r.state ≡ opened_on r.state.jobs report.now.channels recording.now) }
    ensures accepted { IfOk result (λ r. MayBeDebugged r.state.jobs report.now.channels recording.now) }
    ensures refused { IfErr result (IsRefusal jobs.items report.now.channels recording.now) }
{
    match jobs_under(alloc, jobs, report) {
        Ok(under) => open_with(alloc, &under, report, recording),
        Err(_) => Err(StepFault::Memory),
    }
}

/// A debugger on a recording that can be read, where jobs and report agree with it: the jobs as they are given, or,
/// where these do not, under the faults that are due where the report says that actions were placed.
#[tactic(auto, using(crate::proofs::Refusing::refused_otherwise, crate::proofs::Refusing::refused_as_given))]
pub(crate) fn open_replay<'a>(
    alloc: Global,
    jobs: Vec<Job>,
    report: &Report,
    recording: &'a [u8],
) -> Result<Replay<'a>, StepFault>
    ensures shown { IfOk result (λ r. IsShown jobs.items report.now.channels recording.now r.state.jobs) }
    ensures ok { IfOk result (λ r. r.state ≡ opened_on r.state.jobs report.now.channels recording.now) }
    ensures accepted { IfOk result (λ r. MayBeDebugged r.state.jobs report.now.channels recording.now) }
    ensures refused { IfErr result (IsRefusal jobs.items report.now.channels recording.now) }
{
    // The law of differences, for the proof.
    difference_excludes_accord();
    match open_with(alloc, &jobs, report, recording) {
        Ok(replay) => Ok(replay),
        Err(StepFault::Mismatch { .. }) if any_timed(&jobs) => {
            open_under(alloc, jobs, report, recording)
        }
        Err(fault) => Err(fault),
    }
}
