//! The jobs whose states a session shows.
ghost use Rattle.bench_step.specs.Shown.{any_timed, jobs_under};
ghost use Rattle.std.specs.Prelude.{◌≡◌, IfOk};

use bench_report::Report;
use job_file::Job;
use std::alloc::{AllocError, Global};

/// Whether a line of one of these jobs plans a fault by time or by command.
pub(crate) fn any_timed(jobs: &[Job]) -> bool
    ensures { result ≡ any_timed jobs.now }
{
    jobs.iter().any(|job| job.finds_faults())
}

/// The jobs, each under the faults that are due where its part of the report says that actions were placed; one that
/// has no part of the report stays as it is, and so does one with no fault by time or by command. It fails for want of
/// memory alone.
#[tactic(auto, using(crate::proofs::OwnFaults::one_fewer))]
pub fn jobs_under(alloc: Global, jobs: Vec<Job>, report: &Report) -> Result<Vec<Job>, AllocError>
    ensures { IfOk result (λ under. under.items ≡ jobs_under jobs.items report.now.channels) }
{
    let mut parts = report.channels();
    let mut under = Vec::with_capacity(alloc, jobs.len())?;
    for job in jobs {
        match parts.split_first() {
            Some((part, rest)) => {
                under.push(job.under(alloc, part.placed())?)?;
                parts = rest;
            }
            None => under.push(job)?,
        }
    }
    Ok(under)
}
