//! Calls on jobs.
use crate::told::Told;
use crate::worked::{FIVE, HUNDRED, ONE, job_of};
use bench_settings::ordered_actions;
use job_file::{JobError, JobsError, read_job, read_jobs};
use std::alloc::Global;

/// Whether a job was refused for want of memory alone.
fn refused(fault: &JobError) -> Told {
    match fault {
        JobError::Memory => Told::Refused,
        _ => Told::Wrong,
    }
}

/// Whether one of three jobs was.
fn one_refused(error: &JobsError) -> Told {
    if error.index < 3 {
        refused(&error.fault)
    } else {
        Told::Wrong
    }
}

/// `read_job`.
pub(crate) fn one(alloc: Global) -> Told {
    match read_job(alloc, HUNDRED.as_bytes()) {
        Ok(_) => Told::Well,
        Err(fault) => refused(&fault),
    }
}

/// `read_jobs` of three texts.
pub(crate) fn three(alloc: Global) -> Told {
    let texts = [HUNDRED.as_bytes(), FIVE.as_bytes(), ONE.as_bytes()];
    match read_jobs(alloc, &texts) {
        Ok(jobs) => Told::well(jobs.len() == 3),
        Err(error) => one_refused(&error),
    }
}

/// `Actions::copy`, of the actions of a job.
pub(crate) fn actions_copied(alloc: Global) -> Told {
    match job_of(alloc, HUNDRED) {
        Some(job) => Told::of(job.actions().copy().is_ok()),
        None => Told::Early,
    }
}

/// `ordered_actions`.
pub(crate) fn actions_ordered(alloc: Global) -> Told {
    match job_of(alloc, HUNDRED) {
        Some(job) => Told::of(ordered_actions(&job).is_ok()),
        None => Told::Early,
    }
}

/// `Job::machine`.
pub(crate) fn machine(alloc: Global) -> Told {
    match job_of(alloc, HUNDRED) {
        Some(job) => Told::of(job.machine(alloc, job.actions()).is_ok()),
        None => Told::Early,
    }
}
