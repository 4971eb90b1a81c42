//! The jobs of several texts.
ghost use Rattle.job_file.specs.Jobs.{job_in};
ghost use Rattle.job_file.specs.Texts.{AreSpelled, IsFirstRefused};
ghost use Rattle.std.specs.Prelude.{map, IfOk, IfErr};

use crate::error::{JobError, JobsError};
use crate::jobs::Job;
use crate::reading::read_in;
use bumpalo::Bump;
use std::alloc::Global;

/// The jobs that texts spell, in their order. The texts are judged in their order: the first that is refused is
/// answered, with its place in the list and with J1 to J8 as `read_job` has them. One arena holds the trees of their
/// scripts, one after the other.
pub fn read_jobs(alloc: Global, texts: &[&[u8]]) -> Result<Vec<Job>, JobsError>
    ensures jobs { IfOk result (λ jobs. AreSpelled (map (λ text. text.now) texts.now) (map job_in jobs.items)) }
    ensures refused { IfErr result (λ e. IsFirstRefused (map (λ text. text.now) texts.now) e.index e.fault) }
{
    let mut arena = Bump::new(alloc);
    let mut jobs = Vec::new(alloc);
    for (index, text) in texts.iter().enumerate() {
        match read_in(alloc, &mut arena, text) {
            Ok(job) => {
                if jobs.push(job).is_err() {
                    return Err(JobsError {
                        index,
                        fault: JobError::Memory,
                    });
                }
            }
            Err(fault) => return Err(JobsError { index, fault }),
        }
    }
    Ok(jobs)
}
