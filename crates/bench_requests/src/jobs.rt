//! Jobs, judged once their files are read.
ghost use Rattle.bench_requests.specs.Requests.{IsRefusedJob};
ghost use Rattle.job_file.specs.Jobs.{job_in};
ghost use Rattle.job_file.specs.Texts.{AreSpelled};
ghost use Rattle.std.specs.Prelude.{◌≡◌, map, IfOk, IfErr};

use crate::fault::CommandFault;
use job_file::{Job, JobError};
use std::alloc::{AllocError, Global};

/// The texts as they stand, each lent out.
fn lent(alloc: Global, texts: &[Vec<u8>]) -> Result<Vec<&[u8]>, AllocError>
    ensures { IfOk result (λ slices. map (λ text. text.now) slices.items ≡ map (λ text. text.items) texts.now) }
{
    let mut slices = Vec::with_capacity(alloc, texts.len())?;
    for text in texts {
        slices.push(text.as_slice())?;
    }
    Ok(slices)
}

/// The jobs that texts spell, all of them and in their order, or the fault of the first that spells none or needs too
/// much.
pub fn jobs_of<'a>(alloc: Global, texts: &[Vec<u8>]) -> Result<Vec<Job>, CommandFault<'a>>
    ensures jobs { IfOk result (λ jobs. AreSpelled (map (λ text. text.items) texts.now) (map job_in jobs.items)) }
    ensures refused { IfErr result (IsRefusedJob (map (λ text. text.items) texts.now)) }
{
    let Ok(slices) = lent(alloc, texts) else {
        return Err(CommandFault::Memory);
    };
    match job_file::read_jobs(alloc, &slices) {
        Ok(jobs) => Ok(jobs),
        Err(error) => match error.fault {
            JobError::Memory => Err(CommandFault::Memory),
            fault => Err(CommandFault::Job(fault)),
        },
    }
}
