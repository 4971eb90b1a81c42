//! `bench run --strict`: what is probably a mistake in the jobs of a run, said behind its counts.

use crate::judged_run::ErrorStream;
use bench_check::{mistakes_in, print_mistakes};
use command_finishing::mistakes::print_name;
use command_parts::options::{Row, flag};
use command_parts::requests::{CommandFault, RunRequest};
use command_parts::streams::flushed;
use job_file::Job;
use std::alloc::Global;
use std::io::BufWriter;
use text_lines::WriteFault;

/// The option of a run that is as strict as `bench check --strict`.
pub(crate) fn strict_option<'a>() -> Row<'a> {
    flag(
        "strict",
        "Says on standard error what is probably a mistake in the jobs; status 5 where anything is",
    )
}

/// Says on the error stream what is probably a mistake in the jobs of a run, those of each under a line with the name
/// of its file where there are several; nothing of a job that has none, and nothing where that is not asked for.
/// Whether anything was said is answered.
pub(crate) fn tell_mistakes<'a, E: Eprint>(
    alloc: Global,
    errors: &E,
    request: &RunRequest<'a>,
    texts: &[Vec<u8>],
    jobs: &[Job],
) -> Result<bool, CommandFault<'a>> {
    if !request.strict {
        return Ok(false);
    }
    match mistakes_told(alloc, errors, request, texts, jobs) {
        Ok(is_suspicious) => Ok(is_suspicious),
        Err(WriteFault::Memory) => Err(CommandFault::Memory),
        Err(WriteFault::Device) => Err(CommandFault::Device("-")),
    }
}

fn mistakes_told<E: Eprint>(
    alloc: Global,
    errors: &E,
    request: &RunRequest<'_>,
    texts: &[Vec<u8>],
    jobs: &[Job],
) -> Result<bool, WriteFault> {
    let mut out = BufWriter::new(alloc, ErrorStream { errors })?;
    let mut is_suspicious = false;
    for ((name, text), job) in request.jobs.iter().zip(texts).zip(jobs) {
        let mistakes = mistakes_in(alloc, job, text)?;
        if !mistakes.is_empty() {
            is_suspicious = true;
            if jobs.len() > 1 {
                print_name(&mut out, name)?;
            }
            print_mistakes(alloc, &mistakes, &mut out)?;
        }
    }
    flushed(&mut out)?;
    Ok(is_suspicious)
}
