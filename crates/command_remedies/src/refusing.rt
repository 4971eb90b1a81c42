//! Why jobs and settings may not be run: which setting, how many jobs, which two of them.

use crate::named::Named;
use bench_settings::WorldError;
use command_parts::requests::{RunRequest, jobs_of, texts_again};
use job_file::Job;
use std::alloc::AllocError;
use std::fmt::Write;
use std::rt::Files;

/// The lines that say why jobs and settings may not be run; none where the fault's code says all that there is.
pub(crate) fn refusal_of<R: Files + AllocGlobal>(
    rt: &R,
    named: &Named<'_, '_>,
    error: WorldError,
) -> Result<Option<String>, AllocError> {
    match (error, named.run) {
        (WorldError::Settings, Some(run)) => Ok(Some(setting_at_fault(rt, run)?)),
        (WorldError::Settings, None) => Ok(Some(count_of_jobs(rt, named.jobs.len())?)),
        (WorldError::ChannelTwice, _) => jobs_of_one_channel(rt, named.jobs),
        _ => Ok(None),
    }
}

fn count_of_jobs<R: AllocGlobal>(rt: &R, count: usize) -> Result<String, AllocError> {
    format!(in rt.alloc(); "  {count} jobs are named; name 1 to 32, each of another channel\n")
}

/// The first setting that is out of its range, or how many jobs there are.
fn setting_at_fault<R: AllocGlobal>(
    rt: &R,
    request: &RunRequest<'_>,
) -> Result<String, AllocError> {
    let (limit, queue) = (request.limit, request.queue);
    if !(1..=32).contains(&request.jobs.len()) {
        return count_of_jobs(rt, request.jobs.len());
    }
    if !(256..=524_288).contains(&limit) {
        return format!(in rt.alloc();
            "  --limit is {limit}; a packet has at most 256 to 524288 bytes\n"
        );
    }
    format!(in rt.alloc(); "  --queue is {queue}; 1 to 4096 messages may wait\n")
}

/// Which two of these files are jobs of one channel. They are read once more.
fn jobs_of_one_channel<R: Files + AllocGlobal>(
    rt: &R,
    names: &[&str],
) -> Result<Option<String>, AllocError> {
    let Ok(texts) = texts_again(rt, names) else {
        return Ok(None);
    };
    let Ok(jobs) = jobs_of(rt.alloc(), &texts) else {
        return Ok(None);
    };
    let mut rest = jobs.as_slice();
    for name in names {
        let Some((job, behind)) = rest.split_first() else {
            return Ok(None);
        };
        if let Some(other) = same_channel(job, behind, names) {
            let channel = job.channel();
            let text = format!(in rt.alloc();
                "  channel {channel} is that of {name} and of {other}; give each job a channel of its own\n"
            )?;
            return Ok(Some(text));
        }
        rest = behind;
    }
    Ok(None)
}

/// The name of the first of the last jobs that has the channel of a job.
fn same_channel<'a>(job: &Job, last: &[Job], names: &[&'a str]) -> Option<&'a str> {
    let (_, last_names) = names.split_at(names.len().saturating_sub(last.len()));
    for (name, other) in last_names.iter().zip(last) {
        if other.channel() == job.channel() {
            return Some(*name);
        }
    }
    None
}
