//! The reading of job texts, for `benches/jobs`: TEXT COUNT, the text of a file, so many times as the jobs of one list.
//! It prints how many bytes were read, in how many nanoseconds, and what they came to.
use crate::watch::Watch;
use crate::words::{file, number};
use job_file::{Job, JobsError, read_jobs};
use std::io;

/// How often the texts are read; the best counts.
const ROUNDS: u32 = 7;

/// How many operations and messages the programs of jobs have together, or which text is refused and why.
type Came = Result<(u64, u64), JobsError>;

/// What texts came to.
fn came_of(read: &Result<Vec<Job>, JobsError>) -> Came {
    match read {
        Ok(jobs) => {
            let (mut operations, mut messages) = (0u64, 0u64);
            for job in jobs {
                let image = job.program().image();
                operations = operations.wrapping_add(image.operations().len() as u64);
                messages = messages.wrapping_add(image.messages().len() as u64);
            }
            Ok((operations, messages))
        }
        Err(error) => Err(*error),
    }
}

/// How many nanoseconds the reading of texts took, and what they came to.
fn once(watch: &Watch<'_>, texts: &[&[u8]]) -> (u64, Came) {
    let start = watch.nanos();
    let read = read_jobs(watch.rt.alloc(), texts);
    (watch.since(start), came_of(&read))
}

/// The best of all rounds, with a text as so many jobs; None where memory is refused.
fn best(watch: &Watch<'_>, text: &[u8], count: u64) -> Option<(u64, Came)> {
    let mut texts = Vec::new(watch.rt.alloc());
    for _ in 0..count {
        texts.push(text).ok()?;
    }
    let (mut best, came) = once(watch, &texts);
    for _ in 1..ROUNDS {
        best = best.min(once(watch, &texts).0);
    }
    Some((best, came))
}

/// How many bytes the words ask for are, and the best of their rounds.
fn measured(watch: &Watch<'_>, words: &[&str]) -> Option<(u64, u64, Came)> {
    let count = number(words, 1)?;
    let text = file(watch.rt, words, 0)?;
    let (nanos, came) = best(watch, &text, count)?;
    Some(((text.len() as u64).wrapping_mul(count), nanos, came))
}

/// Prints what the words ask for.
pub(crate) fn tell(watch: &Watch<'_>, words: &[&str]) -> io::Result<()> {
    let rt = watch.rt;
    match measured(watch, words) {
        Some((bytes, nanos, Ok((operations, messages)))) => {
            println!(rt; "{bytes} {nanos} operations {operations} messages {messages}")
        }
        Some((bytes, nanos, Err(error))) => println!(rt; "{bytes} {nanos} {} {error}", error.index),
        None => println!(rt; "no figures"),
    }
}
