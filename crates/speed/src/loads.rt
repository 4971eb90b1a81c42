//! The jobs that are run.
use job_file::{Job, read_job};
use std::alloc::{AllocError, Global};

/// How many channels there are, and how many messages each sends: to each of the 31 terminals one, `times` times
/// `rounds` times.
#[derive(Clone, Copy)]
pub struct Load {
    pub channels: u16,
    pub times: u16,
    pub rounds: u16,
}

/// The 32 words that each message sends to subaddress 1.
const WORDS: &str =
    "0000 1234 FFFF 8001 AAAA 5555 00FF FF00 0F0F F0F0 0102 0304 0506 0708 090A 0B0C \
    0D0E 0F10 1112 1314 1516 1718 191A 1B1C 1D1E 1F20 2122 2324 2526 2728 292A 2B2C";

/// The text of the job of a channel.
fn text_of(alloc: Global, channel: u16, load: Load) -> Result<String, AllocError> {
    let mut text = format!(in alloc; "channel {channel}\n")?;
    for address in 0..31u8 {
        let line = format!(in alloc; "terminal {address}\n")?;
        text.push_str(line.as_str())?;
    }
    let head = format!(in alloc;
        "script\nrepeat {} {{ repeat {} {{\n",
        load.times, load.rounds
    )?;
    text.push_str(head.as_str())?;
    for address in 0..31u8 {
        let line = format!(in alloc; "send A rx {address} 1 [{WORDS}]\n")?;
        text.push_str(line.as_str())?;
    }
    text.push_str("} }\n")?;
    Ok(text)
}

/// The jobs of the channels 1, 2, .. of a load. None where memory is refused, or where a number is too large for a
/// script.
pub fn jobs_of(alloc: Global, load: Load) -> Option<Vec<Job>> {
    let mut jobs = Vec::new(alloc);
    for channel in 0..load.channels {
        let text = text_of(alloc, channel.wrapping_add(1), load).ok()?;
        let job = read_job(alloc, text.as_bytes()).ok()?;
        jobs.push(job).ok()?;
    }
    Some(jobs)
}
