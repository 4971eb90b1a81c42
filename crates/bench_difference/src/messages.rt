//! A message of a channel: as its job makes it, and as the recording has it.

use crate::channels::channels_of_each;
use bench_report::{ChannelReport, Report};
use ch11_f1::{Record, Seen};
use ch11_reader::Index;
use job_file::{Job, next_record};
use std::alloc::{AllocError, Global};
use std::fmt::Write;

/// The message of a number that a job makes, under the actions that its part of the report says were placed; none
/// where it makes fewer.
fn made(
    alloc: Global,
    job: &Job,
    part: &ChannelReport,
    number: u32,
) -> Result<Option<Record>, AllocError> {
    let mut machine = job.machine(alloc, part.placed())?;
    let mut last = None;
    for _ in 0..number {
        last = next_record(&mut machine);
        if last.is_none() {
            return Ok(None);
        }
    }
    Ok(last)
}

/// How many messages of a channel stand in the recording in front of the one of a number, where the report says which
/// were refused.
fn kept_before(part: &ChannelReport, number: u32) -> u32 {
    let mut kept = number.saturating_sub(1);
    for refused in part.refused() {
        if *refused < number {
            kept = kept.saturating_sub(1);
        }
    }
    kept
}

/// The message of a channel that stands in a recording behind so many.
fn recorded<'a>(recording: &Index<'a>, channel: u16, behind: u32) -> Option<Seen<'a>> {
    let mut messages = recording.channel(channel);
    for _ in 0..behind {
        // It stands in front of the one that is asked for.
        let _ = messages.next()?;
    }
    messages.next()
}

fn put_word(out: &mut String, word: u16) -> Result<(), AllocError> {
    write!(out, " {word:04X}")
}

/// Puts a message that a job makes.
fn put_made(out: &mut String, record: &Record) -> Result<(), AllocError> {
    let (stamp, block, gaps) = (record.stamp, record.block, record.gaps);
    write!(out, "stamp {stamp} block {block:04X} gaps {gaps:04X} words")?;
    for word in record.words.as_slice() {
        put_word(out, *word)?;
    }
    out.push('\n')
}

/// Puts a message that a recording has.
fn put_recorded(out: &mut String, seen: &Seen<'_>) -> Result<(), AllocError> {
    let (stamp, block, gaps) = (seen.stamp, seen.block, seen.gaps);
    write!(out, "stamp {stamp} block {block:04X} gaps {gaps:04X} words")?;
    for place in 0..seen.word_count() {
        put_word(out, seen.word(place))?;
    }
    out.push('\n')
}

/// The lines that say what was expected at the first difference, and what the recording has: of a message of a
/// channel, counted from 1; of the channels themselves, where the number is 0.
pub fn difference(
    alloc: Global,
    jobs: &[Job],
    report: &Report,
    recording: &Index<'_>,
    channel: u16,
    number: u32,
) -> Result<String, AllocError> {
    if number == 0 {
        return channels_of_each(alloc, jobs, report, recording);
    }
    let mut out = String::new(alloc);
    for (job, part) in jobs.iter().zip(report.channels()) {
        if job.channel() == channel {
            put_both(alloc, &mut out, job, part, recording, number)?;
        }
    }
    out.push_str(
        "  name the recording, the report and the jobs of one run, the jobs as they were in that run\n",
    )?;
    Ok(out)
}

/// Puts the message of a number as the job makes it, and as the recording has it.
fn put_both(
    alloc: Global,
    out: &mut String,
    job: &Job,
    part: &ChannelReport,
    recording: &Index<'_>,
    number: u32,
) -> Result<(), AllocError> {
    let reported = part.made();
    if reported < number {
        write!(
            out,
            "  the report says that {reported} messages were made\n"
        )?;
    }
    out.push_str("  expected: ")?;
    match made(alloc, job, part, number)? {
        Some(record) => put_made(out, &record)?,
        None => out.push_str("no more messages\n")?,
    }
    out.push_str("  recorded: ")?;
    match recorded(recording, job.channel(), kept_before(part, number)) {
        Some(seen) => put_recorded(out, &seen),
        None => out.push_str("no more messages\n"),
    }
}
