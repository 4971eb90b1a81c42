//! The channels of jobs, report and recording.

use bench_report::Report;
use ch11_header::kinds::BUS_MESSAGES;
use ch11_reader::Index;
use job_file::Job;
use std::alloc::{AllocError, Global};
use std::fmt::Write;

/// Puts a channel behind those before it.
fn put_channel(out: &mut String, channel: u16) -> Result<(), AllocError> {
    write!(out, " {channel}")
}

/// Puts the channels of a recording, each where its first packet of messages stands.
fn put_recorded(alloc: Global, out: &mut String, recording: &Index<'_>) -> Result<(), AllocError> {
    let mut seen: Vec<u16> = Vec::new(alloc);
    for packet in recording.packets() {
        let channel = packet.header.channel;
        if packet.header.kind == BUS_MESSAGES && !seen.contains(&channel) {
            seen.push(channel)?;
            put_channel(out, channel)?;
        }
    }
    Ok(())
}

/// The lines with the channels of the jobs, in their order, of the report, and of the recording.
pub(crate) fn channels_of_each(
    alloc: Global,
    jobs: &[Job],
    report: &Report,
    recording: &Index<'_>,
) -> Result<String, AllocError> {
    let mut out = String::new(alloc);
    out.push_str("  channels of the jobs:")?;
    for job in jobs {
        put_channel(&mut out, job.channel())?;
    }
    out.push_str("\n  channels of the report:")?;
    for part in report.channels() {
        put_channel(&mut out, part.channel())?;
    }
    out.push_str("\n  channels of the recording:")?;
    put_recorded(alloc, &mut out, recording)?;
    out.push_str(
        "\n  name the recording, the report and the jobs of one run, the jobs in the order of that run\n",
    )?;
    Ok(out)
}
