//! How many messages a full queue refused, and of which channels.
ghost use Rattle.bench_run_command.specs.Refused.{refused_count, refusals_text, refused_of, told_of};
ghost use Rattle.std.specs.Prelude.{◌≡◌, string_bytes, IfOk};

use bench_report::{ChannelReport, Report};
use std::alloc::{AllocError, Global};
use std::fmt::Write;

/// How many messages of all channels were refused. At most 2^64 - 1; a run makes 32,000,000 at most.
fn refused_count(report: &Report) -> u64
    ensures { result ≡ refused_count report.now.channels }
{
    let mut refused: u64 = 0;
    for channel in report.channels() {
        refused = refused.saturating_add(channel.refused().len() as u64);
    }
    refused
}

/// `, 10 of channel 1`.
fn told_of(alloc: Global, refused: u64, channel: u16) -> Result<String, AllocError>
    ensures { IfOk result (λ text. string_bytes text ≡ told_of refused channel) }
{
    let mut text = String::new(alloc);
    text.push_str(", ")?;
    write!(text, "{refused}")?;
    text.push_str(" of channel ")?;
    write!(text, "{channel}")?;
    Ok(text)
}

/// The same of a channel of a report; nothing where no message of it was refused.
fn refused_of(alloc: Global, channel: &ChannelReport) -> Result<String, AllocError>
    ensures { IfOk result (λ text. string_bytes text ≡ refused_of channel.now) }
{
    match channel.refused().len() {
        0 => Ok(String::new(alloc)),
        refused => told_of(alloc, refused as u64, channel.channel()),
    }
}

/// How many messages were refused at a full queue and of which channels, as in
/// `12 messages were refused at a full queue, 10 of channel 1, 2 of channel 3`; no text where none was.
pub fn refusals(alloc: Global, report: &Report) -> Result<String, AllocError>
    ensures { IfOk result (λ text. string_bytes text ≡ refusals_text report.now.channels) }
{
    let refused = refused_count(report);
    if refused == 0 {
        return Ok(String::new(alloc));
    }
    let mut text = String::new(alloc);
    write!(text, "{refused}")?;
    text.push_str(" messages were refused at a full queue")?;
    for channel in report.channels() {
        text.push_str(refused_of(alloc, channel)?.as_str())?;
    }
    Ok(text)
}
