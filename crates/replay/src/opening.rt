//! Opening a recording: do jobs, report and recording agree?
ghost use Rattle.bench_settings.specs.Lawful.{channels_of};
ghost use Rattle.replay.specs.Accord.{reported, AreOfChannels};
ghost use Rattle.replay.specs.Differences.{IsWrongChannel, IsStranger};
ghost use Rattle.replay.specs.Keeping.{AreSpaced};
ghost use Rattle.replay.specs.Moves.{OpensNot};
ghost use Rattle.replay.specs.Opening.{AgreeBefore, FailsIn};
ghost use Rattle.replay.specs.Places.{heard_channels};
ghost use Rattle.replay.specs.Standings.{AreCheckpoints};
ghost use Rattle.replay.specs.Tracks.{jobs_in, parts_in};
ghost use Rattle.std.specs.Prelude.{◌≡◌, ◌++◌, [], length, replicate, IfOk, IfErr, OnOk, MatchOption};

use crate::checkpoints::Stop;
use crate::error::ReplayError;
use crate::playing::play;
use crate::tracks::Track;
use bench_report::ChannelReport;
use ch11_header::kinds::BUS_MESSAGES;
use ch11_reader::Index;
use job_file::Job;
use std::alloc::{AllocError, Global};

/// The channels of the jobs, in their order.
fn channels_of(alloc: Global, jobs: &[Job]) -> Result<Vec<u16>, AllocError>
    ensures { IfOk result (λ v. v.items ≡ channels_of jobs.now) }
{
    let mut channels = Vec::with_capacity(alloc, jobs.len())?;
    for job in jobs {
        channels.push(job.channel())?;
    }
    Ok(channels)
}

/// The channels of a report, in its order.
fn reported(alloc: Global, parts: &[ChannelReport]) -> Result<Vec<u16>, AllocError>
    ensures { IfOk result (λ v. v.items ≡ reported parts.now) }
{
    let mut channels = Vec::with_capacity(alloc, parts.len())?;
    for part in parts {
        channels.push(part.channel())?;
    }
    Ok(channels)
}

/// Where the channels of jobs and report differ first: the job's, or the report's where no job is left.
fn wrong_channel(jobs: &[u16], parts: &[u16]) -> Option<u16>
    ensures { MatchOption result (parts.now ≡ jobs.now) (λ c. IsWrongChannel jobs.now parts.now c) }
{
    match (jobs.split_first(), parts.split_first()) {
        (None, None) => None,
        (Some((job, _)), None) => Some(*job),
        (None, Some((part, _))) => Some(*part),
        (Some((job, _)), Some((part, _))) if job != part => Some(*job),
        (Some((_, jobs)), Some((_, parts))) => wrong_channel(jobs, parts),
    }
}

/// The channel of the first packet of MIL-STD-1553 messages that is of none of these channels.
fn stranger(jobs: &[u16], index: &Index<'_>) -> Option<u16>
    ensures { MatchOption result (AreOfChannels jobs.now index.now) (λ c. IsStranger jobs.now index.now c) }
{
    for packet in index.packets() {
        if packet.header.kind == BUS_MESSAGES && !jobs.contains(&packet.header.channel) {
            return Some(packet.header.channel);
        }
    }
    None
}

/// Pushes a channel so many times.
fn push_times(channels: &mut Vec<u16>, channel: u16, count: u64) -> Result<(), AllocError>
    ensures { OnOk result (channels.new.items ≡ channels.old.items ++ replicate count channel) }
{
    let mut left = count;
    while left > 0 {
        channels.push(channel)?;
        left -= 1;
    }
    Ok(())
}

/// The channel of each message of a file, in the file's order.
pub(crate) fn message_channels(alloc: Global, index: &Index<'_>) -> Result<Vec<u16>, AllocError>
    ensures { IfOk result (λ v. v.items ≡ heard_channels index.now) }
{
    let mut channels = Vec::with_capacity(alloc, index.total() as usize)?;
    for packet in index.packets() {
        push_times(&mut channels, packet.header.channel, packet.count)?;
    }
    Ok(channels)
}

/// Compares the channels of jobs, report and file. Y1 names the first that is wrong, as number 0.
pub(crate) fn compare_channels(
    alloc: Global,
    jobs: &[Job],
    parts: &[ChannelReport],
    index: &Index<'_>,
) -> Result<(), ReplayError>
    ensures channels { OnOk result (reported parts.now ≡ channels_of jobs.now) }
    ensures known { OnOk result (AreOfChannels (channels_of jobs.now) index.now) }
    ensures wrong { IfErr result (λ e. OpensNot jobs.now parts.now index.now e) }
{
    let own = channels_of(alloc, jobs)?;
    let others = reported(alloc, parts)?;
    if let Some(channel) = wrong_channel(&own, &others) {
        return Err(ReplayError::Mismatch { channel, number: 0 });
    }
    if let Some(channel) = stranger(&own, index) {
        return Err(ReplayError::Mismatch { channel, number: 0 });
    }
    Ok(())
}

/// Plays job after job, each with its part of the report, and keeps their states at the checkpoints, where these are
/// the channels of all messages. Y1 names the first number at fault of the first job that has one. Conditions: there
/// are as many parts as jobs, and no state is kept yet.
pub(crate) fn tracks(
    alloc: Global,
    jobs: &[Job],
    parts: &[ChannelReport],
    index: &Index<'_>,
    channels: &[u16],
    stops: &mut Vec<Stop>,
) -> Result<Vec<Track>, ReplayError>
    requires parts { length parts.now ≡ length jobs.now }
    requires channels { channels.now ≡ heard_channels index.now }
    requires spaced { AreSpaced (length channels.now) (length stops.old.items) }
    requires stops { AreCheckpoints [] channels.now stops.old.items }
    ensures jobs { IfOk result (λ v. jobs_in v.items ≡ jobs.now) }
    ensures parts { IfOk result (λ v. parts_in v.items ≡ parts.now) }
    ensures agree { OnOk result (AgreeBefore index.now jobs.now parts.now (length jobs.now)) }
    ensures fault { IfErr result (λ e. FailsIn jobs.now parts.now index.now e) }
    ensures count { OnOk result (length stops.new.items ≡ length stops.old.items) }
    ensures states { IfOk result (λ v. AreCheckpoints v.items channels.now stops.new.items) }
{
    let mut tracks = Vec::with_capacity(alloc, jobs.len())?;
    for i in 0..jobs.len() {
        tracks.push(play(alloc, &jobs[i], &parts[i], index, channels, stops)?)?;
    }
    Ok(tracks)
}
