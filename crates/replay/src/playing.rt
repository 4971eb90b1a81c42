//! A job that is played again beside the messages of its channel in the file.
ghost use Rattle.replay.specs.Accord.{AgreesOn, kept_in};
ghost use Rattle.replay.specs.Keeping.{AreSpaced, AddsStates, IsDue, IsUnplayed, PlaysOn};
ghost use Rattle.replay.specs.Places.{heard_channels};
ghost use Rattle.replay.specs.Playing.{TellsMessage, IsOver, HasOneMore, StopsBehind, FailsAt};
ghost use Rattle.replay.specs.Tracks.{IsThere, AreMarks};
ghost use Rattle.std.specs.Prelude.{◌≡◌, ◌+◌, ◌<◌, ◌^◌, true, false, MatchBool, IfOk, IfErr, OnOk, length};

use crate::checkpoints::{Due, Stop};
use crate::comparing::{is_record, is_refused};
use crate::error::ReplayError;
use crate::standings::Standing;
use crate::tracks::{Mark, Track, count};
use bc_machine::Machine;
use bench_report::ChannelReport;
use ch11_reader::{ChannelMessages, Index};
use job_file::{Job, next_record};
use std::alloc::{AllocError, Global};

/// What became of the next message of a job.
enum Played {
    /// The file has it next.
    Kept,
    /// The report lists it as refused.
    Refused,
    /// There is none, or the file has none or another one next.
    Unlike,
}

/// How far a job is played: its controller, the state that is to be kept next, and a mark before any message and behind
/// each one that was kept.
#[derive(Drop)]
struct Playing {
    standing: Standing,
    due: Due,
    marks: Vec<Mark>,
}

/// Plays the next message of a job beside the messages of its channel that are still to come in the file.
fn play_next(
    machine: &mut Machine,
    job: &Job,
    part: &ChannelReport,
    heard: &mut ChannelMessages<'_, '_>,
) -> Played
    requires { IsThere job.now part.now machine.old.point.number machine.old }
    ensures { TellsMessage job.now part.now machine.old.point.number result machine.new heard.old heard.new }
{
    // Its contract says that the script is sound.
    let _sound = job.program();
    let Some(made) = next_record(machine) else {
        return Played::Unlike;
    };
    if is_refused(part, machine.number()) {
        return Played::Refused;
    }
    match heard.next() {
        Some(seen) if is_record(&seen, &made) => Played::Kept,
        _ => Played::Unlike,
    }
}

/// Whether a job makes no more messages, and its channel has none in the file that is still to come.
fn is_over(
    machine: &mut Machine,
    job: &Job,
    part: &ChannelReport,
    heard: &mut ChannelMessages<'_, '_>,
) -> bool
    requires { IsThere job.now part.now machine.old.point.number machine.old }
    ensures { MatchBool result (IsOver job.now part.now machine.old.point.number heard.old)
        (HasOneMore job.now part.now machine.old.point.number heard.old) }
{
    // Its contract says that the script is sound.
    let _sound = job.program();
    match next_record(machine) {
        Some(_) => false,
        None => heard.next().is_none(),
    }
}

/// What is kept of the message that a controller stands behind.
fn mark(machine: &Machine) -> Mark
    ensures number { result.number ≡ machine.now.point.number }
    ensures last { result.last ≡ machine.now.latest }
{
    Mark {
        number: machine.number(),
        last: machine.latest_outcome(),
    }
}

impl Playing {
    /// A job before any message, where these are the channels of all messages. No state of it is kept yet.
    fn begin(
        alloc: Global,
        job: &Job,
        part: &ChannelReport,
        channels: &[u16],
    ) -> Result<Playing, AllocError>
        ensures { IfOk result (λ p. IsUnplayed job.now part.now p) }
    {
        let channel = job.channel();
        let standing = Standing::begin(alloc, job, part)?;
        let mut marks = Vec::with_capacity(alloc, count(channels, channel) + 1)?;
        marks.push(mark(&standing.machine))?;
        let due = Due::first(channel);
        Ok(Playing {
            standing,
            due,
            marks,
        })
    }

    /// Plays one message more, and says whether it is like the one in the file. Behind one that was kept it leaves a
    /// mark, and keeps the state at each checkpoint that is due.
    fn play_one(
        &mut self,
        alloc: Global,
        job: &Job,
        part: &ChannelReport,
        heard: &mut ChannelMessages<'_, '_>,
        channels: &[u16],
        stops: &mut Vec<Stop>,
    ) -> Result<bool, AllocError>
        requires there { IsThere job.now part.now self.old.standing.machine.point.number self.old.standing.machine }
        requires few { self.old.standing.heard < 2 ^ 32 }
        requires spaced { AreSpaced (length channels.now) (length stops.old.items) }
        requires due { IsDue channels.now job.now.channel (self.old.standing.heard + 1) (length stops.old.items)
            self.old.due }
        ensures on { IfOk result (λ like. like ≡ true → PlaysOn job.now part.now channels.now self.old heard.old
            stops.old.items self.new heard.new stops.new.items) }
        ensures unlike { IfOk result (λ like. like ≡ false → StopsBehind job.now part.now
            self.old.standing.machine.point.number heard.old) }
    {
        match play_next(&mut self.standing.machine, job, part, heard) {
            Played::Kept => {
                self.marks.push(mark(&self.standing.machine))?;
                self.standing.heard += 1;
                self.due.keep(alloc, &self.standing, channels, stops)?;
                Ok(true)
            }
            Played::Refused => Ok(true),
            Played::Unlike => Ok(false),
        }
    }

    /// Plays all messages of a job that is before any message, and keeps its state at each checkpoint. Y1 names the
    /// first number at fault.
    fn play_all(
        &mut self,
        alloc: Global,
        job: &Job,
        part: &ChannelReport,
        index: &Index<'_>,
        channels: &[u16],
        stops: &mut Vec<Stop>,
    ) -> Result<(), ReplayError>
        requires begun { IsUnplayed job.now part.now self.old }
        requires channels { channels.now ≡ heard_channels index.now }
        requires spaced { AreSpaced (length channels.now) (length stops.old.items) }
        ensures marks { OnOk result (AreMarks job.now part.now (kept_in job.now part.now) self.new.marks.items) }
        ensures agrees { OnOk result (AgreesOn index.now job.now part.now) }
        ensures fault { IfErr result (λ e. FailsAt index.now job.now part.now e) }
        ensures count { OnOk result (length stops.new.items ≡ length stops.old.items) }
        ensures states { OnOk result (AddsStates
            (record { job = job.now; part = part.now }) channels.now stops.old.items stops.new.items) }
    {
        let channel = job.channel();
        let mut heard = index.channel(channel);
        self.due.keep(alloc, &self.standing, channels, stops)?;
        for played in 0..part.made() {
            let like = self.play_one(alloc, job, part, &mut heard, channels, stops)?;
            if !like {
                let number = played + 1;
                return Err(ReplayError::Mismatch { channel, number });
            }
        }
        if !is_over(&mut self.standing.machine, job, part, &mut heard) {
            let number = part.made() + 1;
            return Err(ReplayError::Mismatch { channel, number });
        }
        Ok(())
    }
}

/// Plays a job again, under the actions that its part of the report says were placed, and compares part and file with
/// it. The track has a mark before any message, and behind each that was kept; and at each checkpoint the job's state
/// is kept, where these are the channels of all messages. Y1 names the first number at fault.
pub(crate) fn play(
    alloc: Global,
    job: &Job,
    part: &ChannelReport,
    index: &Index<'_>,
    channels: &[u16],
    stops: &mut Vec<Stop>,
) -> Result<Track, ReplayError>
    requires channels { channels.now ≡ heard_channels index.now }
    requires spaced { AreSpaced (length channels.now) (length stops.old.items) }
    ensures track { IfOk result (λ t. t ≡ record { job = job.now; part = part.now }) }
    ensures agrees { OnOk result (AgreesOn index.now job.now part.now) }
    ensures fault { IfErr result (λ e. FailsAt index.now job.now part.now e) }
    ensures count { OnOk result (length stops.new.items ≡ length stops.old.items) }
    ensures states { OnOk result (AddsStates
        (record { job = job.now; part = part.now }) channels.now stops.old.items stops.new.items) }
{
    // Its contract says that the script is sound.
    let _sound = job.program();
    let mut playing = Playing::begin(alloc, job, part, channels)?;
    playing.play_all(alloc, job, part, index, channels, stops)?;
    Ok(Track::of(job, part, playing.marks))
}
