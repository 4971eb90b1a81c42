//! One job under the debugger.
ghost use Rattle.ch11_recording.specs.Items.{last_number};
ghost use Rattle.frame_tree.specs.Bounds.{IsSound};
ghost use Rattle.job_file.specs.Jobs.{tree_in};
ghost use Rattle.replay.specs.Accord.{kept_in, played};
ghost use Rattle.replay.specs.Places.{IsAfter};
ghost use Rattle.replay.specs.Standings.{HasNoExtraMessages, IsAt};
ghost use Rattle.replay.specs.Tracks.{IsThere, IsLast, AreMarks};
ghost use Rattle.std.specs.Prelude.{◌≡◌, ◌≤◌, ◌==◌, ℕ, count_by, length, take};

use crate::standings::Standing;
use bc_machine::Machine;
use bench_report::ChannelReport;
use job_file::{Job, job_runs, next_record};
use mil_bus::Outcome;
use std::marker::Model;
use std::snapshot::Snapshot;

/// What is kept of each message that was kept: its number in its channel, and its outcome; and of none, number 0.
#[derive(Clone, Copy, Debug)]
pub(crate) struct Mark {
    pub(crate) number: u32,
    pub(crate) last: Option<Outcome>,
}

/// A job with its part of the report, and a mark before any message and behind each message that was kept. Contracts
/// see the job and the part, of which no byte is kept.
#[derive(Drop)]
pub(crate) struct Track {
    channel: u16,
    marks: Vec<Mark>,
    job: Snapshot<Job>,
    part: Snapshot<ChannelReport>,
}

impl Model for Track {
    ghost use Rattle.job_file.specs.contracts.scripts.Script as scripts;
    ghost use Rattle.replay.specs.Tracks.{Pair, IsTrack};
    ghost use Rattle.std.specs.Coded.{codes};

    ghost Value = { Pair };

    ghost coded = { Prim.hlevel (codes, scripts.the_row.coded) };

    ghost view = { λ t. record { job = t.job.value; part = t.part.value } };

    ghost invariant = { λ t. IsTrack t.job.value t.part.value t.channel t.marks.items };
}

/// How many of the numbers are this one.
pub(crate) fn count(channels: &[u16], channel: u16) -> usize
    ensures value { result ≡ count_by (λ c. c == channel) channels.now }
    ensures few { result ≤ length channels.now }
{
    channels.iter().filter(|one| **one == channel).count()
}

impl Track {
    /// A job with its part of the report and these marks.
    pub(crate) fn of(job: &Job, part: &ChannelReport, marks: Vec<Mark>) -> Track
        requires sound { IsSound (tree_in job.now) }
        requires marks { AreMarks job.now part.now (kept_in job.now part.now) marks.items }
        ensures { result ≡ record { job = job.now; part = part.now } }
    {
        Track {
            channel: job.channel(),
            marks,
            job: Snapshot::of(job),
            part: Snapshot::of(part),
        }
    }

    /// The number of the job's channel, 1 to 65,535.
    pub(crate) fn channel(&self) -> u16
        ensures { result ≡ self.now.job.channel }
    {
        self.channel
    }

    /// The number of the last of so many messages that were kept, 0 where there is none. Condition: there are as many.
    pub(crate) fn number(&self, heard: usize) -> u32
        requires { heard ≤ length (kept_in self.now.job self.now.part) }
        ensures { result ≡ last_number (take heard (kept_in self.now.job self.now.part)) }
    {
        self.marks[heard].number
    }

    /// Its outcome, None where there is none. Condition: there are as many.
    pub(crate) fn outcome(&self, heard: usize) -> Option<Outcome>
        requires { heard ≤ length (kept_in self.now.job self.now.part) }
        ensures { IsLast self.now.job self.now.part
            (last_number (take heard (kept_in self.now.job self.now.part))) result }
    {
        // The laws of a job's records, for the proofs.
        job_runs();
        self.marks[heard].last
    }

    /// Plays the job's controller on to the message of a number. Conditions: it does not stand behind a later one, and
    /// the job makes as many.
    fn play_to(&self, machine: &mut Machine, number: u32)
        requires there { IsThere self.now.job self.now.part machine.old.point.number machine.old }
        requires behind { machine.old.point.number ≤ number }
        requires made { number ≤ length (played self.now.job self.now.part) }
        ensures { IsThere self.now.job self.now.part number machine.new }
    {
        // A job's script is sound by its type.
        let _sound = self.channel;
        for _number in machine.number()..number {
            // Its record was compared before.
            let _ = next_record(machine);
        }
    }

    /// Plays the job's controller on from a place of the file to a later one, where these are the channels of all
    /// messages. Condition: no more of them are of the job's channel than were kept.
    pub(crate) fn play_on(&self, standing: &mut Standing, channels: &[u16], from: usize, to: usize)
        requires order { from ≤ to }
        requires end { to ≤ length channels.now }
        requires room { HasNoExtraMessages channels.now self.now }
        requires at { IsAt channels.now from self.now standing.old.heard standing.old.machine }
        ensures { IsAt channels.now to self.now standing.new.heard standing.new.machine }
    {
        standing.heard += count(&channels[from..to], self.channel);
        let number = self.number(standing.heard);
        self.play_to(&mut standing.machine, number);
    }

    /// The controller that stands there.
    pub(crate) fn machine<'a>(&self, standing: &'a Standing) -> &'a Machine
        ensures { (number : ℕ) → IsThere self.now.job self.now.part number standing.now.machine
            → IsAfter self.now.job self.now.part number result.now }
    {
        // The laws of a job's records, for the proofs.
        job_runs();
        // A job's script is sound by its type.
        let _sound = self.channel;
        &standing.machine
    }
}
