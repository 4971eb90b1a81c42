//! The debugger: a recording, and behind how many of its messages it stands.
ghost use Rattle.frame_tree.specs.Tree.{condition_in};
ghost use Rattle.job_file.specs.Jobs.{JobState, job_in};
ghost use Rattle.job_file.specs.Machines.{IsOf, IsLatestOutcome};
ghost use Rattle.job_file.specs.Meaning.{bus_after, made_after};
ghost use Rattle.mil_bus.specs.Exchange.{played};
ghost use Rattle.replay.specs.Accord.{Agrees};
ghost use Rattle.replay.specs.Moves.{OpensNot, PastWhere, StartWhere, IsMemory, IsMove};
ghost use Rattle.replay.specs.Moves.{opened, at_place, total_of, OfJob};
ghost use Rattle.replay.specs.Moves.{IsNextMet, IsNowhere, IsLatestMet, IsNowhereBefore};
ghost use Rattle.replay.specs.Places.{latest_kept_number};
ghost use Rattle.std.specs.Prelude.{◌≡◌, ◌+◌, ◌-◌, ◌<◌, ◌≤◌, ◌%◌, [], length, slice_get};
ghost use Rattle.std.specs.Prelude.{Some, IfOk, IfErr, OnOk, OnErr};

use crate::checkpoints::empty_stops;
use crate::error::ReplayError;
use crate::finding::{first_met, latest_met};
use crate::opening::{compare_channels, message_channels, tracks};
use crate::standings::begin_all;
use crate::timeline::Timeline;
use bc_machine::Machine;
use bench_report::Report;
use ch11_reader::Index;
use frame_tree::Cond;
use job_file::Job;
use std::alloc::{Allocator, Global};
use std::marker::Model;

/// A recording under the debugger, with the jobs and the report of its run, which agree with it. Contracts see the
/// jobs, their parts of the report, the packets of the file, the place, which is behind how many messages it
/// stands, how many messages the last move that succeeded has played, and the places other than the multiples of 64 at
/// which states are kept.
#[derive(Drop)]
pub struct Replay<'a> {
    index: Index<'a>,
    timeline: Timeline,
    place: u64,
    replayed: u64,
}

impl<'a> Model for Replay<'a> {
    ghost use Rattle.job_file.specs.contracts.scripts.Script as scripts;
    ghost use Rattle.replay.specs.Moves.{DebuggerState};
    ghost use Rattle.replay.specs.Replaying.{IsReplay};
    ghost use Rattle.replay.specs.Standings.{places_of};
    ghost use Rattle.replay.specs.Tracks.{jobs_in, parts_in};
    ghost use Rattle.std.specs.Coded.{codes};

    ghost Value = { DebuggerState };

    ghost coded = { Prim.hlevel (codes, scripts.the_row.coded) };

    ghost view = { λ r. record {
      state = record {
        jobs = jobs_in r.timeline.tracks.items;
        parts = parts_in r.timeline.tracks.items;
        found = r.index;
        place = r.place;
      };
      replayed = r.replayed;
      kept = places_of r.timeline.recent.items;
    } };

    ghost invariant = { λ r. IsReplay (record {
      jobs = jobs_in r.timeline.tracks.items;
      parts = parts_in r.timeline.tracks.items;
      found = r.index;
      place = r.place;
    }) r.timeline r.replayed };
}

impl<'a> Replay<'a> {
    /// Plays the jobs again, each under the actions that the report says were placed, and compares report and recording
    /// with them. It stands before the first message.
    ///
    /// Y1 names the first difference, and comes only where they do not agree: the channels of jobs and report are
    /// compared first, then those of the recording's packets of MIL-STD-1553 messages, then the messages of job after
    /// job.
    pub fn open(
        alloc: Global,
        jobs: &[Job],
        report: &Report,
        index: Index<'a>,
    ) -> Result<Replay<'a>, ReplayError>
        ensures ok { IfOk result (λ r. r.state ≡ opened jobs.now report.now.channels index.entry) }
        ensures none { IfOk result (λ r. (r.replayed ≡ 0) × (r.kept ≡ [])) }
        ensures agrees { OnOk result (Agrees jobs.now report.now.channels index.entry) }
        ensures mismatch { IfErr result (λ e. OpensNot jobs.now report.now.channels index.entry e) }
    {
        let parts = report.channels();
        compare_channels(alloc, jobs, parts, &index)?;
        let channels = message_channels(alloc, &index)?;
        let mut stops = empty_stops(alloc, &channels, jobs.len())?;
        let tracks = tracks(alloc, jobs, parts, &index, &channels, &mut stops)?;
        let live = begin_all(alloc, jobs, parts)?;
        let next = begin_all(alloc, jobs, parts)?;
        let timeline = Timeline::open(alloc, tracks, channels, stops, live, next)?;
        Ok(Replay {
            index,
            timeline,
            place: 0,
            replayed: 0,
        })
    }

    /// To a place behind so many messages of the file. Condition: it has as many. Y4 leaves all as it was.
    fn move_to(&mut self, n: u64) -> Result<(), ReplayError>
        requires { n ≤ total_of self.old.state }
        ensures moved { OnOk result (self.new.state ≡ at_place n self.old.state) }
        ensures played { OnOk result (IsMove self.old self.new) }
        ensures refused { IfErr result (λ e. IsMemory e) }
        ensures same { OnErr result (self.new ≡ self.old) }
    {
        match self.timeline.travel(self.place as usize, n as usize) {
            Ok(played) => {
                self.place = n;
                self.replayed = played as u64;
                Ok(())
            }
            Err(_) => Err(ReplayError::Memory),
        }
    }

    /// To the next message of the file, by playing that one at most. Y2 where there is none; a refusal leaves all as it
    /// was.
    pub fn forward(&mut self) -> Result<(), ReplayError>
        ensures there { OnOk result (self.old.state.place < total_of self.old.state) }
        ensures moved { OnOk result (self.new.state ≡ at_place (self.old.state.place + 1) self.old.state) }
        ensures played { OnOk result (IsMove self.old self.new) }
        ensures few { OnOk result (self.new.replayed ≤ 1) }
        ensures refused { IfErr result (λ e. PastWhere (total_of self.old.state ≤ self.old.state.place) e) }
        ensures same { OnErr result (self.new ≡ self.old) }
    {
        if self.place >= self.total() {
            return Err(ReplayError::Past);
        }
        self.move_to(self.place + 1)
    }

    /// To the message before. Y3 at the start; a refusal leaves all as it was.
    pub fn back(&mut self) -> Result<(), ReplayError>
        ensures there { OnOk result (0 < self.old.state.place) }
        ensures moved { OnOk result (self.new.state ≡ at_place (self.old.state.place - 1) self.old.state) }
        ensures played { OnOk result (IsMove self.old self.new) }
        ensures refused { IfErr result (λ e. StartWhere (self.old.state.place ≡ 0) e) }
        ensures same { OnErr result (self.new ≡ self.old) }
    {
        if self.place == 0 {
            return Err(ReplayError::Start);
        }
        self.move_to(self.place - 1)
    }

    /// To the place behind so many messages of the file. Y2 where it has fewer; a refusal leaves all as it was.
    pub fn go(&mut self, n: u64) -> Result<(), ReplayError>
        ensures there { OnOk result (n ≤ total_of self.old.state) }
        ensures moved { OnOk result (self.new.state ≡ at_place n self.old.state) }
        ensures played { OnOk result (IsMove self.old self.new) }
        ensures refused { IfErr result (λ e. PastWhere (total_of self.old.state < n) e) }
        ensures same { OnErr result (self.new ≡ self.old) }
    {
        if n > self.total() {
            return Err(ReplayError::Past);
        }
        self.move_to(n)
    }

    /// To the first message past the place whose outcome makes the condition true. Y2 where there is none; a refusal
    /// leaves all as it was.
    pub fn find<A: Allocator + Clone>(&mut self, condition: &Cond<A>) -> Result<(), ReplayError>
        ensures there { OnOk result (IsNextMet self.old.state (condition_in condition.now) self.new.state.place) }
        ensures moved { OnOk result (self.new.state ≡ at_place self.new.state.place self.old.state) }
        ensures played { OnOk result (IsMove self.old self.new) }
        ensures refused { IfErr result (λ e. PastWhere (IsNowhere self.old.state (condition_in condition.now)) e) }
        ensures same { OnErr result (self.new ≡ self.old) }
    {
        let timeline = &self.timeline;
        match first_met(
            &timeline.tracks,
            &timeline.channels,
            self.place as usize,
            condition,
        ) {
            None => Err(ReplayError::Past),
            Some(n) => self.move_to(n as u64),
        }
    }

    /// To the latest message before the place whose outcome makes the condition true. Y2 where there is none; a refusal
    /// leaves all as it was.
    pub fn find_back<A: Allocator + Clone>(
        &mut self,
        condition: &Cond<A>,
    ) -> Result<(), ReplayError>
        ensures there { OnOk result (IsLatestMet self.old.state (condition_in condition.now) self.new.state.place) }
        ensures moved { OnOk result (self.new.state ≡ at_place self.new.state.place self.old.state) }
        ensures played { OnOk result (IsMove self.old self.new) }
        ensures refused { IfErr result
            (λ e. PastWhere (IsNowhereBefore self.old.state (condition_in condition.now)) e) }
        ensures same { OnErr result (self.new ≡ self.old) }
    {
        let timeline = &self.timeline;
        match latest_met(
            &timeline.tracks,
            &timeline.channels,
            self.place as usize,
            condition,
        ) {
            None => Err(ReplayError::Past),
            Some(n) => self.move_to(n as u64),
        }
    }

    /// Behind how many messages of the file the debugger stands, 0 to all of them.
    pub fn place(&self) -> u64
        ensures value { result ≡ self.now.state.place }
        ensures within { result ≤ total_of self.now.state }
    {
        self.place
    }

    /// How many messages of the file the last move that succeeded has played, which are those behind the nearest place
    /// that was not past its end and whose states were at hand: no more than stand between the last multiple of 64 and
    /// the place, so 63 at most; one at most where it was to the next message; and none before any move. A refusal
    /// leaves it as it was.
    pub fn replayed(&self) -> u64
        ensures value { result ≡ self.now.replayed }
        ensures few { result ≤ self.now.state.place % 64 }
    {
        self.replayed
    }

    /// How many messages the file has.
    pub fn total(&self) -> u64
        ensures { result ≡ total_of self.now.state }
    {
        self.timeline.channels.len() as u64
    }

    /// The packets of the recording.
    pub fn index(&self) -> &Index<'a>
        ensures { result.now ≡ self.now.state.found }
    {
        &self.index
    }

    /// How many jobs there are.
    pub fn jobs(&self) -> usize
        ensures value { result ≡ length self.now.state.jobs }
        ensures agrees { Agrees self.now.state.jobs self.now.state.parts self.now.state.found }
    {
        self.timeline.tracks.len()
    }

    /// The channel of the job at an index, 1 to 65,535. Condition: there is such a job.
    pub fn channel(&self, index: usize) -> u16
        requires { index < length self.now.state.jobs }
        ensures { (job : JobState) → slice_get self.now.state.jobs index ≡ Some job → result ≡ job.channel }
    {
        self.timeline.tracks[index].channel()
    }

    /// The controller of the job at an index as it was behind the latest message of its channel among those before the
    /// place, and before any where there is none. Condition: there is such a job.
    pub fn state(&self, index: usize) -> &Machine
        requires { index < length self.now.state.jobs }
        ensures of_job { OfJob self.now.state index (λ job part. IsOf (job_in job) part.placed result.now) }
        ensures number { OfJob self.now.state index
            (λ job part. result.now.point.number
            ≡ latest_kept_number self.now.state.found self.now.state.place job part) }
        ensures bus { OfJob self.now.state index
            (λ job part. played result.now.point.state
            ≡ bus_after (job_in job) part.placed
            (latest_kept_number self.now.state.found self.now.state.place job part)) }
        ensures made { OfJob self.now.state index
            (λ job part. result.now.made
            ≡ made_after (job_in job) part.placed
            (latest_kept_number self.now.state.found self.now.state.place job part)) }
        ensures outcome { IsLatestOutcome result.now }
    {
        let track = &self.timeline.tracks[index];
        track.machine(&self.timeline.live[index])
    }
}
