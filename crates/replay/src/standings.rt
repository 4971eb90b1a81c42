//! The controllers of all jobs at a place of the file.
ghost use Rattle.bc_machine.specs.Alike.{AreAlike};
ghost use Rattle.replay.specs.Standings.{HaveNoExtraMessages, AreOf, AreAt, AreKept, AreBegun, saved_of};
ghost use Rattle.replay.specs.Tracks.{IsThere};
ghost use Rattle.std.specs.Prelude.{◌≡◌, ◌≤◌, length, map, IfOk, OnOk, OnErr};

use crate::tracks::Track;
use bc_machine::{Machine, Saved};
use bench_report::ChannelReport;
use job_file::Job;
use std::alloc::{AllocError, Global};

/// A job's controller, and behind how many messages of its channel in the file it stands.
#[derive(Drop)]
pub(crate) struct Standing {
    pub(crate) heard: usize,
    pub(crate) machine: Machine,
}

/// What is kept of a standing.
#[derive(Drop)]
pub(crate) struct Kept {
    heard: usize,
    saved: Saved,
}

impl Standing {
    /// A job's controller before any message.
    pub(crate) fn begin(
        alloc: Global,
        job: &Job,
        part: &ChannelReport,
    ) -> Result<Standing, AllocError>
        ensures heard { IfOk result (λ s. s.heard ≡ 0) }
        ensures there { IfOk result (λ s. IsThere job.now part.now 0 s.machine) }
    {
        Ok(Standing {
            heard: 0,
            machine: job.machine(alloc, part.placed())?,
        })
    }

    /// The job's state as it is now.
    pub(crate) fn save(&self, alloc: Global) -> Result<Kept, AllocError>
        ensures { IfOk result (λ k. k ≡ saved_of self.now) }
    {
        Ok(Kept {
            heard: self.heard,
            saved: self.machine.save(alloc)?,
        })
    }

    fn restore(&mut self, kept: &Kept) -> Result<(), AllocError>
        requires { AreAlike self.old.machine kept.now.saved }
        ensures restored { OnOk result (saved_of self.new ≡ kept.now) }
        ensures same { OnErr result (self.new ≡ self.old) }
    {
        self.machine.restore(&kept.saved)?;
        self.heard = kept.heard;
        Ok(())
    }
}

/// The controllers of the jobs before any message. Condition: there are as many parts as jobs.
pub(crate) fn begin_all(
    alloc: Global,
    jobs: &[Job],
    parts: &[ChannelReport],
) -> Result<Vec<Standing>, AllocError>
    requires { length parts.now ≡ length jobs.now }
    ensures { IfOk result (λ v. AreBegun jobs.now parts.now v.items) }
{
    let mut all = Vec::with_capacity(alloc, jobs.len())?;
    for i in 0..jobs.len() {
        all.push(Standing::begin(alloc, &jobs[i], &parts[i])?)?;
    }
    Ok(all)
}

/// Plays all jobs on from a place of the file to a later one.
pub(crate) fn play_all(
    tracks: &[Track],
    all: &mut Vec<Standing>,
    channels: &[u16],
    from: usize,
    to: usize,
)
    requires order { from ≤ to }
    requires end { to ≤ length channels.now }
    requires room { HaveNoExtraMessages tracks.now channels.now }
    requires at { AreAt tracks.now channels.now from all.old.items }
    ensures { AreAt tracks.now channels.now to all.new.items }
{
    for i in 0..tracks.len() {
        let standing = &mut all[i];
        tracks[i].play_on(standing, channels, from, to);
    }
}

/// What is kept of all of them.
pub(crate) fn save_all(alloc: Global, all: &[Standing]) -> Result<Vec<Kept>, AllocError>
    ensures { IfOk result (λ v. v.items ≡ map saved_of all.now) }
{
    let mut kept = Vec::with_capacity(alloc, all.len())?;
    for standing in all {
        kept.push(standing.save(alloc)?)?;
    }
    Ok(kept)
}

/// Takes all of them to a place of the file, which need not be the one where they stand.
pub(crate) fn restore_all(
    tracks: &[Track],
    all: &mut Vec<Standing>,
    kept: &[Kept],
    channels: &[u16],
    place: usize,
) -> Result<(), AllocError>
    requires of { AreOf tracks.now all.old.items }
    requires kept { AreKept tracks.now channels.now place kept.now }
    ensures of { AreOf tracks.now all.new.items }
    ensures at { OnOk result (AreAt tracks.now channels.now place all.new.items) }
{
    for i in 0..kept.len() {
        let standing = &mut all[i];
        standing.restore(&kept[i])?;
    }
    Ok(())
}
