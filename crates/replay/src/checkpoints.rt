//! The states of all jobs at checkpoints, which are kept while job after job is played.
ghost use Rattle.replay.specs.Keeping.{AreSpaced, IsCounted, IsDue, KeepsMoreStates};
ghost use Rattle.replay.specs.Standings.{AreCheckpoints};
ghost use Rattle.std.specs.Prelude.{◌≡◌, ◌+◌, ◌*◌, ◌<◌, ◌≤◌, [], ◌∷◌, ◌++◌, length, IfOk, OnOk};

use crate::standings::{Kept, Standing};
use crate::tracks::count;
use std::alloc::{AllocError, Global};

/// From one checkpoint to the next, in messages of the file.
pub(crate) const APART: usize = 64;

/// The states of all jobs at a place of the file.
#[derive(Drop)]
pub(crate) struct Stop {
    pub(crate) place: usize,
    pub(crate) states: Vec<Kept>,
}

/// The next state of a job that is to be kept: at which checkpoint, and behind how many messages of the job's channel.
#[derive(Drop)]
pub(crate) struct Due {
    channel: u16,
    stop: usize,
    heard: usize,
}

/// Checkpoints at places 0, 64, 128 and so on of a file with a message for each of these channels, which have room for
/// the states of so many jobs, and none yet.
pub(crate) fn empty_stops(
    alloc: Global,
    channels: &[u16],
    jobs: usize,
) -> Result<Vec<Stop>, AllocError>
    ensures stops { IfOk result (λ v. AreCheckpoints [] channels.now v.items) }
    ensures spaced { IfOk result (λ v. AreSpaced (length channels.now) (length v.items)) }
{
    let count = channels.len() / APART + 1;
    let mut stops = Vec::with_capacity(alloc, count)?;
    for k in 0..count {
        let place = APART * k;
        let states = Vec::with_capacity(alloc, jobs)?;
        stops.push(Stop { place, states })?;
    }
    Ok(stops)
}

impl Stop {
    /// Keeps the state of one job more.
    fn keep(&mut self, kept: Kept) -> Result<(), AllocError>
        ensures place { self.new.place ≡ self.old.place }
        ensures states { OnOk result (self.new.states.items ≡ self.old.states.items ++ kept ∷ []) }
    {
        self.states.push(kept)?;
        Ok(())
    }
}

impl Due {
    /// The state of a job before any message, at the first checkpoint.
    pub(crate) fn first(channel: u16) -> Due
        ensures { result ≡ record { channel = channel; stop = 0; heard = 0 } }
    {
        Due {
            channel,
            stop: 0,
            heard: 0,
        }
    }

    /// On to the next checkpoint. Condition: this one is not past the end.
    fn advance(&mut self, channels: &[u16])
        requires within { 64 * self.old.stop ≤ length channels.now }
        requires counted { IsCounted channels.now self.old }
        ensures channel { self.new.channel ≡ self.old.channel }
        ensures stop { self.new.stop ≡ self.old.stop + 1 }
        ensures counted { IsCounted channels.now self.new }
        ensures order { self.old.heard ≤ self.new.heard }
    {
        let from = APART * self.stop;
        let to = (from + APART).min(channels.len());
        self.heard += count(&channels[from..to], self.channel);
        self.stop += 1;
    }

    /// Keeps the state of a job at each checkpoint, from the next one on, that stands behind as many messages of its
    /// channel as the controller. Conditions: no checkpoint is past the end, and none that is still to come stands
    /// behind fewer.
    pub(crate) fn keep(
        &mut self,
        alloc: Global,
        standing: &Standing,
        channels: &[u16],
        stops: &mut Vec<Stop>,
    ) -> Result<(), AllocError>
        requires spaced { AreSpaced (length channels.now) (length stops.old.items) }
        requires due { IsDue channels.now self.old.channel standing.now.heard (length stops.old.items) self.old }
        ensures count { OnOk result (length stops.new.items ≡ length stops.old.items) }
        ensures due { OnOk result (IsDue channels.now self.old.channel (standing.now.heard + 1)
            (length stops.new.items) self.new) }
        ensures kept { OnOk result
            (KeepsMoreStates self.old.channel channels.now standing.now self.old.stop stops.old.items self.new.stop
            stops.new.items) }
    {
        'each: while self.stop < stops.len() {
            if self.heard != standing.heard {
                return Ok(());
            }
            let kept = standing.save(alloc)?;
            let stop = &mut stops[self.stop];
            stop.keep(kept)?;
            self.advance(channels);
        }
        Ok(())
    }
}
