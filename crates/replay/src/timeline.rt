//! The jobs of a recording from place to place: where their controllers stand, and the states that are kept.
ghost use Rattle.replay.specs.Moves.{IsPlayedFromNearest, IsKeptBehind};
ghost use Rattle.replay.specs.Standings.{AreApart, IsTimeline, IsNearest, IsNoted, IsStart, Has};
ghost use Rattle.replay.specs.Standings.{HaveNoExtraMessages, AreAt, AreOf, StandAt, AreCheckpoints, IsStop};
ghost use Rattle.replay.specs.Standings.{IsAmong, AreAmong, StopsTurn, StopsGain, places_of};
ghost use Rattle.std.specs.Prelude.{◌≡◌, ◌≤◌, ◌<◌, ◌*◌, [], length, IfOk, IfSome, IfNone, OnOk, OnErr, true};

use crate::checkpoints::{APART, Stop};
use crate::standings::{Standing, play_all, restore_all, save_all};
use crate::tracks::Track;
use circular_buffer::HeapCircularBuffer;
use std::alloc::{AllocError, Global};
use std::mem::swap;

/// How many of the latest states are kept beside the checkpoints.
const RECENT: usize = 32;

/// The jobs of a recording, and the channel of each of its messages; their controllers at the place, and others to be
/// taken elsewhere, with the place where they stand, if it is known; the states at places 0, 64, 128 and so on; and
/// those at other places at which the latest moves ended.
#[derive(Drop)]
pub(crate) struct Timeline {
    pub(crate) tracks: Vec<Track>,
    pub(crate) channels: Vec<u16>,
    pub(crate) live: Vec<Standing>,
    next: Vec<Standing>,
    next_at: Option<usize>,
    checkpoints: Vec<Stop>,
    recent: HeapCircularBuffer<Stop>,
}

/// The kept states at the nearest place that is not past this one.
fn nearest<'a>(
    checkpoints: &'a [Stop],
    recent: &'a HeapCircularBuffer<Stop>,
    place: usize,
) -> &'a Stop
    requires enough { place < 64 * length checkpoints.now }
    requires places { AreApart checkpoints.now }
    ensures { IsNearest checkpoints.now recent.now.items place result.now }
{
    let mut best = &checkpoints[place / APART];
    for i in 0..recent.len() {
        if let Some(stop) = recent.get(i) {
            if best.place < stop.place && stop.place <= place {
                best = stop;
            }
        }
    }
    best
}

/// Takes the first of the latest states out: those of the place are the answer; others become the last, and the answer
/// is what was found before.
fn turn(recent: &mut HeapCircularBuffer<Stop>, place: usize, found: Option<Stop>) -> Option<Stop>
    requires { recent.old.capacity ≡ 32 }
    ensures stops { StopsTurn recent.old.items found recent.new.items result }
    ensures capacity { recent.new.capacity ≡ 32 }
    ensures place { IfSome found (λ stop. stop.place ≡ place) → IfSome result (λ stop. stop.place ≡ place) }
{
    let Some(stop) = recent.pop_front() else {
        return found;
    };
    if stop.place == place {
        return Some(stop);
    }
    // Where there are 32 the oldest goes.
    let _ = recent.push_back(stop);
    found
}

/// Makes the states of a place the latest, where they are among these.
fn renew(recent: &mut HeapCircularBuffer<Stop>, place: usize)
    requires { recent.old.capacity ≡ 32 }
    ensures stops { AreAmong recent.old.items recent.new.items }
    ensures capacity { recent.new.capacity ≡ 32 }
{
    let mut found = None;
    for _turn in 0..recent.len() {
        found = turn(recent, place, found);
    }
    if let Some(stop) = found {
        // Where there are 32 the oldest goes.
        let _ = recent.push_back(stop);
    }
}

/// Whether the states of a place are among these.
fn is_among(recent: &HeapCircularBuffer<Stop>, place: usize) -> bool
    ensures { result ≡ true → Has recent.now.items place }
{
    for i in 0..recent.len() {
        if let Some(stop) = recent.get(i) {
            if stop.place == place {
                return true;
            }
        }
    }
    false
}

/// Makes the states of a place the latest: those that were saved, or else those that are among these.
fn note(recent: &mut HeapCircularBuffer<Stop>, place: usize, saved: Option<Stop>)
    requires { recent.old.capacity ≡ 32 }
    ensures stops { StopsGain recent.old.items saved recent.new.items }
    ensures kept { IfSome saved (IsAmong recent.new.items) }
    ensures capacity { recent.new.capacity ≡ 32 }
{
    match saved {
        Some(stop) => {
            // Where there are 32 the oldest goes.
            let _ = recent.push_back(stop);
        }
        None => renew(recent, place),
    }
}

/// Takes controllers to the place of kept states, unless they stand there.
fn bring(
    tracks: &[Track],
    all: &mut Vec<Standing>,
    at: &mut Option<usize>,
    stop: &Stop,
    channels: &[u16],
) -> Result<(), AllocError>
    requires of { AreOf tracks.now all.old.items }
    requires at { StandAt tracks.now channels.now at.old all.old.items }
    requires stop { IsStop tracks.now channels.now stop.now }
    ensures of { AreOf tracks.now all.new.items }
    ensures at { StandAt tracks.now channels.now at.new all.new.items }
    ensures there { OnOk result (AreAt tracks.now channels.now stop.now.place all.new.items) }
{
    match *at {
        Some(place) if place == stop.place => Ok(()),
        _ => {
            *at = None;
            restore_all(tracks, all, &stop.states, channels, stop.place)
        }
    }
}

impl Timeline {
    /// The jobs at the start. Conditions: both lists of controllers stand before any message, and the states are kept
    /// at all checkpoints up to the end.
    pub(crate) fn open(
        alloc: Global,
        tracks: Vec<Track>,
        channels: Vec<u16>,
        checkpoints: Vec<Stop>,
        live: Vec<Standing>,
        next: Vec<Standing>,
    ) -> Result<Timeline, AllocError>
        requires room { HaveNoExtraMessages tracks.items channels.items }
        requires checkpoints { AreCheckpoints tracks.items channels.items checkpoints.items }
        requires enough { length channels.items < 64 * length checkpoints.items }
        requires live { AreAt tracks.items channels.items 0 live.items }
        requires next { AreAt tracks.items channels.items 0 next.items }
        ensures stands { IfOk result (λ t. IsTimeline t 0) }
        ensures tracks { IfOk result (λ t. t.tracks ≡ tracks) }
        ensures channels { IfOk result (λ t. t.channels ≡ channels) }
        ensures recent { IfOk result (λ t. t.recent.items ≡ []) }
    {
        let recent = HeapCircularBuffer::with_capacity(alloc, RECENT)?;
        Ok(Timeline {
            tracks,
            channels,
            live,
            next,
            next_at: Some(0),
            checkpoints,
            recent,
        })
    }

    /// The states where the controllers stand, to be kept. None where they are kept already, as at each checkpoint.
    fn saved(&self, place: usize) -> Result<Option<Stop>, AllocError>
        requires { IsTimeline self.now place }
        ensures stop { IfOk result
            (λ saved. IfSome saved (IsStop self.now.tracks.items self.now.channels.items)) }
        ensures place { IfOk result (λ saved. IfSome saved (λ stop. stop.place ≡ place)) }
        ensures noted { IfOk result (λ saved. IfNone saved (IsNoted self.now.recent.items place)) }
    {
        if place % APART == 0 || is_among(&self.recent, place) {
            return Ok(None);
        }
        let states = save_all(*self.live.allocator(), &self.live)?;
        Ok(Some(Stop { place, states }))
    }

    /// Plays the controllers on from the place where they stand to a later one.
    fn play_on(&mut self, from: usize, to: usize)
        requires stands { IsTimeline self.old from }
        requires order { from ≤ to }
        requires end { to ≤ length self.old.channels.items }
        ensures tracks { self.new.tracks ≡ self.old.tracks }
        ensures channels { self.new.channels ≡ self.old.channels }
        ensures recent { self.new.recent ≡ self.old.recent }
        ensures arrived { IsTimeline self.new to }
    {
        play_all(&self.tracks, &mut self.live, &self.channels, from, to);
    }

    /// Plays the controllers from a place to another, and answers from where: from the place itself, or from a nearer
    /// one whose states are kept.
    fn play(&mut self, from: usize, to: usize) -> Result<usize, AllocError>
        requires stands { IsTimeline self.old from }
        requires end { to ≤ length self.old.channels.items }
        ensures tracks { self.new.tracks ≡ self.old.tracks }
        ensures channels { self.new.channels ≡ self.old.channels }
        ensures recent { self.new.recent ≡ self.old.recent }
        ensures arrived { OnOk result (IsTimeline self.new to) }
        ensures stays { OnErr result (IsTimeline self.new from) }
        ensures start { IfOk result (λ start. IsStart (places_of self.old.recent.items) from to start) }
    {
        let stop = nearest(&self.checkpoints, &self.recent, to);
        let place = stop.place;
        if place <= from && from <= to {
            self.play_on(from, to);
            return Ok(from);
        }
        bring(
            &self.tracks,
            &mut self.next,
            &mut self.next_at,
            stop,
            &self.channels,
        )?;
        play_all(&self.tracks, &mut self.next, &self.channels, place, to);
        swap(&mut self.live, &mut self.next);
        self.next_at = Some(from);
        Ok(place)
    }

    /// Takes the controllers from a place to another, and answers how many messages of the file were played on the way:
    /// from the nearest place at or below it whose states are there. The states of the place that they leave are kept;
    /// where memory is refused, the states that are kept are as they were.
    pub(crate) fn travel(&mut self, from: usize, to: usize) -> Result<usize, AllocError>
        requires stands { IsTimeline self.old from }
        requires end { to ≤ length self.old.channels.items }
        ensures tracks { self.new.tracks ≡ self.old.tracks }
        ensures channels { self.new.channels ≡ self.old.channels }
        ensures arrived { OnOk result (IsTimeline self.new to) }
        ensures stays { OnErr result (IsTimeline self.new from) }
        ensures same { OnErr result (self.new.recent ≡ self.old.recent) }
        ensures played { IfOk result (λ n. IsPlayedFromNearest (places_of self.old.recent.items) from to n) }
        ensures kept { OnOk result
            (IsKeptBehind from (places_of self.old.recent.items) (places_of self.new.recent.items)) }
    {
        let saved = self.saved(from)?;
        let start = self.play(from, to)?;
        note(&mut self.recent, from, saved);
        Ok(to - start)
    }
}
