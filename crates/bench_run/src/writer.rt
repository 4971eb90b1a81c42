//! What the calling thread does while the channels run: it takes each item and records it.
ghost use Rattle.bench_run.specs.Entries.{index_of};
ghost use Rattle.bench_run.specs.Writer.{item_with, IsTakenBy, Records};
ghost use Rattle.bench_run.specs.declared.entry.Entry.{Entry};
ghost use Rattle.ch11_builder.specs.Held.{Held};
ghost use Rattle.ch11_recording.specs.Recording.{AreDistinct, GoesOn};
ghost use Rattle.mil_trunk.specs.Ends.{IsTicketOf, IsTakerOf, bounds_of, bounds_in, tags_of, sent, received};
ghost use Rattle.mil_trunk.specs.Tags.{has, bound_of};
ghost use Rattle.mil_trunk.specs.Views.{with_tag};
ghost use Rattle.std.specs.Prelude.{if◌then◌else◌, length, sum, IsTrue, IsFalse};
ghost use Rattle.std.specs.Prelude.{◌≡◌, ◌<◌, ◌≤◌, ◌+◌, ◌*◌, ◌^◌, ◌++◌, ◌∷◌, [], ℕ, List, true, false, not, ◌||◌};

use crate::entry::Entry;
use crate::gate::Gate;
use ch11_recording::{Recorder, latest_is_last};
use ch11_writer::Sink;
use mil_trunk::{Tagged, Taker, Ticket, Trunk};
use std::sync::Wait;

/// A recorder, and whether it kept each entry that it was given. After one that it did not keep it is given none.
#[derive(Drop)]
pub(crate) struct Log<S: Sink> {
    pub(crate) recorder: Recorder<S>,
    pub(crate) whole: bool,
}

impl<S: Sink> Log<S> {
    /// Records an entry, where all before it were.
    pub(crate) fn add(&mut self, channels: &[u16], entry: &Entry)
        requires unfinished { self.old.recorder.writing.finished ≡ false }
        requires few { self.old.recorder.writing.taken + 524288 < 2 ^ 64 }
        ensures recorded { (got : List Entry) → AreDistinct channels.now → Records S.taken S.failures channels.now
            got self.old.recorder self.old.whole (got ++ entry.now ∷ []) self.new.recorder self.new.whole }
        ensures unfinished { self.new.recorder.writing.finished ≡ false }
        ensures few { self.new.recorder.writing.taken ≤ self.old.recorder.writing.taken + 524288 }
    {
        latest_is_last();
        if self.whole {
            self.whole = self.put(channels.len(), entry);
        }
    }

    /// Hands an entry to the recorder. False where it was not kept.
    fn put(&mut self, channels: usize, entry: &Entry) -> bool
        requires unfinished { self.old.recorder.writing.finished ≡ false }
        requires few { self.old.recorder.writing.taken + 524288 < 2 ^ 64 }
        ensures goes_on { IsTrue result
            → GoesOn S.taken (index_of entry.now) (item_with entry.now) self.old.recorder self.new.recorder }
        ensures index { IsTrue result → index_of entry.now < channels }
        ensures refused { IsFalse result → self.new.recorder ≡ self.old.recorder }
        ensures when { (h : Held) → index_of entry.now < channels → IsTakenBy self.old.recorder.held entry.now h
            → result ≡ true }
        ensures unfinished { self.new.recorder.writing.finished ≡ false }
        ensures few { self.new.recorder.writing.taken ≤ self.old.recorder.writing.taken + 524288 }
        ensures failures { S.failures self.new.recorder.writing.sink
            ≡ (if self.old.recorder.writing.failed || not self.new.recorder.writing.failed
            then S.failures self.old.recorder.writing.sink else S.failures self.old.recorder.writing.sink + 1) }
    {
        let index = usize::from(entry.tag());
        if index >= channels {
            return false;
        }
        match entry {
            Entry::Message { number, record, .. } => self
                .recorder
                .keep(index, u64::from(*number), record),
            Entry::End { .. } => self.recorder.end(index),
        }
    }
}

/// Tells the gate of an entry that was taken.
fn tell<G: Gate>(gate: &G, channels: &[u16], entry: &Entry) {
    let Some(channel) = channels.get(usize::from(entry.tag())) else {
        return;
    };
    match entry {
        Entry::Message { number, record, .. } => {
            gate.on_message(*channel, *number, record);
            gate.after_take(*channel, *number);
        }
        Entry::End { .. } => gate.after_take(*channel, 0),
    }
}

/// Takes and records until as many end marks have come as threads were started. Where the trunk is empty the gate says
/// what the thread does.
pub(crate) fn write<R: Wait, G: Gate, S: Sink>(
    rt: &R,
    trunk: &Trunk<Entry>,
    gate: &G,
    channels: &[u16],
    taker: &mut Taker<Entry>,
    log: &mut Log<S>,
    started: usize,
)
    requires taker { IsTakerOf trunk.now taker.old }
    requires distinct { AreDistinct channels.now }
    requires bounds { sum (bounds_in taker.old) ≤ 32 * 1065537 }
    requires unfinished { log.old.recorder.writing.finished ≡ false }
    requires few { log.old.recorder.writing.taken < 2 ^ 63 + 524288 * length (received taker.old) }
    ensures taker { IsTakerOf trunk.now taker.new }
    ensures recorded { Records S.taken S.failures channels.now
        (received taker.old) log.old.recorder log.old.whole (received taker.new) log.new.recorder log.new.whole }
    ensures unfinished { log.new.recorder.writing.finished ≡ false }
    ensures few { log.new.recorder.writing.taken < 2 ^ 63 + 524288 * length (received taker.new) }
{
    let mut running = started;
    for _ in rt.forever() {
        if running == 0 {
            break;
        }
        match trunk.take(rt, taker) {
            Some(entry) => {
                if let Entry::End { .. } = entry {
                    running -= 1;
                }
                log.add(channels, &entry);
                tell(gate, channels, &entry);
            }
            None => gate.on_empty(running),
        }
    }
}

/// Takes and records what is left, with the ticket that holds all tags, until nothing is.
pub(crate) fn settle<R: Wait, G: Gate, S: Sink>(
    rt: &R,
    trunk: &Trunk<Entry>,
    gate: &G,
    channels: &[u16],
    ticket: Ticket<Entry>,
    taker: Taker<Entry>,
    log: &mut Log<S>,
) -> (Ticket<Entry>, Taker<Entry>)
    requires ends { IsTicketOf trunk.now ticket × IsTakerOf trunk.now taker }
    requires all { (t : ℕ) → t < 64 → has (tags_of ticket) t ≡ true }
    requires distinct { AreDistinct channels.now }
    requires bounds { sum (bounds_of ticket) ≤ 32 * 1065537 }
    requires unfinished { log.old.recorder.writing.finished ≡ false }
    requires few { log.old.recorder.writing.taken < 2 ^ 63 + 524288 * length (received taker) }
    ensures ends { IsTicketOf trunk.now result.0 × IsTakerOf trunk.now result.1 }
    ensures sent { sent result.0 ≡ sent ticket }
    ensures settled { (t : ℕ) → t < 64 → with_tag index_of t (sent ticket) ≡ with_tag index_of t (received result.1) }
    ensures barred { (t : ℕ) → bound_of (bounds_of ticket) t ≡ 0 → with_tag index_of t (received result.1) ≡ [] }
    ensures recorded { Records S.taken S.failures channels.now
        (received taker) log.old.recorder log.old.whole (received result.1) log.new.recorder log.new.whole }
    ensures unfinished { log.new.recorder.writing.finished ≡ false }
    ensures few { log.new.recorder.writing.taken < 2 ^ 63 + 524288 * length (received result.1) }
{
    let (mut ticket, mut taker) = (ticket, taker);
    for _ in rt.forever() {
        let (all, end, taken) = trunk.settle(rt, ticket, taker);
        (ticket, taker) = (all, end);
        let Some(entry) = taken else {
            return (ticket, taker);
        };
        log.add(channels, &entry);
        tell(gate, channels, &entry);
    }
    unreachable!()
}
