//! Moments that are still to come.
ghost use Rattle.job_moments.specs.Awaiting.{due_of, HasItsCounter, IsFirst, IsStill, KnowsChunk, KnowsGroup, Picks};
ghost use Rattle.job_moments.specs.Awaiting.{SleepBeside};
ghost use Rattle.job_moments.specs.Chunks.{lines_in, lines_of};
ghost use Rattle.job_moments.specs.Groups.{lines_inside, lines_of_groups, AllBeside};
ghost use Rattle.job_moments.specs.Moments.{is_due};
ghost use Rattle.job_moments.specs.Quiet.{IsPart, Sleeps};
ghost use Rattle.job_moments.specs.Waits.{Taken};
ghost use Rattle.std.specs.Prelude.{◌≡◌, ◌<◌, ◌≤◌, ◌++◌, ◌∷◌, [], All, length, true, OnOk, OnErr};

use crate::chunks::{Chunk, drop_empty};
use crate::counts::Counts;
use crate::groups::{Group, Near, awake, put_behind, quiet_beside, quiet_for_all};
use crate::met::Met;
use crate::moments::Moment;
use crate::quiet::Quiet;
use std::alloc::{AllocError, Global};
use std::marker::Model;

/// A moment with the place of its counter, and what is due at it.
#[derive(Drop)]
struct Pending<T: Drop> {
    moment: Moment,
    counter: usize,
    payload: T,
}

impl<T: Drop> Pending<T> {
    /// Whether it is due in front of a message.
    fn is_due(&self, counts: &Counts, next: &Met) -> bool
        requires few { length counts.now.made < 1000000 }
        requires counter { HasItsCounter counts.now.selectors self.now }
        ensures { result ≡ is_due counts.now.made next.now self.now.moment }
    {
        self.moment.is_due(self.counter, counts, next)
    }

    /// Those of some messages in front of which it can't be due.
    fn narrowed(&self, quiet: Quiet, counts: &Counts) -> Quiet
        requires few { length counts.now.made ≤ 1000000 }
        requires counter { HasItsCounter counts.now.selectors self.now }
        ensures part { IsPart result quiet }
        ensures sleeps { Sleeps result counts.now.made (due_of self.now) }
    {
        self.moment.narrowed(quiet, self.counter, counts)
    }
}

/// The place of the first line that is due in front of a message.
fn first_of<T: Drop>(lines: &[Pending<T>], counts: &Counts, next: &Met) -> Option<usize>
    requires few { length counts.now.made < 1000000 }
    requires counters { All (HasItsCounter counts.now.selectors) lines.now }
    ensures { IsFirst counts.now.made next.now lines.now result }
{
    for (place, line) in lines.iter().enumerate() {
        if line.is_due(counts, next) {
            return Some(place);
        }
    }
    None
}

/// Messages in front of which none of these lines is due.
fn quiet_of<T: Drop>(lines: &[Pending<T>], counts: &Counts) -> Quiet
    requires few { length counts.now.made ≤ 1000000 }
    requires counters { All (HasItsCounter counts.now.selectors) lines.now }
    ensures { All (λ line. Sleeps result counts.now.made (due_of line)) lines.now }
{
    let mut quiet = Quiet::all();
    for line in lines {
        quiet = line.narrowed(quiet, counts);
    }
    quiet
}

/// Whether a chunk knows that none of its lines is due in front of a message.
fn is_quiet_chunk<T: Drop>(chunk: &Chunk<Pending<T>>, counts: &Counts, next: &Met) -> bool
    requires { KnowsChunk counts.now chunk.now }
    ensures { result ≡ true → All (IsStill counts.now.made next.now) (lines_in chunk.now) }
{
    chunk.quiet.has(counts.number(), next)
}

/// Takes out the first line that is due in front of a message, and gives what is due.
fn take_line<T: Drop>(lines: &mut Vec<Pending<T>>, counts: &Counts, next: &Met) -> Option<T>
    requires few { length counts.now.made < 1000000 }
    requires counters { All (HasItsCounter counts.now.selectors) lines.old.items }
    ensures { Picks counts.now.made next.now lines.old.items lines.new.items result }
{
    match first_of(lines, counts, next) {
        Some(place) => Some(lines.remove(place).payload),
        None => None,
    }
}

/// Takes out the first line of a chunk that is due in front of a message, and gives what is due. The chunk learns in
/// front of which messages none of those left will be.
fn take_one<T: Drop>(chunk: &mut Chunk<Pending<T>>, counts: &Counts, next: &Met) -> Option<T>
    requires few { length counts.now.made < 1000000 }
    requires known { KnowsChunk counts.now chunk.old }
    ensures taken { Picks counts.now.made next.now (lines_in chunk.old) (lines_in chunk.new) result }
    ensures known { KnowsChunk counts.now chunk.new }
{
    let payload = take_line(&mut chunk.lines, counts, next);
    chunk.quiet = quiet_of(&chunk.lines, counts);
    payload
}

/// Takes out the first line of these chunks that is due in front of a message, and gives what is due.
fn take_first<T: Drop>(chunks: &mut [Chunk<Pending<T>>], counts: &Counts, next: &Met) -> Option<T>
    requires few { length counts.now.made < 1000000 }
    requires known { All (KnowsChunk counts.now) chunks.old }
    ensures taken { Picks counts.now.made next.now (lines_of chunks.old) (lines_of chunks.new) result }
    ensures known { All (KnowsChunk counts.now) chunks.new }
{
    for chunk in chunks.iter_mut() {
        if is_quiet_chunk(chunk, counts, next) {
            continue;
        }
        let payload = take_one(chunk, counts, next);
        if payload.is_some() {
            return payload;
        }
    }
    None
}

/// Whether a group knows that none of its lines is due in front of a message.
fn is_quiet_group<T: Drop>(group: &Group<Pending<T>>, counts: &Counts, next: &Met) -> bool
    requires { KnowsGroup counts.now group.now }
    ensures { result ≡ true → All (IsStill counts.now.made next.now) (lines_inside group.now) }
{
    group.quiet.has(counts.number(), next)
}

/// Takes out the first line of a group that is due in front of a message, and gives what is due. The group learns in
/// front of which messages none of those left will be.
fn take_inside<T: Drop>(group: &mut Group<Pending<T>>, counts: &Counts, next: &Met) -> Option<T>
    requires few { length counts.now.made < 1000000 }
    requires known { KnowsGroup counts.now group.old }
    ensures taken { Picks counts.now.made next.now (lines_inside group.old) (lines_inside group.new) result }
    ensures known { KnowsGroup counts.now group.new }
{
    let payload = take_first(&mut group.chunks, counts, next);
    drop_empty(&mut group.chunks);
    group.quiet = quiet_for_all(&group.chunks);
    payload
}

/// The same of a group that may know that none of its lines is due.
fn take_awake<T: Drop>(group: &mut Group<Pending<T>>, counts: &Counts, next: &Met) -> Option<T>
    requires few { length counts.now.made < 1000000 }
    requires known { KnowsGroup counts.now group.old }
    ensures taken { Picks counts.now.made next.now (lines_inside group.old) (lines_inside group.new) result }
    ensures known { KnowsGroup counts.now group.new }
{
    if is_quiet_group(group, counts, next) {
        return None;
    }
    take_inside(group, counts, next)
}

/// Takes out the first line of these groups that is due in front of a message, where no line is but those of the group
/// of a place, and gives what is due.
fn take_at<T: Drop>(
    groups: &mut [Group<Pending<T>>],
    place: usize,
    counts: &Counts,
    next: &Met,
) -> Option<T>
    requires few { length counts.now.made < 1000000 }
    requires there { place < length groups.old }
    requires known { All (KnowsGroup counts.now) groups.old }
    requires still { AllBeside (IsStill counts.now.made next.now) place groups.old }
    ensures taken { Picks counts.now.made next.now (lines_of_groups groups.old) (lines_of_groups groups.new) result }
    ensures known { All (KnowsGroup counts.now) groups.new }
    ensures beside { (quiet : Quiet) → SleepBeside counts.now.made quiet place groups.old
        → SleepBeside counts.now.made quiet place groups.new }
{
    take_awake(&mut groups[place], counts, next)
}

/// Takes out the first line of these groups that is due in front of a message, and gives what is due.
fn take_from<T: Drop>(groups: &mut [Group<Pending<T>>], counts: &Counts, next: &Met) -> Option<T>
    requires few { length counts.now.made < 1000000 }
    requires known { All (KnowsGroup counts.now) groups.old }
    ensures taken { Picks counts.now.made next.now (lines_of_groups groups.old) (lines_of_groups groups.new) result }
    ensures known { All (KnowsGroup counts.now) groups.new }
{
    for group in groups.iter_mut() {
        if is_quiet_group(group, counts, next) {
            continue;
        }
        let payload = take_inside(group, counts, next);
        if payload.is_some() {
            return payload;
        }
    }
    None
}

/// Whether it is known that no line of these groups is due in front of a message but those of the near one.
fn is_near<T: Drop>(groups: &[Group<Pending<T>>], near: &Near, counts: &Counts, next: &Met) -> bool
    requires { SleepBeside counts.now.made near.now.others near.now.place groups.now }
    ensures there { result ≡ true → near.now.place < length groups.now }
    ensures still { result ≡ true → AllBeside (IsStill counts.now.made next.now) near.now.place groups.now }
{
    if near.place >= groups.len() {
        return false;
    }
    near.others.has(counts.number(), next)
}

/// Takes out the first line of these groups that is due in front of a message, and gives what is due. The near one is
/// looked at alone where it is known that no line of the others is due; else all are, and the first that may have such
/// a line is the near one from then on.
fn take_near<T: Drop>(
    groups: &mut [Group<Pending<T>>],
    near: &mut Near,
    counts: &Counts,
    next: &Met,
) -> Option<T>
    requires few { length counts.now.made < 1000000 }
    requires known { All (KnowsGroup counts.now) groups.old }
    requires beside { SleepBeside counts.now.made near.old.others near.old.place groups.old }
    ensures taken { Picks counts.now.made next.now (lines_of_groups groups.old) (lines_of_groups groups.new) result }
    ensures known { All (KnowsGroup counts.now) groups.new }
    ensures beside { SleepBeside counts.now.made near.new.others near.new.place groups.new }
{
    if is_near(groups, near, counts, next) {
        return take_at(groups, near.place, counts, next);
    }
    near.place = awake(groups, near.place, counts.number(), next);
    let payload = take_from(groups, counts, next);
    near.others = quiet_beside(groups, near.place);
    payload
}

/// Moments that are still to come, each with what is due at it, in the order of the text, and the messages that were
/// made. The lines stand in chunks of at most 8, and these in groups of at most 64, of which each knows in front of
/// which messages none of its lines is due; and so it is known of all groups but the near one. So a message costs no
/// more than a look at one group where the moments come in the order of the text, and where they don't as much as there
/// are groups; and as much as there are selectors that are counted.
#[derive(Drop)]
pub struct Waiting<T: Drop> {
    groups: Vec<Group<Pending<T>>>,
    near: Near,
    /// How many lines they have.
    number: usize,
    counts: Counts,
    alloc: Global,
}

impl<T: Drop> Model for Waiting<T> {
    ghost use Rattle.job_moments.specs.Waits.{Waits};

    ghost Value = { Waits T };

    ghost use Rattle.job_moments.specs.Awaiting.{awaited_of, AllKnow};
    ghost use Rattle.job_moments.specs.Groups.{lines_of_groups};

    ghost view = { λ w. record { left = awaited_of (lines_of_groups w.groups.items); made = w.counts.made } };

    ghost invariant = { λ w. AllKnow w.groups.items w.near w.counts w.number };
}

impl<T: Drop> Waiting<T> {
    /// No moment, before any message. It takes no memory.
    pub fn none(alloc: Global) -> Waiting<T>
        ensures { result ≡ record { left = []; made = [] } }
    {
        Waiting {
            groups: Vec::new(alloc),
            near: Near::none(),
            number: 0,
            counts: Counts::none(alloc),
            alloc,
        }
    }

    /// One moment more with what is due at it, behind the others, before any message is made. It fails for want of
    /// memory alone, and then nothing changes.
    pub fn push(&mut self, moment: Moment, payload: T) -> Result<(), AllocError>
        requires { self.old.made ≡ [] }
        ensures pushed { OnOk result (self.new ≡ record {
          left = self.old.left ++ record { moment = moment; payload = payload } ∷ [];
          made = [];
        }) }
        ensures same { OnErr result (self.new ≡ self.old) }
    {
        // So many as a `usize` counts have no room in memory.
        let Some(number) = self.number.checked_add(1) else {
            return Err(AllocError);
        };
        let counter = self.counts.counter_of(moment.selector())?;
        let line = Pending {
            moment,
            counter,
            payload,
        };
        self.near = Near::none();
        put_behind(&mut self.groups, line, self.alloc)?;
        self.number = number;
        Ok(())
    }

    /// How many moments are still to come.
    pub fn len(&self) -> usize
        ensures { result ≡ length self.now.left }
    {
        self.number
    }

    /// Takes out the first moment, in the order of the text, that is due in front of a message, and gives what is due
    /// at it; where none is, it gives `None`, and nothing changes.
    pub fn take_due(&mut self, next: &Met) -> Option<T>
        requires { length self.old.made < 1000000 }
        ensures taken { Taken self.old.made next.now self.old.left self.new.left result }
        ensures made { self.new.made ≡ self.old.made }
    {
        let payload = take_near(&mut self.groups, &mut self.near, &self.counts, next);
        if payload.is_some() {
            self.number -= 1;
        }
        payload
    }

    /// One message more was made.
    pub fn meet(&mut self, met: &Met)
        requires { length self.old.made < 1000000 }
        ensures { self.new ≡ record { left = self.old.left; made = self.old.made ++ met.now ∷ [] } }
    {
        self.counts.meet(met);
    }
}
