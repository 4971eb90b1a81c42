//! Chunks in groups, each with messages in front of which no line of its chunks is due.
ghost use Rattle.job_moments.specs.Chunks.{behind, lines_of, Puts};
ghost use Rattle.job_moments.specs.Groups.{IsPartBeside, PutsGroup};
ghost use Rattle.job_moments.specs.Quiet.{IsPart};
ghost use Rattle.std.specs.Prelude.{◌≡◌, ◌<◌, ◌^◌, All, length, true};

use crate::chunks::{Chunk, has_room, put};
use crate::met::Met;
use crate::quiet::Quiet;
use std::alloc::{AllocError, Global};

/// How many chunks may stand in a group.
const ROOM: usize = 64;

/// Chunks that follow one another in the text, and messages in front of which no line of them is due.
#[derive(Drop)]
pub(crate) struct Group<L: Drop> {
    pub(crate) chunks: Vec<Chunk<L>>,
    pub(crate) quiet: Quiet,
}

impl<L: Drop> Group<L> {
    /// A line more, behind the others; of it nothing is known. It fails for want of memory alone, and then there are
    /// the same lines.
    fn put(&mut self, line: L, alloc: Global) -> Result<(), AllocError>
        ensures lines { Puts self.old.chunks.items self.new.chunks.items (behind line result) }
        ensures quiet { self.new.quiet.wake ≡ 0 }
    {
        self.quiet = Quiet::none();
        put(&mut self.chunks, line, alloc)
    }
}

/// Whether the last of these groups, where there is one, has room for a line more.
fn has_room_inside<L: Drop>(groups: &[Group<L>]) -> bool
    ensures { result ≡ true → 0 < length groups.now }
{
    match groups.last() {
        Some(group) => group.chunks.len() < ROOM || has_room(&group.chunks),
        None => false,
    }
}

/// A line more, behind those of the last group. It fails for want of memory alone.
fn put_last<L: Drop>(groups: &mut [Group<L>], line: L, alloc: Global) -> Result<(), AllocError>
    requires { 0 < length groups.old }
    ensures { PutsGroup groups.old groups.new (behind line result) }
{
    let last = groups.len() - 1;
    groups[last].put(line, alloc)
}

/// A line more, behind those of these groups: in the last where there is room in it, else in a new one. It fails for
/// want of memory alone.
pub(crate) fn put_behind<L: Drop>(
    groups: &mut Vec<Group<L>>,
    line: L,
    alloc: Global,
) -> Result<(), AllocError>
    ensures { PutsGroup groups.old.items groups.new.items (behind line result) }
{
    if has_room_inside(groups) {
        return put_last(groups, line, alloc);
    }
    let mut group = Group {
        chunks: Vec::new(alloc),
        quiet: Quiet::none(),
    };
    if group.put(line, alloc).is_err() {
        return Err(AllocError);
    }
    match groups.push(group) {
        Ok(()) => Ok(()),
        Err(_) => Err(AllocError),
    }
}

/// The messages that are quiet for each of these chunks.
pub(crate) fn quiet_for_all<L: Drop>(chunks: &[Chunk<L>]) -> Quiet
    ensures { All (λ chunk. IsPart result chunk.quiet) chunks.now }
{
    let mut quiet = Quiet::all();
    for chunk in chunks {
        quiet = quiet.within(chunk.quiet);
    }
    quiet
}

/// The messages that are quiet for each of these groups but the one of a place.
pub(crate) fn quiet_beside<L: Drop>(groups: &[Group<L>], place: usize) -> Quiet
    ensures { IsPartBeside result place groups.now }
{
    let mut quiet = Quiet::all();
    for (index, group) in groups.iter().enumerate() {
        quiet = quiet.within_unless(index == place, group.quiet);
    }
    quiet
}

/// The place of the first of these groups for which a message, behind so many, is not quiet; where there is none, this
/// place. No proof rests on it: it tells where to look first.
pub(crate) fn awake<L: Drop>(groups: &[Group<L>], place: usize, number: u32, next: &Met) -> usize {
    for (index, group) in groups.iter().enumerate() {
        if !group.quiet.has(number, next) {
            return index;
        }
    }
    place
}

/// The place of the group that is looked at first, and messages in front of which no line of the others is due.
#[derive(Clone, Copy)]
pub(crate) struct Near {
    pub(crate) place: usize,
    pub(crate) others: Quiet,
}

impl Near {
    /// Nothing is known of the others.
    pub(crate) fn none() -> Near
        ensures { result.others.wake ≡ 0 }
    {
        Near {
            place: 0,
            others: Quiet::none(),
        }
    }
}

/// How many lines these chunks have.
pub(crate) fn number_of<L: Drop>(chunks: &[Chunk<L>]) -> usize
    requires { length (lines_of chunks.now) < 2 ^ 64 }
    ensures { result ≡ length (lines_of chunks.now) }
{
    let mut number = 0;
    for chunk in chunks {
        number += chunk.lines.len();
    }
    number
}
