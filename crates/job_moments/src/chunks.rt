//! Lines in chunks, each with messages in front of which none of its lines is due.
ghost use Rattle.job_moments.specs.Chunks.{behind, Drops, Puts, StartsEmpty};
ghost use Rattle.std.specs.Prelude.{◌≡◌, ◌<◌, ◌++◌, length, true};

use crate::quiet::Quiet;
use std::alloc::{AllocError, Global};

/// How many lines may stand in a chunk.
const ROOM: usize = 8;

/// Lines that follow one another in the text, and messages in front of which none of them is due.
#[derive(Drop)]
pub(crate) struct Chunk<L: Drop> {
    pub(crate) lines: Vec<L>,
    pub(crate) quiet: Quiet,
}

impl<L: Drop> Chunk<L> {
    /// A line more, behind the others; of it nothing is known. It fails for want of memory alone, and then there are
    /// the same lines.
    fn put(&mut self, line: L) -> Result<(), AllocError>
        ensures lines { self.new.lines.items ≡ self.old.lines.items ++ behind line result }
        ensures quiet { self.new.quiet.wake ≡ 0 }
    {
        self.quiet = Quiet::none();
        match self.lines.push(line) {
            Ok(()) => Ok(()),
            Err(_) => Err(AllocError),
        }
    }
}

/// Whether the last of these chunks, where there is one, has room for a line more.
pub(crate) fn has_room<L: Drop>(chunks: &[Chunk<L>]) -> bool
    ensures { result ≡ true → 0 < length chunks.now }
{
    match chunks.last() {
        Some(chunk) => chunk.lines.len() < ROOM,
        None => false,
    }
}

/// A line more, behind those of the last chunk. It fails for want of memory alone.
fn put_last<L: Drop>(chunks: &mut [Chunk<L>], line: L) -> Result<(), AllocError>
    requires { 0 < length chunks.old }
    ensures { Puts chunks.old chunks.new (behind line result) }
{
    let last = chunks.len() - 1;
    chunks[last].put(line)
}

/// A line more, behind those of these chunks: in the last where there is room in it, else in a new one. It fails for
/// want of memory alone.
pub(crate) fn put<L: Drop>(
    chunks: &mut Vec<Chunk<L>>,
    line: L,
    alloc: Global,
) -> Result<(), AllocError>
    ensures { Puts chunks.old.items chunks.new.items (behind line result) }
{
    if has_room(chunks) {
        return put_last(chunks, line);
    }
    let mut chunk = Chunk {
        lines: Vec::new(alloc),
        quiet: Quiet::none(),
    };
    if chunk.put(line).is_err() {
        return Err(AllocError);
    }
    match chunks.push(chunk) {
        Ok(()) => Ok(()),
        Err(_) => Err(AllocError),
    }
}

/// Whether the first of these chunks has no line any more.
fn starts_empty<L: Drop>(chunks: &[Chunk<L>]) -> bool
    ensures { result ≡ true → StartsEmpty chunks.now }
{
    match chunks.first() {
        Some(chunk) => chunk.lines.is_empty(),
        None => false,
    }
}

/// Lets the first of these chunks go where it has no line any more: where lines are taken out in the order of the text,
/// the chunks that are left are those with lines.
pub(crate) fn drop_empty<L: Drop>(chunks: &mut Vec<Chunk<L>>)
    ensures { Drops chunks.old.items chunks.new.items }
{
    if starts_empty(chunks) {
        let _ = chunks.remove(0);
    }
}
