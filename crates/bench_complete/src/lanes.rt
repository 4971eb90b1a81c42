//! The packets that are merged, channel by channel.
ghost use Rattle.bench_complete.specs.Judging.{StopsWriting};
ghost use Rattle.bench_complete.specs.Lanes as spec;
ghost use Rattle.bench_complete.specs.Merging.{of_channel};
ghost use Rattle.bench_complete.specs.Pieces.{Piece, kept_entries};
ghost use Rattle.std.specs.BinaryHeap.{IsHeap, KeepsHeap, heap_items};
ghost use Rattle.std.specs.Io.KnownBytes.{Appends};
ghost use Rattle.std.specs.Prelude.{◌≡◌, ◌<◌, ◌≤◌, ℕ, List, [], ◌∷◌, length, Some, IfOk, IfErr, OnOk, MatchOption};

use crate::fault::CompleteFault;
use crate::head::{Head, Source, turn};
use crate::links::{CHANNELS, Links};
use crate::original::Original;
use crate::placed::Placed;
use crate::places::Places;
use crate::time_packet::write_time;
use crate::times::{SECOND, Times};
use ch11_header::kinds::TIME_DATA;
use std::alloc::{AllocError, Global};
use std::collections::BinaryHeap;
use std::io::Write;

/// The packets of a recording, and the time packets beside them.
#[derive(Clone, Copy)]
pub(crate) struct Lanes<'a> {
    pub(crate) packets: &'a [Placed],
    pub(crate) times: Times,
}

/// Puts a head into a heap, where there is one.
pub(crate) fn push_some(heads: &mut BinaryHeap<Head>, head: Option<Head>) -> Result<(), AllocError>
    ensures pushed { OnOk result (spec.Pushes head (heap_items heads.old) (heap_items heads.new)) }
    ensures heap { OnOk result (KeepsHeap spec.head_cmp (heap_items heads.old) (heap_items heads.new)) }
{
    if let Some(head) = head {
        heads.push(head)?;
    }
    Ok(())
}

impl<'a> Lanes<'a> {
    /// The packet at a place of the recording as a head; None where there is none.
    fn recorded(&self, place: usize) -> Option<Head>
        ensures { MatchOption result (length self.now.packets.now ≤ place)
            (spec.IsRecordedHead self.now.packets.now place) }
    {
        let packet = self.packets.get(place)?;
        Some(Head {
            counter: packet.header.counter,
            turn: turn(packet.header.kind),
            channel: packet.header.channel,
            source: Source::Recorded(place),
        })
    }

    /// The time packet of a second as a head; None at the end.
    fn timed(&self, second: u64) -> Option<Head>
        requires small { spec.IsSmall self.now.times }
        ensures { MatchOption result (self.now.times.end ≤ second) (spec.IsTimed self.now.times second) }
    {
        if second >= self.times.end {
            return None;
        }
        Some(Head {
            counter: second * SECOND,
            turn: turn(TIME_DATA),
            channel: self.times.channel,
            source: Source::Time(second),
        })
    }

    /// The packet behind one of its channel.
    pub(crate) fn behind(&self, links: &Links, head: &Head) -> Option<Head>
        requires small { spec.IsSmall self.now.times }
        requires linked { spec.AreLinked self.now.packets.now 0 links.now.first.items links.now.next.items }
        requires there { spec.IsThere self.now.packets.now self.now.times head.now.source }
        requires stands { (file : List ℕ) → (rest : List Piece)
            × spec.Stands file self.now.packets.now self.now.times head.now rest }
        ensures { (file : List ℕ) → spec.Follows file self.now.packets.now self.now.times head.now result }
    {
        match head.source {
            Source::Recorded(place) => self.recorded(links.next[place]),
            Source::Time(second) => self.timed(second + 1),
        }
    }

    /// The head of the time packets, where there are any.
    fn first_head(&self, alloc: Global) -> Result<BinaryHeap<Head>, AllocError>
        requires small { spec.IsSmall self.now.times }
        ensures heads { IfOk result
            (λ heads. (file : List ℕ) → spec.AreHeads file self.now.packets.now self.now.times (heap_items heads)
            (spec.begun file self.now.packets.now self.now.times 0)) }
        ensures heap { IfOk result (λ heads. IsHeap spec.head_cmp (heap_items heads)) }
    {
        let mut heads = BinaryHeap::new(alloc);
        push_some(&mut heads, self.timed(self.times.first))?;
        Ok(heads)
    }

    /// The first packets of all channels.
    pub(crate) fn heads(&self, alloc: Global, links: &Links) -> Result<BinaryHeap<Head>, AllocError>
        requires small { spec.IsSmall self.now.times }
        requires linked { spec.AreLinked self.now.packets.now 0 links.now.first.items links.now.next.items }
        requires free { (file : List ℕ) → self.now.times.first < self.now.times.end
            → of_channel self.now.times.channel (kept_entries file self.now.packets.now) ≡ [] }
        ensures heads { IfOk result
            (λ heads. (file : List ℕ) → spec.AreHeads file self.now.packets.now self.now.times (heap_items heads)
            (λ channel. of_channel channel (spec.parts_of file self.now.packets.now self.now.times))) }
        ensures heap { IfOk result (λ heads. IsHeap spec.head_cmp (heap_items heads)) }
    {
        let mut heads = self.first_head(alloc)?;
        'channels: for channel in 0..CHANNELS {
            push_some(&mut heads, self.recorded(links.first[channel]))?;
        }
        Ok(heads)
    }

    /// Writes the packet of a head.
    pub(crate) fn write<S: Places, W: Write>(
        &self,
        original: &mut Original<S>,
        head: &Head,
        out: &mut W,
    ) -> Result<(), CompleteFault>
        requires small { spec.IsSmall self.now.times }
        requires there { spec.IsThere self.now.packets.now self.now.times head.now.source }
        ensures written { OnOk result ((file : List ℕ) → original.old ≡ Some file
            → (p : Piece) (ps : List Piece)
            → spec.Stands file self.now.packets.now self.now.times head.now (p ∷ ps)
            → Appends (W.contents out.old) (W.contents out.new) p.bytes) }
        ensures stays { original.new ≡ original.old }
        ensures stopped { IfErr result StopsWriting }
    {
        match head.source {
            Source::Recorded(place) => original.write_packet(&self.packets[place], out),
            Source::Time(second) => write_time(&self.times, second, out),
        }
    }
}
