//! The merge of all channels.
ghost use Rattle.bench_complete.specs.Judging.{StopsWriting};
ghost use Rattle.bench_complete.specs.Lanes.{AreHeads, AreLinked, IsSmall, Merges, head_cmp, parts_of};
ghost use Rattle.bench_complete.specs.Merging.{of_channel};
ghost use Rattle.std.specs.BinaryHeap.{IsHeap, heap_items};
ghost use Rattle.std.specs.Prelude.{◌≡◌, ℕ, List, Some, OnOk, IfErr};

use crate::fault::CompleteFault;
use crate::head::Head;
use crate::lanes::{Lanes, push_some};
use crate::links::Links;
use crate::original::Original;
use crate::places::Places;
use std::collections::BinaryHeap;
use std::io::Write;

/// Writes all packets, always the head that stands first.
pub(crate) fn merge<S: Places, W: Write>(
    lanes: &Lanes<'_>,
    links: &Links,
    mut heads: BinaryHeap<Head>,
    original: &mut Original<S>,
    out: &mut W,
) -> Result<(), CompleteFault>
    requires small { IsSmall lanes.now.times }
    requires linked { AreLinked lanes.now.packets.now 0 links.now.first.items links.now.next.items }
    requires heads { (file : List ℕ) → AreHeads file lanes.now.packets.now lanes.now.times (heap_items heads)
        (λ channel. of_channel channel (parts_of file lanes.now.packets.now lanes.now.times)) }
    requires heap { IsHeap head_cmp (heap_items heads) }
    ensures written { OnOk result ((file : List ℕ) → original.old ≡ Some file
        → Merges (parts_of file lanes.now.packets.now lanes.now.times) (W.contents out.old) (W.contents out.new)) }
    ensures stays { original.new ≡ original.old }
    ensures stopped { IfErr result StopsWriting }
{
    'packets: while let Some(head) = heads.pop() {
        lanes.write(original, &head, out)?;
        push_some(&mut heads, lanes.behind(links, &head))?;
    }
    Ok(())
}
