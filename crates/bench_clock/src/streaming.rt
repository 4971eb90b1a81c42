//! The marks of a recording whose packets come from a reader.
ghost use Rattle.bench_clock.specs.Clock.{has_time_packets, is_time, last_behind, mark_of, marks_of, told_in};
ghost use Rattle.bench_clock.specs.Rising.{IsRising};
ghost use Rattle.ch11_reader.specs.Listing.{listing};
ghost use Rattle.ch11_stream.specs.Folding.{FoldsPackets};
ghost use Rattle.std.specs.Prelude.{◌≡◌, ◌||◌, ◌++◌, ℕ, List, Some, IfOk, OnOk};

use crate::clock::Mark;
use crate::marks::{is_time, keep, told_in};
use ch11_header::Header;
use ch11_stream::{Advance, Packets, StreamFault};
use std::alloc::{AllocError, Global};

/// What the time packets of a recording tell.
#[derive(Drop)]
pub(crate) struct TimePackets {
    /// Those that count.
    pub(crate) marks: Vec<Mark>,
    /// Whether there are such packets.
    pub(crate) any: bool,
}

/// Whether there was a time packet of the channel that is named before, or this is one.
fn or_time(any: bool, named: Option<u16>, header: &Header) -> bool
    ensures { result ≡ (any || is_time named header.now) }
{
    any || is_time(named, header)
}

impl TimePackets {
    /// One more packet, which has this header and begins these bytes: notes what it tells, behind a last counter, and
    /// answers the last counter behind it.
    pub(crate) fn note(
        &mut self,
        named: Option<u16>,
        last: Option<u64>,
        header: &Header,
        bytes: &[u8],
    ) -> Result<Option<u64>, AllocError>
        ensures marks { OnOk result (self.new.marks.items ≡ self.old.marks.items
            ++ mark_of last header.now.counter (told_in named header.now bytes.now)) }
        ensures last { IfOk result
            (λ l. l ≡ last_behind last header.now.counter (told_in named header.now bytes.now)) }
        ensures any { OnOk result (self.new.any ≡ (self.old.any || is_time named header.now)) }
    {
        let told = told_in(named, header, bytes);
        self.any = or_time(self.any, named, header);
        keep(&mut self.marks, last, header.counter, told)
    }
}

/// The time packets of all bytes that a reader has left, of the channel that is named.
pub(crate) fn read_marks<R: Advance + Drop>(
    alloc: Global,
    input: R,
    named: Option<u16>,
) -> Result<TimePackets, StreamFault>
    ensures rising { IfOk result (λ t. IsRising t.marks.items) }
    ensures found { (file : List ℕ) → R.remaining input ≡ Some file
        → FoldsPackets (λ ps t. t.marks.items ≡ marks_of named file (listing ps)) result file }
    ensures any { (file : List ℕ) → R.remaining input ≡ Some file
        → FoldsPackets (λ ps t. t.any ≡ has_time_packets named (listing ps)) result file }
{
    let mut packets = Packets::over(alloc, input)?;
    let marks = Vec::new(alloc);
    let mut found = TimePackets { marks, any: false };
    let mut last = None;
    'packets: for _made in 0..u64::MAX {
        match packets.next() {
            Ok(Some(packet)) => last = found.note(named, last, &packet.header, packets.bytes())?,
            Ok(None) => return Ok(found),
            Err(fault) => return Err(fault),
        }
    }
    Err(StreamFault::Device)
}
