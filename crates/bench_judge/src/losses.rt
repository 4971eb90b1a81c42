//! What packets of messages say of messages that are missing from a recording.
ghost use Rattle.bench_judge.specs.Losses as spec;
ghost use Rattle.ch11_reader.specs.Contents.{capped};
ghost use Rattle.ch11_reader.specs.Listing.{listing};
ghost use Rattle.ch11_reader.specs.declared.packet.Packet.{Packet as PacketValue};
ghost use Rattle.ch11_stream.specs.Folding.{FoldsPackets};
ghost use Rattle.std.specs.Prelude.{if◌then◌else◌};
ghost use Rattle.std.specs.Prelude.{◌≡◌, ◌+◌, ◌-◌, ◌<◌, ◌^◌, ◌++◌, ◌∷◌, [], ℕ, List, Some, length};

use ch11_header::kinds::BUS_MESSAGES;
use ch11_reader::Packet;
use ch11_stream::{Advance, Packets, StreamFault};
use std::alloc::Global;
use std::fmt::{self, Display, Formatter, Write};

/// How many packets of messages say that messages are missing.
#[derive(Clone, Copy, Debug, Default, PartialEq, Eq)]
pub struct Lost {
    /// Those with the overflow flag.
    pub overflows: usize,
    /// Those whose sequence number does not follow that of the channel's packet before.
    pub jumps: usize,
}

/// Whether a packet is one of messages with the overflow flag.
fn overflows(packet: &Packet) -> bool
    ensures { result ≡ spec.overflows packet.now }
{
    packet.header.kind == BUS_MESSAGES && packet.header.has_overflow()
}

/// Whether a packet is one of messages whose sequence number does not follow.
fn jumps(packet: &Packet) -> bool
    ensures { result ≡ spec.jumps packet.now }
{
    packet.header.kind == BUS_MESSAGES && packet.sequence_jump
}

impl Lost {
    /// What no packets say.
    fn none() -> Lost
        ensures { result ≡ spec.lost_of [] }
    {
        Lost {
            overflows: 0,
            jumps: 0,
        }
    }

    /// Whether messages are missing.
    pub fn is_any(&self) -> bool
        ensures { result ≡ spec.is_any self.now }
    {
        self.overflows > 0 || self.jumps > 0
    }

    /// One more packet, behind fewer than 2^64 - 1.
    fn note(&mut self, packet: &Packet)
        ensures { (packets : List PacketValue) → length packets < 2 ^ 64 - 1 → self.old ≡ spec.lost_of packets
            → self.new ≡ spec.lost_of (packets ++ packet.now ∷ []) }
    {
        self.overflows = one_more(self.overflows, overflows(packet));
        self.jumps = one_more(self.jumps, jumps(packet));
    }
}

/// One packet more where it holds, at most 2^64 - 1.
pub(crate) fn one_more(count: usize, holds: bool) -> usize
    ensures { result ≡ capped (count + (if holds then 1 else 0)) }
{
    if holds {
        count.saturating_add(1)
    } else {
        count
    }
}

/// The numbers as `bench stat` says them.
impl Display for Lost {
    ghost output = { λ lost. Some (spec.lost_text lost) };

    #[tactic(auto, unfolding(crate::specs::Losses::lost_text))]
    fn fmt<W: Write>(&self, f: &mut Formatter<W>) -> fmt::Result {
        let (overflows, jumps) = (self.overflows, self.jumps);
        write!(
            f,
            "packets with the overflow flag {overflows}, jumps of the sequence number {jumps}"
        )
    }
}

/// What the packets of messages say of all bytes that a reader has left, as they come. A recording that can't be read
/// is refused with its first fault, K1 to K5, N2 or F1 to F3; want of memory and the reader's failure are the others.
pub fn count_lost<R: Advance + Drop>(alloc: Global, input: R) -> Result<Lost, StreamFault>
    ensures { (file : List ℕ) → R.remaining input ≡ Some file
        → FoldsPackets (λ ps lost. lost ≡ spec.lost_of (listing ps)) result file }
{
    let mut packets = Packets::over(alloc, input)?;
    let mut lost = Lost::none();
    'packets: for made in 0..u64::MAX {
        match packets.next() {
            Ok(Some(packet)) => lost.note(&packet),
            Ok(None) => return Ok(lost),
            Err(fault) => return Err(fault),
        }
    }
    Err(StreamFault::Device)
}
