//! What is kept of the packets of a recording, in one pass over it.
ghost use Rattle.bench_complete.specs.Judging.{tells_time_by};
ghost use Rattle.bench_complete.specs.Listing.{AreSmall, IsListed, IsSmallStretch, placed, skips_with, timed_with};
ghost use Rattle.bench_complete.specs.Listing.{places_with};
ghost use Rattle.ch11_reader.specs.Skipping.{packets_read, skips_in};
ghost use Rattle.ch11_stream.specs.Feeding.{IsOther};
ghost use Rattle.ch11_stream.specs.Folding.{FoldsPackets};
ghost use Rattle.std.specs.Prelude.{◌≡◌, ◌<◌, ◌^◌, ◌∷◌, [], ◌++◌, ◌||◌, false, ℕ, List, Some, IfOk, IfErr, OnOk};

use crate::judging::tells_time;
use crate::placed::Placed;
use ch11_reader::{Packet, Skip};
use ch11_stream::{Advance, Packets, StreamFault, Stretch, Stretches};
use std::alloc::{AllocError, Global};
use std::io::Read;

/// How many counters there are: a header has 48 bits for its own.
const COUNTERS: u64 = 1 << 48;

/// What is kept of the packets of a recording.
#[derive(Drop)]
pub(crate) struct Listed {
    /// Where each of them stands, in the file's order.
    pub(crate) packets: Vec<Placed>,
    /// Whether a time packet is among them.
    pub(crate) timed: bool,
}

/// What is kept of the packets of a recording that may be damaged.
#[derive(Drop)]
pub(crate) struct SoundListed {
    /// Those that are sound.
    pub(crate) listed: Listed,
    /// The bytes that were skipped.
    pub(crate) skips: Vec<Skip>,
}

/// Puts the place of a packet behind those of others.
fn put_behind(packets: &mut Vec<Placed>, packet: &Packet) -> Result<(), AllocError>
    ensures { OnOk result (packets.new.items ≡ packets.old.items ++ (placed packet.now ∷ [])) }
{
    packets.push(Placed {
        offset: packet.offset,
        header: packet.header,
    })?;
    Ok(())
}

/// Puts a skip behind others.
fn put_skip(skips: &mut Vec<Skip>, skip: &Skip) -> Result<(), AllocError>
    ensures { OnOk result (skips.new.items ≡ skips.old.items ++ (skip.now ∷ [])) }
{
    skips.push(*skip)?;
    Ok(())
}

impl Listed {
    /// No packets yet.
    fn none(alloc: Global) -> Listed
        ensures packets { result.packets.items ≡ [] }
        ensures timed { result.timed ≡ false }
    {
        Listed {
            packets: Vec::new(alloc),
            timed: false,
        }
    }

    /// Enters the packet that was read last, of which these bytes are kept. A counter of more than 48 bits is a failure
    /// of the reader.
    fn enter(&mut self, packet: &Packet, bytes: &[u8]) -> Result<(), StreamFault>
        ensures packets { OnOk result
            (self.new.packets.items ≡ self.old.packets.items ++ (placed packet.now ∷ [])) }
        ensures timed { OnOk result
            (self.new.timed ≡ (self.old.timed || tells_time_by packet.now.header bytes.now)) }
        ensures small { OnOk result (packet.now.header.counter < 2 ^ 48) }
        ensures failed { IfErr result IsOther }
    {
        if packet.header.counter >= COUNTERS {
            return Err(StreamFault::Device);
        }
        put_behind(&mut self.packets, packet)?;
        self.timed = self.timed || tells_time(&packet.header, bytes);
        Ok(())
    }
}

/// What is kept of the packets of all bytes that a reader has left.
pub(crate) fn list<R: Advance + Drop>(alloc: Global, input: R) -> Result<Listed, StreamFault>
    ensures small { IfOk result (λ l. AreSmall l.packets.items) }
    ensures listed { (file : List ℕ) → R.remaining input ≡ Some file → FoldsPackets (IsListed file) result file }
{
    let mut packets = Packets::over(alloc, input)?;
    let mut listed = Listed::none(alloc);
    'packets: for _made in 0..u64::MAX {
        match packets.next() {
            Ok(Some(packet)) => listed.enter(&packet, packets.bytes())?,
            Ok(None) => return Ok(listed),
            Err(fault) => return Err(fault),
        }
    }
    Err(StreamFault::Device)
}

impl SoundListed {
    /// Nothing yet.
    fn none(alloc: Global) -> SoundListed
        ensures packets { result.listed.packets.items ≡ [] }
        ensures timed { result.listed.timed ≡ false }
        ensures skips { result.skips.items ≡ [] }
    {
        SoundListed {
            listed: Listed::none(alloc),
            skips: Vec::new(alloc),
        }
    }

    /// Enters the stretch that was read last, of which these bytes are kept.
    fn enter(&mut self, stretch: &Stretch, bytes: &[u8]) -> Result<(), StreamFault>
        ensures packets { OnOk result (self.new.listed.packets.items
            ≡ places_with self.old.listed.packets.items stretch.now) }
        ensures timed { OnOk result
            (self.new.listed.timed ≡ timed_with self.old.listed.timed stretch.now bytes.now) }
        ensures skips { OnOk result (self.new.skips.items ≡ skips_with self.old.skips.items stretch.now) }
        ensures small { OnOk result (IsSmallStretch stretch.now) }
        ensures failed { IfErr result IsOther }
    {
        match stretch {
            Stretch::Sound(packet) => self.listed.enter(packet, bytes),
            Stretch::Skipped(skip) => {
                put_skip(&mut self.skips, skip)?;
                Ok(())
            }
        }
    }
}

/// The same of what is sound of them, with the bytes that were skipped.
pub(crate) fn list_sound<R: Read + Drop>(
    alloc: Global,
    input: R,
) -> Result<SoundListed, StreamFault>
    ensures small { IfOk result (λ s. AreSmall s.listed.packets.items) }
    ensures listed { (file : List ℕ) → R.remaining input ≡ Some file
        → IfOk result (λ s. IsListed file (packets_read file) s.listed) }
    ensures skipped { (file : List ℕ) → R.remaining input ≡ Some file
        → IfOk result (λ s. s.skips.items ≡ skips_in file) }
    ensures failed { IfErr result IsOther }
{
    let mut stretches = Stretches::over(alloc, input)?;
    let mut found = SoundListed::none(alloc);
    'stretches: for _made in 0..u64::MAX {
        match stretches.next() {
            Ok(Some(stretch)) => found.enter(&stretch, stretches.bytes())?,
            Ok(None) => return Ok(found),
            Err(fault) => return Err(fault),
        }
    }
    Err(StreamFault::Device)
}
