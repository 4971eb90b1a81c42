//! The recording that is completed, whose packets are read where they stand.
ghost use Rattle.bench_complete.specs.Judging.{StopsWriting};
ghost use Rattle.bench_complete.specs.Lanes.{StandsAt, piece_in};
ghost use Rattle.std.specs.Io.KnownBytes.{Appends};
ghost use Rattle.std.specs.Prelude.{◌≡◌, ℕ, List, Some, take, drop, IfSome, IfErr, OnOk};

use crate::fault::CompleteFault;
use crate::placed::Placed;
use crate::places::Places;
use std::alloc::Global;
use std::io::Write;
use std::marker::Model;

/// How many bytes are read at once at most, as long as no packet has more.
const MOST: usize = 262_144;

/// How many bytes are read at once where a packet does not stand behind the one before.
const FEW: usize = 4096;

/// The recording that is completed, with the bytes that were read last. Contracts see its bytes, where they are known.
#[derive(Drop)]
pub(crate) struct Original<S: Places> {
    places: S,
    /// Bytes that were read, from an offset on.
    held: Vec<u8>,
    from: usize,
    /// Where the packet ends that was asked for last.
    next: usize,
    /// How many bytes to read at once.
    most: usize,
}

impl<S: Places> Model for Original<S> {
    ghost use Rattle.bench_complete.specs.Lanes.{StandsAt};
    ghost use Rattle.std.specs.Prelude.{◌≡◌, ℕ, List, Option, Some};

    ghost Value = { Option (List ℕ) };

    ghost view = { λ o. S.bytes o.places };

    ghost invariant = { λ o. (file : List ℕ) → S.bytes o.places ≡ Some file → StandsAt file o.from o.held.items };
}

/// Reads so many bytes from an offset on.
fn fill<S: Places>(
    places: &mut S,
    held: &mut Vec<u8>,
    offset: usize,
    size: usize,
) -> Result<(), CompleteFault>
    ensures read { OnOk result ((file : List ℕ) → S.bytes places.old ≡ Some file
        → StandsAt file offset held.new.items) }
    ensures stays { S.bytes places.new ≡ S.bytes places.old }
    ensures stopped { IfErr result StopsWriting }
{
    held.resize(size, 0)?;
    match places.read_exact_at(offset, held.as_mut_slice()) {
        Ok(()) => Ok(()),
        Err(_) => Err(CompleteFault::Reader),
    }
}

/// The bytes from an offset on among those that are held from another one on; None where not so many are.
fn held_at(held: &[u8], from: usize, offset: usize, size: usize) -> Option<&[u8]>
    ensures { IfSome result (λ bytes. (file : List ℕ) → StandsAt file from held.now
        → bytes.now ≡ take size (drop offset file)) }
{
    let start = offset.checked_sub(from)?;
    let behind = held.get(start..)?;
    behind.get(..size)
}

impl<S: Places> Original<S> {
    /// A recording, of which nothing was read yet.
    pub(crate) fn over(alloc: Global, places: S) -> Original<S>
        ensures { result ≡ S.bytes places }
    {
        Original {
            places,
            held: Vec::new(alloc),
            from: 0,
            next: 0,
            most: FEW,
        }
    }

    /// Reads so many bytes from an offset on; none are held where that fails.
    fn read(&mut self, offset: usize, size: usize) -> Result<(), CompleteFault>
        ensures stays { self.new ≡ self.old }
        ensures stopped { IfErr result StopsWriting }
    {
        self.from = offset;
        match fill(&mut self.places, &mut self.held, offset, size) {
            Ok(()) => Ok(()),
            Err(fault) => {
                self.held.clear();
                Err(fault)
            }
        }
    }

    /// Has so many bytes from an offset on held, and more behind them where they stand behind those that were asked for
    /// last: twice as many as before, as far as there are so many.
    fn bring(&mut self, offset: usize, size: usize) -> Result<(), CompleteFault>
        ensures stays { self.new ≡ self.old }
        ensures stopped { IfErr result StopsWriting }
    {
        self.most = if offset == self.next {
            self.most.saturating_mul(2).min(MOST)
        } else {
            FEW
        };
        if self.read(offset, size.max(self.most)).is_ok() {
            return Ok(());
        }
        self.most = FEW;
        self.read(offset, size)
    }

    /// Writes a packet of it.
    pub(crate) fn write_packet<W: Write>(
        &mut self,
        packet: &Placed,
        out: &mut W,
    ) -> Result<(), CompleteFault>
        ensures written { OnOk result ((file : List ℕ) → self.old ≡ Some file
            → Appends (W.contents out.old) (W.contents out.new) (piece_in file packet.now).bytes) }
        ensures stays { self.new ≡ self.old }
        ensures stopped { IfErr result StopsWriting }
    {
        let size = packet.header.packet_length as usize;
        if held_at(&self.held, self.from, packet.offset, size).is_none() {
            self.bring(packet.offset, size)?;
        }
        self.next = packet.offset.saturating_add(size);
        match held_at(&self.held, self.from, packet.offset, size) {
            Some(bytes) => {
                out.write_all(bytes)?;
                Ok(())
            }
            None => Err(CompleteFault::Reader),
        }
    }
}
