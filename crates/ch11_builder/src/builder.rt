//! The builder of a channel's packets, record by record.
ghost use Rattle.ch11_builder.specs.Cutting.{is_empty};
ghost use Rattle.ch11_builder.specs.Held.{Held, fresh, pushed, closed, packet_of, latest_number};
ghost use Rattle.std.specs.Borrow.{sem};
ghost use Rattle.std.specs.Io.BufRead.{Rests};
ghost use Rattle.std.specs.Prelude.{IsErrOf, MatchOption};
ghost use Rattle.std.specs.Prelude.{◌≡◌, ◌≤◌, ◌<◌, ◌^◌, ◌↔◌, ◌⊎◌, [], false, if◌then◌else◌, length, IfOk, IfSome};

use crate::error::BuilderError;
use crate::packing::Packing;
use ch11_f1::Record;
use std::alloc::Global;
use std::marker::Model;

/// What became of a record that was pushed. It is kept in either case.
#[derive(Clone, Copy, Debug)]
pub enum Pushed<'a> {
    /// In the open packet.
    Kept,

    /// In a new packet, since the one before could not hold it too: this is that packet, finished.
    Closed(&'a [u8]),
}

/// Makes packets of the records of one channel. It has room for two packets, and takes no memory once it is made.
#[derive(Drop)]
pub struct Builder {
    packing: Packing,
}

impl Model for Builder {
    ghost use Rattle.ch11_builder.specs.Held.{Held};

    ghost Value = { Held };

    ghost view = { λ b. b.packing.held };
}

impl Builder {
    ghost use Rattle.ch11_builder.specs.Pushing.{ClosesWhereFull, IsSmallPacket};
    ghost use Rattle.ch11_builder.specs.contracts.builder.Builder.{the_row};

    /// A builder for the packets of a channel, each of at most `limit` bytes. G1 where the limit is outside 256 to
    /// 524,288, then G2 where memory is refused.
    pub fn make(
        alloc: Global,
        channel: u16,
        version: u8,
        limit: u32,
    ) -> Result<Builder, BuilderError>
        ensures fresh { IfOk result (λ b. b ≡ fresh (record { channel = channel; version = version; limit = limit })) }
        ensures limit { IsErrOf result BuilderError.Limit ↔ ((limit < 256) ⊎ (524288 < limit)) }
    {
        if limit < 256 || limit > 524_288 {
            return Err(BuilderError::Limit);
        }
        let packing = Packing::make(alloc, channel, version, limit as usize)?;
        Ok(Builder { packing })
    }

    /// Takes the next record of the channel in. Where the open packet can't hold it too, that packet is finished and
    /// lent out, and the record is the first of the next one. Conditions: the number is above that of the record
    /// before, and the stamp has 48 bits.
    pub fn push(&mut self, number: u64, message: &Record) -> Pushed<'_>
        requires number { latest_number self.old < number }
        requires stamp { message.now.stamp < 2 ^ 48 }
        ensures* after { sem 𝓛 (Rests the_row self.entry
            (λ b. b ≡ pushed self.old (record { number = number; message = message.now }))) }
        ensures answer { ClosesWhereFull self.old (record { number = number; message = message.now }) result }
        ensures small { IsSmallPacket result }
    {
        if self.packing.advance(number, message) {
            Pushed::Closed(self.packing.lent())
        } else {
            Pushed::Kept
        }
    }

    /// Finishes the open packet and lends it out. None where it has no record.
    pub fn close(&mut self) -> Option<&[u8]>
        ensures* after { sem 𝓛 (Rests the_row self.entry
            (λ b. b ≡ (if is_empty self.old.records then self.old else closed self.old))) }
        ensures answer { MatchOption result (self.old.records ≡ [])
            (λ bytes. (is_empty self.old.records ≡ false) × (bytes.now ≡ packet_of self.old)) }
        ensures small { IfSome result (λ bytes. length bytes.now ≤ 524288) }
    {
        if self.packing.is_empty() {
            None
        } else {
            self.packing.finish();
            Some(self.packing.lent())
        }
    }
}
