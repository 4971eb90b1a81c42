//! What is known of the packets so far: how many messages they have, and the latest sequence number of each channel.
ghost use Rattle.ch11_reader.specs.Contents.{total_in};
ghost use Rattle.ch11_reader.specs.Listing.{jumps, listed_behind};
ghost use Rattle.ch11_reader.specs.Recording.{packet_messages};
ghost use Rattle.ch11_stream.specs.Listed.{found_at};
ghost use Rattle.std.specs.Prelude.{◌≡◌, ◌+◌, ◌<◌, ◌≤◌, ◌^◌, [], ◌∷◌, ℕ, length, vec_len, slice_index_or, slice_set};
ghost use Rattle.std.specs.Prelude.{None, Some, IfOk, OnOk, OnErr};

use crate::buffer::Buffer;
use crate::found::{FoundPacket, found_in};
use ch11_reader::{Checked, Packet};
use history::History;
use std::alloc::{AllocError, Global};
use std::marker::Model;

/// For how many channels there is memory at first.
const FEW_CHANNELS: usize = 64;

/// What is known of the packets so far. Contracts see the packets, newest first.
#[derive(Drop)]
pub(crate) struct Listed {
    /// A place for each channel, up to the highest one that had a packet: its latest sequence number.
    latest: Vec<Option<u8>>,
    before: u64,
    past: History<FoundPacket>,
}

impl Model for Listed {
    ghost use Rattle.ch11_reader.specs.Recording.{Found};
    ghost use Rattle.ch11_stream.specs.Listed.{IsListingTally};
    ghost use Rattle.std.specs.Prelude.{List};

    ghost Value = { List Found };

    ghost view = { λ l. l.past };

    ghost invariant = { λ l. IsListingTally l.latest.items l.before l.past };
}

/// Makes a place for a channel, and for each below it: there is no number yet in those that are new.
#[cold]
#[inline(never)]
fn make_place(latest: &mut Vec<Option<u8>>, channel: u16) -> Result<(), AllocError>
    requires { vec_len latest.old ≤ channel }
    ensures place { OnOk result (channel < vec_len latest.new) }
    ensures same { (k : ℕ) → slice_index_or latest.new.items k None ≡ slice_index_or latest.old.items k None }
{
    latest.resize(channel as usize + 1, None)
}

/// Whether a number breaks the sequence of its channel. It becomes the channel's latest.
fn note_number(latest: &mut [Option<u8>], channel: u16, sequence: u8) -> bool
    requires { channel < length latest.old }
    ensures breaks { result ≡ jumps (slice_index_or latest.old channel None) sequence }
    ensures noted { latest.new ≡ slice_set latest.old channel (Some sequence) }
{
    let place = channel as usize;
    let breaks = match latest[place] {
        Some(before) => sequence != before.wrapping_add(1),
        None => false,
    };
    latest[place] = Some(sequence);
    breaks
}

impl Listed {
    /// No packets yet; memory for the places of low channels.
    pub(crate) fn none(alloc: Global) -> Result<Listed, AllocError>
        ensures { IfOk result (λ l. l ≡ []) }
    {
        let latest = Vec::with_capacity(alloc, FEW_CHANNELS)?;
        Ok(Listed {
            latest,
            before: 0,
            past: History::none(),
        })
    }

    /// Enters the packet at an offset that begins the bytes that are ready, and answers what there is to tell of it;
    /// only a packet of a channel above all others so far can want memory.
    pub(crate) fn enter(
        &mut self,
        offset: usize,
        checked: Checked,
        buffer: &Buffer,
    ) -> Result<Packet, AllocError>
        requires count { checked.count ≡ length (packet_messages checked.header buffer.now.ready) }
        requires few { total_in self.old + checked.count < 2 ^ 64 }
        ensures listed { IfOk result
            (λ packet. packet ≡ listed_behind self.old (found_at offset checked.header buffer.now.ready)) }
        ensures entered { OnOk result (self.new ≡ found_at offset checked.header buffer.now.ready ∷ self.old) }
        ensures same { OnErr result (self.new ≡ self.old) }
    {
        let header = checked.header;
        if self.latest.len() <= header.channel as usize {
            make_place(&mut self.latest, header.channel)?;
        }
        let sequence_jump = note_number(&mut self.latest, header.channel, header.sequence);
        let packet = Packet {
            offset,
            header,
            before: self.before,
            count: checked.count,
            sequence_jump,
        };
        self.before += checked.count;
        self.past = self.past.put_before(&found_in(offset, header, buffer));
        Ok(packet)
    }
}
