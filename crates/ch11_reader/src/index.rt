//! The packets of a recording that was read.
ghost use Rattle.ch11_f1.specs.Views.{message_of};
ghost use Rattle.ch11_reader.specs.Contents.{message_numbered, reading, total_in};
ghost use Rattle.ch11_reader.specs.Listing.{listing};
ghost use Rattle.ch11_reader.specs.Recording.{Found, ReadsRecording, packets_in};
ghost use Rattle.ch11_reader.specs.Skipping.{packets_read, skips_in};
ghost use Rattle.ch11_reader.specs.declared.error.ReadError.TheVariants.{Memory};
ghost use Rattle.std.specs.Prelude.{◌≡◌, ◌<◌, ◌^◌, length, slice_get, Some, IfOk, IfErr, option_map};

use crate::build::{fault_or_memory, read_packets};
use crate::channel::ChannelMessages;
use crate::error::ReadError;
use crate::packet::{Packet, message_in_packet, messages_in_packet};
use crate::search::packet_with;
use crate::skipping::{SkippingIndex, read_skipping};
use ch11_f1::{Messages, Seen};
use std::alloc::Global;
use std::marker::Model;

/// The packets of a recording and their messages, in the file's order. It borrows the file's bytes and
/// copies no message.
#[derive(Drop)]
pub struct Index<'a> {
    pub(crate) file: &'a [u8],
    pub(crate) packets: Vec<Packet>,
    pub(crate) total: u64,
}

impl<'a> Model for Index<'a> {
    ghost use Rattle.ch11_reader.specs.Indexed.{IsIndex, indexed};
    ghost use Rattle.ch11_reader.specs.Recording.{Found};
    ghost use Rattle.std.specs.Prelude.{List};

    ghost Value = { List Found };

    ghost view = { λ i. indexed i.file.now i.packets.items };

    ghost invariant = { λ i. IsIndex i.file.now i.packets.items i.total };
}

impl<'a> Index<'a> {
    /// Reads a recording: its packets, or the first fault, K1 to K5, N2, F1 to F3, with the packet's offset.
    /// Memory is answered only where the recording can be read.
    pub fn build(alloc: Global, file: &'a [u8]) -> Result<Index<'a>, ReadError>
        ensures { ReadsRecording result (packets_in file.now) }
    {
        match read_packets(alloc, file) {
            Err(ReadError::Memory) => Err(fault_or_memory(file)),
            answer => answer,
        }
    }

    /// Reads a recording as far as it is sound: where a packet without a fault begins, it is read, and the reading goes
    /// on behind it; elsewhere all bytes up to the next such packet, or up to the end, are skipped, with the first
    /// fault at the first of them. The only refusal is want of memory. A recording that `build` reads is read alike,
    /// and nothing of it is skipped.
    pub fn build_skipping(alloc: Global, file: &'a [u8]) -> Result<SkippingIndex<'a>, ReadError>
        ensures read { IfOk result (λ found. found.index ≡ packets_read file.now) }
        ensures skipped { IfOk result (λ found. found.skips.items ≡ skips_in file.now) }
        ensures memory { IfErr result (λ e. e ≡ Memory) }
    {
        read_skipping(alloc, file)
    }

    /// The messages of a channel, in the file's order.
    pub fn channel(&self, channel: u16) -> ChannelMessages<'a, '_>
        ensures { result ≡ reading self.now channel }
    {
        ChannelMessages::over(self.file, &self.packets, channel)
    }

    /// Message n of the file with its channel, counted from 1 over all channels; None for 0 and past the
    /// last. The packet is found by halving, and its messages are walked up to the one asked for.
    pub fn message(&self, n: u64) -> Option<(u16, Seen<'a>)>
        ensures { option_map (λ x. (x.0, message_of x.1)) result ≡ message_numbered self.now n }
    {
        if n == 0 || self.total < n {
            return None;
        }
        let place = packet_with(&self.packets, n - 1);
        let packet = &self.packets[place];
        let seen = message_in_packet(self.file, packet, n - 1 - packet.before)?;
        Some((packet.header.channel, seen))
    }

    /// The messages of the packet at a place of `packets`, in the file's order. Condition: there is one.
    pub fn messages_in(&self, place: usize) -> Messages<'a>
        requires { place < length self.now }
        ensures { (p : Found) → slice_get self.now place ≡ Some p → result ≡ p.messages }
    {
        messages_in_packet(self.file, &self.packets[place])
    }

    /// How many messages the recording holds, of all channels.
    pub fn total(&self) -> u64
        ensures { result ≡ total_in self.now }
    {
        self.total
    }

    /// What there is to tell of each packet, in the file's order.
    pub fn packets(&self) -> &[Packet]
        ensures listed { result.now ≡ listing self.now }
        ensures few { total_in self.now < 2 ^ 64 }
    {
        &self.packets
    }
}
