//! The messages of a channel.
ghost use Rattle.bench_reproduce.specs.Readings.{messages_if, messages_in};
ghost use Rattle.ch11_f1.specs.Views.{message_of};
ghost use Rattle.ch11_layout.specs.Stamps.{kind_of, recorded};
ghost use Rattle.ch11_reader.specs.Indexed.{found_in};
ghost use Rattle.ch11_reader.specs.Recording.{packets_in};
ghost use Rattle.std.specs.Prelude.{◌≡◌, ◌+◌, ◌<◌, ◌≤◌, ◌^◌, ◌==◌, ◌++◌, ◌∷◌, ℕ, List, [], Ok, Some};
ghost use Rattle.std.specs.Prelude.{length, map, slice_get, IfNone, IfOk, IfSome, OnOk};

use crate::fault::ReproduceFault;
use bench_compare::Met;
use ch11_f1::{Messages, Seen};
use ch11_layout::StampKind;
use ch11_reader::Packet;
use ch11_stream::{Advance, Packets, StreamFault};
use std::alloc::{AllocError, Global};
use std::marker::Model;

/// How many messages a job may insert.
const MOST_MESSAGES: usize = 1_000_000;

/// What a heard message has beside its words, in at most 32 bytes.
#[derive(Clone, Copy, Debug)]
struct MessageHead {
    /// Its time stamp, the eight bytes as a number.
    stamp: u64,
    /// Its number in the file, counted from 1.
    number: u32,
    /// Where its words begin, in bytes behind the first word of the first message.
    start: u32,
    /// How many bytes its words are.
    size: u16,
    /// Its block status word.
    block: u16,
    /// Its gap times word.
    gaps: u16,
    /// What its time stamp is.
    kind: StampKind,
}

impl MessageHead {
    /// That of a message whose words begin behind so many bytes. Its number in the file and those bytes are below 2^32,
    /// and the bytes of its words below 2^16: what is more is refused as want of memory.
    fn of(met: &Met<'_>, start: usize) -> Result<MessageHead, AllocError>
        ensures { IfOk result (λ head. head ≡ record {
          stamp = met.now.seen.stamp;
          number = met.now.number;
          start = start;
          size = length met.now.seen.words.now;
          block = met.now.seen.block;
          gaps = met.now.seen.gaps;
          kind = met.now.kind;
        }) }
    {
        let Ok(number) = u32::try_from(met.number) else {
            return Err(AllocError);
        };
        let Ok(start) = u32::try_from(start) else {
            return Err(AllocError);
        };
        let Ok(size) = u16::try_from(met.seen.words.len()) else {
            return Err(AllocError);
        };
        Ok(MessageHead {
            stamp: met.seen.stamp,
            number,
            start,
            size,
            block: met.seen.block,
            gaps: met.seen.gaps,
            kind: met.kind,
        })
    }
}

/// The messages of a channel in the order of the file, their words one behind the other. Contracts see the list of the
/// messages.
#[derive(Drop)]
pub(crate) struct Heard {
    heads: Vec<MessageHead>,
    words: Vec<u8>,
}

impl Model for Heard {
    ghost use Rattle.bench_reproduce.specs.Hearing.{AreInside, message_in};
    ghost use Rattle.ch11_layout.specs.Stamps.{Recorded};
    ghost use Rattle.std.specs.Prelude.{List, map};

    ghost Value = { List Recorded };

    ghost view = { λ h. map (message_in h.words.items) h.heads.items };

    ghost invariant = { λ h. AreInside h.words.items h.heads.items };
}

impl Heard {
    /// No message.
    fn none(alloc: Global) -> Heard
        ensures { result ≡ [] }
    {
        Heard {
            heads: Vec::new(alloc),
            words: Vec::new(alloc),
        }
    }

    /// How many messages there are.
    pub(crate) fn len(&self) -> usize
        ensures { result ≡ length self.now }
    {
        self.heads.len()
    }

    /// Puts a message behind the others. It fails for want of memory, and as if for want of it where the words of all
    /// take 2^32 bytes or more, or the message has a number in the file of 2^32 or more.
    fn put(&mut self, met: &Met<'_>) -> Result<(), AllocError>
        ensures { OnOk result (self.new ≡ self.old ++ recorded met.now.kind (message_of met.now.seen) ∷ []) }
    {
        let head = MessageHead::of(met, self.words.len())?;
        self.words.extend_from_slice(met.seen.words)?;
        self.heads.push(head)?;
        Ok(())
    }

    /// Gives back the memory that is not in use.
    fn settle(&mut self)
        ensures { self.new ≡ self.old }
    {
        self.heads.shrink_to_fit();
        self.words.shrink_to_fit();
    }

    /// The message at a place, counted from 0. Condition: it is there.
    pub(crate) fn at(&self, place: usize) -> Met<'_>
        requires { place < length self.now }
        ensures { slice_get self.now place ≡ Some (recorded result.kind (message_of result.seen)) }
    {
        let head = self.heads[place];
        let start = head.start as usize;
        let end = start + usize::from(head.size);
        Met {
            number: u64::from(head.number),
            kind: head.kind,
            seen: Seen {
                stamp: head.stamp,
                block: head.block,
                gaps: head.gaps,
                words: &self.words[start..end],
            },
        }
    }

    /// The message at a place, counted from 0, if it is there.
    pub(crate) fn get(&self, place: usize) -> Option<Met<'_>>
        ensures some { IfSome result
            (λ met. slice_get self.now place ≡ Some (recorded met.kind (message_of met.seen))) }
        ensures none { IfNone result (length self.now ≤ place) }
    {
        if place < self.len() {
            Some(self.at(place))
        } else {
            None
        }
    }
}

/// Keeps a message behind the others.
fn keep(heard: &mut Heard, met: &Met<'_>) -> Result<(), ReproduceFault>
    ensures { OnOk result (heard.new ≡ heard.old ++ recorded met.now.kind (message_of met.now.seen) ∷ []) }
{
    if heard.len() >= MOST_MESSAGES {
        return Err(ReproduceFault::Many);
    }
    heard.put(met)?;
    Ok(())
}

/// Keeps the messages of a packet, numbered as in the file.
fn keep_messages(
    heard: &mut Heard,
    packet: &Packet,
    messages: Messages<'_>,
) -> Result<(), ReproduceFault>
    requires { packet.now.before + length messages < 2 ^ 64 }
    ensures { OnOk result (heard.new ≡ heard.old ++ map (recorded (kind_of packet.now.header)) messages.entry) }
{
    let kind = StampKind::of(&packet.header);
    let mut number = packet.before;
    let mut rest = messages;
    'messages: while let Some(seen) = rest.next() {
        number += 1;
        keep(heard, &Met { number, kind, seen })?;
    }
    Ok(())
}

/// Keeps the messages of a packet, where it is of the channel.
fn keep_packet(
    heard: &mut Heard,
    channel: u16,
    packet: &Packet,
    messages: Messages<'_>,
) -> Result<(), ReproduceFault>
    requires { packet.now.before + length messages < 2 ^ 64 }
    ensures { OnOk result (heard.new ≡ heard.old
        ++ messages_if (packet.now.header.channel == channel) (kind_of packet.now.header) messages.entry) }
{
    if packet.header.channel == channel {
        keep_messages(heard, packet, messages)
    } else {
        Ok(())
    }
}

/// The messages of a channel, in the order of the file, of all bytes that a reader has left: a pass over its packets.
pub(crate) fn hear<R: Advance + Drop>(
    alloc: Global,
    input: R,
    channel: u16,
) -> Result<Heard, ReproduceFault>
    ensures { IfOk result (λ heard. (file : List ℕ) → R.remaining input ≡ Some file
        → (packets_in file ≡ Ok (found_in file)) × (heard ≡ messages_in channel (found_in file))) }
{
    let mut packets = Packets::over(alloc, input)?;
    let mut heard = Heard::none(alloc);
    'packets: for _made in 0..u64::MAX {
        match packets.next() {
            Ok(Some(packet)) => {
                let messages = packets.messages();
                keep_packet(&mut heard, channel, &packet, messages)?;
            }
            Ok(None) => {
                heard.settle();
                return Ok(heard);
            }
            Err(fault) => return Err(ReproduceFault::Reading(fault)),
        }
    }
    Err(ReproduceFault::Reading(StreamFault::Device))
}
