//! What is told of the first messages or packets that miss a rule.
ghost use Rattle.bench_judge.specs.Packets.{packets_missed};
ghost use Rattle.bench_judge.specs.Selection.{Origins};
ghost use Rattle.bench_judge.specs.Tallies.{IsPacketTelling, IsPut, IsTelling};
ghost use Rattle.bench_judge.specs.Told.{told_at, told_moment, told_packet};
ghost use Rattle.bench_judge.specs.Verdicts.{missed};
ghost use Rattle.bench_select.specs.Viewed.{Viewed, viewed_behind, viewed_in};
ghost use Rattle.ch11_layout.specs.Stamps.{kind_of};
ghost use Rattle.ch11_reader.specs.Listing.{listing};
ghost use Rattle.ch11_reader.specs.declared.packet.Packet.{Packet as PacketValue};
ghost use Rattle.ch11_stream.specs.Folding.{FoldsPackets};
ghost use Rattle.std.specs.List.{flat_map};
ghost use Rattle.std.specs.Prelude.{◌≡◌, ◌+◌, ◌<◌, ◌^◌, ◌∷◌, ◌++◌, [], ℕ, List, Some, length, take, reverse};
ghost use Rattle.std.specs.Prelude.{IfOk, OnOk};

use crate::packets::misses_packet;
use crate::tallied::note_miss;
use crate::tallies::Tally;
use crate::told::{put_packet, put_told_at};
use crate::verdicts::Miss;
use ch11_f1::Messages;
use ch11_layout::{StampKind, View};
use ch11_reader::{Packet, Skip};
use ch11_stream::{Advance, Packets, StreamFault};
use judge_rules::{Check, Rule};
use std::alloc::{AllocError, Global};

/// A telling of the first messages that miss a rule: the tally so far, what is told, and of how many more it will be.
#[derive(Drop)]
pub(crate) struct Telling {
    pub(crate) tally: Tally,
    pub(crate) text: Vec<u8>,
    pub(crate) left: usize,
}

impl Telling {
    /// Of no message so far, and at most so many.
    fn new(alloc: Global, most: usize) -> Telling
        ensures { (rule : Rule) → (origins : Origins) → IsTelling rule origins most [] result }
    {
        let tally = Tally::new(alloc);
        let text = Vec::new(alloc);
        Telling {
            tally,
            text,
            left: most,
        }
    }

    /// One more message of a channel.
    fn tell(
        &mut self,
        rule: &Rule,
        origins: &[Option<u64>],
        number: u64,
        channel: u16,
        view: &View<'_>,
    ) -> Result<(), AllocError>
        ensures { (history : List Viewed) → (most : ℕ) → IsTelling rule.now origins.now most history self.old
            → number ≡ length history + 1
            → OnOk result (IsTelling rule.now origins.now most ((channel, view.now) ∷ history) self.new) }
    {
        let last = self.tally.before(channel);
        if let Some(miss) = note_miss(rule, &mut self.tally, origins, number, channel, view)? {
            self.put(&miss, &rule.check, last, view)?;
        }
        Ok(())
    }

    /// Tells a message that misses the rule, where one more is to be told.
    fn put(
        &mut self,
        miss: &Miss,
        check: &Check,
        before: Option<u64>,
        view: &View<'_>,
    ) -> Result<(), AllocError>
        ensures { OnOk result (IsPut (told_at miss.now check.now before view.now) self.old self.new) }
    {
        if self.left == 0 {
            return Ok(());
        }
        self.left -= 1;
        put_told_at(&mut self.text, miss, check, before, view)?;
        Ok(())
    }

    /// The messages of one more packet.
    fn tell_packet(
        &mut self,
        rule: &Rule,
        origins: &[Option<u64>],
        packet: &Packet,
        messages: Messages<'_>,
    ) -> Result<(), AllocError>
        requires { packet.now.before + length messages < 2 ^ 64 }
        ensures { (history : List Viewed) → (most : ℕ) → IsTelling rule.now origins.now most history self.old
            → packet.now.before ≡ length history
            → OnOk result (IsTelling rule.now origins.now most
            (viewed_behind (kind_of packet.now.header) packet.now.header.channel messages.entry history) self.new) }
    {
        let channel = packet.header.channel;
        let kind = StampKind::of(&packet.header);
        let mut number = packet.before;
        let mut rest = messages;
        'messages: while let Some(seen) = rest.next() {
            number += 1;
            self.tell(rule, origins, number, channel, &View::of(kind, &seen))?;
        }
        Ok(())
    }
}

/// What is told of the first messages that miss a rule, in the file's order, at most as many as that, of all bytes that
/// a reader has left, as their packets come: a line of each, where it is, what was there and what was expected. The
/// times of the rule count from these times of day. A recording that can't be read is refused with its first fault, K1
/// to K5, N2 or F1 to F3; want of memory and the reader's failure are the others.
pub fn tell_messages<R: Advance + Drop>(
    alloc: Global,
    input: R,
    rule: &Rule,
    origins: &[Option<u64>],
    most: usize,
) -> Result<Vec<u8>, StreamFault>
    ensures { (file : List ℕ) → R.remaining input ≡ Some file
        → FoldsPackets (λ ps told. told.items ≡ flat_map (told_moment rule.now origins.now)
        (take most (reverse (missed rule.now origins.now (reverse (viewed_in ps)))))) result file }
{
    let mut packets = Packets::over(alloc, input)?;
    let mut telling = Telling::new(alloc, most);
    'packets: for _made in 0..u64::MAX {
        match packets.next() {
            Ok(Some(packet)) => {
                telling.tell_packet(rule, origins, &packet, packets.messages())?;
            }
            Ok(None) => return Ok(telling.text),
            Err(fault) => return Err(fault),
        }
    }
    Err(StreamFault::Device)
}

/// Tells a packet where it misses a rule and one more is to be told. Answers how many more are to be told.
fn tell_one(
    text: &mut Vec<u8>,
    rule: &Rule,
    packet: &Packet,
    left: usize,
    skips: &[Skip],
) -> Result<usize, AllocError>
    ensures { (packets : List PacketValue) → (most : ℕ)
        → IsPacketTelling skips.now rule.now most packets text.old.items left
        → IfOk result (IsPacketTelling skips.now rule.now most (packets ++ packet.now ∷ []) text.new.items) }
{
    if left == 0 {
        return Ok(left);
    }
    let missed = misses_packet(rule, packet);
    if !missed {
        return Ok(left);
    }
    put_packet(text, b"\npacket ", packet, skips)?;
    Ok(left - 1)
}

/// What is told of the first packets that miss a rule, in the same way, by where they begin in the file of which these
/// bytes were skipped.
pub fn tell_packets<R: Advance + Drop>(
    alloc: Global,
    input: R,
    rule: &Rule,
    most: usize,
    skips: &[Skip],
) -> Result<Vec<u8>, StreamFault>
    ensures { (file : List ℕ) → R.remaining input ≡ Some file
        → FoldsPackets (λ ps told. told.items
        ≡ flat_map (told_packet skips.now) (take most (packets_missed rule.now (listing ps)))) result file }
{
    let mut packets = Packets::over(alloc, input)?;
    let mut text = Vec::new(alloc);
    let mut left = most;
    'packets: for _made in 0..u64::MAX {
        match packets.next() {
            Ok(Some(packet)) => left = tell_one(&mut text, rule, &packet, left, skips)?,
            Ok(None) => return Ok(text),
            Err(fault) => return Err(fault),
        }
    }
    Err(StreamFault::Device)
}
