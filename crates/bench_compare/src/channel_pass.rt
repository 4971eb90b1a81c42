//! The chosen messages of a channel, one after the other.
ghost use Rattle.bench_compare.specs.Chosen as spec;
ghost use Rattle.bench_compare.specs.Passes.{Fills, IsUnderWay, Takes};
ghost use Rattle.ch11_f1.specs.Views.{message_of};
ghost use Rattle.ch11_layout.specs.Stamps.{kind_of, recorded};
ghost use Rattle.ch11_reader.specs.Recording.{Found, packets_in};
ghost use Rattle.ch11_stream.specs.Reading.{at_start};
ghost use Rattle.std.specs.Prelude.{◌≡◌, ◌+◌, ◌<◌, ◌^◌, ◌==◌, ◌++◌, ℕ, List, [], Ok, length, IfOk, OnOk};

use crate::kept::{Kept, Met};
use bench_select::Selection;
use ch11_f1::Messages;
use ch11_layout::StampKind;
use ch11_reader::Packet;
use ch11_stream::{Advance, Packets, StreamFault};
use std::alloc::{AllocError, Global};
use std::collections::VecDeque;
use std::marker::Model;

/// Which messages of a channel are chosen.
#[derive(Clone, Copy, Debug)]
pub(crate) struct Choice<'s> {
    pub(crate) channel: u16,
    pub(crate) selection: &'s Selection<'s>,
}

/// The chosen messages of a channel that a reader gives, one after the other: those of one packet are kept.
#[derive(Drop)]
pub(crate) struct ChannelPass<R: Advance> {
    packets: Packets<R>,
    kept: VecDeque<Kept>,
}

impl<R: Advance> Model for ChannelPass<R> {
    ghost use Rattle.bench_compare.specs.Passes.{Passing};

    ghost Value = { Passing };

    ghost view = { λ l. record { reading = l.packets; kept = l.kept.items } };
}

/// Keeps a message, where it is chosen.
fn keep_if(
    alloc: Global,
    kept: &mut VecDeque<Kept>,
    chosen: bool,
    met: &Met<'_>,
) -> Result<(), AllocError>
    ensures { OnOk result (kept.new.items
        ≡ kept.old.items ++ spec.one_if chosen (recorded met.now.kind (message_of met.now.seen))) }
{
    if chosen {
        let message = Kept::of(alloc, met)?;
        kept.push_back(message)?;
    }
    Ok(())
}

/// Keeps the chosen messages of a packet, numbered as in the file.
fn keep_messages(
    alloc: Global,
    kept: &mut VecDeque<Kept>,
    choice: Choice<'_>,
    packet: &Packet,
    messages: Messages<'_>,
) -> Result<(), AllocError>
    requires { packet.now.before + length messages < 2 ^ 64 }
    ensures { OnOk result (kept.new.items ≡ kept.old.items ++ spec.chosen_among choice.entry.selection.now
        (kind_of packet.now.header) packet.now.before choice.entry.channel messages.entry) }
{
    let (channel, selection) = (choice.channel, choice.selection);
    let kind = StampKind::of(&packet.header);
    let mut number = packet.before;
    let mut rest = messages;
    'messages: while let Some(seen) = rest.next() {
        number += 1;
        let met = Met { number, kind, seen };
        let chosen = selection.selects(number, channel, &met.view());
        keep_if(alloc, kept, chosen, &met)?;
    }
    Ok(())
}

/// Keeps the chosen messages of a packet, where it is of the channel.
fn keep_packet(
    alloc: Global,
    kept: &mut VecDeque<Kept>,
    choice: Choice<'_>,
    packet: &Packet,
    messages: Messages<'_>,
) -> Result<(), AllocError>
    requires { packet.now.before + length messages < 2 ^ 64 }
    ensures { OnOk result (kept.new.items ≡ kept.old.items ++ spec.chosen_if choice.entry.selection.now
        (packet.now.header.channel == choice.entry.channel) (kind_of packet.now.header) packet.now.before
        choice.entry.channel messages.entry) }
{
    if packet.header.channel == choice.channel {
        keep_messages(alloc, kept, choice, packet, messages)
    } else {
        Ok(())
    }
}

impl<R: Advance> ChannelPass<R> {
    /// The messages that a reader will give, from the start of a file.
    pub(crate) fn over(alloc: Global, input: R) -> Result<ChannelPass<R>, AllocError>
    where
        R: Drop,
        ensures { IfOk result (λ pass. pass ≡ record { reading = at_start (R.remaining input); kept = [] }) }
    {
        let packets = Packets::over(alloc, input)?;
        Ok(ChannelPass {
            packets,
            kept: VecDeque::new(alloc),
        })
    }

    /// Keeps messages of the next packet that has some that are chosen, where none are kept.
    fn fill(&mut self, alloc: Global, choice: Choice<'_>) -> Result<(), StreamFault>
        ensures { (file : List ℕ) (ps : List Found) → IsUnderWay file self.old.reading → packets_in file ≡ Ok ps
            → Fills choice.entry.selection.now choice.entry.channel file ps result self.old self.new }
    {
        'packets: for _made in 0..u64::MAX {
            if !self.kept.is_empty() {
                return Ok(());
            }
            match self.packets.next() {
                Ok(Some(packet)) => {
                    let messages = self.packets.messages();
                    keep_packet(alloc, &mut self.kept, choice, &packet, messages)?;
                }
                Ok(None) => return Ok(()),
                Err(fault) => return Err(fault),
            }
        }
        Err(StreamFault::Device)
    }

    /// The next chosen message; None where there is no more.
    pub(crate) fn next(
        &mut self,
        alloc: Global,
        choice: Choice<'_>,
    ) -> Result<Option<Kept>, StreamFault>
        ensures { (file : List ℕ) (ps : List Found) → IsUnderWay file self.old.reading → packets_in file ≡ Ok ps
            → Takes choice.entry.selection.now choice.entry.channel file ps result self.old self.new }
    {
        self.fill(alloc, choice)?;
        Ok(self.kept.pop_front())
    }
}
