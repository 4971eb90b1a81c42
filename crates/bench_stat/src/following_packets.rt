//! What is told of channels beside their figures, as the packets of a recording come from a reader.
ghost use Rattle.bench_select.specs.declared.selection.Selection.{Selection as SelectionValue};
ghost use Rattle.bench_stat.specs.PageText.{details_in, flows_in, losses_in, slices_in, told_at};
ghost use Rattle.bench_stat.specs.Told.{AreTold, IsListedBehind};
ghost use Rattle.bench_stat.specs.declared.channels.ChannelFigures.{ChannelFigures as FiguresValue};
ghost use Rattle.bench_stat.specs.declared.shown.Shown.{Shown as ShownValue};
ghost use Rattle.ch11_reader.specs.Recording.{Found};
ghost use Rattle.ch11_stream.specs.Folding.{FoldsPackets};
ghost use Rattle.std.specs.HashMap.{get};
ghost use Rattle.std.specs.Option.{option_copied};
ghost use Rattle.std.specs.Prelude.{nat_eq};
ghost use Rattle.std.specs.Prelude.{◌≡◌, ◌+◌, ◌<◌, ◌^◌, ◌++◌, ◌∷◌, [], ℕ, List, None, Some, IfOk, OnOk, length};

use crate::channels::ChannelFigures;
use crate::details::Details;
use crate::flows::Flow;
use crate::losses::Losses;
use crate::shown::Shown;
use crate::slices::Slice;
use crate::told::Told;
use bench_select::Selection;
use ch11_f1::Messages;
use ch11_reader::Packet;
use ch11_stream::{Advance, Packets, StreamFault};
use std::alloc::{AllocError, Global};
use std::collections::HashMap;

/// What is told of each of some channels beside its figures.
#[derive(Drop)]
pub struct ToldChannels {
    channels: HashMap<u16, Told>,
}

impl ToldChannels {
    /// No channels.
    pub fn new(alloc: Global) -> ToldChannels
        ensures { (channel : ℕ) → get nat_eq result.channels channel ≡ None }
    {
        ToldChannels {
            channels: HashMap::new(alloc),
        }
    }

    /// One more channel, in front of its first packet.
    fn add(
        &mut self,
        alloc: Global,
        figures: &ChannelFigures,
        shown: &Shown,
    ) -> Result<(), AllocError>
        ensures { (s : SelectionValue) (others : List FiguresValue) → AreTold shown.now s others [] self.old
            → OnOk result (AreTold shown.now s (others ++ figures.now ∷ []) [] self.new) }
    {
        let told = Told::none(alloc, shown, &figures.traffic)?;
        self.channels.insert(figures.channel, told)?;
        Ok(())
    }

    /// The channels of these figures, in front of the first packet.
    fn before_packets(
        alloc: Global,
        figures: &[ChannelFigures],
        shown: &Shown,
    ) -> Result<ToldChannels, AllocError>
        ensures { (s : SelectionValue) → IfOk result (AreTold shown.now s figures.now []) }
    {
        let mut told = ToldChannels::new(alloc);
        'channels: for channel in figures {
            told.add(alloc, channel, shown)?;
        }
        Ok(told)
    }

    /// One more packet.
    fn note_packet(
        &mut self,
        selection: &Selection,
        packet: &Packet,
        messages: Messages<'_>,
    ) -> Result<(), AllocError>
        requires { packet.now.before + length messages < 2 ^ 64 }
        ensures { (shown : ShownValue) (figures : List FiguresValue) (ps : List Found) (q : Found)
            → IsListedBehind ps q packet.now messages.entry → AreTold shown selection.now figures ps self.old
            → OnOk result (AreTold shown selection.now figures (ps ++ q ∷ []) self.new) }
    {
        let channel = packet.header.channel;
        let Some(mut told) = self.channels.remove(&channel) else {
            return Ok(());
        };
        told.note_packet(selection, packet, messages);
        self.channels.insert(channel, told)?;
        Ok(())
    }

    /// What is told of a channel; None where it is not one of those whose figures were given.
    pub fn of(&self, channel: u16) -> Option<&Told>
        ensures { option_copied result ≡ get nat_eq self.now.channels channel }
    {
        self.channels.get(&channel)
    }

    /// What the packets of a channel say of messages that are missing; of one that is not told of, what no packets say.
    pub(crate) fn losses(&self, channel: u16) -> Losses
        ensures { result ≡ losses_in (told_at self.now channel) }
    {
        match self.of(channel) {
            Some(told) => told.losses,
            None => Losses::none(),
        }
    }

    /// How the messages of a channel follow one another, and its status words; those of no messages where they are not
    /// told.
    pub(crate) fn details(&self, channel: u16) -> Details
        ensures { result ≡ details_in (told_at self.now channel) }
    {
        match self.of(channel) {
            Some(told) => told.messages.details.unwrap_or(Details::none()),
            None => Details::none(),
        }
    }

    /// A flow for each command word without its last field, 0 to 2047; none where they are not told.
    pub(crate) fn flows(&self, channel: u16) -> &[Flow]
        ensures { result.now ≡ flows_in (told_at self.now channel) }
    {
        match self.of(channel) {
            Some(told) => told.messages.flows.as_slice(),
            None => &[],
        }
    }

    /// How busy a channel is in each of 20 slices of its figures' span; none where that is not told.
    pub(crate) fn load(&self, channel: u16) -> &[Slice]
        ensures { result.now ≡ slices_in (told_at self.now channel) }
    {
        match self.of(channel) {
            Some(told) => told.messages.slices.as_slice(),
            None => &[],
        }
    }
}

/// What is told of the channels of these figures beside them, for all bytes that a reader has left, as their packets
/// come, in one pass and in memory for the largest packet of messages or of time and what is told: 112 KiB a channel
/// where it is by subaddress. It counts in the selected messages; their load is that in slices of the figures' spans. A
/// recording that can't be read is refused with its first fault, K1 to K5, N2 or F1 to F3; want of memory and the
/// reader's failure are the others.
pub fn told_channels<R: Advance + Drop>(
    alloc: Global,
    input: R,
    selection: &Selection,
    figures: &[ChannelFigures],
    shown: &Shown,
) -> Result<ToldChannels, StreamFault>
    ensures { (file : List ℕ) → R.remaining input ≡ Some file
        → FoldsPackets (λ ps told. AreTold shown.now selection.now figures.now ps told) result file }
{
    let mut packets = Packets::over(alloc, input)?;
    let mut told = ToldChannels::before_packets(alloc, figures, shown)?;
    'packets: for made in 0..u64::MAX {
        match packets.next() {
            Ok(Some(packet)) => told.note_packet(selection, &packet, packets.messages())?,
            Ok(None) => return Ok(told),
            Err(fault) => return Err(fault),
        }
    }
    Err(StreamFault::Device)
}
