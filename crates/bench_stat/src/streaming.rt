//! The figures of a recording whose packets come from a reader.
ghost use Rattle.bench_select.specs.declared.selection.Selection.{Selection as SelectionValue};
ghost use Rattle.bench_stat.specs.Chosen.{picked};
ghost use Rattle.bench_stat.specs.Figures.{statistics};
ghost use Rattle.bench_stat.specs.Steps.{tally_of};
ghost use Rattle.bench_stat.specs.Streaming.{AreTalliesOf, IsPacketBehind, tally_or_none, with_figures};
ghost use Rattle.ch11_layout.specs.Stamps.{Recorded};
ghost use Rattle.ch11_reader.specs.Recording.{Found};
ghost use Rattle.ch11_stream.specs.Folding.{FoldsPackets};
ghost use Rattle.std.specs.HashMap.{get};
ghost use Rattle.std.specs.Prelude.{None, Some, IfOk, OnOk};
ghost use Rattle.std.specs.Prelude.{◌≡◌, ◌+◌, ◌<◌, ◌≤◌, ◌^◌, ◌++◌, ◌∷◌, [], ℕ, List, length, nat_eq, reverse};

use crate::channels::ChannelFigures;
use crate::chosen::next_selected;
use crate::tally::Tally;
use bench_select::{CHANNELS, Selection, is_of};
use ch11_f1::Messages;
use ch11_header::kinds::BUS_MESSAGES;
use ch11_layout::StampKind;
use ch11_reader::Packet;
use ch11_stream::{Advance, Packets, StreamFault};
use std::alloc::{AllocError, Global};
use std::collections::HashMap;

/// The figures so far of each channel that has any, by its number, and a number that is above all of these.
#[derive(Drop)]
pub(crate) struct TallyByChannel {
    pub(crate) channels: HashMap<u16, Tally>,
    pub(crate) end: usize,
}

impl TallyByChannel {
    /// No figures.
    fn none(alloc: Global) -> TallyByChannel
        ensures { (channel : ℕ) → get nat_eq result.channels channel ≡ None }
    {
        TallyByChannel {
            channels: HashMap::new(alloc),
            end: 0,
        }
    }
}

/// The figures over the selected messages of each channel with packets of MIL-STD-1553 messages that the selection is
/// of, in rising order of the channels' numbers, of all bytes that a reader has left, as their packets come, in memory
/// for the largest packet of messages or of time and the figures of each channel. A recording that can't be read is
/// refused with its first fault, K1 to K5, N2 or F1 to F3; want of memory and the reader's failure are the others.
pub fn stat<R: Advance + Drop>(
    alloc: Global,
    input: R,
    selection: &Selection,
) -> Result<Vec<ChannelFigures>, StreamFault>
    ensures { (file : List ℕ) → R.remaining input ≡ Some file
        → FoldsPackets (λ ps figures. figures.items ≡ statistics selection.now ps) result file }
{
    let mut packets = Packets::over(alloc, input)?;
    let mut so_far = TallyByChannel::none(alloc);
    'packets: for _made in 0..u64::MAX {
        match packets.next() {
            Ok(Some(packet)) => note_packet(&mut so_far, selection, &packet, packets.messages())?,
            Ok(None) => {
                let figures = figures_of(alloc, &so_far)?;
                return Ok(figures);
            }
            Err(fault) => return Err(fault),
        }
    }
    Err(StreamFault::Device)
}

/// One more packet: its selected messages, where it is one of messages and the selection is of its channel.
fn note_packet(
    so_far: &mut TallyByChannel,
    selection: &Selection,
    packet: &Packet,
    messages: Messages<'_>,
) -> Result<(), AllocError>
    requires { packet.now.before + length messages < 2 ^ 64 }
    ensures { (ps : List Found) (q : Found) → AreTalliesOf selection.now ps so_far.old
        → IsPacketBehind ps q packet.now messages.entry
        → OnOk result (AreTalliesOf selection.now (ps ++ q ∷ []) so_far.new) }
{
    if packet.header.kind != BUS_MESSAGES {
        return Ok(());
    }
    let channel = packet.header.channel;
    if !is_of(selection.channel, channel) {
        return Ok(());
    }
    let mut tally = tally_at(so_far, channel);
    let kind = StampKind::of(&packet.header);
    note_selected(
        &mut tally,
        selection,
        kind,
        channel,
        packet.before,
        messages,
    );
    so_far.channels.insert(channel, tally)?;
    so_far.end = end_above(so_far.end, channel);
    Ok(())
}

/// A number above a channel, and not below another one.
fn end_above(end: usize, channel: u16) -> usize
    ensures kept { end ≤ result }
    ensures above { channel < result }
{
    end.max(channel as usize + 1)
}

/// The figures so far of a channel, which may have none yet.
fn tally_at(so_far: &TallyByChannel, channel: u16) -> Tally
    ensures { result ≡ tally_or_none channel (get nat_eq so_far.now.channels channel) }
{
    match so_far.channels.get(&channel) {
        Some(tally) => *tally,
        None => Tally::begin(channel),
    }
}

/// The selected ones of a packet's messages, which stand behind so many of the file.
fn note_selected(
    tally: &mut Tally,
    selection: &Selection,
    kind: StampKind,
    channel: u16,
    before: u64,
    messages: Messages<'_>,
)
    requires { before + length messages < 2 ^ 64 }
    ensures { (history : List Recorded) → tally.old ≡ tally_of channel history → tally.new
        ≡ tally_of channel (reverse (picked selection.now kind channel before messages.entry) ++ history) }
{
    let mut number = before;
    let mut rest = messages;
    'messages: while let Some(view) = next_selected(
        &mut rest,
        &mut number,
        selection,
        kind,
        channel,
    ) {
        tally.note(&view);
    }
}

/// The figures of the channels that have any, in rising order of their numbers: none is looked for above all of these.
fn figures_of(alloc: Global, so_far: &TallyByChannel) -> Result<Vec<ChannelFigures>, AllocError>
    ensures { (s : SelectionValue) (ps : List Found) → AreTalliesOf s ps so_far.now
        → IfOk result (λ figures. figures.items ≡ statistics s ps) }
{
    let mut figures = Vec::new(alloc);
    'channels: for channel in 0..CHANNELS {
        if so_far.end <= channel {
            return Ok(figures);
        }
        push_figures(so_far, channel as u16, &mut figures)?;
    }
    Ok(figures)
}

/// Appends the figures of a channel, where it has any.
fn push_figures(
    so_far: &TallyByChannel,
    channel: u16,
    figures: &mut Vec<ChannelFigures>,
) -> Result<(), AllocError>
    ensures { OnOk result (figures.new.items
        ≡ with_figures (get nat_eq so_far.now.channels channel) figures.old.items) }
{
    if let Some(tally) = so_far.channels.get(&channel) {
        figures.push(tally.figures)?;
    }
    Ok(())
}
