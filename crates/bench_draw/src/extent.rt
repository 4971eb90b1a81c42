//! What is to be drawn: which channels, which time, and how.
ghost use Rattle.ch11_reader.specs.Contents.{capped};
ghost use Rattle.bench_draw.specs.Chosen.{chosen, chosen_in};
ghost use Rattle.ch11_layout.specs.Stamps.{kind_of};
ghost use Rattle.ch11_stream.specs.Folding.{FoldsPackets};
ghost use Rattle.std.specs.Prelude.{◌≡◌, ◌+◌, ◌<◌, ◌^◌, ℕ, List, Some, length, OnOk};

use crate::called::Called;
use crate::rows::Rows;
use crate::scale::{Scale, end_of};
use bench_select::Selection;
use ch11_f1::Messages;
use ch11_layout::{StampKind, View};
use ch11_reader::Packet;
use ch11_stream::{Advance, Packets, StreamFault};
use std::alloc::{AllocError, Global};

/// How many channels a picture has at most.
const CHANNELS: usize = 32;

/// How many messages a picture has at most whose labels are all drawn.
const LABELLED: u64 = 24;

/// How many tenths of a pixel a message takes at least that is drawn as a bar.
const BAR: u64 = 40;

/// A channel with selected messages of which the time is known, and which terminals these call.
#[derive(Clone, Copy)]
pub(crate) struct Used {
    pub(crate) channel: u16,
    pub(crate) called: Called,
}

/// What is to be drawn: the channels with selected messages of which the time is known, how many messages are selected,
/// the time that they take, what the first of their stamps is, and how many ticks the shortest and the longest of them
/// take.
#[derive(Drop)]
pub(crate) struct Extent {
    pub(crate) channels: Vec<Used>,
    pub(crate) messages: u64,
    pub(crate) begin: u64,
    pub(crate) kind: StampKind,
    pub(crate) end: u64,
    pub(crate) shortest: u64,
    pub(crate) longest: u64,
}

impl Extent {
    /// The extent of no message.
    fn none(alloc: Global) -> Extent
        ensures { result.messages ≡ 0 }
    {
        Extent {
            channels: Vec::new(alloc),
            messages: 0,
            begin: u64::MAX,
            kind: StampKind::Counter,
            end: 0,
            shortest: u64::MAX,
            longest: 0,
        }
    }

    /// The extent of the selected messages of all bytes that a reader has left, as their packets come; the channels are
    /// the first 32 that the file has, in rising order.
    pub(crate) fn of<R: Advance + Drop>(
        alloc: Global,
        input: R,
        selection: &Selection,
    ) -> Result<Extent, StreamFault>
        ensures { (file : List ℕ) → R.remaining input ≡ Some file
            → FoldsPackets (λ ps extent. extent.messages ≡ capped (chosen selection.now ps)) result file }
    {
        let mut packets = Packets::over(alloc, input)?;
        let mut extent = Extent::none(alloc);
        'packets: for _made in 0..u64::MAX {
            match packets.next() {
                Ok(Some(packet)) => {
                    widen_by(&mut extent, selection, &packet, packets.messages())?
                }
                Ok(None) => {
                    extent.channels.sort_by_key(|used| used.channel)?;
                    return Ok(extent);
                }
                Err(fault) => return Err(fault),
            }
        }
        Err(StreamFault::Device)
    }

    /// What the lanes show: all messages as bars with labels if they are few, and else as bars those that have the
    /// room, with the load where some have not.
    pub(crate) fn rows(&self, scale: &Scale) -> Rows {
        let all = self.messages <= LABELLED;
        Rows {
            all,
            bars: all || is_bar(scale, self.longest),
            load: !all && !is_bar(scale, self.shortest),
        }
    }
}

/// Whether a message of so many ticks has the room of a bar.
pub(crate) fn is_bar(scale: &Scale, ticks: u64) -> bool {
    scale.length(ticks) >= BAR
}

/// The extent with the selected ones of a packet's messages.
fn widen_by(
    extent: &mut Extent,
    selection: &Selection,
    packet: &Packet,
    messages: Messages<'_>,
) -> Result<(), AllocError>
    requires { packet.now.before + length messages < 2 ^ 64 }
    ensures { OnOk result (extent.new.messages
        ≡ capped (extent.old.messages
        + chosen_in selection.now (kind_of packet.now.header) packet.now.before packet.now.header.channel
        messages.entry)) }
{
    let channel = packet.header.channel;
    let kind = StampKind::of(&packet.header);
    let mut number = packet.before;
    let mut found = 0u64;
    let mut rest = messages;
    'messages: while let Some(seen) = rest.next() {
        number += 1;
        let view = View::of(kind, &seen);
        if selection.selects(number, channel, &view) {
            found += 1;
            widen(extent, channel, &view)?;
        }
    }
    let total = extent.messages.saturating_add(found);
    extent.messages = total;
    Ok(())
}

/// The extent with one more message, which is not counted yet; one of which no time is known has no place in it.
fn widen(extent: &mut Extent, channel: u16, view: &View<'_>) -> Result<(), AllocError>
    ensures { extent.new.messages ≡ extent.old.messages }
{
    if !view.has_time() {
        return Ok(());
    }
    let end = end_of(view);
    let ticks = end.saturating_sub(view.stamp());
    if view.stamp() < extent.begin {
        extent.kind = view.kind();
    }
    extent.begin = extent.begin.min(view.stamp());
    extent.end = extent.end.max(end);
    extent.shortest = extent.shortest.min(ticks);
    extent.longest = extent.longest.max(ticks);
    use_channel(&mut extent.channels, channel, view)
}

/// The channels with one more message of one of them, as long as there is room for its channel.
fn use_channel(channels: &mut Vec<Used>, channel: u16, view: &View<'_>) -> Result<(), AllocError> {
    for used in channels.iter_mut() {
        if used.channel == channel {
            used.called.add(view);
            return Ok(());
        }
    }
    if channels.len() < CHANNELS {
        let mut called = Called::none();
        called.add(view);
        channels.push(Used { channel, called })?;
    }
    Ok(())
}
