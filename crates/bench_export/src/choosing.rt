//! Whether a recording has a selected message.
ghost use Rattle.bench_export.specs.Choosing as spec;
ghost use Rattle.ch11_layout.specs.Stamps.{kind_of};
ghost use Rattle.ch11_stream.specs.Folding.{FoldsPackets};
ghost use Rattle.std.specs.Prelude.{◌≡◌, ◌+◌, ◌<◌, ◌^◌, ◌||◌, ℕ, List, Some, length};

use bench_select::Selection;
use ch11_f1::Messages;
use ch11_layout::{StampKind, View};
use ch11_reader::Packet;
use ch11_stream::{Advance, Packets, StreamFault};
use std::alloc::Global;

/// Whether a packet's messages have a selected one. Condition: their numbers in the file have 64 bits.
pub fn selects_among(selection: &Selection, packet: &Packet, messages: Messages<'_>) -> bool
    requires { packet.now.before + length messages < 2 ^ 64 }
    ensures { result
        ≡ spec.selects_among selection.now
        (kind_of packet.now.header) packet.now.before packet.now.header.channel messages.entry }
{
    let channel = packet.header.channel;
    let kind = StampKind::of(&packet.header);
    let mut number = packet.before;
    let mut rest = messages;
    'messages: while let Some(seen) = rest.next() {
        number += 1;
        if selection.selects(number, channel, &View::of(kind, &seen)) {
            return true;
        }
    }
    false
}

/// Whether all bytes that a reader has left have a selected message, as their packets come. A recording that can't be
/// read is refused with its first fault, K1 to K5, N2 or F1 to F3; want of memory and the reader's failure are the
/// others.
pub fn selects_any<R: Advance + Drop>(
    alloc: Global,
    input: R,
    selection: &Selection,
) -> Result<bool, StreamFault>
    ensures { (file : List ℕ) → R.remaining input ≡ Some file
        → FoldsPackets (λ ps any. any ≡ spec.selects_any selection.now ps) result file }
{
    let mut packets = Packets::over(alloc, input)?;
    let mut selected = false;
    'packets: for _made in 0..u64::MAX {
        match packets.next() {
            Ok(Some(packet)) => {
                selected = or_selects(selected, selection, &packet, packets.messages());
            }
            Ok(None) => return Ok(selected),
            Err(fault) => return Err(fault),
        }
    }
    Err(StreamFault::Device)
}

/// Whether a message was selected before, or one of these is.
fn or_selects(
    selected: bool,
    selection: &Selection,
    packet: &Packet,
    messages: Messages<'_>,
) -> bool
    requires { packet.now.before + length messages < 2 ^ 64 }
    ensures { result ≡ (selected || spec.selects_among selection.now (kind_of packet.now.header) packet.now.before
        packet.now.header.channel messages.entry) }
{
    selected || selects_among(selection, packet, messages)
}
