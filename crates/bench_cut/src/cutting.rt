//! A recording that is cut from another.
ghost use Rattle.bench_cut.specs.Chosen.{what_of};
ghost use Rattle.bench_cut.specs.Losses.{AreLosses, no_loss};
ghost use Rattle.bench_cut.specs.Packets.{IsRead, bytes_for, part_read, written_behind};
ghost use Rattle.bench_cut.specs.Parts as parts;
ghost use Rattle.bench_cut.specs.Parts.{Part};
ghost use Rattle.bench_cut.specs.Streaming.{Cuts};
ghost use Rattle.ch11_header.specs.HeaderBytes.{header_bytes};
ghost use Rattle.std.specs.Io.KnownBytes.{Appends};
ghost use Rattle.std.specs.Prelude.{◌≡◌, ◌<◌, ◌^◌, ◌∷◌, ◌||◌, ℕ, List, Some, length, nat_lt, false, true, IfOk, OnOk};
ghost use Rattle.std.specs.Prelude.{slice_index_or};

use crate::bodies::write_body;
use crate::choosing::{Chosen, choose};
use crate::fault::CutFault;
use crate::heads::{header_behind, header_with};
use crate::losses::{CHANNELS, ChannelLoss};
use bench_select::Selection;
use ch11_header::kinds::RECORDING_INDEX;
use ch11_header::{HEADER_SIZE, Header, write_header};
use ch11_reader::Packet;
use ch11_stream::{StreamFault, WholePackets};
use std::alloc::Global;
use std::io::{self, Read, Write};

/// Whether a packet of which this is chosen goes over: not an index of a recording, and not one that has messages of
/// which none is chosen.
fn goes_over(packet: &Packet, chosen: Chosen) -> bool
    ensures { (p : Part) → p.header ≡ packet.now.header → packet.now.count ≡ length p.messages
        → chosen.count ≡ length p.chosen → result ≡ parts.goes_over p }
{
    packet.header.kind != RECORDING_INDEX && (packet.count == 0 || chosen.count > 0)
}

/// Writes a header.
fn write_head<W: Write>(header: &Header, out: &mut W) -> io::Result<()>
    requires { header.now.counter < 2 ^ 48 }
    ensures { OnOk result (Appends (W.contents out.old) (W.contents out.new) (header_bytes header.now)) }
{
    out.write_all(&write_header(header))?;
    Ok(())
}

/// The packet that was read last, on its way over.
#[derive(Drop)]
struct Crossing<'p, R: Read> {
    /// What is lost of its channel in front of it.
    loss: ChannelLoss,
    selection: &'p Selection<'p>,
    packets: &'p WholePackets<R>,
    packet: &'p Packet,
    /// What is chosen of it.
    chosen: Chosen,
}

impl<R: Read> Crossing<'_, R> {
    /// Writes a packet that loses no message.
    fn write_kept<W: Write>(&self, out: &mut W) -> io::Result<()>
        requires read { IsRead self.now.packets.now self.now.packet.now }
        requires all { parts.loses (part_read self.now.selection.now self.now.packets.now self.now.packet.now) ≡ false }
        ensures { OnOk result (Appends (W.contents out.old) (W.contents out.new) (bytes_for self.now.loss
            (part_read self.now.selection.now self.now.packets.now self.now.packet.now))) }
    {
        let bytes = self.packets.bytes();
        write_head(&header_behind(&self.packet.header, self.loss), out)?;
        out.write_all(&bytes[HEADER_SIZE..])?;
        Ok(())
    }

    /// Writes a packet that loses messages.
    fn write_lost<W: Write>(&self, out: &mut W) -> io::Result<()>
        requires read { IsRead self.now.packets.now self.now.packet.now }
        requires what { self.now.chosen
            ≡ what_of (part_read self.now.selection.now self.now.packets.now self.now.packet.now).chosen }
        requires some { parts.loses (part_read self.now.selection.now self.now.packets.now self.now.packet.now) ≡ true }
        ensures { OnOk result (Appends (W.contents out.old) (W.contents out.new) (bytes_for self.now.loss
            (part_read self.now.selection.now self.now.packets.now self.now.packet.now))) }
    {
        let (packet, chosen) = (self.packet, self.chosen);
        let bytes = self.packets.bytes();
        write_head(
            &header_behind(&header_with(&packet.header, chosen), self.loss),
            out,
        )?;
        let messages = self.packets.messages();
        write_body(self.selection, packet, bytes, messages, chosen, out)
    }

    /// Writes the packet.
    fn write_packet<W: Write>(&self, out: &mut W) -> io::Result<()>
        requires read { IsRead self.now.packets.now self.now.packet.now }
        requires what { self.now.chosen
            ≡ what_of (part_read self.now.selection.now self.now.packets.now self.now.packet.now).chosen }
        ensures { OnOk result (Appends (W.contents out.old) (W.contents out.new) (bytes_for self.now.loss
            (part_read self.now.selection.now self.now.packets.now self.now.packet.now))) }
    {
        if self.chosen.count < self.packet.count {
            self.write_lost(out)
        } else {
            self.write_kept(out)
        }
    }
}

/// What is chosen of the packet that was read last.
fn choose_of<R: Read>(selection: &Selection, packets: &WholePackets<R>, packet: &Packet) -> Chosen
    requires { IsRead packets.now packet.now }
    ensures { result ≡ what_of (part_read selection.now packets.now packet.now).chosen }
{
    let bytes = packets.bytes();
    let chosen = choose(selection, packet, packets.messages());
    // The messages are no longer than the bytes that they stand in.
    let _size = bytes.len();
    chosen
}

/// What is lost of a channel so far.
fn loss_at(losses: &[ChannelLoss], channel: u16) -> ChannelLoss
    requires { length losses.now ≡ CHANNELS }
    ensures { result ≡ slice_index_or losses.now channel no_loss }
{
    let place = usize::from(channel);
    losses[place]
}

/// Writes the packet that was read last, if it goes over; answers whether a message of it is chosen.
fn cut_packet<R: Read, W: Write>(
    losses: &mut [ChannelLoss],
    selection: &Selection,
    packets: &WholePackets<R>,
    packet: &Packet,
    out: &mut W,
) -> io::Result<bool>
    requires channels { length losses.old ≡ CHANNELS }
    requires read { IsRead packets.now packet.now }
    ensures losses { (earlier : List Part) → AreLosses earlier losses.old
        → OnOk result (AreLosses (part_read selection.now packets.now packet.now ∷ earlier) losses.new) }
    ensures written { (earlier : List Part) → AreLosses earlier losses.old
        → OnOk result (Appends (W.contents out.old) (W.contents out.new)
        (written_behind earlier (part_read selection.now packets.now packet.now))) }
    ensures any { IfOk result
        (λ any. any ≡ nat_lt 0 (length (part_read selection.now packets.now packet.now).chosen)) }
{
    let loss = loss_at(losses, packet.header.channel);
    let place = usize::from(packet.header.channel);
    let chosen = choose_of(selection, packets, packet);
    let any = chosen.count > 0;
    if !goes_over(packet, chosen) {
        losses[place] = loss.left_out(packet.header.has_overflow());
        return Ok(any);
    }
    let crossing = Crossing {
        loss,
        selection,
        packets,
        packet,
        chosen,
    };
    crossing.write_packet(out)?;
    losses[place] = loss.over();
    Ok(any)
}

/// Whether one of two holds.
fn either(one: bool, other: bool) -> bool
    ensures { result ≡ (one || other) }
{
    one || other
}

/// Cuts a recording that a reader gives: writes one of the messages that are chosen, numbered as in the file, and of
/// all packets of other types but indexes (type 03), in the file's order, in memory for the largest packet. A packet
/// that lost messages has its counter from its first message, its lengths and checksum anew, filler 00 and no data
/// checksum; one that has none left is left out. Sequence numbers of a channel jump where those of the recording do,
/// and where a packet that was left out had the overflow flag, the next of its channel has it. A recording that can't
/// be read is refused with its first fault, K1 to K5, N2 or F1 to F3, and then the writer may have got packets in front
/// of it. Answers whether any message was chosen.
pub fn cut<R: Read + Drop, W: Write>(
    alloc: Global,
    input: R,
    selection: &Selection,
    out: &mut W,
) -> Result<bool, CutFault>
    ensures { (file : List ℕ) → R.remaining input ≡ Some file
        → Cuts selection.now result file (W.contents out.old) (W.contents out.new) }
{
    let mut packets = WholePackets::over(alloc, input)?;
    let mut losses = vec![in alloc; ChannelLoss::new(); CHANNELS]?;
    let mut selected = false;
    'packets: for _made in 0..u64::MAX {
        match packets.next() {
            Ok(Some(packet)) => {
                let any = cut_packet(losses.as_mut_slice(), selection, &packets, &packet, out)?;
                selected = either(selected, any);
            }
            Ok(None) => return Ok(selected),
            Err(fault) => return Err(CutFault::Reading(fault)),
        }
    }
    Err(CutFault::Reading(StreamFault::Device))
}
