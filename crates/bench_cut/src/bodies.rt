//! What stands behind the header of a packet that loses messages.
ghost use Rattle.bench_cut.specs.Chosen.{what_of};
ghost use Rattle.bench_cut.specs.Cut as spec;
ghost use Rattle.bench_cut.specs.Parts.{chosen_among};
ghost use Rattle.bench_cut.specs.Short.{AreShort};
ghost use Rattle.byteorder.specs.Endian.{little_bytes};
ghost use Rattle.ch11_f1.specs.Views.{message_of};
ghost use Rattle.ch11_header.specs.HeaderReading.{body_start};
ghost use Rattle.ch11_layout.specs.Stamps.{kind_of};
ghost use Rattle.std.specs.Io.KnownBytes.{Appends};
ghost use Rattle.std.specs.Prelude.{◌≡◌, ◌+◌, ◌-◌, ◌<◌, ◌≤◌, ◌^◌, ◌++◌, length, OnOk};

use crate::choosing::Chosen;
use crate::heads::{BODY_HEAD, filler_for};
use bench_select::Selection;
use byteorder::{ByteOrder, LittleEndian};
use ch11_f1::{Messages, Seen};
use ch11_header::HEADER_SIZE;
use ch11_layout::{StampKind, View};
use ch11_reader::Packet;
use std::io::{self, Write};

/// Bytes of filler.
const FILLER: [u8; 3] = [0; 3];

/// The bytes of a message in front of its bus words. Condition: 16 bits count the bytes of these.
#[tactic(auto, unfolding(crate::specs::Cut::head_of))]
fn head_of(seen: &Seen<'_>) -> [u8; 14]
    requires { length seen.now.words.now < 2 ^ 16 }
    ensures { result ≡ spec.head_of (message_of seen.now) }
{
    let mut head = [0u8; 14];
    LittleEndian::write_u64(&mut head, seen.stamp);
    LittleEndian::write_u16(&mut head[8..], seen.block);
    LittleEndian::write_u16(&mut head[10..], seen.gaps);
    LittleEndian::write_u16(&mut head[12..], seen.words.len() as u16);
    head
}

/// Writes a message.
fn write_message<W: Write>(seen: &Seen<'_>, out: &mut W) -> io::Result<()>
    requires { length seen.now.words.now < 2 ^ 16 }
    ensures { OnOk result (Appends (W.contents out.old) (W.contents out.new)
        (spec.bytes_of_message (message_of seen.now))) }
{
    out.write_all(&head_of(seen))?;
    out.write_all(seen.words)?;
    Ok(())
}

/// Writes a message where it is chosen.
fn write_if<W: Write>(chosen: bool, seen: &Seen<'_>, out: &mut W) -> io::Result<()>
    requires { length seen.now.words.now < 2 ^ 16 }
    ensures { OnOk result (Appends (W.contents out.old) (W.contents out.new)
        (spec.bytes_if chosen (message_of seen.now))) }
{
    if chosen {
        write_message(seen, out)
    } else {
        Ok(())
    }
}

/// Writes the messages of a packet that are chosen.
fn write_chosen<W: Write>(
    selection: &Selection,
    packet: &Packet,
    messages: Messages<'_>,
    out: &mut W,
) -> io::Result<()>
    requires few { packet.now.before + length messages < 2 ^ 64 }
    requires short { AreShort messages }
    ensures { OnOk result (Appends (W.contents out.old) (W.contents out.new)
        (spec.bytes_of_messages (chosen_among selection.now (kind_of packet.now.header) packet.now.before
        packet.now.header.channel messages.entry))) }
{
    let channel = packet.header.channel;
    let kind = StampKind::of(&packet.header);
    let mut number = packet.before;
    let mut rest = messages;
    'messages: while let Some(seen) = rest.next() {
        number += 1;
        let chosen = selection.selects(number, channel, &View::of(kind, &seen));
        write_if(chosen, &seen, out)?;
    }
    Ok(())
}

/// The first word of a body that counts so many messages, with this upper byte.
fn word_of(count: u64, upper: u8) -> [u8; 4]
    requires { count < 2 ^ 24 }
    ensures { result ≡ little_bytes 3 count ++ spec.one upper }
{
    let mut word = [0u8; 4];
    LittleEndian::write_u24(&mut word, count as u32);
    word[3] = upper;
    word
}

/// Writes the secondary header of a packet, if it has one, and the first word of its body for so many messages, whose
/// upper byte stays.
fn write_front<W: Write>(packet: &Packet, bytes: &[u8], count: u64, out: &mut W) -> io::Result<()>
    requires few { count < 2 ^ 24 }
    requires body { body_start packet.now.header + 4 ≤ length bytes.now }
    ensures { OnOk result (Appends (W.contents out.old) (W.contents out.new)
        (spec.front_with packet.now.header bytes.now count)) }
{
    let start = packet.header.body_start();
    out.write_all(&bytes[HEADER_SIZE..start])?;
    out.write_all(&word_of(count, bytes[start + 3]))?;
    Ok(())
}

/// Writes so many bytes of filler, 0 to 3.
fn write_filler<W: Write>(count: u64, out: &mut W) -> io::Result<()>
    requires { count ≤ 3 }
    ensures { OnOk result (Appends (W.contents out.old) (W.contents out.new) (spec.filler count)) }
{
    out.write_all(&FILLER[..count as usize])?;
    Ok(())
}

/// Writes what stands behind the header of a packet that loses messages: its secondary header, its body with those that
/// are chosen, and filler.
pub(crate) fn write_body<W: Write>(
    selection: &Selection,
    packet: &Packet,
    bytes: &[u8],
    messages: Messages<'_>,
    chosen: Chosen,
    out: &mut W,
) -> io::Result<()>
    requires few { packet.now.before + length messages < 2 ^ 64 }
    requires short { AreShort messages }
    requires counted { chosen.count < 2 ^ 24 }
    requires small { chosen.size + 4 < 2 ^ 64 }
    requires body { body_start packet.now.header + 4 ≤ length bytes.now }
    requires what { chosen ≡ what_of (chosen_among selection.now (kind_of packet.now.header) packet.now.before
        packet.now.header.channel messages) }
    ensures { OnOk result (Appends (W.contents out.old) (W.contents out.new)
        (spec.body_with packet.now.header bytes.now (chosen_among selection.now (kind_of packet.now.header)
        packet.now.before packet.now.header.channel messages.entry))) }
{
    write_front(packet, bytes, chosen.count, out)?;
    write_chosen(selection, packet, messages, out)?;
    write_filler(filler_for(BODY_HEAD as u64 + chosen.size), out)
}
