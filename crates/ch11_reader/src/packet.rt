//! One packet of a recording.
ghost use Rattle.ch11_f1.specs.Views.{message_of};
ghost use Rattle.ch11_header.specs.HeaderReading.{body_start};
ghost use Rattle.ch11_reader.specs.Recording.{packet_messages, packet_at};
ghost use Rattle.std.specs.Prelude.{◌≡◌, ◌+◌, ◌≤◌, length, drop, IfOk, MatchResult, Ok, Err, option_map, slice_get};

use crate::error::PacketFault;
use ch11_f1::body::messages;
use ch11_f1::{Messages, Seen};
use ch11_header::kinds::BUS_MESSAGES;
use ch11_header::{Header, read_header};

/// What an index tells of a packet.
#[derive(Clone, Copy, Debug, PartialEq, Eq)]
pub struct Packet {
    /// Where it begins, in bytes from the start of the file.
    pub offset: usize,

    /// Its header: channel, data type, flags and, as the counter, the first stamp.
    pub header: Header,

    /// How many messages stand before it in the file, of any channel.
    pub before: u64,

    /// How many messages it holds; none where it is of another data type than 19 (hexadecimal).
    pub count: u64,

    /// Whether its sequence number isn't one more, modulo 256, than that of the channel's packet before
    /// it in the file. False for a channel's first packet.
    pub sequence_jump: bool,
}

/// A packet that was checked.
#[derive(Clone, Copy)]
pub struct Checked {
    /// Its header.
    pub header: Header,

    /// How many messages it holds; none where it is of another data type than 19 (hexadecimal).
    pub count: u64,
}

/// The packet that begins the bytes, or its first fault: K1 to K5 of its header, N2 where the bytes end before it does,
/// F1 to F3 of its body.
#[tactic(auto, unfolding(crate::specs::Recording::packet_at))]
pub fn check_packet(bytes: &[u8]) -> Result<Checked, PacketFault>
    ensures read { MatchResult result (λ c. packet_at bytes.now ≡ Ok c.header) (λ f. packet_at bytes.now ≡ Err f) }
    ensures count { IfOk result (λ c. c.count ≡ length (packet_messages c.header bytes.now)) }
    ensures few { IfOk result (λ c. c.count ≤ c.header.packet_length) }
    ensures whole { IfOk result (λ c. (24 ≤ c.header.packet_length) × (c.header.packet_length ≤ length bytes.now)
        × (body_start c.header + c.header.data_length ≤ c.header.packet_length)) }
{
    let header = match read_header(bytes) {
        Ok(header) => header,
        Err(fault) => return Err(PacketFault::Header(fault)),
    };
    if bytes.len() < header.packet_length as usize {
        return Err(PacketFault::End);
    }
    if header.kind != BUS_MESSAGES {
        return Ok(Checked { header, count: 0 });
    }
    let (_, behind_head) = bytes.split_at(header.body_start());
    let (body, _) = behind_head.split_at(header.data_length as usize);
    match messages(body) {
        Ok(found) => {
            let count = found.left();
            Ok(Checked { header, count })
        }
        Err(fault) => Err(PacketFault::Body(fault)),
    }
}

/// The messages of the packet with this header that begins the bytes; it holds none where it is of another data type.
/// Condition: its body lies in the bytes.
pub fn messages_of_packet<'a>(bytes: &'a [u8], header: &Header) -> Messages<'a>
    requires { body_start header.now + header.now.data_length ≤ length bytes.now }
    ensures { result ≡ packet_messages header.now bytes.now }
{
    let Header {
        kind,
        data_length,
        ..
    } = *header;
    if kind != BUS_MESSAGES {
        return Messages::none();
    }
    let (_, behind_head) = bytes.split_at(header.body_start());
    let (body, _) = behind_head.split_at(data_length as usize);
    match messages(body) {
        Ok(found) => found,
        Err(_) => Messages::none(),
    }
}

/// The messages of a packet of the file; it holds none where it is of another data type.
pub(crate) fn messages_in_packet<'a>(file: &'a [u8], packet: &Packet) -> Messages<'a>
    requires { packet.now.offset + (body_start packet.now.header + packet.now.header.data_length) ≤ length file.now }
    ensures { result ≡ packet_messages packet.now.header (drop packet.now.offset file.now) }
{
    let (_, behind) = file.split_at(packet.offset);
    messages_of_packet(behind, &packet.header)
}

/// Message k of a packet of the file, counted from 0, None where it holds no such message.
pub(crate) fn message_in_packet<'a>(file: &'a [u8], packet: &Packet, k: u64) -> Option<Seen<'a>>
    requires { packet.now.offset + (body_start packet.now.header + packet.now.header.data_length) ≤ length file.now }
    ensures { option_map message_of result
        ≡ slice_get (packet_messages packet.now.header (drop packet.now.offset file.now)) k }
{
    let mut messages = messages_in_packet(file, packet);
    messages.nth(k as usize)
}
