//! The header with which a packet goes over.
ghost use Rattle.bench_complete.specs.SetupRecord as setup;
ghost use Rattle.bench_cut.specs.Chosen.{what_of};
ghost use Rattle.bench_cut.specs.Cut as spec;
ghost use Rattle.bench_cut.specs.Heads.{header_for};
ghost use Rattle.ch11_f1.specs.BodyReading.{Message};
ghost use Rattle.ch11_header.specs.HeaderReading.{body_start};
ghost use Rattle.ch11_layout.specs.Stamps.{kind_of};
ghost use Rattle.std.specs.Prelude.{◌≡◌, ◌+◌, ◌≤◌, List};

use crate::choosing::Chosen;
use crate::losses::ChannelLoss;
use ch11_header::{Header, OVERFLOW};
use ch11_layout::StampKind;

/// How many bytes stand in front of the messages of a body.
pub(crate) const BODY_HEAD: usize = 4;

/// How many bytes of filler bring a length to a multiple of four.
pub(crate) fn filler_for(size: u64) -> u64
    ensures { result ≡ setup.filler_for size }
{
    (4 - size % 4) % 4
}

/// The counter of a packet that has these messages left: 48 bits of the stamp of the first, or its own where stamps
/// are times of day.
fn counter_with(header: &Header, first: u64) -> u64
    ensures { (ms : List Message) → first ≡ spec.first_stamp ms
        → result ≡ spec.counter_by (kind_of header.now) header.now.counter ms }
{
    match StampKind::of(header) {
        StampKind::TimeOfDay => header.counter,
        StampKind::Counter | StampKind::Unknown => first % 0x1_0000_0000_0000,
    }
}

/// The header of a packet that has these messages left, without a data checksum. Condition: they take at least 14 bytes
/// less than its body has.
pub(crate) fn header_with(header: &Header, chosen: Chosen) -> Header
    requires fewer { chosen.size + 18 ≤ header.now.data_length }
    requires room { body_start header.now + header.now.data_length ≤ header.now.packet_length }
    ensures { (ms : List Message) → chosen ≡ what_of ms → result ≡ spec.header_with header.now ms }
{
    let data_length = BODY_HEAD as u64 + chosen.size;
    let packet_length = header.body_start() as u64 + data_length + filler_for(data_length);
    Header {
        channel: header.channel,
        packet_length: packet_length as u32,
        data_length: data_length as u32,
        version: header.version,
        sequence: header.sequence,
        flags: header.flags - header.flags % 4,
        kind: header.kind,
        counter: counter_with(header, chosen.first),
    }
}

/// Flags, with that of overflow where it is owed.
fn flags_with(owed: bool, flags: u8) -> u8
    ensures { result ≡ spec.flags_with owed flags }
{
    if owed { flags | OVERFLOW } else { flags }
}

/// The header with the sequence number and the overflow flag that its channel's packets in front of it ask for.
pub(crate) fn header_behind(header: &Header, loss: ChannelLoss) -> Header
    ensures { result ≡ header_for loss header.now }
{
    Header {
        channel: header.channel,
        packet_length: header.packet_length,
        data_length: header.data_length,
        version: header.version,
        sequence: loss.number(header.sequence),
        flags: flags_with(loss.owed, header.flags),
        kind: header.kind,
        counter: header.counter,
    }
}
