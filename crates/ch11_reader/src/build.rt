//! One pass over the bytes of a recording.
ghost use Rattle.ch11_reader.specs.Listing.{jumps};
ghost use Rattle.ch11_reader.specs.Recording.{ReadsRecording, packets_in};
ghost use Rattle.ch11_reader.specs.declared.error.ReadError.TheVariants.{Refused};
ghost use Rattle.ch11_reader.specs.declared.error.Refusal.{Refusal};
ghost use Rattle.std.specs.Prelude.{Some, Ok, Err};
ghost use Rattle.std.specs.Prelude.{◌≡◌, length, replicate, vec_len, slice_index_or, slice_set, IfOk, IfErr, None};

use crate::error::{ReadError, Refusal};
use crate::index::Index;
use crate::packet::{Checked, Packet, check_packet};
use std::alloc::{AllocError, Global};

/// How many channels there can be.
pub const CHANNELS: usize = 65536;

/// A channel's latest sequence number, for each channel: none yet.
pub fn no_sequences(alloc: Global) -> Result<Vec<Option<u8>>, AllocError>
    ensures items { IfOk result (λ v. v.items ≡ replicate CHANNELS None) }
    ensures len { IfOk result (λ v. vec_len v ≡ CHANNELS) }
{
    let latest = vec![in alloc; None; CHANNELS]?;
    Ok(latest)
}

/// Whether a packet breaks its channel's sequence. Its number becomes the channel's latest.
fn note_sequence(latest: &mut [Option<u8>], channel: u16, sequence: u8) -> bool
    requires { length latest.old ≡ CHANNELS }
    ensures answer { result ≡ jumps (slice_index_or latest.old channel None) sequence }
    ensures noted { latest.new ≡ slice_set latest.old channel (Some sequence) }
{
    let place = channel as usize;
    let jump = match latest[place] {
        None => false,
        Some(before) => sequence != before.wrapping_add(1),
    };
    latest[place] = Some(sequence);
    jump
}

/// What an index tells of a packet that stands at an offset, with so many messages before it in the file. Its number
/// becomes its channel's latest. Condition: there is a place for each channel.
pub fn list_packet(
    latest: &mut [Option<u8>],
    offset: usize,
    before: u64,
    checked: Checked,
) -> Packet
    requires { length latest.old ≡ CHANNELS }
    ensures packet { result ≡ record {
      offset = offset;
      header = checked.header;
      before = before;
      count = checked.count;
      sequence_jump = jumps (slice_index_or latest.old checked.header.channel None) checked.header.sequence;
    } }
    ensures noted { latest.new ≡ slice_set latest.old checked.header.channel (Some checked.header.sequence) }
{
    let header = checked.header;
    let sequence_jump = note_sequence(latest, header.channel, header.sequence);
    Packet {
        offset,
        header,
        before,
        count: checked.count,
        sequence_jump,
    }
}

/// The index of a recording, or its first fault. Memory may be answered before a fault is found.
pub(crate) fn read_packets<'a>(alloc: Global, file: &'a [u8]) -> Result<Index<'a>, ReadError>
    ensures ok { IfOk result (λ found. packets_in file.now ≡ Ok found) }
    ensures refused { IfErr result (λ e. (r : Refusal) → e ≡ Refused r → packets_in file.now ≡ Err r) }
{
    let mut latest = no_sequences(alloc)?;
    let mut packets = Vec::new(alloc);
    let mut before = 0u64;
    let mut rest = file;
    while !rest.is_empty() {
        let offset = file.len() - rest.len();
        let checked = match check_packet(rest) {
            Ok(checked) => checked,
            Err(fault) => return Err(ReadError::Refused(Refusal { offset, fault })),
        };
        let packet = list_packet(&mut latest, offset, before, checked);
        packets.push(packet)?;
        before += checked.count;
        let (_, after) = rest.split_at(checked.header.packet_length as usize);
        rest = after;
    }
    Ok(Index {
        file,
        packets,
        total: before,
    })
}

/// The first fault of a recording, or want of memory where it has none.
pub(crate) fn fault_or_memory(file: &[u8]) -> ReadError
    ensures { ReadsRecording (Err result) (packets_in file.now) }
{
    let mut rest = file;
    while !rest.is_empty() {
        let offset = file.len() - rest.len();
        match check_packet(rest) {
            Ok(checked) => {
                let (_, after) = rest.split_at(checked.header.packet_length as usize);
                rest = after;
            }
            Err(fault) => return ReadError::Refused(Refusal { offset, fault }),
        }
    }
    ReadError::Memory
}
