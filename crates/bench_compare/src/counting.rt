//! How many messages of each channel are chosen.
ghost use Rattle.bench_compare.specs.Chosen.{chosen_among};
ghost use Rattle.bench_compare.specs.Counting.{AreCounts};
ghost use Rattle.ch11_layout.specs.Stamps.{kind_of};
ghost use Rattle.ch11_stream.specs.Folding.{FoldsPackets};
ghost use Rattle.std.specs.Prelude.{◌≡◌, ◌+◌, ◌<◌, ◌^◌, ℕ, List, Some, length};
ghost use Rattle.std.specs.Prelude.{slice_index, slice_set, vec_len, IfOk};

use bench_select::{CHANNELS, Selection};
use ch11_f1::Messages;
use ch11_layout::{StampKind, View};
use ch11_reader::Packet;
use ch11_stream::{Advance, Packets, StreamFault};
use std::alloc::Global;

/// How many of the messages of a packet are chosen, numbered as in the file.
fn count_chosen(selection: &Selection, packet: &Packet, messages: Messages<'_>) -> u64
    requires { packet.now.before + length messages < 2 ^ 64 }
    ensures { result ≡ length (chosen_among selection.now (kind_of packet.now.header) packet.now.before
        packet.now.header.channel messages.entry) }
{
    let channel = packet.header.channel;
    let kind = StampKind::of(&packet.header);
    let mut number = packet.before;
    let mut count = 0u64;
    let mut rest = messages;
    'messages: while let Some(seen) = rest.next() {
        number += 1;
        let chosen = selection.selects(number, channel, &View::of(kind, &seen));
        count += u64::from(chosen);
    }
    count
}

/// Adds to the count of a channel; it stays at 2^64 - 1 where it would be more.
fn add(counts: &mut [u64], channel: u16, count: u64)
    requires { length counts.old ≡ CHANNELS }
    ensures within { channel < CHANNELS }
    ensures sum { slice_index counts.old channel + count < 2 ^ 64
        → counts.new ≡ slice_set counts.old channel (slice_index counts.old channel + count) }
{
    let place = usize::from(channel);
    counts[place] = counts[place].saturating_add(count);
}

/// How many messages of each channel are chosen, of all bytes that a reader has left, in one pass over their packets. A
/// recording that can't be read is refused with its first fault, K1 to K5, N2 or F1 to F3; want of memory and the
/// reader's failure are the others.
pub(crate) fn count_channels<R: Advance + Drop>(
    alloc: Global,
    input: R,
    selection: &Selection,
) -> Result<Vec<u64>, StreamFault>
    ensures len { IfOk result (λ counts. vec_len counts ≡ CHANNELS) }
    ensures counts { (file : List ℕ) → R.remaining input ≡ Some file
        → FoldsPackets (λ ps counts. AreCounts selection.now ps counts.items) result file }
{
    let mut packets = Packets::over(alloc, input)?;
    let mut counts = vec![in alloc; 0u64; CHANNELS]?;
    'packets: for _made in 0..u64::MAX {
        match packets.next() {
            Ok(Some(packet)) => {
                let count = count_chosen(selection, &packet, packets.messages());
                add(counts.as_mut_slice(), packet.header.channel, count);
            }
            Ok(None) => return Ok(counts),
            Err(fault) => return Err(fault),
        }
    }
    Err(StreamFault::Device)
}
