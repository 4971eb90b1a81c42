//! The packet that a message stands in.
ghost use Rattle.ch11_reader.specs.declared.packet.Packet.{Packet};
ghost use Rattle.std.specs.Prelude.{◌≡◌, ◌+◌, ◌<◌, ◌≤◌, length, slice_get, Some};

use crate::packet::Packet;

/// The last packet with at most so many messages before it, by halving. Condition: the first is one.
pub(crate) fn packet_with(packets: &[Packet], before: u64) -> usize
    requires some { 0 < length packets.now }
    requires first { (e : Packet) → slice_get packets.now 0 ≡ Some e → e.before ≤ before }
    ensures within { result < length packets.now }
    ensures from { (e : Packet) → slice_get packets.now result ≡ Some e → e.before ≤ before }
    ensures last { (e : Packet) → slice_get packets.now (result + 1) ≡ Some e → before < e.before }
{
    let mut low = 0;
    let mut high = packets.len();
    'halving: while high - low > 1 {
        let middle = low + (high - low) / 2;
        if packets[middle].before <= before {
            low = middle;
        } else {
            high = middle;
        }
    }
    low
}
