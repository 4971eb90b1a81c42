//! For each packet of a recording the next one of its channel.
ghost use Rattle.bench_complete.specs.Lanes.{AreLinked};
ghost use Rattle.bench_complete.specs.Pieces.{goes_over};
ghost use Rattle.std.specs.Prelude.{◌≡◌, ◌<◌, vec_len, slice_index, slice_set, if◌then◌else◌, IfOk};

use crate::placed::Placed;
use ch11_header::kinds::RECORDING_INDEX;
use std::alloc::{AllocError, Global};

/// How many channels there can be.
pub(crate) const CHANNELS: usize = 65536;

/// Places of packets; the number of packets stands for none.
#[derive(Drop)]
pub(crate) struct Links {
    /// Where each channel's first packet stands.
    pub(crate) first: Vec<usize>,
    /// For each packet, where the next one of its channel stands.
    pub(crate) next: Vec<usize>,
}

/// Links a packet in front of those of its channel that stand behind it, unless it is left out.
fn link_packet(packet: &Placed, place: usize, first: &mut Vec<usize>, next: &mut Vec<usize>)
    requires channels { vec_len first.old ≡ 65536 }
    requires place { place < vec_len next.old }
    ensures channel { packet.now.header.channel < 65536 }
    ensures first { first.new.items
        ≡ (if goes_over packet.now.header then slice_set first.old.items packet.now.header.channel place
        else first.old.items) }
    ensures next { next.new.items ≡
        (if goes_over packet.now.header
        then slice_set next.old.items place (slice_index first.old.items packet.now.header.channel)
        else next.old.items) }
{
    let channel = packet.header.channel as usize;
    if packet.header.kind != RECORDING_INDEX {
        next[place] = first[channel];
        first[channel] = place;
    }
}

/// The links of packets. A packet that is left out is linked to nothing.
pub(crate) fn link(alloc: Global, packets: &[Placed]) -> Result<Links, AllocError>
    ensures { IfOk result (λ l. AreLinked packets.now 0 l.first.items l.next.items) }
{
    let none = packets.len();
    let mut first = vec![in alloc; none; CHANNELS]?;
    let mut next = vec![in alloc; none; none]?;
    let mut place = none;
    'packets: while place > 0 {
        place -= 1;
        link_packet(&packets[place], place, &mut first, &mut next);
    }
    Ok(Links { first, next })
}
