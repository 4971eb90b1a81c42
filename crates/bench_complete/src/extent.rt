//! From when to when a recording lasts.
ghost use Rattle.bench_complete.specs.Complete.{widened, extent_of};
ghost use Rattle.bench_complete.specs.Pieces.{kept_entries};
ghost use Rattle.std.specs.Prelude.{◌≡◌, ℕ, ◌+◌, ◌-◌, ◌/◌, List};

use crate::placed::Placed;
use crate::times::SECOND;
use ch11_header::kinds::RECORDING_INDEX;

/// The lowest and the highest counter, in ticks of 0.1 µs.
#[derive(Clone, Copy, Debug)]
pub(crate) struct Extent {
    pub(crate) low: u64,
    pub(crate) high: u64,
}

impl Extent {
    /// How many whole seconds there are, from the last one at or before the lowest counter to the last one at or before
    /// the highest.
    pub(crate) fn seconds(&self) -> u64
        ensures { result ≡ self.now.high / 10000000 - self.now.low / 10000000 + 1 }
    {
        (self.high / SECOND).saturating_sub(self.low / SECOND) + 1
    }
}

/// The extent with one more counter.
fn widened(extent: Option<Extent>, counter: u64) -> Option<Extent>
    ensures { result ≡ widened extent counter }
{
    match extent {
        None => Some(Extent {
            low: counter,
            high: counter,
        }),
        Some(found) => Some(Extent {
            low: found.low.min(counter),
            high: found.high.max(counter),
        }),
    }
}

/// The extent of the packets that go over; None where there is none.
pub(crate) fn extent_of(packets: &[Placed]) -> Option<Extent>
    ensures { (file : List ℕ) → result ≡ extent_of (kept_entries file packets.now) }
{
    let mut extent = None;
    'packets: for packet in packets {
        if packet.header.kind != RECORDING_INDEX {
            extent = widened(extent, packet.header.counter);
        }
    }
    extent
}
