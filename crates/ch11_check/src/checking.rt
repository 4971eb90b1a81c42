//! A pass over a recording that keeps nothing of it.
ghost use Rattle.ch11_stream.specs.Folding.{FoldsPackets};
ghost use Rattle.std.specs.Prelude.{◌≡◌, ℕ, List, Some};

use ch11_stream::{Advance, Packets, StreamFault};
use std::alloc::Global;

/// Reads a recording to its end, in memory for the largest packet of messages or of time. It is refused with its first
/// fault, K1 to K5, N2 or F1 to F3, with the packet's offset; want of memory and the reader's failure are the others.
/// Otherwise each packet of it can be read.
pub fn check<R: Advance + Drop>(alloc: Global, input: R) -> Result<(), StreamFault>
    ensures { (file : List ℕ) → R.remaining input ≡ Some file → FoldsPackets (λ ps none. Unit {0}) result file }
{
    let mut packets = Packets::over(alloc, input)?;
    'packets: for _made in 0..u64::MAX {
        match packets.next() {
            Ok(Some(_)) => {}
            Ok(None) => return Ok(()),
            Err(fault) => return Err(fault),
        }
    }
    Err(StreamFault::Device)
}
