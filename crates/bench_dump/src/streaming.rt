//! The lines of a recording in one pass over its packets.
ghost use Rattle.bench_dump.specs.Streaming.{Dumps, DumpsBy};
ghost use Rattle.std.specs.Prelude.{◌≡◌, ℕ, List, Some};

use crate::output::dump_packet;
use crate::text::Text;
use bench_clock::Clock;
use ch11_stream::{Advance, Packets, StreamFault};
use std::alloc::Global;
use std::io::Write;

/// Prints a recording as its packets come from a reader, without times of day, in memory for the largest packet of
/// messages or of time. A recording that can't be read is refused with its first fault, and then the writer may have
/// got lines of packets in front of it.
pub(crate) fn print_packets<R: Advance + Drop, W: Write>(
    alloc: Global,
    input: R,
    out: &mut W,
) -> Result<(), StreamFault>
    ensures { (file : List ℕ) → R.remaining input ≡ Some file
        → Dumps result file (W.contents out.old) (W.contents out.new) }
{
    let clock = Clock::unset(alloc);
    print_packets_by(alloc, input, &clock, false, out)
}

/// The same with the time of day behind each stamp, where it is one or the clock tells one, if they are asked for.
pub(crate) fn print_packets_by<R: Advance + Drop, W: Write>(
    alloc: Global,
    input: R,
    clock: &Clock,
    timed: bool,
    out: &mut W,
) -> Result<(), StreamFault>
    ensures { (file : List ℕ) → R.remaining input ≡ Some file
        → DumpsBy clock.now timed result file (W.contents out.old) (W.contents out.new) }
{
    let mut packets = Packets::over(alloc, input)?;
    let mut text = Text::new(alloc);
    'packets: for _made in 0..u64::MAX {
        match packets.next() {
            Ok(Some(packet)) => dump_packet(
                &mut text,
                out,
                &packet,
                clock,
                timed,
                packets.messages(),
            )?,
            Ok(None) => {
                text.finish(out)?;
                return Ok(());
            }
            Err(fault) => return Err(fault),
        }
    }
    Err(StreamFault::Device)
}
