//! The dump of a recording in two passes: the first says whether it can be read, and only then the second prints it.
ghost use Rattle.bench_clock.specs.Clock.{is_unread_of, marks_of};
ghost use Rattle.bench_clock.specs.declared.clock.Mark.{Mark};
ghost use Rattle.bench_dump.specs.Streaming.{Dumps, DumpsBy};
ghost use Rattle.bench_dump.specs.Passes.{RefusesFirstPass};
ghost use Rattle.ch11_reader.specs.Indexed.{found_in};
ghost use Rattle.ch11_reader.specs.Listing.{listing};
ghost use Rattle.ch11_reader.specs.Recording.{packets_in};
ghost use Rattle.std.specs.Prelude.{◌≡◌, ℕ, List, Option, Some, Ok, IfOk, true};

use crate::streaming::{print_packets, print_packets_by};
use bench_clock::read_clock;
use ch11_check::check;
use ch11_stream::{Advance, StreamFault};
use std::alloc::Global;
use std::io::Write;

/// Prints a recording that two readers give, one after the other, in memory for the largest packet of messages or of
/// time: a line for each packet, and behind it a line for each of its messages, numbered from 1 over the file. The
/// bytes of the first are only checked: where they can't be read, the first fault is the answer, and nothing is
/// printed. The text is that of the bytes of the second, which may be others where the file changed in between: then
/// the writer may have got lines of packets in front of a fault of these.
pub fn dump<R: Advance + Drop, S: Advance + Drop, W: Write>(
    alloc: Global,
    first: R,
    second: S,
    out: &mut W,
) -> Result<(), StreamFault>
    ensures refused { RefusesFirstPass (R.remaining first) out.old out.new result }
    ensures dumped { (file other : List ℕ) → R.remaining first ≡ Some file → S.remaining second ≡ Some other
        → packets_in file ≡ Ok (found_in file) → Dumps result other (W.contents out.old) (W.contents out.new) }
{
    match check(alloc, first) {
        Ok(()) => print_packets(alloc, second, out),
        Err(fault) => Err(fault),
    }
}

/// What was printed, and whether the recording has time packets of which none can be read.
fn telling(printed: Result<(), StreamFault>, unread: bool) -> Result<bool, StreamFault>
    ensures dumped { (clock : List Mark) (file : List ℕ) (got gets : Option (List ℕ))
        → DumpsBy clock true printed file got gets → DumpsBy clock true result file got gets }
    ensures unread { IfOk result (λ told. told ≡ unread) }
{
    match printed {
        Ok(()) => Ok(unread),
        Err(fault) => Err(fault),
    }
}

/// The same with the time of day behind each stamp, where it is one or the recording's time packets tell one, where a
/// channel is named those of that channel alone. The first reader's bytes tell the time, in the pass that checks them:
/// 24 bytes are kept for each time packet that counts. The answer is whether they have such packets of which none can
/// be read, so that no time of day is told. Without a time packet that counts and a stamp that is a time of day it is
/// the text of `dump`.
pub fn dump_with_times<R: Advance + Drop, S: Advance + Drop, W: Write>(
    alloc: Global,
    first: R,
    second: S,
    named: Option<u16>,
    out: &mut W,
) -> Result<bool, StreamFault>
    ensures refused { RefusesFirstPass (R.remaining first) out.old out.new result }
    ensures unread { (file : List ℕ) → R.remaining first ≡ Some file
        → IfOk result (λ told. told ≡ is_unread_of named file (listing (found_in file))) }
    ensures dumped { (file other : List ℕ) → R.remaining first ≡ Some file → S.remaining second ≡ Some other
        → packets_in file ≡ Ok (found_in file)
        → DumpsBy (marks_of named file (listing (found_in file))) true result other (W.contents out.old)
        (W.contents out.new) }
{
    match read_clock(alloc, first, named) {
        Ok(read) => {
            let printed = print_packets_by(alloc, second, &read.clock, true, out);
            telling(printed, read.unread)
        }
        Err(fault) => Err(fault),
    }
}
