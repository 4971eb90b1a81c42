//! A dump of whatever is sound in a recording that a reader gives.
ghost use Rattle.bench_dump.specs.Printing.{Carries};
ghost use Rattle.bench_dump.specs.SkippingText.{file_text};
ghost use Rattle.bench_dump.specs.StretchText.{IsFew, stretch_lines};
ghost use Rattle.bench_clock.specs.Clock.{marks_in};
ghost use Rattle.bench_dump.specs.TimedText.{text_by, timed_text};
ghost use Rattle.ch11_reader.specs.Listing.{listing};
ghost use Rattle.ch11_reader.specs.Skipping.{packets_read, skips_in};
ghost use Rattle.ch11_stream.specs.Feeding.{IsOther};
ghost use Rattle.std.specs.Io.KnownBytes.{Appends};
ghost use Rattle.std.specs.Prelude.{◌≡◌, ℕ, List, [], Some, true, false, OnOk, IfErr};

use crate::output::dump_packet;
use crate::skips::dump_skips;
use crate::text::Text;
use bench_clock::Clock;
use ch11_stream::{StreamFault, Stretch, Stretches};
use std::alloc::Global;
use std::io::{Read, Write};

/// The lines of the stretch that was read last.
fn dump_stretch<R: Read, W: Write>(
    text: &mut Text,
    out: &mut W,
    stretches: &Stretches<R>,
    stretch: &Stretch,
    clock: &Clock,
    timed: bool,
) -> Result<(), StreamFault>
    requires { IsFew stretch.now stretches.now.given }
    ensures printed { OnOk result (Carries (W.contents out.old) text.old (W.contents out.new) text.new
        (stretch_lines clock.now timed stretch.now stretches.now.given)) }
    ensures failed { IfErr result IsOther }
{
    match stretch {
        Stretch::Sound(packet) => dump_packet(
            text,
            out,
            packet,
            clock,
            timed,
            stretches.messages(),
        ),
        Stretch::Skipped(skip) => dump_skips(text, out, &[*skip]),
    }
}

/// Prints whatever is sound in a recording, as it comes from a reader, in memory for the largest packet: the lines of
/// its packets and messages as in any dump, and a line for each skip among the others in the order of their offsets;
/// where times of day are asked for with that behind each stamp that is one or for which the clock tells one. Nothing
/// is refused: a fault is want of memory, or a failure of the reader or the writer. The clock of what is sound is made
/// by `read_sound_clock`, in a pass before this one.
pub fn dump_skipping<R: Read + Drop, W: Write>(
    alloc: Global,
    input: R,
    clock: &Clock,
    timed: bool,
    out: &mut W,
) -> Result<(), StreamFault>
    ensures printed { (file : List ℕ) → R.remaining input ≡ Some file
        → OnOk result (Appends (W.contents out.old) (W.contents out.new)
        (timed_text clock.now timed (skips_in file) (packets_read file))) }
    ensures timed { (file : List ℕ) → R.remaining input ≡ Some file
        → clock.now ≡ marks_in file (listing (packets_read file)) → timed ≡ true
        → OnOk result (Appends (W.contents out.old) (W.contents out.new) (text_by true true file)) }
    ensures plain { clock.now ≡ [] → timed ≡ false → (file : List ℕ) → R.remaining input ≡ Some file
        → OnOk result (Appends (W.contents out.old) (W.contents out.new) (file_text true file)) }
    ensures failed { IfErr result IsOther }
{
    let mut stretches = Stretches::over(alloc, input)?;
    let mut text = Text::new(alloc);
    'stretches: for _made in 0..u64::MAX {
        match stretches.next() {
            Ok(Some(stretch)) => dump_stretch(&mut text, out, &stretches, &stretch, clock, timed)?,
            Ok(None) => {
                text.finish(out)?;
                return Ok(());
            }
            Err(fault) => return Err(fault),
        }
    }
    Err(StreamFault::Device)
}
