//! The messages of a recording whose packets come from a reader.
ghost use Rattle.bench_decode.specs.Printed.{AreDecoded, AreDecodedSound, HasPrinted, IsBehind};
ghost use Rattle.bench_dump.specs.StretchText.{IsFew};
ghost use Rattle.bench_select.specs.Viewed.{Viewed};
ghost use Rattle.ch11_reader.specs.Skipping.{stretches_in};
ghost use Rattle.ch11_stream.specs.Feeding.{IsOther};
ghost use Rattle.ch11_stream.specs.Folding.{FoldsPackets};
ghost use Rattle.std.specs.Prelude.{◌≡◌, ℕ, List, Some, true, false, IfErr, IfOk, OnOk};

use crate::printing::{Output, Printing, put_messages, put_skip};
use ch11_stream::{Advance, Packets, StreamFault, Stretch, Stretches};
use std::alloc::Global;
use std::io::{Read, Write};

/// Prints the selected messages of all bytes that a reader has left, as their packets come, a line each in the file's
/// order, in memory for the largest packet of messages or of time; answers how many there were. In front of the first,
/// where they are decoded, stands a line with the names of the columns. A recording that can't be read is refused with
/// its first fault, and then the writer may have got lines of messages in front of it; with `skip` none is refused, a
/// line for each skip stands among the others in the order of their offsets, and there is memory for the largest packet
/// of any type.
pub fn decode<R: Advance + Drop, W: Write>(
    alloc: Global,
    input: R,
    out: &mut W,
    output: &Output,
) -> Result<u64, StreamFault>
    ensures decoded { output.now.skip ≡ false → (file : List ℕ) → R.remaining input ≡ Some file
        → FoldsPackets (AreDecoded output.now (W.contents out.old) (W.contents out.new)) result file }
    ensures sound { output.now.skip ≡ true → (file : List ℕ) → R.remaining input ≡ Some file
        → IfOk result (AreDecodedSound output.now (W.contents out.old) (W.contents out.new) (stretches_in file)) }
    ensures failed { output.now.skip ≡ true → IfErr result IsOther }
{
    if output.skip {
        decode_sound(alloc, input, out, output)
    } else {
        decode_packets(alloc, input, out, output)
    }
}

/// Prints a recording that is not damaged.
fn decode_packets<R: Advance + Drop, W: Write>(
    alloc: Global,
    input: R,
    out: &mut W,
    output: &Output,
) -> Result<u64, StreamFault>
    ensures { (file : List ℕ) → R.remaining input ≡ Some file
        → FoldsPackets (AreDecoded output.now (W.contents out.old) (W.contents out.new)) result file }
{
    let mut packets = Packets::over(alloc, input)?;
    let mut printing = Printing::begin(alloc, output)?;
    'packets: for _made in 0..u64::MAX {
        match packets.next() {
            Ok(Some(packet)) => {
                put_messages(&mut printing, out, output, &packet, packets.messages())?
            }
            Ok(None) => {
                printing.line.finish(out)?;
                return Ok(printing.count);
            }
            Err(fault) => return Err(fault),
        }
    }
    Err(StreamFault::Device)
}

/// Prints a recording that may be damaged as far as it is sound, and what is skipped.
fn decode_sound<R: Read + Drop, W: Write>(
    alloc: Global,
    input: R,
    out: &mut W,
    output: &Output,
) -> Result<u64, StreamFault>
    ensures sound { (file : List ℕ) → R.remaining input ≡ Some file
        → IfOk result (AreDecodedSound output.now (W.contents out.old) (W.contents out.new) (stretches_in file)) }
    ensures failed { IfErr result IsOther }
{
    let mut stretches = Stretches::over(alloc, input)?;
    let mut printing = Printing::begin(alloc, output)?;
    'stretches: for _made in 0..u64::MAX {
        match stretches.next() {
            Ok(Some(stretch)) => {
                put_stretch(alloc, &mut printing, out, output, &stretches, &stretch)?
            }
            Ok(None) => {
                printing.line.finish(out)?;
                return Ok(printing.count);
            }
            Err(fault) => return Err(fault),
        }
    }
    Err(StreamFault::Device)
}

/// Prints the stretch that was read last.
fn put_stretch<R: Read, W: Write>(
    alloc: Global,
    printing: &mut Printing,
    out: &mut W,
    output: &Output,
    stretches: &Stretches<R>,
    stretch: &Stretch,
) -> Result<(), StreamFault>
    requires { IsFew stretch.now stretches.now.given }
    ensures put { (history : List Viewed) → IsBehind output.now history printing.old
        → OnOk result (HasPrinted output.now history stretch.now stretches.now.given
        (W.contents out.old) printing.old (W.contents out.new) printing.new) }
    ensures failed { IfErr result IsOther }
{
    match stretch {
        Stretch::Sound(packet) => {
            put_messages(printing, out, output, packet, stretches.messages())?;
            Ok(())
        }
        Stretch::Skipped(skip) => put_skip(alloc, &mut printing.line, out, skip),
    }
}
