//! The messages of a recording in the order of their stamps.
ghost use Rattle.bench_decode.specs.ByTime.{told_of};
ghost use Rattle.bench_decode.specs.Printed.{AreDecodedByTime, AreSorted, IsBehind};
ghost use Rattle.bench_decode.specs.RecordingText.{chosen_in, messages_text};
ghost use Rattle.bench_decode.specs.Waiting.{IsPut};
ghost use Rattle.bench_dump.specs.SkippingText.{skip_lines};
ghost use Rattle.ch11_reader.specs.Recording.{packets_in};
ghost use Rattle.ch11_reader.specs.Skipping.{packets_read, skips_in};
ghost use Rattle.ch11_reader.specs.declared.error.ReadError.TheVariants.{Memory};
ghost use Rattle.ch11_stream.specs.Feeding.{IsOther, fault_of_reading};
ghost use Rattle.ch11_stream.specs.Folding.{FoldsPackets, IsFaultOf};
ghost use Rattle.std.specs.Prelude.{◌≡◌, ◌<◌, ◌^◌, [], length, map, true, false, Ok, IfErr, IfOk, OnOk};

use crate::chosen::{Chosen, messages_by_time};
use crate::line::TextLine;
use crate::printing::{Output, Printing, put_message, put_skip};
use ch11_layout::View;
use ch11_reader::{Index, ReadError, Skip, SkippingIndex};
use ch11_stream::StreamFault;
use std::alloc::Global;
use std::io;
use std::io::Write;

/// Prints the selected messages of a recording, a line each, in the order of their stamps, all channels together, and
/// those of one stamp in the file's order; answers how many there were. In front of the first, where they are decoded,
/// stands a line with the names of the columns. A recording that can't be read is refused with its first fault, and
/// nothing is printed; but with `skip` it is read as far as it is sound, and a line for each skip stands in front of
/// all others.
pub fn decode_by_time<W: Write>(
    alloc: Global,
    bytes: &[u8],
    out: &mut W,
    output: &Output,
) -> Result<u64, StreamFault>
    ensures decoded { output.now.skip ≡ false
        → FoldsPackets (AreDecodedByTime output.now (W.contents out.old) (W.contents out.new) []) result bytes.now }
    ensures sound { output.now.skip ≡ true
        → IfOk result (AreDecodedByTime output.now (W.contents out.old) (W.contents out.new)
        (skips_in bytes.now) (packets_read bytes.now)) }
    ensures failed { output.now.skip ≡ true → IfErr result IsOther }
{
    let found = read_index(alloc, bytes, output.skip)?;
    let mut printing = Printing::begin(alloc, output)?;
    put_skips(alloc, &mut printing.line, out, found.skipped())?;
    put_by_time(alloc, &mut printing, out, output, &found.index)?;
    printing.line.finish(out)?;
    Ok(printing.count)
}

/// The packets of a recording, which with `skip` may be damaged; without it nothing is skipped.
fn read_index<'a>(
    alloc: Global,
    bytes: &'a [u8],
    skip: bool,
) -> Result<SkippingIndex<'a>, ReadError>
    ensures whole { skip ≡ false → IfOk result (λ found.
        (packets_in bytes.now ≡ Ok found.index) × (found.skips.items ≡ [])) }
    ensures fault { skip ≡ false → IfErr result (λ e. IsFaultOf bytes.now (fault_of_reading e)) }
    ensures sound { skip ≡ true → IfOk result (λ found.
        (found.index ≡ packets_read bytes.now) × (found.skips.items ≡ skips_in bytes.now)) }
    ensures memory { skip ≡ true → IfErr result (λ e. e ≡ Memory) }
{
    if skip {
        Index::build_skipping(alloc, bytes)
    } else {
        read_whole(alloc, bytes)
    }
}

/// The packets of a recording that is not damaged.
fn read_whole<'a>(alloc: Global, bytes: &'a [u8]) -> Result<SkippingIndex<'a>, ReadError>
    ensures whole { IfOk result (λ found. (packets_in bytes.now ≡ Ok found.index) × (found.skips.items ≡ [])) }
    ensures fault { IfErr result (λ e. IsFaultOf bytes.now (fault_of_reading e)) }
{
    match Index::build(alloc, bytes) {
        Ok(index) => Ok(SkippingIndex {
            index,
            skips: Vec::new(alloc),
        }),
        Err(fault) => Err(fault),
    }
}

/// Prints skips.
fn put_skips<W: Write>(
    alloc: Global,
    line: &mut TextLine,
    out: &mut W,
    skips: &[Skip],
) -> Result<(), StreamFault>
    ensures put { OnOk result (IsPut (W.contents out.old) line.old (W.contents out.new) line.new
        (skip_lines skips.now)) }
    ensures failed { IfErr result IsOther }
{
    let mut rest = skips;
    'skips: while let Some((skip, others)) = rest.split_first() {
        put_skip(alloc, line, out, skip)?;
        rest = others;
    }
    Ok(())
}

/// Prints the selected messages of a recording in the order of their stamps; no message was printed before.
fn put_by_time<W: Write>(
    alloc: Global,
    printing: &mut Printing,
    out: &mut W,
    output: &Output,
    index: &Index<'_>,
) -> Result<(), StreamFault>
    ensures put { IsBehind output.now [] printing.old
        → OnOk result (AreSorted output.now (chosen_in output.now index.now)
        (W.contents out.old) printing.old (W.contents out.new) printing.new) }
    ensures failed { IfErr result IsOther }
{
    let messages = messages_by_time(alloc, index, &output.selection)?;
    put_sorted(printing, out, output, messages.as_slice())?;
    Ok(())
}

/// Prints messages in their order; no message was printed before.
fn put_sorted<W: Write>(
    printing: &mut Printing,
    out: &mut W,
    output: &Output,
    messages: &[Chosen<'_>],
) -> io::Result<()>
    requires { length messages.now < 2 ^ 64 }
    ensures { IsBehind output.now [] printing.old
        → OnOk result (IsPut (W.contents out.old) printing.old.line (W.contents out.new) printing.new.line
        (messages_text output.now (map told_of messages.now)) × (printing.new.count ≡ length messages.now)) }
{
    for one in messages {
        let view = View::of(one.kind, &one.seen);
        put_message(printing, out, output, &one.place, &view)?;
    }
    Ok(())
}
