//! The lines of skipped bytes.
ghost use Rattle.bench_dump.specs.Printing.{Carries};
ghost use Rattle.bench_dump.specs.SkippingText.{skip_line, skip_lines};
ghost use Rattle.ch11_reader.specs.Codes.{fault_code};
ghost use Rattle.ch11_stream.specs.Feeding.{IsOther};
ghost use Rattle.std.specs.Io.KnownBytes.{Appends};
ghost use Rattle.std.specs.Prelude.{◌≡◌, ◌++◌, OnOk, IfOk, IfErr};

use crate::lines::put_number;
use crate::output::hand_on;
use crate::text::Text;
use ch11_f1::BodyError;
use ch11_header::HeaderError;
use ch11_reader::{PacketFault, Skip};
use ch11_stream::StreamFault;
use std::alloc::AllocError;
use std::io::Write;

/// The letters of a fault.
fn letters(fault: &PacketFault) -> &'static [u8]
    ensures { result.now ≡ fault_code fault.now }
{
    match fault {
        PacketFault::Header(HeaderError::Short) => b"K1",
        PacketFault::Header(HeaderError::Sync) => b"K2",
        PacketFault::Header(HeaderError::Checksum) => b"K3",
        PacketFault::Header(HeaderError::PacketLength) => b"K4",
        PacketFault::Header(HeaderError::DataLength) => b"K5",
        PacketFault::End => b"N2",
        PacketFault::Body(BodyError::Short) => b"F1",
        PacketFault::Body(BodyError::Odd) => b"F2",
        PacketFault::Body(BodyError::End) => b"F3",
    }
}

/// Appends the line of a skip.
#[tactic(auto, unfolding(crate::specs::SkippingText::skip_line))]
fn put_skip_line(text: &mut Text, skip: &Skip) -> Result<(), AllocError>
    ensures { OnOk result (text.new ≡ text.old ++ skip_line skip.now) }
{
    put_number(text, b"skipped ", skip.offset as u64)?;
    put_number(text, b" length ", skip.length as u64)?;
    text.put(b" ")?;
    text.put(letters(&skip.fault))?;
    text.put(b"\n")?;
    Ok(())
}

/// Prints all these skips.
pub(crate) fn dump_skips<W: Write>(
    text: &mut Text,
    out: &mut W,
    skips: &[Skip],
) -> Result<(), StreamFault>
    ensures printed { OnOk result (Carries (W.contents out.old) text.old (W.contents out.new) text.new
        (skip_lines skips.now)) }
    ensures failed { IfErr result IsOther }
{
    let mut rest = skips;
    'skips: while let Some((skip, others)) = rest.split_first() {
        put_skip_line(text, skip)?;
        hand_on(text, out)?;
        rest = others;
    }
    Ok(())
}
