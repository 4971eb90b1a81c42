//! The setup record in front of a file (IRIG 106-17 Chapter 11, computer generated data packets, Format 1).
ghost use Rattle.bench_complete.specs.Complete.{front_of};
ghost use Rattle.bench_complete.specs.Judging.{is_setup};
ghost use Rattle.bench_complete.specs.Pieces.{bytes_of};
ghost use Rattle.bench_complete.specs.SetupRecord.{filler_for, setup_header, setup_piece};
ghost use Rattle.std.specs.Io.KnownBytes.{Appends};
ghost use Rattle.std.specs.Prelude.{◌≡◌, ◌<◌, ◌≤◌, ◌^◌, length, option_map, true, OnOk, IfErr};

use crate::fault::CompleteFault;
use ch11_header::kinds::SETUP_RECORD;
use ch11_header::{Header, write_header};
use std::io::Write;

/// The word in front of the text, as a setup record of IRIG 106 Chapter 9 (TMATS) has it.
const SETUP_WORD: [u8; 4] = [0x0C, 0, 0, 0];

/// Bytes of filler.
const FILLER: [u8; 3] = [0; 3];

/// How many bytes of filler bring a length to a multiple of four.
fn filler_for(size: usize) -> usize
    ensures answer { result ≡ filler_for size }
    ensures few { result ≤ 3 }
{
    (4 - size % 4) % 4
}

/// The header of a setup record whose text has so many bytes.
fn header_of(version: u8, counter: u64, size: usize) -> Header
    requires { size ≤ 524000 }
    ensures { result ≡ setup_header version counter size }
{
    let data_length = size + 4;
    Header {
        channel: 0,
        packet_length: (24 + data_length + filler_for(data_length)) as u32,
        data_length: data_length as u32,
        version,
        sequence: 0,
        flags: 0,
        kind: SETUP_RECORD,
        counter,
    }
}

/// Writes the setup record of a text.
pub(crate) fn write_setup<W: Write>(
    version: u8,
    counter: u64,
    text: &[u8],
    out: &mut W,
) -> Result<(), CompleteFault>
    requires size { length text.now ≤ 524000 }
    requires counter { counter < 2 ^ 48 }
    ensures written { OnOk result (Appends (W.contents out.old) (W.contents out.new)
        (setup_piece version counter text.now).bytes) }
    ensures stopped { IfErr result (λ f. f ≡ CompleteFault.Device) }
{
    let filler = filler_for(text.len() + 4);
    out.write_all(&write_header(&header_of(version, counter, text.len())))?;
    out.write_all(&SETUP_WORD)?;
    out.write_all(text)?;
    out.write_all(&FILLER[..filler])?;
    Ok(())
}

/// Writes the setup record of a text, where there is one.
pub(crate) fn write_front<W: Write>(
    version: u8,
    counter: u64,
    text: Option<&[u8]>,
    out: &mut W,
) -> Result<(), CompleteFault>
    requires size { is_setup (option_map (λ text. text.now) text) ≡ true }
    requires counter { counter < 2 ^ 48 }
    ensures written { OnOk result (Appends (W.contents out.old) (W.contents out.new)
        (bytes_of (front_of (option_map (λ text. text.now) text.entry) version counter))) }
    ensures stopped { IfErr result (λ f. f ≡ CompleteFault.Device) }
{
    match text {
        None => Ok(()),
        Some(text) => write_setup(version, counter, text, out),
    }
}
