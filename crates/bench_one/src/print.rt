//! Bytes as lines of upper-case pairs.

ghost use Rattle.bench_one.specs.Lines.{lines_of, behind};
ghost use Rattle.std.specs.Io.KnownBytes.{Appends};
ghost use Rattle.std.specs.Prelude.{◌≡◌, OnOk};

use numerals::digit_of;
use std::io;
use std::io::Write;

/// Writes the bytes as pairs of upper-case hexadecimal digits, sixteen a line with a space between (own choice). A
/// fault is the writer's.
pub fn print_bytes<W: Write>(out: &mut W, bytes: &[u8]) -> io::Result<()>
    ensures written { OnOk result (Appends (W.contents out.old) (W.contents out.new) (lines_of bytes.now)) }
{
    for (place, byte) in bytes.iter().enumerate() {
        let pair = [
            digit_of(*byte / 16),
            digit_of(*byte % 16),
            separator(place, bytes.len() - place),
        ];
        out.write_all(pair.as_slice())?;
    }
    Ok(())
}

/// What stands behind the byte at a place, where so many bytes are left with it.
fn separator(place: usize, left: usize) -> u8
    ensures { result ≡ behind place left }
{
    if left == 1 || place % 16 == 15 {
        b'\n'
    } else {
        b' '
    }
}
