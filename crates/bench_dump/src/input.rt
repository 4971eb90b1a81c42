//! A file read whole.
ghost use Rattle.bench_dump.specs.Reads.{IsReadBehind, IsReadFault, given};
ghost use Rattle.ch11_stream.specs.Feeding.{IsOther};
ghost use Rattle.std.specs.Io.KnownBytes.{IsAtEnd};
ghost use Rattle.std.specs.Prelude.{◌≡◌, ◌+◌, ◌*◌, ◌<◌, ◌≤◌, ◌++◌, length, [], false, Ok, IfOk, IfErr, IfSome, OnOk};

use ch11_stream::StreamFault;
use std::alloc::Global;
use std::io;
use std::io::{ErrorKind, Read};

/// How many bytes a read asks for at most.
const PIECE: usize = 65536;

/// How many reads there are at most.
const READS: u32 = 1_000_000;

/// Keeps what a read gave, and answers whether there may be more. Nothing is given by a read that was interrupted; one
/// that failed otherwise is a device's fault. Condition: the read gave no more than the piece has.
fn keep(read: io::Result<usize>, piece: &[u8], bytes: &mut Vec<u8>) -> Result<bool, StreamFault>
    requires { IfOk read (λ count. count ≤ length piece.now) }
    ensures kept { OnOk result (bytes.new.items ≡ bytes.old.items ++ given read piece.now) }
    ensures few { OnOk result (length bytes.new.items ≤ length bytes.old.items + length piece.now) }
    ensures ended { IfOk result (λ more. more ≡ false → read ≡ Ok 0) }
    ensures fault { IfErr result (IsReadFault read) }
    ensures failed { IfErr result IsOther }
{
    match read {
        Ok(0) => Ok(false),
        Ok(count) => {
            bytes.extend_from_slice(&piece[..count])?;
            Ok(true)
        }
        Err(e) if e.kind() == ErrorKind::Interrupted => Ok(true),
        Err(_) => Err(StreamFault::Device),
    }
}

/// One read: appends what it gave, and answers whether there may be more.
fn read_piece<R: Read>(
    input: &mut R,
    piece: &mut [u8],
    bytes: &mut Vec<u8>,
) -> Result<bool, StreamFault>
    requires { 0 < length piece.old }
    ensures read { IfOk result (IsReadBehind (R.remaining input.old)
        (R.remaining input.new) bytes.old.items bytes.new.items) }
    ensures few { OnOk result (length bytes.new.items ≤ length bytes.old.items + length piece.old) }
    ensures failed { IfErr result IsOther }
{
    let read = input.read(piece);
    keep(read, piece, bytes)
}

/// Reads a file to its end behind no bytes yet.
fn read_to_end<R: Read>(input: &mut R, mut bytes: Vec<u8>) -> Result<Vec<u8>, StreamFault>
    requires { bytes.items ≡ [] }
    ensures whole { IfOk result (λ bytes. IfSome (R.remaining input.old) (λ xs. bytes.items ≡ xs)) }
    ensures end { OnOk result (IsAtEnd (R.remaining input.new)) }
    ensures few { IfOk result (λ bytes. length bytes.items ≤ READS * PIECE) }
    ensures failed { IfErr result IsOther }
{
    let mut piece = [0u8; PIECE];
    'reads: for _made in 0..READS {
        if !read_piece(input, &mut piece, &mut bytes)? {
            return Ok(bytes);
        }
    }
    Err(StreamFault::Device)
}

/// Reads a file to its end, in at most 1,000,000 reads of up to 65,536 bytes: one more is a device fault, as an error
/// of the reader is. A read that was interrupted counts and is made again. Any other fault is want of memory.
pub fn read_all<R: Read>(alloc: Global, input: &mut R) -> Result<Vec<u8>, StreamFault>
    ensures whole { IfOk result (λ bytes. IfSome (R.remaining input.old) (λ xs. bytes.items ≡ xs)) }
    ensures end { OnOk result (IsAtEnd (R.remaining input.new)) }
    ensures few { IfOk result (λ bytes. length bytes.items ≤ READS * PIECE) }
    ensures failed { IfErr result IsOther }
{
    read_to_end(input, Vec::new(alloc))
}

/// The same for a file that is said to have so many bytes: room for all of them is asked for at once, before the first
/// is read, so that a file larger than memory is refused and not read into the last of it. The file may have more bytes
/// or fewer.
pub fn read_sized<R: Read>(alloc: Global, input: &mut R, size: u64) -> Result<Vec<u8>, StreamFault>
    ensures whole { IfOk result (λ bytes. IfSome (R.remaining input.old) (λ xs. bytes.items ≡ xs)) }
    ensures end { OnOk result (IsAtEnd (R.remaining input.new)) }
    ensures few { IfOk result (λ bytes. length bytes.items ≤ READS * PIECE) }
    ensures failed { IfErr result IsOther }
{
    let bytes = Vec::with_capacity(alloc, size as usize)?;
    read_to_end(input, bytes)
}
