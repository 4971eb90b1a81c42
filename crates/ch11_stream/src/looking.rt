//! What begins the bytes to come, where that may be no packet.
ghost use Rattle.ch11_header.specs.HeaderReading.{header_in};
ghost use Rattle.ch11_reader.specs.Skipping.{bytes_before};
ghost use Rattle.ch11_stream.specs.Feeding.{IsOther};
ghost use Rattle.ch11_stream.specs.Looking.{Begins, IsPast, BeginsSound, IsSkipped};
ghost use Rattle.std.specs.Io.KnownBytes.{Keeps, prepend_known};
ghost use Rattle.std.specs.Prelude.{◌≡◌, ◌+◌, ◌<◌, ◌≤◌, List, ℕ, ◌++◌, length, drop, false, Ok, IfOk, IfErr, OnOk};

use crate::buffer::Buffer;
use crate::fault::StreamFault;
use crate::feed::fill;
use ch11_header::{HEADER_SIZE, Header, read_header};
use ch11_reader::{Checked, PacketFault, check_packet};
use std::io::Read;

/// What begins the bytes to come.
#[derive(Clone, Copy)]
pub(crate) enum Coming {
    /// Nothing: the reader is at its end.
    End,

    /// A packet without a fault, all bytes of which are ready.
    Sound(Checked),

    /// No such packet; that is its first fault.
    Faulty(PacketFault),
}

/// Judges the packet with this header, of which all bytes are made ready, whatever it holds.
fn judge_whole<R: Read>(
    buffer: &mut Buffer,
    input: &mut R,
    header: Header,
) -> Result<Coming, StreamFault>
    requires { header_in buffer.old.ready ≡ Ok header }
    ensures begins { IfOk result (λ coming. Begins coming (prepend_known buffer.old.ready (R.remaining input.old))
        (prepend_known buffer.new.ready (R.remaining input.new)) buffer.new.ready) }
    ensures kept { OnOk result (Keeps (prepend_known buffer.old.ready (R.remaining input.old))
        (prepend_known buffer.new.ready (R.remaining input.new))) }
    ensures failed { IfErr result IsOther }
{
    if !fill(buffer, input, header.packet_length as usize)? {
        return Ok(Coming::Faulty(PacketFault::End));
    }
    match check_packet(buffer.ready()) {
        Ok(checked) => Ok(Coming::Sound(checked)),
        Err(fault) => Ok(Coming::Faulty(fault)),
    }
}

/// Looks at what begins the bytes to come. All bytes of a packet are made ready, as many as its header says, so that
/// none is lost where it turns out to be no packet.
pub(crate) fn look<R: Read>(buffer: &mut Buffer, input: &mut R) -> Result<Coming, StreamFault>
    ensures begins { IfOk result (λ coming. Begins coming (prepend_known buffer.old.ready (R.remaining input.old))
        (prepend_known buffer.new.ready (R.remaining input.new)) buffer.new.ready) }
    ensures kept { OnOk result (Keeps (prepend_known buffer.old.ready (R.remaining input.old))
        (prepend_known buffer.new.ready (R.remaining input.new))) }
    ensures failed { IfErr result IsOther }
{
    fill(buffer, input, HEADER_SIZE)?;
    if buffer.len() == 0 {
        return Ok(Coming::End);
    }
    match read_header(buffer.ready()) {
        Ok(header) => judge_whole(buffer, input, header),
        Err(fault) => Ok(Coming::Faulty(PacketFault::Header(fault))),
    }
}

/// How many of these bytes, from the first on, begin no sync pattern, as the bytes behind them show.
fn bytes_without_sync(bytes: &[u8]) -> usize
    ensures within { result ≤ length bytes.now }
    ensures skipped { (others : List ℕ)
        → bytes_before (bytes.now ++ others) ≡ result + bytes_before (drop result bytes.now ++ others) }
{
    let mut count = 0;
    'bytes: while count + 1 < bytes.len() {
        if bytes[count] == 0x25 && bytes[count + 1] == 0xEB {
            break;
        }
        count += 1;
    }
    count
}

/// How many bytes were passed, and whether there may be more to pass.
#[derive(Clone, Copy)]
struct Gone {
    count: usize,
    more: bool,
}

/// Passes some of the bytes at which no packet without a fault begins.
fn pass_some<R: Read>(buffer: &mut Buffer, input: &mut R) -> Result<Gone, StreamFault>
    ensures passed { IfOk result (λ gone. IsPast gone.count (prepend_known buffer.old.ready (R.remaining input.old))
        (prepend_known buffer.new.ready (R.remaining input.new))) }
    ensures settled { IfOk result (λ gone. gone.more ≡ false
        → BeginsSound (prepend_known buffer.new.ready (R.remaining input.new))) }
    ensures failed { IfErr result IsOther }
{
    let quiet = bytes_without_sync(buffer.ready());
    buffer.pass(quiet);
    match look(buffer, input)? {
        Coming::Faulty(_) => {
            buffer.pass(1);
            Ok(Gone {
                count: quiet + 1,
                more: true,
            })
        }
        _ => Ok(Gone {
            count: quiet,
            more: false,
        }),
    }
}

/// Passes all bytes in front of the next packet without a fault, and answers how many they were. A reader that gives
/// 2^64 bytes is at fault.
fn pass_faulty<R: Read>(buffer: &mut Buffer, input: &mut R) -> Result<usize, StreamFault>
    ensures passed { IfOk result (λ count. IsPast count (prepend_known buffer.old.ready (R.remaining input.old))
        (prepend_known buffer.new.ready (R.remaining input.new))) }
    ensures settled { OnOk result (BeginsSound (prepend_known buffer.new.ready (R.remaining input.new))) }
    ensures failed { IfErr result IsOther }
{
    let mut passed = 0usize;
    'passes: for _made in 0..u64::MAX {
        let gone = pass_some(buffer, input)?;
        passed = match passed.checked_add(gone.count) {
            Some(sum) => sum,
            None => return Err(StreamFault::Device),
        };
        if !gone.more {
            return Ok(passed);
        }
    }
    Err(StreamFault::Device)
}

/// Passes the first byte, at which no packet without a fault begins, and all others in front of the next such packet.
pub(crate) fn pass_skip<R: Read>(buffer: &mut Buffer, input: &mut R) -> Result<usize, StreamFault>
    requires { 0 < length buffer.old.ready }
    ensures some { IfOk result (λ count. 0 < count) }
    ensures passed { IfOk result (λ count. IsSkipped count (prepend_known buffer.old.ready (R.remaining input.old))
        (prepend_known buffer.new.ready (R.remaining input.new))) }
    ensures failed { IfErr result IsOther }
{
    buffer.pass(1);
    let others = pass_faulty(buffer, input)?;
    match others.checked_add(1) {
        Some(count) => Ok(count),
        None => Err(StreamFault::Device),
    }
}
