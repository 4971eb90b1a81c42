//! The packet that begins the bytes to come.
ghost use Rattle.ch11_stream.specs.Holding.{is_kept};
ghost use Rattle.ch11_stream.specs.Taking.{Heads, IsNextHeader, Nexts, TakesPacket};
ghost use Rattle.std.specs.Io.KnownBytes.{prepend_known};
ghost use Rattle.std.specs.Prelude.{◌≡◌, ◌+◌, ◌<◌, ◌^◌, false, true, OnOk, IfErr};

use crate::advance::Advance;
use crate::buffer::Buffer;
use crate::fault::StreamFault;
use crate::feed::{fill, pass};
use ch11_header::kinds::{BUS_MESSAGES, TIME_DATA};
use ch11_header::{HEADER_SIZE, Header, read_header};
use ch11_reader::{Checked, PacketFault, Refusal, check_packet};
use std::io::Read;

/// A fault of the packet at an offset.
fn refused(offset: usize, fault: PacketFault) -> StreamFault
    ensures { result ≡ StreamFault.Refused (record { offset = offset; fault = fault }) }
{
    StreamFault::Refused(Refusal { offset, fault })
}

/// Looks at the header that begins the bytes to come, which stand at an offset; none at the reader's end.
pub(crate) fn next_header<R: Read>(
    buffer: &mut Buffer,
    input: &mut R,
    offset: usize,
) -> Result<Option<Header>, StreamFault>
    ensures { Heads result offset (prepend_known buffer.old.ready (R.remaining input.old))
        (prepend_known buffer.new.ready (R.remaining input.new)) }
{
    fill(buffer, input, HEADER_SIZE)?;
    let ready = buffer.ready();
    if ready.is_empty() {
        return Ok(None);
    }
    match read_header(ready) {
        Ok(header) => Ok(Some(header)),
        Err(fault) => Err(refused(offset, PacketFault::Header(fault))),
    }
}

/// Whether the bytes of a packet are kept until the next one is read: those of one of messages, and of a time packet.
pub(crate) fn is_kept_by(header: &Header) -> bool
    ensures { result ≡ is_kept header.now }
{
    header.kind == BUS_MESSAGES || header.kind == TIME_DATA
}

/// Passes the packet with this header, which is neither of messages nor a time packet.
fn take_other<R: Advance>(
    buffer: &mut Buffer,
    input: &mut R,
    offset: usize,
    header: Header,
) -> Result<Checked, StreamFault>
    requires kind { is_kept header ≡ false }
    requires next { IsNextHeader (prepend_known buffer.old.ready (R.remaining input.old)) header }
    ensures { TakesPacket result offset (prepend_known buffer.old.ready (R.remaining input.old))
        (R.remaining input.new) buffer.new.ready }
{
    if !pass(buffer, input, header.packet_length as usize)? {
        return Err(refused(offset, PacketFault::End));
    }
    Ok(Checked { header, count: 0 })
}

/// Makes the packet with this header ready, which is of messages or a time packet.
fn take_kept<R: Read>(
    buffer: &mut Buffer,
    input: &mut R,
    offset: usize,
    header: Header,
) -> Result<Checked, StreamFault>
    requires kind { is_kept header ≡ true }
    requires next { IsNextHeader (prepend_known buffer.old.ready (R.remaining input.old)) header }
    ensures { TakesPacket result offset (prepend_known buffer.old.ready (R.remaining input.old))
        (R.remaining input.new) buffer.new.ready }
{
    if !fill(buffer, input, header.packet_length as usize)? {
        return Err(refused(offset, PacketFault::End));
    }
    match check_packet(buffer.ready()) {
        Ok(checked) => Ok(checked),
        Err(fault) => Err(refused(offset, fault)),
    }
}

/// Takes the packet with this header, which begins the bytes to come.
pub(crate) fn take_packet<R: Advance>(
    buffer: &mut Buffer,
    input: &mut R,
    offset: usize,
    header: Header,
) -> Result<Checked, StreamFault>
    requires { IsNextHeader (prepend_known buffer.old.ready (R.remaining input.old)) header }
    ensures { TakesPacket result offset (prepend_known buffer.old.ready (R.remaining input.old))
        (R.remaining input.new) buffer.new.ready }
{
    if is_kept_by(&header) {
        take_kept(buffer, input, offset, header)
    } else {
        take_other(buffer, input, offset, header)
    }
}

/// A fault of the reader, where so many bytes at an offset end behind byte 2^64 - 2.
pub(crate) fn check_end(offset: usize, length: usize) -> Result<(), StreamFault>
    ensures within { OnOk result (offset + length < 2 ^ 64) }
    ensures device { IfErr result (λ e. e ≡ StreamFault.Device) }
{
    match offset.checked_add(length) {
        Some(_) => Ok(()),
        None => Err(StreamFault::Device),
    }
}

/// Takes the packet that begins the bytes to come, which stand at an offset. None at the reader's end.
pub(crate) fn take_next<R: Advance>(
    buffer: &mut Buffer,
    input: &mut R,
    offset: usize,
) -> Result<Option<Checked>, StreamFault>
    ensures { Nexts result offset (prepend_known buffer.old.ready (R.remaining input.old))
        (R.remaining input.new) buffer.new.ready }
{
    let Some(header) = next_header(buffer, input, offset)? else {
        return Ok(None);
    };
    let checked = take_packet(buffer, input, offset, header)?;
    check_end(offset, checked.header.packet_length as usize)?;
    Ok(Some(checked))
}
