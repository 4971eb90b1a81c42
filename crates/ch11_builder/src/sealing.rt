//! Records and headers in a buffer.
ghost use Rattle.byteorder.specs.Endian.{little_bytes};
ghost use Rattle.ch11_builder.specs.Packet.{padded, filled};
ghost use Rattle.ch11_f1.specs.BodyBytes.{words_of, record_bytes};
ghost use Rattle.ch11_header.specs.HeaderBytes.{header_bytes};
ghost use Rattle.std.specs.Prelude.{◌≡◌, ◌++◌, ◌+◌, ◌*◌, ◌≤◌, ◌<◌, ◌^◌, length, take, drop};

use byteorder::{ByteOrder, LittleEndian};
use ch11_f1::{Record, put_record};
use ch11_header::{HEADER_SIZE, Header, write_header};

/// Where the messages begin in a packet: behind the header and the channel-specific data word.
pub(crate) const FIRST_MESSAGE: usize = 28;

/// Time tag 01, the first bit of the first word, in bits 31 and 30 of the channel-specific data word.
const TIME_TAG: u32 = 0x4000_0000;

/// The next multiple of four.
pub(crate) fn padded(size: usize) -> usize
    requires { size < 2 ^ 32 }
    ensures { result ≡ padded size }
{
    (size + 3) / 4 * 4
}

/// Puts a record behind the bytes that are used, and says how many are used then.
pub(crate) fn put_behind(buffer: &mut [u8], used: usize, message: &Record) -> usize
    requires room { used + (14 + 2 * length (words_of message.now)) ≤ length buffer.old }
    requires stamp { message.now.stamp < 2 ^ 48 }
    ensures size { result ≡ used + (14 + 2 * length (words_of message.now)) }
    ensures bytes { take result buffer.new ≡ take used buffer.old ++ record_bytes message.now }
{
    used + put_record(message, &mut buffer[used..])
}

/// Makes a packet of the bytes that are used, of which the first 28 are room for the header and the channel-specific
/// data word, and says how long it is with its filler.
pub(crate) fn seal(buffer: &mut [u8], used: usize, header: &Header, count: u32) -> usize
    requires room { padded used ≤ length buffer.old }
    requires head { 28 ≤ used }
    requires small { used < 2 ^ 32 }
    requires count { count < 2 ^ 24 }
    requires counter { header.now.counter < 2 ^ 48 }
    ensures size { result ≡ padded used }
    ensures bytes { take result buffer.new
        ≡ filled (header_bytes header.now ++ (little_bytes 4 (2 ^ 30 + count) ++ drop 28 (take used buffer.old))) }
{
    let end = padded(used);
    buffer[..HEADER_SIZE].copy_from_slice(&write_header(header));
    LittleEndian::write_u32(&mut buffer[HEADER_SIZE..], TIME_TAG + count);
    buffer[used..end].copy_from_slice(&[0u8; 3][..end - used]);
    end
}
