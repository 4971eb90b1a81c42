//! The header of a packet, written and read (IRIG 106-17 Chapter 11, packet header).
ghost use Rattle.ch11_header.specs.Flags.{has_overflow};
ghost use Rattle.ch11_header.specs.HeaderBytes.{header_bytes, header_sum};
ghost use Rattle.ch11_header.specs.HeaderReading.{body_start, header_in, with_lawful_lengths};
ghost use Rattle.std.specs.Prelude.{◌≡◌, ◌+◌, ◌<◌, ◌≤◌, ◌^◌, length, IfOk};

use crate::error::HeaderError;
use byteorder::{ByteOrder, LittleEndian};

/// The sync pattern that begins a packet, the bytes 25 EB as a number.
pub(crate) const SYNC: u16 = 0xEB25;

/// How many bytes a header has.
pub const HEADER_SIZE: usize = 24;

/// The packet flag 'overflow', bit 4 (11.2.1.1): a message is missing.
pub const OVERFLOW: u8 = 0x10;

/// What the header of a packet says.
#[derive(Clone, Copy, Debug, PartialEq, Eq)]
pub struct Header {
    /// The channel that the packet belongs to.
    pub channel: u16,

    /// How many bytes the packet has in all: header, secondary header, body and filler.
    pub packet_length: u32,

    /// How many bytes the body has, without filler.
    pub data_length: u32,

    /// The data type version.
    pub version: u8,

    /// The place of the packet in its channel, modulo 256.
    pub sequence: u8,

    /// The packet flags: 7 secondary header, 6 time source, 4 overflow, 1..0 kind of data checksum.
    pub flags: u8,

    /// The data type: 19 (hexadecimal) for MIL-STD-1553 messages, Format 1.
    pub kind: u8,

    /// The relative time counter, 48 bits: the stamp of the first message.
    pub counter: u64,
}

/// The 16-bit sum of the first eleven words.
#[tactic(auto, unfolding(crate::specs::HeaderBytes::header_sum, crate::specs::HeaderBytes::word_sum))]
fn sum_of_words(bytes: &[u8]) -> u16
    requires { 22 ≤ length bytes.now }
    ensures { result ≡ header_sum bytes.now }
{
    let mut sum: u32 = 0;
    for word in 0..11usize {
        sum += LittleEndian::read_u16(&bytes[2 * word..]) as u32;
    }
    (sum % 65536) as u16
}

impl Header {
    /// Where the body begins in the packet: byte 36 behind a secondary header, else byte 24.
    pub fn body_start(&self) -> usize
        ensures { result ≡ body_start self.now }
    {
        if self.flags >= 128 { 36 } else { 24 }
    }

    /// Whether the overflow flag is set: a message is missing.
    pub fn has_overflow(&self) -> bool
        ensures { result ≡ has_overflow self.now }
    {
        self.flags & OVERFLOW != 0
    }

    /// The header itself where its lengths are lawful.
    #[tactic(auto, unfolding(crate::specs::HeaderReading::with_lawful_lengths))]
    fn with_lawful_lengths(self) -> Result<Header, HeaderError>
        ensures answer { result ≡ with_lawful_lengths self }
        ensures lengths { IfOk result (λ h. (24 ≤ h.packet_length) × (body_start h + h.data_length ≤ h.packet_length)) }
    {
        if self.packet_length < 24 || self.packet_length % 4 != 0 {
            return Err(HeaderError::PacketLength);
        }
        let end = self.body_start() as u64 + self.data_length as u64;
        if (self.packet_length as u64) < end {
            return Err(HeaderError::DataLength);
        }
        Ok(self)
    }
}

/// Reads the header at the front of the bytes; what follows it doesn't matter. The first of K1 to K5
/// that holds is the refusal.
#[tactic(auto, unfolding(crate::specs::HeaderReading::header_in, crate::specs::HeaderReading::fields_of))]
pub fn read_header(bytes: &[u8]) -> Result<Header, HeaderError>
    ensures answer { result ≡ header_in bytes.now }
    ensures lengths { IfOk result (λ h. (24 ≤ h.packet_length) × (body_start h + h.data_length ≤ h.packet_length)) }
{
    if bytes.len() < HEADER_SIZE {
        return Err(HeaderError::Short);
    }
    if LittleEndian::read_u16(bytes) != SYNC {
        return Err(HeaderError::Sync);
    }
    if LittleEndian::read_u16(&bytes[22..]) != sum_of_words(bytes) {
        return Err(HeaderError::Checksum);
    }
    let header = Header {
        channel: LittleEndian::read_u16(&bytes[2..]),
        packet_length: LittleEndian::read_u32(&bytes[4..]),
        data_length: LittleEndian::read_u32(&bytes[8..]),
        version: bytes[12],
        sequence: bytes[13],
        flags: bytes[14],
        kind: bytes[15],
        counter: LittleEndian::read_u48(&bytes[16..]),
    };
    header.with_lawful_lengths()
}

/// The bytes of a header, its checksum computed. Condition: the counter has 48 bits.
#[tactic(auto, unfolding(crate::specs::HeaderBytes::header_bytes, crate::specs::HeaderBytes::summed_bytes))]
pub fn write_header(header: &Header) -> [u8; 24]
    requires { header.now.counter < 2 ^ 48 }
    ensures { result ≡ header_bytes header.now }
{
    let mut bytes = [0u8; 24];
    LittleEndian::write_u16(&mut bytes, SYNC);
    LittleEndian::write_u16(&mut bytes[2..], header.channel);
    LittleEndian::write_u32(&mut bytes[4..], header.packet_length);
    LittleEndian::write_u32(&mut bytes[8..], header.data_length);
    bytes[12] = header.version;
    bytes[13] = header.sequence;
    bytes[14] = header.flags;
    bytes[15] = header.kind;
    LittleEndian::write_u48(&mut bytes[16..], header.counter);
    let sum = sum_of_words(&bytes);
    LittleEndian::write_u16(&mut bytes[22..], sum);
    bytes
}
