//! Why bytes are no packet header.
use std::fmt::{self, Display, Formatter, Write};

/// Why bytes are no header, the first reason in this order.
#[derive(Clone, Copy, Debug, PartialEq, Eq)]
pub enum HeaderError {
    /// K1: there are fewer than 24 bytes.
    Short,

    /// K2: the bytes don't begin with the sync pattern, 25 EB.
    Sync,

    /// K3: the last two bytes aren't the 16-bit sum of the eleven words before them.
    Checksum,

    /// K4: the packet length is under 24 or no multiple of four.
    PacketLength,

    /// K5: header, secondary header and body are longer than the packet.
    DataLength,
}

impl Display for HeaderError {
    ghost use Rattle.ch11_header.specs.Codes.{fault_code};
    ghost use Rattle.std.specs.Prelude.{Some};

    ghost output = { λ e. Some (fault_code e) };

    fn fmt<W: Write>(&self, f: &mut Formatter<W>) -> fmt::Result {
        f.write_str(match self {
            HeaderError::Short => "K1",
            HeaderError::Sync => "K2",
            HeaderError::Checksum => "K3",
            HeaderError::PacketLength => "K4",
            HeaderError::DataLength => "K5",
        })
    }
}
