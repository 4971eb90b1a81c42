//! A packet that was read, as proofs alone know it. It has no bytes.
ghost use Rattle.ch11_stream.specs.Listed.{found_at};
ghost use Rattle.std.specs.Prelude.{◌≡◌};

use crate::buffer::Buffer;
use ch11_header::Header;
use std::marker::Model;
use std::snapshot::Snapshot;

/// A packet that was read.
#[derive(Drop)]
pub(crate) struct FoundPacket {
    offset: usize,
    header: Header,
    buffer: Snapshot<Buffer>,
}

impl Model for FoundPacket {
    ghost use Rattle.ch11_reader.specs.Recording.{Found};
    ghost use Rattle.ch11_stream.specs.Listed.{found_at};

    ghost Value = { Found };

    ghost view = { λ p. found_at p.offset p.header p.buffer.value.ready };
}

/// The packet at an offset that begins the bytes that are ready.
pub(crate) fn found_in(offset: usize, header: Header, buffer: &Buffer) -> FoundPacket
    ensures { result ≡ found_at offset header buffer.now.ready }
{
    FoundPacket {
        offset,
        header,
        buffer: Snapshot::of(buffer),
    }
}
