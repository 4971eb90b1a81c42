//! Headers against the worked one of a packet of 52 bytes.
ghost use Rattle.std.specs.Prelude.{◌≡◌, ◌<◌};

use crate::tests::equal::same;
use ch11_header::{Header, HeaderError, read_header, write_header};

const WORKED: [u8; 24] = [
    0x25, 0xEB, 0x01, 0x00, 0x34, 0x00, 0x00, 0x00, 0x1C, 0x00, 0x00, 0x00, 0x06, 0x00, 0x00, 0x19,
    0x00, 0x00, 0x00, 0x00, 0x00, 0x00, 0x7C, 0x04,
];

fn worked() -> Header
    ensures { result.counter ≡ 0 }
{
    Header {
        channel: 1,
        packet_length: 52,
        data_length: 28,
        version: 6,
        sequence: 0,
        flags: 0,
        kind: 0x19,
        counter: 0,
    }
}

/// What is read of the worked header with two of its bytes made others.
fn changed(first: usize, byte: u8, second: usize, other: u8) -> Result<Header, HeaderError>
    requires first { first < 24 }
    requires second { second < 24 }
{
    let mut bytes = WORKED;
    bytes[first] = byte;
    bytes[second] = other;
    read_header(&bytes)
}

#[test]
fn writes_and_reads_the_worked_header(rt: HostRuntime) {
    let found = (read_header(&WORKED), worked().body_start());
    same(&rt, &found, &(Ok(worked()), 24));
    same(&rt, &write_header(&worked()), &WORKED);
}

#[test]
fn names_the_first_fault(rt: HostRuntime) {
    let found = [
        read_header(&WORKED[..20]),
        changed(0, 0x24, 1, 0xEB),
        changed(22, 0x7D, 0, 0x25),
        changed(4, 0x35, 22, 0x7D),
        changed(8, 0x1D, 22, 0x7D),
    ];
    let wanted = [
        Err(HeaderError::Short),
        Err(HeaderError::Sync),
        Err(HeaderError::Checksum),
        Err(HeaderError::PacketLength),
        Err(HeaderError::DataLength),
    ];
    same(&rt, &found, &wanted);
}
