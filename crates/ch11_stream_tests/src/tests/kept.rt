//! The bytes that are kept of packets.

use crate::tests::equal::{are_bytes, same};
use crate::tests::streams::reader_of;
use ch11_stream::Packets;
use test_values::FOREIGN;

/// A time packet of channel 0 at counter 1000: 2024-12-31T23:59:58.
const TIME: [u8; 36] = [
    0x25, 0xEB, 0x00, 0x00, 0x24, 0x00, 0x00, 0x00, 0x0C, 0x00, 0x00, 0x00, 0x06, 0x00, 0x00, 0x11,
    0xE8, 0x03, 0x00, 0x00, 0x00, 0x00, 0x43, 0x00, 0x30, 0x03, 0x00, 0x00, 0x00, 0x58, 0x59, 0x23,
    0x31, 0x12, 0x24, 0x20,
];

/// A setup record, a packet of messages, a time packet and one more of messages.
fn timed() -> [u8; 196] {
    let mut file = [0u8; 196];
    file[..96].copy_from_slice(&FOREIGN);
    file[96..132].copy_from_slice(&TIME);
    file[132..].copy_from_slice(&FOREIGN[32..]);
    file
}

/// The bytes of packets of messages and of time packets are kept, one after the other; those of a setup record are not,
/// and none are behind the end.
#[test]
fn bytes_are_those_of_the_last_packet(rt: HostRuntime) {
    let file = timed();
    let input = reader_of(&file, 1);
    let mut packets = Packets::over(rt.alloc(), input).ok().expect(&rt, "memory");
    are_bytes(&rt, packets.bytes(), &[]);
    for (begin, end) in [(0, 0), (32, 96), (96, 132), (132, 196), (196, 196)] {
        same(&rt, &packets.next().is_ok(), &true);
        let own = file.get(begin..end).expect(&rt, "a packet");
        are_bytes(&rt, packets.bytes(), own);
    }
}
