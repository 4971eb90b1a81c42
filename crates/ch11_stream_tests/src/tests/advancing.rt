//! Readers that pass long packets of other data types unread.

use crate::tests::equal::same;
use crate::tests::streams::{Slow, gives, is_read_alike, reader_of, seeking};
use ch11_header::{Header, write_header};
use ch11_stream::{Advance, Packets, StreamFault};
use std::alloc::{AllocError, Global};
use std::cell::Cell;
use std::io::{self, Read};
use std::process::Abort;
use test_values::FOREIGN;

/// How many bytes the packets have that are passed.
const LONG: usize = 1_000_000;

/// The foreign file, a packet of PCM data (0x09) of so many bytes, and the foreign file again.
fn with_long_packet(alloc: Global, size: u32) -> Result<Vec<u8>, AllocError> {
    let header = Header {
        channel: 9,
        packet_length: size,
        data_length: size.saturating_sub(24),
        version: 6,
        sequence: 0,
        flags: 0,
        kind: 0x09,
        counter: 0,
    };
    let mut file = Vec::new(alloc);
    file.extend_from_slice(&FOREIGN)?;
    file.extend_from_slice(&write_header(&header))?;
    file.resize(FOREIGN.len() + size as usize, 0x25)?;
    file.extend_from_slice(&FOREIGN)?;
    Ok(file)
}

/// A reader that passes bytes unread, and counts those that it gives.
#[derive(Drop)]
struct Counting<'a> {
    reader: Slow<'a>,
    given: &'a Cell<usize>,
}

impl Read for Counting<'_> {
    fn read(&mut self, buf: &mut [u8]) -> io::Result<usize> {
        let read = self.reader.read(buf);
        if let Ok(count) = &read {
            self.given.set(self.given.get().saturating_add(*count));
        }
        read
    }
}

impl Advance for Counting<'_> {
    fn advance(&mut self, count: u64) -> io::Result<u64> {
        self.reader.advance(count)
    }
}

/// How many packets a reader gives without a fault.
fn packets_of<R: Advance + Drop>(rt: &impl Abort, alloc: Global, reader: R) -> usize {
    let mut packets = Packets::over(alloc, reader).ok().expect(rt, "memory");
    let mut count = 0usize;
    for _ in 0..100u64 {
        match packets.next() {
            Ok(Some(_)) => count = count.saturating_add(1),
            _ => break,
        }
    }
    count
}

/// How many packets are read of a file by a reader that passes bytes unread, and how many bytes it gives.
fn counted(rt: &impl Abort, alloc: Global, file: &[u8]) -> (usize, usize) {
    let given = Cell::new(0);
    let reader = Counting {
        reader: seeking(file, usize::MAX),
        given: &given,
    };
    (packets_of(rt, alloc, reader), given.get())
}

/// A long packet is passed but for its first bytes, which come with those in front of it, and its last one.
#[test]
fn passes_a_long_packet_unread(rt: HostRuntime) {
    let file = with_long_packet(rt.alloc(), LONG as u32).expect(&rt, "memory");
    let (count, given) = counted(&rt, rt.alloc(), &file);
    same(&rt, &count, &5);
    same(&rt, &(given < 300_000), &true);
}

/// The packets are the same where long ones are passed and where they are read.
#[test]
fn passes_and_reads_alike(rt: HostRuntime) {
    for size in [24, 32_764, 32_768, 262_048, 262_144, 294_912, 1_000_000] {
        let file = with_long_packet(rt.alloc(), size).expect(&rt, "memory");
        for most in [1000, 65_537, usize::MAX] {
            is_read_alike(&rt, rt.alloc(), &file, seeking(&file, most));
            is_read_alike(&rt, rt.alloc(), &file, reader_of(&file, most));
        }
    }
}

/// The first bytes of a file.
fn front(file: &[u8], count: usize) -> &[u8] {
    file.get(..count).unwrap_or(&[])
}

/// Where bytes cannot be passed the reading fails.
#[test]
fn fails_where_bytes_cannot_be_passed(rt: HostRuntime) {
    let file = with_long_packet(rt.alloc(), LONG as u32).expect(&rt, "memory");
    let failing = Slow {
        fails: true,
        ..seeking(front(&file, 500_000), usize::MAX)
    };
    gives(&rt, rt.alloc(), failing, &FOREIGN, Err(StreamFault::Device));
}
