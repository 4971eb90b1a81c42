//! Packets from readers that give little at a time, are interrupted or fail, against the reading of all bytes.

use crate::tests::equal::{are_bytes, same};
use ch11_f1::Messages;
use ch11_header::{Header, write_header};
use ch11_reader::{Index, Packet, ReadError};
use ch11_stream::{Advance, Packets, StreamFault};
use std::alloc::{AllocError, Global};
use std::io;
use std::io::{ErrorKind, Read};
use std::process::Abort;
use test_values::{FOREIGN, foreign_with};

/// A reader that gives so many bytes at a time at most. It may be interrupted in front of each read that gives some,
/// may fail where it has no more, and may pass bytes unread, also behind its end, where it does not fail.
#[derive(Clone, Copy)]
pub(crate) struct Slow<'a> {
    pub(crate) rest: &'a [u8],
    pub(crate) most: usize,
    pub(crate) interrupts: bool,
    pub(crate) interrupted: bool,
    pub(crate) fails: bool,
    pub(crate) seeks: bool,
}

impl Advance for Slow<'_> {
    fn advance(&mut self, count: u64) -> io::Result<u64> {
        if !self.seeks {
            return Ok(0);
        }
        let passed = self.rest.len().min(count as usize);
        if (passed as u64) < count && self.fails {
            return Err(io::Error::from(ErrorKind::Other));
        }
        self.rest = &self.rest[passed..];
        Ok(count)
    }
}

impl Read for Slow<'_> {
    fn read(&mut self, buf: &mut [u8]) -> io::Result<usize> {
        if self.interrupts && !self.interrupted {
            self.interrupted = true;
            return Err(io::Error::from(ErrorKind::Interrupted));
        }
        self.interrupted = false;
        if self.rest.is_empty() && self.fails {
            return Err(io::Error::from(ErrorKind::Other));
        }
        let count = self.most.min(self.rest.len()).min(buf.len());
        let (front, behind) = self.rest.split_at(count);
        buf[..count].copy_from_slice(front);
        self.rest = behind;
        Ok(count)
    }
}

/// A reader that gives so many bytes at a time.
pub(crate) fn reader_of(file: &[u8], most: usize) -> Slow<'_> {
    Slow {
        rest: file,
        most,
        interrupts: false,
        interrupted: false,
        fails: false,
        seeks: false,
    }
}

/// The same, and it passes bytes unread.
pub(crate) fn seeking(file: &[u8], most: usize) -> Slow<'_> {
    Slow {
        seeks: true,
        ..reader_of(file, most)
    }
}

/// Messages are the same as others.
fn are_alike(rt: &impl Abort, messages: Messages<'_>, others: Messages<'_>) {
    let mut others = others;
    for seen in messages {
        let wanted = others.next().expect(rt, "a message");
        same(
            rt,
            &(seen.stamp, seen.block, seen.gaps),
            &(wanted.stamp, wanted.block, wanted.gaps),
        );
        are_bytes(rt, seen.words, wanted.words);
    }
    same(rt, &others.left(), &0);
}

/// The reader gives the packets of these bytes, which are sound, and then that.
pub(crate) fn gives(
    rt: &impl Abort,
    alloc: Global,
    input: Slow<'_>,
    sound: &[u8],
    end: Result<Option<Packet>, StreamFault>,
) {
    let index = Index::build(alloc, sound).ok().expect(rt, "a sound file");
    let mut packets = Packets::over(alloc, input).ok().expect(rt, "memory");
    let listed = index.packets();
    for place in 0..listed.len() {
        same(rt, &packets.next(), &Ok(Some(listed[place])));
        are_alike(rt, packets.messages(), index.messages_in(place));
    }
    same(rt, &packets.next(), &end);
    same(rt, &packets.next(), &end);
    same(rt, &packets.messages().left(), &0);
}

/// The packets of a file come as they do where all its bytes are read at once, and so does its first fault.
pub(crate) fn is_read_alike(rt: &impl Abort, alloc: Global, file: &[u8], input: Slow<'_>) {
    match Index::build(alloc, file) {
        Ok(_) => gives(rt, alloc, input, file, Ok(None)),
        Err(ReadError::Refused(refusal)) => {
            let (sound, _) = file.split_at(refusal.offset.min(file.len()));
            gives(rt, alloc, input, sound, Err(StreamFault::Refused(refusal)));
        }
        Err(ReadError::Memory) => same(rt, &"memory", &"a file"),
    }
}

/// A file is read alike by readers that give one, seven and all bytes at a time, interrupted or not.
fn is_read_by_all(rt: &impl Abort, alloc: Global, file: &[u8]) {
    let readers = [
        reader_of(file, 1),
        reader_of(file, 7),
        reader_of(file, usize::MAX),
    ];
    for reader in readers {
        is_read_alike(rt, alloc, file, reader);
        let interrupted = Slow {
            interrupts: true,
            ..reader
        };
        is_read_alike(rt, alloc, file, interrupted);
    }
}

/// Each file that the foreign one begins with.
#[test]
fn reads_each_front_alike(rt: HostRuntime) {
    for end in 0..FOREIGN.len() + 1 {
        is_read_by_all(&rt, rt.alloc(), &FOREIGN[..end]);
    }
}

/// The foreign file with one byte changed to any other.
#[test]
fn reads_each_change_alike(rt: HostRuntime) {
    for place in 0..FOREIGN.len() {
        for change in 1..=255u8 {
            let file = foreign_with(place, change);
            is_read_alike(&rt, rt.alloc(), &file, reader_of(&file, 5));
        }
    }
}

/// A reader that fails behind so many bytes: the packets in front of that, and then the failure.
#[test]
fn fails_where_the_reader_does(rt: HostRuntime) {
    for end in 0..FOREIGN.len() + 1 {
        let failing = Slow {
            fails: true,
            ..reader_of(&FOREIGN[..end], 3)
        };
        let sound = if end < 32 {
            0
        } else if end < 96 {
            32
        } else {
            96
        };
        gives(
            &rt,
            rt.alloc(),
            failing,
            &FOREIGN[..sound],
            Err(StreamFault::Device),
        );
    }
}

/// A packet of messages, each without a word and all its bytes the same.
fn long_packet(alloc: Global, count: u16, sequence: u8) -> Result<Vec<u8>, AllocError> {
    let data_length = 4 + 14 * count as u32;
    let header = Header {
        channel: 7,
        packet_length: (24 + data_length).next_multiple_of(4),
        data_length,
        version: 6,
        sequence,
        flags: 0,
        kind: 0x19,
        counter: 0,
    };
    let mut packet = Vec::new(alloc);
    packet.extend_from_slice(&write_header(&header))?;
    packet.extend_from_slice(&(count as u32).to_le_bytes())?;
    packet.resize(header.packet_length as usize, 0)?;
    Ok(packet)
}

/// More bytes than the first room has, in many packets, behind and in front of one that needs more room alone. Its
/// channel's sequence goes on across the others once, and once it jumps.
#[test]
fn reads_a_long_file_alike(rt: HostRuntime) {
    let mut file = Vec::new(rt.alloc());
    for sequence in [0, 1, 3] {
        for _round in 0..3000 {
            file.extend_from_slice(&FOREIGN).expect(&rt, "memory");
        }
        let packet = long_packet(rt.alloc(), 30_000, sequence).expect(&rt, "memory");
        file.extend_from_slice(&packet).expect(&rt, "memory");
    }
    for most in [1000, 65_537, usize::MAX] {
        is_read_alike(&rt, rt.alloc(), &file, reader_of(&file, most));
    }
}
