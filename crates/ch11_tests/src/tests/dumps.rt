//! Dumps against the worked one.

use crate::tests::equal::{are_bytes, put, reads, same};
use bench_clock::Clock;
use bench_dump::{dump, dump_skipping, read_all};
use ch11_stream::StreamFault;
use std::alloc::Global;
use std::io;
use std::io::Read;
use std::process::Abort;
use test_values::FOREIGN;

const PRINTED: &str = "packet 0 channel 0 type 01 skipped
packet 32 channel 1 type 19 seq 0 flags 80 messages 1
message 1 channel 1 stamp 0 block 0000 gaps 0050 words 2823 0001 0002 0003 2800
";

/// A reader that never ends and gives nothing but one byte a read. It counts its reads.
#[derive(Drop)]
struct Endless {
    reads: u32,
}

impl Read for Endless {
    fn read(&mut self, buf: &mut [u8]) -> io::Result<usize> {
        self.reads = self.reads.saturating_add(1);
        Ok(if buf.is_empty() { 0 } else { 1 })
    }
}

#[test]
fn prints_the_foreign_file(rt: HostRuntime) {
    prints(&rt, rt.alloc(), &FOREIGN, false, PRINTED);
}

/// What is printed of a file, with or without skipping.
pub(crate) fn dumped(rt: &impl Abort, alloc: Global, file: &[u8], skip: bool) -> Vec<u8> {
    let mut out = Vec::new(alloc);
    let answer = if skip {
        dump_skipping(alloc, file, &Clock::unset(alloc), false, &mut out)
    } else {
        dump(alloc, file, file, &mut out)
    };
    same(rt, &answer, &Ok(()));
    out
}

/// The dump of a file is this text.
pub(crate) fn prints(rt: &impl Abort, alloc: Global, file: &[u8], skip: bool, text: &str) {
    are_bytes(rt, &dumped(rt, alloc, file, skip), text.as_bytes());
}

#[test]
fn prints_nothing_of_a_refused_file(rt: HostRuntime) {
    let mut file = FOREIGN;
    file[32] = 0;
    let fault = refused(&rt, rt.alloc(), &file).expect(&rt, "a fault");
    is_fault(&rt, rt.alloc(), &fault, "K2 offset 32");
}

/// A fault is printed as this text.
fn is_fault(rt: &impl Abort, alloc: Global, fault: &StreamFault, wanted: &str) {
    let text = fault.to_string(alloc).expect(rt, "memory");
    reads(rt, text.as_str(), wanted);
}

/// The fault of a file of which nothing is printed.
fn refused(rt: &impl Abort, alloc: Global, file: &[u8]) -> Option<StreamFault> {
    let mut out = Vec::new(alloc);
    let answer = dump(alloc, file, file, &mut out);
    same(rt, &out.is_empty(), &true);
    answer.err()
}

#[test]
fn reads_a_file_whole(rt: HostRuntime) {
    is_read_whole(&rt, rt.alloc(), &FOREIGN);
}

/// All bytes of a file are read.
fn is_read_whole(rt: &impl Abort, alloc: Global, file: &[u8]) {
    let mut input = file;
    let bytes = read_all(alloc, &mut input).ok().expect(rt, "the bytes");
    are_bytes(rt, &bytes, file);
}

/// More bytes than three reads give.
#[test]
fn reads_a_long_file_whole(rt: HostRuntime) {
    is_read_whole(&rt, rt.alloc(), &long_file(&rt, rt.alloc()));
}

/// Two hundred thousand bytes.
fn long_file(rt: &impl Abort, alloc: Global) -> Vec<u8> {
    let mut file = Vec::new(alloc);
    for number in 0..200_000u32 {
        put(rt, &mut file, &[(number % 251) as u8]);
    }
    file
}

#[test]
fn gives_up_after_a_million_reads(rt: HostRuntime) {
    let mut input = Endless { reads: 0 };
    let fault = read_all(rt.alloc(), &mut input).err();
    let found = (fault, input.reads);
    same(&rt, &found, &(Some(StreamFault::Device), 1_000_000));
}
