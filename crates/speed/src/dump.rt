//! The index of a recording, its dump, and its dump with what is damaged skipped, for `benches/dump`: RECORDING. Its
//! figures: how many bytes the recording has, the nanoseconds of the index, of the dump and of the dump that skips, how
//! many messages there are, and how many bytes the dump has.
use crate::watch::Watch;
use crate::words::file;
use bench_clock::Clock;
use bench_dump::{dump, dump_skipping};
use ch11_reader::Index;
use std::io::{self, Write};

/// How often each is done; the best counts.
const ROUNDS: u32 = 7;

/// A writer that counts the bytes and keeps none.
#[derive(Drop)]
struct Counter {
    bytes: u64,
}

impl Write for Counter {
    fn write(&mut self, buf: &[u8]) -> io::Result<usize> {
        self.bytes = self.bytes.wrapping_add(buf.len() as u64);
        Ok(buf.len())
    }

    fn flush(&mut self) -> io::Result<()> {
        Ok(())
    }
}

/// How many messages a recording has; 0 where it cannot be read.
fn messages_in(watch: &Watch<'_>, bytes: &[u8]) -> u64 {
    match Index::build(watch.rt.alloc(), bytes) {
        Ok(index) => index.total(),
        Err(_) => 0,
    }
}

/// How many bytes a dump has.
fn dumped(watch: &Watch<'_>, bytes: &[u8], skips: bool) -> u64 {
    let (alloc, mut counter) = (watch.rt.alloc(), Counter { bytes: 0 });
    let _ = if skips {
        dump_skipping(alloc, bytes, &Clock::unset(alloc), false, &mut counter)
    } else {
        dump(alloc, bytes, bytes, &mut counter)
    };
    counter.bytes
}

/// The figures of a recording.
fn timed(watch: &Watch<'_>, bytes: &[u8]) -> [u64; 6] {
    let (mut build, mut print, mut skip) = (u64::MAX, u64::MAX, u64::MAX);
    let (mut total, mut printed) = (0u64, 0u64);
    for _ in 0..ROUNDS {
        let start = watch.nanos();
        total = messages_in(watch, bytes);
        build = build.min(watch.since(start));
        let start = watch.nanos();
        printed = dumped(watch, bytes, false);
        print = print.min(watch.since(start));
        let start = watch.nanos();
        let _ = dumped(watch, bytes, true);
        skip = skip.min(watch.since(start));
    }
    [bytes.len() as u64, build, print, skip, total, printed]
}

/// What the words ask for; None where they do not say it, or the file cannot be read.
pub(crate) fn measured(watch: &Watch<'_>, words: &[&str]) -> Option<[u64; 6]> {
    let bytes = file(watch.rt, words, 0)?;
    Some(timed(watch, &bytes))
}
