//! Readers and writers of sessions that fail: a fault ends a session with what was answered.
use crate::looks::equal::reads;
use crate::steps::made::{DROPPED, subject_of};
use bench_step::StepFault;
use std::alloc::Global;
use std::io;
use std::io::{BufReader, ErrorKind, Read, Write};
use std::process::Abort;

/// A writer that takes all, and whose flush fails.
#[derive(Drop)]
struct Unflushed {
    taken: usize,
}

impl Write for Unflushed {
    fn write(&mut self, buf: &[u8]) -> io::Result<usize> {
        self.taken = self.taken.saturating_add(buf.len());
        Ok(buf.len())
    }

    fn flush(&mut self) -> io::Result<()> {
        Err(io::Error::from(ErrorKind::BrokenPipe))
    }
}

/// A reader of one line, and of a fault behind it.
#[derive(Drop)]
struct Broken {
    is_read: bool,
    kind: ErrorKind,
}

impl Read for Broken {
    fn read(&mut self, buf: &mut [u8]) -> io::Result<usize> {
        let line = b"forward\n";
        if self.is_read || buf.len() < line.len() {
            return Err(io::Error::from(self.kind));
        }
        self.is_read = true;
        buf[..line.len()].copy_from_slice(line);
        Ok(line.len())
    }
}

#[test]
fn a_flush_that_fails(rt: HostRuntime) {
    let one = subject_of(&rt, rt.alloc(), &DROPPED);
    let mut out = Unflushed { taken: 0 };
    let (ended, left) = one.session(rt.alloc(), "forward\nback\n", &mut out);
    assert_eq!(&rt; ended, Err(StepFault::Output));
    assert_eq!(&rt; out.taken, 5);
    reads(&rt, left, "back\n");
}

/// How a session ends whose reader fails in this way behind its first line, which is answered.
fn breaks(rt: &impl Abort, alloc: Global, kind: ErrorKind, fault: StepFault) {
    let one = subject_of(rt, alloc, &DROPPED);
    let reader = Broken {
        is_read: false,
        kind,
    };
    let mut input = BufReader::new(alloc, reader).ok().expect(rt, "memory");
    let mut out = Vec::new(alloc);
    let ended = one.session_of(alloc, &mut input, &mut out);
    assert_eq!(rt; ended, Err(fault));
    reads(rt, &out, "at 1\n");
}

#[test]
fn readers_that_fail(rt: HostRuntime) {
    breaks(&rt, rt.alloc(), ErrorKind::BrokenPipe, StepFault::Input);
    breaks(
        &rt,
        rt.alloc(),
        ErrorKind::OutOfMemory,
        StepFault::LineMemory,
    );
}
