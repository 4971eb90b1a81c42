//! A session that does not come to its end, since its output closes.
use crate::looks::equal::reads;
use crate::steps::made::{DROPPED, subject_of};
use bench_step::StepFault;
use std::alloc::Global;
use std::io;
use std::io::{ErrorKind, Write};
use std::process::Abort;

/// A writer that takes so many bytes, and then fails.
#[derive(Drop)]
struct Short {
    room: usize,
}

impl Write for Short {
    fn write(&mut self, buf: &[u8]) -> io::Result<usize> {
        if self.room < buf.len() {
            return Err(io::Error::from(ErrorKind::BrokenPipe));
        }
        self.room -= buf.len();
        Ok(buf.len())
    }

    fn flush(&mut self) -> io::Result<()> {
        Ok(())
    }
}

/// A session ended with a fault that is printed as this text.
fn is_told(rt: &impl Abort, alloc: Global, ended: Result<(), StepFault>, wanted: &str) {
    let fault = ended.err().expect(rt, "a fault");
    let text = format!(in alloc; "{fault}").expect(rt, "memory");
    reads(rt, text.as_bytes(), wanted);
}

#[test]
fn a_closed_output(rt: HostRuntime) {
    let one = subject_of(&rt, rt.alloc(), &DROPPED);
    let mut out = Short { room: 6 };
    let lines = "forward\nforward\nforward\n";
    let (ended, left) = one.session(rt.alloc(), lines, &mut out);
    assert_eq!(rt; ended, Err(StepFault::Output));
    is_told(&rt, rt.alloc(), ended, "device -");
    reads(&rt, left, "forward\n");
}
