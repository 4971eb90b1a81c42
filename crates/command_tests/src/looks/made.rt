//! Sample jobs, and the recordings of jobs.
use bench_core::one_channel;
use ch11_writer::{MemorySink, Sink};
use job_file::{Job, read_job};
use std::alloc::Global;
use std::process::Abort;

/// The job of examples/retry.job: three errors, each with a retry on the other line.
pub(crate) const RETRY: &str =
    "channel 1\nterminal 5\nfault 1 mute 1\nfault 3 late 1 171\nfault 5 drop 0 3\nscript\n\
     repeat 3 {\n  retry 2 send A rx 5 1 [0001 0002 0003]\n}\n";

/// The job of examples/transfer.job: a transfer from terminal to terminal, and a mode command.
pub(crate) const TRANSFER: &str =
    "channel 1\nterminal 3\nterminal 7\nat 1 7 transmit 1 AAAA 5555\nscript\nsend A rt 7 1 3 4 2\nsend A mode 3 2\n";

/// A job of every other form of message.
pub(crate) const FORMS: &str =
    "channel 9\nterminal 5\nscript\nsend A tx 5 2 2\nsend B mode 5 17 [00AA]\nsend A mode 5 16\nsend A brx 1 [00BB]\n\
     send A brt 5 1 4 2\nsend A bmode 1\n";

/// The job of a text.
pub(crate) fn job_of(rt: &impl Abort, alloc: Global, text: &str) -> Job {
    read_job(alloc, text.as_bytes()).ok().expect(rt, "a job")
}

/// The recording of a job of this text, behind what a file holds.
fn add_recording(rt: &impl Abort, alloc: Global, text: &str, file: &mut Vec<u8>) {
    let job = job_of(rt, alloc, text);
    let sink = one_channel(alloc, &job, 6, 4096, MemorySink::make(alloc));
    let sink = sink.ok().expect(rt, "a recording");
    file.extend_from_slice(sink.bytes()).expect(rt, "memory");
}

/// The recordings of jobs of these texts, one behind the other.
pub(crate) fn recorded(rt: &impl Abort, alloc: Global, texts: &[&str]) -> Vec<u8> {
    let mut file = Vec::new(alloc);
    for text in texts {
        add_recording(rt, alloc, text, &mut file);
    }
    file
}
