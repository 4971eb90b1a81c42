//! Texts and bytes that the calls are made with.
use bench_settings::Settings;
use job_file::{Job, read_job};
use std::alloc::Global;

/// A script of frames of every kind.
pub(crate) const SCRIPT: &[u8] =
    b"repeat 3 { if any ( fail not silent ) { retry 2 send A rx 9 1 [0001 0002] } else { gap 50 } }";

/// The bytes of the image of `repeat 3 { retry 2 send A rx 9 1 [0001] }`, worked by hand.
pub(crate) const LOOPS: [u8; 62] = [
    0x42, 0x43, 0x30, 0x31, 11, 0, 1, 0, // the mark and the counts
    4, 0, 3, 0, 1, 0, 0, 0, 4, 0, 2, 0, 8, 0, 0, 0, // Loop 3, Send 0, Loop 2, Test 0
    9, 0, 7, 0, 2, 0, 0, 0, 7, 0, 8, 0, 6, 0, 9, 0, // JumpFalse 7, Alt 0, Jump 8, Leave 9
    5, 0, 3, 0, 5, 0, 1, 0, 0, 0, 0, 0, // Again 3, Again 1, Halt
    0, 0, 0x21, 0x48, 0, 0, 1, 0, 1, 0, // the message
];

/// A job with a planned fault, two actions and a hundred messages; one of one channel more, and one of yet another.
pub(crate) const HUNDRED: &str =
    "channel 1\nterminal 5\nterminal 9\nfault 1 drop 0 1\nat 3 5 busy on\nat 70 5 busy off\nscript\n\
     repeat 50 { send A rx 5 1 [0001] retry 1 send B tx 9 2 4 }\n";

pub(crate) const FIVE: &str = "channel 1\nterminal 5\nscript\nrepeat 5 { send A rx 5 1 [0001] }\n";

pub(crate) const ONE: &str = "channel 2\nterminal 5\nscript\nsend A rx 5 1 [0001]\n";

/// A report with refused messages and placed actions.
pub(crate) const REPORT: &str =
    "channel 1\nmade 5\nrefused 3\nrefused 4\nplaced 1 5 busy on\nplaced 2 5 transmit 1 AAAA 5555\nchannel 2\n\
     made 1\npackets 2\n";

/// The job of a text; None where memory is refused.
pub(crate) fn job_of(alloc: Global, text: &str) -> Option<Job> {
    read_job(alloc, text.as_bytes()).ok()
}

/// The jobs of texts; None where memory is refused.
pub(crate) fn jobs_of(alloc: Global, texts: &[&str]) -> Option<Vec<Job>> {
    let mut jobs = Vec::new(alloc);
    for text in texts {
        jobs.push(job_of(alloc, text)?).ok()?;
    }
    Some(jobs)
}

/// Packets of at most 4096 bytes, a queue of so many items, and neither a prologue nor posts.
pub(crate) fn settings_of(alloc: Global, queue: u32) -> Settings {
    Settings {
        version: 6,
        limit: 4096,
        queue,
        prologue: Vec::new(alloc),
        posts: 0,
    }
}
