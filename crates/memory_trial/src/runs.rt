//! Calls on queues and on runs.

use crate::told::Told;
use crate::worked::{FIVE, ONE, job_of, jobs_of, settings_of};
use bench_core::{ChannelFault, one_channel};
use bench_mail::{MailError, Mailbox};
use bench_report::Report;
use bench_run::{OpenGate, RunError, run};
use ch11_writer::MemorySink;
use job_file::Job;
use mil_trunk::{Tagged, Trunk, TrunkError};
use std::alloc::Global;
use std::sync::Wait;
use std::thread::Threads;

/// An item of tag 0.
#[derive(Clone, Copy)]
struct Item;

impl Tagged for Item {
    ghost tag_of = { λ _. 0 };

    fn tag(&self) -> u8 {
        0
    }
}

/// `Trunk::make`.
pub(crate) fn trunk(alloc: Global) -> Told {
    match Trunk::<Item>::make(alloc, 2, &[1024]) {
        Ok(_) => Told::Well,
        Err(TrunkError::Memory) => Told::Refused,
        Err(TrunkError::Capacity) => Told::Wrong,
    }
}

/// The mailbox of a job.
fn mailbox_of(alloc: Global, job: &Job) -> Told {
    match Mailbox::make(alloc, job, 2) {
        Ok(_) => Told::Well,
        Err(MailError::Memory) => Told::Refused,
        Err(MailError::Capacity) => Told::Wrong,
    }
}

/// `Mailbox::make`.
pub(crate) fn mailbox(alloc: Global) -> Told {
    match job_of(alloc, FIVE) {
        Some(job) => mailbox_of(alloc, &job),
        None => Told::Early,
    }
}

/// What a channel came to: a file, a growth of its own that was refused, or one of its sink, which is a fault of the
/// sink.
fn channel_told(answer: &Result<MemorySink, ChannelFault<MemorySink>>) -> Told {
    match answer {
        Ok(sink) => Told::well(sink.bytes().len() == 128),
        Err(ChannelFault::Memory { sink }) => Told::refused(sink.bytes().is_empty()),
        Err(ChannelFault::Sink { sink, taken }) => {
            Told::refused(sink.bytes().len() as u64 == *taken)
        }
        Err(ChannelFault::Limit { .. }) => Told::Wrong,
    }
}

/// `one_channel`.
pub(crate) fn one_channel_recorded(alloc: Global) -> Told {
    match job_of(alloc, FIVE) {
        Some(job) => { channel_told(&one_channel(alloc, &job, 6, 4096, MemorySink::make(alloc))) }
        None => Told::Early,
    }
}

/// What a run came to.
fn run_told(answer: &Result<(Report, MemorySink), RunError<MemorySink>>) -> Told {
    match answer {
        Ok(whole) => Told::well(whole.1.bytes().len() == 176),
        Err(RunError::Memory { .. }) => Told::Refused,
        Err(RunError::Sink { sink, taken, .. }) => {
            Told::refused(sink.bytes().len() as u64 == *taken)
        }
        Err(_) => Told::Wrong,
    }
}

/// A run of jobs into memory, with a queue that has room for all.
fn ran<R: Threads + Wait + Sync>(rt: &R, alloc: Global, jobs: &[Job]) -> Told {
    let settings = settings_of(alloc, 64);
    let sink = MemorySink::make(alloc);
    run_told(&run(rt, alloc, jobs, &settings, &OpenGate, sink))
}

/// `run` of two jobs.
pub(crate) fn two_channels<R: Threads + Wait + Sync>(rt: &R, alloc: Global) -> Told {
    match jobs_of(alloc, &[FIVE, ONE]) {
        Some(jobs) => ran(rt, alloc, &jobs),
        None => Told::Early,
    }
}
