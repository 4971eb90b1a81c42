//! Jobs and settings of the runs, and what is asked of a file.
use bench_report::{ChannelReport, Report, print_report};
use bench_run::{Gate, RunError, run};
use bench_settings::Settings;
use ch11_reader::Index;
use ch11_writer::MemorySink;
use job_file::{Job, read_job};
use std::alloc::Global;
use std::process::Abort;
use std::sync::Wait;
use std::thread::Threads;

/// Two channels of ten messages each, at 0, 680, .. 6120.
pub(crate) const TEN_MESSAGES: [&str; 2] = [
    "channel 1\nterminal 5\nscript\nrepeat 10 { send A rx 5 1 [0001] }\n",
    "channel 2\nterminal 5\nscript\nrepeat 10 { send A rx 5 1 [0001] }\n",
];

/// How much later than the one before it a message `send A rx 5 1 [0001]` begins, in ticks of 0.1 µs.
pub(crate) const STEP: u64 = 680;

/// The report of two channels of ten messages, of which none was refused.
pub(crate) const TEN_REPORT: &str = "channel 1\nmade 10\nchannel 2\nmade 10\npackets 2\n";

/// The jobs of these texts, in their order.
pub(crate) fn jobs_of(rt: &impl Abort, alloc: Global, texts: &[&str]) -> Vec<Job> {
    let mut jobs = Vec::new(alloc);
    for text in texts {
        let job = read_job(alloc, text.as_bytes()).ok().expect(rt, "a job");
        jobs.push(job).expect(rt, "memory");
    }
    jobs
}

/// What a job repeats: the lines of the terminals on its bus, and the frames.
pub(crate) struct Round {
    pub(crate) terminals: &'static str,
    pub(crate) frames: &'static str,
}

/// One message to terminal 5, which begins a step later than the one before it.
pub(crate) const TO_FIVE: Round = Round {
    terminals: "terminal 5\n",
    frames: "send A rx 5 1 [0001]",
};

/// A job that repeats a round so often.
pub(crate) fn job_of(
    rt: &impl Abort,
    alloc: Global,
    channel: u32,
    count: u32,
    round: &Round,
) -> Job {
    let Round { terminals, frames } = round;
    let text = format!(in alloc;
        "channel {channel}\n{terminals}script\nrepeat {count} {{ {frames} }}\n"
    ).expect(rt, "memory");
    read_job(alloc, text.as_bytes()).ok().expect(rt, "a job")
}

/// Jobs of the channels 1, 2, .., each of which repeats a round as often as its count says.
fn jobs_repeating(rt: &impl Abort, alloc: Global, counts: &[u32], round: &Round) -> Vec<Job> {
    let mut jobs = Vec::new(alloc);
    let mut channel = 0u32;
    for count in counts {
        channel = channel.wrapping_add(1);
        let job = job_of(rt, alloc, channel, *count, round);
        jobs.push(job).expect(rt, "memory");
    }
    jobs
}

/// Packets of at most 4096 bytes, a queue of so many items, and no prologue.
fn settings_of(alloc: Global, queue: u32) -> Settings {
    Settings {
        version: 6,
        limit: 4096,
        queue,
        prologue: Vec::new(alloc),
        posts: 65_536,
    }
}

/// The jobs of a run, and its settings.
#[derive(Drop)]
pub(crate) struct Bench {
    pub(crate) jobs: Vec<Job>,
    pub(crate) settings: Settings,
}

/// A bench of the jobs of these texts, with a queue of so many items.
pub(crate) fn bench_of(rt: &impl Abort, alloc: Global, texts: &[&str], queue: u32) -> Bench {
    Bench {
        jobs: jobs_of(rt, alloc, texts),
        settings: settings_of(alloc, queue),
    }
}

/// A bench of jobs that repeat a round as often as these counts say, with a queue of so many items.
pub(crate) fn bench_repeating(
    rt: &impl Abort,
    alloc: Global,
    counts: &[u32],
    round: &Round,
    queue: u32,
) -> Bench {
    Bench {
        jobs: jobs_repeating(rt, alloc, counts, round),
        settings: settings_of(alloc, queue),
    }
}

/// What a run of a bench into memory comes to.
pub(crate) fn ran<R: Threads + Wait + Abort + Sync, G: Gate>(
    rt: &R,
    alloc: Global,
    bench: &Bench,
    gate: &G,
) -> Result<(Report, MemorySink), RunError<MemorySink>> {
    let sink = MemorySink::make(alloc);
    run(rt, alloc, &bench.jobs, &bench.settings, gate, sink)
}

/// Runs jobs of these texts into memory, and ends well.
pub(crate) fn recorded<R: Threads + Wait + Abort + Sync, G: Gate>(
    rt: &R,
    alloc: Global,
    texts: &[&str],
    queue: u32,
    gate: &G,
) -> (Report, MemorySink) {
    let bench = bench_of(rt, alloc, texts, queue);
    let answer = ran(rt, alloc, &bench, gate);
    answer.ok().expect(rt, "a run that ends well")
}

/// A report is printed as this text.
pub(crate) fn is_printed(rt: &impl Abort, alloc: Global, report: &Report, wanted: &str) {
    let printed = print_report(alloc, report).expect(rt, wanted);
    assert_eq!(rt; printed.as_str(), wanted);
}

/// A recording that can be read.
pub(crate) fn index_of<'a>(rt: &impl Abort, alloc: Global, file: &'a [u8]) -> Index<'a> {
    Index::build(alloc, file).ok().expect(rt, "readable")
}

/// A packet: its channel, its length in bytes and its flags.
pub(crate) type Shape = (u16, u32, u8);

/// Whether the packets of a recording are these, in this order.
pub(crate) fn are_packets(index: &Index<'_>, wanted: &[Shape]) -> bool {
    for (packet, shape) in index.packets().iter().zip(wanted) {
        let header = packet.header;
        if (header.channel, header.packet_length, header.flags) != *shape {
            return false;
        }
    }
    index.packets().len() == wanted.len()
}

/// Whether the messages of a channel have these stamps, in the file's order.
pub(crate) fn are_stamps(index: &Index<'_>, channel: u16, wanted: &[u64]) -> bool {
    let mut messages = index.channel(channel);
    for stamp in wanted {
        match messages.next() {
            Some(seen) if seen.stamp == *stamp => {}
            _ => return false,
        }
    }
    messages.next().is_none()
}

/// How many messages of a channel were kept, where the file holds in their order those that were made but for the
/// refused.
pub(crate) fn kept_of(index: &Index<'_>, part: &ChannelReport) -> Option<u64> {
    let mut messages = index.channel(part.channel());
    let mut kept = 0u64;
    for place in 0..part.made() {
        if part.refused().contains(&(place + 1)) {
            continue;
        }
        let seen = messages.next()?;
        if seen.stamp != STEP * u64::from(place) {
            return None;
        }
        kept = kept.wrapping_add(1);
    }
    match messages.next() {
        Some(_) => None,
        None => Some(kept),
    }
}
