//! Runs of 1 to 8 jobs of 31 terminals, for `benches/run`: CHANNELS TIMES ROUNDS, the last two of which multiply to the
//! rounds of each channel (a message to each terminal), `open` or `paced`, and `memory` or the name of a file. Its
//! figures: the nanoseconds of the run, and how many messages were made, how many of these a full queue refused, and
//! how many packets were written.
ghost use Rattle.std.specs.Prelude.{◌<◌, ◌-◌, ◌^◌};

use crate::gate::PacedGate;
use crate::loads::{Load, jobs_of};
use crate::watch::Watch;
use crate::words::number;
use bench_report::Report;
use bench_run::{Gate, OpenGate, RunError, run};
use bench_settings::Settings;
use ch11_writer::{MemorySink, Sink, StdSink};
use job_file::Job;
use std::fs;
use std::sync::Wait;
use std::thread::Threads;

/// How many bytes a packet has at most. The messages of one packet span less than 100 ms, so that it stays far below.
const LIMIT: u32 = 65_536;

/// How many items the queue holds.
const QUEUE: u32 = 4096;

/// The figures of a run that took so long and had this report.
fn added_up(report: &Report, nanos: u64) -> [u64; 4] {
    let mut made = 0u64;
    let mut refused = 0u64;
    for part in report.channels() {
        made = made.wrapping_add(u64::from(part.made()));
        refused = refused.wrapping_add(part.refused().len() as u64);
    }
    [nanos, made, refused, report.packets()]
}

/// The figures of a run that took so long; None of one that gave no recording.
fn figures_of<S: Sink + Drop>(
    ran: &Result<(Report, S), RunError<S>>,
    nanos: u64,
) -> Option<[u64; 4]> {
    match ran {
        Ok(whole) => Some(added_up(&whole.0, nanos)),
        Err(_) => None,
    }
}

/// Runs the jobs into a sink; None where the run gave no recording.
fn timed<T: Threads + Wait + Sync, G: Gate, S: Sink + Drop>(
    threads: &T,
    watch: &Watch<'_>,
    jobs: &[Job],
    gate: &G,
    sink: S,
) -> Option<[u64; 4]>
    requires { S.failures sink < 2 ^ 64 - 1 }
{
    let settings = Settings {
        version: 6,
        limit: LIMIT,
        queue: QUEUE,
        prologue: Vec::new(watch.rt.alloc()),
        posts: 0,
    };
    let start = watch.nanos();
    let ran = run(threads, watch.rt.alloc(), jobs, &settings, gate, sink);
    figures_of(&ran, watch.since(start))
}

/// Runs the jobs into memory, where the place is `memory`, and else into a file of that name.
fn timed_at<T: Threads + Wait + Sync, G: Gate>(
    threads: &T,
    watch: &Watch<'_>,
    jobs: &[Job],
    gate: &G,
    place: &str,
) -> Option<[u64; 4]> {
    if place == "memory" {
        return timed(
            threads,
            watch,
            jobs,
            gate,
            MemorySink::make(watch.rt.alloc()),
        );
    }
    let file = fs::create(watch.rt, place).ok()?;
    timed(threads, watch, jobs, gate, StdSink::make(file))
}

/// The load that the first words ask for; None where they do not say it.
fn load_of(words: &[&str]) -> Option<Load> {
    Some(Load {
        channels: u16::try_from(number(words, 0)?).ok()?,
        times: u16::try_from(number(words, 1)?).ok()?,
        rounds: u16::try_from(number(words, 2)?).ok()?,
    })
}

/// What the words ask for, paced, so that the queue refuses no message, or as fast as its channels go; None where they
/// do not say it.
pub(crate) fn measured<T: Threads + Wait + Sync>(
    threads: &T,
    watch: &Watch<'_>,
    words: &[&str],
) -> Option<[u64; 4]> {
    let load = load_of(words)?;
    let (way, place) = (*words.get(3)?, *words.get(4)?);
    let jobs = jobs_of(watch.rt.alloc(), load)?;
    match way {
        "paced" => timed_at(
            threads,
            watch,
            &jobs,
            &PacedGate::among(load.channels, QUEUE),
            place,
        ),
        "open" => timed_at(threads, watch, &jobs, &OpenGate, place),
        _ => None,
    }
}
