//! The debugger, for `benches/step`: CHANCE STEPS RECORDING REPORT JOBS.. It opens the recording with the report and
//! the jobs of its run, goes to so many places by chance, and then so many messages on from the start and as many back.
//! Its figures: how many messages the recording has, the nanoseconds of opening, of the moves by chance, of the steps
//! forward and of those back, and a sum over all places.
use crate::watch::Watch;
use crate::words::{file, number};
use bench_report::{Report, read_report};
use ch11_reader::Index;
use job_file::{Job, read_job};
use replay::Replay;

/// The ticks of all buses at the place.
fn ticks_at(replay: &Replay<'_>) -> u64 {
    let mut sum = 0u64;
    for index in 0..replay.jobs() {
        sum = sum.wrapping_add(replay.state(index).bus().clock());
    }
    sum
}

/// Goes to so many places by chance, from a sequence that is the same each time; the sum over the places.
fn by_chance(replay: &mut Replay<'_>, count: u64) -> u64 {
    let places = replay.total().wrapping_add(1).max(1);
    let mut state = 1u64;
    let mut sum = 0u64;
    for _ in 0..count {
        state = state
            .wrapping_mul(6_364_136_223_846_793_005)
            .wrapping_add(1_442_695_040_888_963_407);
        if replay.go((state >> 33) % places).is_ok() {
            sum = sum.wrapping_add(ticks_at(replay));
        }
    }
    sum
}

/// Goes to the start, and then so many messages on; the sum over the places.
fn forward(replay: &mut Replay<'_>, count: u64) -> u64 {
    let mut sum = 0u64;
    if replay.go(0).is_err() {
        return sum;
    }
    for _ in 0..count {
        if replay.forward().is_ok() {
            sum = sum.wrapping_add(ticks_at(replay));
        }
    }
    sum
}

/// Goes so many messages back; the sum over the places.
fn back(replay: &mut Replay<'_>, count: u64) -> u64 {
    let mut sum = 0u64;
    for _ in 0..count {
        if replay.back().is_ok() {
            sum = sum.wrapping_add(ticks_at(replay));
        }
    }
    sum
}

/// The figures of a debugger that took so long to open.
fn moved(watch: &Watch<'_>, replay: &mut Replay<'_>, opened: u64, counts: (u64, u64)) -> [u64; 6] {
    let start = watch.nanos();
    let chance = by_chance(replay, counts.0);
    let moves = watch.since(start);
    let start = watch.nanos();
    let onward = forward(replay, counts.1);
    let on = watch.since(start);
    let start = watch.nanos();
    let homeward = back(replay, counts.1);
    let returned = watch.since(start);
    let sum = chance.wrapping_add(onward).wrapping_add(homeward);
    [replay.total(), opened, moves, on, returned, sum]
}

/// Opens a recording and moves about in it; None where it does not open.
fn timed(
    watch: &Watch<'_>,
    recording: &[u8],
    report: &Report,
    jobs: &[Job],
    counts: (u64, u64),
) -> Option<[u64; 6]> {
    let start = watch.nanos();
    let index = Index::build(watch.rt.alloc(), recording).ok()?;
    let mut replay = Replay::open(watch.rt.alloc(), jobs, report, index).ok()?;
    let opened = watch.since(start);
    Some(moved(watch, &mut replay, opened, counts))
}

/// The jobs whose texts the files at a place and behind it have; None where one has none.
fn jobs_from(rt: &HostRuntime, words: &[&str], place: usize) -> Option<Vec<Job>> {
    let mut jobs = Vec::new(rt.alloc());
    for at in place..words.len() {
        let text = file(rt, words, at)?;
        jobs.push(read_job(rt.alloc(), &text).ok()?).ok()?;
    }
    Some(jobs)
}

/// The report that the file at a place has; None where it has none.
fn report_from(rt: &HostRuntime, words: &[&str], place: usize) -> Option<Report> {
    let text = file(rt, words, place)?;
    read_report(rt.alloc(), &text).ok()
}

/// What the words ask for; None where they do not say it, or a file does not have what it should.
pub(crate) fn measured(watch: &Watch<'_>, words: &[&str]) -> Option<[u64; 6]> {
    let counts = (number(words, 0)?, number(words, 1)?);
    let recording = file(watch.rt, words, 2)?;
    let report = report_from(watch.rt, words, 3)?;
    let jobs = jobs_from(watch.rt, words, 4)?;
    timed(watch, &recording, &report, &jobs, counts)
}
