//! Recordings that a bench writes of one job.
use bench_core::{Step, World};
use bench_report::Report;
use bench_settings::Settings;
use job_file::{Job, read_job};
use std::alloc::Global;
use std::process::Abort;

/// A job, the file of its run, and the report.
#[derive(Drop)]
pub(crate) struct Recorded {
    pub(crate) jobs: Vec<Job>,
    pub(crate) file: Vec<u8>,
    pub(crate) report: Report,
}

/// The job of a text, alone.
fn jobs_of(rt: &impl Abort, alloc: Global, text: &str) -> Vec<Job> {
    let mut jobs = Vec::new(alloc);
    let job = read_job(alloc, text.as_bytes()).ok().expect(rt, "a job");
    jobs.push(job).expect(rt, "memory");
    jobs
}

/// A bench of these jobs before any step, with a queue of one item.
fn world_of(rt: &impl Abort, alloc: Global, jobs: &[Job]) -> World {
    let settings = Settings {
        version: 6,
        limit: 4096,
        queue: 1,
        prologue: Vec::new(alloc),
        posts: 0,
    };
    let world = World::make(alloc, jobs, &settings);
    world.ok().expect(rt, "a world")
}

/// The steps in which so many messages are offered for each part, and then one is taken; and the end at last.
fn steps_of(rt: &impl Abort, alloc: Global, parts: &[u16]) -> Vec<Step> {
    let mut steps = Vec::new(alloc);
    for part in parts {
        for _ in 0..*part {
            steps.push(Step::Offer(0)).expect(rt, "memory");
        }
        steps.push(Step::Take).expect(rt, "memory");
    }
    steps.push(Step::Offer(0)).expect(rt, "memory");
    steps.push(Step::Take).expect(rt, "memory");
    steps
}

/// A bench takes these steps.
fn plays(rt: &impl Abort, world: &mut World, steps: &[Step]) {
    let is_played = world.play(steps).is_ok();
    assert!(rt; is_played, "steps");
}

/// What a bench records of one job, with a queue of one item, where its messages are offered in parts: so many, and
/// then one is taken. Only the first of each part is kept.
pub(crate) fn record_of(rt: &impl Abort, alloc: Global, text: &str, parts: &[u16]) -> Recorded {
    let jobs = jobs_of(rt, alloc, text);
    let mut world = world_of(rt, alloc, &jobs);
    plays(rt, &mut world, &steps_of(rt, alloc, parts));
    let mut file = Vec::new(alloc);
    file.extend_from_slice(world.file()).expect(rt, "memory");
    let report = world.report(alloc).expect(rt, "memory");
    Recorded { jobs, file, report }
}
