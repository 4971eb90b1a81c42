//! Scripts: what happens in a world step by step, and what is found then.
use crate::tests::channels::job_of;
use crate::tests::equal::{are_bytes, reads, same_in};
use bc_machine::HostAction;
use bench_core::{PlayError, Step, World};
use bench_report::print_report;
use bench_settings::{Settings, WorldError};
use ch11_header::read_header;
use ch11_reader::Index;
use controller_text::read_control;
use job_file::Job;
use mil_host::Action;
use std::alloc::Global;
use std::process::Abort;
use test_values::FOREIGN;

/// What happens in a world, and what is found then.
#[derive(Clone, Copy)]
pub(crate) struct Script {
    pub(crate) name: &'static str,
    pub(crate) made_of: MadeOf,
    pub(crate) steps: &'static [Then],
}

/// What a world is made of: jobs, the packets' limit, the queue's size, how many posts are taken, and how many bytes of
/// the foreign file stand in front.
#[derive(Clone, Copy, Debug)]
pub(crate) struct MadeOf {
    pub(crate) jobs: &'static [&'static str],
    pub(crate) limit: u32,
    pub(crate) queue: u32,
    pub(crate) posts: u32,
    pub(crate) prologue: usize,
}

/// A step of a script.
#[derive(Clone, Copy)]
pub(crate) enum Then {
    /// Steps of the bench, and the world's answer.
    Plays(&'static str, Result<(), PlayError>),
    /// Steps of the bench that are played so many times and done each time.
    Times(u8, &'static str),
    /// How many bytes the file has, and how many items the queue.
    Holds(usize, usize),
    /// The report, printed.
    Reports(&'static str),
    /// The file is so many bytes of the foreign file.
    IsFront(usize),
    /// Channel, length and flags of the packet at this place of the file.
    HasPacket(usize, (u16, u32, u8)),
    /// The file, read as a recording, has these.
    Finds(&'static [Found]),
    /// The queue is empty: how many bytes the file has, what it has as a recording, and the report, printed.
    Leaves(usize, &'static [Found], &'static str),
}

/// What is found in a recording.
#[derive(Clone, Copy)]
pub(crate) enum Found {
    /// How many messages it has.
    Messages(u64),
    /// Of the message with this number, the stamp.
    Stamp(u64, u64),
    /// Of the message with this number, the words as they stand in the file.
    Words(u64, &'static [u8]),
    /// All ten messages of one channel stand before those of the other.
    OneBehindTheOther,
}

use Then::{Finds, HasPacket, Holds, IsFront, Leaves, Plays, Reports, Times};

/// Scripts, each in a world of its own.
pub(crate) fn are_played(rt: &impl Abort, alloc: Global, scripts: &[Script]) {
    for script in scripts {
        is_played(rt, alloc, script);
    }
}

fn is_played(rt: &impl Abort, alloc: Global, script: &Script) {
    let mut world = made(rt, alloc, script.made_of).ok().expect(rt, script.name);
    for step in script.steps {
        plays(rt, alloc, script.name, &mut world, *step);
    }
}

/// A step of a script.
fn plays(rt: &impl Abort, alloc: Global, row: &str, world: &mut World, step: Then) {
    match step {
        Plays(text, answer) => is_answered(rt, alloc, row, world, text, answer),
        Times(count, text) => {
            for _ in 0..count {
                is_answered(rt, alloc, row, world, text, Ok(()));
            }
        }
        Holds(file, queued) => holds(rt, row, world, file, queued),
        Reports(text) => reports(rt, alloc, row, world, text),
        IsFront(length) => are_bytes(rt, row, world.file(), front(length)),
        HasPacket(place, shape) => has_packet(rt, row, world.file(), place, shape),
        Finds(found) => are_found(rt, alloc, row, world.file(), found),
        Leaves(file, found, report) => {
            holds(rt, row, world, file, 0);
            are_found(rt, alloc, row, world.file(), found);
            reports(rt, alloc, row, world, report);
        }
    }
}

/// So many bytes stand in the file, and so many items in the queue.
fn holds(rt: &impl Abort, row: &str, world: &World, file: usize, queued: usize) {
    let found = (world.file().len(), world.queued().len());
    same_in(rt, row, &found, &(file, queued));
}

/// The answer of a world to these steps.
fn is_answered(
    rt: &impl Abort,
    alloc: Global,
    row: &str,
    world: &mut World,
    text: &str,
    answer: Result<(), PlayError>,
) {
    let steps = steps_of(rt, alloc, text);
    same_in(rt, row, &world.play(&steps), &answer);
}

/// `T` is a take, `0` to `4` an offer of the channel at that index; `5` and `6` are posts of a fault for the terminal
/// at this address of the first channel, and `-` is one of a second channel.
pub(crate) fn steps_of(rt: &impl Abort, alloc: Global, text: &str) -> Vec<Step> {
    let mut steps = Vec::new(alloc);
    for letter in text.as_bytes() {
        if let Some(step) = step_of(*letter) {
            steps.push(step).expect(rt, "memory");
        }
    }
    steps
}

/// The host of the terminal at an address sets a fault.
fn fault_at(address: u8) -> HostAction {
    HostAction::Terminal {
        address,
        action: Action::Fault(true),
    }
}

/// The host of the controller has a message inserted.
fn insert() -> Option<HostAction> {
    match read_control(b"insert B mode 5 2") {
        Ok(control) => Some(HostAction::Controller(control)),
        Err(_) => None,
    }
}

fn step_of(letter: u8) -> Option<Step> {
    match letter {
        b'T' => Some(Step::Take),
        b'0'..=b'4' => Some(Step::Offer(letter - b'0')),
        b'5' | b'6' => Some(Step::Post(0, fault_at(letter.wrapping_sub(b'0')))),
        b'-' => Some(Step::Post(1, fault_at(6))),
        b'i' => Some(Step::Post(0, insert()?)),
        _ => None,
    }
}

/// The report of a world, printed.
fn reports(rt: &impl Abort, alloc: Global, row: &str, world: &World, wanted: &str) {
    let report = world.report(alloc).expect(rt, "memory");
    let text = print_report(alloc, &report).expect(rt, "memory");
    reads(rt, row, text.as_str(), wanted);
}

/// So many bytes of the foreign file.
fn front(length: usize) -> &'static [u8] {
    FOREIGN.get(..length).unwrap_or(&[])
}

/// Channel, length and flags of the packet at a place of a file.
fn shape_at(file: &[u8], place: usize) -> Option<(u16, u32, u8)> {
    let header = read_header(file.get(place..)?).ok()?;
    Some((header.channel, header.packet_length, header.flags))
}

/// A packet of a file has this shape.
fn has_packet(rt: &impl Abort, row: &str, file: &[u8], place: usize, shape: (u16, u32, u8)) {
    same_in(rt, row, &shape_at(file, place), &Some(shape));
}

/// A file, read as a recording, has these.
fn are_found(rt: &impl Abort, alloc: Global, row: &str, file: &[u8], found: &[Found]) {
    let index = Index::build(alloc, file).ok().expect(rt, row);
    for one in found {
        has(rt, row, &index, *one);
    }
}

fn has(rt: &impl Abort, row: &str, index: &Index<'_>, found: Found) {
    match found {
        Found::Messages(count) => same_in(rt, row, &index.total(), &count),
        Found::Stamp(number, stamp) => { same_in(rt, row, &stamp_of(index, number), &Some(stamp)) }
        Found::Words(number, words) => {
            are_bytes(rt, row, words_of(index, number), words);
        }
        Found::OneBehindTheOther => are_in_two_halves(rt, row, index),
    }
}

/// The stamp of a message, by its number.
fn stamp_of(index: &Index<'_>, number: u64) -> Option<u64> {
    Some(index.message(number)?.1.stamp)
}

/// The words of a message as they stand in the file; none where there is no such message.
fn words_of<'a>(index: &Index<'a>, number: u64) -> &'a [u8] {
    match index.message(number) {
        Some((_, seen)) => seen.words,
        None => &[],
    }
}

/// The channel of a message, by its number.
fn channel_of(index: &Index<'_>, number: u64) -> Option<u16> {
    Some(index.message(number)?.0)
}

/// There are twenty messages, and those of the channel of the first are the first ten.
fn are_in_two_halves(rt: &impl Abort, row: &str, index: &Index<'_>) {
    same_in(rt, row, &index.total(), &20);
    let first = channel_of(index, 1);
    for number in 1..=20u64 {
        let is_of_first = channel_of(index, number) == first;
        same_in(rt, row, &is_of_first, &(number <= 10));
    }
}

/// The jobs that these texts spell.
fn jobs_of(rt: &impl Abort, alloc: Global, texts: &[&str]) -> Vec<Job> {
    let mut jobs = Vec::new(alloc);
    for text in texts {
        jobs.push(job_of(rt, alloc, text)).expect(rt, "memory");
    }
    jobs
}

fn settings_of(rt: &impl Abort, alloc: Global, made_of: MadeOf) -> Settings {
    let mut prologue = Vec::new(alloc);
    prologue
        .extend_from_slice(front(made_of.prologue))
        .expect(rt, "memory");
    Settings {
        version: 6,
        limit: made_of.limit,
        queue: made_of.queue,
        prologue,
        posts: made_of.posts,
    }
}

/// What these jobs and settings make.
pub(crate) fn made(rt: &impl Abort, alloc: Global, made_of: MadeOf) -> Result<World, WorldError> {
    let jobs = jobs_of(rt, alloc, made_of.jobs);
    let settings = settings_of(rt, alloc, made_of);
    World::make(alloc, &jobs, &settings)
}
