//! Calls on the debugger.
use crate::told::Told;
use crate::worked::{HUNDRED, jobs_of};
use bench_core::one_channel;
use bench_report::{Report, read_report};
use ch11_reader::Index;
use ch11_writer::MemorySink;
use frame_text::read_cond;
use frame_tree::Cond;
use job_file::Job;
use replay::{Replay, ReplayError};
use std::alloc::Global;

/// The report of the job's run.
const REPORT: &str = "channel 1\nmade 100\nplaced 3 5 busy on\nplaced 70 5 busy off\npackets 1\n";

/// What is asked of the debugger: to open, or to move from place 68, from where on the terminal is busy up to message
/// 70.
#[derive(Clone, Copy)]
enum Asked<'a> {
    Open,
    Forward,
    Back,
    Go,
    Find(&'a Cond<Global>),
    FindBack(&'a Cond<Global>),
}

/// The place, and the number and the clock of the controller.
fn seen(replay: &Replay<'_>) -> (u64, u32, u64) {
    if replay.jobs() == 0 {
        return (0, 0, 0);
    }
    let machine = replay.state(0);
    (replay.place(), machine.number(), machine.bus().clock())
}

/// Makes what is asked.
fn go_there(replay: &mut Replay<'_>, asked: Asked<'_>) -> Result<(), ReplayError> {
    match asked {
        Asked::Open => Ok(()),
        Asked::Forward => replay.forward(),
        Asked::Back => replay.back(),
        Asked::Go => replay.go(90),
        Asked::Find(condition) => replay.find(condition),
        Asked::FindBack(condition) => replay.find_back(condition),
    }
}

/// Where what is asked leads.
fn aim(asked: Asked<'_>) -> u64 {
    match asked {
        Asked::Open => 0,
        Asked::Forward => 69,
        Asked::Back => 67,
        Asked::Go => 90,
        Asked::Find(_) => 70,
        Asked::FindBack(_) => 66,
    }
}

/// A move that is refused leaves place and state as they were, and leads where it should once it is made again.
fn moved(replay: &mut Replay<'_>, asked: Asked<'_>) -> Told {
    if replay.go(68).is_err() {
        return Told::Early;
    }
    let before = seen(replay);
    let first = go_there(replay, asked);
    let there = replay.place() == aim(asked);
    let same = seen(replay) == before;
    match first {
        Ok(()) => Told::well(there && !same),
        Err(ReplayError::Memory) => {
            let again = go_there(replay, asked).is_ok();
            Told::refused(same && again && replay.place() == aim(asked))
        }
        Err(_) => Told::Wrong,
    }
}

/// What is asked of a debugger that has opened.
fn from_there(replay: &mut Replay<'_>, asked: Asked<'_>) -> Told {
    match asked {
        Asked::Open => Told::well(replay.total() == 100),
        _ => moved(replay, asked),
    }
}

/// What is asked of a debugger that has not opened.
fn not_open(error: ReplayError, asked: Asked<'_>) -> Told {
    match (error, asked) {
        (ReplayError::Memory, Asked::Open) => Told::Refused,
        (_, Asked::Open) => Told::Wrong,
        _ => Told::Early,
    }
}

// (Each of the four below has one thing more of those that the debugger needs, and lets go of no other.)
fn of_index(
    alloc: Global,
    jobs: &[Job],
    report: &Report,
    index: Index<'_>,
    asked: Asked<'_>,
) -> Told {
    match Replay::open(alloc, jobs, report, index) {
        Ok(mut replay) => from_there(&mut replay, asked),
        Err(error) => not_open(error, asked),
    }
}

fn of_report(alloc: Global, jobs: &[Job], file: &[u8], report: &Report, asked: Asked<'_>) -> Told {
    match Index::build(alloc, file) {
        Ok(index) => of_index(alloc, jobs, report, index, asked),
        Err(_) => Told::Early,
    }
}

fn of_file(alloc: Global, jobs: &[Job], file: &[u8], asked: Asked<'_>) -> Told {
    match read_report(alloc, REPORT.as_bytes()) {
        Ok(report) => of_report(alloc, jobs, file, &report, asked),
        Err(_) => Told::Early,
    }
}

fn of_jobs(alloc: Global, jobs: &[Job], asked: Asked<'_>) -> Told {
    match recorded(alloc, jobs) {
        Some(file) => of_file(alloc, jobs, file.bytes(), asked),
        None => Told::Early,
    }
}

/// The file of the run of the first job; None where memory is refused.
fn recorded(alloc: Global, jobs: &[Job]) -> Option<MemorySink> {
    one_channel(alloc, jobs.first()?, 6, 65_536, MemorySink::make(alloc)).ok()
}

/// What is asked of the debugger, of the run of a hundred messages.
fn tried(alloc: Global, asked: Asked<'_>) -> Told {
    match jobs_of(alloc, &[HUNDRED]) {
        Some(jobs) => of_jobs(alloc, &jobs, asked),
        None => Told::Early,
    }
}

/// `Replay::open`.
pub(crate) fn opened(alloc: Global) -> Told {
    tried(alloc, Asked::Open)
}

/// `Replay::forward`.
pub(crate) fn forward(alloc: Global) -> Told {
    tried(alloc, Asked::Forward)
}

/// `Replay::back`.
pub(crate) fn back(alloc: Global) -> Told {
    tried(alloc, Asked::Back)
}

/// `Replay::go`.
pub(crate) fn go(alloc: Global) -> Told {
    tried(alloc, Asked::Go)
}

/// `Replay::find`.
pub(crate) fn found(alloc: Global) -> Told {
    match read_cond(alloc, b"not bit busy") {
        Ok(condition) => tried(alloc, Asked::Find(&condition)),
        Err(_) => Told::Early,
    }
}

/// `Replay::find_back`: to the latest message before whose terminal is the other one, 9.
pub(crate) fn found_back(alloc: Global) -> Told {
    match read_cond(alloc, b"not bit busy") {
        Ok(condition) => tried(alloc, Asked::FindBack(&condition)),
        Err(_) => Told::Early,
    }
}
