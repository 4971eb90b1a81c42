//! Jobs of several texts, read together.
use crate::tests::equal::{is_fault, same};
use crate::tests::jobs::{Numbers, RETRIES, numbers};
use job_file::{Job, JobsError, read_jobs};
use std::alloc::Global;
use std::process::Abort;

/// Three texts, and the numbers of their jobs.
const READ: &[([&str; 3], [Numbers; 3])] = &[
    (
        [
            "channel 7\nscript\nsend A mode 5 1",
            "channel 3\nscript\n",
            "channel 5\nscript\nrepeat 2 { gap 40 if fail { send B mode 5 1 } }",
        ],
        [(7, 2, 1), (3, 1, 0), (5, 16, 2)],
    ),
    (
        [RETRIES, RETRIES, RETRIES],
        [(1, 47, 9), (1, 47, 9), (1, 47, 9)],
    ),
];

/// A terminal that is named twice.
const TWICE: &str = "channel 1\nterminal 5\nterminal 5";

/// A text with no channel.
const NAMELESS: &str = "terminal 5\nscript";

/// A script with a repeat of nothing.
const NO_ROUNDS: &str = "channel 1\nterminal 5\nscript\nrepeat 0 { }";

/// Three texts, the place of the first that is refused, and its fault.
const REFUSED: &[([&str; 3], usize, &str)] = &[
    ([RETRIES, TWICE, NAMELESS], 1, "J4 line 3"),
    ([NAMELESS, TWICE, RETRIES], 0, "J3 line 2"),
    ([RETRIES, RETRIES, NO_ROUNDS], 2, "J7 line 4 column 8 S7"),
];

/// The jobs that three texts spell.
fn read(alloc: Global, texts: &[&str; 3]) -> Result<Vec<Job>, JobsError> {
    let [first, second, third] = texts;
    let bytes = [first.as_bytes(), second.as_bytes(), third.as_bytes()];
    read_jobs(alloc, &bytes)
}

/// Three texts spell jobs of these numbers.
fn are_read(rt: &impl Abort, alloc: Global, texts: &[&str; 3], wanted: &[Numbers]) {
    let jobs = read(alloc, texts).expect(rt, "jobs");
    same(rt, &jobs.len(), &wanted.len());
    for (job, one) in jobs.iter().zip(wanted) {
        same(rt, &numbers(job), one);
    }
}

/// No texts are no jobs.
fn are_none(alloc: Global) -> bool {
    match read_jobs(alloc, &[]) {
        Ok(jobs) => jobs.is_empty(),
        Err(_) => false,
    }
}

/// Which of three texts is refused first, and what is printed of its fault.
fn is_refused(rt: &impl Abort, alloc: Global, texts: &[&str; 3], index: usize, fault: &str) {
    let found = read(alloc, texts).err();
    is_fault(rt, alloc, fault, found, fault);
    if let Some(error) = found {
        same(rt, &error.index, &index);
    }
}

#[test]
fn jobs_in_the_order_of_their_texts(rt: HostRuntime) {
    for (texts, wanted) in READ {
        are_read(&rt, rt.alloc(), texts, wanted);
    }
    same(&rt, &are_none(rt.alloc()), &true);
    for (texts, index, fault) in REFUSED {
        is_refused(&rt, rt.alloc(), texts, *index, fault);
    }
}
