//! The program that `benches/` times, a page for each. The first word of the command line says which page, and the
//! others what the head of that page says. It prints one line of figures, or `no figures` where the words ask for
//! none that can be had. With the word `small` alone it measures a little of each by a clock that does not go, so
//! that what is printed is the same each time: all times are 0, and all else is not.
//!
//! It may know: what it times, and `test_values`. It has no tests: what it prints with `small` is compared with its
//! file `stdout`. It has no wrong bodies.
#![tactic(auto)]

mod dump;
mod exchange;
mod gate;
mod job;
mod loads;
mod run;
mod step;
mod trunk;
mod watch;
mod words;

use std::sync::Wait;
use std::thread::Threads;
use std::{env, io};
use watch::Watch;
use words::print_figures;

/// A little of each. The files are those of the folder `data`.
const SMALL: &[&[&str]] = &[
    &["exchange", "lines", "2", "20"],
    &["exchange", "1", "20"],
    &["trunk", "2", "100", "4"],
    &["dump", "recording"],
    &["job", "first.job", "3"],
    &["job", "recording", "1"],
    &["run", "2", "2", "3", "paced", "memory"],
    &[
        "step",
        "30",
        "12",
        "recording",
        "report",
        "first.job",
        "second.job",
    ],
];

/// Prints figures, where there are any.
fn tell<const N: usize>(rt: &HostRuntime, figures: Option<[u64; N]>) -> io::Result<()> {
    match figures {
        Some(figures) => print_figures(rt, &figures),
        None => println!(rt; "no figures"),
    }
}

/// Measures what the words ask for. What starts threads is the runtime as `main` has it.
fn measure<T: Threads + Wait + Sync>(
    threads: &T,
    watch: &Watch<'_>,
    words: &[&str],
) -> io::Result<()> {
    let Some((what, rest)) = words.split_first() else {
        return Ok(());
    };
    match *what {
        "step" => tell(watch.rt, step::measured(watch, rest)),
        "run" => tell(watch.rt, run::measured(threads, watch, rest)),
        "job" => job::tell(watch, rest),
        "exchange" => exchange::tell(watch, rest),
        "trunk" => tell(watch.rt, trunk::measured(threads, watch, rest)),
        "dump" => tell(watch.rt, dump::measured(watch, rest)),
        _ => println!(watch.rt; "no figures"),
    }
}

/// Measures a little of each.
fn measure_small<T: Threads + Wait + Sync>(threads: &T, rt: &HostRuntime) -> io::Result<()> {
    let watch = Watch { rt, goes: false };
    for words in SMALL {
        measure(threads, &watch, words)?;
    }
    Ok(())
}

/// Measures what the command line asks for.
fn session<T: Threads + Wait + Sync>(
    threads: &T,
    rt: &HostRuntime,
    line: &[String],
) -> io::Result<()> {
    let mut words = Vec::new(rt.alloc());
    for word in line.iter().skip(1) {
        words.push(word.as_str())?;
    }
    if words.as_slice() == ["small"].as_slice() {
        return measure_small(threads, rt);
    }
    measure(threads, &Watch { rt, goes: true }, &words)
}

fn main(rt: HostRuntime) -> io::Result<()> {
    let mut line = Vec::new(rt.alloc());
    for word in env::args(&rt)? {
        line.push(word)?;
    }
    session(&rt, &rt, &line)
}
