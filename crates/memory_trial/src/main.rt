//! The public calls that take memory, each under a name, for `.ci/memory`, which has one growth of memory after
//! another refused while this program makes such a call. With a name on the command line it makes that call and
//! prints what it came to; with none it prints the names, a line each.
//!
//! It may know: the crates of these calls, and `test_values`. It has no tests: `.ci/memory` runs it. It has no
//! wrong bodies.
#![tactic(auto)]

mod benches;
mod buses;
mod calls;
mod controllers;
mod jobs;
mod moves;
mod packets;
mod runs;
mod scripts;
mod told;
mod worked;

use calls::{CALLS, make_call};
use std::sync::Wait;
use std::thread::Threads;
use std::{env, io};

/// What the call of this name came to, in a word; `unknown` where there is no such call.
fn word_of<R: Threads + Wait + Sync + AllocGlobal>(rt: &R, wanted: &str) -> &'static str {
    for (name, call) in CALLS {
        if *name == wanted {
            return make_call(rt, rt.alloc(), *call).word();
        }
    }
    "unknown"
}

fn main(rt: HostRuntime) -> io::Result<()> {
    let mut words = env::args(&rt)?;
    // The first word names the program.
    let _ = words.next();
    match words.next() {
        Some(wanted) => println!(rt; "{}", word_of(&rt, wanted.as_str())),
        None => {
            for (name, _) in CALLS {
                println!(rt; "{name}")?;
            }
            Ok(())
        }
    }
}
