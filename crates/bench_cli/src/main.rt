//! The program `bench`, a test bench for MIL-STD-1553B data buses with a recorder of IRIG 106-17 Chapter 11: `main`
//! alone.
//!
//! It may know: `bench_commands`. It has no tests: the program is tried by `.ci/commands`. It has no wrong bodies.
#![tactic(auto)]

use std::process::ExitCode;

fn main(rt: HostRuntime) -> ExitCode {
    bench_commands::run(&rt, &rt.stderr())
}
