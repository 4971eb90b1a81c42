//! What the commands ask of the process that they run in.
use bench_files::Hold;
use std::io::IsTerminal;
use std::rt::{Clock, Env, Files};
use std::sync::Wait;
use std::thread::Threads;

/// What a command asks of the process that reads no standard input and starts no threads: words and variables, files,
/// memory, the standard output and a clock.
pub trait System: Env + Files<File: Hold> + AllocGlobal + Print + Clock {}

impl<R: Env + Files<File: Hold> + AllocGlobal + Print + Clock> System for R {}

/// What several threads use.
pub trait Shared: Clone + Drop + Send + Sync + 'static {}

impl<T: Clone + Drop + Send + Sync + 'static> Shared for T {}

/// The process that a command runs in, with its standard input and its threads besides.
pub trait Host: System + Input<Reader: IsTerminal + Send> + Threads + Wait + Shared {}

impl<R: System + Input<Reader: IsTerminal + Send> + Threads + Wait + Shared> Host for R {}

/// Where a command says what it says of faults and of its progress, from whichever thread.
pub trait Errors: Eprint + IsTerminal + Shared {}

impl<E: Eprint + IsTerminal + Shared> Errors for E {}
