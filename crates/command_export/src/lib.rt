//! The commands `bench export`, `bench signals`, `bench draw` and `bench complete`: a recording written to another
//! file, as rows or a value change dump, as values of signals, as a picture, or as the file that other tools expect.
//!
//! It may know: what commands share, files, headers, the reader, the packets of a stream, times, names of channels,
//! selections, words of a text, what runs share, `command_finishing`, `bench_export`, `bench_signals`, `bench_draw` and
//! `bench_complete`. It has no tests: each command is tried by `.ci/commands`, and its faults by `.ci/faults`. It has
//! no wrong bodies.
#![tactic(auto)]

mod channels;
pub mod completing;
pub mod drawing;
pub mod exporting;
mod forms;
pub mod signalling;
mod standing;
