//! What the terminals of a bus hold, as lines: their registers, what their hosts set, and their data words; and what
//! the host of the controller has asked for.
//!
//! It may know: words, host actions, what the host of a controller asks for, as values and as text, terminals, the
//! bus, placed actions, words of a text. It has no tests of its own: `command_tests` tries it by the lines of state
//! and of data in sessions of `bench_step`. Its wrong bodies: `edits/`.
#![tactic(auto)]

mod controller;
mod data;
mod details;
mod marks;
mod printing;
mod ramps;
mod states;

pub use details::Detail;
pub use states::print_channel;
