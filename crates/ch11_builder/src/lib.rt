//! The records of a channel as packets (IRIG 106-17 Chapter 11, MIL-STD-1553 bus data packets, Format 1).
//!
//! It may know: gaps and planned faults, headers, bodies, histories. Its tests: `ch11_tests`. Its wrong bodies:
//! `edits/`.
#![tactic(auto)]

mod builder;
mod error;
mod laws;
mod numbered;
mod packing;
mod sealing;

pub use builder::{Builder, Pushed};
pub use error::BuilderError;
pub use laws::{cutting_is_one, packet_is_read_again, run_gives_the_packets};
