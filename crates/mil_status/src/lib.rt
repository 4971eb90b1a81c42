//! The bits of status words (MIL-STD-1553B 4.3.3.5.3) and of the block status words of a recording (IRIG 106-17
//! Chapter 11, MIL-STD-1553 bus data packets, Format 1), by name.
//!
//! It may know: no other crate. Its tests: `mil_tests`. Its wrong bodies: `edits/`.
#![tactic(auto)]

mod bit;
mod block;
mod status;

pub use bit::StatusBit;
pub use block::BlockBits;
pub use status::{StatusBits, status_word};
