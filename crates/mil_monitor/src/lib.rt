//! What a bus monitor keeps of a message: one record for each message on the bus.
//!
//! It may know: words, the talks of a bus, recorded messages. Its tests: `mil_tests`. Its wrong bodies: `edits/`.
#![tactic(auto)]

mod observations;

pub use observations::{observe, observe_with};
