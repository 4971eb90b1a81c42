//! The messages of a MIL-STD-1553B data bus: the ten message forms, what the controller sends for each, and which
//! replies are due (MIL-STD-1553B 4.3.3.6, with Notice 2); the abstract world that frames run on, and what a test
//! asks of an outcome.
//!
//! It may know: words, mode codes, status bits. Its tests: `mil_tests`. Its wrong bodies: `edits/`.
#![tactic(auto)]

mod command;
mod drafts;
mod faults;
mod forms;
mod judge;
mod messages;
mod outcome_test;
mod parts;
mod ranges;
mod values;
mod waves;

pub use drafts::{Draft, ModeSubaddress};
pub use faults::BadMessage;
pub use forms::{Commands, Due, Form};
pub use messages::Message;
pub use outcome_test::OutcomeTest;
pub use values::Values;
pub use waves::Waves;
