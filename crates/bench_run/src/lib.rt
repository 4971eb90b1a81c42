//! Jobs on threads of their own, one for each bus, and one recording of them all; also runs that take posts from
//! mailboxes.
//!
//! It may know: words, messages, what the host of a controller asks for, gaps and planned faults, moments, terminals,
//! the bus, trees, code, the assembler, the loader, the controller, jobs, bodies, the builder, the reader, the writer,
//! recordings, the trunk, reports, what runs share, mailboxes. Its tests: `run_tests`. Its wrong bodies: `edits/`.
#![tactic(auto)]

mod beside;
mod by_number;
mod channel;
mod ending;
mod entry;
mod error;
mod finishing;
mod gate;
mod holding;
mod posting;
mod ready;
mod reporting;
mod running;
mod scope;
mod threads;
mod writer;

pub use error::{LiveError, RunError};
pub use gate::{Gate, OpenGate};
pub use holding::HoldingGate;
pub use running::{run, run_live};
