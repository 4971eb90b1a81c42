//! The command `bench reproduce`: the messages of a recorded channel as a job that plays them again, and what running
//! that job gives, compared with what was recorded.
//!
//! It may know: words, status bits, messages, host actions, what the host of a controller asks for, as values and as
//! text, gaps and planned faults, terminals, the bus, the monitor, trees, the text of scripts, the controller, jobs,
//! bodies, layouts, the reader, the packets of a stream, and `bench_compare`. Its tests: `command_tests`. Its wrong
//! bodies: `edits/`.
#![tactic(auto)]

mod answering;
mod breaks;
mod cases;
mod deeds;
mod edits;
mod explaining;
mod explanations;
mod fault;
mod form;
mod frames;
mod framing;
mod guesses;
mod hearing;
mod hosts;
mod judging;
mod laws;
mod mending;
mod outlook;
mod pacing;
mod planned;
mod ramps;
mod reproducing;
mod scene;
mod script;
mod styles;
mod timeline;
mod transfers;
mod turns;
mod wanted;
mod writing;

pub use fault::ReproduceFault;
pub use form::JobForm;
pub use judging::Verdict;
pub use laws::all_are_same;
pub use reproducing::{Reproduction, reproduce};
