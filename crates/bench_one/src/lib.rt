//! The command `bench one`: a message on fresh terminals, as the bytes of a packet and as lines of pairs.
//!
//! It may know: words, messages, gaps and planned faults, the bus, the monitor, recorded messages, the text of scripts,
//! the builder, numbers of a text. Its tests: `command_tests`. Its wrong bodies: `edits/`.
#![tactic(auto)]

mod fault;
mod print;
mod single;

pub use fault::OneFault;
pub use print::print_bytes;
pub use single::one;
