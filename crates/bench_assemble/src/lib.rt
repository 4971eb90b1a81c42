//! The command `bench assemble`: a script as the bytes of an image, and how large it is.
//!
//! It may know: scripts from their text to the loader. Its tests: `command_tests`. Its wrong bodies: `edits/`.
#![tactic(auto)]

mod assembling;
mod fault;
mod sizes;

pub use assembling::assemble_text;
pub use fault::AssembleFault;
pub use sizes::{Sizes, print_sizes};
