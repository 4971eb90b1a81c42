//! Whether a recording can be read, as its bytes come (IRIG 106-17 Chapter 11): a first pass over a file whose
//! second pass then prints something.
//!
//! It may know: the packets of a stream. Its tests: `ch11_stream_tests`. Its wrong bodies: `edits/`.
#![tactic(auto)]

mod checking;

pub use checking::check;
