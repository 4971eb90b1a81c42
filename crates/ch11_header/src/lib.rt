//! The header of a packet (IRIG 106-17 Chapter 11, packet header): its fields, its 24 bytes, and which bytes are a
//! header. All numbers are little-endian.
//!
//! It may know: no other crate. Its tests: `ch11_tests`. Its wrong bodies: `edits/`.
#![tactic(auto)]

mod error;
mod header;
pub mod kinds;
mod laws;

pub use error::HeaderError;
pub use header::{HEADER_SIZE, Header, OVERFLOW, read_header, write_header};
pub use laws::written_is_read;
