//! Bytes of a recording into a sink that may fail.
//!
//! It may know: no other crate. Its tests: `ch11_tests`. Its wrong bodies: `edits/`.
#![tactic(auto)]

mod device;
mod drip;
mod flaky;
mod fuse;
mod memory;
mod ruled;
mod sink;
mod writer;

pub use device::StdSink;
pub use drip::{DripSink, OneByte};
pub use flaky::{FailsOnce, FlakySink};
pub use fuse::{Fuse, FuseSink};
pub use memory::MemorySink;
pub use ruled::{RuledSink, TakeRule};
pub use sink::{Sink, SinkFault};
pub use writer::{WriteFault, Writer};
