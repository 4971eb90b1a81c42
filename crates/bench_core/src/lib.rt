//! The bench one step at a time: every interleaving of buses, hosts and writer; and one channel from its job to a
//! recording.
//!
//! It may know: words, messages, what the host of a controller asks for, gaps and planned faults, the bus, the monitor,
//! trees, the assembler, the controller, jobs, bodies, the builder, the reader, the writer, recordings, reports, what
//! runs share, histories. Its tests: `bench_tests`. Its wrong bodies: `edits/`.
#![tactic(auto)]

mod alone;
mod channel_fault;
mod error;
mod laws;
mod play;
mod posted;
mod step;
mod stepped_channel;
mod stepping;
mod world;
mod writing;

pub use alone::one_channel;
pub use channel_fault::ChannelFault;
pub use error::PlayError;
pub use laws::bench_is_settled;
pub use step::Step;
pub use world::World;
