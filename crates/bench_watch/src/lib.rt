//! Recordings that are read more than once: files that are opened anew for each pass and pass bytes by a seek, and
//! the line at a terminal that tells how far a pass has come, with when it is due.
//!
//! It may know: the packets of a stream. Its tests: `ch11_stream_tests`, of what is opened anew; the line that
//! tells how far a pass has come is not tested. Its wrong bodies: `edits/`.
#![tactic(auto)]

mod elapsed;
mod reopen;
mod system_file;
mod watching;

pub use elapsed::{Elapsed, PAUSE, QUIET};
pub use reopen::Reopen;
pub use system_file::SystemFile;
pub use watching::{Watch, Watched};
