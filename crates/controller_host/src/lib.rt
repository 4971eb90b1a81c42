//! What the host of a bus controller asks for: new data words of its messages, words that move, and messages that
//! stand in no frame (own choice); and the sources of words that it has set.
//!
//! It may know: words, messages. Its tests: `frame_tests`. Its wrong bodies: `edits/`.
#![tactic(auto)]

mod controls;
mod destinations;
mod places;
mod sources;
mod values;

pub use controls::Control;
pub use destinations::Destination;
pub use sources::{Row, Source, Sources};
pub use values::{Insertion, NewWords, Ramp};
