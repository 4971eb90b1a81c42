//! What tests of several crates share: recordings, texts and small types. Recordings, packets and dumps are worked
//! out by hand; an item is sent through a trunk, by `speed` too, and a screen keeps what is written to it.
//! (Comparisons stand in each crate of tests, since a function that ends a failed test may stand in no library.)
//!
//! It may know: the trunk. It has no tests: tests use it. It has no wrong bodies.
#![tactic(auto)]

mod changes;
mod dumps;
mod items;
mod packets;
mod recordings;
mod screen;

pub use changes::foreign_with;
pub use dumps::EMPTY_DUMP;
pub use items::{BOUND, Item};
pub use packets::ONE_PACKET;
pub use recordings::{FOREIGN, FOREIGN_DUMP};
pub use screen::Screen;
