//! Where messages of a recording stand in the file: the N-th of a channel, of a selector or after a time, the
//! latest one before a place, the place before the first one, and the number of a message in its channel.
//!
//! It may know: headers, bodies, layouts, the reader, rules, selections, the dump. It has no tests of its own:
//! `command_tests` tries it by sessions of `bench_step`. Its wrong bodies: `edits/`.
#![tactic(auto)]

mod messages;
mod places;
mod sought;

pub use places::{latest_place, message_numbered, nth_place, number_in_channel, place_before};
pub use sought::Sought;
