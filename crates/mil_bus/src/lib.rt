//! A bus: terminals that hear and answer what a controller sends, and the talks that come of it.
//!
//! It may know: words, messages, status bits, host actions, gaps and planned faults, terminals, histories. Its
//! tests: `mil_tests`. Its wrong bodies: `edits/`.
#![tactic(auto)]

mod addresses;
mod bits;
mod buses;
mod copies;
mod counted_runs;
mod counts;
mod data_runs;
mod error;
mod hearing;
mod laws;
mod offers;
mod outcomes;
mod quieting;
mod runs;
mod saved;
mod saved_terminals;
mod sent_words;
mod talk_runs;
mod talks;
mod telling;
mod terminals;
mod times;
mod wholes;

pub use buses::Bus;
pub use counts::{Came, TalkCounts};
pub use error::BusError;
pub use laws::forty_runs_are_enough;
pub use outcomes::{Finished, Outcome};
pub use saved::SavedBus;
pub use sent_words::SentWords;
pub use talks::{Sent, Source, Talk};
