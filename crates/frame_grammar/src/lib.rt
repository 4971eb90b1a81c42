//! The grammar of scripts as rules, and the laws that what is read of a text is what they derive (own choice).
//!
//! It may know: words, messages, status bits, trees, the text of scripts, numbers of a text. It has no tests: it is
//! laws alone. It has no wrong bodies.
#![tactic(auto)]

mod laws;

pub use laws::{conditions_are_derived, one_tree, scripts_are_derived, sends_are_derived};
