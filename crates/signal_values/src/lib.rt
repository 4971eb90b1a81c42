//! The values of signals: the bits of data words that a signal names, the number that they spell, which is taken times
//! the scale plus the offset exactly, and its text.
//!
//! It may know: dictionaries of signals. Its tests: `command_tests`. Its wrong bodies: `edits/`.
#![tactic(auto)]

mod amounts;
mod exact;
mod fields;
mod readings;
mod scaling;
mod spelling;
mod texts;

pub use exact::Amount;
pub use fields::{bits_of, pair_of};
pub use readings::{Reading, reading_of};
pub use scaling::{Raw, of_decimal, scaled};
pub use spelling::parts_are_spelled;
pub use texts::{put_reading, put_told};
