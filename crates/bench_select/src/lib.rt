//! One way to choose messages of a recording, for all commands that look at one: by channel, line, the selector of
//! a rule, a signal that they have, errors, number and time; what its time stamps are, channel by channel; and a mark
//! for each channel.
//!
//! It may know: words, headers, bodies, layouts, the reader, the packets of a stream, rules, dictionaries of signals
//! and their values, numbers and words of a text. Its tests: `command_tests`. Its wrong bodies: `edits/`.
#![tactic(auto)]

mod bounds;
mod channels;
mod selection;
mod selectors;
mod signals;
mod stamps;

pub use bounds::{Bound, read_bound};
pub use channels::{CHANNELS, mark_channel, no_channels};
pub use selection::{Selection, is_in_span};
pub use selectors::{is_of, is_on, selects_commands};
pub use signals::{field_in, has_signal, value_in};
pub use stamps::{Stamps, read_stamps};
