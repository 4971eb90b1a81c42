//! Laws over all layers: what the bench records of a message without a planned fault is what the standard says is
//! due, and is clean.
//!
//! It may know: words, mode codes, host actions, messages, terminals, the bus, the monitor, bodies, layouts, the
//! judge. It has no tests: it is laws alone. It has no wrong bodies.
#![tactic(auto)]

mod laws;

pub use laws::{
    message_to_all_is_clean, message_to_one_is_clean, nobody_answers_all, one_replies,
    transfer_is_clean, transfer_to_all_is_clean,
};
