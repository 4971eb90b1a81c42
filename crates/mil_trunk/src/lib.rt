//! One bounded queue that several buses share with one writer: what was sent is what is received, once and in
//! order.
//!
//! It may know: no other crate; the kit's `crossbeam_queue`. Its tests: `mil_tests`. Its wrong bodies: `edits/`.
#![tactic(auto)]

mod error;
mod rule;
mod tags;
mod trunk;

pub use error::TrunkError;
pub use tags::{Tagged, Tags};
pub use trunk::{Taker, Ticket, Trunk};
