//! Files that are written beside their place, by one process at a time, and take it once they are whole, so that
//! what was there is kept until then.
//!
//! It may know: lines of a text. It has no tests: files are tried by `.ci/commands`. Its wrong bodies: `edits/`.
#![tactic(auto)]

mod beginnings;
mod error;
mod kind;
mod names;
mod out_file;
mod part;
mod place;

pub use beginnings::is_of_kind;
pub use error::OutError;
pub use kind::Kind;
pub use names::{followed, part_of};
pub use out_file::OutFile;
pub use place::{Hold, leads_to_output, refuse_other_kind};
