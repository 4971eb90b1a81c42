//! The words of a MIL-STD-1553B data bus: a word and its wave of forty half bits, the fields of command and status
//! words, and lists of data words.
//!
//! It may know: no other crate. Its tests: `mil_tests`. Its wrong bodies: `edits/`.
#![tactic(auto)]

mod code;
mod commands;
pub mod fields;
mod lists;
mod statuses;
mod tables;
pub mod timing;
mod waves;

pub use code::{decode, encode, raw_bits};
pub use commands::Command;
pub use lists::copied;
pub use statuses::Status;
pub use waves::Wave;

/// One of the two redundant lines of a bus (MIL-STD-1553B 4.6).
#[derive(Clone, Copy, Debug, PartialEq, Eq)]
pub enum Line {
    A,
    B,
}

/// The sync of a word: command and status words have the one, data words the other
/// (MIL-STD-1553B 4.3.3.5.1.1, 4.3.3.5.2.1, 4.3.3.5.3.1).
#[derive(Clone, Copy, Debug, PartialEq, Eq)]
pub enum Sync {
    CommandSync,
    DataSync,
}

/// A word: its sync and its 16 information bits. The parity bit follows from these.
#[derive(Clone, Copy, Debug, PartialEq, Eq)]
pub struct Word {
    pub sync: Sync,
    pub value: u16,
}

/// A data word of zeros.
impl Default for Word {
    ghost use Rattle.mil_word.specs.declared.Sync.TheVariants.{DataSync};
    ghost use Rattle.std.specs.Prelude.{◌≡◌};

    ghost is_default = { λ w. w ≡ record { sync = DataSync; value = 0 } };

    fn default() -> Word {
        Word {
            sync: Sync::DataSync,
            value: 0,
        }
    }
}
