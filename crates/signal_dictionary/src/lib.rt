//! Dictionaries of signals: which bits of which data words a signal is, what number they spell, and the texts that
//! say so.
//!
//! It may know: rules, numbers and words of a text. Its tests: `command_tests`. Its wrong bodies: `edits/`.
#![tactic(auto)]

mod decimals;
mod fault;
mod fitting;
mod kinds;
mod line_signals;
mod namings;
mod places;
mod reading;
mod signals;
mod texts;

pub use decimals::{Decimal, decimal_of};
pub use fault::DictionaryError;
pub use reading::read_dictionary;
pub use signals::{Kind, Naming, Place, Scaling, Signal};
pub use texts::{Label, Name, Unit, is_label, is_name, is_unit, label_of};
