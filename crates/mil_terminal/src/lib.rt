//! A remote terminal of MIL-STD-1553B with Notice 2; its definitions are queries on its history.
//!
//! It may know: words, mode codes, status bits, host actions, gaps and planned faults, histories. Its tests:
//! `mil_tests`. Its wrong bodies: `edits/`.
#![tactic(auto)]

mod addresses;
mod answering;
mod blocks;
mod by_lines;
mod commands;
mod conditions;
mod error;
mod events;
mod exactly;
mod host;
mod marks;
mod pending;
mod put_up;
mod readers;
mod registers;
mod replies;
mod saved;
mod saved_blocks;
mod saved_registers;
mod sounds;
mod switches;
mod synced;
mod terminals;
mod values;

pub use conditions::Conditions;
pub use error::TerminalError;
pub use events::Event;
pub use readers::HostConditions;
pub use replies::Reply;
pub use saved::SavedTerminal;
pub use terminals::Terminal;
pub use values::are_small;
