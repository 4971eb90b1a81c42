//! The bus controller (own choice): a loaded program under way on a real bus, step by step, with what its host asks
//! for; and lists of placed actions, in rows of 16 bytes.
//!
//! It may know: words, messages, status bits, host actions, what the host of a controller asks for, gaps and planned
//! faults, the bus, the monitor, recorded messages, histories, code, the loader. Its tests: `frame_tests`. Its wrong
//! bodies: `edits/`.
#![tactic(auto)]

mod action_rows;
mod actions;
mod agenda;
mod asking;
mod begun;
mod beside;
mod ended;
mod frames;
mod laws;
mod lookup;
mod machine;
mod made;
mod next_message;
mod outcomes;
mod parts;
mod placed;
mod planning;
mod posting;
mod progress;
mod queue;
mod saved;
mod schedule;
mod sending;
mod stack;
mod upcoming;

pub use actions::Actions;
use ch11_f1::Record;
pub use ended::Ended;
pub use frames::Closing;
pub use laws::{
    BusSetting, actions_to_come_are_free, controller_runs, faults_to_come_are_free,
    next_message_is_sent, next_message_stays,
};
pub use machine::Machine;
pub use next_message::NextMessage;
pub use outcomes::asks;
pub use placed::{HostAction, Placed};
pub use saved::Saved;
pub use schedule::Schedule;
pub use upcoming::Upcoming;

/// What a step came to.
#[derive(Debug, Drop, PartialEq, Eq)]
pub enum Stepped {
    /// An operation that sends nothing.
    Ran,
    /// A message of the script was sent; this is its record.
    Sent(Record),
    /// A message was sent that the host of the controller had inserted; this is its record.
    Inserted(Record),
    /// The program has ended, and no inserted message waits; every later step is Halted too, until one is placed at the
    /// next message.
    Halted,
}
