//! By which line of its text each action and each fault of a job came, where one of its lines is by time or by command.
//! What stands here is found by `tracing`, and no contract says that it is so: `command_tests` try it.

use std::alloc::{AllocError, Global};
use std::fmt::Write as _;

/// What is done or planned at a message, and the line that says it.
#[derive(Clone, Copy, Debug)]
pub(crate) struct Origin {
    /// The number of the message.
    pub(crate) number: u32,
    /// The number of the line in the job's text, counted from 1.
    pub(crate) line: u64,
}

/// By which line each action and each planned fault of a job came: by rising numbers of messages, at one of them in
/// the order in which they count. It is empty of a job in which no line is by time or by command.
#[derive(Debug, Drop)]
pub struct Origins {
    pub(crate) actions: Vec<Origin>,
    pub(crate) faults: Vec<Origin>,
}

impl Origins {
    /// Of no action and no fault. It takes no memory.
    pub(crate) fn none(alloc: Global) -> Origins {
        Origins {
            actions: Vec::new(alloc),
            faults: Vec::new(alloc),
        }
    }

    /// The line of the action at a place among all of the job by rising numbers, where it is told.
    pub(crate) fn line_of_action(&self, place: usize) -> Option<u64> {
        line_at(self.actions.as_slice(), place)
    }

    /// The lines of the faults that are planned for the message of a number.
    pub(crate) fn of_faults(&self, number: u32) -> &[Origin] {
        let faults = self.faults.as_slice();
        let front = faults.partition_point(|fault| fault.number < number);
        let behind = faults.partition_point(|fault| fault.number <= number);
        match faults.get(front..behind) {
            Some(found) => found,
            None => &[],
        }
    }
}

/// The line of what stands at a place, if it is told.
pub(crate) fn line_at(origins: &[Origin], place: usize) -> Option<u64> {
    origins.get(place).map(|origin| origin.line)
}

/// Puts the number of a line behind what it says, where it is told.
pub(crate) fn put_line(text: &mut String, line: Option<u64>) -> Result<(), AllocError> {
    match line {
        Some(line) => write!(text, " (line {line})"),
        None => Ok(()),
    }
}
