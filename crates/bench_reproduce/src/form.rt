//! The form of a job.

/// How a job has the messages that it plays.
#[derive(Clone, Copy, Debug, PartialEq, Eq)]
pub enum JobForm {
    /// Each is inserted at its time, and the script is empty.
    Inserts,
    /// Those that recur are sent by frames of the script, and the others are inserted.
    Frames,
}
