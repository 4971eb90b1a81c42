//! What a frame may ask of the last outcome.
use mil_status::StatusBit;

/// A test of what a message came to; before any message each is false (own choice).
#[derive(Clone, Copy, Debug, PartialEq, Eq)]
pub enum OutcomeTest {
    /// The exchange failed.
    Failed,
    /// A reply was due and none came.
    Silent,
    /// This bit was set in a status word received (MIL-STD-1553B 4.3.3.5.3).
    Bit(StatusBit),
}
