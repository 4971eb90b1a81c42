//! Stretches of a recording that may be damaged.

use ch11_reader::{Packet, Skip};

/// A stretch of a recording that may be damaged.
#[derive(Clone, Copy, Debug, PartialEq, Eq)]
pub enum Stretch {
    /// A packet without a fault, as an index lists it behind those that were read before.
    Sound(Packet),

    /// The bytes up to the next such packet, or up to the end.
    Skipped(Skip),
}
