//! Bytes of a damaged recording that are no packet.

use crate::error::PacketFault;

/// Bytes that were skipped: no packet without a fault begins at any of them.
#[derive(Clone, Copy, Debug, PartialEq, Eq)]
pub struct Skip {
    /// Where they begin, in bytes from the start of the file.
    pub offset: usize,

    /// How many bytes they are, at least one.
    pub length: usize,

    /// The first fault of the packet at the first of them.
    pub fault: PacketFault,
}
