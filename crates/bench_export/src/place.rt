//! Where messages stand.

/// Where a message stands.
#[derive(Clone, Copy, Debug)]
pub struct Place {
    /// Its number, counted from 1 over the file.
    pub number: u64,
    /// Its channel.
    pub channel: u16,
}
