//! Which time packets a file has.

/// How many ticks of 0.1 µs a second has.
pub(crate) const SECOND: u64 = 10_000_000;

/// The time packets of a file: one for each whole second of the relative time counter from the first up to the end,
/// which is not one of them.
#[derive(Clone, Copy, Debug)]
pub(crate) struct Times {
    /// The UTC second at tick 0, counted from 1970-01-01T00:00:00.
    pub(crate) start: u64,
    /// The channel of the time packets.
    pub(crate) channel: u16,
    /// The data type version in their headers.
    pub(crate) version: u8,
    /// The first second.
    pub(crate) first: u64,
    /// The second behind the last.
    pub(crate) end: u64,
}
