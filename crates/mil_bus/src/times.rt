//! The ticks that a bus keeps of its talks.

/// When talks start, and when words ended, in ticks of 0.1 µs.
#[derive(Clone, Copy)]
pub(crate) struct Times {
    /// When the first talk starts.
    pub begin: u64,
    /// No talk starts before this.
    pub least_start: u64,
    /// When the last word on either line ended; `begin` before any talk.
    pub clock: u64,
    /// The least gap before the next talk; none before any talk.
    pub least: Option<u16>,
    /// When the last word on line A ended, if there was one.
    pub on_a: Option<u64>,
    /// When the last word on line B ended, if there was one.
    pub on_b: Option<u64>,
}
