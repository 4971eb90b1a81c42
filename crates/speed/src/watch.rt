//! The clock by which all is timed.
use std::rt::Clock;

/// The runtime, and whether its clock goes: by one that does not, all takes no time, so that what is printed is the
/// same each time.
#[derive(Clone, Copy)]
pub(crate) struct Watch<'a> {
    pub rt: &'a HostRuntime,
    pub goes: bool,
}

impl Watch<'_> {
    /// The nanoseconds since some moment; 0 where the clock does not go, or fails.
    pub(crate) fn nanos(&self) -> u64 {
        if !self.goes {
            return 0;
        }
        match self.rt.monotonic() {
            Ok(time) => {
                time.as_secs()
                    .saturating_mul(1_000_000_000)
                    .saturating_add(u64::from(time.subsec_nanos()))
            }
            Err(_) => 0,
        }
    }

    /// The nanoseconds since a moment that `nanos` told.
    pub(crate) fn since(&self, start: u64) -> u64 {
        self.nanos().saturating_sub(start)
    }
}
