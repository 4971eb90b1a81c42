//! How long a command has been at work, for lines on a terminal that say how far it has come.
use std::io::IsTerminal;
use std::rt::Clock;
use std::time::Duration;

/// How many milliseconds pass before anything is shown.
pub const QUIET: u64 = 2000;

/// How many milliseconds lie between two lines at least.
pub const PAUSE: u64 = 200;

/// The time since something began. It is known only where anything may be shown: the errors go to a terminal, and there
/// is a clock.
#[derive(Drop)]
pub struct Elapsed<'c, C> {
    clock: &'c C,
    began: Option<Duration>,
}

impl<'c, C: Clock> Elapsed<'c, C> {
    /// The time from now on.
    pub fn begin<E: IsTerminal>(clock: &'c C, errors: &E) -> Elapsed<'c, C> {
        let began = if errors.is_terminal() {
            clock.monotonic().ok()
        } else {
            None
        };
        Elapsed { clock, began }
    }

    /// Whether anything may be shown.
    pub fn is_shown(&self) -> bool {
        self.began.is_some()
    }

    /// How many whole milliseconds have passed, as far as they can be counted.
    pub fn milliseconds(&self) -> Option<u64> {
        let began = self.began?;
        let now = self.clock.monotonic().ok()?;
        Some(milliseconds(now.saturating_sub(began)))
    }
}

/// A span in whole milliseconds, as far as they can be counted.
fn milliseconds(span: Duration) -> u64 {
    span.as_secs()
        .saturating_mul(1000)
        .saturating_add(u64::from(span.subsec_millis()))
}
