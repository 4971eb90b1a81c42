//! What is shown beside the figures.
ghost use Rattle.bench_stat.specs.Times.{asked_times, between_if};
ghost use Rattle.std.specs.Prelude.{◌≡◌};

use crate::channels::ChannelFigures;
use crate::times::Times;
use bench_clock::Clock;

/// What is shown of a recording beside the figures that are always shown.
#[derive(Clone, Copy, Debug, PartialEq, Eq)]
pub struct Shown {
    /// Messages that are missing, rates, gaps and status bits, and times in ms and s where they are long.
    pub long: bool,
    /// A table by terminal, direction and subaddress in place of that by terminal.
    pub by_subaddress: bool,
    /// The load over time.
    pub load: bool,
    /// The times of day of a channel's first and last message.
    pub time: bool,
}

impl Shown {
    /// Whether anything is shown that the figures and a clock do not tell.
    pub fn needs_more(&self) -> bool {
        self.long || self.by_subaddress || self.load
    }

    /// The times of day of a channel, where they are asked for.
    pub(crate) fn times_of(&self, clock: &Clock, figures: &ChannelFigures) -> Option<Times>
        ensures { between_if result ≡ asked_times self.now.time clock.now figures.now.traffic }
    {
        if self.time {
            Some(Times::of(clock, &figures.traffic))
        } else {
            None
        }
    }
}
