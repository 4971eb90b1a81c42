//! When a controller is at the frames of a script: what its operations do to its time.

use crate::timeline::Timeline;
use crate::turns::{PERIOD_UNIT, Step};

/// The time of a controller between two messages of its script, in ticks.
#[derive(Clone, Copy, Debug)]
pub(crate) struct Pacing {
    /// Before this tick no message of the script starts.
    least_start: u64,
    /// When the open frame began.
    begin: u64,
    /// Its period; 0 where none is open.
    period: u64,
    /// When the latest message of the script ended.
    ended: u64,
}

impl Pacing {
    /// In front of the script.
    pub(crate) fn start() -> Pacing {
        Pacing {
            least_start: 0,
            begin: 0,
            period: 0,
            ended: 0,
        }
    }

    /// Now: a frame that is opened begins then.
    pub(crate) fn now(&self) -> u64 {
        self.ended.max(self.least_start)
    }

    /// Closes the open frame, if one is open.
    pub(crate) fn close(&mut self) {
        if self.period > 0 {
            let end = self.begin.saturating_add(self.period);
            self.least_start = self.least_start.max(end);
            self.period = 0;
        }
    }

    /// Opens a frame of so many units of 100 µs.
    pub(crate) fn open(&mut self, units: u64) {
        self.close();
        self.begin = self.now();
        self.period = units.saturating_mul(PERIOD_UNIT);
    }

    /// Lets so many units of 100 µs pass without a message.
    pub(crate) fn pass(&mut self, units: u64) {
        if units > 0 {
            self.open(units);
            self.close();
        }
    }

    /// Where the script's next message is found in the recording, among so many from a place on, by its commands, which
    /// are those of an earlier message, and by its start; those in front of it are inserted. None where it is not found
    /// there, or one of these comes too early for the gap that the script asks for.
    pub(crate) fn meet(
        &self,
        timeline: &Timeline<'_>,
        like: usize,
        step: &Step,
        from: usize,
        most: usize,
    ) -> Option<usize> {
        for ahead in 0..most {
            let place = from.saturating_add(ahead);
            if place >= timeline.count() {
                return None;
            }
            let due = timeline.start_by(place, u64::from(step.gap));
            let at = timeline.at(place);
            if at == due.max(self.least_start) && timeline.is_like(place, like) {
                return Some(place);
            }
            if at < due {
                return None;
            }
        }
        None
    }

    /// Sends a message of the script that is found at a place.
    pub(crate) fn send(&mut self, timeline: &Timeline<'_>, place: usize) {
        self.ended = timeline.end(place);
    }
}
