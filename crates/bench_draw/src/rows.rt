//! Where lanes stand from top to bottom, and what they show.

/// Where the first channel begins, in pixels from the top.
pub(crate) const TOP: u64 = 92;

/// How high the place of labels over bars is.
const LABELS: u64 = 46;

/// How high a bar is.
pub(crate) const BAR: u64 = 22;

/// How high the place of the kinds of errors under a bar is.
const KINDS: u64 = 16;

/// How high the load of a line is drawn.
pub(crate) const LOAD: u64 = 40;

/// What stands between lanes.
const BETWEEN: u64 = 14;

/// What the lanes of a picture show.
#[derive(Clone, Copy)]
pub(crate) struct Rows {
    /// Each message as a bar with a label, whatever the room.
    pub(crate) all: bool,
    /// Messages as bars.
    pub(crate) bars: bool,
    /// The load over time.
    pub(crate) load: bool,
}

/// Where a lane stands, in pixels from the top: the upper edges of its bars and of its load.
#[derive(Clone, Copy)]
pub(crate) struct Lane {
    pub(crate) bars: u64,
    pub(crate) load: u64,
}

impl Rows {
    /// How high the bars of a lane are with what stands over and under them.
    fn bars_high(&self) -> u64 {
        if self.bars { LABELS + BAR + KINDS } else { 0 }
    }

    /// How high a lane is.
    fn lane_high(&self) -> u64 {
        let load = if self.load { BETWEEN + LOAD } else { 0 };
        self.bars_high().saturating_add(load)
    }

    /// How high a channel is with so many lanes.
    pub(crate) fn channel_high(&self, lanes: usize) -> u64 {
        self.lane_high()
            .saturating_mul(lanes as u64)
            .saturating_add(BETWEEN)
    }

    /// Where so many lanes of a channel end that begins there.
    pub(crate) fn low(&self, top: u64, lanes: usize) -> u64 {
        top.saturating_add(self.lane_high().saturating_mul(lanes as u64))
    }

    /// The lane at a place of a channel that begins there.
    pub(crate) fn lane(&self, top: u64, place: usize) -> Lane {
        let top = self.low(top, place);
        let under = self.bars_high().saturating_add(BETWEEN);
        Lane {
            bars: top.saturating_add(LABELS),
            load: top.saturating_add(under),
        }
    }
}
