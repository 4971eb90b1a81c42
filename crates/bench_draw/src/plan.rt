//! Where channels stand from top to bottom, and what has lanes there.

use crate::called::lines;
use crate::extent::Extent;
use crate::rows::{Lane, Rows, TOP};
use crate::track::{By, Track};
use std::alloc::{AllocError, Global};

/// A channel in a picture: its number, what has lanes there from top to bottom, how many lanes stand in front of these,
/// and where it begins, in pixels from the top.
#[derive(Drop)]
pub(crate) struct Strip {
    pub(crate) channel: u16,
    pub(crate) tracks: Vec<Track>,
    pub(crate) before: usize,
    pub(crate) top: u64,
}

/// The channels of a picture in rising order, what their lanes show, how many lanes there are, and where the last of
/// them ends.
#[derive(Drop)]
pub(crate) struct Plan {
    pub(crate) rows: Rows,
    pub(crate) strips: Vec<Strip>,
    pub(crate) lanes: usize,
    pub(crate) low: u64,
}

impl Plan {
    /// The channels of what is to be drawn, with lanes that show this.
    pub(crate) fn of(
        alloc: Global,
        extent: &Extent,
        rows: Rows,
        by: By,
    ) -> Result<Plan, AllocError> {
        let mut plan = Plan {
            rows,
            strips: Vec::new(alloc),
            lanes: 0,
            low: TOP,
        };
        for used in extent.channels.iter() {
            let tracks = match by {
                By::Line => lines(alloc)?,
                By::Terminal => used.called.tracks(alloc)?,
            };
            plan.add(used.channel, tracks)?;
        }
        Ok(plan)
    }

    /// One more channel.
    fn add(&mut self, channel: u16, tracks: Vec<Track>) -> Result<(), AllocError> {
        let count = tracks.len();
        self.strips.push(Strip {
            channel,
            tracks,
            before: self.lanes,
            top: self.low,
        })?;
        self.lanes = self.lanes.saturating_add(count);
        self.low = self.low.saturating_add(self.rows.channel_high(count));
        Ok(())
    }

    /// The channel of this number.
    pub(crate) fn strip(&self, channel: u16) -> Option<&Strip> {
        self.strips.iter().find(|strip| strip.channel == channel)
    }
}

impl Strip {
    /// The lane at a place of the channel.
    pub(crate) fn lane(&self, rows: &Rows, place: usize) -> Lane {
        rows.lane(self.top, place)
    }

    /// Where its lanes begin and end.
    pub(crate) fn heights(&self, rows: &Rows) -> (u64, u64) {
        (self.top, rows.low(self.top, self.tracks.len()))
    }
}
