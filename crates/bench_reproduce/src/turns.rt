//! A turn: messages that a controller sends again and again, and how they are timed.

use crate::timeline::Timeline;
use mil_word::timing::LEAST_GAP;
use std::alloc::{AllocError, Global};

/// How many ticks of 0.1 µs a unit of a frame's period has: 100 µs.
pub(crate) const PERIOD_UNIT: u64 = 1000;

/// The longest period of a frame, in these units.
pub(crate) const LONGEST_PERIOD: u64 = 65_535;

/// The longest gap that a script may ask for, in ticks.
const LONGEST_GAP: u64 = 65_535;

/// A message of a turn.
#[derive(Clone, Copy, Debug)]
pub(crate) struct Step {
    /// The period of the frame that begins with it, in units of 100 µs; 0 where none begins.
    pub(crate) frame: u16,
    /// The gap that the script asks for in front of it, in ticks.
    pub(crate) gap: u16,
}

/// Whether so many messages from a place on come three times in a row, by their commands.
fn recurs(timeline: &Timeline<'_>, from: usize, count: usize) -> bool {
    for ahead in 0..count.saturating_mul(2) {
        let place = from.saturating_add(ahead);
        if !timeline.is_like(place, place.saturating_add(count)) {
            return false;
        }
    }
    true
}

/// The places of a message in three turns.
fn places(from: usize, count: usize) -> [usize; 3] {
    let second = from.saturating_add(count);
    [from, second, second.saturating_add(count)]
}

/// The gap that a script may ask for in front of a message, so that it comes as it did in three turns; the least one
/// where it came at once each time.
fn common_gap(timeline: &Timeline<'_>, from: usize, count: usize) -> Option<u16> {
    let mut gap = u64::from(LEAST_GAP);
    for place in places(from, count) {
        let (kept, least) = timeline.gaps(place);
        if kept > least {
            gap = gap.max(kept);
        }
    }
    for place in places(from, count) {
        if timeline.start_by(place, gap) != timeline.at(place) {
            return None;
        }
    }
    if gap > LONGEST_GAP {
        return None;
    }
    Some(gap as u16)
}

/// How long a message comes behind an earlier one of its turn, in ticks, where it is the same in three turns.
fn common_distance(
    timeline: &Timeline<'_>,
    from: usize,
    behind: usize,
    count: usize,
) -> Option<u64> {
    let mut common = None;
    for place in places(from, count) {
        let later = timeline.at(place.saturating_add(behind));
        let distance = later.saturating_sub(timeline.at(place));
        match common {
            None => common = Some(distance),
            Some(other) if other == distance => {}
            Some(_) => return None,
        }
    }
    common
}

/// How long the turns take that begin at a place, in ticks, where each takes a period that a frame may have.
fn common_period(timeline: &Timeline<'_>, from: usize, count: usize) -> Option<u64> {
    let [first, second, third] = places(from, count);
    let period = timeline.at(second).saturating_sub(timeline.at(first));
    let next = timeline.at(third).saturating_sub(timeline.at(second));
    if period == next && period > 0 && period % PERIOD_UNIT == 0 {
        Some(period)
    } else {
        None
    }
}

/// How a message is timed within three turns; None where a script can't time it so. A frame that begins with it has no
/// period yet.
fn step_in(
    timeline: &Timeline<'_>,
    from: usize,
    behind: usize,
    count: usize,
    framed: bool,
) -> Option<Step> {
    let begins = Step {
        frame: 1,
        gap: LEAST_GAP,
    };
    if framed && behind == 0 {
        return Some(begins);
    }
    let gap = common_gap(timeline, from.saturating_add(behind), count);
    if framed && gap != Some(LEAST_GAP) {
        if let Some(distance) = common_distance(timeline, from, behind, count) {
            if distance % PERIOD_UNIT == 0 {
                return Some(begins);
            }
        }
    }
    Some(Step {
        frame: 0,
        gap: gap?,
    })
}

/// Gives the frames of a turn their periods, so that together they take that of the turn, in ticks; false where one is
/// none that a frame may have.
fn give_periods(timeline: &Timeline<'_>, from: usize, steps: &mut [Step], period: u64) -> bool {
    let begin = timeline.at(from);
    let mut end = period;
    for back in 0..steps.len() {
        let behind = steps.len().saturating_sub(back + 1);
        let Some(step) = steps.get_mut(behind) else {
            return false;
        };
        if step.frame == 0 {
            continue;
        }
        let own = timeline
            .at(from.saturating_add(behind))
            .saturating_sub(begin);
        let units = end.saturating_sub(own) / PERIOD_UNIT;
        if units == 0 || units > LONGEST_PERIOD {
            return false;
        }
        step.frame = units as u16;
        end = own;
    }
    true
}

/// How the messages of a turn are timed, so many from a place on, where they come three times in the same way.
pub(crate) fn turn_at(
    alloc: Global,
    timeline: &Timeline<'_>,
    from: usize,
    count: usize,
) -> Result<Option<Vec<Step>>, AllocError> {
    if !recurs(timeline, from, count) {
        return Ok(None);
    }
    let period = common_period(timeline, from, count);
    let mut steps = Vec::new(alloc);
    for behind in 0..count {
        match step_in(timeline, from, behind, count, period.is_some()) {
            Some(step) => steps.push(step)?,
            None => return Ok(None),
        }
    }
    let fits = match period {
        Some(period) => give_periods(timeline, from, steps.as_mut_slice(), period),
        None => true,
    };
    Ok(if fits { Some(steps) } else { None })
}
