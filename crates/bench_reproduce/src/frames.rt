//! Which messages of a channel recur, and the frames that send them.

use crate::pacing::Pacing;
use crate::timeline::{Played, Timeline};
use crate::turns::{LONGEST_PERIOD, PERIOD_UNIT, Step, turn_at};
use mil_word::timing::LEAST_GAP;
use std::alloc::{AllocError, Global};

/// How many messages a turn has at most.
const MOST_STEPS: usize = 1000;

/// How many turns are tried that begin at one place.
const MOST_TRIED: usize = 16;

/// How many messages may be inserted in front of one of a frame; none in front of one that no frame has.
const MOST_BETWEEN: usize = 64;

/// How often messages have to come.
const LEAST_TURNS: u32 = 3;

/// How many operations the script may have, fewer than the 4,096 of an image; a message counts as four of them at
/// least, since an image has 1,024 messages.
const MOST_OPERATIONS: usize = 4000;

const OF_MESSAGE: usize = 4;

/// How many operations the loops of a group take at most, with the frames in front of it.
const OF_LOOPS: usize = 12;

/// How many turns one `repeat` takes.
pub(crate) const MOST_TURNS: u32 = 10_000;

/// Messages that the script sends again and again.
#[derive(Debug, Drop)]
pub(crate) struct Group {
    /// The units of 100 µs that pass without a message of the script in front of it.
    pub(crate) pause: u64,
    pub(crate) steps: Vec<Step>,
    pub(crate) turns: u32,
}

/// What of a channel a script sends.
#[derive(Debug, Drop)]
pub(crate) struct Schedule {
    /// When the first message of the channel begins, in ticks, so that frames begin on their time.
    pub(crate) shift: u64,
    pub(crate) groups: Vec<Group>,
    /// Whether the script sends the message at each place; the others are inserted.
    pub(crate) sent: Vec<bool>,
}

impl Schedule {
    /// How many messages the script sends.
    pub(crate) fn count(&self) -> u64 {
        let mut count = 0u64;
        for group in self.groups.as_slice() {
            let messages = (group.steps.len() as u64).saturating_mul(u64::from(group.turns));
            count = count.saturating_add(messages);
        }
        count
    }

    /// Whether each turn begins with a frame.
    fn is_framed(&self) -> bool {
        !self
            .groups
            .as_slice()
            .iter()
            .any(|group| !is_framed(group.steps.as_slice()))
    }

    /// Whether the script sends the message at a place.
    pub(crate) fn sends(&self, place: usize) -> bool {
        match self.sent.get(place) {
            Some(sent) => *sent,
            None => false,
        }
    }
}

/// Looks for messages that recur, from the first on.
#[derive(Drop)]
struct Finder<'p> {
    alloc: Global,
    timeline: Timeline<'p>,
    pacing: Pacing,
    schedule: Schedule,
    /// Where the messages of a turn were found.
    taken: Vec<usize>,
    operations: usize,
    /// Whether turns are looked for that begin with a frame, and no others.
    framed: bool,
}

/// How far a turn goes on.
#[derive(Clone, Copy, Debug)]
struct Course {
    pause: u64,
    shift: u64,
    turns: u32,
    /// The place behind the last turn.
    next: usize,
}

/// Whether a turn begins with a frame.
fn is_framed(steps: &[Step]) -> bool {
    match steps.first() {
        Some(step) => step.frame > 0,
        None => false,
    }
}

/// How many operations a group takes.
fn operations_of(steps: &[Step], turns: u32) -> usize {
    let mut count = OF_LOOPS;
    for step in steps {
        let of_frame = if step.frame > 0 { 2 } else { 0 };
        let of_gap = if step.gap > LEAST_GAP { 2 } else { 0 };
        count = count.saturating_add(OF_MESSAGE.max(1 + of_frame + of_gap));
    }
    if turns > MOST_TURNS {
        count.saturating_mul(2)
    } else {
        count
    }
}

impl<'p> Finder<'p> {
    /// What has to pass in front of the message at a place, so that a frame begins with it: units of 100 µs, and when
    /// the channel then begins. The first group alone may choose that.
    fn pause_before(&self, from: usize) -> Option<(u64, u64)> {
        let at = self.timeline.at(from);
        if self.schedule.groups.is_empty() {
            let shift = (PERIOD_UNIT - at % PERIOD_UNIT) % PERIOD_UNIT;
            return Some((at.saturating_add(shift) / PERIOD_UNIT, shift));
        }
        let pause = at.checked_sub(self.pacing.now())?;
        if pause % PERIOD_UNIT != 0 {
            return None;
        }
        Some((pause / PERIOD_UNIT, self.timeline.shift()))
    }

    /// Finds the messages of one more turn; the place behind them.
    fn turn(
        &mut self,
        pacing: &mut Pacing,
        steps: &[Step],
        first: usize,
        from: usize,
    ) -> Result<Option<usize>, AllocError> {
        self.taken.clear();
        let most = if is_framed(steps) {
            MOST_BETWEEN + 1
        } else {
            1
        };
        let mut next = from;
        for behind in 0..steps.len() {
            let step = &steps[behind];
            if step.frame > 0 {
                pacing.open(u64::from(step.frame));
            }
            let like = first.saturating_add(behind);
            let Some(place) = pacing.meet(&self.timeline, like, step, next, most) else {
                return Ok(None);
            };
            pacing.send(&self.timeline, place);
            self.taken.push(place)?;
            next = place.saturating_add(1);
        }
        pacing.close();
        Ok(Some(next))
    }

    /// Finds as many turns as there are from a place on; with `keep` they are the script's from then on.
    fn course(
        &mut self,
        steps: &[Step],
        first: usize,
        keep: bool,
    ) -> Result<Option<Course>, AllocError> {
        let Some((pause, shift)) = self.pause_of(steps, first) else {
            return Ok(None);
        };
        let before = self.timeline.shift();
        self.timeline = self.timeline.shifted(shift);
        let mut pacing = self.pacing;
        pacing.pass(pause);
        let (mut turns, mut next) = (0u32, first);
        for _turn in 0..self.timeline.count() {
            let mut ahead = pacing;
            let Some(place) = self.turn(&mut ahead, steps, first, next)? else {
                break;
            };
            pacing = ahead;
            next = place;
            turns = turns.saturating_add(1);
            if keep {
                self.keep_turn();
            }
        }
        if keep {
            self.pacing = pacing;
        } else {
            self.timeline = self.timeline.shifted(before);
        }
        Ok(Some(Course {
            pause,
            shift,
            turns,
            next,
        }))
    }

    /// The same as of `pause_before`, where a frame begins with the first message; nothing passes where none does.
    fn pause_of(&self, steps: &[Step], from: usize) -> Option<(u64, u64)> {
        if !is_framed(steps) {
            return Some((0, self.timeline.shift()));
        }
        let (pause, shift) = self.pause_before(from)?;
        if pause / LONGEST_PERIOD > u64::from(MOST_TURNS) {
            return None;
        }
        Some((pause, shift))
    }

    /// The messages of a turn are the script's.
    fn keep_turn(&mut self) {
        for place in self.taken.as_slice() {
            if let Some(sent) = self.schedule.sent.get_mut(*place) {
                *sent = true;
            }
        }
    }

    /// The turn from a place on that goes on for the most messages, if there is one.
    fn longest(&mut self, from: usize) -> Result<Option<Vec<Step>>, AllocError> {
        let mut best: Option<Vec<Step>> = None;
        let (mut most, mut tried) = (0u64, 0usize);
        for count in 1..=MOST_STEPS {
            let past = from.saturating_add(count.saturating_mul(3));
            if past > self.timeline.count() || tried >= MOST_TRIED {
                break;
            }
            let Some(steps) = turn_at(self.alloc, &self.timeline, from, count)? else {
                continue;
            };
            tried = tried.saturating_add(1);
            if self.framed && !is_framed(steps.as_slice()) {
                continue;
            }
            let Some(course) = self.course(steps.as_slice(), from, false)? else {
                continue;
            };
            let messages = (count as u64).saturating_mul(u64::from(course.turns));
            let fits = self.has_room(steps.as_slice(), course.turns);
            if fits && course.turns >= LEAST_TURNS && messages > most {
                most = messages;
                best = Some(steps);
            }
        }
        Ok(best)
    }

    /// Whether the script has room for a group.
    fn has_room(&self, steps: &[Step], turns: u32) -> bool {
        let operations = operations_of(steps, turns);
        self.operations.saturating_add(operations) <= MOST_OPERATIONS
    }

    /// Keeps the turn from a place on that goes on for the most messages; the place behind it.
    fn group(&mut self, from: usize) -> Result<Option<usize>, AllocError> {
        let Some(steps) = self.longest(from)? else {
            return Ok(None);
        };
        let Some(course) = self.course(steps.as_slice(), from, true)? else {
            return Ok(None);
        };
        let operations = operations_of(steps.as_slice(), course.turns);
        self.operations = self.operations.saturating_add(operations);
        self.schedule.shift = course.shift;
        self.schedule.groups.push(Group {
            pause: course.pause,
            steps,
            turns: course.turns,
        })?;
        Ok(Some(course.next))
    }
}

/// Nothing that a script sends, of so many messages.
fn nothing_of(alloc: Global, count: usize) -> Result<Schedule, AllocError> {
    let mut sent = Vec::new(alloc);
    for _place in 0..count {
        sent.push(false)?;
    }
    Ok(Schedule {
        shift: 0,
        groups: Vec::new(alloc),
        sent,
    })
}

/// What of a channel recurs: from the first message on, each time the turn that goes on for the most of them; with
/// `framed` among the turns that begin with a frame.
fn found_in(alloc: Global, played: &[Played], framed: bool) -> Result<Schedule, AllocError> {
    let mut finder = Finder {
        alloc,
        timeline: Timeline::of(played, 0),
        pacing: Pacing::start(),
        schedule: nothing_of(alloc, played.len())?,
        taken: Vec::new(alloc),
        operations: 0,
        framed,
    };
    let mut from = 0usize;
    for _place in 0..played.len() {
        if from >= played.len() {
            break;
        }
        from = match finder.group(from)? {
            Some(next) => next,
            None => from.saturating_add(1),
        };
    }
    let Finder { schedule, .. } = finder;
    Ok(schedule)
}

/// What of a channel recurs, as frames. Behind a turn without a frame hardly any frame begins on its time, so turns
/// without one are left out where more messages are sent then.
pub(crate) fn schedule_of(alloc: Global, played: &[Played]) -> Result<Schedule, AllocError> {
    let any = found_in(alloc, played, false)?;
    if any.count() >= played.len() as u64 || any.is_framed() {
        return Ok(any);
    }
    let framed = found_in(alloc, played, true)?;
    if framed.count() > any.count() {
        Ok(framed)
    } else {
        Ok(any)
    }
}
