//! When a planned fault is due.
ghost use Rattle.job_moments.specs.Counting.{HasCounter};
ghost use Rattle.job_moments.specs.Planning.{counted_of, is_turn, is_occasion, AreApart, IsNextTurn, MayStand};
ghost use Rattle.job_moments.specs.Quiet.{IsPart, Sleeps};
ghost use Rattle.std.specs.Prelude.{◌≡◌, ◌+◌, ◌<◌, ◌≤◌, ℕ, false, length};

use crate::counts::Counts;
use crate::met::Met;
use crate::moments::Moment;
use crate::quiet::Quiet;
use judge_rules::Selector;

/// Places from `first` to `last`, both 1 to 1,000,000, of which each is `step` (1 to 1,000,000) behind the one before.
#[derive(Clone, Copy, Debug, PartialEq, Eq)]
pub struct Turns {
    pub first: u32,
    pub last: u32,
    pub step: u32,
}

impl Turns {
    /// Whether a place is one of them.
    pub(crate) fn has(self, place: u32) -> bool
        requires { AreApart self }
        ensures { result ≡ is_turn self place }
    {
        self.first <= place && place <= self.last && (place - self.first) % self.step == 0
    }

    /// A place at or behind another, in front of which none of them comes; None where none of them comes any more.
    pub(crate) fn next(self, place: u32) -> Option<u32>
        requires { AreApart self }
        ensures { IsNextTurn self place result }
    {
        if place <= self.first {
            return Some(self.first);
        }
        if self.last < place {
            return None;
        }
        match (place - self.first) % self.step {
            0 => Some(place),
            over => Some(place.saturating_add(self.step - over)),
        }
    }
}

/// Those of some messages at which none of these places can have come, where so many of those that count were made, and
/// so many messages in all.
fn before_turn(quiet: Quiet, turns: Turns, count: u32, number: u32) -> Quiet
    requires few { count ≤ 1000000 }
    requires apart { AreApart turns }
    ensures part { IsPart result quiet }
    ensures turns { (place : ℕ) → count < place → place + number < result.wake + count + 1
        → is_turn turns place ≡ false }
{
    match turns.next(count + 1) {
        Some(place) => quiet.before_place(place, count, number),
        None => quiet,
    }
}

/// When a planned fault is due: at the message that is sent.
#[derive(Clone, Copy, Debug, PartialEq, Eq)]
pub enum Occasion {
    /// At the messages of these numbers.
    Numbers(Turns),
    /// At the first message that starts at a time or later, or at the one of a place among those that a selector is
    /// about.
    Once(Moment),
    /// At the messages of these places among those that a selector is about.
    Places {
        selector: Selector,
        turns: Turns,
    },
    /// At each message that a selector is about and that starts in this time, 0 to 2^47 ticks of 0.1 µs from the job's
    /// start tick on, with its first and its last tick.
    Window {
        selector: Selector,
        from: u64,
        to: u64,
    },
}

impl Occasion {
    /// The selector whose messages count for it, if any do.
    pub(crate) fn selector(self) -> Option<Selector>
        ensures { result ≡ counted_of self }
    {
        match self {
            Occasion::Once(moment) => moment.selector(),
            Occasion::Places { selector, .. } => Some(selector),
            Occasion::Numbers(_) | Occasion::Window { .. } => None,
        }
    }

    /// Whether the message that comes next is one of them, where its counter has a place.
    pub(crate) fn is_next(self, counter: usize, counts: &Counts, next: &Met) -> bool
        requires few { length counts.now.made < 1000000 }
        requires stands { MayStand self }
        requires counter { HasCounter counts.now.selectors counter (counted_of self) }
        ensures { result ≡ is_occasion counts.now.made next.now self }
    {
        match self {
            Occasion::Numbers(turns) => turns.has(counts.number() + 1),
            Occasion::Once(Moment::Time(ticks)) => ticks <= next.start && !counts.has_met(ticks),
            Occasion::Once(Moment::Nth { selector, place }) => {
                next.is_of(selector) && counts.count(counter) + 1 == place
            }
            Occasion::Places { selector, turns } => {
                next.is_of(selector) && turns.has(counts.count(counter) + 1)
            }
            Occasion::Window { selector, from, to } => {
                next.is_of(selector) && from <= next.start && next.start <= to
            }
        }
    }

    /// Those of some messages in front of which none of them comes, where its counter has a place. Of a window those
    /// behind it, where a start, that of the last message, lies behind it.
    pub(crate) fn narrowed(self, quiet: Quiet, counter: usize, counts: &Counts, start: u64) -> Quiet
        requires few { length counts.now.made ≤ 1000000 }
        requires stands { MayStand self }
        requires counter { HasCounter counts.now.selectors counter (counted_of self) }
        ensures part { IsPart result quiet }
        ensures sleeps { Sleeps result counts.now.made (λ made next. is_occasion made next self) }
    {
        match self {
            Occasion::Numbers(turns) => before_turn(quiet, turns, counts.number(), counts.number()),
            Occasion::Once(Moment::Time(ticks)) => {
                if counts.has_met(ticks) {
                    quiet
                } else {
                    quiet.starting_before(ticks)
                }
            }
            Occasion::Once(Moment::Nth { selector, place }) => {
                Moment::Nth { selector, place }.narrowed(quiet, counter, counts)
            }
            Occasion::Places { turns, .. } => {
                before_turn(quiet, turns, counts.count(counter), counts.number())
            }
            Occasion::Window { from, to, .. } => {
                if to < start {
                    quiet.starting_from(to + 1)
                } else {
                    quiet.starting_before(from)
                }
            }
        }
    }
}
