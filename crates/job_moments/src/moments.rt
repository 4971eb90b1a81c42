//! A moment by time or by command.
ghost use Rattle.job_moments.specs.Counting.{HasCounter};
ghost use Rattle.job_moments.specs.Moments.{counted_for, is_due};
ghost use Rattle.job_moments.specs.Quiet.{IsPart, Sleeps};
ghost use Rattle.std.specs.Prelude.{◌≡◌, ◌<◌, ◌≤◌, length};

use crate::counts::Counts;
use crate::met::Met;
use crate::quiet::Quiet;
use judge_rules::Selector;

/// When something is due.
#[derive(Clone, Copy, Debug, PartialEq, Eq)]
pub enum Moment {
    /// In front of the first message that starts at this time or later: 0 to 2^47 ticks of 0.1 µs from the job's start
    /// tick on.
    Time(u64),
    /// In front of one of the messages that a selector is about: the first of them has the place 1, the last that may
    /// be named 1,000,000.
    Nth { selector: Selector, place: u32 },
}

impl Moment {
    /// The selector whose messages count for it, if any do.
    pub(crate) fn selector(self) -> Option<Selector>
        ensures { result ≡ counted_for self }
    {
        match self {
            Moment::Time(_) => None,
            Moment::Nth { selector, .. } => Some(selector),
        }
    }

    /// Whether it is due in front of a message, where its counter has a place.
    pub(crate) fn is_due(self, counter: usize, counts: &Counts, next: &Met) -> bool
        requires few { length counts.now.made < 1000000 }
        requires counter { HasCounter counts.now.selectors counter (counted_for self) }
        ensures { result ≡ is_due counts.now.made next.now self }
    {
        match self {
            Moment::Time(ticks) => ticks <= next.start,
            Moment::Nth { selector, place } => {
                next.is_of(selector) && counts.count(counter) + 1 == place
            }
        }
    }

    /// Those of some messages in front of which it can't be due, where its counter has a place.
    pub(crate) fn narrowed(self, quiet: Quiet, counter: usize, counts: &Counts) -> Quiet
        requires few { length counts.now.made ≤ 1000000 }
        requires counter { HasCounter counts.now.selectors counter (counted_for self) }
        ensures part { IsPart result quiet }
        ensures sleeps { Sleeps result counts.now.made (λ made next. is_due made next self) }
    {
        match self {
            Moment::Time(ticks) => quiet.starting_before(ticks),
            Moment::Nth { place, .. } => {
                let count = counts.count(counter);
                if place <= count {
                    quiet
                } else {
                    quiet.before_place(place, count, counts.number())
                }
            }
        }
    }
}
