//! Messages in front of which nothing of a chunk or a group is due.
ghost use Rattle.job_moments.specs.Quiet.{IsPart, IsQuiet};
ghost use Rattle.std.specs.Prelude.{◌≡◌, ◌+◌, ◌<◌, ◌≤◌, List, length, true, false};

use crate::met::Met;

/// Messages in front of which nothing is due: those that start in these ticks, while few enough were made.
#[derive(Clone, Copy)]
pub(crate) struct Quiet {
    /// The first of these ticks of 0.1 µs, from the job's start tick on.
    from: u64,
    /// The first tick behind them.
    until: u64,
    /// While fewer messages than these were made.
    wake: u32,
}

impl Quiet {
    /// No message: nothing is known.
    pub(crate) fn none() -> Quiet
        ensures { result.wake ≡ 0 }
    {
        Quiet {
            from: 0,
            until: 0,
            wake: 0,
        }
    }

    /// As many as can be told.
    pub(crate) fn all() -> Quiet {
        Quiet {
            from: 0,
            until: u64::MAX,
            wake: u32::MAX,
        }
    }

    /// Whether the message that comes next, behind so many, is one of them.
    pub(crate) fn has(&self, number: u32, next: &Met) -> bool
        ensures { (made : List Met) → number ≡ length made → result ≡ true → IsQuiet self.now made next.now }
    {
        self.from <= next.start && next.start < self.until && number < self.wake
    }

    /// Those of them that are among others too.
    pub(crate) fn within(self, other: Quiet) -> Quiet
        ensures one { IsPart result self }
        ensures other { IsPart result other }
    {
        Quiet {
            from: self.from.max(other.from),
            until: self.until.min(other.until),
            wake: self.wake.min(other.wake),
        }
    }

    /// Those of them that are among others too, unless these are left out.
    pub(crate) fn within_unless(self, is_out: bool, other: Quiet) -> Quiet
        ensures one { IsPart result self }
        ensures other { is_out ≡ false → IsPart result other }
    {
        if is_out { self } else { self.within(other) }
    }

    /// Those of them that start before a tick.
    pub(crate) fn starting_before(self, ticks: u64) -> Quiet
        ensures part { IsPart result self }
        ensures until { result.until ≤ ticks }
    {
        Quiet {
            from: self.from,
            until: self.until.min(ticks),
            wake: self.wake,
        }
    }

    /// Those of them that start at a tick or later.
    pub(crate) fn starting_from(self, ticks: u64) -> Quiet
        ensures part { IsPart result self }
        ensures from { ticks ≤ result.from }
    {
        Quiet {
            from: self.from.max(ticks),
            until: self.until,
            wake: self.wake,
        }
    }

    /// Those of them at which the message of a place can't have come: it is one of those that count, of which so many
    /// were made, and so many messages in all.
    pub(crate) fn before_place(self, place: u32, count: u32, number: u32) -> Quiet
        requires { count < place }
        ensures part { IsPart result self }
        ensures wake { result.wake + count + 1 ≤ number + place }
    {
        Quiet {
            from: self.from,
            until: self.until,
            wake: self.wake.min(number.saturating_add(place - count - 1)),
        }
    }
}
