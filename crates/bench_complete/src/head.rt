//! The next packet of a channel.
ghost use Rattle.bench_complete.specs.Merging.{turn};
ghost use Rattle.std.proofs.Common.{rules};
ghost use Rattle.std.specs.Cmp.Rules.{comparing};
ghost use Rattle.std.specs.Cmp.{partial_order_from_own_ties};
ghost use Rattle.std.specs.Ordering.{nat_cmp, on, flip_args, then_cmp, eq_of_both, as_partial_cmp};
ghost use Rattle.std.specs.Prelude.{◌≡◌, ◌==◌};

use ch11_header::kinds::{SETUP_RECORD, TIME_DATA};
use std::cmp::Ordering;

/// Where a packet comes from.
#[derive(Clone, Copy, Debug)]
pub(crate) enum Source {
    /// The packet at this place of the recording.
    Recorded(usize),
    /// The time packet of this second.
    Time(u64),
}

/// The next packet of a channel. In a heap the greatest is the one that stands first: by its counter, then by its turn,
/// then by its channel.
#[derive(Clone, Copy, Debug)]
pub(crate) struct Head {
    pub(crate) counter: u64,
    /// At one counter setup records go first (0), then time (1), then all others (2).
    pub(crate) turn: u8,
    pub(crate) channel: u16,
    pub(crate) source: Source,
}

/// The turn of a type of data.
pub(crate) fn turn(kind: u8) -> u8
    ensures { result ≡ turn kind }
{
    match kind {
        SETUP_RECORD => 0,
        TIME_DATA => 1,
        _ => 2,
    }
}

impl PartialEq for Head {
    ghost eq = { eq_of_both (on (λ h. h.counter) ◌==◌)
        (eq_of_both (on (λ h. h.turn) ◌==◌) (on (λ h. h.channel) ◌==◌)) };

    ghost laws = { Prim.search (comparing, rules) depth 9 };

    fn eq(&self, other: &Head) -> bool {
        self.counter == other.counter && (self.turn == other.turn && self.channel == other.channel)
    }
}

impl Eq for Head {
    ghost laws = { Prim.search (comparing, rules) depth 9 };
}

impl Ord for Head {
    ghost cmp = { flip_args (then_cmp (on (λ h. h.counter) nat_cmp)
        (then_cmp (on (λ h. h.turn) nat_cmp) (on (λ h. h.channel) nat_cmp))) };

    ghost total = { Prim.search (comparing, rules) depth 9 };

    ghost matches_partial_cmp = { Prim.search (comparing, rules) depth 9 };

    ghost matches_eq = { Prim.search (comparing, rules) depth 9 };

    fn cmp(&self, other: &Head) -> Ordering {
        other.counter.cmp(&self.counter).then(
            other
                .turn
                .cmp(&self.turn)
                .then(other.channel.cmp(&self.channel)),
        )
    }
}

impl PartialOrd for Head {
    ghost partial_cmp = { as_partial_cmp
        (flip_args (then_cmp (on (λ h. h.counter) nat_cmp)
        (then_cmp (on (λ h. h.turn) nat_cmp) (on (λ h. h.channel) nat_cmp)))) };

    ghost laws = { partial_order_from_own_ties (Prim.search (comparing, rules) depth 9)
        (Prim.search (comparing, rules) depth 9) };

    fn partial_cmp(&self, other: &Head) -> Option<Ordering> {
        Some(self.cmp(other))
    }
}
