//! The rule that the queue keeps, and what each step makes of what its caller knows. The types here have no values:
//! proofs name them.
ghost use Rattle.std.specs.Prelude.{ℕ, List, []};

use crate::tags::Tagged;
use crossbeam_queue::protocol::{Join, Lesson, Outcome, Protocol, Split};
use std::collections::LinkedList;
use std::marker::{Brand, PhantomData};

/// What one ticket or taker knows.
pub struct View<T> {
    /// There is no ticket and no taker yet.
    pub unsplit: bool,
    /// False where it was taken in by another.
    pub live: bool,
    /// The tags of a ticket.
    pub tags: u64,
    /// How many items of tag 0, 1, .. may be sent in all.
    pub bounds: LinkedList<u64>,
    /// The items sent with a ticket, oldest first.
    pub sent: LinkedList<T>,
    /// Whether it is the taker, or a ticket that has taken it in.
    pub takes: bool,
    /// The items that the taker received, oldest first.
    pub received: LinkedList<T>,
}

/// The rule: for each tag, what was sent is what was received and then what the queue holds.
pub struct SentAndReceived<T> {
    of: PhantomData<T>,
}

impl<T: Tagged> Protocol<T, View<T>> for SentAndReceived<T> {
    ghost use Rattle.mil_trunk.specs.Rule.{Keeps};
    ghost use Rattle.mil_trunk.specs.Views.{unsplit};

    ghost holds = { Keeps T.tag_of };

    ghost first = { unsplit };
}

/// The bounds of a trunk, which the call that makes it picks.
pub trait Bounding {
    ghost bounds: { List ℕ };
}

impl Bounding for Brand {
    ghost bounds = { [] };
}

/// The tags that a ticket gives away, which the call that splits it picks.
pub trait Parting {
    ghost tags: { ℕ };
}

impl Parting for Brand {
    ghost tags = { 0 };
}

/// The first split: a ticket with all tags, and the taker.
pub struct Begin<B> {
    of: PhantomData<B>,
}

impl<T, B: Bounding> Split<View<T>> for Begin<B> {
    ghost use Rattle.mil_trunk.specs.Views.{first_ticket, first_taker};

    ghost left = { λ v. first_ticket B.bounds };

    ghost right = { λ v. first_taker B.bounds };
}

/// A ticket parted in two.
pub struct Part<T, P> {
    of: PhantomData<(T, P)>,
}

impl<T: Tagged, P: Parting> Split<View<T>> for Part<T, P> {
    ghost use Rattle.mil_trunk.specs.Views.{remaining, parted};

    ghost left = { λ v. remaining T.tag_of P.tags v };

    ghost right = { λ v. parted T.tag_of P.tags v };
}

/// Two tickets made one.
pub struct Tickets;

impl<T> Join<View<T>> for Tickets {
    ghost use Rattle.mil_trunk.specs.Views.{joined, spent};

    ghost both = { joined };

    ghost spent = { spent };
}

/// A ticket and the taker made one, and parted again.
pub struct BothEnds;

impl<T> Join<View<T>> for BothEnds {
    ghost use Rattle.mil_trunk.specs.Views.{both_ends, spent};

    ghost both = { λ v w. both_ends v.bounds v.tags v.sent w.received };

    ghost spent = { spent };
}

impl<T> Split<View<T>> for BothEnds {
    ghost use Rattle.mil_trunk.specs.Views.{ticket, taker};

    ghost left = { λ v. ticket v.bounds v.tags v.sent };

    ghost right = { λ v. taker v.bounds v.received };
}

/// A push by a ticket, which a full queue tells how few items it can hold.
pub struct Offer;

impl<T> Outcome<T, View<T>> for Offer {
    ghost use Rattle.mil_trunk.specs.Views.{pushed};
    ghost use Rattle.std.specs.Prelude.{◌≡◌};

    ghost then = { λ v x w. w ≡ pushed v x };
}

impl<T> Lesson<T, View<T>> for Offer {
    ghost use Rattle.mil_trunk.specs.Rule.{HoldsAtMost};

    ghost fact = { HoldsAtMost };
}

/// A pop by the taker, which an empty queue tells nothing.
pub struct Take;

impl<T> Outcome<T, View<T>> for Take {
    ghost use Rattle.mil_trunk.specs.Rule.{Receives};

    ghost then = { Receives };
}

impl<T> Lesson<T, View<T>> for Take {
    ghost use Rattle.std.specs.Prelude.{⊤};

    ghost fact = { λ v items. ⊤ };
}

/// A pop by a ticket that has taken in the taker, which an empty queue tells that all was received.
pub struct Settle<T> {
    of: PhantomData<T>,
}

impl<T> Outcome<T, View<T>> for Settle<T> {
    ghost use Rattle.mil_trunk.specs.Rule.{Receives};

    ghost then = { Receives };
}

impl<T: Tagged> Lesson<T, View<T>> for Settle<T> {
    ghost use Rattle.mil_trunk.specs.Rule.{Agrees};

    ghost fact = { Agrees T.tag_of };
}
