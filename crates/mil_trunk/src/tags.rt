//! The tags by which items are told apart, and sets of them.
ghost use Rattle.mil_trunk.specs.Tags.{has};
ghost use Rattle.std.specs.Prelude.{◌≡◌, ◌≢◌, ◌<◌, ◌^◌, ℕ, true, false};

use std::marker::Model;

/// An item with a tag. A trunk takes items with tags from 0 to 63: the ticket that it is offered with has to hold the
/// tag.
pub trait Tagged {
    ghost tag_of: { Self → ℕ };

    /// The tag, which stays the same for as long as the item exists.
    fn tag(&self) -> u8
        ensures { result ≡ tag_of self.now };
}

/// A set of numbers from 0 to 63.
#[derive(Clone, Copy, Debug, PartialEq, Eq)]
pub struct Tags {
    // Bit t is 1 where t is in the set.
    bits: u64,
}

impl Model for Tags {
    ghost Value = { ℕ };

    ghost view = { λ s. s.bits };

    ghost invariant = { λ s. s.bits < 2 ^ 64 };

    ghost inverse = { λ n. record { bits = n } };
}

impl Tags {
    /// The empty set.
    pub fn none() -> Tags
        ensures { (t : ℕ) → has result t ≡ false }
    {
        Tags { bits: 0 }
    }

    /// The set with one number more. It is itself where it has that number already.
    pub fn with(self, tag: u8) -> Tags
        requires { tag < 64 }
        ensures this { has result tag ≡ true }
        ensures others { (t : ℕ) → t ≢ tag → has result t ≡ has self t }
    {
        Tags {
            bits: self.bits | 1 << tag,
        }
    }

    /// Whether a number is in the set. None above 63 is.
    pub fn holds(self, tag: u8) -> bool
        ensures { result ≡ has self tag }
    {
        tag < 64 && self.bits >> tag & 1 == 1
    }
}
