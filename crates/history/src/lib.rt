//! What has happened so far, as a list that contracts see and that has no byte at run time. A value holds a
//! `History` in place of the list, so that its contracts can speak of all that it met: terminals, plans and buses
//! do.
//!
//! It may know: no other crate. It has no tests: a history has nothing that a program could look at. Its wrong
//! bodies: `edits/`.
#![tactic(auto)]

ghost use Rattle.std.specs.Prelude.{◌≡◌, ◌∷◌, ◌++◌, []};

mod chains;

use crate::chains::{Chain, Link, chain_of};
use std::marker::Model;
use std::snapshot::Snapshot;

/// A list, which contracts see.
#[derive(Drop)]
pub struct History<T: Drop> {
    chain: Snapshot<Chain<T>>,
}

impl<T: Drop> Model for History<T> {
    ghost use Rattle.std.specs.Prelude.{List};

    ghost Value = { List T };

    ghost view = { λ h. h.chain.value.0 };
}

impl<T: Drop> History<T> {
    /// The empty list.
    #[inline]
    pub fn none() -> History<T>
        ensures { result ≡ [] }
    {
        History {
            chain: chain_of(Link::Start),
        }
    }

    /// The same list once more.
    #[inline]
    pub fn same(&self) -> History<T>
        ensures { result ≡ self.now }
    {
        History {
            chain: chain_of(Link::Same(Snapshot::of(&self.chain))),
        }
    }

    /// The list with one item more, before the others.
    #[inline]
    pub fn put_before(&self, item: &T) -> History<T>
        ensures { result ≡ item.now ∷ self.now }
    {
        let others = self.same();
        History {
            chain: chain_of(Link::Before(Snapshot::of(item), others.chain)),
        }
    }

    /// The list with one item more, behind the others.
    #[inline]
    pub fn put_behind(&self, item: &T) -> History<T>
        ensures { result ≡ self.now ++ item.now ∷ [] }
    {
        let others = self.same();
        History {
            chain: chain_of(Link::Behind(Snapshot::of(item), others.chain)),
        }
    }
}
