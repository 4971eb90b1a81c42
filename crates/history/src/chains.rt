//! The chain of links of which a history is made, each with the one that it follows.
ghost use Rattle.history.specs.Items.{items};
ghost use Rattle.std.specs.Prelude.{◌≡◌};

use std::marker::Model;
use std::snapshot::Snapshot;

/// A link, made to be looked at and let go. Contracts see its list, and how many links it follows.
#[cycle(chain)]
#[derive(Drop)]
pub struct Chain<T: Drop> {
    link: Link<T>,
}

/// What a link is: the start, a value before or behind another link's, or the same as another link.
#[cycle(chain)]
#[derive(Drop)]
pub enum Link<T: Drop> {
    Start,
    Before(Snapshot<T>, Snapshot<Chain<T>>),
    Behind(Snapshot<T>, Snapshot<Chain<T>>),
    Same(Snapshot<Snapshot<Chain<T>>>),
}

impl<T: Drop> Model for Chain<T> {
    ghost use Rattle.std.specs.Prelude.{List, ℕ};

    ghost Value = { List T × ℕ };

    ghost use Rattle.history.specs.Items.{items};

    ghost view = { λ c. items c.link };

    ghost size = { λ v. v.1 };

    ghost use Rattle.std.proofs.Common.{arith};

    ghost size_decreases = { λ a h. Prim.grind arith };
}

/// What is known of a link.
#[inline]
pub fn chain_of<T: Drop>(link: Link<T>) -> Snapshot<Chain<T>>
    ensures { result.value ≡ items link }
{
    let chain = Chain { link };
    Snapshot::of(&chain)
}
