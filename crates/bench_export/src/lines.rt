//! What the lines of buses show, as far as changes were written.
ghost use Rattle.bench_export.specs.Merging.{AreShown, kept_at};
ghost use Rattle.bench_export.specs.Showing.{idle};
ghost use Rattle.bench_export.specs.declared.changes.Change.{Change as Item};
ghost use Rattle.std.specs.Prelude.{◌≡◌, ◌<◌, ◌+◌, ◌*◌, ◌^◌, ◌++◌, ◌∷◌, [], ℕ, List, get_or, length};
ghost use Rattle.std.specs.Prelude.{if◌then◌else◌, OnOk};

use crate::changes::{Change, Driven};
use std::alloc::{AllocError, Global};

/// A line of a bus.
#[derive(Clone, Copy)]
pub(crate) struct Wire {
    pub(crate) on_b: bool,
    pub(crate) channel: u16,
}

/// What a line shows.
#[derive(Clone, Copy)]
pub(crate) struct Shown {
    /// The word on it; none where it is idle.
    pub(crate) driven: Option<Driven>,
    /// Whether a message with an error is on it.
    pub(crate) error: bool,
}

/// An idle line.
const IDLE: Shown = Shown {
    driven: None,
    error: false,
};

/// What each line shows behind changes that were written.
#[derive(Drop)]
pub(crate) struct Lines {
    /// Line A and line B of each channel, from channel 0 on; lines beyond the end are idle.
    pub(crate) shown: Vec<Shown>,
}

/// Where a line stands.
#[inline]
fn place_of(wire: Wire) -> usize
    ensures value { result ≡ wire.channel * 2 + (if wire.on_b then 1 else 0) }
    ensures small { result < 2 ^ 18 }
{
    wire.channel as usize * 2 + if wire.on_b { 1 } else { 0 }
}

impl Lines {
    /// All lines are idle.
    pub(crate) fn idle(alloc: Global) -> Lines
        ensures { AreShown result.shown.items [] }
    {
        Lines {
            shown: Vec::new(alloc),
        }
    }

    /// What a line shows.
    #[inline]
    #[tactic(auto, using(std::proofs::lemmas::List::get_or_past))]
    pub(crate) fn of(&self, wire: Wire) -> Shown
        ensures { result ≡ kept_at self.now.shown.items wire.on_b wire.channel }
    {
        let place = place_of(wire);
        if self.shown.len() <= place {
            return IDLE;
        }
        self.shown[place]
    }

    /// Lines up to a place are there, and show what they did.
    fn reach(&mut self, place: usize) -> Result<(), AllocError>
        requires { place < 2 ^ 18 }
        ensures there { OnOk result (place < length self.new.shown.items) }
        ensures same { OnOk result ((k : ℕ)
            → get_or self.new.shown.items k idle ≡ get_or self.old.shown.items k idle) }
    {
        if place < self.shown.len() {
            return Ok(());
        }
        self.shown.resize(place + 1, IDLE)?;
        Ok(())
    }

    /// Notes a change behind others.
    #[inline]
    pub(crate) fn note(&mut self, change: &Change) -> Result<(), AllocError>
        ensures { OnOk result ((cs : List Item) → AreShown self.old.shown.items cs
            → AreShown self.new.shown.items (cs ++ change.now ∷ [])) }
    {
        let place = place_of(change.wire());
        self.reach(place)?;
        self.shown[place] = change.shown();
        Ok(())
    }
}
