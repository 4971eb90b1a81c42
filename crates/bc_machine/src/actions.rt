//! A list of placed actions.
ghost use Rattle.bc_machine.specs.Agendas.{inserts_among};
ghost use Rattle.bc_machine.specs.Controller.{placed_at};
ghost use Rattle.bc_machine.specs.Rising.{IsRising, IsParted};
ghost use Rattle.std.specs.List.Sorted.{IsPermutation};
ghost use Rattle.std.specs.Prelude.{IfOk, IfSome, OnOk, OnErr};
ghost use Rattle.std.specs.Prelude.{◌≡◌, ℕ, ◌<◌, ◌≤◌, ◌==◌, ◌++◌, ◌∷◌, [], length, take, slice_index_or};

use crate::schedule::Schedule;
use crate::{HostAction, Placed};
use std::alloc::{AllocError, Global};
use std::marker::Model;

/// Placed actions, in their order: a list that takes 16 bytes for each, and beside these what an action has more: the
/// data words where there is more than one, and 16 bytes for an inserted message, which is kept once where it recurs
/// among the few before.
#[derive(Drop)]
pub struct Actions {
    schedule: Schedule,
}

impl Model for Actions {
    ghost use Rattle.bc_machine.specs.declared.placed.Placed.{Placed};
    ghost use Rattle.std.specs.Prelude.{List};

    ghost Value = { List Placed };

    ghost view = { λ a. a.schedule.actions };
}

impl Actions {
    /// No action. It takes no memory.
    pub fn new(alloc: Global) -> Actions
        ensures { result ≡ [] }
    {
        Actions {
            schedule: Schedule::none(alloc),
        }
    }

    /// The actions of a schedule. It takes no memory.
    pub fn of(schedule: Schedule) -> Actions
        ensures { result ≡ schedule.actions }
    {
        Actions { schedule }
    }

    /// The same list, with room as it is.
    pub(crate) fn into_schedule(self) -> Schedule
        ensures { result.actions ≡ self }
    {
        self.schedule
    }

    /// How many actions there are.
    pub fn len(&self) -> usize
        ensures { result ≡ length self.now }
    {
        self.schedule.len()
    }

    /// Whether there is none.
    pub fn is_empty(&self) -> bool
        ensures { result ≡ (length self.now == 0) }
    {
        self.schedule.len() == 0
    }

    /// The action at a place, counted from 0.
    pub fn get(&self, place: usize) -> Placed
        requires { place < length self.now }
        ensures { result ≡ slice_index_or self.now place result }
    {
        self.schedule.get(place)
    }

    /// What is asked for at a place, counted from 0, where it is at hand whole, as some of what takes more memory than
    /// a row has is: looking costs less than `get`, which makes a copy. None says nothing.
    pub fn whole(&self, place: usize) -> Option<&HostAction>
        requires { place < length self.now }
        ensures { (one : Placed) → IfSome result (λ a. a.now ≡ (slice_index_or self.now place one).action) }
    {
        self.schedule.whole(place)
    }

    /// The number of the action at a place, counted from 0.
    pub fn number(&self, place: usize) -> u32
        requires { place < length self.now }
        ensures { (one : Placed) → result ≡ (slice_index_or self.now place one).number }
    {
        self.schedule.number(place)
    }

    /// Has memory at hand for so many actions more, each of at most one data word. It fails for want of memory alone.
    pub fn reserve(&mut self, count: usize) -> Result<(), AllocError>
        ensures { self.new ≡ self.old }
    {
        self.schedule.reserve_rows(count)
    }

    /// Puts an action behind the others. It fails for want of memory alone, and then the list stays as it was.
    pub fn push(&mut self, one: Placed) -> Result<(), AllocError>
        ensures pushed { OnOk result (self.new ≡ self.old ++ one ∷ []) }
        ensures same { OnErr result (self.new ≡ self.old) }
    {
        self.schedule.push(one)
    }

    /// How many of them have a message inserted.
    pub fn inserts(&self) -> u64
        ensures { result ≡ length (inserts_among self.now) }
    {
        self.schedule.inserts()
    }

    /// How many actions have numbers up to one, where numbers never fall.
    pub fn behind(&self, number: u32) -> usize
        requires { IsRising self.now }
        ensures parted { IsParted number result self.now }
        ensures within { result ≤ length self.now }
    {
        self.schedule.behind(number)
    }

    /// Leaves out the actions behind so many. It takes no memory.
    pub fn truncate(&mut self, count: usize)
        ensures { self.new ≡ take count self.old }
    {
        self.schedule.truncate(count);
    }

    /// Sorts the actions by rising number, those at one number in their order. It fails for want of memory alone, and
    /// then the list stays as it was.
    pub fn sort(&mut self) -> Result<(), AllocError>
        ensures permutation { IsPermutation self.old self.new }
        ensures rising { OnOk result (IsRising self.new) }
        ensures stable { OnOk result ((n : ℕ) → placed_at n self.new ≡ placed_at n self.old) }
        ensures same { OnErr result (self.new ≡ self.old) }
    {
        self.schedule.sort()
    }

    /// The same actions, in memory of their own. It fails for want of memory alone.
    pub fn copy(&self) -> Result<Actions, AllocError>
        ensures { IfOk result (λ a. a ≡ self.now) }
    {
        Ok(Actions {
            schedule: self.schedule.copy()?,
        })
    }
}
