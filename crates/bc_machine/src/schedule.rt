//! Placed actions in rows, and room for more.
ghost use Rattle.bc_machine.specs.Controller.{placed_at, ready};
ghost use Rattle.bc_machine.specs.Rising.{IsRising, IsParted, IsPutIn};
ghost use Rattle.bc_machine.specs.Schedules.{AreRising, HaveRoom, is_control, sets_sources, with_action};
ghost use Rattle.mil_bus.specs.Exchange.{now_of};
ghost use Rattle.std.specs.List.Sorted.{IsPermutation};
ghost use Rattle.std.specs.Prelude.{IsTrue, IfOk, IfErr, IfSome, OnOk, OnErr};
ghost use Rattle.std.specs.Prelude.{◌≡◌, ℕ, ◌+◌, ◌^◌, ◌<◌, ◌≤◌, ◌++◌, ◌∷◌, ◌||◌, [], true, min, max, length};
ghost use Rattle.std.specs.Prelude.{take, slice_index_or};

use crate::action_rows::{Row, act_at, insert_row};
use crate::actions::Actions;
use crate::beside::{Beside, MOST_BESIDE};
use crate::lookup::Lookup;
use crate::placed::{HostAction, Placed};
use controller_host::{Control, Sources};
use mil_bus::Bus;
use std::alloc::{AllocError, Global};
use std::marker::Model;

/// Placed actions, in their order, and room for more; contracts see the list and for how many there is room. Where
/// their numbers never fall, and in a copy, those of one number are found without a look at all others.
#[derive(Drop)]
pub struct Schedule {
    pub(crate) rows: Vec<Row>,
    /// What does not fit into the rows.
    pub(crate) beside: Beside,
    /// How those of a number are found.
    pub(crate) lookup: Lookup,
    /// Where the rows of the number that was met last begin, as far as it is known; those of others are searched.
    pub(crate) near: usize,
    /// For how many actions there is room, at most as many as the lists hold without memory.
    most: usize,
    /// Whether one of them may be of the controller's host.
    pub(crate) controls: bool,
    /// The sources that they set in a controller, with room for all where one of them sets some, or where there is room
    /// for one more.
    pub(crate) sources: Sources,
}

/// Whether the host of a controller sets sources.
fn sets_sources(action: &HostAction) -> bool
    ensures { result ≡ sets_sources action.now }
{
    matches!(
        action,
        HostAction::Controller(Control::Data(_) | Control::Ramp(_))
    )
}

/// Whether it is an action of the host of the controller.
fn is_control(action: &HostAction) -> bool
    ensures { result ≡ is_control action.now }
{
    matches!(action, HostAction::Controller(_))
}

/// Whether one of the two is so.
pub fn one_of(first: bool, second: bool) -> bool
    ensures { result ≡ (first || second) }
{
    first || second
}

impl Model for Schedule {
    ghost use Rattle.bc_machine.specs.Schedules.{ScheduleState, schedule_in, IsSchedule};

    ghost Value = { ScheduleState };

    ghost view = { schedule_in };

    ghost invariant = { IsSchedule };
}

// Whether the numbers are known never to fall once a row of this number stands behind the others.
fn follows(rows: &[Row], rising: bool, number: u32) -> bool
    requires { IsTrue rising → AreRising rows.now }
    ensures { (row : Row) → row.number ≡ number → IsTrue result → AreRising (rows.now ++ row ∷ []) }
{
    if !rising {
        return false;
    }
    match rows.last() {
        Some(last) => last.number <= number,
        None => true,
    }
}

impl Schedule {
    /// These actions. It takes no memory.
    pub fn of(actions: Actions) -> Schedule
        ensures actions { result.actions ≡ actions }
        ensures capacity { result.capacity ≡ length actions }
        ensures sources { result.sources.rows ≡ [] }
        ensures sets { HaveRoom result.sources.ready result.actions }
    {
        let mut schedule = actions.into_schedule();
        let len = schedule.len();
        schedule.shrink(len);
        schedule.restore_sources(&[]);
        // (by this call it is known that there is room where an action sets a source)
        let _ready = schedule.is_ready();
        schedule
    }

    /// No action. It takes no memory.
    pub fn none(alloc: Global) -> Schedule
        ensures actions { result.actions ≡ [] }
        ensures capacity { result.capacity ≡ 0 }
    {
        Schedule {
            rows: Vec::new(alloc),
            beside: Beside::none(alloc),
            lookup: Lookup::Rising,
            near: 0,
            most: 0,
            controls: false,
            sources: Sources::none(alloc),
        }
    }

    /// The allocator that the actions came from.
    pub fn allocator(&self) -> Global {
        *self.rows.allocator()
    }

    /// How many actions there are.
    pub fn len(&self) -> usize
        ensures value { result ≡ length self.now.actions }
        ensures few { result < 2 ^ 63 }
    {
        self.rows.len()
    }

    /// Whether there is room for sources at all places. There is where an action sets some, and where there is room for
    /// one more action.
    pub fn is_ready(&self) -> bool
        ensures value { result ≡ self.now.sources.ready }
        ensures sets { HaveRoom result self.now.actions }
        ensures room { length self.now.actions < self.now.capacity → result ≡ true }
    {
        self.sources.is_ready()
    }

    /// For how many actions there is room, those that are there among them.
    pub fn capacity(&self) -> usize
        ensures value { result ≡ self.now.capacity }
        ensures within { length self.now.actions ≤ result }
    {
        self.most
    }

    /// The action at a place, counted from 0.
    pub fn get(&self, place: usize) -> Placed
        requires { place < length self.now.actions }
        ensures { result ≡ slice_index_or self.now.actions place result }
    {
        self.rows[place].placed(&self.beside)
    }

    /// What is asked for at a place, counted from 0, where it stands whole beside the rows. None says nothing.
    pub fn whole(&self, place: usize) -> Option<&HostAction>
        requires { place < length self.now.actions }
        ensures { (one : Placed) → IfSome result (λ a. a.now ≡ (slice_index_or self.now.actions place one).action) }
    {
        self.rows[place].whole(&self.beside)
    }

    /// The number of the action at a place, counted from 0.
    pub fn number(&self, place: usize) -> u32
        requires { place < length self.now.actions }
        ensures { (one : Placed) → result ≡ (slice_index_or self.now.actions place one).number }
    {
        self.rows[place].number
    }

    /// Makes room for so many actions in all, where there is less. It fails for want of memory alone.
    pub fn grow(&mut self, most: usize) -> Result<(), AllocError>
        ensures actions { self.new.actions ≡ self.old.actions }
        ensures capacity { OnOk result (self.new.capacity ≡ max self.old.capacity most) }
        ensures same { OnErr result (self.new ≡ self.old) }
    {
        if most > self.most {
            let more = most - self.rows.len();
            if more > MOST_BESIDE - self.beside.count_wholes() {
                return Err(AllocError);
            }
            self.rows.reserve(more)?;
            self.beside.reserve(more)?;
            self.sources.room()?;
            self.most = most;
        }
        Ok(())
    }

    /// Has memory at hand for the rows of so many actions more. It fails for want of memory alone.
    pub fn reserve_rows(&mut self, count: usize) -> Result<(), AllocError>
        ensures { self.new ≡ self.old }
    {
        self.rows.reserve(count)
    }

    /// Keeps room for so many actions in all, where there is more. It takes no memory.
    pub fn shrink(&mut self, most: usize)
        requires { length self.old.actions ≤ most }
        ensures actions { self.new.actions ≡ self.old.actions }
        ensures capacity { self.new.capacity ≡ min self.old.capacity most }
    {
        if most < self.most {
            self.most = most;
        }
    }

    /// Makes room for so many actions more than there are, where there is less. It fails for want of memory alone.
    pub fn room(&mut self, count: u32) -> Result<(), AllocError>
        ensures actions { self.new.actions ≡ self.old.actions }
        ensures capacity { OnOk result (self.new.capacity ≡ max self.old.capacity (length self.old.actions + count)) }
        ensures same { OnErr result (self.new ≡ self.old) }
    {
        let most = self.rows.len() + count as usize;
        self.grow(most)
    }

    /// Puts an action behind the others, where there is room for it; else it comes back. It takes no memory.
    pub fn add(&mut self, one: Placed) -> Result<(), Placed>
        ensures added { OnOk result (self.new.actions ≡ self.old.actions ++ one ∷ []) }
        ensures there { OnOk result (length self.old.actions < self.old.capacity) }
        ensures used_up { OnErr result (self.old.capacity ≤ length self.old.actions) }
        ensures capacity { self.new.capacity ≡ self.old.capacity }
        ensures back { IfErr result (λ back. back ≡ one) }
        ensures same { OnErr result (self.new ≡ self.old) }
    {
        if self.rows.len() >= self.most {
            return Err(one);
        }
        self.put_behind(one);
        Ok(())
    }

    /// Puts an action behind the others, which have room for it.
    fn put_behind(&mut self, one: Placed)
        requires room { length self.old.actions < self.old.capacity }
        requires ready { sets_sources one.action ≡ true → self.old.sources.ready ≡ true }
        ensures { self.new ≡ with_action self.old one }
    {
        let rising = follows(self.rows.as_slice(), self.lookup.is_rising(), one.number);
        self.lookup.reset(rising);
        self.controls = one_of(self.controls, is_control(&one.action));
        self.rows.push_reserved(Row::of(one, &mut self.beside));
    }

    /// Has room for the sources that an action sets. It fails for want of memory alone.
    fn ready_for(&mut self, action: &HostAction) -> Result<(), AllocError>
        ensures actions { self.new.actions ≡ self.old.actions }
        ensures ready { OnOk result (sets_sources action.now ≡ true → self.new.sources.ready ≡ true) }
    {
        if sets_sources(action) {
            return self.make_ready();
        }
        Ok(())
    }

    /// Puts an action behind the others, with the memory that it takes, where there is no room for it.
    fn push_new(&mut self, one: Placed) -> Result<(), AllocError>
        requires { sets_sources one.action ≡ true → self.old.sources.ready ≡ true }
        ensures pushed { OnOk result (self.new.actions ≡ self.old.actions ++ one ∷ []) }
        ensures same { OnErr result (self.new ≡ self.old) }
    {
        if self.beside.count_wholes() >= MOST_BESIDE {
            return Err(AllocError);
        }
        self.rows.reserve(1)?;
        self.beside.reserve_for(&one.action)?;
        let rising = follows(self.rows.as_slice(), self.lookup.is_rising(), one.number);
        self.lookup.reset(rising);
        self.controls = one_of(self.controls, is_control(&one.action));
        self.rows.push_reserved(Row::of(one, &mut self.beside));
        self.most = self.rows.len();
        Ok(())
    }

    /// Puts an action behind the others, with the memory that it takes. It fails for want of memory alone.
    pub fn push(&mut self, one: Placed) -> Result<(), AllocError>
        ensures pushed { OnOk result (self.new.actions ≡ self.old.actions ++ one ∷ []) }
        ensures same { OnErr result (self.new.actions ≡ self.old.actions) }
    {
        self.ready_for(&one.action)?;
        if self.len() < self.capacity() {
            self.put_behind(one);
            return Ok(());
        }
        self.push_new(one)
    }

    /// Puts an action behind those of numbers up to its own, where numbers never fall and there is room for it. It
    /// takes no memory.
    pub fn put_in(&mut self, one: Placed)
        requires rising { IsRising self.old.actions }
        requires room { length self.old.actions < self.old.capacity }
        ensures put { IsPutIn one self.old.actions self.new.actions }
        ensures capacity { self.new.capacity ≡ self.old.capacity }
    {
        let place = self.behind(one.number);
        self.lookup.reset(false);
        self.controls = one_of(self.controls, is_control(&one.action));
        let row = Row::of(one, &mut self.beside);
        insert_row(&mut self.rows, place, row);
    }

    /// How many actions have numbers up to one, where numbers never fall.
    pub fn behind(&self, number: u32) -> usize
        requires { IsRising self.now.actions }
        ensures parted { IsParted number result self.now.actions }
        ensures within { result ≤ length self.now.actions }
    {
        self.rows.partition_point(|row| row.number <= number)
    }

    /// Leaves out the actions behind so many. It takes no memory.
    pub fn truncate(&mut self, count: usize)
        ensures { self.new.actions ≡ take count self.old.actions }
    {
        let rising = self.lookup.is_rising();
        self.lookup.reset(rising);
        self.rows.truncate(count);
        self.most = self.rows.len();
    }

    /// Sorts the actions by rising number, those at one number in their order. It fails for want of memory alone.
    pub fn sort(&mut self) -> Result<(), AllocError>
        ensures permutation { IsPermutation self.old.actions self.new.actions }
        ensures rising { OnOk result (IsRising self.new.actions) }
        ensures stable { OnOk result ((n : ℕ) → placed_at n self.new.actions ≡ placed_at n self.old.actions) }
        ensures same { OnErr result (self.new.actions ≡ self.old.actions) }
    {
        if !self.lookup.is_rising() {
            self.rows.sort_by_key(|row| row.number)?;
            self.lookup.reset(true);
        }
        Ok(())
    }

    /// The actions that are placed at a number act, in their order.
    #[inline(never)]
    pub fn act_at(&self, bus: &mut Bus, number: u32)
        ensures bus { bus.new ≡ ready self.now.actions number bus.old }
        ensures clock { now_of bus.new ≡ now_of bus.old }
    {
        let rows = self.rows.as_slice();
        act_at(
            bus,
            self.lookup.rows_of(rows, &self.beside, number, self.near),
            &self.beside,
            number,
        );
    }

    /// The same, with no look where there is none.
    #[inline(always)]
    fn act_if_any(&self, bus: &mut Bus, number: u32)
        ensures bus { bus.new ≡ ready self.now.actions number bus.old }
        ensures clock { now_of bus.new ≡ now_of bus.old }
    {
        if self.len() == 0 {
            return;
        }
        self.act_at(bus, number);
    }

    /// The same actions and as much room, in memory of their own, where numbers fall with the rows by rising number
    /// besides. It fails for want of memory alone.
    pub fn copy(&self) -> Result<Schedule, AllocError>
        ensures { IfOk result (λ s. s ≡ self.now) }
    {
        let alloc = self.allocator();
        let more = self.most - self.rows.len();
        let mut rows = self.rows.as_slice().to_vec(alloc)?;
        let lookup = self.lookup.of_copy(alloc, rows.as_slice())?;
        rows.reserve(more)?;
        Ok(Schedule {
            rows,
            beside: self.beside.copy(alloc, more)?,
            lookup,
            near: self.near,
            most: self.most,
            controls: self.controls,
            sources: self.sources.copy(alloc)?,
        })
    }
}

/// The actions that are placed at a number act: those of the beginning, and then those that were placed later.
pub fn act_both(bus: &mut Bus, placed: &Schedule, posted: &Schedule, number: u32)
    ensures bus { bus.new ≡ ready (placed.now.actions ++ posted.now.actions) number bus.old }
    ensures clock { now_of bus.new ≡ now_of bus.old }
{
    placed.act_if_any(bus, number);
    posted.act_if_any(bus, number);
}
