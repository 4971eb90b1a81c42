//! What a controller's host has asked for, and what came of it: the placed actions, the queue of inserted messages, and
//! the sources of words.
ghost use Rattle.bc_machine.specs.Agendas.{IsHead, IsSavedAgenda, StandsForSources, with_capacity, with_message};
ghost use Rattle.bc_machine.specs.Asking.{controls_at, with_controls, with_rows};
ghost use Rattle.bc_machine.specs.Controller.{ready};
ghost use Rattle.bc_machine.specs.Hosting.{first_of, queue_at, sent_form};
ghost use Rattle.bc_machine.specs.MadeMessages.{own, inserted};
ghost use Rattle.bc_machine.specs.Schedules.{HaveRoom, MayControl};
ghost use Rattle.controller_host.specs.declared.destinations.Destination.{Destination};
ghost use Rattle.controller_host.specs.Destinations.{IsPlace};
ghost use Rattle.controller_host.specs.Sources.{advanced_by, source_in, sourced};
ghost use Rattle.mil_bus.specs.Exchange.{now_of};
ghost use Rattle.std.specs.Prelude.{◌≡◌, ◌<◌, ◌≤◌, ◌+◌, ◌^◌, ◌++◌, ◌∷◌, ℕ, [], length, map, max, min};
ghost use Rattle.std.specs.Prelude.{IsSome, IfOk, IfErr, OnOk, OnErr, unwrap_or, false};

use crate::Actions;
use crate::made::{Made, and_inserted, and_own};
use crate::placed::Placed;
use crate::schedule::{Schedule, act_both};
use controller_host::{Row as SourceRow, Sources};
use history::History;
use mil_bus::Bus;
use mil_message::Message;
use std::alloc::AllocError;
use std::marker::Model;

/// How far inserts were taken from the queue: all at lower numbers, and at this number those among the first so many
/// actions, which are counted with those that were placed later behind the others.
#[derive(Clone, Copy, Debug)]
pub struct Cursor {
    pub number: u32,
    pub passed: usize,
}

/// The placed actions of a controller, those of the beginning and those that were placed later; which messages it has
/// made, and how many of them were inserted; and how far the queue was taken. The sources of words stand beside the
/// actions of the beginning. Contracts see the placed actions, for how many there is room, and the messages made.
#[derive(Drop)]
pub struct Agenda {
    pub(crate) placed: Schedule,
    pub(crate) posted: Schedule,
    pub(crate) made: History<Made>,
    pub(crate) number: u32,
    pub(crate) inserted: u32,
    pub(crate) cursor: Cursor,
}

impl Model for Agenda {
    ghost use Rattle.bc_machine.specs.Agendas.{AgendaState, agenda_in, IsAgenda};

    ghost Value = { AgendaState };

    ghost view = { agenda_in };

    ghost invariant = { IsAgenda };
}

/// What is kept of it, without the placed actions.
#[derive(Drop)]
pub struct SavedAgenda {
    /// For how many actions more there was room.
    pub room: usize,
    pub made: History<Made>,
    pub number: u32,
    pub inserted: u32,
    pub cursor: Cursor,
    pub sources: Vec<SourceRow>,
}

/// The actions that are placed at a number act, those of the beginning first; the sources that they ask for are set.
fn meet(placed: &mut Schedule, posted: &Schedule, bus: &mut Bus, number: u32)
    requires { HaveRoom placed.old.sources.ready (placed.old.actions ++ posted.now.actions) }
    ensures same { (placed.new.actions ≡ placed.old.actions) × (placed.new.capacity ≡ placed.old.capacity)
        × (placed.new.sources.ready ≡ placed.old.sources.ready) }
    ensures sources { (d : Destination) (place : ℕ) → IsPlace d place
        → source_in placed.new.sources.rows d place
        ≡ with_controls (controls_at number (placed.old.actions ++ posted.now.actions))
        (source_in placed.old.sources.rows d place) d place }
    ensures bus { bus.new ≡ ready (placed.old.actions ++ posted.now.actions) number bus.old }
    ensures clock { now_of bus.new ≡ now_of bus.old }
{
    placed.draw_near(number);
    act_both(bus, placed, posted, number);
    placed.set_sources(posted, number);
}

/// A message of the script with the words of the sources of a list, which go on behind it; None where it goes as it is.
fn carried(placed: &mut Schedule, message: &Message) -> Option<Message>
    ensures message { unwrap_or result message.now ≡ sourced (source_in placed.old.sources.rows) message.now }
    ensures schedule { placed.new
        ≡ with_rows placed.old (map (advanced_by message.now) placed.old.sources.rows) }
{
    if placed.has_no_source() {
        return None;
    }
    Some(placed.carry(message))
}

impl Agenda {
    /// These actions, before any message. It takes no memory.
    pub fn begin(placed: Actions) -> Agenda
        ensures { result ≡ record { placed = placed; capacity = length placed; made = [] } }
    {
        let placed = Schedule::of(placed);
        let posted = Schedule::none(placed.allocator());
        Agenda {
            placed,
            posted,
            made: History::none(),
            number: 0,
            inserted: 0,
            cursor: Cursor {
                number: 1,
                passed: 0,
            },
        }
    }

    /// How many messages were made.
    pub fn number(&self) -> u32
        ensures { result ≡ length self.now.made }
    {
        self.number
    }

    /// How many actions are placed.
    pub(crate) fn count(&self) -> usize
        ensures { result ≡ length self.now.placed }
    {
        self.placed.len() + self.posted.len()
    }

    /// The placed actions of the beginning, and those that were placed later.
    pub fn schedules(&self) -> (&Schedule, &Schedule)
        ensures { self.now.placed ≡ result.0.now.actions ++ result.1.now.actions }
    {
        (&self.placed, &self.posted)
    }

    /// Makes the message at the head of the queue the next one: the actions placed at it act, and it is taken off.
    /// Condition: there is one.
    pub fn insert(&mut self, bus: &mut Bus)
        requires bound { length self.old.made < 2 ^ 31 }
        requires waits { IsSome (first_of (queue_at (length self.old.made + 1) self.old.placed self.old.made)) }
        ensures agenda { self.new ≡ with_message self.old inserted }
        ensures bus { bus.new ≡ ready self.old.placed (length self.old.made + 1) bus.old }
        ensures clock { now_of bus.new ≡ now_of bus.old }
    {
        let Some(head) = self.head() else {
            return;
        };
        self.insert_head(bus, head);
    }

    /// The same, where the head of the queue stands at a cursor.
    fn insert_head(&mut self, bus: &mut Bus, head: Cursor)
        requires bound { length self.old.made < 2 ^ 31 }
        requires head { IsHead head self.old.placed self.old.made }
        ensures agenda { self.new ≡ with_message self.old inserted }
        ensures bus { bus.new ≡ ready self.old.placed (length self.old.made + 1) bus.old }
        ensures clock { now_of bus.new ≡ now_of bus.old }
    {
        // Fewer actions stand in front of the head than there are.
        let _count = self.count();
        let number = self.number + 1;
        meet(&mut self.placed, &self.posted, bus, number);
        self.number = number;
        self.inserted += 1;
        self.cursor = Cursor {
            number: head.number,
            passed: head.passed + 1,
        };
        self.made = and_inserted(&self.made);
    }

    /// Makes a message of the script the next one: the actions placed at it act, and it is given with the words of its
    /// sources; None where it goes as it is.
    pub fn send(&mut self, bus: &mut Bus, message: &Message) -> Option<Message>
        requires { length self.old.made < 2 ^ 31 }
        ensures message { unwrap_or result message.now ≡ sent_form self.old.placed self.old.made message.now }
        ensures agenda { self.new ≡ with_message self.old (own message.now) }
        ensures bus { bus.new ≡ ready self.old.placed (length self.old.made + 1) bus.old }
        ensures clock { now_of bus.new ≡ now_of bus.old }
    {
        // A message is lawful by its type.
        let _form = message.form();
        let number = self.number + 1;
        meet(&mut self.placed, &self.posted, bus, number);
        self.number = number;
        self.made = and_own(&self.made, message);
        carried(&mut self.placed, message)
    }

    /// Makes a message of the script the next one, where the host of the controller has asked for nothing: the actions
    /// placed at it act, and it goes as it is.
    pub(crate) fn send_as_is(&mut self, bus: &mut Bus, message: &Message)
        requires bound { length self.old.made < 2 ^ 31 }
        requires free { MayControl false self.old.placed }
        ensures message { sent_form self.old.placed self.old.made message.now ≡ message.now }
        ensures agenda { self.new ≡ with_message self.old (own message.now) }
        ensures bus { bus.new ≡ ready self.old.placed (length self.old.made + 1) bus.old }
        ensures clock { now_of bus.new ≡ now_of bus.old }
    {
        let number = self.number + 1;
        self.placed.draw_near(number);
        act_both(bus, &self.placed, &self.posted, number);
        self.number = number;
        self.made = and_own(&self.made, message);
    }

    /// A message of the script as it would be sent next.
    pub fn coming_own(&self, message: &Message) -> Message
        requires { length self.now.made < 2 ^ 31 }
        ensures { result ≡ sent_form self.now.placed self.now.made message.now }
    {
        // A message is lawful by its type.
        let _form = message.form();
        let mut sent = self.placed.filled(message);
        let number = self.number + 1;
        self.placed.fill_at(&mut sent, number);
        self.posted.fill_at(&mut sent, number);
        sent
    }

    /// The sources that are set.
    pub fn sources(&self) -> &Sources
        ensures { StandsForSources result.now.rows self.now.placed self.now.made }
    {
        self.placed.sources()
    }

    /// Makes room for so many actions more.
    pub fn room(&mut self, count: u32) -> Result<(), AllocError>
        ensures made { OnOk result (self.new ≡ record {
          placed = self.old.placed;
          capacity = max self.old.capacity (length self.old.placed + count);
          made = self.old.made;
        }) }
        ensures same { OnErr result (self.new ≡ self.old) }
    {
        self.placed.make_ready()?;
        self.posted.room(count)
    }

    /// Puts an action at the next message behind those that are placed, where room was made for it; else it comes back.
    pub fn add(&mut self, one: Placed) -> Result<(), Placed>
        requires { one.number ≡ length self.old.made + 1 }
        ensures placed { OnOk result (self.new ≡ record {
          placed = self.old.placed ++ one ∷ [];
          capacity = self.old.capacity;
          made = self.old.made;
        }) }
        ensures there { OnOk result (length self.old.placed < self.old.capacity) }
        ensures used_up { OnErr result (self.old.capacity ≤ length self.old.placed) }
        ensures back { IfErr result (λ back. back ≡ one) }
        ensures same { OnErr result (self.new ≡ self.old) }
    {
        self.posted.add(one)
    }

    /// An equal one, in memory of its own.
    pub fn copy(&self) -> Result<Agenda, AllocError>
        ensures { IfOk result (λ a. a ≡ self.now) }
    {
        Ok(Agenda {
            placed: self.placed.copy()?,
            posted: self.posted.copy()?,
            made: self.made.same(),
            number: self.number,
            inserted: self.inserted,
            cursor: self.cursor,
        })
    }

    /// What steps change, as it is now.
    pub fn save(&self) -> Result<SavedAgenda, AllocError>
        ensures saved { IfOk result (λ s. IsSavedAgenda self.now.placed s) }
        ensures made { IfOk result (λ s. s.made ≡ self.now.made) }
        ensures room { IfOk result (λ s. length self.now.placed + s.room ≡ self.now.capacity) }
    {
        Ok(SavedAgenda {
            room: self.posted.capacity() - self.posted.len(),
            made: self.made.same(),
            number: self.number,
            inserted: self.inserted,
            cursor: self.cursor,
            sources: self.placed.saved_sources()?,
        })
    }

    /// For how many actions more there is room.
    pub fn room_left(&self) -> usize
        ensures { length self.now.placed + result ≡ self.now.capacity }
    {
        self.posted.capacity() - self.posted.len()
    }

    /// Makes room for so many actions more than there are, where there is less. It fails for want of memory alone.
    pub fn grow(&mut self, more: usize) -> Result<(), AllocError>
        ensures made { OnOk result
            (self.new ≡ with_capacity self.old (max self.old.capacity (length self.old.placed + more))) }
        ensures same { OnErr result (self.new ≡ self.old) }
    {
        // There is room for all that are there.
        let _left = self.room_left();
        if more == 0 {
            return Ok(());
        }
        let Some(most) = self.posted.len().checked_add(more) else {
            return Err(AllocError);
        };
        self.placed.make_ready()?;
        self.posted.grow(most)
    }

    /// Keeps room for so many actions more, where there is more.
    pub fn shrink(&mut self, more: usize)
        ensures { self.new ≡ with_capacity self.old (min self.old.capacity (length self.old.placed + more)) }
    {
        let left = self.room_left();
        if left <= more {
            return;
        }
        // There is room for all that are there, and for more than so many.
        let _room = self.posted.capacity();
        let most = self.posted.len() + more;
        self.posted.shrink(most);
    }

    /// Goes back to what was saved, of the same actions; the room stays as it is. It takes no memory.
    pub fn restore(&mut self, saved: &SavedAgenda)
        requires { IsSavedAgenda self.old.placed saved.now }
        ensures { self.new ≡ record {
          placed = self.old.placed;
          capacity = self.old.capacity;
          made = saved.now.made;
        } }
    {
        self.made = saved.made.same();
        self.number = saved.number;
        self.inserted = saved.inserted;
        self.cursor = saved.cursor;
        self.placed.restore_sources(saved.sources.as_slice());
    }
}
