//! What the host of the controller asks for among placed actions: inserts, and sources of words.
ghost use Rattle.bc_machine.specs.Agendas.{inserts_among};
ghost use Rattle.bc_machine.specs.Asking.{IsInsertAt, controls_at, filled_by, put_over, with_controls};
ghost use Rattle.bc_machine.specs.Asking.{with_ready, with_rows};
ghost use Rattle.mil_message.specs.Forms.{data_words, with_data_words};
ghost use Rattle.bc_machine.specs.Hosting.{insertion_of, inserts_up_to, placed_at};
ghost use Rattle.bc_machine.specs.Rows.{all_placed, placed_of, rows_at, IsRow};
ghost use Rattle.bc_machine.specs.Schedules.{AreOf, HaveRoom, MayControl};
ghost use Rattle.controller_host.specs.Destinations.{IsPlace};
ghost use Rattle.controller_host.specs.declared.destinations.Destination.{Destination as DestinationValue};
ghost use Rattle.controller_host.specs.Sources.{AreRows, advanced_by, set_by, source_in, sourced};
ghost use Rattle.std.specs.Option.{is_some};
ghost use Rattle.std.specs.Prelude.{◌≡◌, ◌-◌, ◌<◌, ◌≤◌, ◌++◌, ◌↔◌, ℕ, [], true, length, map, drop, All, IsTrue, IfOk};
ghost use Rattle.std.specs.Prelude.{IfNone, IfSome, OnOk, OnErr, slice_set};

use crate::action_rows::Row;
use crate::beside::{Beside, Inserted};
use crate::schedule::Schedule;
use controller_host::{Control, Destination, Row as SourceRow, Sources};
use mil_message::Message;
use std::alloc::AllocError;

/// The first insert of rows from one of them on, where all are of one number.
fn insert_from<'a>(rows: &[Row], beside: &'a Beside, passed: usize) -> Option<(usize, Inserted<'a>)>
    requires { All (IsRow beside.now.lists) rows.now }
    ensures there { IfSome result (λ x. IsInsertAt (all_placed beside.now.lists rows.now) passed x.0 x.1) }
    ensures none { IfNone result (inserts_among (drop passed (all_placed beside.now.lists rows.now)) ≡ []) }
{
    for place in passed..rows.len() {
        if let Some(insertion) = rows[place].insertion(beside) {
            return Some((place, insertion));
        }
    }
    None
}

/// The first insert at a number among rows, behind so many of that number.
fn insert_among<'a>(
    rows: &[Row],
    beside: &'a Beside,
    number: u32,
    passed: usize,
) -> Option<(usize, Inserted<'a>)>
    requires { All (IsRow beside.now.lists) rows.now }
    ensures there { IfSome result
        (λ x. IsInsertAt (placed_at number (all_placed beside.now.lists rows.now)) passed x.0 x.1) }
    ensures none { IfNone result
        (inserts_among (drop passed (placed_at number (all_placed beside.now.lists rows.now))) ≡ []) }
{
    let mut place = 0;
    for row in rows {
        if row.number == number {
            if place >= passed {
                if let Some(insertion) = row.insertion(beside) {
                    return Some((place, insertion));
                }
            }
            place += 1;
        }
    }
    None
}

/// Whether a row puts a message into the queue.
fn is_insert(row: &Row, beside: &Beside) -> bool
    requires { IsRow beside.now.lists row.now }
    ensures { result ≡ is_some (insertion_of (placed_of beside.now.lists row.now).action) }
{
    row.insertion(beside).is_some()
}

/// How many rows are of a number.
fn count_among(rows: &[Row], number: u32) -> usize
    ensures { result ≡ length (rows_at number rows.now) }
{
    let mut count = 0;
    for row in rows {
        if row.number == number {
            count += 1;
        }
    }
    count
}

/// How many rows put a message into the queue.
fn inserts_in(rows: &[Row], beside: &Beside) -> u64
    requires { All (IsRow beside.now.lists) rows.now }
    ensures { result ≡ length (inserts_among (all_placed beside.now.lists rows.now)) }
{
    let mut count = 0;
    for row in rows {
        if is_insert(row, beside) {
            count += 1;
        }
    }
    count
}

/// How many rows of numbers from 1 up to one put a message into the queue.
fn inserts_below(rows: &[Row], beside: &Beside, number: u32) -> u64
    requires { All (IsRow beside.now.lists) rows.now }
    ensures { result ≡ length (inserts_up_to number (all_placed beside.now.lists rows.now)) }
{
    let mut count = 0;
    for row in rows {
        if row.number >= 1 && row.number <= number && is_insert(row, beside) {
            count += 1;
        }
    }
    count
}

/// Sets sources by the actions of the rows of a number, in their order.
fn set_at(sources: &mut Sources, rows: &[Row], beside: &Beside, number: u32)
    requires rows { All (IsRow beside.now.lists) rows.now }
    requires ready { HaveRoom sources.old.ready (placed_at number (all_placed beside.now.lists rows.now)) }
    ensures ready { sources.new.ready ≡ sources.old.ready }
    ensures sources { (d : DestinationValue) (place : ℕ) → IsPlace d place
        → source_in sources.new.rows d place
        ≡ with_controls (controls_at number (all_placed beside.now.lists rows.now))
        (source_in sources.old.rows d place) d place }
{
    for row in rows {
        if row.number == number {
            if let Some(control) = row.source_control(beside) {
                sources.set(control);
            }
        }
    }
}

/// Puts words in the place of the first ones of a message, as many as it has.
fn put_words(sent: &mut Message, words: &[u16])
    ensures { sent.new ≡ with_data_words (put_over words.now (data_words sent.old)) sent.old }
{
    let count = sent.data_words().len();
    for i in 0..words.len().min(count) {
        sent.put_data_word(i, words[i]);
    }
}

/// Puts a word at a place of a message, counted from 1, where it has that place.
fn put_word(sent: &mut Message, place: usize, word: u16)
    requires { 1 ≤ place }
    ensures { sent.new ≡ with_data_words (slice_set (data_words sent.old) (place - 1) word) sent.old }
{
    if place <= sent.data_words().len() {
        sent.put_data_word(place - 1, word);
    }
}

/// Puts the words into a message that the host asks for from now on.
fn fill(sent: &mut Message, control: &Control)
    ensures { sent.new ≡ sourced (set_by control.now) sent.old }
{
    let Some(destination) = Destination::of(sent) else {
        return;
    };
    match control {
        Control::Data(new) => {
            if destination.is(&new.destination()) {
                put_words(sent, new.words());
            }
        }
        Control::Ramp(ramp) => {
            if destination.is(&ramp.destination()) {
                put_word(sent, usize::from(ramp.place()), ramp.start());
            }
        }
        Control::Insert(_) => {}
    }
}

/// Puts the words into a message that the actions of the rows of a number ask for, one after the other.
fn fill_among(sent: &mut Message, rows: &[Row], beside: &Beside, number: u32)
    requires { All (IsRow beside.now.lists) rows.now }
    ensures { sent.new ≡ filled_by (controls_at number (all_placed beside.now.lists rows.now)) sent.old }
{
    for row in rows {
        if row.number == number {
            if let Some(control) = row.source_control(beside) {
                fill(sent, control);
            }
        }
    }
}

impl Schedule {
    /// Whether one of them may be of the controller's host.
    pub fn has_controls(&self) -> bool
        ensures { MayControl result self.now.actions }
    {
        self.controls
    }

    /// Rows that have all of a number, in their order, the lists beside them, and whether they are of no other.
    fn rows_at(&self, number: u32) -> (&[Row], &Beside, bool)
        ensures same { placed_at number (all_placed result.1.now.lists result.0.now)
            ≡ placed_at number self.now.actions }
        ensures rows { All (IsRow result.1.now.lists) result.0.now }
        ensures alone { result.2 ≡ true → AreOf number result.0.now }
    {
        let rows = self.rows.as_slice();
        (
            self.lookup.rows_of(rows, &self.beside, number, self.near),
            &self.beside,
            self.lookup.finds_alone(),
        )
    }

    /// How many actions are placed at a number.
    pub fn count_at(&self, number: u32) -> usize
        ensures { result ≡ length (placed_at number self.now.actions) }
    {
        let (rows, _, _) = self.rows_at(number);
        count_among(rows, number)
    }

    /// The first insert at a number behind so many of its actions: how many of these stand in front of it, and it.
    pub fn insert_at(&self, number: u32, passed: usize) -> Option<(usize, Inserted<'_>)>
        ensures there { IfSome result (λ x. IsInsertAt (placed_at number self.now.actions) passed x.0 x.1) }
        ensures none { IfNone result (inserts_among (drop passed (placed_at number self.now.actions)) ≡ []) }
    {
        let (rows, beside, alone) = self.rows_at(number);
        if alone {
            return insert_from(rows, beside, passed);
        }
        insert_among(rows, beside, number, passed)
    }

    /// How many inserts there are.
    pub fn inserts(&self) -> u64
        ensures { result ≡ length (inserts_among self.now.actions) }
    {
        if !self.has_controls() {
            return 0;
        }
        inserts_in(self.rows.as_slice(), &self.beside)
    }

    /// How many inserts there are at numbers from 1 up to one.
    pub fn inserts_up_to(&self, number: u32) -> u64
        ensures { result ≡ length (inserts_up_to number self.now.actions) }
    {
        if !self.has_controls() {
            return 0;
        }
        inserts_below(self.rows.as_slice(), &self.beside, number)
    }

    /// The sources that were set.
    pub fn sources(&self) -> &Sources
        ensures { result.now ≡ self.now.sources }
    {
        &self.sources
    }

    /// Whether none is set.
    pub fn has_no_source(&self) -> bool
        ensures { IsTrue result ↔ (self.now.sources.rows ≡ []) }
    {
        self.sources.len() == 0
    }

    /// A message with the words of the sources, which stay as they are.
    pub fn filled(&self, message: &Message) -> Message
        ensures { result ≡ sourced (source_in self.now.sources.rows) message.now }
    {
        self.sources.filled(message)
    }

    /// The sources that were set, in memory of their own.
    pub fn saved_sources(&self) -> Result<Vec<SourceRow>, AllocError>
        ensures same { IfOk result (λ v. v.items ≡ self.now.sources.rows) }
        ensures rows { IfOk result (λ v. AreRows v.items) }
    {
        // (by this call it is known that what is kept are rows)
        let _rows = self.sources.rows();
        self.sources.saved(self.allocator())
    }

    /// Has room for all sources. It fails for want of memory alone.
    pub fn make_ready(&mut self) -> Result<(), AllocError>
        ensures ready { OnOk result (self.new ≡ with_ready self.old) }
        ensures same { OnErr result (self.new ≡ self.old) }
    {
        self.sources.room()
    }

    /// Sets the sources of this list by its own actions at a number.
    fn set_own(&mut self, number: u32)
        ensures same { (self.new.actions ≡ self.old.actions) × (self.new.capacity ≡ self.old.capacity)
            × (self.new.sources.ready ≡ self.old.sources.ready) }
        ensures sources { (d : DestinationValue) (place : ℕ) → IsPlace d place
            → source_in self.new.sources.rows d place
            ≡ with_controls (controls_at number self.old.actions) (source_in self.old.sources.rows d place) d place }
    {
        if !self.has_controls() {
            return;
        }
        let rows = self.rows.as_slice();
        let found = self.lookup.rows_of(rows, &self.beside, number, self.near);
        set_at(&mut self.sources, found, &self.beside, number);
    }

    /// Sets the sources of this list by the actions of another list at a number.
    fn set_from(&mut self, other: &Schedule, number: u32)
        requires { HaveRoom self.old.sources.ready other.now.actions }
        ensures same { (self.new.actions ≡ self.old.actions) × (self.new.capacity ≡ self.old.capacity)
            × (self.new.sources.ready ≡ self.old.sources.ready) }
        ensures sources { (d : DestinationValue) (place : ℕ) → IsPlace d place
            → source_in self.new.sources.rows d place
            ≡ with_controls (controls_at number other.now.actions) (source_in self.old.sources.rows d place) d place }
    {
        if !other.has_controls() {
            return;
        }
        let (rows, beside, _) = other.rows_at(number);
        set_at(&mut self.sources, rows, beside, number);
    }

    /// Sets the sources of this list by its own actions at a number, and then by those of another list.
    pub fn set_sources(&mut self, other: &Schedule, number: u32)
        requires { HaveRoom self.old.sources.ready other.now.actions }
        ensures same { (self.new.actions ≡ self.old.actions) × (self.new.capacity ≡ self.old.capacity)
            × (self.new.sources.ready ≡ self.old.sources.ready) }
        ensures sources { (d : DestinationValue) (place : ℕ) → IsPlace d place
            → source_in self.new.sources.rows d place
            ≡ with_controls (controls_at number (self.old.actions ++ other.now.actions))
            (source_in self.old.sources.rows d place) d place }
    {
        self.set_own(number);
        self.set_from(other, number);
    }

    /// A message of the script with the words of the sources of this list, which go on behind it.
    pub fn carry(&mut self, message: &Message) -> Message
        ensures message { result ≡ sourced (source_in self.old.sources.rows) message.now }
        ensures schedule { self.new ≡ with_rows self.old (map (advanced_by message.now) self.old.sources.rows) }
    {
        self.sources.carry(message)
    }

    /// Goes to sources that were saved. Condition: there is room for them, or there are none.
    pub fn restore_sources(&mut self, saved: &[SourceRow])
        requires rows { AreRows saved.now }
        requires room { 0 < length saved.now → self.old.sources.ready ≡ true }
        ensures { self.new ≡ with_rows self.old saved.now }
    {
        self.sources.restore(saved);
    }

    /// Puts the words into a message that the actions at a number ask for, one after the other.
    pub fn fill_at(&self, sent: &mut Message, number: u32)
        ensures { sent.new ≡ filled_by (controls_at number self.now.actions) sent.old }
    {
        if !self.has_controls() {
            return;
        }
        let (rows, beside, _) = self.rows_at(number);
        fill_among(sent, rows, beside, number);
    }
}
