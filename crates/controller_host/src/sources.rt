//! The sources of words that a host has set.
ghost use Rattle.controller_host.specs.Destinations.{IsPlace};
ghost use Rattle.controller_host.specs.Places.{order_of};
ghost use Rattle.controller_host.specs.declared.destinations.Destination.{Destination as DestinationValue};
ghost use Rattle.controller_host.specs.Sources.{word_of, advanced, source_in, advanced_by, sourced, with_source};
ghost use Rattle.controller_host.specs.Sources.{with_sources, AreRows, place_among, is_source_control};
ghost use Rattle.controller_host.specs.declared.controls.Control.TheVariants as asked;
ghost use Rattle.std.specs.Prelude.{◌≡◌, ◌<◌, ◌≤◌, ℕ, [], true, false, map, length, IfOk, OnOk, OnErr};

use crate::controls::Control;
use crate::destinations::Destination;
use crate::places::{ALL_PLACES, order_of};
use crate::values::{NewWords, Ramp};
use mil_message::Message;
use std::alloc::{AllocError, Global};
use std::marker::Model;

/// Where a data word comes from.
#[derive(Clone, Copy, Debug)]
pub enum Source {
    /// This word, in each message.
    Word(u16),
    /// This word in the next message, and in each one behind it so much more, modulo 65,536.
    Ramp { next: u16, add: u16 },
}

impl Source {
    /// The word of the next message.
    pub fn word(&self) -> u16
        ensures { result ≡ word_of self.now }
    {
        match self {
            Source::Word(word) => *word,
            Source::Ramp { next, .. } => *next,
        }
    }

    /// The source behind that message.
    fn advanced(&self) -> Source
        ensures { result ≡ advanced 1 self.now }
    {
        match self {
            Source::Word(word) => Source::Word(*word),
            Source::Ramp { next, add } => Source::Ramp {
                next: next.wrapping_add(*add),
                add: *add,
            },
        }
    }
}

/// A source and its place.
#[derive(Clone, Copy, Debug)]
pub struct Row {
    pub destination: Destination,
    /// The place there, counted from 1.
    pub place: u8,
    pub source: Source,
}

/// The sources that are set, by their places, and whether there is room for one at every place. Contracts see both.
#[derive(Drop)]
pub struct Sources {
    rows: Vec<Row>,
    ready: bool,
}

impl Model for Sources {
    ghost use Rattle.controller_host.specs.Sources.{SourcesState, IsSources, sources_in};

    ghost Value = { SourcesState };

    ghost view = { sources_in };

    ghost invariant = { IsSources };
}

/// How many of the rows stand before a place.
fn before(rows: &[Row], destination: Destination, place: u8) -> usize
    requires rows { AreRows rows.now }
    requires place { IsPlace destination place }
    ensures value { result ≡ place_among (order_of destination place) rows.now }
    ensures within { result ≤ length rows.now }
{
    let order = order_of(destination, place);
    for (i, row) in rows.iter().enumerate() {
        if order_of(row.destination, row.place) >= order {
            return i;
        }
    }
    rows.len()
}

impl Sources {
    /// None, and no room for any. It takes no memory.
    pub fn none(alloc: Global) -> Sources
        ensures { result ≡ record { rows = []; ready = false } }
    {
        Sources {
            rows: Vec::new(alloc),
            ready: false,
        }
    }

    /// Makes room for a source at every place, some 300,000 bytes, where there is none yet. It fails for want of memory
    /// alone.
    pub fn room(&mut self) -> Result<(), AllocError>
        ensures rows { self.new.rows ≡ self.old.rows }
        ensures ready { OnOk result (self.new.ready ≡ true) }
        ensures same { OnErr result (self.new ≡ self.old) }
    {
        if !self.ready {
            let more = ALL_PLACES - self.rows.len();
            self.rows.reserve(more)?;
            self.ready = true;
        }
        Ok(())
    }

    /// Whether there is room for a source at every place.
    pub fn is_ready(&self) -> bool
        ensures { result ≡ self.now.ready }
    {
        self.ready
    }

    /// How many sources there are.
    pub fn len(&self) -> usize
        ensures { result ≡ length self.now.rows }
    {
        self.rows.len()
    }

    /// The sources, by their places.
    pub fn rows(&self) -> &[Row]
        ensures value { result.now ≡ self.now.rows }
        ensures rows { AreRows result.now }
    {
        self.rows.as_slice()
    }

    /// Sets the source of a place.
    fn put(&mut self, row: Row)
        requires ready { self.old.ready ≡ true }
        requires place { IsPlace row.destination row.place }
        ensures ready { self.new.ready ≡ true }
        ensures sources { (d : DestinationValue) (place : ℕ) → IsPlace d place
            → source_in self.new.rows d place ≡ with_source row (source_in self.old.rows d place) d place }
    {
        let at = before(self.rows.as_slice(), row.destination, row.place);
        if at < self.rows.len() {
            let one = self.rows[at];
            if order_of(one.destination, one.place) == order_of(row.destination, row.place) {
                self.rows[at] = row;
                return;
            }
        }
        // There is room for all of them.
        let _ = self.rows.insert(at, row);
    }

    /// Sets the sources of new words.
    fn put_words(&mut self, new: &NewWords)
        requires ready { self.old.ready ≡ true }
        ensures ready { self.new.ready ≡ true }
        ensures sources { (d : DestinationValue) (place : ℕ) → IsPlace d place
            → source_in self.new.rows d place
            ≡ with_sources (asked.Data new.now) (source_in self.old.rows d place) d place }
    {
        let destination = new.destination();
        for (i, word) in new.words().iter().enumerate() {
            self.put(Row {
                destination,
                place: i as u8 + 1,
                source: Source::Word(*word),
            });
        }
    }

    /// Sets the source of a ramp.
    fn put_ramp(&mut self, ramp: Ramp)
        requires ready { self.old.ready ≡ true }
        ensures ready { self.new.ready ≡ true }
        ensures sources { (d : DestinationValue) (place : ℕ) → IsPlace d place
            → source_in self.new.rows d place
            ≡ with_sources (asked.Ramp ramp) (source_in self.old.rows d place) d place }
    {
        self.put(Row {
            destination: ramp.destination(),
            place: ramp.place(),
            source: Source::Ramp {
                next: ramp.start(),
                add: ramp.add(),
            },
        });
    }

    /// Sets the sources that the host asks for. Condition: there is room where it asks for some. It takes no memory.
    pub fn set(&mut self, control: &Control)
        requires ready { is_source_control control.now ≡ true → self.old.ready ≡ true }
        ensures ready { self.new.ready ≡ self.old.ready }
        ensures sources { (d : DestinationValue) (place : ℕ) → IsPlace d place
            → source_in self.new.rows d place ≡ with_sources control.now (source_in self.old.rows d place) d place }
    {
        match control {
            Control::Data(new) => self.put_words(new),
            Control::Ramp(ramp) => self.put_ramp(*ramp),
            Control::Insert(_) => {}
        }
    }

    /// A message of the script with the words of its sources, which go on behind it.
    pub fn carry(&mut self, message: &Message) -> Message
        ensures message { result ≡ sourced (source_in self.old.rows) message.now }
        ensures rows { self.new.rows ≡ map (advanced_by message.now) self.old.rows }
        ensures ready { self.new.ready ≡ self.old.ready }
    {
        let mut sent = message.copy();
        let Some(destination) = Destination::of(message) else {
            return sent;
        };
        let count = message.data_words().len();
        for i in 0..self.rows.len() {
            let row = self.rows[i];
            if row.destination.is(&destination) && usize::from(row.place) <= count {
                sent.put_data_word(usize::from(row.place) - 1, row.source.word());
                self.rows[i].source = row.source.advanced();
            }
        }
        sent
    }

    /// A message with the words of its sources, which stay as they are.
    pub fn filled(&self, message: &Message) -> Message
        ensures { result ≡ sourced (source_in self.now.rows) message.now }
    {
        let mut sent = message.copy();
        let Some(destination) = Destination::of(message) else {
            return sent;
        };
        let count = message.data_words().len();
        for row in &self.rows {
            if row.destination.is(&destination) && usize::from(row.place) <= count {
                sent.put_data_word(usize::from(row.place) - 1, row.source.word());
            }
        }
        sent
    }

    /// The same sources without room for more, in memory of their own. It fails for want of memory alone.
    pub fn saved(&self, alloc: Global) -> Result<Vec<Row>, AllocError>
        ensures { IfOk result (λ v. v.items ≡ self.now.rows) }
    {
        self.rows.as_slice().to_vec(alloc)
    }

    /// Goes to the sources that were saved. Condition: there is room, or there are none. It takes no memory.
    pub fn restore(&mut self, saved: &[Row])
        requires rows { AreRows saved.now }
        requires room { 0 < length saved.now → self.old.ready ≡ true }
        ensures rows { self.new.rows ≡ saved.now }
        ensures ready { self.new.ready ≡ self.old.ready }
    {
        self.rows.clear();
        for row in saved {
            self.rows.push_reserved(*row);
        }
    }

    /// The same sources, and as much room, in memory of their own. It fails for want of memory alone.
    pub fn copy(&self, alloc: Global) -> Result<Sources, AllocError>
        ensures { IfOk result (λ s. s ≡ self.now) }
    {
        let mut copy = Sources::none(alloc);
        if self.ready {
            copy.room()?;
            copy.restore(self.rows.as_slice());
        }
        Ok(copy)
    }
}
