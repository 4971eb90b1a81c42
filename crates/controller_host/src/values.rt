//! The values of what the host asks for, each in its range.
ghost use Rattle.controller_host.specs.Destinations.{IsDestination, IsPlace, most_words_to};
ghost use Rattle.controller_host.specs.Ranges.{IsRamp, IsInsertion};
ghost use Rattle.controller_host.specs.Values.{latest_tick, AreNewWords};
ghost use Rattle.mil_message.specs.Rules.{IsLawful};
ghost use Rattle.std.specs.Prelude.{◌≡◌, ◌≤◌, ◌<◌, length, true, All};

use crate::destinations::Destination;
use arrayvec::ArrayVec;
use mil_message::Message;
use mil_word::{Line, copied};
use std::marker::Model;

/// New data words for a destination, from its first place on: 1 to 32, one for a mode command.
#[derive(Debug, Drop)]
pub struct NewWords {
    destination: Destination,
    words: ArrayVec<u16, 32>,
}

impl Model for NewWords {
    ghost use Rattle.controller_host.specs.Values.{NewWordsValue, AreNewWords};

    ghost Value = { NewWordsValue };

    ghost view = { λ w. record { destination = w.destination; words = w.words.items } };

    ghost invariant = { λ w. AreNewWords (record { destination = w.destination; words = w.words.items }) };
}

impl NewWords {
    /// These words.
    pub fn make(destination: Destination, words: ArrayVec<u16, 32>) -> NewWords
        requires destination { IsDestination destination }
        requires some { 1 ≤ length words.items }
        requires few { length words.items ≤ most_words_to destination }
        ensures { result ≡ record { destination = destination; words = words.items } }
    {
        NewWords { destination, words }
    }

    /// Where they go.
    pub fn destination(&self) -> Destination
        ensures value { result ≡ self.now.destination }
        ensures range { IsDestination result }
    {
        self.destination
    }

    /// The words, 1 to 32.
    pub fn words(&self) -> &[u16]
        ensures value { result.now ≡ self.now.words }
        ensures some { 1 ≤ length result.now }
        ensures few { length result.now ≤ most_words_to self.now.destination }
    {
        self.words.as_slice()
    }

    /// The destination, the count of words and each word are in their ranges.
    pub(crate) fn keeps_ranges(&self)
        ensures values { AreNewWords self.now }
        ensures words { All (λ w. w < 65536) self.now.words }
    {
        have_16_bits(self.words.as_slice());
    }

    /// The same words.
    pub fn copy(&self) -> NewWords
        ensures { result ≡ self.now }
    {
        NewWords {
            destination: self.destination,
            words: copied(&self.words),
        }
    }
}

/// Data words have 16 bits.
fn have_16_bits(words: &[u16])
    ensures { All (λ w. w < 65536) words.now }
{
    // Read for the proof alone: the range stands with the type.
    let _count = words.len();
}

/// A word of a destination that moves: START in the first message that carries it, and in each one behind it ADD more,
/// modulo 65,536.
#[derive(Clone, Copy, Debug)]
pub struct Ramp {
    destination: Destination,
    place: u8,
    start: u16,
    add: u16,
}

impl Model for Ramp {
    ghost use Rattle.controller_host.specs.Destinations.{IsPlace};
    ghost use Rattle.controller_host.specs.Values.{RampValue};
    ghost use Rattle.std.specs.Prelude.{◌≡◌, true};

    ghost Value = { RampValue };

    ghost view = { λ r. record { destination = r.destination; place = r.place; start = r.start; add = r.add } };

    ghost invariant = { λ r. IsPlace r.destination r.place };

    ghost inverse = { λ r. record { destination = r.destination; place = r.place; start = r.start; add = r.add } };
}

impl Ramp {
    /// A ramp at a place, 1 to 32, or 1 for a mode command.
    pub fn make(destination: Destination, place: u8, start: u16, add: u16) -> Ramp
        requires { IsPlace destination place }
        ensures { result ≡ record { destination = destination; place = place; start = start; add = add } }
    {
        Ramp {
            destination,
            place,
            start,
            add,
        }
    }

    /// Where it goes.
    pub fn destination(&self) -> Destination
        ensures { result ≡ self.now.destination }
    {
        self.destination
    }

    /// Its place there, from 1.
    pub fn place(&self) -> u8
        ensures value { result ≡ self.now.place }
        ensures range { IsPlace self.now.destination result }
    {
        self.place
    }

    /// The first word.
    pub fn start(&self) -> u16
        ensures { result ≡ self.now.start }
    {
        self.start
    }

    /// What is added from message to message.
    pub fn add(&self) -> u16
        ensures { result ≡ self.now.add }
    {
        self.add
    }

    /// The place and both words are in their ranges.
    pub(crate) fn keeps_ranges(&self)
        ensures { IsRamp self.now }
    {
        // Read for the proof alone: the ranges stand with the types.
        let _start = self.start;
        let _add = self.add;
    }
}

/// A message that stands in no frame: it starts no sooner than at a tick.
#[derive(Debug, Drop)]
pub struct Insertion {
    tick: u64,
    line: Line,
    message: Message,
}

impl Model for Insertion {
    ghost use Rattle.controller_host.specs.Values.{InsertionValue, latest_tick};
    ghost use Rattle.std.specs.Prelude.{◌≤◌};

    ghost Value = { InsertionValue };

    ghost view = { λ x. record { tick = x.tick; line = x.line; message = x.message } };

    ghost invariant = { λ x. x.tick ≤ latest_tick };
}

impl Insertion {
    /// A message on a line, at a tick of 0.1 µs, 0 to 2^47, or later.
    pub fn make(tick: u64, line: Line, message: Message) -> Insertion
        requires { tick ≤ latest_tick }
        ensures { result ≡ record { tick = tick; line = line; message = message } }
    {
        Insertion {
            tick,
            line,
            message,
        }
    }

    /// The tick before which it does not start, 0 to 2^47.
    pub fn tick(&self) -> u64
        ensures value { result ≡ self.now.tick }
        ensures range { result ≤ latest_tick }
    {
        self.tick
    }

    /// The line that it is sent on.
    pub fn line(&self) -> Line
        ensures { result ≡ self.now.line }
    {
        self.line
    }

    /// The message.
    pub fn message(&self) -> &Message
        ensures value { result.now ≡ self.now.message }
        ensures lawful { IsLawful self.now.message }
    {
        // Read for the proof alone: that a message is lawful stands with its type.
        let _form = self.message.form();
        &self.message
    }

    /// The tick and the message are in their ranges, and each data word.
    pub(crate) fn keeps_ranges(&self)
        ensures { IsInsertion self.now }
    {
        // Read for the proof alone: that a message is lawful stands with its type.
        let _form = self.message.form();
        have_16_bits(self.message.data_words());
    }

    /// The same.
    pub fn copy(&self) -> Insertion
        ensures { result ≡ self.now }
    {
        Insertion {
            tick: self.tick,
            line: self.line,
            message: self.message.copy(),
        }
    }
}
