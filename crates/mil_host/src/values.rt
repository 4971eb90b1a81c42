//! The values of an action that keep their ranges.
ghost use Rattle.mil_host.specs.Ranges.{IsPutUp, IsMark};
ghost use Rattle.mil_word.specs.Fields.{highest_put_up, highest_subaddress, most_words};
ghost use Rattle.mil_word.specs.Timing.{least_response, latest_response};
ghost use Rattle.std.specs.Prelude.{◌≡◌, ◌≤◌, ◌<◌, length, All};

use arrayvec::ArrayVec;
use mil_word::copied;
use std::marker::Model;

/// The data words that a host puts up for a transmit command at a subaddress: 1 to 32 words, at a subaddress of 1 to
/// 29. (Own choice: subaddress 30 wraps around, and takes none.)
#[derive(Debug, Drop)]
pub struct TransmitWords {
    place: u8,
    words: ArrayVec<u16, 32>,
}

impl Model for TransmitWords {
    ghost use Rattle.mil_host.specs.Values.{PutUp};
    ghost use Rattle.mil_word.specs.Fields.{highest_put_up, most_words};
    ghost use Rattle.std.specs.Prelude.{◌≤◌, length};

    ghost Value = { PutUp };

    ghost view = { λ w. record { sub = w.place; words = w.words.items } };

    ghost invariant = { λ w. (1 ≤ w.place) × (w.place ≤ highest_put_up) × (1 ≤ length w.words.items)
        × (length w.words.items ≤ most_words) };
}

impl TransmitWords {
    /// The words for a subaddress.
    pub fn make(sub: u8, words: ArrayVec<u16, 32>) -> TransmitWords
        requires low { 1 ≤ sub }
        requires high { sub ≤ highest_put_up }
        requires some { 1 ≤ length words.items }
        ensures { result ≡ record { sub = sub; words = words.items } }
    {
        // At most 32 words, by the type of their list.
        let _ = words.as_slice();
        TransmitWords { place: sub, words }
    }

    /// The subaddress, 1 to 29.
    pub fn sub(&self) -> u8
        ensures value { result ≡ self.now.sub }
        ensures low { 1 ≤ result }
        ensures high { result ≤ highest_put_up }
    {
        self.place
    }

    /// The words, 1 to 32 of them.
    pub fn words(&self) -> &[u16]
        ensures value { result.now ≡ self.now.words }
        ensures some { 1 ≤ length result.now }
        ensures few { length result.now ≤ most_words }
    {
        self.words.as_slice()
    }

    /// The subaddress, the count of words and each word are in their ranges.
    pub(crate) fn keeps_ranges(&self)
        ensures { IsPutUp self.now }
    {
        have_16_bits(self.words.as_slice());
    }

    /// The same words for the same subaddress.
    pub fn copy(&self) -> TransmitWords
        ensures { result ≡ self.now }
    {
        TransmitWords {
            place: self.place,
            words: copied(&self.words),
        }
    }
}

/// Data words have 16 bits.
fn have_16_bits(words: &[u16])
    ensures { All (λ w. w < 65536) words.now }
{
    // Read for the proof alone: the range stands with the type.
    let _count = words.len();
}

/// A direction, a subaddress of 1 to 30 and a count of 1 to 32 data words.
#[derive(Clone, Copy, Debug)]
pub struct Mark {
    transmit: bool,
    sub: u8,
    count: u8,
}

impl Model for Mark {
    ghost use Rattle.mil_host.specs.Values.{Marked};
    ghost use Rattle.mil_word.specs.Fields.{highest_subaddress, most_words};
    ghost use Rattle.std.specs.Prelude.{◌≤◌};

    ghost Value = { Marked };

    ghost view = { λ m. record { transmit = m.transmit; sub = m.sub; count = m.count } };

    ghost invariant = { λ m. (1 ≤ m.sub) × (m.sub ≤ highest_subaddress) × (1 ≤ m.count) × (m.count ≤ most_words) };

    ghost inverse = { λ m. record { transmit = m.transmit; sub = m.sub; count = m.count } };
}

impl Mark {
    /// The mark of transmit commands (`transmit`) or of receive commands.
    pub fn make(transmit: bool, sub: u8, count: u8) -> Mark
        requires sub_low { 1 ≤ sub }
        requires sub_high { sub ≤ highest_subaddress }
        requires count_low { 1 ≤ count }
        requires count_high { count ≤ most_words }
        ensures { result ≡ record { transmit = transmit; sub = sub; count = count } }
    {
        Mark {
            transmit,
            sub,
            count,
        }
    }

    /// Whether it is of transmit commands.
    pub fn transmit(&self) -> bool
        ensures { result ≡ self.now.transmit }
    {
        self.transmit
    }

    /// The subaddress, 1 to 30.
    pub fn sub(&self) -> u8
        ensures value { result ≡ self.now.sub }
        ensures low { 1 ≤ result }
        ensures high { result ≤ highest_subaddress }
    {
        self.sub
    }

    /// The count of data words, 1 to 32.
    pub fn count(&self) -> u8
        ensures value { result ≡ self.now.count }
        ensures low { 1 ≤ result }
        ensures high { result ≤ most_words }
    {
        self.count
    }

    /// The subaddress and the count are in their ranges.
    pub(crate) fn keeps_ranges(&self)
        ensures { IsMark self.now }
    {
        // Read for the proof alone: the ranges stand with the type.
        let _count = self.count;
    }
}

/// A response time of 40 to 120 ticks of 0.1 µs (MIL-STD-1553B 4.3.3.8).
#[derive(Clone, Copy, Debug)]
pub struct ResponseGap {
    ticks: u8,
}

impl Model for ResponseGap {
    ghost use Rattle.mil_word.specs.Timing.{least_response, latest_response};
    ghost use Rattle.std.specs.Prelude.{ℕ, ◌≤◌};

    ghost Value = { ℕ };

    ghost view = { λ g. g.ticks };

    ghost invariant = { λ g. (least_response ≤ g.ticks) × (g.ticks ≤ latest_response) };

    ghost inverse = { λ n. record { ticks = n } };
}

impl ResponseGap {
    /// The response time of so many ticks.
    pub fn make(ticks: u8) -> ResponseGap
        requires low { least_response ≤ ticks }
        requires high { ticks ≤ latest_response }
        ensures { result ≡ ticks }
    {
        ResponseGap { ticks }
    }

    /// The ticks, 40 to 120.
    pub fn ticks(&self) -> u8
        ensures value { result ≡ self.now }
        ensures low { least_response ≤ result }
        ensures high { result ≤ latest_response }
    {
        self.ticks
    }
}
