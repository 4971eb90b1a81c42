//! The values of the actions by which terminals are of other kinds, and of words that change.
ghost use Rattle.mil_host.specs.Ranges.{IsRamp};
ghost use Rattle.mil_host.specs.Values.{least_set_gap, most_set_gap};
ghost use Rattle.mil_word.specs.Fields.{greatest_field, highest_put_up, most_words};
ghost use Rattle.std.specs.Prelude.{◌≡◌, ◌≤◌};

use std::marker::Model;

/// The greatest mode code (MIL-STD-1553B 4.3.3.5.1.7).
pub const GREATEST_CODE: u8 = 31;

/// The least gap before a reply that a host may set, in ticks of 0.1 µs (own choice).
pub const LEAST_SET_GAP: u8 = 21;

/// The longest gap that it may set: the longest that a record tells apart (own choice).
pub const MOST_SET_GAP: u8 = 255;

/// A T/R bit and a mode code of 0 to 31.
#[derive(Clone, Copy, Debug)]
pub struct ModeMark {
    transmit: bool,
    code: u8,
}

impl Model for ModeMark {
    ghost use Rattle.mil_host.specs.Values.{ModeMarked};
    ghost use Rattle.mil_word.specs.Fields.{greatest_field};
    ghost use Rattle.std.specs.Prelude.{◌≤◌};

    ghost Value = { ModeMarked };

    ghost view = { λ m. record { transmit = m.transmit; code = m.code } };

    ghost invariant = { λ m. m.code ≤ greatest_field };

    ghost inverse = { λ m. record { transmit = m.transmit; code = m.code } };
}

impl ModeMark {
    /// The mark of mode commands with the T/R bit 'transmit' (`transmit`) or without.
    pub fn make(transmit: bool, code: u8) -> ModeMark
        requires { code ≤ greatest_field }
        ensures { result ≡ record { transmit = transmit; code = code } }
    {
        ModeMark { transmit, code }
    }

    /// Whether it is of mode commands with the T/R bit 'transmit'.
    pub fn transmit(&self) -> bool
        ensures { result ≡ self.now.transmit }
    {
        self.transmit
    }

    /// The mode code, 0 to 31.
    pub fn code(&self) -> u8
        ensures value { result ≡ self.now.code }
        ensures range { result ≤ greatest_field }
    {
        self.code
    }
}

/// A gap before replies of 21 to 255 ticks of 0.1 µs.
#[derive(Clone, Copy, Debug)]
pub struct ReplyGap {
    ticks: u8,
}

impl Model for ReplyGap {
    ghost use Rattle.mil_host.specs.Values.{least_set_gap, most_set_gap};
    ghost use Rattle.std.specs.Prelude.{ℕ, ◌≤◌};

    ghost Value = { ℕ };

    ghost view = { λ g. g.ticks };

    ghost invariant = { λ g. (least_set_gap ≤ g.ticks) × (g.ticks ≤ most_set_gap) };

    ghost inverse = { λ n. record { ticks = n } };
}

impl ReplyGap {
    /// The gap of so many ticks.
    pub fn make(ticks: u8) -> ReplyGap
        requires low { least_set_gap ≤ ticks }
        requires high { ticks ≤ most_set_gap }
        ensures { result ≡ ticks }
    {
        ReplyGap { ticks }
    }

    /// The ticks, 21 to 255.
    pub fn ticks(&self) -> u8
        ensures value { result ≡ self.now }
        ensures low { least_set_gap ≤ result }
        ensures high { result ≤ most_set_gap }
    {
        self.ticks
    }
}

/// A word that changes: the place of 1 to 32 at a subaddress of 1 to 29, the word that it begins with, and what is
/// added each time.
#[derive(Clone, Copy, Debug)]
pub struct WordRamp {
    place: u8,
    index: u8,
    start: u16,
    add: u16,
}

impl Model for WordRamp {
    ghost use Rattle.mil_host.specs.Values.{Ramped};
    ghost use Rattle.mil_word.specs.Fields.{highest_put_up, most_words};
    ghost use Rattle.std.specs.Prelude.{◌≤◌};

    ghost Value = { Ramped };

    ghost view = { λ r. record { sub = r.place; index = r.index; start = r.start; add = r.add } };

    ghost invariant = { λ r. (1 ≤ r.place) × (r.place ≤ highest_put_up) × (1 ≤ r.index) × (r.index ≤ most_words) };

    ghost inverse = { λ r. record { place = r.sub; index = r.index; start = r.start; add = r.add } };
}

impl WordRamp {
    /// The ramp at a place of the words for a subaddress.
    pub fn make(sub: u8, index: u8, start: u16, add: u16) -> WordRamp
        requires sub_low { 1 ≤ sub }
        requires sub_high { sub ≤ highest_put_up }
        requires index_low { 1 ≤ index }
        requires index_high { index ≤ most_words }
        ensures { result ≡ record { sub = sub; index = index; start = start; add = add } }
    {
        WordRamp {
            place: sub,
            index,
            start,
            add,
        }
    }

    /// The subaddress, 1 to 29.
    pub fn sub(&self) -> u8
        ensures value { result ≡ self.now.sub }
        ensures low { 1 ≤ result }
        ensures high { result ≤ highest_put_up }
    {
        self.place
    }

    /// The place among the words, 1 to 32.
    pub fn index(&self) -> u8
        ensures value { result ≡ self.now.index }
        ensures low { 1 ≤ result }
        ensures high { result ≤ most_words }
    {
        self.index
    }

    /// The word of the first reply.
    pub fn start(&self) -> u16
        ensures { result ≡ self.now.start }
    {
        self.start
    }

    /// What each reply that carries the word adds to it, modulo 65536.
    pub fn add(&self) -> u16
        ensures { result ≡ self.now.add }
    {
        self.add
    }

    /// The subaddress, the place and both words are in their ranges.
    pub(crate) fn keeps_ranges(&self)
        ensures { IsRamp self.now }
    {
        // Read for the proof alone: the ranges stand with the types.
        let _start = self.start;
        let _add = self.add;
        let _index = self.index;
    }
}
