//! The commands that the host has marked as illegal.
ghost use Rattle.mil_terminal.specs.Host.{is_mark, is_mode_mark};
ghost use Rattle.mil_terminal.specs.Marking.{is_set, is_mode_set};
ghost use Rattle.mil_word.specs.Fields.{field_values, most_words};
ghost use Rattle.std.specs.Prelude.{◌≡◌, ℕ, ◌+◌, ◌*◌, Bool, true, false, replicate, ◌<◌, ◌≤◌, if◌then◌else◌};

use mil_host::{Mark, ModeMark};
use mil_word::fields::FIELD_VALUES;

/// How many rows there are: two for each subaddress.
const ROWS: usize = 2 * FIELD_VALUES;

/// A bit for each direction, subaddress and count: a row of 32 counts for each subaddress, receive commands first. The
/// row of subaddress 0, which says that a command is a mode command, has a bit for each of the 32 mode codes instead.
#[derive(Drop)]
pub struct Marks {
    rows: [u32; ROWS],
}

fn row_of(transmit: bool, sub: u8) -> usize
    requires { sub < field_values }
    ensures value { result ≡ (if transmit then field_values + sub else sub) }
    ensures range { result < 2 * field_values }
{
    if transmit {
        FIELD_VALUES + sub as usize
    } else {
        sub as usize
    }
}

impl Marks {
    /// Nothing is marked.
    pub fn none() -> Marks
        ensures rows { result ≡ record { rows = replicate (2 * field_values) 0 } }
        ensures none { (t : Bool) (s n : ℕ) → is_set result t s n ≡ false }
        ensures no_modes { (t : Bool) (code : ℕ) → is_mode_set result t code ≡ false }
    {
        Marks { rows: [0; ROWS] }
    }

    /// Sets or clears a mark.
    pub fn set(&mut self, mark: Mark, on: bool)
        ensures marks { (t : Bool) (s n : ℕ) → s < field_values → 1 ≤ n → n ≤ most_words
            → is_set self.new t s n ≡ (if is_mark t s n mark then on else is_set self.old t s n) }
        ensures modes { (t : Bool) (code : ℕ) → code < field_values
            → is_mode_set self.new t code ≡ is_mode_set self.old t code }
    {
        let row = row_of(mark.transmit(), mark.sub());
        let place = u32::from(mark.count() - 1);
        if on {
            self.rows[row] |= 1 << place;
        } else {
            self.rows[row] &= !(1 << place);
        }
    }

    /// Sets or clears a mark of mode commands.
    pub fn set_mode(&mut self, mark: ModeMark, on: bool)
        ensures modes { (t : Bool) (code : ℕ) → code < field_values
            → is_mode_set self.new t code ≡ (if is_mode_mark t code mark then on else is_mode_set self.old t code) }
        ensures marks { (t : Bool) (s n : ℕ) → 1 ≤ s → s < field_values → 1 ≤ n → n ≤ most_words
            → is_set self.new t s n ≡ is_set self.old t s n }
    {
        let row = row_of(mark.transmit(), 0);
        let place = u32::from(mark.code());
        if on {
            self.rows[row] |= 1 << place;
        } else {
            self.rows[row] &= !(1 << place);
        }
    }

    /// Whether commands of this direction, subaddress and count are marked.
    pub fn has(&self, transmit: bool, sub: u8, count: u8) -> bool
        requires sub_range { sub < field_values }
        requires count_low { 1 ≤ count }
        requires count_high { count ≤ most_words }
        ensures { result ≡ is_set self.now transmit sub count }
    {
        self.rows[row_of(transmit, sub)] >> (count - 1) & 1 == 1
    }

    /// Whether mode commands of this T/R bit and mode code are marked.
    pub fn has_mode(&self, transmit: bool, code: u8) -> bool
        requires { code < field_values }
        ensures { result ≡ is_mode_set self.now transmit code }
    {
        self.rows[row_of(transmit, 0)] >> code & 1 == 1
    }

    /// Whether none is set.
    pub fn is_empty(&self) -> bool
        ensures { result ≡ true → self.now ≡ record { rows = replicate (2 * field_values) 0 } }
    {
        self.rows == [0; ROWS]
    }

    /// The same marks.
    pub fn copy(&self) -> Marks
        ensures { result ≡ self.now }
    {
        Marks { rows: self.rows }
    }
}
