//! How the placed actions of a number are found among the others.
ghost use Rattle.bc_machine.specs.Beside.{BesideLists};
ghost use Rattle.bc_machine.specs.Rows.{rows_at, IsRow};
ghost use Rattle.bc_machine.specs.Schedules.{AreOf, AreRising, AreSorted, BeginsAt, FindsRows, finds_alone};
ghost use Rattle.std.specs.List.{AllWithin};
ghost use Rattle.std.specs.Prelude.{◌≡◌, ◌<◌, ◌≤◌, List, IsTrue, All, IfOk, length, true};

use crate::action_rows::Row;
use crate::beside::Beside;
use crate::schedule::Schedule;
use std::alloc::{AllocError, Global};

/// So many rows behind a place are looked at in turn before others are searched.
const FEW: usize = 4;

/// How the rows of a number are found among the others.
#[derive(Drop)]
pub enum Lookup {
    /// Numbers never fall, so those of a number stand together.
    Rising,
    /// Those of a number stand together among the same rows by rising number.
    Sorted(Vec<Row>),
    /// By a look at each row.
    Each,
}

/// Whether all rows in front of a place have numbers below one, where numbers never fall: a look at the last of them.
fn are_below(rows: &[Row], least: u64, place: usize) -> bool
    requires { place ≤ length rows.now }
    ensures { AreRising rows.now → IsTrue result → AllWithin (λ (r : Row). r.number < least) rows.now 0 place }
{
    if place == 0 {
        return true;
    }
    u64::from(rows[place - 1].number) < least
}

/// Whether no row from a place on has a number below one, where numbers never fall: a look at the first of them.
fn are_others(rows: &[Row], least: u64, place: usize) -> bool
    ensures { AreRising rows.now → IsTrue result
        → AllWithin (λ (r : Row). least ≤ r.number) rows.now place (length rows.now) }
{
    if place >= rows.len() {
        return true;
    }
    u64::from(rows[place].number) >= least
}

/// Whether so many rows have numbers below one, where numbers never fall: a look at the two rows beside the place.
fn begins_at(rows: &[Row], least: u64, place: usize) -> bool
    ensures { AreRising rows.now → IsTrue result → BeginsAt least rows.now place }
{
    place <= rows.len() && are_below(rows, least, place) && are_others(rows, least, place)
}

/// A place a few rows on, at the first one of a number that is not below.
fn few_on(rows: &[Row], least: u64, near: usize) -> usize {
    let mut place = near;
    for _ in 0..FEW {
        if place >= rows.len() || u64::from(rows[place].number) >= least {
            return place;
        }
        place += 1;
    }
    place
}

/// How many rows have numbers below one, where numbers never fall: near a place, or the first or the last ones, without
/// a search.
fn begin_of(rows: &[Row], least: u64, near: usize) -> usize
    ensures { AreRising rows.now → BeginsAt least rows.now result }
{
    let guess = few_on(rows, least, near);
    if begins_at(rows, least, guess) {
        return guess;
    }
    if begins_at(rows, least, 0) {
        return 0;
    }
    if begins_at(rows, least, rows.len()) {
        return rows.len();
    }
    rows.partition_point(|row| u64::from(row.number) < least)
}

// The part of rows whose numbers never fall that has all of one number.
fn part(rows: &[Row], number: u32, near: usize) -> &[Row]
    requires { AreRising rows.now }
    ensures same { rows_at number result.now ≡ rows_at number rows.now }
    ensures rows { (beside : BesideLists) → All (IsRow beside) rows.now → All (IsRow beside) result.now }
    ensures alone { AreOf number result.now }
{
    let least = u64::from(number);
    let from = begin_of(rows, least, near);
    let rest = &rows[from..];
    let to = begin_of(rest, least + 1, 0);
    &rest[..to]
}

/// Rows by rising number, those of one number in their order.
fn sorted(alloc: Global, rows: &[Row]) -> Result<Vec<Row>, AllocError>
    ensures { (beside : BesideLists) → All (IsRow beside) rows.now
        → IfOk result (λ v. AreSorted beside rows.now v.items) }
{
    let mut sorted = rows.to_vec(alloc)?;
    sorted.sort_by_key(|row| row.number)?;
    Ok(sorted)
}

impl Lookup {
    /// From now on nothing is known of the rows but, at most, that their numbers never fall.
    pub fn reset(&mut self, rising: bool)
        ensures { (beside : BesideLists) (rows : List Row) → (IsTrue rising → AreRising rows)
            → FindsRows self.new beside rows }
    {
        *self = if rising { Lookup::Rising } else { Lookup::Each };
    }

    /// Whether the numbers are known never to fall.
    pub fn is_rising(&self) -> bool
        ensures { (beside : BesideLists) (rows : List Row) → FindsRows self.now beside rows → IsTrue result
            → AreRising rows }
    {
        matches!(self, Lookup::Rising)
    }

    /// Whether the rows that are found are of one number alone.
    pub fn finds_alone(&self) -> bool
        ensures { result ≡ finds_alone self.now }
    {
        !matches!(self, Lookup::Each)
    }

    /// Where the rows of a number begin, as far as it is known; without a search where those of a number a little lower
    /// begin near a place.
    pub fn begin(&self, rows: &[Row], number: u32, near: usize) -> usize {
        match self {
            Lookup::Rising => begin_of(rows, u64::from(number), near),
            Lookup::Sorted(sorted) => begin_of(sorted.as_slice(), u64::from(number), near),
            Lookup::Each => 0,
        }
    }

    /// Rows that have all of a number, in their order; without a search where those of a number a little lower begin
    /// near a place.
    pub fn rows_of<'a>(
        &'a self,
        rows: &'a [Row],
        beside: &Beside,
        number: u32,
        near: usize,
    ) -> &'a [Row]
        requires found { FindsRows self.now beside.now.lists rows.now }
        requires rows { All (IsRow beside.now.lists) rows.now }
        ensures same { rows_at number result.now ≡ rows_at number rows.now }
        ensures rows { All (IsRow beside.now.lists) result.now }
        ensures alone { finds_alone self.now ≡ true → AreOf number result.now }
    {
        match self {
            Lookup::Rising => part(rows, number, near),
            Lookup::Sorted(sorted) => part(sorted.as_slice(), number, near),
            Lookup::Each => rows,
        }
    }

    /// How the rows of a copy are found: without a look at each. It fails for want of memory alone.
    pub fn of_copy(&self, alloc: Global, rows: &[Row]) -> Result<Lookup, AllocError>
        ensures { (beside : BesideLists) → All (IsRow beside) rows.now → FindsRows self.now beside rows.now
            → IfOk result (λ lookup. FindsRows lookup beside rows.now) }
    {
        match self {
            Lookup::Rising => Ok(Lookup::Rising),
            Lookup::Sorted(sorted) => Ok(Lookup::Sorted(sorted.as_slice().to_vec(alloc)?)),
            Lookup::Each => Ok(Lookup::Sorted(sorted(alloc, rows)?)),
        }
    }
}

impl Schedule {
    /// Notes where the actions of a number begin, so that these and those of the next numbers are found without a
    /// search.
    #[inline(always)]
    pub fn draw_near(&mut self, number: u32)
        ensures { self.new ≡ self.old }
    {
        if !self.rows.is_empty() {
            self.near = self.lookup.begin(self.rows.as_slice(), number, self.near);
        }
    }
}
