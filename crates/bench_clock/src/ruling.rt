//! The mark that rules a stamp.
ghost use Rattle.bench_clock.specs.Rising.{IsRising};
ghost use Rattle.bench_clock.specs.declared.clock.Mark.{Mark};
ghost use Rattle.std.specs.Prelude.{◌≡◌, ◌≤◌, ◌<◌, ℕ, length, slice_get, Some};

use crate::clock::Mark;

/// The place of the last mark at or before a stamp, by halving. Condition: the first one is.
pub(crate) fn place_of(marks: &[Mark], stamp: u64) -> usize
    requires rising { IsRising marks.now }
    requires some { 0 < length marks.now }
    requires first { (m : Mark) → slice_get marks.now 0 ≡ Some m → m.counter ≤ stamp }
    ensures within { result < length marks.now }
    ensures from { (m : Mark) → slice_get marks.now result ≡ Some m → m.counter ≤ stamp }
    ensures last { (j : ℕ) (m : Mark) → result < j → slice_get marks.now j ≡ Some m → stamp < m.counter }
{
    marks.partition_point(|mark| mark.counter <= stamp) - 1
}
