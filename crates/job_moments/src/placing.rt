//! The places of the planned faults that are due at a message.
ghost use Rattle.job_moments.specs.Chunks.{lines_in, lines_of};
ghost use Rattle.job_moments.specs.Groups.{lines_inside, lines_of_groups};
ghost use Rattle.job_moments.specs.Planning.{place_at, places_from};
ghost use Rattle.job_moments.specs.Rules.{planned_of, plans_of, HasItsCounter, KnowsChunk, KnowsGroup};
ghost use Rattle.std.specs.Prelude.{◌≡◌, ◌+◌, ◌<◌, ◌^◌, ◌++◌, All, length, OnOk};

use crate::chunks::Chunk;
use crate::counts::Counts;
use crate::groups::{Group, number_of};
use crate::met::Met;
use crate::planning::Rule;
use std::alloc::AllocError;

/// Adds the place of a rule, where it is due at the message that comes next. It fails for want of memory alone.
fn add_place(
    places: &mut Vec<usize>,
    place: usize,
    rule: &Rule,
    counts: &Counts,
    next: &Met,
) -> Result<(), AllocError>
    requires few { length counts.now.made < 1000000 }
    requires counter { HasItsCounter counts.now.selectors rule.now }
    ensures { OnOk result (places.new.items
        ≡ places.old.items ++ place_at counts.now.made next.now place (planned_of rule.now)) }
{
    if rule.is_due(counts, next) {
        places.push(place)?;
    }
    Ok(())
}

/// Adds the places of those of these rules that are due at the message that comes next, of which the first has this
/// place. It fails for want of memory alone.
fn add_places(
    places: &mut Vec<usize>,
    first: usize,
    rules: &[Rule],
    counts: &Counts,
    next: &Met,
) -> Result<(), AllocError>
    requires few { length counts.now.made < 1000000 }
    requires counters { All (HasItsCounter counts.now.selectors) rules.now }
    requires room { first + length rules.now < 2 ^ 64 }
    ensures { OnOk result (places.new.items
        ≡ places.old.items ++ places_from counts.now.made next.now first (plans_of rules.now)) }
{
    for (index, rule) in rules.iter().enumerate() {
        add_place(places, first + index, rule, counts, next)?;
    }
    Ok(())
}

/// The same of a chunk. It fails for want of memory alone.
fn add_places_in(
    places: &mut Vec<usize>,
    first: usize,
    chunk: &Chunk<Rule>,
    counts: &Counts,
    next: &Met,
) -> Result<(), AllocError>
    requires few { length counts.now.made < 1000000 }
    requires known { KnowsChunk counts.now chunk.now }
    requires room { first + length (lines_in chunk.now) < 2 ^ 64 }
    ensures { OnOk result (places.new.items
        ≡ places.old.items ++ places_from counts.now.made next.now first (plans_of (lines_in chunk.now))) }
{
    if chunk.quiet.has(counts.number(), next) {
        return Ok(());
    }
    add_places(places, first, &chunk.lines, counts, next)
}

/// The same of chunks. It fails for want of memory alone.
fn add_places_of(
    places: &mut Vec<usize>,
    first: usize,
    chunks: &[Chunk<Rule>],
    counts: &Counts,
    next: &Met,
) -> Result<(), AllocError>
    requires few { length counts.now.made < 1000000 }
    requires known { All (KnowsChunk counts.now) chunks.now }
    requires room { first + length (lines_of chunks.now) < 2 ^ 64 }
    ensures { OnOk result (places.new.items
        ≡ places.old.items ++ places_from counts.now.made next.now first (plans_of (lines_of chunks.now))) }
{
    let mut place = first;
    for chunk in chunks {
        add_places_in(places, place, chunk, counts, next)?;
        place += chunk.lines.len();
    }
    Ok(())
}

/// The same of a group. It fails for want of memory alone.
fn add_places_inside(
    places: &mut Vec<usize>,
    first: usize,
    group: &Group<Rule>,
    counts: &Counts,
    next: &Met,
) -> Result<(), AllocError>
    requires few { length counts.now.made < 1000000 }
    requires known { KnowsGroup counts.now group.now }
    requires room { first + length (lines_inside group.now) < 2 ^ 64 }
    ensures { OnOk result (places.new.items
        ≡ places.old.items ++ places_from counts.now.made next.now first (plans_of (lines_inside group.now))) }
{
    if group.quiet.has(counts.number(), next) {
        return Ok(());
    }
    add_places_of(places, first, &group.chunks, counts, next)
}

/// Adds the places of all rules that are due at the message that comes next, counted from 0. It fails for want of
/// memory alone.
pub(crate) fn add_due_places(
    places: &mut Vec<usize>,
    groups: &[Group<Rule>],
    counts: &Counts,
    next: &Met,
) -> Result<(), AllocError>
    requires few { length counts.now.made < 1000000 }
    requires known { All (KnowsGroup counts.now) groups.now }
    requires room { length (lines_of_groups groups.now) < 2 ^ 64 }
    ensures { OnOk result (places.new.items
        ≡ places.old.items ++ places_from counts.now.made next.now 0 (plans_of (lines_of_groups groups.now))) }
{
    let mut first = 0;
    for group in groups {
        add_places_inside(places, first, group, counts, next)?;
        first += number_of(&group.chunks);
    }
    Ok(())
}
