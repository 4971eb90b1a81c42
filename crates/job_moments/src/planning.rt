//! Which planned faults are due at a message.
ghost use Rattle.job_moments.specs.Chunks.{lines_in, lines_of};
ghost use Rattle.job_moments.specs.Groups.{lines_inside, lines_of_groups};
ghost use Rattle.job_moments.specs.Planning.{faults_at, is_occasion, places_from, MayStand, PlannedFault};
ghost use Rattle.job_moments.specs.Quiet.{IsPart, Sleeps};
ghost use Rattle.job_moments.specs.Rules.{occasion_of, planned_of, plans_of, HasItsCounter, KnowsChunk, KnowsGroup};
ghost use Rattle.std.specs.Prelude.{◌≡◌, ◌<◌, ◌≤◌, ◌++◌, ◌∷◌, [], All, List, length, OnOk, OnErr};

use crate::chunks::Chunk;
use crate::counts::Counts;
use crate::groups::{Group, put_behind, quiet_for_all};
use crate::met::Met;
use crate::occasions::Occasion;
use crate::placing::add_due_places;
use crate::quiet::Quiet;
use arrayvec::ArrayVec;
use mil_line::Fault;
use std::alloc::{AllocError, Global};
use std::marker::Model;

/// A planned fault, and the place of the counter of its occasion.
#[derive(Drop)]
pub(crate) struct Rule {
    occasion: Occasion,
    counter: usize,
    fault: Fault,
}

impl Rule {
    /// Whether it is due at the message that comes next.
    pub(crate) fn is_due(&self, counts: &Counts, next: &Met) -> bool
        requires few { length counts.now.made < 1000000 }
        requires counter { HasItsCounter counts.now.selectors self.now }
        ensures { result ≡ is_occasion counts.now.made next.now self.now.occasion }
    {
        self.occasion.is_next(self.counter, counts, next)
    }

    /// Those of some messages at which it can't be due, behind the last that was made, of which this is the start.
    fn narrowed(&self, quiet: Quiet, counts: &Counts, start: u64) -> Quiet
        requires few { length counts.now.made ≤ 1000000 }
        requires counter { HasItsCounter counts.now.selectors self.now }
        ensures part { IsPart result quiet }
        ensures sleeps { Sleeps result counts.now.made (occasion_of self.now) }
    {
        self.occasion.narrowed(quiet, self.counter, counts, start)
    }
}

/// Adds the fault of one rule more, where it is due at the message that comes next and fewer than four are before it.
fn add(faults: &mut ArrayVec<Fault, 4>, rule: &Rule, counts: &Counts, next: &Met)
    requires few { length counts.now.made < 1000000 }
    requires counter { HasItsCounter counts.now.selectors rule.now }
    ensures { (before : List PlannedFault) → faults.old.items ≡ faults_at counts.now.made next.now before
        → faults.new.items ≡ faults_at counts.now.made next.now (before ++ planned_of rule.now ∷ []) }
{
    if !faults.is_full() && rule.is_due(counts, next) {
        faults.push(rule.fault);
    }
}

/// Adds the faults of these rules that are due at the message that comes next, as long as fewer than four are there.
fn add_all(faults: &mut ArrayVec<Fault, 4>, rules: &[Rule], counts: &Counts, next: &Met)
    requires few { length counts.now.made < 1000000 }
    requires counters { All (HasItsCounter counts.now.selectors) rules.now }
    ensures { (before : List PlannedFault) → faults.old.items ≡ faults_at counts.now.made next.now before
        → faults.new.items ≡ faults_at counts.now.made next.now (before ++ plans_of rules.now) }
{
    for rule in rules {
        add(faults, rule, counts, next);
    }
}

/// Adds the faults of a chunk that are due at the message that comes next, as long as fewer than four are there.
fn add_chunk(faults: &mut ArrayVec<Fault, 4>, chunk: &Chunk<Rule>, counts: &Counts, next: &Met)
    requires few { length counts.now.made < 1000000 }
    requires known { KnowsChunk counts.now chunk.now }
    ensures { (before : List PlannedFault) → faults.old.items ≡ faults_at counts.now.made next.now before
        → faults.new.items ≡ faults_at counts.now.made next.now (before ++ plans_of (lines_in chunk.now)) }
{
    if !chunk.quiet.has(counts.number(), next) {
        add_all(faults, &chunk.lines, counts, next);
    }
}

/// Adds the faults of these chunks that are due at the message that comes next, as long as fewer than four are there.
fn add_chunks(faults: &mut ArrayVec<Fault, 4>, chunks: &[Chunk<Rule>], counts: &Counts, next: &Met)
    requires few { length counts.now.made < 1000000 }
    requires known { All (KnowsChunk counts.now) chunks.now }
    ensures { (before : List PlannedFault) → faults.old.items ≡ faults_at counts.now.made next.now before
        → faults.new.items ≡ faults_at counts.now.made next.now (before ++ plans_of (lines_of chunks.now)) }
{
    for chunk in chunks {
        add_chunk(faults, chunk, counts, next);
    }
}

/// Adds the faults of a group that are due at the message that comes next, as long as fewer than four are there.
fn add_group(faults: &mut ArrayVec<Fault, 4>, group: &Group<Rule>, counts: &Counts, next: &Met)
    requires few { length counts.now.made < 1000000 }
    requires known { KnowsGroup counts.now group.now }
    ensures { (before : List PlannedFault) → faults.old.items ≡ faults_at counts.now.made next.now before
        → faults.new.items ≡ faults_at counts.now.made next.now (before ++ plans_of (lines_inside group.now)) }
{
    if !group.quiet.has(counts.number(), next) {
        add_chunks(faults, &group.chunks, counts, next);
    }
}

/// The faults of the first four rules that are due at the message that comes next.
fn due(groups: &[Group<Rule>], counts: &Counts, next: &Met) -> ArrayVec<Fault, 4>
    requires few { length counts.now.made < 1000000 }
    requires known { All (KnowsGroup counts.now) groups.now }
    ensures { result.items ≡ faults_at counts.now.made next.now (plans_of (lines_of_groups groups.now)) }
{
    let mut faults = ArrayVec::new();
    for group in groups {
        add_group(&mut faults, group, counts, next);
    }
    faults
}

/// Messages at which none of these rules is due, behind the last that was made, of which this is the start.
fn quiet_of(rules: &[Rule], counts: &Counts, start: u64) -> Quiet
    requires few { length counts.now.made ≤ 1000000 }
    requires counters { All (HasItsCounter counts.now.selectors) rules.now }
    ensures { All (λ rule. Sleeps result counts.now.made (occasion_of rule)) rules.now }
{
    let mut quiet = Quiet::all();
    for rule in rules {
        quiet = rule.narrowed(quiet, counts, start);
    }
    quiet
}

/// Behind one message more a chunk learns at which messages none of its rules will be due, where it doesn't know it of
/// those that are like the last.
fn learn(chunk: &mut Chunk<Rule>, counts: &Counts, last: &Met)
    requires few { length counts.now.made ≤ 1000000 }
    requires known { KnowsChunk counts.now chunk.old }
    ensures lines { lines_in chunk.new ≡ lines_in chunk.old }
    ensures known { KnowsChunk counts.now chunk.new }
{
    if !chunk.quiet.has(counts.number(), last) {
        chunk.quiet = quiet_of(&chunk.lines, counts, last.start);
    }
}

/// Behind one message more each of these chunks learns at which messages none of its rules will be due.
fn learn_all(chunks: &mut [Chunk<Rule>], counts: &Counts, last: &Met)
    requires few { length counts.now.made ≤ 1000000 }
    requires known { All (KnowsChunk counts.now) chunks.old }
    ensures lines { lines_of chunks.new ≡ lines_of chunks.old }
    ensures known { All (KnowsChunk counts.now) chunks.new }
{
    for chunk in chunks.iter_mut() {
        learn(chunk, counts, last);
    }
}

/// Behind one message more a group learns at which messages none of its rules will be due, where it doesn't know it of
/// those that are like the last.
fn learn_inside(group: &mut Group<Rule>, counts: &Counts, last: &Met)
    requires few { length counts.now.made ≤ 1000000 }
    requires known { KnowsGroup counts.now group.old }
    ensures lines { lines_inside group.new ≡ lines_inside group.old }
    ensures known { KnowsGroup counts.now group.new }
{
    if !group.quiet.has(counts.number(), last) {
        learn_all(&mut group.chunks, counts, last);
        group.quiet = quiet_for_all(&group.chunks);
    }
}

/// Behind one message more each of these groups learns at which messages none of its rules will be due.
fn learn_groups(groups: &mut [Group<Rule>], counts: &Counts, last: &Met)
    requires few { length counts.now.made ≤ 1000000 }
    requires known { All (KnowsGroup counts.now) groups.old }
    ensures lines { lines_of_groups groups.new ≡ lines_of_groups groups.old }
    ensures known { All (KnowsGroup counts.now) groups.new }
{
    for group in groups.iter_mut() {
        learn_inside(group, counts, last);
    }
}

/// The planned faults of a job, in the order of its text, and the messages that were made. The rules stand in chunks of
/// at most 8, and these in groups of at most 64, of which each knows at which messages none of its rules is due: so a
/// message costs as much as there are groups, and selectors that are counted.
#[derive(Drop)]
pub struct Occasions {
    groups: Vec<Group<Rule>>,
    /// How many rules they have.
    number: usize,
    counts: Counts,
    alloc: Global,
}

impl Model for Occasions {
    ghost use Rattle.job_moments.specs.Planning.{PlanState};

    ghost Value = { PlanState };

    ghost use Rattle.job_moments.specs.Groups.{lines_of_groups};
    ghost use Rattle.job_moments.specs.Rules.{plans_of, AllKnow};

    ghost view = { λ p. record { faults = plans_of (lines_of_groups p.groups.items); made = p.counts.made } };

    ghost invariant = { λ p. AllKnow p.groups.items p.counts p.number };
}

impl Occasions {
    /// No planned fault, before any message. It takes no memory.
    pub fn none(alloc: Global) -> Occasions
        ensures { result ≡ record { faults = []; made = [] } }
    {
        Occasions {
            groups: Vec::new(alloc),
            number: 0,
            counts: Counts::none(alloc),
            alloc,
        }
    }

    /// One planned fault more, behind the others, before any message is made. It fails for want of memory alone, and
    /// then nothing changes.
    pub fn push(&mut self, occasion: Occasion, fault: Fault) -> Result<(), AllocError>
        requires made { self.old.made ≡ [] }
        requires stands { MayStand occasion }
        ensures pushed { OnOk result (self.new ≡ record {
          faults = self.old.faults ++ record { occasion = occasion; fault = fault } ∷ [];
          made = [];
        }) }
        ensures same { OnErr result (self.new ≡ self.old) }
    {
        // So many as a `usize` counts have no room in memory.
        let Some(number) = self.number.checked_add(1) else {
            return Err(AllocError);
        };
        let counter = self.counts.counter_of(occasion.selector())?;
        let rule = Rule {
            occasion,
            counter,
            fault,
        };
        put_behind(&mut self.groups, rule, self.alloc)?;
        self.number = number;
        Ok(())
    }

    /// How many planned faults there are.
    pub fn len(&self) -> usize
        ensures { result ≡ length self.now.faults }
    {
        self.number
    }

    /// The faults of a message: the first four, in the order of the text, of those that are due at it.
    pub fn faults(&self, next: &Met) -> ArrayVec<Fault, 4>
        requires { length self.now.made < 1000000 }
        ensures { result.items ≡ faults_at self.now.made next.now self.now.faults }
    {
        due(&self.groups, &self.counts, next)
    }

    /// Adds the places of all planned faults that are due at a message, beyond the first four too: counted from 0, in
    /// the order in which they were put in. It fails for want of memory alone; then some of them may have been added.
    pub fn places(&self, next: &Met, places: &mut Vec<usize>) -> Result<(), AllocError>
        requires { length self.now.made < 1000000 }
        ensures { OnOk result (places.new.items
            ≡ places.old.items ++ places_from self.now.made next.now 0 self.now.faults) }
    {
        // So many as a `usize` counts, for the proof.
        let _number = self.number;
        add_due_places(places, &self.groups, &self.counts, next)
    }

    /// One message more was made.
    pub fn meet(&mut self, met: &Met)
        requires { length self.old.made < 1000000 }
        ensures { self.new ≡ record { faults = self.old.faults; made = self.old.made ++ met.now ∷ [] } }
    {
        self.counts.meet(met);
        learn_groups(&mut self.groups, &self.counts, met);
    }
}
