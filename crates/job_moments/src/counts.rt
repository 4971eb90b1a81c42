//! What was counted of the messages made.
ghost use Rattle.job_moments.specs.Counting.{was_met, HasCounted, HasCounter, MayCount, selectors_of};
ghost use Rattle.job_moments.specs.Moments.{count_of, starts_by};
ghost use Rattle.std.specs.Prelude.{◌≡◌, ◌<◌, ◌++◌, ◌∷◌, ◌||◌, [], ℕ, All, List, length, nat_le, slice_get, true};
ghost use Rattle.std.specs.Prelude.{Option, Some, IfOk, IfSome, OnErr};
ghost use Rattle.std.specs.List.{list_any};

use crate::met::Met;
use history::History;
use judge_rules::Selector;
use std::alloc::{AllocError, Global};
use std::marker::Model;

/// How many of the messages made a selector is about.
#[derive(Drop)]
struct Counter {
    selector: Selector,
    count: u32,
}

impl Counter {
    /// Counts one message more.
    fn meet(&mut self, met: &Met)
        requires { self.old.count < 1000000 }
        ensures selector { self.new.selector ≡ self.old.selector }
        ensures counted { (made : List Met) → HasCounted made self.old → HasCounted (made ++ met.now ∷ []) self.new }
    {
        if met.is_of(self.selector) {
            self.count += 1;
        }
    }
}

/// Counts one message more in each counter.
fn count(counters: &mut [Counter], met: &Met)
    requires { All MayCount counters.old }
    ensures selectors { selectors_of counters.new ≡ selectors_of counters.old }
    ensures counted { (made : List Met) → All (HasCounted made) counters.old
        → All (HasCounted (made ++ met.now ∷ [])) counters.new }
{
    for counter in counters.iter_mut() {
        counter.meet(met);
    }
}

/// Whether two selectors are the same.
fn is_same(one: Selector, other: Selector) -> bool
    ensures { result ≡ true → one ≡ other }
{
    one == other
}

/// The place of a selector's counter.
fn place_of(counters: &[Counter], selector: Selector) -> Option<usize>
    ensures { IfSome result (λ place. slice_get (selectors_of counters.now) place ≡ Some selector) }
{
    for (place, counter) in counters.iter().enumerate() {
        if is_same(counter.selector, selector) {
            return Some(place);
        }
    }
    None
}

/// The latest of these starts.
fn latest_of(latest: Option<u64>, start: u64) -> Option<u64>
    ensures { (ticks : ℕ) → was_met result ticks ≡ (was_met latest ticks || nat_le ticks start) }
{
    match latest {
        None => Some(start),
        Some(latest) => Some(latest.max(start)),
    }
}

/// The messages that were made, how many they are, the latest of their starts, and of how many of them each of some
/// selectors is about: a counter for each that was asked for.
#[derive(Drop)]
pub(crate) struct Counts {
    counters: Vec<Counter>,
    number: u32,
    /// In ticks of 0.1 µs from the job's start tick on.
    latest: Option<u64>,
    made: History<Met>,
}

impl Model for Counts {
    ghost use Rattle.job_moments.specs.Counting.{Counted, counted_in, HaveCounted};

    ghost Value = { Counted };

    ghost view = { counted_in };

    ghost invariant = { HaveCounted };
}

impl Counts {
    /// No counter, before any message. It takes no memory.
    pub(crate) fn none(alloc: Global) -> Counts
        ensures { result ≡ record { selectors = []; made = [] } }
    {
        Counts {
            counters: Vec::new(alloc),
            number: 0,
            latest: None,
            made: History::none(),
        }
    }

    /// The place of a selector's counter, which is made where there is none yet; 0 where there is no selector. It fails
    /// for want of memory alone, and then nothing changes.
    pub(crate) fn counter_of(&mut self, selector: Option<Selector>) -> Result<usize, AllocError>
        requires { self.old.made ≡ [] }
        ensures made { self.new.made ≡ [] }
        ensures counter { IfOk result (λ place. HasCounter self.new.selectors place selector) }
        ensures others { (place : ℕ) (other : Option Selector) → HasCounter self.old.selectors place other
            → HasCounter self.new.selectors place other }
        ensures same { OnErr result (self.new ≡ self.old) }
    {
        let Some(selector) = selector else {
            return Ok(0);
        };
        if let Some(place) = place_of(&self.counters, selector) {
            return Ok(place);
        }
        let place = self.counters.len();
        if self.counters.push(Counter { selector, count: 0 }).is_err() {
            return Err(AllocError);
        }
        Ok(place)
    }

    /// How many messages were made.
    pub(crate) fn number(&self) -> u32
        ensures { result ≡ length self.now.made }
    {
        self.number
    }

    /// Of how many of the messages made the selector is about whose counter has a place.
    pub(crate) fn count(&self, place: usize) -> u32
        ensures { (selector : Selector) → slice_get self.now.selectors place ≡ Some selector
            → result ≡ count_of selector self.now.made }
    {
        match self.counters.get(place) {
            Some(counter) => counter.count,
            None => 0,
        }
    }

    /// Whether a message was made that started at a time or later.
    pub(crate) fn has_met(&self, ticks: u64) -> bool
        ensures { result ≡ list_any (starts_by ticks) self.now.made }
    {
        match self.latest {
            Some(latest) => ticks <= latest,
            None => false,
        }
    }

    /// One message more was made.
    pub(crate) fn meet(&mut self, met: &Met)
        requires { length self.old.made < 1000000 }
        ensures { self.new ≡ record { selectors = self.old.selectors; made = self.old.made ++ met.now ∷ [] } }
    {
        count(&mut self.counters, met);
        self.number += 1;
        self.latest = latest_of(self.latest, met.start);
        self.made = self.made.put_behind(met);
    }
}
