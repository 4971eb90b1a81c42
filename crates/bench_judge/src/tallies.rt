//! The verdict of a rule while the recording is passed.
ghost use Rattle.bench_judge.specs.Checks.{meets as spec_meets};
ghost use Rattle.bench_judge.specs.Clean.{IsKnown};
ghost use Rattle.bench_judge.specs.Selection.{Origins, selects as selects_message};
ghost use Rattle.bench_judge.specs.Tallies.{IsLatest, IsTally, misses_next};
ghost use Rattle.bench_judge.specs.Verdicts.{latest};
ghost use Rattle.bench_select.specs.Viewed.{Viewed};
ghost use Rattle.std.specs.Prelude.{◌≡◌, ◌+◌, ◌∷◌, ◌<◌, ◌^◌, [], true, List, length, OnOk, IfOk, if◌then◌else◌};

use crate::checks::{compared, is_counted, meets};
use crate::kept::Kept;
use crate::selection::selects;
use ch11_layout::View;
use judge_rules::{Check, Rule};
use std::alloc::{AllocError, Global};

/// How many messages a rule selects so far, how many of them it counts and how many miss it, and what it compares with
/// the next message of each channel.
#[derive(Drop)]
pub struct Tally {
    /// How many messages the rule selects.
    pub selected: u64,
    /// How many of them it counts.
    pub counted: u64,
    /// How many of them miss it.
    pub missed: u64,
    pub(crate) latest: Kept,
}

/// One message more where it is counted, at most 2^64 - 1.
#[inline(always)]
fn one_if(count: u64, holds: bool) -> u64
    ensures { count + 1 < 2 ^ 64 → result ≡ count + (if holds then 1 else 0) }
{
    if holds {
        count.saturating_add(1)
    } else {
        count
    }
}

impl Tally {
    /// Nothing was selected yet.
    pub fn new(alloc: Global) -> Tally
        ensures { (rule : Rule) → (origins : Origins) → IsTally rule origins [] result }
    {
        Tally {
            selected: 0,
            counted: 0,
            missed: 0,
            latest: Kept::none(alloc),
        }
    }

    /// What is compared with the next message of a channel, if there is anything.
    pub fn before(&self, channel: u16) -> Option<u64>
        ensures { (rule : Rule) → (origins : Origins) → (history : List Viewed)
            → IsLatest rule origins history self.now → result ≡ latest rule origins channel history }
    {
        self.latest.at(channel)
    }

    /// What a selected message is compared with, if it is compared with anything. What it has is compared with the next
    /// one of its channel from now on.
    #[inline(always)]
    fn renew(
        &mut self,
        check: &Check,
        channel: u16,
        view: &View<'_>,
    ) -> Result<Option<u64>, AllocError>
        ensures selected { self.new.selected ≡ self.old.selected }
        ensures counted { self.new.counted ≡ self.old.counted }
        ensures missed { self.new.missed ≡ self.old.missed }
        ensures before { (rule : Rule) → (origins : Origins) → (history : List Viewed) → rule.check ≡ check.now
            → IsLatest rule origins history self.old
            → IfOk result (λ before. spec_meets check.now before view.now
            ≡ spec_meets check.now (latest rule origins channel history) view.now) }
        ensures latest { (rule : Rule) → (origins : Origins) → (history : List Viewed) → rule.check ≡ check.now
            → selects_message rule origins channel view.now ≡ true → IsLatest rule origins history self.old
            → OnOk result (IsLatest rule origins ((channel, view.now) ∷ history) self.new) }
    {
        match compared(check, view) {
            Some(value) => {
                let before = self.latest.put(channel, value)?;
                Ok(before)
            }
            None => Ok(None),
        }
    }

    /// One more message of a channel, and whether it is clean where that is known. Answers whether it misses the rule.
    #[inline(always)]
    pub fn note(
        &mut self,
        rule: &Rule,
        origins: &[Option<u64>],
        channel: u16,
        view: &View<'_>,
        known: &mut Option<bool>,
    ) -> Result<bool, AllocError>
        requires { IsKnown known.old view.now }
        ensures known { IsKnown known.new view.now }
        ensures told { (history : List Viewed) → IsTally rule.now origins.now history self.old
            → IfOk result (λ told. told ≡ misses_next rule.now origins.now history (channel, view.now)) }
        ensures noted { (history : List Viewed) → IsTally rule.now origins.now history self.old
            → length history + 1 < 2 ^ 64
            → OnOk result (IsTally rule.now origins.now ((channel, view.now) ∷ history) self.new) }
    {
        if !selects(rule, origins, channel, view) {
            return Ok(false);
        }
        let before = self.renew(&rule.check, channel, view)?;
        let met = meets(&rule.check, before, view, known);
        self.selected = one_if(self.selected, true);
        self.counted = one_if(self.counted, is_counted(&rule.check, view, known));
        self.missed = one_if(self.missed, !met);
        Ok(!met)
    }
}
