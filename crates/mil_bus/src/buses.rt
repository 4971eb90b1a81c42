//! The bus.
ghost use Rattle.mil_bus.specs.Actions.{place_of, station_of, acted};
ghost use Rattle.mil_bus.specs.Addresses.{is_fit, fresh_bus};
ghost use Rattle.mil_bus.specs.BlockStatus.{block_of, outcome_of};
ghost use Rattle.mil_bus.specs.Counts.{seen_of};
ghost use Rattle.mil_bus.specs.Exchange.{exchanged, talk_of, next_start, talk_start, clock_of, now_of, paced, last_on};
ghost use Rattle.mil_bus.specs.Exchange.{held_until};
ghost use Rattle.mil_bus.specs.Exchange.{gap_since, least_after};
ghost use Rattle.mil_line.specs.Ranges.{is_in_range};
ghost use Rattle.std.specs.List.{list_all};
ghost use Rattle.std.specs.Option.{is_some, option_copied};
ghost use Rattle.std.specs.Prelude.{◌≡◌, ◌+◌, ◌<◌, ◌≤◌, ◌^◌, ◌↔◌, ◌∷◌, true, false, unwrap_or, IfOk, Err};

use crate::addresses::is_fit;
use crate::offers::Offered;
use crate::runs::all_runs;
use crate::terminals::Terminals;
use crate::times::Times;
use crate::{BusError, Finished, Source, Talk, TalkCounts};
use history::History;
use mil_host::Action;
use mil_line::{Fault, Gap};
use mil_message::Message;
use mil_terminal::Terminal;
use mil_word::Line;
use mil_word::timing::{CONTIGUOUS_GAP, LEAST_GAP, LONGER_GAP};
use std::alloc::{AllocError, Global};
use std::marker::Model;

/// Up to 31 terminals on the two lines of a bus. Contracts see the start tick, the least start, the talks so far, the
/// latest first, and the terminals' addresses and histories, in order of address; no value holds a list of talks.
#[derive(Drop)]
pub struct Bus {
    pub(crate) times: Times,
    pub(crate) terminals: Terminals,
    pub(crate) past: History<Talk>,
}

impl Model for Bus {
    ghost use Rattle.mil_bus.specs.Exchange.{BusState};
    ghost use Rattle.mil_bus.specs.KeepsTimes.{KeepsTimes, bus_of};

    ghost Value = { BusState };

    ghost view = { λ b. bus_of b.times b.past b.terminals };

    ghost invariant = { λ b. KeepsTimes b.times b.past };
}

/// The least gap after a talk, in ticks, which failed or not.
fn least_gap(talk: &Talk, failed: bool) -> u16
    requires failed { failed ≡ (outcome_of talk.now.message talk.now.sent.items).failed }
    ensures value { result ≡ least_after talk.now }
{
    if failed || talk.is_controllers_last() {
        LONGER_GAP
    } else {
        LEAST_GAP
    }
}

/// The gap from the end of a word to a word that starts at a tick.
fn gap_from(end: Option<u64>, tick: u64) -> Gap
    requires small { tick < 2 ^ 61 }
    requires before { unwrap_or end 0 ≤ tick }
    ensures { result ≡ gap_since end tick }
{
    match end {
        None => Gap::of(65535),
        Some(end) => Gap::of((tick + u64::from(CONTIGUOUS_GAP) - end).min(65535) as u16),
    }
}

impl Bus {
    /// A bus with new terminals of these addresses, whose first talk starts at a tick; its least start is 0. Refusals:
    /// an address over 30, or one that stands twice (B1); memory (B2).
    pub fn make(alloc: Global, start: u64, addresses: &[u8]) -> Result<Bus, BusError>
        ensures ok { IfOk result (λ b. b ≡ fresh_bus start addresses.now) }
        ensures addresses { (result ≡ Err BusError.Addresses) ↔ (is_fit addresses.now ≡ false) }
    {
        if !is_fit(addresses) {
            return Err(BusError::Addresses);
        }
        match Terminals::make(alloc, addresses) {
            Ok(terminals) => Ok(Bus {
                times: Times {
                    begin: start,
                    least_start: 0,
                    clock: start,
                    least: None,
                    on_a: None,
                    on_b: None,
                },
                terminals,
                past: History::none(),
            }),
            Err(_) => Err(BusError::Memory),
        }
    }

    /// When the last word on either line ended, in ticks; the start tick before any talk.
    pub fn clock(&self) -> u64
        ensures { result ≡ clock_of self.now.start self.now.talks }
    {
        self.times.clock
    }

    /// Now, in ticks: the clock, or the least start where that is later.
    pub fn now(&self) -> u64
        ensures { result ≡ now_of self.now }
    {
        self.times.clock.max(self.times.least_start)
    }

    /// Raises the least start to a tick, where it is lower: no talk from now on starts before that tick (own choice).
    pub fn pace(&mut self, tick: u64)
        ensures { self.new ≡ paced tick self.old }
    {
        self.times.least_start = self.times.least_start.max(tick);
    }

    /// Puts another least start in the place of the bus's, sooner or later, and gives that back: what is exchanged
    /// until it is put back starts no sooner than at this tick (own choice).
    pub fn hold(&mut self, tick: u64) -> u64
        ensures bus { self.new ≡ held_until tick self.old }
        ensures before { result ≡ self.old.least_start }
    {
        let before = self.times.least_start;
        self.times.least_start = tick;
        before
    }

    /// When the next talk would start by its gap alone, in ticks: behind the last word on either line by this gap, or
    /// by the least gap where that is longer; before any talk, at the start tick.
    pub fn next_start(&self, gap: Gap) -> u64
        requires { clock_of self.now.start self.now.talks < 2 ^ 60 }
        ensures value { result ≡ next_start self.now.start self.now.talks gap }
        ensures soon { result ≤ clock_of self.now.start self.now.talks + 2 ^ 17 }
        ensures after { clock_of self.now.start self.now.talks ≤ result }
    {
        match self.times.least {
            None => self.times.begin,
            Some(least) => self.times.clock
                + u64::from(gap.ticks().max(least)).saturating_sub(u64::from(CONTIGUOUS_GAP)),
        }
    }

    /// When the next talk starts at this gap, in ticks: no sooner than at the least start.
    pub fn talk_start(&self, gap: Gap) -> u64
        requires { now_of self.now < 2 ^ 60 }
        ensures value { result ≡ talk_start self.now gap }
        ensures small { result < 2 ^ 61 }
        ensures soon { result ≤ now_of self.now + 2 ^ 17 }
        ensures after { now_of self.now ≤ result }
    {
        self.next_start(gap).max(self.times.least_start)
    }

    /// The gap from the last word on a line.
    fn gap_on(&self, line: Line, tick: u64) -> Gap
        requires small { tick < 2 ^ 61 }
        requires after { clock_of self.now.start self.now.talks ≤ tick }
        ensures { result ≡ gap_since (last_on line self.now.talks) tick }
    {
        match line {
            Line::A => gap_from(self.times.on_a, tick),
            Line::B => gap_from(self.times.on_b, tick),
        }
    }

    /// Keeps what the next exchange needs of a talk.
    fn note(&mut self, talk: &Talk, failed: bool)
        requires failed { failed ≡ (outcome_of talk.now.message talk.now.sent.items).failed }
        requires small { talk.now.start < 2 ^ 61 }
        requires after { clock_of self.old.start self.old.talks ≤ talk.now.start }
        ensures soon { clock_of self.new.start self.new.talks ≤ talk.now.start + 2 ^ 23 }
        ensures later { talk.now.start ≤ clock_of self.new.start self.new.talks }
        ensures least { self.new.least_start ≡ self.old.least_start }
        ensures value { self.new ≡ record {
          start = self.old.start;
          least_start = self.old.least_start;
          talks = talk.now ∷ self.old.talks;
          stations = self.old.stations;
        } }
    {
        let end = talk.end();
        self.times.clock = end;
        self.times.least = Some(least_gap(talk, failed));
        if !talk.sent.is_empty() {
            match talk.line {
                Line::A => self.times.on_a = Some(end),
                Line::B => self.times.on_b = Some(end),
            }
        }
        self.past = self.past.put_before(talk);
    }

    /// The exchange of one message on a line, at a gap of ticks from the last word on either line, which is raised to
    /// 180 where the talk before failed or its last word was the controller's, and to 40 otherwise. No talk starts
    /// before the least start. It takes no memory.
    ///
    /// The faults are those planned for the message, at most four, in the order of the plan.
    pub fn exchange(&mut self, line: Line, message: &Message, gap: Gap, faults: &[Fault]) -> Talk
        requires clock { now_of self.old < 2 ^ 60 }
        requires in_range { list_all is_in_range faults.now ≡ true }
        ensures bus { self.new ≡ exchanged self.old line message.now gap faults.now }
        ensures talk { result ≡ talk_of self.old line message.now gap faults.now }
        ensures soon { now_of self.new ≤ now_of self.old + 2 ^ 24 }
        ensures later { now_of self.old ≤ now_of self.new }
    {
        let mut seen = TalkCounts::none();
        self.exchange_seen(line, message, gap, faults, &mut seen)
    }

    /// The same, with what is seen of the talk in the place of what was seen before, so that an outcome and a record of
    /// it need not look at its words again.
    pub fn exchange_seen(
        &mut self,
        line: Line,
        message: &Message,
        gap: Gap,
        faults: &[Fault],
        seen: &mut TalkCounts,
    ) -> Talk
        requires clock { now_of self.old < 2 ^ 60 }
        requires in_range { list_all is_in_range faults.now ≡ true }
        ensures bus { self.new ≡ exchanged self.old line message.now gap faults.now }
        ensures talk { result ≡ talk_of self.old line message.now gap faults.now }
        ensures seen { seen.new ≡ seen_of result.message result.sent.items }
        ensures soon { now_of self.new ≤ now_of self.old + 2 ^ 24 }
        ensures later { now_of self.old ≤ now_of self.new }
    {
        let mut talk = Talk::none();
        // The talk says all that the answer does.
        let _ = self.exchange_into(line, message, gap, faults, &mut talk, seen);
        talk
    }

    /// The same, with the talk in the place of the one before too, so that nothing is moved; what it came to.
    pub fn exchange_into(
        &mut self,
        line: Line,
        message: &Message,
        gap: Gap,
        faults: &[Fault],
        talk: &mut Talk,
        seen: &mut TalkCounts,
    ) -> Finished
        requires clock { now_of self.old < 2 ^ 60 }
        requires in_range { list_all is_in_range faults.now ≡ true }
        ensures bus { self.new ≡ exchanged self.old line message.now gap faults.now }
        ensures talk { talk.new ≡ talk_of self.old line message.now gap faults.now }
        ensures seen { seen.new ≡ seen_of talk.new.message talk.new.sent.items }
        ensures block { result.block ≡ block_of talk.new.line talk.new.message seen.new }
        ensures outcome { result.outcome ≡ outcome_of talk.new.message talk.new.sent.items }
        ensures soon { now_of self.new ≤ now_of self.old + 2 ^ 24 }
        ensures later { now_of self.old ≤ now_of self.new }
    {
        let start = self.talk_start(gap);
        let mut offer = Offered {
            source: Source::Controller,
            gap: self.gap_on(line, start),
            values: message.values(),
            answered: false,
        };
        talk.start = start;
        talk.line = line;
        message.copy_into(&mut talk.message);
        talk.sent.clear();
        all_runs(
            &mut self.terminals,
            &mut talk.sent,
            line,
            faults,
            &mut offer,
        );
        let verdict = talk.look(seen);
        self.note(talk, verdict.outcome.failed);
        verdict
    }

    /// An action of a terminal's host; false, and nothing done, where there is no such terminal.
    pub fn act(&mut self, address: u8, action: &Action) -> bool
        ensures bus { self.new ≡ acted self.old address action.now }
        ensures found { result ≡ is_some (place_of address self.old.stations) }
    {
        self.terminals.act(address, action)
    }

    /// The terminal with this address.
    pub fn terminal(&self, address: u8) -> Option<&Terminal>
        ensures { option_copied result ≡ station_of address self.now.stations }
    {
        self.terminals.terminal(address)
    }

    /// The same bus, with room of its own, which fails for want of memory alone.
    pub fn copy(&self) -> Result<Bus, AllocError>
        ensures { IfOk result (λ b. b ≡ self.now) }
    {
        let terminals = self.terminals.copy()?;
        Ok(Bus {
            times: self.times,
            terminals,
            past: self.past.same(),
        })
    }
}
