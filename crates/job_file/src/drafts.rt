//! A job as far as its lines were read.
ghost use Rattle.job_file.specs.Drafts.{shown, with_action, with_each, with_occasion, with_when_at, Takes, MayTake};
ghost use Rattle.job_file.specs.Entries.{said_by, IsInRange};
ghost use Rattle.job_file.specs.Faults.{IsEntryRefused, IsLineRefused, are_line_words, plan_fault, first_fault};
ghost use Rattle.job_file.specs.Faults.{action_fault, place_fault};
ghost use Rattle.job_file.specs.TimedLines.{nothing_yet};
ghost use Rattle.job_moments.specs.Planning.{MayStand};
ghost use Rattle.mil_host.specs.Reading.{in_words};
ghost use Rattle.job_file.specs.HeadLines.{has, turn_at};
ghost use Rattle.job_file.specs.Lines as says;
ghost use Rattle.job_file.specs.Lines.{terminal, action, control, timed_action, timed_control, timed_fault, said};
ghost use Rattle.job_file.specs.Reading.{TakesLine, IsLineInRange, all_inserts};
ghost use Rattle.job_file.specs.Spans.{IsSpan, numbers_of};
ghost use Rattle.job_file.specs.declared.error.LineFault.TheVariants.{Order};
ghost use Rattle.job_file.specs.declared.error.Refusal.TheVariants as refusal;
ghost use Rattle.std.specs.Prelude.{◌≡◌, ◌<◌, ◌≤◌, ◌&&◌, true, false, [], map, Some, None, Ok, nat_lt};
ghost use Rattle.std.specs.Prelude.{OnOk, OnErr, IfOk, IfErr};
ghost use Rattle.std.specs.Result.{is_ok};
ghost use Rattle.text_lines.specs.Words.{words};

use crate::error::{LineFault, Refusal};
use crate::lines::{Entry, at_number, at_numbers, read_line};
use crate::spans::{Series, Span};
use crate::timed::TimedLines;
use bc_machine::{Actions, HostAction, Placed};
use controller_text::read_control;
use job_moments::{Moment, Occasion};
use mil_host::{Action, read_action};
use mil_line::{Fault, LineError, Plan};
use std::alloc::Global;

/// What a line was.
#[derive(Clone, Copy, Debug)]
pub enum Taken {
    /// A line above the script.
    Line,
    /// The line of the script.
    Script,
}

/// Keeps what a job says once.
fn say_once<T: Drop>(said: &mut Option<T>, value: T) -> Result<(), Refusal>
    ensures first { OnOk result (said.old ≡ None) }
    ensures kept { OnOk result (said.new ≡ Some value) }
    ensures again { OnErr result ((before : T) × (said.old ≡ Some before)) }
    ensures order { IfErr result (λ f. f ≡ refusal.Line Order) }
{
    if said.is_some() {
        return Err(Refusal::Line(LineFault::Order));
    }
    *said = Some(value);
    Ok(())
}

/// What the lines of a job have said so far.
#[derive(Drop)]
pub struct Draft {
    pub channel: Option<u16>,
    pub start: Option<u64>,
    pub addresses: Vec<u8>,
    pub actions: Actions,
    pub plan: Plan,
    /// How many of the actions are those of series.
    pub from_series: u32,
    pub timed: TimedLines,
}

impl Draft {
    /// Nothing was said.
    pub fn make(alloc: Global) -> Draft
        ensures { shown result ≡ record {
          channels = [];
          starts = [];
          addresses = [];
          actions = [];
          plan = [];
          from_series = 0;
          timed = nothing_yet;
        } }
    {
        Draft {
            channel: None,
            start: None,
            addresses: Vec::new(alloc),
            actions: Actions::new(alloc),
            plan: Plan::make(alloc),
            from_series: 0,
            timed: TimedLines::none(alloc),
        }
    }

    fn has(&self, address: u8) -> bool
        ensures { result ≡ has address self.now.addresses.items }
    {
        self.addresses.iter().any(|a| *a == address)
    }

    fn add_terminal(&mut self, address: u8) -> Result<(), Refusal>
        ensures takes { Takes (terminal address) (shown self.old) (shown self.new) result }
        ensures refused { IfErr result (IsEntryRefused (terminal address) (shown self.old)) }
    {
        if self.has(address) {
            return Err(Refusal::Line(LineFault::Terminal));
        }
        match self.addresses.push(address) {
            Ok(()) => Ok(()),
            Err(_) => Err(Refusal::Memory),
        }
    }

    /// The action of a terminal's host, whose terminal a line above names.
    #[tactic(auto, unfolding(mil_host::specs::Reading::action_in))]
    fn terminal_action(&self, address: u8, text: &[u8]) -> Result<Action, LineFault>
        ensures read { IfOk result
            (λ a. (has address self.now.addresses.items ≡ true) × (in_words (words text.now) ≡ Ok a)) }
        ensures wrong { IfErr result (λ why. action_fault address (words text.now) (shown self.now) ≡ Some why) }
        ensures stands { IfErr result
            (λ _. (has address self.now.addresses.items && is_ok (in_words (words text.now))) ≡ false) }
    {
        if !self.has(address) {
            return Err(LineFault::Terminal);
        }
        match read_action(text) {
            Ok(action) => Ok(action),
            Err(bad) => Err(LineFault::Action(bad)),
        }
    }

    fn place(&mut self, number: u32, address: u8, text: &[u8]) -> Result<(), Refusal>
        ensures takes { Takes (action number address (words text.now)) (shown self.old) (shown self.new) result }
        ensures refused { IfErr result (IsEntryRefused (action number address (words text.now)) (shown self.old)) }
    {
        let action = self.terminal_action(address, text)?;
        self.add(number, HostAction::Terminal { address, action })
    }

    fn place_then(&mut self, moment: Moment, address: u8, text: &[u8]) -> Result<(), Refusal>
        ensures takes { Takes (timed_action moment address (words text.now)) (shown self.old) (shown self.new) result }
        ensures refused { IfErr result
            (IsEntryRefused (timed_action moment address (words text.now)) (shown self.old)) }
    {
        let action = self.terminal_action(address, text)?;
        self.add_then(moment, HostAction::Terminal { address, action })
    }

    /// Puts an action at a moment behind the others.
    fn add_then(&mut self, moment: Moment, action: HostAction) -> Result<(), Refusal>
        ensures added { OnOk result (shown self.new ≡ with_when_at moment action (shown self.old)) }
        ensures memory { IfErr result (λ f. f ≡ refusal.Memory) }
    {
        match self.timed.add_when(moment, action) {
            Ok(()) => Ok(()),
            Err(_) => Err(Refusal::Memory),
        }
    }

    /// Puts a fault, and when it is due, behind the others.
    fn add_fault(&mut self, occasion: &Occasion, fault: &Fault) -> Result<(), Refusal>
        requires { MayStand occasion.now }
        ensures added { OnOk result (shown self.new ≡ with_occasion occasion.now fault.now (shown self.old)) }
        ensures memory { IfErr result (λ f. f ≡ refusal.Memory) }
    {
        match self.timed.add_fault(*occasion, *fault) {
            Ok(()) => Ok(()),
            Err(_) => Err(Refusal::Memory),
        }
    }

    #[tactic(auto, unfolding(controller_text::specs::Reading::control_in))]
    fn place_control_then(&mut self, moment: Moment, text: &[u8]) -> Result<(), Refusal>
        ensures takes { Takes (timed_control moment (words text.now)) (shown self.old) (shown self.new) result }
        ensures refused { IfErr result (IsEntryRefused (timed_control moment (words text.now)) (shown self.old)) }
    {
        match read_control(text) {
            Ok(control) => self.add_then(moment, HostAction::Controller(control)),
            Err(why) => Err(Refusal::Line(LineFault::Action(why))),
        }
    }

    fn plan_then(&mut self, occasion: &Occasion, fault: &Fault) -> Result<(), Refusal>
        requires { MayStand occasion.now }
        ensures takes { Takes (timed_fault occasion.now fault.now) (shown self.old) (shown self.new) result }
        ensures refused { IfErr result (IsEntryRefused (timed_fault occasion.now fault.now) (shown self.old)) }
    {
        if !fault.is_in_range() {
            return Err(Refusal::Line(LineFault::Fault(LineError::OutOfRange)));
        }
        self.add_fault(occasion, fault)?;
        self.timed.find_faults();
        Ok(())
    }

    /// Puts an action behind the others.
    fn add(&mut self, number: u32, action: HostAction) -> Result<(), Refusal>
        ensures added { OnOk result (shown self.new ≡ with_action (record { number = number; action = action })
            (shown self.old)) }
        ensures memory { IfErr result (λ f. f ≡ refusal.Memory) }
    {
        match self.actions.push(Placed { number, action }) {
            Ok(()) => Ok(()),
            Err(_) => Err(Refusal::Memory),
        }
    }

    #[tactic(auto, unfolding(controller_text::specs::Reading::control_in))]
    fn place_control(&mut self, number: u32, text: &[u8]) -> Result<(), Refusal>
        ensures takes { Takes (control number (words text.now)) (shown self.old) (shown self.new) result }
        ensures refused { IfErr result (IsEntryRefused (control number (words text.now)) (shown self.old)) }
    {
        match read_control(text) {
            Ok(control) => self.add(number, HostAction::Controller(control)),
            Err(bad) => Err(Refusal::Line(LineFault::Action(bad))),
        }
    }

    fn plan_fault(&mut self, number: u32, fault: Fault) -> Result<(), Refusal>
        ensures takes { Takes (says.fault number fault) (shown self.old) (shown self.new) result }
        ensures refused { IfErr result (IsEntryRefused (says.fault number fault) (shown self.old)) }
    {
        match self.plan.add(number, fault) {
            Ok(()) => {}
            Err(LineError::Memory) => return Err(Refusal::Memory),
            Err(bad) => return Err(Refusal::Line(LineFault::Fault(bad))),
        }
        self.add_fault(&at_number(number), &fault)
    }

    /// Whether one more fault may be planned for the message of this number.
    fn may_plan(&self, number: u32, fault: &Fault) -> Result<(), LineFault>
        requires low { 1 ≤ number }
        requires high { number ≤ 1000000 }
        ensures fine { IfOk result (λ _. plan_fault self.now.plan fault.now number ≡ None) }
        ensures wrong { IfErr result (λ why. plan_fault self.now.plan fault.now number ≡ Some why) }
    {
        if self.plan.faults(number).is_full() {
            return Err(LineFault::Fault(LineError::TooMany));
        }
        if !fault.is_in_range() {
            return Err(LineFault::Fault(LineError::OutOfRange));
        }
        Ok(())
    }

    /// Whether the fault may be planned for each of these messages.
    fn may_plan_all(&self, span: Span, fault: &Fault) -> Result<(), LineFault>
        requires { IsSpan span }
        ensures fine { IfOk result
            (λ _. first_fault (map (plan_fault self.now.plan fault.now) (numbers_of span)) ≡ None) }
        ensures wrong { IfErr result
            (λ why. first_fault (map (plan_fault self.now.plan fault.now) (numbers_of span)) ≡ Some why) }
    {
        for before in 0..span.count() {
            self.may_plan(span.number(before), fault)?;
        }
        Ok(())
    }

    /// Plans a fault for each of these messages. They are judged before any of them is planned for, so that want of
    /// memory hides no refusal. They differ, so that memory alone can be refused then.
    fn plan_each(&mut self, span: Span, fault: Fault) -> Result<(), Refusal>
        requires { IsSpan span }
        ensures stands { MayTake (says.faults span fault) (shown self.old) result }
        ensures planned { OnOk result (shown self.new ≡ with_each span fault (shown self.old)) }
        ensures well { OnOk result (place_fault (says.faults span fault) (shown self.old) ≡ None) }
        ensures refused { IfErr result (IsEntryRefused (says.faults span fault) (shown self.old)) }
    {
        self.may_plan_all(span, &fault)?;
        for before in 0..span.count() {
            match self.plan.add(span.number(before), fault) {
                Ok(()) => {}
                Err(_) => return Err(Refusal::Memory),
            }
        }
        Ok(())
    }

    fn plan_faults(&mut self, span: Span, fault: Fault) -> Result<(), Refusal>
        requires { IsSpan span }
        ensures takes { Takes (says.faults span fault) (shown self.old) (shown self.new) result }
        ensures refused { IfErr result (IsEntryRefused (says.faults span fault) (shown self.old)) }
    {
        self.plan_each(span, fault)?;
        self.add_fault(&at_numbers(span), &fault)
    }

    /// Room for the actions is made at once, since a series may have a million.
    fn place_series(&mut self, series: &Series) -> Result<(), Refusal>
        requires { IsInRange (says.series series.now) }
        ensures takes { Takes (says.series series.now) (shown self.old) (shown self.new) result }
        ensures refused { IfErr result (IsEntryRefused (says.series series.now) (shown self.old)) }
    {
        let count = series.span.count();
        let Some(total) = self.from_series.checked_add(count) else {
            return Err(Refusal::Line(LineFault::Number));
        };
        if total > 1_000_000 {
            return Err(Refusal::Line(LineFault::Number));
        }
        if !self.has(series.address) {
            return Err(Refusal::Line(LineFault::Terminal));
        }
        if self.actions.reserve(count as usize).is_err() {
            return Err(Refusal::Memory);
        }
        for before in 0..count {
            match self.actions.push(series.placed(before)) {
                Ok(()) => {}
                Err(_) => return Err(Refusal::Memory),
            }
        }
        self.from_series = total;
        Ok(())
    }

    /// Takes in what a line says; the line of the script leaves the draft as it is.
    fn take(&mut self, entry: &Entry<'_>) -> Result<Taken, Refusal>
        requires { IsInRange (said_by entry.now) }
        ensures takes { TakesLine (Some (said_by entry.now)) (shown self.old) (shown self.new) result }
        ensures refused { IfErr result (IsEntryRefused (said_by entry.now) (shown self.old)) }
    {
        match entry {
            Entry::Script => return Ok(Taken::Script),
            Entry::Blank => {}
            Entry::Channel(number) => say_once(&mut self.channel, *number)?,
            Entry::Start(tick) => say_once(&mut self.start, *tick)?,
            Entry::Terminal(address) => self.add_terminal(*address)?,
            Entry::Action {
                number,
                address,
                text,
            } => self.place(*number, *address, text)?,
            Entry::Control { number, text } => self.place_control(*number, text)?,
            Entry::Fault { number, fault } => self.plan_fault(*number, *fault)?,
            Entry::Faults { span, fault } => self.plan_faults(*span, *fault)?,
            Entry::Series(series) => self.place_series(series)?,
            Entry::TimedAction {
                moment,
                address,
                text,
            } => self.place_then(*moment, *address, text)?,
            Entry::TimedControl { moment, text } => self.place_control_then(*moment, text)?,
            Entry::TimedFault { occasion, fault } => self.plan_then(occasion, fault)?,
        }
        Ok(Taken::Line)
    }

    /// Whether more messages than so many are inserted.
    pub fn has_more_inserts(&self, most: u64) -> bool
        ensures { result ≡ nat_lt most (all_inserts self.now.actions self.now.timed.whens) }
    {
        let by_number = self.actions.inserts();
        by_number > most || self.timed.inserts() > most - by_number
    }

    /// Takes in one more line.
    pub fn take_line(&mut self, line: &[u8]) -> Result<Taken, Refusal>
        ensures taken { TakesLine (said line.now) (shown self.old) (shown self.new) result }
        ensures range { OnOk result (IsLineInRange (said line.now)) }
        ensures words { OnOk result (are_line_words (words line.now) ≡ true) }
        ensures refused { IfErr result (IsLineRefused line.now (shown self.old)) }
    {
        match read_line(line) {
            Ok(entry) => self.take(&entry),
            Err(fault) => Err(Refusal::Line(fault)),
        }
    }
}
