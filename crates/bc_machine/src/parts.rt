//! A controller's parts, wherever its program stands.
ghost use Rattle.bc_machine.specs.Agendas.{StandsForSources};
ghost use Rattle.bc_machine.specs.Alike.{AreAlike};
ghost use Rattle.bc_machine.specs.Frames.{most_ticks};
ghost use Rattle.bc_machine.specs.Hosting.{queue_at};
ghost use Rattle.bc_machine.specs.MayStep.{IsAble};
ghost use Rattle.bc_machine.specs.Moves as moves;
ghost use Rattle.bc_machine.specs.Outcomes.{test_of};
ghost use Rattle.bc_machine.specs.Running.{started, stepped, answered, clock_in, world_in, frames_point};
ghost use Rattle.frame_code.specs.Loadable.{IsLoadable};
ghost use Rattle.frame_code.specs.Routines.{routine_at};
ghost use Rattle.frame_code.specs.Table.{turns, leaves, calls, comes_back};
ghost use Rattle.frame_load.specs.Judging.{IsWithin, HasShortPeriods};
ghost use Rattle.mil_word.specs.Timing.{least_gap};
ghost use Rattle.mil_word.specs.declared.Line.{Line};
ghost use Rattle.std.specs.Prelude.{OnOk, OnErr};
ghost use Rattle.std.specs.Prelude.{◌≡◌, ◌<◌, ◌≤◌, ◌+◌, ◌^◌, ◌≢◌, Some, None, if◌then◌else◌, slice_get, length, IfOk};

use crate::agenda::Agenda;
use crate::begun::{Begun, begun_with, same};
use crate::outcomes::asks;
use crate::progress::Progress;
use crate::saved::SavedParts;
use crate::stack::Stack;
use crate::{Actions, Stepped};
use controller_host::Sources;
use frame_code::Op;
use frame_load::Program;
use mil_bus::{Bus, Outcome, Talk};
use mil_line::{Gap, Plan};
use mil_message::OutcomeTest;
use mil_word::Line;
use mil_word::timing::LEAST_GAP;
use std::alloc::AllocError;
use std::marker::Model;
use std::snapshot::Snapshot;

/// What a controller has; contracts see it as plain data.
#[derive(Drop)]
pub struct Parts {
    pub(crate) program: Program,
    pub(crate) plan: Plan,
    pub(crate) agenda: Agenda,
    begun: Snapshot<Begun>,
    pub(crate) progress: Progress,
    pub(crate) bus: Bus,
    /// Room for the talk of a message while it is sent; what is there between messages counts for nothing.
    pub(crate) talk: Talk,
}

impl Model for Parts {
    ghost use Rattle.bc_machine.specs.Running.{MachineState};

    ghost Value = { MachineState };

    ghost use Rattle.bc_machine.specs.PlainMachine.{state_in};

    ghost view = { state_in };
}

impl Parts {
    /// A program at its beginning.
    pub fn start(program: Program, bus: Bus, plan: Plan, placed: Actions) -> Parts
        ensures value { result ≡ started program bus plan placed }
        ensures loadable { IsLoadable program }
        ensures within { IsWithin program }
        ensures short { HasShortPeriods program }
    {
        // A program fits its image by its type.
        let _image = program.image();
        let begun = begun_with(&bus);
        let place = program.main();
        Parts {
            program,
            plan,
            agenda: Agenda::begin(placed),
            begun,
            progress: Progress {
                taken: 0,
                place,
                counters: Stack::none(),
                returns: Stack::none(),
                frames: Stack::none(),
                flag: false,
                line: Line::A,
                gap: Gap::of(LEAST_GAP),
                last: None,
                latest: None,
            },
            bus,
            talk: Talk::none(),
        }
    }

    /// The operation that is next.
    pub(crate) fn op(&self) -> Op
        requires { self.now.at.place < length self.now.code.operations }
        ensures { slice_get self.now.code.operations self.now.at.place ≡ Some result }
    {
        self.program.image().operations()[self.progress.place as usize]
    }

    /// Goes to a place.
    fn go(&mut self, place: u16) -> Stepped
        requires { self.old.taken < 2 ^ 31 }
        ensures value { self.new ≡ moves.gone self.old place }
        ensures answer { result ≡ Stepped.Ran }
    {
        self.progress.place = place;
        self.progress.taken += 1;
        Stepped::Ran
    }

    /// Goes on to the next place.
    pub(crate) fn go_on(&mut self) -> Stepped
        requires taken { self.old.taken < 2 ^ 31 }
        requires place { self.old.at.place < 4096 }
        ensures value { self.new ≡ moves.gone self.old (self.old.at.place + 1) }
        ensures answer { result ≡ Stepped.Ran }
    {
        let next = self.progress.place + 1;
        self.go(next)
    }

    /// Sets the gap.
    fn set_gap(&mut self, ticks: u16)
        requires { least_gap ≤ ticks }
        ensures { self.new ≡ moves.gap_set self.old ticks }
    {
        self.progress.gap = Gap::of(ticks);
    }

    /// Opens a loop.
    fn open_loop(&mut self, count: u16)
        requires { length self.old.at.counters < 17 }
        ensures { self.new ≡ moves.with_counter self.old count }
    {
        self.progress.counters.push(count);
    }

    /// Sets the flag.
    fn test(&mut self, test: OutcomeTest)
        ensures { self.new ≡ moves.flagged self.old (test_of test self.old.point.last) }
    {
        self.progress.flag = asks(test, self.progress.last);
    }

    /// Takes 1 from the top counter: above 0 goes to a place, at 0 pops it and goes on.
    fn again(&mut self, place: u16) -> Stepped
        requires taken { self.old.taken < 2 ^ 31 }
        requires place { self.old.at.place < 4096 }
        requires counter { 0 < length self.old.at.counters }
        ensures value { self.new ≡ moves.moved_quietly
            (turns (world_in self.old) self.old.at.counters place self.old.at (frames_point self.old)) self.old }
        ensures answer { result ≡ Stepped.Ran }
    {
        match self.progress.counters.pop() {
            Some(count) if count > 1 => {
                self.progress.counters.push(count - 1);
                self.go(place)
            }
            _ => self.go_on(),
        }
    }

    /// Pops the top counter, and goes to a place.
    fn leave(&mut self, place: u16) -> Stepped
        requires taken { self.old.taken < 2 ^ 31 }
        requires counter { 0 < length self.old.at.counters }
        ensures value { self.new ≡ moves.moved_quietly
            (leaves (world_in self.old) self.old.at.counters place self.old.at (frames_point self.old)) self.old }
        ensures answer { result ≡ Stepped.Ran }
    {
        // What is left of the loop's count is no longer asked for.
        let _ = self.progress.counters.pop();
        self.go(place)
    }

    /// Notes the place behind the call, and goes to where a routine begins.
    fn call(&mut self, routine: u8) -> Stepped
        requires taken { self.old.taken < 2 ^ 31 }
        requires place { self.old.at.place < 4096 }
        requires room { length self.old.at.returns < 32 }
        requires there { routine_at self.old.code.operations routine ≢ None }
        ensures value { self.new ≡ moves.moved_quietly
            (calls (world_in self.old) (routine_at self.old.code.operations routine) self.old.at
            (frames_point self.old)) self.old }
        ensures answer { result ≡ Stepped.Ran }
    {
        let begin = self.program.routine(routine);
        self.progress.returns.push(self.progress.place + 1);
        self.go(begin)
    }

    /// Goes to the place that was noted last.
    fn come_back(&mut self) -> Stepped
        requires taken { self.old.taken < 2 ^ 31 }
        requires noted { 0 < length self.old.at.returns }
        ensures value { self.new ≡ moves.moved_quietly
            (comes_back (world_in self.old) self.old.at.returns self.old.at (frames_point self.old)) self.old }
        ensures answer { result ≡ Stepped.Ran }
    {
        match self.progress.returns.pop() {
            Some(place) => self.go(place),
            None => Stepped::Ran,
        }
    }

    /// Goes to a place where the flag is false.
    fn jump_false(&mut self, place: u16) -> Stepped
        requires taken { self.old.taken < 2 ^ 31 }
        requires place { self.old.at.place < 4096 }
        ensures value { self.new ≡ moves.gone self.old (if self.old.at.flag then self.old.at.place + 1 else place) }
        ensures answer { result ≡ Stepped.Ran }
    {
        if self.progress.flag {
            self.go_on()
        } else {
            self.go(place)
        }
    }

    /// One step: one row of the operation table.
    pub fn step(&mut self) -> Stepped
        requires { IsAble self.old }
        ensures value { self.new ≡ stepped self.old }
        ensures answer { result ≡ answered self.old }
        ensures soon { clock_in self.new ≤ clock_in self.old + most_ticks self.old }
    {
        match self.op() {
            Op::Halt => self.halt(),
            Op::Send(index) => self.send_next(index, false),
            Op::Alt(index) => self.send_next(index, true),
            Op::SetGap(ticks) => {
                self.set_gap(ticks);
                self.go_on()
            }
            Op::Loop(count) => {
                self.open_loop(count);
                self.go_on()
            }
            Op::Again(place) => self.again(place),
            Op::Leave(place) => self.leave(place),
            Op::Jump(place) => self.go(place),
            Op::Test(test) => {
                self.test(test);
                self.go_on()
            }
            Op::JumpFalse(place) => self.jump_false(place),
            Op::Call(routine) => self.call(routine),
            Op::Return => self.come_back(),
            Op::Begin => {
                self.open_frame();
                self.go_on()
            }
            Op::Pace(hundreds) => self.close_frame(hundreds),
        }
    }

    /// The bus as it is now.
    pub fn bus(&self) -> &Bus
        ensures { result.now ≡ self.now.point.state }
    {
        &self.bus
    }

    /// How many messages were sent.
    pub fn number(&self) -> u32
        ensures { result ≡ self.now.point.number }
    {
        self.agenda.number()
    }

    /// The last outcome.
    pub fn last_outcome(&self) -> Option<Outcome>
        ensures { result ≡ self.now.point.last }
    {
        self.progress.last
    }

    /// What the latest message came to.
    pub fn latest_outcome(&self) -> Option<Outcome>
        ensures { result ≡ self.now.latest }
    {
        self.progress.latest
    }

    /// How many inserted messages wait.
    pub fn queued(&self) -> u64
        ensures { result ≡ length (queue_at (length self.now.made) self.now.placed self.now.made) }
    {
        self.agenda.queued()
    }

    /// The sources of words that are set.
    pub fn sources(&self) -> &Sources
        ensures { StandsForSources result.now.rows self.now.placed self.now.made }
    {
        self.agenda.sources()
    }

    /// Equal parts, in memory of their own.
    pub fn copy(&self) -> Result<Parts, AllocError>
        ensures { IfOk result (λ p. p ≡ self.now) }
    {
        Ok(Parts {
            program: self.program.copy()?,
            plan: self.plan.copy()?,
            agenda: self.agenda.copy()?,
            begun: same(&self.begun),
            progress: self.progress.copy(),
            bus: self.bus.copy()?,
            talk: Talk::none(),
        })
    }

    /// What steps change, as it is now.
    pub fn save(&self) -> Result<SavedParts, AllocError>
        ensures { IfOk result (λ s. s ≡ self.now) }
    {
        let (placed, posted) = self.agenda.schedules();
        Ok(SavedParts {
            program: Snapshot::of(&self.program),
            plan: Snapshot::of(&self.plan),
            placed: Snapshot::of(placed),
            posted: Snapshot::of(posted),
            agenda: self.agenda.save()?,
            begun: same(&self.begun),
            progress: self.progress.copy(),
            bus: self.bus.save()?,
        })
    }

    /// Goes back to what was saved.
    pub fn restore(&mut self, saved: &SavedParts) -> Result<(), AllocError>
        requires { AreAlike self.old saved.now }
        ensures restored { OnOk result (self.new ≡ saved.now) }
        ensures same { OnErr result (self.new ≡ self.old) }
    {
        let before = self.agenda.room_left();
        self.agenda.grow(saved.agenda.room)?;
        if let Err(failed) = self.bus.restore(&saved.bus) {
            self.agenda.shrink(before);
            return Err(failed);
        }
        self.agenda.shrink(saved.agenda.room);
        self.agenda.restore(&saved.agenda);
        self.progress = saved.progress.copy();
        Ok(())
    }
}
