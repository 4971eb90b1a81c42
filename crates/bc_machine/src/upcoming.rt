//! The message that the next step sends, before it is sent.
ghost use Rattle.bc_machine.specs.Coming.{IsAbout, Comes, ComesInserted, held_by};
ghost use Rattle.bc_machine.specs.Controller.{next_bus};
ghost use Rattle.bc_machine.specs.Hosting.{next_insertion};
ghost use Rattle.bc_machine.specs.MayStep.{IsAble};
ghost use Rattle.bc_machine.specs.Moves.{line_of};
ghost use Rattle.bc_machine.specs.Running.{clock_in, setting, bus_run, most_inserted};
ghost use Rattle.frame_code.specs.declared.Op.TheVariants as op;
ghost use Rattle.mil_bus.specs.Exchange.{now_of, talk_of};
ghost use Rattle.mil_line.specs.Plans.{faults_of};
ghost use Rattle.mil_line.specs.Ranges.{is_in_range};
ghost use Rattle.std.specs.List.{list_all};
ghost use Rattle.std.specs.Option.{is_some};
ghost use Rattle.std.specs.Prelude.{◌≡◌, true, ◌<◌, ◌≤◌, ◌+◌, ◌^◌, length, slice_get, Some, if◌then◌else◌, IfOk};
ghost use Rattle.std.specs.Prelude.{IfSome};

use crate::laws::BusSetting;
use crate::machine::Machine;
use crate::parts::Parts;
use crate::schedule::act_both;
use crate::sending::line_for;
use frame_code::Op;
use frame_load::loadable_runs;
use mil_bus::{Bus, Talk};
use mil_line::{Fault, Gap};
use mil_message::Message;
use mil_word::Line;
use std::alloc::AllocError;

/// A message that is about to be sent.
#[derive(Drop)]
pub struct Upcoming {
    /// The bus as the message meets it, once the actions placed at it are done.
    pub bus: Bus,
    /// The gap that is set.
    pub gap: Gap,
    /// Its talk.
    pub talk: Talk,
    /// Whether the host of the controller asked for it.
    pub inserted: bool,
}

/// A message as it is about to be sent on this bus, under these faults.
fn prepared(
    bus: Bus,
    line: Line,
    message: &Message,
    gap: Gap,
    faults: &[Fault],
    inserted: bool,
) -> Result<Upcoming, AllocError>
    requires clock { now_of bus < 2 ^ 60 }
    requires in_range { list_all is_in_range faults.now ≡ true }
    ensures bus { IfOk result (λ u. u.bus ≡ bus) }
    ensures gap { IfOk result (λ u. u.gap ≡ gap) }
    ensures talk { IfOk result (λ u. u.talk ≡ talk_of bus line message.now gap faults.now) }
    ensures inserted { IfOk result (λ u. u.inserted ≡ inserted) }
    ensures soon { IfOk result (λ u. now_of u.bus < 2 ^ 60) }
{
    let mut after = bus.copy()?;
    let talk = after.exchange(line, message, gap, faults);
    Ok(Upcoming {
        bus,
        gap,
        talk,
        inserted,
    })
}

/// Waits on a bus for a tick, where one is given.
fn wait_for(bus: &mut Bus, tick: Option<u64>)
    ensures { bus.new ≡ held_by tick bus.old }
{
    if let Some(tick) = tick {
        // The bus is a copy for this message, so the least start that it had is not wanted again.
        let _ = bus.hold(tick);
    }
}

impl Parts {
    /// The message of an index as it is about to be sent, on its own line or on the line other than the last one's.
    fn about(&self, index: u16, alternates: bool) -> Result<Upcoming, AllocError>
        requires message { index < length self.now.code.messages }
        requires number { length self.now.made < 2 ^ 31 }
        requires clock { clock_in self.now ≤ 2 ^ 48 }
        ensures { IfOk result (λ u. IfSome (slice_get self.now.code.messages index)
            (λ x. IsAbout self.now (line_of alternates self.now.at.line x.0) x.1 u)) }
    {
        let (own, message) = &self.program.image().messages()[index as usize];
        let line = line_for(alternates, self.progress.line, *own);
        let sent = self.agenda.coming_own(message);
        self.about_to_send(line, &sent, None)
    }

    /// A message as it is about to be sent, behind the actions placed at it; an inserted one not before a tick.
    fn about_to_send(
        &self,
        line: Line,
        message: &Message,
        tick: Option<u64>,
    ) -> Result<Upcoming, AllocError>
        requires number { length self.now.made < 2 ^ 31 }
        requires clock { clock_in self.now ≤ 2 ^ 48 }
        requires tick { IfSome tick (λ tick. tick ≤ 2 ^ 47) }
        ensures bus { IfOk result (λ u. u.bus ≡ held_by tick (next_bus (setting self.now) (bus_run self.now))) }
        ensures gap { IfOk result (λ u. u.gap ≡ self.now.point.gap) }
        ensures talk { IfOk result (λ u.
            u.talk ≡ talk_of (held_by tick (next_bus (setting self.now) (bus_run self.now))) line message.now
            self.now.point.gap (faults_of (length self.now.made + 1) self.now.plan)) }
        ensures inserted { IfOk result (λ u. u.inserted ≡ is_some tick) }
        ensures soon { IfOk result (λ u. now_of u.bus < 2 ^ 60) }
    {
        let number = self.agenda.number() + 1;
        let mut bus = self.bus.copy()?;
        let (placed, posted) = self.agenda.schedules();
        act_both(&mut bus, placed, posted, number);
        let faults = self.plan.faults(number);
        let inserted = tick.is_some();
        wait_for(&mut bus, tick);
        prepared(
            bus,
            line,
            message,
            self.progress.gap,
            faults.as_slice(),
            inserted,
        )
    }

    /// The inserted message that the next step sends, if it sends one.
    fn inserted(&self) -> Result<Option<Upcoming>, AllocError>
        requires number { length self.now.made < 2 ^ 31 }
        requires clock { clock_in self.now ≤ 2 ^ 48 }
        ensures comes { IfOk result (λ o. ComesInserted self.now
            (next_insertion self.now.placed (most_inserted self.now.code) self.now.made) o) }
        ensures soon { IfOk result (λ o. IfSome o (λ u. now_of u.bus < 2 ^ 60)) }
    {
        let Some(insertion) = self.agenda.coming_insertion(self.most_inserted()) else {
            return Ok(None);
        };
        let tick = Some(insertion.tick());
        let upcoming = self.about_to_send(insertion.line(), insertion.message(), tick)?;
        Ok(Some(upcoming))
    }

    /// The message of an index as it is about to be sent, or the inserted one that is sent first.
    fn either(&self, index: u16, alternates: bool) -> Result<Option<Upcoming>, AllocError>
        requires able { IsAble self.now }
        requires there { slice_get self.now.code.operations self.now.at.place
            ≡ Some (if alternates then op.Alt index else op.Send index) }
        ensures { IfOk result (λ o. Comes self.now o) }
    {
        match self.inserted()? {
            Some(inserted) => Ok(Some(inserted)),
            None => Ok(Some(self.about(index, alternates)?)),
        }
    }

    /// The message that the next step sends; None where it sends none.
    fn upcoming(&self) -> Result<Option<Upcoming>, AllocError>
        requires { IsAble self.now }
        ensures { IfOk result (λ o. Comes self.now o) }
    {
        match self.op() {
            Op::Send(index) => self.either(index, false),
            Op::Alt(index) => self.either(index, true),
            Op::Halt => self.inserted(),
            _ => Ok(None),
        }
    }
}

impl Machine {
    /// The message that the next step sends, and the bus as that message meets it; None where the next step sends none.
    /// It fails for want of memory alone.
    pub fn upcoming(&self) -> Result<Option<Upcoming>, AllocError>
        ensures { IfOk result (λ o. Comes self.now o) }
    {
        loadable_runs::<BusSetting>();
        self.parts.upcoming()
    }
}
