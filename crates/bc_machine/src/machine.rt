//! A controller whose program is under way.
ghost use Rattle.bc_machine.specs.Agendas.{StandsForSources};
ghost use Rattle.bc_machine.specs.Alike.{AreAlike};
ghost use Rattle.bc_machine.specs.Hosting.{queue_at};
ghost use Rattle.bc_machine.specs.Running.{started, stepped, answered};
ghost use Rattle.bc_machine.specs.UnderWay.{IsUnderWay, TellsStep};
ghost use Rattle.mil_bus.specs.Exchange.{now_of};
ghost use Rattle.std.specs.Prelude.{◌≡◌, ◌≤◌, ◌^◌, length, IfOk, OnOk, OnErr};

use crate::laws::BusSetting;
use crate::parts::Parts;
use crate::saved::Saved;
use crate::{Actions, Stepped};
use controller_host::Sources;
use frame_load::{Program, loadable_runs};
use mil_bus::{Bus, Outcome};
use mil_line::Plan;
use std::alloc::{AllocError, Global};
use std::marker::Model;

/// A program under way on a bus. Contracts see its code, the plan, the placed actions, the bus that it began with, how
/// many steps it took, the controller's registers, the bus as it is now, how many messages were made and which, the
/// gap, and the last outcome, of the script and of all messages.
#[derive(Drop)]
pub struct Machine {
    pub(crate) parts: Parts,
}

impl Model for Machine {
    ghost use Rattle.bc_machine.specs.Running.{MachineState};
    ghost use Rattle.bc_machine.specs.UnderWay.{IsUnderWay};

    ghost Value = { MachineState };

    ghost view = { λ m. m.parts };

    ghost invariant = { λ m. IsUnderWay m.parts };
}

impl Machine {
    /// A program at its beginning, on a bus, with the faults planned and the actions placed for its messages.
    /// Condition: it is at most tick 2^47 on the bus. It takes no memory.
    pub fn start(program: Program, bus: Bus, plan: Plan, placed: Actions) -> Machine
        requires { now_of bus ≤ 2 ^ 47 }
        ensures value { result ≡ started program bus plan placed }
        ensures under_way { IsUnderWay result }
    {
        Machine {
            parts: Parts::start(program, bus, plan, placed),
        }
    }

    /// One step: one row of the operation table, or in front of a message and at the end of the program the message
    /// that the host of the controller asked for and that waits longest. A message step raises the number, lets the
    /// actions placed at it act in their order, makes the exchange with the faults planned for it, keeps the outcome,
    /// and answers the record. It takes no memory.
    pub fn step(&mut self) -> Stepped
        ensures value { self.new ≡ stepped self.old }
        ensures answer { result ≡ answered self.old }
        ensures tells { TellsStep self.old self.new result }
        ensures under_way { IsUnderWay self.new }
    {
        loadable_runs::<BusSetting>();
        self.parts.step()
    }

    /// The bus as it is now.
    pub fn bus(&self) -> &Bus
        ensures value { result.now ≡ self.now.point.state }
        ensures under_way { IsUnderWay self.now }
    {
        self.parts.bus()
    }

    /// How many messages were sent, 0 to 1,000,000.
    pub fn number(&self) -> u32
        ensures value { result ≡ self.now.point.number }
        ensures range { result ≤ 1000000 }
    {
        self.parts.number()
    }

    /// What the last message of the script came to; None before any.
    pub fn last_outcome(&self) -> Option<Outcome>
        ensures { result ≡ self.now.point.last }
    {
        self.parts.last_outcome()
    }

    /// What the latest message came to, of the script or inserted; None before any.
    pub fn latest_outcome(&self) -> Option<Outcome>
        ensures { result ≡ self.now.latest }
    {
        self.parts.latest_outcome()
    }

    /// How many messages wait that the host of the controller had inserted by the messages made so far.
    pub fn queued(&self) -> u64
        ensures { result ≡ length (queue_at (length self.now.made) self.now.placed self.now.made) }
    {
        self.parts.queued()
    }

    /// The sources of words that the host of the controller has set by the messages made so far.
    pub fn sources(&self) -> &Sources
        ensures { StandsForSources result.now.rows self.now.placed self.now.made }
    {
        self.parts.sources()
    }

    /// An equal controller, in memory of its own, which fails for want of memory alone.
    pub fn copy(&self) -> Result<Machine, AllocError>
        ensures { IfOk result (λ m. m ≡ self.now) }
    {
        Ok(Machine {
            parts: self.parts.copy()?,
        })
    }

    /// The controller as it is now, without its program, plan and placed actions, which fails for want of memory alone.
    pub fn save(&self, _alloc: Global) -> Result<Saved, AllocError>
        ensures { IfOk result (λ s. s ≡ self.now) }
    {
        Ok(Saved {
            parts: self.parts.save()?,
        })
    }

    /// Goes to what was saved, back or on. It fails for want of memory alone, and then changes nothing. Condition: it
    /// was saved from a controller that was started with the same program, bus, plan and placed actions.
    pub fn restore(&mut self, saved: &Saved) -> Result<(), AllocError>
        requires { AreAlike self.old saved.now }
        ensures restored { OnOk result (self.new ≡ saved.now) }
        ensures same { OnErr result (self.new ≡ self.old) }
    {
        self.parts.restore(&saved.parts)
    }
}
