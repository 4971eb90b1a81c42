//! Actions that are placed while the program is under way, each at the next message.
ghost use Rattle.bc_machine.specs.Posting.{with_placed, with_room, at_next};
ghost use Rattle.bc_machine.specs.UnderWay.{IsUnderWay};
ghost use Rattle.std.specs.Prelude.{◌≡◌, ◌+◌, ◌<◌, ◌≤◌, ◌++◌, ◌∷◌, [], length, IfErr, OnOk, OnErr};

use crate::machine::Machine;
use crate::parts::Parts;
use crate::placed::{HostAction, Placed};
use std::alloc::AllocError;

impl Parts {
    /// Makes room for so many actions more.
    fn room(&mut self, count: u32) -> Result<(), AllocError>
        ensures made { OnOk result (self.new ≡ with_room self.old count) }
        ensures same { OnErr result (self.new ≡ self.old) }
    {
        self.agenda.room(count)
    }

    /// Puts an action at the next message behind those that are placed, where room was made for it; else it comes back.
    fn add(&mut self, one: Placed) -> Result<(), Placed>
        requires { one.number ≡ length self.old.made + 1 }
        ensures placed { OnOk result (self.new ≡ with_placed self.old (self.old.placed ++ one ∷ [])) }
        ensures there { OnOk result (length self.old.placed < self.old.capacity) }
        ensures used_up { OnErr result (self.old.capacity ≤ length self.old.placed) }
        ensures back { IfErr result (λ back. back ≡ one) }
        ensures same { OnErr result (self.new ≡ self.old) }
    {
        self.agenda.add(one)
    }
}

impl Machine {
    /// Makes room for so many actions more than are placed, where there is not that much, and `place` then takes these
    /// without memory. It fails for want of memory alone, and then the controller stays as it was.
    pub fn room(&mut self, count: u32) -> Result<(), AllocError>
        ensures made { OnOk result (self.new ≡ with_room self.old count) }
        ensures same { OnErr result (self.new ≡ self.old) }
        ensures under_way { IsUnderWay self.new }
    {
        self.parts.room(count)
    }

    /// Places an action of a host at the next message, behind the actions that are placed there. It comes back where
    /// the room that was made is used up. It takes no memory.
    pub fn place(&mut self, action: HostAction) -> Result<(), HostAction>
        ensures placed { OnOk result
            (self.new ≡ with_placed self.old (self.old.placed ++ at_next self.old action ∷ [])) }
        ensures there { OnOk result (length self.old.placed < self.old.capacity) }
        ensures used_up { OnErr result (self.old.capacity ≤ length self.old.placed) }
        ensures back { IfErr result (λ back. back ≡ action) }
        ensures same { OnErr result (self.new ≡ self.old) }
        ensures under_way { IsUnderWay self.new }
    {
        let one = Placed {
            number: self.parts.number() + 1,
            action,
        };
        match self.parts.add(one) {
            Ok(()) => Ok(()),
            Err(Placed { action, .. }) => Err(action),
        }
    }
}
