//! What a controller gives back when it is done with.
ghost use Rattle.std.specs.Prelude.{◌≡◌, ◌++◌};

use crate::Actions;
use crate::agenda::Agenda;
use crate::machine::Machine;
use crate::parts::Parts;
use mil_line::Plan;

/// The plan and the placed actions of a controller, as they were when it was ended.
#[derive(Drop)]
pub struct Ended {
    pub plan: Plan,
    /// The actions that it was started with.
    pub placed: Actions,
    /// Those that were placed while it was under way, behind the others.
    pub posted: Actions,
}

impl Agenda {
    /// The placed actions: those of the beginning, and those that were placed later.
    fn into_actions(self) -> (Actions, Actions)
        ensures { self.placed ≡ result.0 ++ result.1 }
    {
        (Actions::of(self.placed), Actions::of(self.posted))
    }
}

impl Parts {
    /// The plan and the placed actions.
    fn end(self) -> Ended
        ensures plan { result.plan ≡ self.plan }
        ensures actions { result.placed ++ result.posted ≡ self.placed }
    {
        let (placed, posted) = self.agenda.into_actions();
        Ended {
            plan: self.plan,
            placed,
            posted,
        }
    }
}

impl Machine {
    /// Ends the controller: its plan, with the faults that were planned while it was under way, and its placed actions.
    /// It takes no memory.
    pub fn end(self) -> Ended
        ensures plan { result.plan ≡ self.plan }
        ensures actions { result.placed ++ result.posted ≡ self.placed }
    {
        self.parts.end()
    }
}
