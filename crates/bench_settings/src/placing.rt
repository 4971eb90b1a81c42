//! Actions in the order in which a channel's messages meet them.
ghost use Rattle.bc_machine.specs.declared.placed.Placed.{Placed};
ghost use Rattle.bench_settings.specs.Placing.{placed_up_to, IsOrdered};
ghost use Rattle.bench_report.specs.Reports.{IsPlace, IsForPlace};
ghost use Rattle.std.specs.Prelude.{◌≡◌, ◌↔◌, ◌<◌, ◌++◌, ◌∷◌, [], List, length, IfOk, IsTrue};

use bc_machine::{Actions, HostAction, Placed, Schedule};
use job_file::Job;
use mil_word::fields::HIGHEST_ADDRESS;
use std::alloc::AllocError;

/// Whether an action is for the address of a terminal, 0 to 30, or for the controller.
pub fn is_for_place(action: &HostAction) -> bool
    ensures { IsTrue result ↔ IsForPlace action.now }
{
    match action {
        HostAction::Terminal { address, .. } => *address <= HIGHEST_ADDRESS,
        HostAction::Controller(_) => true,
    }
}

/// A job's actions by rising number, those at one number in their order. It fails for want of memory alone.
pub fn ordered_actions(job: &Job) -> Result<Actions, AllocError>
    ensures ordered { IfOk result (λ v. v ≡ placed_up_to 1000000 job.now.actions) }
    ensures fit { IfOk result IsOrdered }
{
    // Its contract says that addresses are 0 to 30.
    let _addresses = job.addresses();
    let mut actions = job.actions().copy()?;
    actions.sort()?;
    Ok(actions)
}

/// Adds an action to ordered ones, behind those of its number, in room that was made for it. It takes no memory.
pub fn add_action(ordered: &mut Schedule, one: Placed)
    requires place { IsPlace one }
    requires ordered { IsOrdered ordered.old.actions }
    requires room { length ordered.old.actions < ordered.old.capacity }
    ensures ordered { (actions : List Placed) → ordered.old.actions ≡ placed_up_to 1000000 actions
        → ordered.new.actions ≡ placed_up_to 1000000 (actions ++ one ∷ []) }
    ensures fit { IsOrdered ordered.new.actions }
{
    ordered.put_in(one);
}
