//! An action that a host posts, among those of its channel.
ghost use Rattle.bc_machine.specs.declared.placed.Placed.{Placed};
ghost use Rattle.bench_report.specs.Reports.{IsForPlace};
ghost use Rattle.bench_settings.specs.Placing.{placed_up_to, IsOrdered};
ghost use Rattle.std.specs.Prelude.{◌≡◌, ◌<◌, ◌≤◌, ◌++◌, ◌∷◌, [], List, length};

use bc_machine::{Placed, Schedule};
use bench_settings::add_action;

/// A channel makes at most so many messages.
const LAST: u32 = 1_000_000;

/// Adds an action to ordered ones as `add_action` does, but for one at a number that no channel comes to,
/// which makes no difference. It takes no memory.
pub(crate) fn add_posted(ordered: &mut Schedule, one: Placed)
    requires number { 1 ≤ one.number }
    requires host { IsForPlace one.action }
    requires ordered { IsOrdered ordered.old.actions }
    requires room { length ordered.old.actions < ordered.old.capacity }
    ensures ordered { (actions : List Placed) → ordered.old.actions ≡ placed_up_to 1000000 actions
        → ordered.new.actions ≡ placed_up_to 1000000 (actions ++ one ∷ []) }
    ensures fit { IsOrdered ordered.new.actions }
{
    if one.number <= LAST {
        add_action(ordered, one);
    }
}
