//! The placed actions of a controller that came to its end, for the report.
ghost use Rattle.bc_machine.specs.declared.placed.Placed.{Placed};
ghost use Rattle.bench_settings.specs.Placing.{placed_up_to, IsOrdered};
ghost use Rattle.std.specs.Prelude.{◌≡◌, ◌++◌, ◌∷◌, [], List, IfOk, OnOk};

use bc_machine::{Actions, Ended, Machine, Placed, Schedule};
use bench_settings::{add_action, is_for_place};
use std::alloc::{AllocError, Global};

/// A channel makes at most so many messages.
const LAST: u32 = 1_000_000;

/// One action more. It fails for want of memory; an action at no message, or for no terminal, is placed nowhere.
fn add_one(ordered: &mut Schedule, one: Placed) -> Result<(), AllocError>
    requires { IsOrdered ordered.old.actions }
    ensures listed { OnOk result ((actions : List Placed) → ordered.old.actions ≡ placed_up_to 1000000 actions
        → ordered.new.actions ≡ placed_up_to 1000000 (actions ++ one ∷ [])) }
    ensures fit { OnOk result (IsOrdered ordered.new.actions) }
{
    if one.number == 0 || one.number > LAST || !is_for_place(&one.action) {
        return Err(AllocError);
    }
    ordered.grow(ordered.len() + 1)?;
    add_action(ordered, one);
    Ok(())
}

/// These actions too. It fails for want of memory.
fn add_all(ordered: &mut Schedule, more: &Actions) -> Result<(), AllocError>
    requires { IsOrdered ordered.old.actions }
    ensures listed { OnOk result ((actions : List Placed) → ordered.old.actions ≡ placed_up_to 1000000 actions
        → ordered.new.actions ≡ placed_up_to 1000000 (actions ++ more.now)) }
    ensures fit { OnOk result (IsOrdered ordered.new.actions) }
{
    for place in 0..more.len() {
        add_one(ordered, more.get(place))?;
    }
    Ok(())
}

/// The placed actions of a controller, by rising number, those at one number in their order. It fails for want of
/// memory.
pub(crate) fn reported(alloc: Global, machine: Machine) -> Result<Actions, AllocError>
    ensures ordered { IfOk result (λ v. v ≡ placed_up_to 1000000 machine.placed) }
    ensures fit { IfOk result IsOrdered }
{
    let Ended { placed, posted, .. } = machine.end();
    let mut first = placed;
    // Those that rise are added behind one another.
    first.sort()?;
    let mut ordered = Schedule::none(alloc);
    add_all(&mut ordered, &first)?;
    add_all(&mut ordered, &posted)?;
    Ok(Actions::of(ordered))
}
