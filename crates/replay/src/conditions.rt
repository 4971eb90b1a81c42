//! Conditions on the outcome of a message.
ghost use Rattle.frame_tree.specs.Tree.{condition_in};
ghost use Rattle.replay.specs.Conditions.{answer_of};
ghost use Rattle.std.specs.Prelude.{◌≡◌};

use bc_machine::asks;
use frame_tree::Cond;
use mil_bus::Outcome;
use std::alloc::Allocator;

/// What a condition says of the last outcome; before any message every test in it is false.
pub(crate) fn holds<A: Allocator + Clone>(condition: &Cond<A>, last: Option<Outcome>) -> bool
    ensures { result ≡ answer_of (condition_in condition.now) last }
{
    match condition {
        Cond::Test(test) => asks(*test, last),
        Cond::Not(c) => !holds(c, last),
        Cond::And(a, b) => holds(a, last) && holds(b, last),
        Cond::Or(a, b) => holds(a, last) || holds(b, last),
    }
}
