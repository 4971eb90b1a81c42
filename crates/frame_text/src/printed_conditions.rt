//! Conditions as text.

ghost use Rattle.frame_text.specs.PrintedConditions as texts;
ghost use Rattle.frame_tree.specs.Tree.{condition_in};
ghost use Rattle.std.specs.Prelude.{◌≡◌, ◌++◌, OnOk, string_bytes};

use frame_tree::Cond;
use mil_message::OutcomeTest;
use std::alloc::{AllocError, Allocator};

// A test.
fn put_test(out: &mut String, test: OutcomeTest) -> Result<(), AllocError>
    ensures { OnOk result (string_bytes out.new ≡ string_bytes out.old ++ texts.test_text test) }
{
    match test {
        OutcomeTest::Failed => out.push_str("fail"),
        OutcomeTest::Silent => out.push_str("silent"),
        OutcomeTest::Bit(bit) => {
            out.push_str("bit ")?;
            out.push_str(bit.name())
        }
    }
}

// What stands in front of two conditions in an operator.
fn opening<A: Allocator + Clone>(condition: &Cond<A>) -> &'static str
    ensures { result.now ≡ texts.opening (condition_in condition.now) }
{
    match condition {
        Cond::And(..) => "all ( ",
        _ => "any ( ",
    }
}

/// A condition; two in an operator stand in brackets.
#[tactic(auto, unfolding(crate::specs::PrintedConditions::condition_text))]
pub fn put_condition<A: Allocator + Clone>(
    out: &mut String,
    condition: &Cond<A>,
) -> Result<(), AllocError>
    ensures { OnOk result (string_bytes out.new
        ≡ string_bytes out.old ++ texts.condition_text (condition_in condition.now)) }
{
    match condition {
        Cond::Test(test) => put_test(out, *test),
        Cond::Not(inner) => {
            out.push_str("not ")?;
            put_condition(out, inner)
        }
        Cond::And(first, second) | Cond::Or(first, second) => {
            out.push_str(opening(condition))?;
            put_condition(out, first)?;
            out.push_str(" ")?;
            put_condition(out, second)?;
            out.push_str(" )")
        }
    }
}
