//! Tests of the last outcome, and the other line.
ghost use Rattle.bc_machine.specs.Controller.{holds};
ghost use Rattle.bc_machine.specs.Outcomes.{test_of};
ghost use Rattle.mil_message.specs.World.{other_line};
ghost use Rattle.std.specs.Prelude.{◌≡◌};

use mil_bus::Outcome;
use mil_message::OutcomeTest;
use mil_word::Line;

// Whether the outcome passes the test.
fn holds(test: OutcomeTest, outcome: Outcome) -> bool
    ensures { result ≡ holds test outcome }
{
    match test {
        OutcomeTest::Failed => outcome.failed,
        OutcomeTest::Silent => outcome.silent,
        OutcomeTest::Bit(bit) => (outcome.bits >> bit.place()) % 2 == 1,
    }
}

/// A test of the last outcome, false before any message.
pub fn asks(test: OutcomeTest, last: Option<Outcome>) -> bool
    ensures { result ≡ test_of test last }
{
    match last {
        None => false,
        Some(outcome) => holds(test, outcome),
    }
}

/// The other line.
pub fn other(line: Line) -> Line
    ensures { result ≡ other_line line }
{
    match line {
        Line::A => Line::B,
        Line::B => Line::A,
    }
}
