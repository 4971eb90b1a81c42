//! What holds of every run of a controller.
ghost use Rattle.bc_machine.specs.NextMessage.{FaultsAreNotTold, NextMessageIsSent, TerminalActionsAreNotTold};
ghost use Rattle.bc_machine.specs.Planning.{FaultsToComeAreFree, HaltsUnderEachPlan};
ghost use Rattle.bc_machine.specs.Posting.{ActionsToComeAreFree, HaltsAlike};
ghost use Rattle.bc_machine.specs.Running.{EachController, after_steps, turn_of, is_own, most_inserted};
ghost use Rattle.frame_code.specs.Table.{halted, stuck};
ghost use Rattle.frame_load.specs.Budget.{budget, worst_messages};
ghost use Rattle.std.specs.Prelude.{◌≡◌, ◌≢◌, ◌≤◌, ◌+◌, ◌-◌, ℕ, count_by};

use frame_code::Setting;
use frame_load::loadable_runs;

/// The bus as what frames run on, for laws alone.
pub struct BusSetting;

impl Setting for BusSetting {
    ghost use Rattle.bc_machine.specs.Controller.{BusRun};
    ghost use Rattle.mil_bus.specs.declared.outcomes.Outcome.{Outcome};

    ghost State = { BusRun };

    ghost Outcome = { Outcome };
}

/// Law: a controller that runs a loadable code on any bus, under any plan and any placed actions, is never stuck: it
/// never meets a bad place, an empty list of counters, of return places or of open frames, or a routine or a message
/// that is not there. It sends at most as many messages of the code as the code's sum says; where that is at most
/// 1,000,000, so are all messages, with those that its host has inserted. It stands at a Halt after one step less than
/// its budget, which counts the Halt too, and a step for each message that may be inserted.
pub fn controller_runs()
    ensures never_stuck { EachController (λ m. (n : ℕ) → turn_of (after_steps n m) ≢ stuck) }
    ensures messages { EachController (λ m. (n : ℕ) →
        count_by is_own (after_steps n m).made ≤ worst_messages m.code.operations) }
    ensures all_messages { EachController (λ m. (n : ℕ) →
        worst_messages m.code.operations ≤ 1000000 → (after_steps n m).point.number ≤ 1000000) }
    ensures halts { EachController (λ m.
        turn_of (after_steps ((budget m.code.operations - 1) + most_inserted m.code) m) ≡ halted) }
{
    loadable_runs::<BusSetting>();
}

/// Law: the actions that are placed at messages to come leave no trace. With others at these, a controller under way
/// stands where it stood, and has halted where it had.
pub fn actions_to_come_are_free()
    ensures free { ActionsToComeAreFree }
    ensures halts { HaltsAlike }
{}

/// Law: the faults that are planned for messages to come leave no trace. With others for these, a controller under way
/// stands where it stood, and has halted where it had.
pub fn faults_to_come_are_free()
    ensures free { FaultsToComeAreFree }
    ensures halts { HaltsUnderEachPlan }
{}

/// Law: the talk that comes next is the one that the next step makes: a controller under way that sends a message next
/// stands at an operation that sends one or ends the program, and behind the step that talk is the latest of its bus.
/// Where none comes, the step makes none: what was played on the bus and the number of messages stand still.
pub fn next_message_is_sent()
    ensures { NextMessageIsSent }
{
    loadable_runs::<BusSetting>();
}

/// Law: what is told of the message that comes next stays as it is where faults are planned, and where the host of a
/// terminal is asked for something more: no such action moves a bus's time, or changes what the controller sends.
pub fn next_message_stays()
    ensures faults { FaultsAreNotTold }
    ensures actions { TerminalActionsAreNotTold }
{}
