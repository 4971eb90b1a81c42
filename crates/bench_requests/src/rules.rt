//! Rules, judged once their file is read.
ghost use Rattle.bench_requests.specs.Requests.{IsRefusedText, fault_of_rules, unless_memory};
ghost use Rattle.judge_rules.specs.Parts.{parts_of};
ghost use Rattle.judge_rules.specs.Rules.{rules_in};
ghost use Rattle.std.specs.Prelude.{◌≡◌, Ok, IfOk, IfErr, map};

use crate::fault::CommandFault;
use judge_rules::{Rule, RuleError, RuleFault, read_rules};
use std::alloc::Global;

/// What a text comes to whose reader tells of this fault: want of memory, or that it is refused so.
pub(crate) fn unless_memory<'a>(fault: RuleFault, refused: CommandFault<'a>) -> CommandFault<'a>
    ensures { result ≡ unless_memory fault refused.entry }
{
    match fault {
        RuleFault::Memory => CommandFault::Memory,
        RuleFault::Word | RuleFault::Number | RuleFault::Range => refused,
    }
}

/// The fault of rules that were refused.
pub fn fault_of_rules<'a>(error: RuleError) -> CommandFault<'a>
    ensures { result ≡ fault_of_rules error }
{
    unless_memory(error.fault, CommandFault::Rules(error))
}

/// The rules that a text spells, or its first fault. Memory is answered only for a text without a fault.
pub fn rules_of<'a>(alloc: Global, text: &[u8]) -> Result<Vec<Rule>, CommandFault<'a>>
    ensures rules { IfOk result (λ rules. rules_in text.now ≡ Ok (map parts_of rules.items)) }
    ensures refused { IfErr result (IsRefusedText (rules_in text.now)) }
{
    match read_rules(alloc, text) {
        Ok(rules) => Ok(rules),
        Err(error) => Err(fault_of_rules(error)),
    }
}
