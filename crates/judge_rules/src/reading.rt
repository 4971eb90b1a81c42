//! The rules that a text spells.
ghost use Rattle.judge_rules.specs.Parts.{IsInRange, parts_of};
ghost use Rattle.judge_rules.specs.Rules.{rules_in, rules_from, IsRuleError, FitsAt};
ghost use Rattle.std.specs.List.{AllByRecursion};
ghost use Rattle.std.specs.Prelude.{◌≡◌, ◌+◌, ◌≤◌, ◌<◌, ◌^◌, Ok, Err, IfOk, IfErr, length, map};
ghost use Rattle.text_lines.specs.Lines.{text_lines};

use crate::fault::{RuleError, RuleFault};
use crate::line_rules::read_line;
use crate::rules::Rule;
use std::alloc::Global;
use text_lines::next_line;

/// How many rules a text may have.
pub(crate) const MOST_RULES: usize = 10_000;

/// The rules that a text spells, in their order (own choice): a rule a line, words separated by spaces; a line without
/// words, or whose first word begins with `#`, is passed over. Else the first fault: I1 to I3 of the first line that
/// has one, in a line I1 before I2 before I3; more than 10,000 rules are I3 at the line of the next, and a text without
/// a rule is I1 at the line behind its last. I4, want of memory, is answered only for a text without a fault, at the
/// line of the rule for which it was refused.
pub fn read_rules(alloc: Global, text: &[u8]) -> Result<Vec<Rule>, RuleError>
    ensures rules { IfOk result (λ rules. rules_in text.now ≡ Ok (map parts_of rules.items)) }
    ensures ranges { IfOk result (λ rules. AllByRecursion IsInRange rules.items) }
    ensures fault { IfErr result (λ e. IsRuleError e (rules_in text.now)) }
{
    let mut rules = Vec::new(alloc);
    let mut rest = text;
    let mut line = 1u64;
    while let Some((first, behind)) = next_line(rest) {
        match read_line(line, first) {
            None => {}
            Some(Err(fault)) => return Err(RuleError { fault, line }),
            Some(Ok(rule)) => {
                let count = rules.len();
                if count == MOST_RULES {
                    return Err(RuleError {
                        fault: RuleFault::Range,
                        line,
                    });
                }
                if rules.push(rule).is_err() {
                    return Err(fault_or_memory(behind, count + 1, line));
                }
            }
        }
        rest = behind;
        line += 1;
    }
    if rules.is_empty() {
        return Err(RuleError {
            fault: RuleFault::Word,
            line,
        });
    }
    Ok(rules)
}

/// The first fault of what is left behind a line, of a text that had so many rules before; or want of memory at that
/// line.
fn fault_or_memory(rest: &[u8], rules: usize, line: u64) -> RuleError
    requires some { 1 ≤ rules }
    requires most { rules ≤ MOST_RULES }
    requires few { line + 1 + length rest.now < 2 ^ 64 }
    ensures { FitsAt line result (rules_from rules (line + 1) (text_lines rest.now)) }
{
    let mut rules = rules;
    let mut rest = rest;
    let mut next = line + 1;
    while let Some((first, behind)) = next_line(rest) {
        match read_line(next, first) {
            None => {}
            Some(Err(fault)) => return RuleError { fault, line: next },
            Some(Ok(_)) => {
                if rules == MOST_RULES {
                    return RuleError {
                        fault: RuleFault::Range,
                        line: next,
                    };
                }
                rules += 1;
            }
        }
        rest = behind;
        next += 1;
    }
    RuleError {
        fault: RuleFault::Memory,
        line,
    }
}
