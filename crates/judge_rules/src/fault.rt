//! Why a text spells no rules.
ghost use Rattle.judge_rules.specs.Codes.{error_text};
ghost use Rattle.std.specs.Prelude.{◌≡◌, Some};
ghost use Rattle.judge_rules.specs.Faults as spec;

use std::fmt::{self, Display, Formatter, Write};

/// What is wrong with a line of rules, or of a dictionary of signals, whose codes begin with D.
#[derive(Clone, Copy, Debug, PartialEq, Eq)]
pub enum RuleFault {
    /// I1: a word that does not stand there, is missing or is left over; or there is no rule.
    Word,
    /// I2: not a number of one to seven digits, not four hexadecimal digits, or not a time with its unit.
    Number,
    /// I3: out of range, a least number above the greatest, a first time behind the last, more than 32 data words, or
    /// more than 10,000 rules.
    Range,
    /// I4: memory was refused. The text has no fault.
    Memory,
}

/// The first fault of a text, with its line.
#[derive(Clone, Copy, Debug, PartialEq, Eq)]
pub struct RuleError {
    pub fault: RuleFault,
    /// The line, counted from 1; where there is no rule, the one behind the last.
    pub line: u64,
}

/// The code of the fault and its line, as in `I2 line 3`.
impl Display for RuleError {
    ghost output = { λ e. Some (error_text e) };

    fn fmt<W: Write>(&self, f: &mut Formatter<W>) -> fmt::Result {
        let line = self.line;
        match self.fault {
            RuleFault::Word => write!(f, "I1 line {line}"),
            RuleFault::Number => write!(f, "I2 line {line}"),
            RuleFault::Range => write!(f, "I3 line {line}"),
            RuleFault::Memory => write!(f, "I4 line {line}"),
        }
    }
}

impl RuleFault {
    /// Which of two faults of one line counts: a word before a number, and a number before a range.
    pub fn or(self, other: RuleFault) -> RuleFault
        ensures { result ≡ spec.lower self other }
    {
        match (self, other) {
            (RuleFault::Word, _) | (_, RuleFault::Word) => RuleFault::Word,
            (RuleFault::Number, _) | (_, RuleFault::Number) => RuleFault::Number,
            (RuleFault::Range, _) | (_, RuleFault::Range) => RuleFault::Range,
            (RuleFault::Memory, RuleFault::Memory) => RuleFault::Memory,
        }
    }
}

/// Both values, or the fault that counts.
pub fn both<A: Drop, B: Drop>(
    first: Result<A, RuleFault>,
    second: Result<B, RuleFault>,
) -> Result<(A, B), RuleFault>
    ensures { result ≡ spec.both first second }
{
    match first {
        Ok(a) => match second {
            Ok(b) => Ok((a, b)),
            Err(fault) => Err(fault),
        },
        Err(fault) => match second {
            Ok(_) => Err(fault),
            Err(other) => Err(fault.or(other)),
        },
    }
}
