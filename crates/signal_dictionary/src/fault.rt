//! Why a text spells no dictionary.
ghost use Rattle.signal_dictionary.specs.Codes.{error_text};
ghost use Rattle.std.specs.Prelude.{Some};

use judge_rules::RuleFault;
use std::fmt::{self, Display, Formatter, Write};

/// The first fault of a text, with its line. D1 is a word that does not stand there, is missing or left over, D2 no
/// number of one to seven digits or no decimal, D3 a number out of its range, a name or a number twice, more than 64
/// names of numbers, or more than 10,000 signals, D4 memory that was refused in front of any fault.
#[derive(Clone, Copy, Debug, PartialEq, Eq)]
pub struct DictionaryError {
    pub fault: RuleFault,
    /// The line, counted from 1.
    pub line: u64,
}

/// The code of the fault and its line, as in `D2 line 3`.
impl Display for DictionaryError {
    ghost output = { λ e. Some (error_text e) };

    fn fmt<W: Write>(&self, f: &mut Formatter<W>) -> fmt::Result {
        let line = self.line;
        match self.fault {
            RuleFault::Word => write!(f, "D1 line {line}"),
            RuleFault::Number => write!(f, "D2 line {line}"),
            RuleFault::Range => write!(f, "D3 line {line}"),
            RuleFault::Memory => write!(f, "D4 line {line}"),
        }
    }
}
