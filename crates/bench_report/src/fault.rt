//! Why a text spells no report.
use std::alloc::{AllocError, AllocFailed};
use std::fmt::{self, Display, Formatter, Write};

/// What is wrong with a line of a report.
#[derive(Clone, Copy, Debug, PartialEq, Eq)]
pub enum ReportFault {
    /// X1: a word that does not stand there, is missing or is left over, or an action that is refused.
    Word,
    /// X2: a number that is none, or is out of its range.
    Number,
    /// X3: a line out of its place, refused numbers that do not rise or are above the number made, placed numbers that
    /// fall, or the last line is missing.
    Order,
    /// X4: memory was refused.
    Memory,
}

impl From<AllocError> for ReportFault {
    ghost use Rattle.bench_report.specs.declared.fault.ReportFault.TheVariants.{Memory};
    ghost use Rattle.std.specs.Prelude.{◌≡◌};

    ghost from_gives = { λ _ e. e ≡ Memory };

    fn from(_: AllocError) -> ReportFault {
        ReportFault::Memory
    }
}

impl<T: Drop> From<AllocFailed<T>> for ReportFault {
    ghost use Rattle.bench_report.specs.declared.fault.ReportFault.TheVariants.{Memory};
    ghost use Rattle.std.specs.Prelude.{◌≡◌};

    ghost from_gives = { λ _ e. e ≡ Memory };

    fn from(_: AllocFailed<T>) -> ReportFault {
        ReportFault::Memory
    }
}

/// The first fault of a text, with its line.
#[derive(Clone, Copy, Debug, PartialEq, Eq)]
pub struct ReportError {
    pub fault: ReportFault,
    /// The line, counted from 1; where the last line is missing, the one behind the last.
    pub line: u64,
}

/// The code of the fault and its line, as in `X2 line 3`.
impl Display for ReportError {
    ghost use Rattle.bench_report.specs.Printing.{error_text};
    ghost use Rattle.std.specs.Prelude.{Some};

    ghost output = { λ e. Some (error_text e) };

    fn fmt<W: Write>(&self, f: &mut Formatter<W>) -> fmt::Result {
        let line = self.line;
        match self.fault {
            ReportFault::Word => write!(f, "X1 line {line}"),
            ReportFault::Number => write!(f, "X2 line {line}"),
            ReportFault::Order => write!(f, "X3 line {line}"),
            ReportFault::Memory => write!(f, "X4 line {line}"),
        }
    }
}
