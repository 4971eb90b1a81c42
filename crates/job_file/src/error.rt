//! Why a text spells no job.
ghost use Rattle.job_file.specs.Errors.{IsOfLine};
ghost use Rattle.job_file.specs.Printing.{fault_text};
ghost use Rattle.job_file.specs.declared.error.Refusal.TheVariants.{Line};
ghost use Rattle.std.specs.Prelude.{◌≡◌};

use frame_asm::AsmError;
use frame_load::LoadError;
use frame_text::{Cause, Place};
use mil_host::BadAction;
use mil_line::LineError;
use std::fmt::{self, Display, Formatter, Write};

/// Why a line may not stand in a job, in the order in which this is judged.
#[derive(Clone, Copy, Debug, PartialEq, Eq)]
pub enum LineFault {
    /// J1: an unknown word, a word missing or left over.
    Word,
    /// J2: a number that is none, or a channel, a start tick, a terminal, the message or terminal of an action, or a
    /// number of a line of many messages, out of its range; or a series past the 1,000,000th action of all series.
    Number,
    /// J3: `channel` twice or missing, `start` twice, `script` missing.
    Order,
    /// J4: a terminal twice, or an action or a series whose terminal no line above names.
    Terminal,
    /// J5: the action, with H1, H2 or H3.
    Action(BadAction),
    /// J6: a fault that may not be planned, with L1 or L2.
    Fault(LineError),
}

/// Why a line was not taken in.
#[derive(Clone, Copy, Debug, PartialEq, Eq)]
pub enum Refusal {
    Line(LineFault),
    Memory,
}

impl From<LineFault> for Refusal {
    ghost from_gives = { λ f r. r ≡ Line f };

    fn from(fault: LineFault) -> Refusal {
        Refusal::Line(fault)
    }
}

/// Why a text gave no job. Lines and columns are those of the whole text, from 1 on.
#[derive(Clone, Copy, Debug, PartialEq, Eq)]
pub enum JobError {
    /// J1 to J6: the first line at fault. A missing `script` is found behind the last line, a missing `channel` at
    /// `script`.
    Line { line: u64, fault: LineFault },
    /// J7 with S1 to S8, S10 or S11: the first fault of the script.
    Script { cause: Cause, place: Place },
    /// J7 with A1 or A2, at the line `script`: the script has no image.
    Assembly { line: u64, fault: AsmError },
    /// J7 with P5 or P8, at the line `script`: the loader refuses the image.
    Loading { line: u64, fault: LoadError },
    /// J9, at the line `script`: the messages that the job has inserted and those that its script sends at worst are
    /// more than 1,000,000.
    Inserts { line: u64 },
    /// J8: memory was refused.
    Memory,
}

impl JobError {
    /// What became of a line that was not taken in.
    pub(crate) fn of_line(line: u64, refusal: Refusal) -> JobError
        ensures { IsOfLine line refusal result }
    {
        match refusal {
            Refusal::Line(fault) => JobError::Line { line, fault },
            Refusal::Memory => JobError::Memory,
        }
    }
}

/// `J4 line 3`, `J5 line 4 H3`, `J6 line 3 L2`, `J7 line 9 column 3 S2`, `J7 line 9 column 3 S4 M3`, `J7 line 9 P5`,
/// `J7 line 9 P8`, `J8`, `J9 line 9`.
impl Display for JobError {
    ghost output = { fault_text };

    fn fmt<W: Write>(&self, f: &mut Formatter<W>) -> fmt::Result {
        match self {
            JobError::Line { line, fault } => match fault {
                LineFault::Word => write!(f, "J1 line {line}"),
                LineFault::Number => write!(f, "J2 line {line}"),
                LineFault::Order => write!(f, "J3 line {line}"),
                LineFault::Terminal => write!(f, "J4 line {line}"),
                LineFault::Action(bad) => write!(f, "J5 line {line} {bad}"),
                LineFault::Fault(bad) => write!(f, "J6 line {line} {bad}"),
            },
            JobError::Script { cause, place } => write!(f, "J7 {place} {cause}"),
            JobError::Assembly { line, fault } => write!(f, "J7 line {line} {fault}"),
            JobError::Loading { line, fault } => write!(f, "J7 line {line} {fault}"),
            JobError::Inserts { line } => write!(f, "J9 line {line}"),
            JobError::Memory => f.write_str("J8"),
        }
    }
}

/// The first text that spells no job, or needs too much: its place in the list, from 0 on, and its fault.
#[derive(Clone, Copy, Debug, PartialEq, Eq)]
pub struct JobsError {
    pub index: usize,
    pub fault: JobError,
}

/// The fault as it stands for one text.
impl Display for JobsError {
    ghost output = { λ e. fault_text e.fault };

    fn fmt<W: Write>(&self, f: &mut Formatter<W>) -> fmt::Result {
        write!(f, "{}", self.fault)
    }
}
