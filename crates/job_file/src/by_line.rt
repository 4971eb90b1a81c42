//! By which line of a job's text each of its actions and faults is said.
ghost use Rattle.job_file.specs.Entries.{said_by, IsInRange};

use crate::lines::{Entry, read_line};
use std::alloc::{AllocError, Global};
use text_lines::split_line;

/// The lines of a job's text, counted from 1, that say its actions and its faults, in the order of the text.
#[derive(Debug, Drop)]
pub struct SaidLines {
    /// A line for each action at a number; of a series as many times as it has actions.
    pub actions: Vec<u64>,
    /// A line for each action by time or by command.
    pub moments: Vec<u64>,
    /// A line for each line that plans faults, by number or by time or by command.
    pub faults: Vec<u64>,
}

impl SaidLines {
    /// Takes in what the line of a number says. It fails for want of memory alone.
    fn note(&mut self, line: u64, entry: &Entry<'_>) -> Result<(), AllocError>
        requires { IsInRange (said_by entry.now) }
    {
        match entry {
            Entry::Action { .. } | Entry::Control { .. } => self.actions.push(line)?,
            Entry::Series(series) => {
                for _ in 0..series.span.count() {
                    self.actions.push(line)?;
                }
            }
            Entry::TimedAction { .. } | Entry::TimedControl { .. } => self.moments.push(line)?,
            Entry::Fault { .. } | Entry::Faults { .. } | Entry::TimedFault { .. } => {
                self.faults.push(line)?;
            }
            _ => {}
        }
        Ok(())
    }
}

/// The lines of a job's text that say its actions and its faults, up to the line of the script. It fails for want of
/// memory alone.
pub fn said_lines(alloc: Global, text: &[u8]) -> Result<SaidLines, AllocError> {
    let mut said = SaidLines {
        actions: Vec::new(alloc),
        moments: Vec::new(alloc),
        faults: Vec::new(alloc),
    };
    let mut rest = text;
    let mut line = 1u64;
    while !rest.is_empty() {
        let (first, behind) = split_line(rest);
        match read_line(first) {
            Ok(Entry::Script) => return Ok(said),
            Ok(entry) => said.note(line, &entry)?,
            Err(_) => {}
        }
        rest = behind;
        line = line.saturating_add(1);
    }
    Ok(said)
}
