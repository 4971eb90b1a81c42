//! A session at a terminal: the list of the commands, and a prompt before each line.
use crate::help::commands;
use crate::manners::Manner;
use std::io;
use std::io::{IsTerminal, Read};

/// A reader of lines that shows a prompt before it reads, where lines and errors are those of a terminal; nothing is
/// shown otherwise. The reads of a terminal give a line each.
#[derive(Drop)]
pub struct Prompted<'a, R: Read + Drop, E> {
    lines: R,
    errors: &'a E,
    at_terminal: bool,
}

impl<'a, R: Read + IsTerminal + Drop, E: Eprint + IsTerminal> Prompted<'a, R, E> {
    /// Shows the commands.
    pub fn begin(lines: R, errors: &'a E) -> Prompted<'a, R, E> {
        let at_terminal = lines.is_terminal() && errors.is_terminal();
        if at_terminal {
            let lines = commands();
            // Nothing else is lost where standard error takes no more.
            let _ = eprint!(errors; "{lines}");
        }
        Prompted {
            lines,
            errors,
            at_terminal,
        }
    }

    /// How the lines come.
    pub fn manner(&self) -> Manner {
        if self.at_terminal {
            Manner::Typed
        } else {
            Manner::Given
        }
    }
}

impl<R: Read + Drop, E: Eprint> Read for Prompted<'_, R, E> {
    fn read(&mut self, buf: &mut [u8]) -> io::Result<usize> {
        if self.at_terminal {
            // Nothing else is lost where standard error takes no more.
            let _ = eprint!(self.errors; "step> ");
        }
        let read = self.lines.read(buf);
        if self.at_terminal && matches!(&read, Ok(0)) {
            // Nothing else is lost where standard error takes no more.
            let _ = eprintln!(self.errors; "");
        }
        read
    }
}
