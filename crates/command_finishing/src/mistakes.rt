//! What is probably a mistake in jobs: above it the name of a job's file, and that it may be a fault.

use command_parts::requests::CommandFault;
use std::io::Write;
use text_lines::WriteFault;

/// The fault of jobs in which something is probably a mistake, where that is to be one.
pub fn strict_verdict<'a>(is_suspicious: bool) -> Result<(), CommandFault<'a>> {
    if is_suspicious {
        Err(CommandFault::Suspicious)
    } else {
        Ok(())
    }
}

/// Prints the name of a job's file above what is said of it.
pub fn print_name<W: Write>(out: &mut W, name: &str) -> Result<(), WriteFault> {
    writeln!(out, "{name}")?;
    Ok(())
}
