//! Explanations as text.

use crate::explanation::Explanation;
use crate::explanations::groups;
use std::io;
use std::io::Write;

/// Writes an explanation: the code with what it means, what to do, and an example. A fault is the writer's.
pub fn print_explanation<W: Write>(out: &mut W, explanation: &Explanation) -> io::Result<()> {
    let (code, means) = (explanation.code, explanation.means);
    let (remedy, example) = (explanation.remedy, explanation.example);
    writeln!(out, "{code}: {means}.")?;
    writeln!(out, "{remedy}")?;
    writeln!(out, "Example: {example}")
}

/// Writes each code with what it means, a line for each. A fault is the writer's.
pub fn print_list<W: Write>(out: &mut W) -> io::Result<()> {
    for group in groups() {
        print_group(out, group)?;
    }
    Ok(())
}

fn print_group<W: Write>(out: &mut W, group: &[Explanation]) -> io::Result<()> {
    for explanation in group {
        let (code, means) = (explanation.code, explanation.means);
        writeln!(out, "{code:<8}{means}")?;
    }
    Ok(())
}
