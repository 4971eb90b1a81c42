//! What a job that was tried came to, as text.
ghost use Rattle.bench_check.specs.MistakeLines.{findings_text, head, mistake_line, mistakes_text};
ghost use Rattle.bench_check.specs.MistakeLines.{queue_line, summary_line};
ghost use Rattle.std.specs.Io.KnownBytes.{Appends};
ghost use Rattle.std.specs.Prelude.{OnOk};

use crate::calls::Calls;
use crate::frames::Overrun;
use crate::mistake_lines::put_mistake;
use crate::mistakes::Mistake;
use crate::oddities::Oddities;
use bc_machine::Placed;
use mil_line::Fault;
use std::alloc::Global;
use std::io;
use std::io::Write;
use text_lines::WriteFault;

/// What a job that was tried came to.
#[derive(Debug, Drop)]
pub struct Findings {
    /// How many messages the job sends.
    pub made: u32,
    /// The planned faults that meet nothing, each with the number of its message, by these numbers and then in the
    /// order of the job.
    pub unmet: Vec<(u32, Fault)>,
    /// Who is called.
    pub calls: Calls,
    /// The frames that took longer than their period, in the order of their ends.
    pub overruns: Vec<Overrun>,
    /// What else is odd.
    pub oddities: Oddities,
    /// What the host of the controller sets and no message of the script carries, in the order of the numbers.
    pub uncarried: Vec<Placed>,
    /// How many items of the queue the job may take: one for each message that its script may send or that it has
    /// inserted, and one for its end.
    pub room: u64,
}

/// Prints these mistakes of a job that was tried, a line for each, and the room that the queue needs for nothing to be
/// refused. A summary begins with how many messages there are and how many of them have an error.
pub fn print_findings<W: Write>(
    alloc: Global,
    findings: &Findings,
    mistakes: &[Mistake],
    is_summary: bool,
    out: &mut W,
) -> Result<(), WriteFault>
    ensures { OnOk result (Appends (W.contents out.old) (W.contents out.new)
        (findings_text is_summary findings.now mistakes.now)) }
{
    print_head(findings, is_summary, out)?;
    print_mistakes(alloc, mistakes, out)?;
    Ok(print_room(findings.room, out)?)
}

/// Prints what a summary begins with, where this is one.
fn print_head<W: Write>(findings: &Findings, is_summary: bool, out: &mut W) -> io::Result<()>
    ensures { OnOk result (Appends (W.contents out.old) (W.contents out.new) (head is_summary findings.now)) }
{
    if is_summary {
        print_summary(findings, out)
    } else {
        Ok(())
    }
}

/// Prints how many messages there are, and how many of them have an error.
fn print_summary<W: Write>(findings: &Findings, out: &mut W) -> io::Result<()>
    ensures { OnOk result (Appends (W.contents out.old) (W.contents out.new)
        (summary_line findings.now.made findings.now.oddities.failed)) }
{
    let (made, failed) = (findings.made, findings.oddities.failed());
    write!(out, "messages {made}, with an error {failed}\n")
}

/// Prints these mistakes, a line for each, or that there is none.
pub fn print_mistakes<W: Write>(
    alloc: Global,
    mistakes: &[Mistake],
    out: &mut W,
) -> Result<(), WriteFault>
    ensures { OnOk result (Appends (W.contents out.old) (W.contents out.new) (mistakes_text mistakes.now)) }
{
    if mistakes.is_empty() {
        return Ok(out.write_all(b"nothing looks like a mistake\n")?);
    }
    out.write_all(b"probably a mistake:\n")?;
    for mistake in mistakes {
        print_mistake(alloc, mistake, out)?;
    }
    Ok(())
}

/// Prints the line of a mistake.
fn print_mistake<W: Write>(alloc: Global, mistake: &Mistake, out: &mut W) -> Result<(), WriteFault>
    ensures { OnOk result (Appends (W.contents out.old) (W.contents out.new) (mistake_line mistake.now)) }
{
    let mut text = String::new(alloc);
    put_mistake(&mut text, mistake)?;
    Ok(out.write_all(text.as_bytes())?)
}

/// Prints the room that the queue needs.
fn print_room<W: Write>(room: u64, out: &mut W) -> io::Result<()>
    ensures { OnOk result (Appends (W.contents out.old) (W.contents out.new) (queue_line room)) }
{
    write!(
        out,
        "queue {room}: with room for so many nothing of this job is refused\n"
    )
}
