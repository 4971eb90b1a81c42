//! The lines of a session, one after the other.
ghost use Rattle.bench_decode.specs.Waiting.{no_lines};
ghost use Rattle.bench_decode.specs.declared.line.Shown.TheVariants.{Plain};
ghost use Rattle.bench_step.specs.Answering.{IsAllRead, IsCutShort, IsWholeSession, Ends};
ghost use Rattle.std.specs.Prelude.{◌≡◌, IfOk, IfErr, OnOk};

use crate::fault::StepFault;
use crate::manners::Manner;
use crate::session::Session;
use bench_decode::{Shown, TextLine};
use bench_report::Report;
use job_file::Job;
use std::alloc::Global;
use std::io::{BufRead, Write};
use text_lines::without_end;

/// Answers each line of the reader, up to its end or to a line that ends the session, and tells whether memory was
/// refused for what one of them asks. No line that was decoded waits when it begins.
fn answer_all<R: BufRead, W: Write>(
    alloc: Global,
    session: &mut Session<'_>,
    decoded: &mut TextLine,
    input: &mut R,
    out: &mut W,
) -> Result<bool, StepFault>
    requires { decoded.old ≡ no_lines Plain }
    ensures all { IfOk result (λ refused. IsAllRead session.old.manner session.old.debugger session.new.debugger
        (R.remaining input.old) (R.remaining input.new) (W.contents out.old) (W.contents out.new) refused) }
    ensures first { IfErr result
        (IsCutShort session.old.manner session.old.debugger (R.remaining input.old) (W.contents out.old)
        (W.contents out.new)) }
{
    let mut line = Vec::new(alloc);
    let mut refused = false;
    'lines: for _ in 0..u64::MAX {
        line.clear();
        match input.read_until(b'\n', &mut line) {
            Ok(0) => return Ok(refused),
            Ok(_) => {}
            Err(error) => return Err(StepFault::of_reader(&error)),
        }
        match session.answer(alloc, without_end(&line), decoded, out) {
            Ok(this) => {
                refused = refused || this.refused;
                if this.ends {
                    return Ok(refused);
                }
            }
            Err(_) => return Err(StepFault::Output),
        }
    }
    Err(StepFault::Input)
}

/// The debugger of a recording, driven by lines: `forward`, `back`, `go N`, `go TIME`, `go channel C N`, `find COND`,
/// `find back COND`, `find SELECTOR`, `find back SELECTOR`, `state`, `state --all`, `data ADDRESS SUBADDRESS`, `show`,
/// `show N`, `help` and `quit`; and, where they are typed, `forward N` and `back N`. It stands before the first
/// message at first, and answers each line at once; where memory is refused for what a line asks, it prints `memory`,
/// stands where it stood, and goes on, and answers with that fault at the end of the lines, which is at `quit` too.
///
/// Before the first line is read: the fault of a recording that can't be read, and then the first difference between
/// jobs, report and recording (Y1). The report has the actions of hosts at their numbers, but no faults: where the jobs
/// as they are given do not agree, and a line plans a fault by time or by command, they are taken under the faults that
/// are due where those actions were placed, which a post of a live run may have moved.
#[tactic(auto, using(crate::proofs::GoingOn::no_line))]
pub fn step<R: BufRead, W: Write>(
    alloc: Global,
    manner: Manner,
    jobs: Vec<Job>,
    report: &Report,
    recording: &[u8],
    input: &mut R,
    out: &mut W,
) -> Result<(), StepFault>
    ensures whole { OnOk result (IsWholeSession manner jobs.items report.now.channels recording.now
        (R.remaining input.old)
        (R.remaining input.new) (W.contents out.old) (W.contents out.new)) }
    ensures ended { IfErr result (Ends manner jobs.items report.now.channels recording.now (R.remaining input.old)
        (R.remaining input.new) (W.contents out.old) (W.contents out.new)) }
{
    let mut session = Session::open(alloc, manner, jobs, report, recording)?;
    let Ok(mut decoded) = TextLine::new(alloc, Shown::Plain) else {
        return Err(StepFault::Memory);
    };
    if answer_all(alloc, &mut session, &mut decoded, input, out)? {
        return Err(StepFault::Memory);
    }
    Ok(())
}
