//! A job as a command checks it: tried, with what is probably a mistake in it.
ghost use Rattle.bench_check.specs.Checked.{AreMistakes, AreMistakesOf, IsChecked, ListsMessages};
ghost use Rattle.bench_check.specs.Listing.{IsTold};
ghost use Rattle.job_file.specs.Jobs.{job_in};
ghost use Rattle.job_file.specs.Spelled.{spelled};
ghost use Rattle.std.specs.Prelude.{◌≡◌, ◌||◌, Some, IfOk, OnOk, true};

use crate::findings::{Findings, print_findings};
use crate::messages::Bits;
use crate::mistakes::{Mistake, mistakes_of};
use crate::scripts::tight_frames_in;
use crate::tracing::trace_lines;
use crate::trying::try_job;
use job_file::Job;
use signal_dictionary::Signal;
use std::alloc::Global;
use std::io;
use std::io::Write;
use text_lines::WriteFault;

/// How a job is tried, and what is told of it.
#[derive(Clone, Copy, Debug)]
pub struct Way<'s> {
    /// Whether its messages are only counted.
    pub summary: bool,
    /// Whether all is looked for that may be a mistake, as in a summary.
    pub strict: bool,
    /// How status words are shown.
    pub bits: Bits,
    /// The signals whose values are shown.
    pub signals: &'s [Signal],
}

/// What a job that was checked came to.
#[derive(Clone, Copy, Debug, PartialEq, Eq)]
pub struct Checked {
    /// How many items of the queue the job may take.
    pub room: u64,
    /// Whether anything is probably a mistake.
    pub is_suspicious: bool,
}

/// What was found in a job that was tried, and what is probably a mistake.
#[derive(Drop)]
struct Tried {
    findings: Findings,
    mistakes: Vec<Mistake>,
}

/// Tries a job, whose text this is, and answers what was found.
fn try_with<W: Write>(
    alloc: Global,
    job: &Job,
    text: &[u8],
    way: Way<'_>,
    is_all: bool,
    out: &mut W,
) -> Result<Tried, WriteFault>
    ensures found { IfOk result (λ t. spelled text.now ≡ Some (job_in job.now)
        → AreMistakesOf is_all job.now t.findings t.mistakes.items) }
    ensures told { OnOk result (IsTold job.now (W.contents out.old) (W.contents out.new)) }
{
    let tight = tight_frames_in(alloc, text)?;
    let lines = trace_lines(alloc, job, text)?;
    let findings = try_job(alloc, job, way, &lines.origins, out)?;
    let mistakes = mistakes_of(job, &findings, tight.as_slice(), lines.mistakes, is_all)?;
    Ok(Tried { findings, mistakes })
}

/// Tries a job, whose text this is, and prints its messages unless these are only counted.
fn tried_in_way<W: Write>(
    alloc: Global,
    job: &Job,
    text: &[u8],
    way: Way<'_>,
    is_all: bool,
    out: &mut W,
) -> Result<Tried, WriteFault>
    ensures found { IfOk result (λ t. spelled text.now ≡ Some (job_in job.now)
        → AreMistakesOf is_all job.now t.findings t.mistakes.items) }
    ensures listed { OnOk result (ListsMessages way.entry.summary job.now (W.contents out.old) (W.contents out.new)) }
{
    if way.summary {
        try_with(alloc, job, text, way, is_all, &mut io::sink())
    } else {
        try_with(alloc, job, text, way, is_all, out)
    }
}

/// Whether all is looked for that may be a mistake.
fn looks_for_all(way: Way<'_>) -> bool
    ensures { result ≡ (way.entry.summary || way.entry.strict) }
{
    way.summary || way.strict
}

/// Checks a job, whose text this is: tries it, prints its messages unless these are only counted, what is probably a
/// mistake, and how much room it needs. It fails for want of memory, and where the writer does.
pub fn check_job<W: Write>(
    alloc: Global,
    job: &Job,
    text: &[u8],
    way: Way<'_>,
    out: &mut W,
) -> Result<Checked, WriteFault>
    ensures { IfOk result (λ checked. spelled text.now ≡ Some (job_in job.now)
        → IsChecked way.entry job.now (W.contents out.old) (W.contents out.new) checked) }
{
    let tried = tried_in_way(alloc, job, text, way, looks_for_all(way), out)?;
    let listed = tried.mistakes.as_slice();
    print_findings(alloc, &tried.findings, listed, way.summary, out)?;
    Ok(Checked {
        room: tried.findings.room,
        is_suspicious: !listed.is_empty(),
    })
}

/// All that is probably a mistake in a job, whose text this is. It fails for want of memory alone.
pub fn mistakes_in(alloc: Global, job: &Job, text: &[u8]) -> Result<Vec<Mistake>, WriteFault>
    ensures { IfOk result (λ l. spelled text.now ≡ Some (job_in job.now) → AreMistakes true job.now l.items) }
{
    let way = Way {
        summary: true,
        strict: true,
        bits: Bits::Digits,
        signals: &[],
    };
    let found = try_with(alloc, job, text, way, true, &mut io::sink())?;
    Ok(found.mistakes)
}
