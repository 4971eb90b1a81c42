//! The report that a text spells.
ghost use Rattle.bench_report.specs.Drafts.{IsNotMemory};
ghost use Rattle.bench_report.specs.Faults.{IsFirstReportFault};
ghost use Rattle.bench_report.specs.Reports.{RunReport, IsReport};
ghost use Rattle.bench_report.specs.Spelling.{Spells};
ghost use Rattle.std.specs.Prelude.{IfOk, IfErr};

use crate::drafts::Draft;
use crate::fault::ReportError;
use crate::reports::Report;
use std::alloc::Global;
use text_lines::next_line;

/// The report that a text spells: for each channel the lines `channel N`, `made N`, one `refused N` for each refused
/// number, one `placed NUMBER ADDRESS ACTION` for each placed action of a terminal and one `placed NUMBER bc CONTROL`
/// for each of the controller, and last `packets N` (own choice). Else the fault of the first line that may not stand
/// where it stands: X1 a word or an action, X2 a number, X3 the order; X4 where memory was refused.
pub fn read_report(alloc: Global, text: &[u8]) -> Result<Report, ReportError>
    ensures spelled { IfOk result (λ r. Spells text.now r) }
    ensures refused { IfErr result (λ e. IsNotMemory e.fault → (r : RunReport) → IsReport r → Spells text.now r → ⊥) }
    ensures first { IfErr result (λ e. IsFirstReportFault text.now e.fault e.line) }
{
    let mut draft = Draft::empty(alloc);
    let mut rest = text;
    let mut line = 1u64;
    while let Some((first, behind)) = next_line(rest) {
        if let Err(fault) = draft.take_text(first) {
            return Err(ReportError { fault, line });
        }
        rest = behind;
        line += 1;
    }
    match draft.finish() {
        Ok(report) => Ok(report),
        Err(fault) => Err(ReportError { fault, line }),
    }
}
