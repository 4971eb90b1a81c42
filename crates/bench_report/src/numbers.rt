//! Numbers in the lines of a report.
ghost use Rattle.bench_report.specs.Drafts.{IsBad};
ghost use Rattle.bench_report.specs.Faults.{is_one_word};
ghost use Rattle.bench_report.specs.Lines.{bounded_number, only_number};
ghost use Rattle.bench_report.specs.declared.fault.ReportFault.TheVariants.{Number};
ghost use Rattle.std.specs.Prelude.{◌≡◌, ◌≤◌, IfOk, IfErr};
ghost use Rattle.text_lines.specs.Readings.{IsOkOption};
ghost use Rattle.text_lines.specs.Words.{words};

use crate::fault::ReportFault;
use numerals::spelled;
use text_lines::next_word;

/// The number of a word of one to `most` digits, from `low` to `high`.
pub fn number(word: &[u8], most: usize, low: u64, high: u64) -> Result<u64, ReportFault>
    requires { most ≤ 10 }
    ensures value { IsOkOption (λ n. n) result (bounded_number most low high word.now) }
    ensures range { IfOk result (λ n. (low ≤ n) × (n ≤ high)) }
    ensures fault { IfErr result (λ f. f ≡ Number) }
{
    let Some(value) = spelled(10, 1, most, word) else {
        return Err(ReportFault::Number);
    };
    if low <= value && value <= high {
        Ok(value)
    } else {
        Err(ReportFault::Number)
    }
}

/// A number as the only word.
pub fn only_number_in(rest: &[u8], most: usize, low: u64, high: u64) -> Result<u64, ReportFault>
    requires { most ≤ 10 }
    ensures value { IsOkOption (λ n. n) result (only_number most low high (words rest.now)) }
    ensures range { IfOk result (λ n. (low ≤ n) × (n ≤ high)) }
    ensures fault { IfErr result (λ f. IsBad (is_one_word (words rest.now)) f) }
{
    let Some((word, behind)) = next_word(rest) else {
        return Err(ReportFault::Word);
    };
    if next_word(behind).is_some() {
        return Err(ReportFault::Word);
    }
    number(word, most, low, high)
}
