//! Where the words of a line end.
ghost use Rattle.judge_rules.specs.Faults as faults;
ghost use Rattle.std.specs.Prelude.{◌≡◌};

use crate::fault::RuleFault;
use text_lines::Words;

/// A value, behind which no word is left.
pub fn ended<T: Drop>(words: &mut Words<'_>, value: Result<T, RuleFault>) -> Result<T, RuleFault>
    ensures { result ≡ faults.ended value words.old }
{
    match words.next() {
        Some(_) => Err(RuleFault::Word),
        None => value,
    }
}
