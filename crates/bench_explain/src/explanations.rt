//! The explanation of a code.
ghost use Rattle.std.specs.Char.{to_ascii_lowercase};
ghost use Rattle.std.specs.Prelude.{◌≡◌, map, IfSome};

use crate::explanation::Explanation;
use crate::{buses, dictionaries, jobs, recordings, rules, runs, scripts};

/// All explanations: those of scripts, jobs, recordings, runs, rules, dictionaries and buses, each group in the order
/// of its codes.
pub fn groups() -> [&'static [Explanation]; 7] {
    [
        &scripts::EXPLANATIONS,
        &jobs::EXPLANATIONS,
        &recordings::EXPLANATIONS,
        &runs::EXPLANATIONS,
        &rules::EXPLANATIONS,
        &dictionaries::EXPLANATIONS,
        &buses::EXPLANATIONS,
    ]
}

/// The explanation of a code, in capital or small letters: a letter and digits, or `device`, `memory`, `unknown`.
/// None of another word.
pub fn explain(code: &str) -> Option<&'static Explanation>
    ensures { IfSome result (λ explanation. map to_ascii_lowercase explanation.now.code.now
        ≡ map to_ascii_lowercase code.now) }
{
    for group in groups() {
        if let Some(explanation) = among(group, code) {
            return Some(explanation);
        }
    }
    None
}

/// The explanation of a code among these.
fn among(group: &'static [Explanation], code: &str) -> Option<&'static Explanation>
    ensures { IfSome result (λ explanation. map to_ascii_lowercase explanation.now.code.now
        ≡ map to_ascii_lowercase code.now) }
{
    for explanation in group {
        if explanation.code.eq_ignore_ascii_case(code) {
            return Some(explanation);
        }
    }
    None
}
