//! What `bench judge` makes of a request: its rules, which fault comes first, its exit status, and when its JUnit file
//! is written.
ghost use Rattle.bench_requests.specs.Judging as spec;
ghost use Rattle.bench_requests.specs.Requests.{IsRefusedText};
ghost use Rattle.bench_requests.specs.declared.fault.CommandFault.TheVariants.{NotHeld};
ghost use Rattle.judge_rules.specs.Parts.{parts_of};
ghost use Rattle.judge_rules.specs.Rules.{rules_in};
ghost use Rattle.std.specs.Prelude.{◌≡◌, None, Ok, IfOk, IfErr, if◌then◌else◌, map, option_map};

use crate::fault::CommandFault;
use crate::rules::rules_of;
use bench_judge::RuleVerdict;
use judge_rules::Rule;
use std::alloc::Global;

/// The rule by which a recording is judged where there is no file of rules.
const STANDARD: &[u8] = b"expect any clean";

/// The text of the rules by which a recording is judged: the one that is given, else one rule, by which each message
/// has to be clean.
pub fn rules_text<'a>(given: Option<&'a [u8]>) -> &'a [u8]
    ensures { result.now ≡ spec.text_of_rules (option_map (λ text. text.now) given.entry) }
{
    match given {
        Some(text) => text,
        None => STANDARD,
    }
}

/// The rules by which a recording is judged: those that the given text spells, else the one of line 1 by which each
/// message has to be clean. Want of memory is answered only for a text without a fault.
pub fn rules_asked<'a>(alloc: Global, given: Option<&[u8]>) -> Result<Vec<Rule>, CommandFault<'a>>
    ensures rules { IfOk result (λ rules. rules_in (spec.text_of_rules (option_map (λ text. text.now) given.entry))
        ≡ Ok (map parts_of rules.items)) }
    ensures refused { IfErr result (IsRefusedText (rules_in (spec.text_of_rules
        (option_map (λ text. text.now) given.entry)))) }
{
    rules_of(alloc, rules_text(given))
}

/// A recording that was read and the rules by which it is judged. Where both were refused, the fault of the recording
/// comes first.
pub fn recording_first<'a, T: Drop>(
    recording: Result<T, CommandFault<'a>>,
    rules: Result<Vec<Rule>, CommandFault<'a>>,
) -> Result<(T, Vec<Rule>), CommandFault<'a>>
    ensures { result ≡ spec.recording_first recording.entry rules.entry }
{
    match recording {
        Ok(recording) => match rules {
            Ok(rules) => Ok((recording, rules)),
            Err(fault) => Err(fault),
        },
        Err(fault) => Err(fault),
    }
}

/// How `bench judge` ends once its verdicts were printed: with a fault of its own, status 5, exactly where a rule is
/// not held.
pub fn verdict_on<'a>(verdicts: &[RuleVerdict]) -> Result<(), CommandFault<'a>>
    ensures fault { IfErr result (λ fault. fault ≡ NotHeld) }
    ensures status { spec.status_in result ≡ spec.status_on verdicts.now }
{
    if bench_judge::not_held(verdicts) == 0 {
        Ok(())
    } else {
        Err(CommandFault::NotHeld)
    }
}

/// The JUnit file that is written, where one is asked for: with status 0 and 5, and not where the verdicts were not
/// printed.
pub fn junit_of<'a, 'f>(
    asked: Option<&'a str>,
    printed: &Result<Vec<RuleVerdict>, CommandFault<'f>>,
) -> Option<&'a str>
    ensures { result ≡ if spec.writes_junit (spec.status_of_judging (λ verdicts. verdicts.items) printed.now)
        then asked.entry else None }
{
    let status = match printed {
        Ok(verdicts) if bench_judge::not_held(verdicts.as_slice()) == 0 => 0,
        Ok(_) => 5,
        Err(fault) => fault.status(),
    };
    if status == 0 || status == 5 {
        asked
    } else {
        None
    }
}
