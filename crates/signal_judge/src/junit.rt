//! Verdicts on all rules as a JUnit XML file.

use crate::first::first_of;
use crate::passes::{plain_of, signal_of};
use crate::rules::AllRules;
use bench_judge::{
    Lost, Named, Names, PassFault, RuleVerdict, Ruled, Wanted, put_case_head, put_failure,
    put_lost, put_suite_head, tell_first,
};
use bench_watch::Reopen;
use ch11_reader::Skip;
use judge_rules::Check;
use std::alloc::Global;

/// How many messages or packets that miss a rule are told of it.
const TOLD: usize = 100;

/// Rules that the text of a file spells, with the verdict on each, in the order of their lines.
#[derive(Clone, Copy)]
pub struct AllJudged<'j, 'd> {
    /// The name of the file.
    pub file: &'j [u8],
    /// The text.
    pub text: &'j [u8],
    /// The rules that it spells.
    pub rules: &'j AllRules<'d>,
    /// The first time of day of each channel of the recording, as `bench_select::read_stamps` finds them.
    pub origins: &'j [Option<u64>],
    /// The bytes of the recording's file that were skipped, as `bench_judge::read_skips` finds them.
    pub skips: &'j [Skip],
    /// The verdict on each rule.
    pub verdicts: &'j [RuleVerdict],
}

/// A JUnit file of the verdicts on these rules, in the order of their lines: as that of rules about messages alone.
pub fn junit_of_all<S: Reopen>(
    alloc: Global,
    recording: &S,
    judged: AllJudged<'_, '_>,
    lost: Lost,
) -> Result<Vec<u8>, PassFault> {
    let mut out = Vec::new(alloc);
    put_suite_head(&mut out, judged.verdicts)?;
    put_lost(&mut out, lost)?;
    let mut names = Names::of(judged.text);
    'verdicts: for verdict in judged.verdicts {
        let name = names.at(verdict.line);
        put_case_head(&mut out, name, verdict)?;
        if verdict.held {
            out.extend_from_slice(b"\"/>\n")?;
        } else if let Some(check) = check_of(judged.rules, verdict.line) {
            let told = told_of(alloc, recording, judged, verdict)?;
            let named = Named {
                file: judged.file,
                name,
            };
            put_failure(&mut out, named, check, verdict, told.as_slice())?;
        }
    }
    out.extend_from_slice(b"</testsuite>\n")?;
    Ok(out)
}

/// The check of the rule of a line, if there is one.
fn check_of<'r>(rules: &'r AllRules<'_>, line: u64) -> Option<&'r Check> {
    if let Some(rule) = plain_of(rules, line) {
        return Some(&rule.check);
    }
    match signal_of(rules, line) {
        Some(rule) => Some(&rule.rule.check),
        None => None,
    }
}

/// What is told of a rule: of the first messages or packets that miss it, if any do.
fn told_of<S: Reopen>(
    alloc: Global,
    recording: &S,
    judged: AllJudged<'_, '_>,
    verdict: &RuleVerdict,
) -> Result<Vec<u8>, PassFault> {
    let mut told = Vec::new(alloc);
    if verdict.missed == 0 {
        return Ok(told);
    }
    let origins = judged.origins;
    if let Some(rule) = plain_of(judged.rules, verdict.line) {
        let ruled = Ruled {
            rule,
            origins,
            skips: judged.skips,
        };
        let wanted = Wanted {
            alloc,
            ruled,
            most: TOLD,
        };
        return tell_first(recording, wanted);
    }
    let input = match recording.reopen() {
        Ok(input) => input,
        Err(error) => return Err(PassFault::Opening(error)),
    };
    if let Some(rule) = signal_of(judged.rules, verdict.line) {
        // What is told of them is in the text; which they are is not wanted.
        let _found = first_of(alloc, input, rule, origins, TOLD, &mut told)?;
    }
    Ok(told)
}
