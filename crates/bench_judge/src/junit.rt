//! Verdicts as a JUnit XML file: a test case a rule.
ghost use Rattle.bench_judge.specs.Junit as spec;
ghost use Rattle.bench_judge.specs.Losses.{lost_text};
ghost use Rattle.bench_judge.specs.Streaming.{passed_of};
ghost use Rattle.std.specs.Prelude.{◌≡◌, ◌++◌, ℕ, List, Some, IfOk, OnOk};

use crate::checks::is_whole;
use crate::escaping::put_escaped;
use crate::losses::Lost;
use crate::names::Names;
use crate::numbers::put_number;
use crate::pass_fault::PassFault;
use crate::passes::Ruled;
use crate::sought::{Wanted, tell_first};
use crate::told::put_count;
use crate::verdicts::{Judged, RuleVerdict, not_held};
use bench_watch::Reopen;
use judge_rules::{Check, Rule};
use std::alloc::{AllocError, Global};

/// How many messages or packets that miss a rule are told of it.
const TOLD: usize = 100;

/// What the file begins with, up to how many test cases it has.
const HEAD: &[u8] =
    b"<?xml version=\"1.0\" encoding=\"UTF-8\"?>\n<testsuite name=\"bench judge\" tests=\"";

/// A rule by the file that it stands in, and its text.
#[derive(Clone, Copy)]
pub struct Named<'n> {
    /// The name of the file.
    pub file: &'n [u8],
    /// The text of the rule.
    pub name: &'n [u8],
}

/// Appends that a rule selects nothing.
fn put_nothing(text: &mut Vec<u8>, check: &Check) -> Result<(), AllocError>
    ensures { OnOk result (text.new.items ≡ text.old.items ++ spec.nothing_told check.now) }
{
    if is_whole(check) {
        text.extend_from_slice(b"no packet is selected")
    } else {
        text.extend_from_slice(b"no message is selected")
    }
}

/// Appends why a rule is not held.
#[tactic(auto, unfolding(crate::specs::Junit::reason))]
fn put_reason(text: &mut Vec<u8>, check: &Check, verdict: &RuleVerdict) -> Result<(), AllocError>
    ensures { OnOk result (text.new.items ≡ text.old.items ++ spec.reason check.now verdict.now) }
{
    if verdict.miscounted {
        return put_count(text, check, verdict.counted);
    }
    if verdict.missed == 0 {
        return put_nothing(text, check);
    }
    put_number(text, b"selected ", verdict.selected)?;
    put_number(text, b" missed ", verdict.missed)
}

/// Appends where a rule stands, and the rule: the file, the line and its text.
#[tactic(auto, unfolding(crate::specs::Junit::place_of_rule))]
fn put_place(text: &mut Vec<u8>, file: &[u8], line: u64, name: &[u8]) -> Result<(), AllocError>
    ensures { OnOk result (text.new.items ≡ text.old.items ++ spec.place_of_rule file.now line name.now) }
{
    put_escaped(text, file)?;
    put_number(text, b":", line)?;
    text.extend_from_slice(b": ")?;
    put_escaped(text, name)
}

/// Appends the line and the name with which the test case of a rule begins.
#[tactic(auto, unfolding(crate::specs::Junit::case_head))]
pub fn put_case_head(
    text: &mut Vec<u8>,
    name: &[u8],
    verdict: &RuleVerdict,
) -> Result<(), AllocError>
    ensures { OnOk result (text.new.items ≡ text.old.items ++ spec.case_head verdict.now name.now) }
{
    put_number(text, b"  <testcase classname=\"line ", verdict.line)?;
    text.extend_from_slice(b"\" name=\"")?;
    put_escaped(text, name)
}

/// Appends what a failure says.
#[tactic(auto, unfolding(crate::specs::Junit::failure_text))]
fn put_failure_text(
    text: &mut Vec<u8>,
    named: Named<'_>,
    verdict: &RuleVerdict,
    told: &[u8],
) -> Result<(), AllocError>
    ensures { OnOk result (text.new.items
        ≡ text.old.items ++ spec.failure_text named.entry.file.now named.entry.name.now verdict.now told.now) }
{
    put_place(text, named.file, verdict.line, named.name)?;
    text.extend_from_slice(told)?;
    text.extend_from_slice(b"</failure>\n  </testcase>\n")
}

/// Appends that a test case fails, and why.
#[tactic(auto, unfolding(crate::specs::Junit::failure))]
pub fn put_failure(
    text: &mut Vec<u8>,
    named: Named<'_>,
    check: &Check,
    verdict: &RuleVerdict,
    told: &[u8],
) -> Result<(), AllocError>
    ensures { OnOk result (text.new.items ≡ text.old.items
        ++ spec.failure named.entry.file.now named.entry.name.now check.now verdict.now told.now) }
{
    text.extend_from_slice(b"\">\n    <failure message=\"")?;
    put_reason(text, check, verdict)?;
    text.extend_from_slice(b"\">")?;
    put_failure_text(text, named, verdict, told)
}

/// What is told of a rule: of the first messages or packets that miss it, if any do.
fn told_of<S: Reopen>(
    alloc: Global,
    recording: &S,
    rule: &Rule,
    judged: Judged<'_>,
    verdict: &RuleVerdict,
) -> Result<Vec<u8>, PassFault>
    ensures { (file : List ℕ) → S.bytes recording.now ≡ Some file
        → IfOk result (λ told. told.items ≡ spec.told_lines judged.entry.skips.now rule.now verdict.now
        (passed_of judged.entry.origins.now file)) }
{
    if verdict.missed == 0 {
        return Ok(Vec::new(alloc));
    }
    tell_first(
        recording,
        Wanted {
            alloc,
            ruled: Ruled {
                rule,
                origins: judged.origins,
                skips: judged.skips,
            },
            most: TOLD,
        },
    )
}

/// Appends the end of a test case: that it passes where its rule is held, and else that it fails, with what is told of
/// the rule.
fn put_case_end<S: Reopen>(
    text: &mut Vec<u8>,
    recording: &S,
    named: Named<'_>,
    rule: &Rule,
    judged: Judged<'_>,
    verdict: &RuleVerdict,
) -> Result<(), PassFault>
    ensures { (file : List ℕ) → S.bytes recording.now ≡ Some file
        → OnOk result (text.new.items
        ≡ text.old.items ++ spec.case_end named.entry.file.now named.entry.name.now rule.now.check verdict.now
        (spec.told_lines judged.entry.skips.now rule.now verdict.now (passed_of judged.entry.origins.now file))) }
{
    if verdict.held {
        return Ok(text.extend_from_slice(b"\"/>\n")?);
    }
    let told = told_of(*text.allocator(), recording, rule, judged, verdict)?;
    Ok(put_failure(text, named, &rule.check, verdict, told.as_slice())?)
}

/// Appends the test case of each rule, named by its text.
fn put_cases<S: Reopen>(
    text: &mut Vec<u8>,
    recording: &S,
    judged: Judged<'_>,
) -> Result<(), PassFault>
    ensures { (file : List ℕ) → S.bytes recording.now ≡ Some file
        → OnOk result (text.new.items ≡ text.old.items
        ++ spec.cases judged.entry.file.now judged.entry.text.now judged.entry.skips.now judged.entry.rules.now
        judged.entry.verdicts.now (passed_of judged.entry.origins.now file)) }
{
    let mut names = Names::of(judged.text);
    let mut rules = judged.rules;
    let mut verdicts = judged.verdicts;
    'rules: while let Some((rule, more)) = rules.split_first() {
        let Some((verdict, others)) = verdicts.split_first() else {
            return Ok(());
        };
        let name = names.at(verdict.line);
        let named = Named {
            file: judged.file,
            name,
        };
        put_case_head(text, name, verdict)?;
        put_case_end(text, recording, named, rule, judged, verdict)?;
        rules = more;
        verdicts = others;
    }
    Ok(())
}

/// Appends how many packets say that messages are missing.
#[tactic(auto, unfolding(crate::specs::Losses::lost_text))]
fn put_counts(text: &mut Vec<u8>, lost: Lost) -> Result<(), AllocError>
    ensures { OnOk result (text.new.items ≡ text.old.items ++ lost_text lost) }
{
    let (overflows, jumps) = (lost.overflows as u64, lost.jumps as u64);
    put_number(text, b"packets with the overflow flag ", overflows)?;
    put_number(text, b", jumps of the sequence number ", jumps)
}

/// Appends that messages are missing.
fn put_missing(text: &mut Vec<u8>, lost: Lost) -> Result<(), AllocError>
    ensures { OnOk result (text.new.items ≡ text.old.items ++ spec.missing lost) }
{
    text.extend_from_slice(b"  <properties>\n    <property name=\"messages missing\" value=\"")?;
    put_counts(text, lost)?;
    text.extend_from_slice(b"\"/>\n  </properties>\n")?;
    Ok(())
}

/// Appends that messages are missing, where they are.
pub fn put_lost(text: &mut Vec<u8>, lost: Lost) -> Result<(), AllocError>
    ensures { OnOk result (text.new.items ≡ text.old.items ++ spec.properties lost) }
{
    if lost.is_any() {
        return put_missing(text, lost);
    }
    Ok(())
}

/// Appends the beginning of the file.
pub fn put_suite_head(text: &mut Vec<u8>, verdicts: &[RuleVerdict]) -> Result<(), AllocError>
    ensures { OnOk result (text.new.items ≡ text.old.items ++ spec.suite_head verdicts.now) }
{
    text.extend_from_slice(HEAD)?;
    put_number(text, b"", verdicts.len() as u64)?;
    put_number(text, b"\" failures=\"", not_held(verdicts))?;
    text.extend_from_slice(b"\">\n")?;
    Ok(())
}

/// A JUnit file of the verdicts on rules, which the text of a file spells: a test case a rule, in their order, named by
/// the line of the rule, which passes where the rule is held. Of a rule that is not held it tells the file, the line
/// and the rule, and of up to 100 of the messages or packets that miss it what was there and what was expected, for
/// which the recording is read anew; where messages are missing from this it has a property that says so. A fault is
/// want of memory or the recording's.
pub fn junit_text<S: Reopen>(
    alloc: Global,
    recording: &S,
    judged: Judged<'_>,
    lost: Lost,
) -> Result<Vec<u8>, PassFault>
    ensures { (file : List ℕ) → S.bytes recording.now ≡ Some file → IfOk result (λ made. made.items
        ≡ spec.junit judged.entry.file.now judged.entry.text.now judged.entry.skips.now judged.entry.rules.now
        judged.entry.verdicts.now lost (passed_of judged.entry.origins.now file)) }
{
    let mut text = Vec::new(alloc);
    put_suite_head(&mut text, judged.verdicts)?;
    put_lost(&mut text, lost)?;
    put_cases(&mut text, recording, judged)?;
    text.extend_from_slice(b"</testsuite>\n")?;
    Ok(text)
}
