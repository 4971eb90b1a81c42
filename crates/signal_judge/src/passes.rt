//! Verdicts on all rules as plain lines.
ghost use Rattle.bench_judge.specs.Streaming.{WritesLinesOf, passed_of};
ghost use Rattle.bench_judge.specs.Verdicts as others;
ghost use Rattle.signal_judge.specs.Tallies.{miss_lines};
ghost use Rattle.signal_judge.specs.Verdicts.{AreVerdicts};
ghost use Rattle.std.specs.Prelude.{◌≡◌, ℕ, List, Some, IfOk};

use crate::judging::{Verdicts, judge_all};
use crate::rules::{AllRules, SignalRule};
use bench_judge::{
    PassFault, RuleVerdict, Ruled, write_count, write_each_miss, write_last, write_missed_of,
    write_numbers,
};
use bench_watch::Reopen;
use ch11_reader::Skip;
use ch11_stream::Advance;
use judge_rules::Rule;
use std::alloc::Global;
use std::io::Write;

/// Judges a recording by rules and writes the verdicts as plain lines, rule by rule in the order of their lines, as
/// those of rules about messages alone. The recording is read anew for each pass; a packet is told by where it begins
/// in the file of which these bytes were skipped.
pub fn write_all_verdicts<S: Reopen, W: Write>(
    alloc: Global,
    recording: &S,
    rules: &AllRules<'_>,
    origins: &[Option<u64>],
    skips: &[Skip],
    out: &mut W,
) -> Result<Verdicts, PassFault>
    ensures plain { (file : List ℕ) → S.bytes recording.now ≡ Some file → IfOk result (λ verdicts.
        others.AreVerdicts rules.now.plain.items (passed_of origins.now file) verdicts.plain.items) }
    ensures signals { (file : List ℕ) → S.bytes recording.now ≡ Some file → IfOk result (λ verdicts.
        AreVerdicts rules.now.signals.items origins.now (passed_of origins.now file).messages verdicts.signals.items) }
{
    let verdicts = judge_all(alloc, recording, rules, origins)?;
    let all = verdicts.in_order(alloc)?;
    for verdict in all.as_slice() {
        write_verdict(alloc, recording, rules, origins, skips, verdict, out)?;
    }
    write_last(out, all.as_slice())?;
    out.flush()?;
    Ok(verdicts)
}

/// The rule of a line about messages, if there is one.
pub(crate) fn plain_of<'r>(rules: &'r AllRules<'_>, line: u64) -> Option<&'r Rule> {
    for rule in rules.plain.as_slice() {
        if rule.line == line {
            return Some(rule);
        }
    }
    None
}

/// The rule of a line about a signal, if there is one.
pub(crate) fn signal_of<'r, 'd>(rules: &'r AllRules<'d>, line: u64) -> Option<&'r SignalRule<'d>> {
    for rule in rules.signals.as_slice() {
        if rule.rule.line == line {
            return Some(rule);
        }
    }
    None
}

/// Writes the lines of a rule, of which this is the verdict.
fn write_verdict<S: Reopen, W: Write>(
    alloc: Global,
    recording: &S,
    rules: &AllRules<'_>,
    origins: &[Option<u64>],
    skips: &[Skip],
    verdict: &RuleVerdict,
    out: &mut W,
) -> Result<(), PassFault> {
    if verdict.miscounted {
        write_count(out, verdict)?;
        return Ok(());
    }
    if verdict.missed > 0 {
        let input = match recording.reopen() {
            Ok(input) => input,
            Err(error) => return Err(PassFault::Opening(error)),
        };
        match plain_of(rules, verdict.line) {
            Some(rule) => {
                let ruled = Ruled {
                    rule,
                    origins,
                    skips,
                };
                write_missed_of(alloc, input, ruled, out)?
            }
            None => {
                let rule = signal_of(rules, verdict.line);
                write_missed(alloc, input, rule, origins, out)?
            }
        }
    }
    write_numbers(out, verdict)?;
    Ok(())
}

/// Writes the messages that miss a rule about a signal, if there is one.
fn write_missed<R: Advance + Drop, W: Write>(
    alloc: Global,
    input: R,
    rule: Option<&SignalRule<'_>>,
    origins: &[Option<u64>],
    out: &mut W,
) -> Result<(), PassFault> {
    match rule {
        Some(rule) => write_missed_signals(alloc, input, rule, origins, out),
        None => Ok(()),
    }
}

/// Writes the messages that miss a rule about a signal, each as a line, of all bytes that a reader has left, as their
/// packets come.
fn write_missed_signals<R: Advance + Drop, W: Write>(
    alloc: Global,
    input: R,
    rule: &SignalRule<'_>,
    origins: &[Option<u64>],
    out: &mut W,
) -> Result<(), PassFault>
    ensures { (file : List ℕ) → R.remaining input ≡ Some file
        → WritesLinesOf (λ p. miss_lines rule.now p.origins p.messages) origins.now result file
        (W.contents out.old) (W.contents out.new) }
{
    write_each_miss(alloc, input, rule, origins, out)
}
