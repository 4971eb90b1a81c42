//! Verdicts for people at a terminal: each rule by its own text, green or red, and the first messages that miss it.
ghost use Rattle.bench_judge.specs.Colored as spec;
ghost use Rattle.std.specs.Io.KnownBytes.{Appends};
ghost use Rattle.std.specs.Prelude.{◌≡◌, ◌++◌, [], OnOk, IfOk, length, map};

use crate::names::Names;
use crate::numbers::put_number;
use crate::pass_fault::PassFault;
use crate::passes::Ruled;
use crate::sought::{Wanted, write_first};
use crate::told::put_count;
use crate::verdicts::{Judged, RuleVerdict, not_held};
use bench_decode::{Shown, TextLine};
use bench_names::ChannelNames;
use bench_watch::Reopen;
use judge_rules::{Check, Rule};
use std::alloc::{AllocError, Global};
use std::io;
use std::io::Write;

/// How many messages that miss a rule are shown.
const SHOWN: u64 = 3;

const GREEN: &[u8] = b"\x1b[32m";

const RED: &[u8] = b"\x1b[31m";

const PLAIN: &[u8] = b"\x1b[0m";

/// A byte, or a question mark for one that would steer the terminal.
fn steady(byte: u8) -> u8
    ensures { result ≡ spec.steady byte }
{
    if byte < 0x20 || byte == 0x7F {
        b'?'
    } else {
        byte
    }
}

/// Appends the text of a rule; a byte that would steer the terminal is a question mark.
fn put_name(text: &mut Vec<u8>, name: &[u8]) -> Result<(), AllocError>
    ensures { OnOk result (text.new.items ≡ text.old.items ++ map spec.steady name.now) }
{
    let mut rest = name;
    'bytes: while let Some((byte, others)) = rest.split_first() {
        text.push(steady(*byte))?;
        rest = others;
    }
    Ok(())
}

/// Appends what begins green where all is held, and else red.
fn put_color(text: &mut Vec<u8>, held: bool) -> Result<(), AllocError>
    ensures { OnOk result (text.new.items ≡ text.old.items ++ spec.color_of held) }
{
    text.extend_from_slice(if held { GREEN } else { RED })
}

/// Appends that a rule is held, in green, or missed, in red.
#[tactic(auto, unfolding(crate::specs::Colored::mark))]
fn put_mark(text: &mut Vec<u8>, held: bool) -> Result<(), AllocError>
    ensures { OnOk result (text.new.items ≡ text.old.items ++ spec.mark held) }
{
    put_color(text, held)?;
    text.extend_from_slice(if held { b"held   " } else { b"missed " })?;
    text.extend_from_slice(PLAIN)
}

/// Appends why a rule is missed, if it is, but for one that selects no message.
#[tactic(auto, unfolding(crate::specs::Colored::why))]
fn put_why(text: &mut Vec<u8>, check: &Check, verdict: &RuleVerdict) -> Result<(), AllocError>
    ensures { OnOk result (text.new.items ≡ text.old.items ++ spec.why check.now verdict.now) }
{
    if verdict.miscounted {
        text.extend_from_slice(b", ")?;
        return put_count(text, check, verdict.counted);
    }
    if verdict.missed > 0 {
        put_number(text, b", ", verdict.missed)?;
        return text.extend_from_slice(b" missed");
    }
    Ok(())
}

/// Appends the numbers of a rule.
#[tactic(auto, unfolding(crate::specs::Colored::numbers))]
fn put_numbers(text: &mut Vec<u8>, check: &Check, verdict: &RuleVerdict) -> Result<(), AllocError>
    ensures { OnOk result (text.new.items ≡ text.old.items ++ spec.numbers check.now verdict.now) }
{
    put_number(text, b"  (", verdict.selected)?;
    text.extend_from_slice(b" selected")?;
    put_why(text, check, verdict)?;
    text.extend_from_slice(b")\n")
}

/// Appends a rule with its numbers.
#[tactic(auto, unfolding(crate::specs::Colored::rule_shown))]
fn put_rule(
    text: &mut Vec<u8>,
    name: &[u8],
    check: &Check,
    verdict: &RuleVerdict,
) -> Result<(), AllocError>
    ensures { OnOk result (text.new.items ≡ text.old.items ++ spec.rule_shown name.now check.now verdict.now) }
{
    put_mark(text, verdict.held)?;
    put_name(text, name)?;
    put_numbers(text, check, verdict)
}

/// Appends how many rules there are and how many are not held.
fn put_last(text: &mut Vec<u8>, verdicts: &[RuleVerdict]) -> Result<(), AllocError>
    ensures { OnOk result (text.new.items ≡ text.old.items ++ spec.last_shown verdicts.now) }
{
    let missed = not_held(verdicts);
    put_color(text, missed == 0)?;
    put_number(text, b"", verdicts.len() as u64)?;
    put_number(text, b" rules, ", missed)?;
    text.extend_from_slice(b" not held")?;
    text.extend_from_slice(PLAIN)?;
    text.extend_from_slice(b"\n")?;
    Ok(())
}

/// A recording whose verdicts are shown.
#[derive(Drop)]
struct Colored<'c, S> {
    /// The recording, which is read anew for what misses a rule.
    recording: &'c S,
    /// The names of its channels.
    channels: ChannelNames<'c>,
    /// The verdicts.
    judged: Judged<'c>,
}

/// The first messages or packets that miss a rule, as they are shown; none where none does.
fn shown_misses<S: Reopen>(
    alloc: Global,
    line: &mut TextLine,
    colored: &Colored<'_, S>,
    rule: &Rule,
    missed: u64,
) -> Result<Vec<u8>, PassFault>
    ensures { missed ≡ 0 → IfOk result (λ shown. shown.items ≡ []) }
{
    let mut shown = Vec::new(alloc);
    if missed > 0 {
        let ruled = Ruled {
            rule,
            origins: colored.judged.origins,
            skips: colored.judged.skips,
        };
        let wanted = Wanted {
            alloc,
            ruled,
            most: SHOWN as usize,
        };
        let channels = colored.channels;
        write_first(colored.recording, wanted, channels, line, &mut shown)?;
    }
    Ok(shown)
}

/// Writes how many more messages miss a rule than are shown, if any do.
#[tactic(auto, unfolding(crate::specs::Colored::more_shown))]
fn write_more<W: Write>(missed: u64, out: &mut W) -> io::Result<()>
    ensures { OnOk result (Appends (W.contents out.old) (W.contents out.new) (spec.more_shown missed)) }
{
    if missed > SHOWN {
        let more = missed - SHOWN;
        write!(out, "      and {more} more\n")?;
    }
    Ok(())
}

/// Writes a rule, and the first messages that miss it.
fn write_rule<S: Reopen, W: Write>(
    alloc: Global,
    line: &mut TextLine,
    colored: &Colored<'_, S>,
    name: &[u8],
    rule: &Rule,
    verdict: &RuleVerdict,
    out: &mut W,
) -> Result<(), PassFault>
    ensures { OnOk result (spec.AppendsSome (spec.IsRuleShown name.now rule.now.check verdict.now)
        (W.contents out.old) (W.contents out.new)) }
{
    let mut text = Vec::new(alloc);
    put_rule(&mut text, name, &rule.check, verdict)?;
    let shown = shown_misses(alloc, line, colored, rule, verdict.missed)?;
    out.write_all(text.as_slice())?;
    out.write_all(shown.as_slice())?;
    write_more(verdict.missed, out)?;
    Ok(())
}

/// Writes each rule.
fn write_rules<S: Reopen, W: Write>(
    alloc: Global,
    colored: &Colored<'_, S>,
    out: &mut W,
) -> Result<(), PassFault>
    ensures { length colored.now.judged.rules.now ≡ length colored.now.judged.verdicts.now
        → OnOk result (spec.AppendsSome
        (spec.AreShown colored.now.judged.text.now colored.now.judged.rules.now colored.now.judged.verdicts.now)
        (W.contents out.old) (W.contents out.new)) }
{
    let mut line = TextLine::new(alloc, Shown::Colored)?;
    let mut names = Names::of(colored.judged.text);
    let mut rules = colored.judged.rules;
    let mut verdicts = colored.judged.verdicts;
    'rules: while let Some((verdict, others)) = verdicts.split_first() {
        let Some((rule, more)) = rules.split_first() else {
            return Ok(());
        };
        let name = names.at(verdict.line);
        write_rule(alloc, &mut line, colored, name, rule, verdict, out)?;
        rules = more;
        verdicts = others;
    }
    Ok(())
}

/// Writes the verdicts on rules, which the text of a file spells, for people: each rule by its own text, green where it
/// is held and red where it is not, with the first three messages that miss it as `bench dump --decode` shows them,
/// each with what was there and what was expected, or the first three packets, for which the recording is read anew;
/// last how many rules there are and how many are not held. A fault is want of memory, the writer's, or the
/// recording's, and then the writer may have got the text of rules in front of it.
pub fn write_colored<S: Reopen, W: Write>(
    alloc: Global,
    recording: &S,
    channels: ChannelNames<'_>,
    judged: Judged<'_>,
    out: &mut W,
) -> Result<(), PassFault>
    ensures { length judged.entry.rules.now ≡ length judged.entry.verdicts.now
        → OnOk result (spec.AppendsSome
        (spec.IsColored judged.entry.text.now judged.entry.rules.now judged.entry.verdicts.now)
        (W.contents out.old) (W.contents out.new)) }
{
    let colored = Colored {
        recording,
        channels,
        judged,
    };
    write_rules(alloc, &colored, out)?;
    let mut text = Vec::new(alloc);
    put_last(&mut text, judged.verdicts)?;
    out.write_all(text.as_slice())?;
    out.flush()?;
    Ok(())
}
