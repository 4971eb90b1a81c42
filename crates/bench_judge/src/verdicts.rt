//! What became of a rule.
ghost use Rattle.bench_judge.specs.Verdicts as spec;
ghost use Rattle.std.specs.Prelude.{◌≡◌, ◌≤◌, length};

use crate::checks::{counts, is_count};
use ch11_reader::Skip;
use judge_rules::Rule;

/// A message that misses a rule.
#[derive(Clone, Copy, Debug, PartialEq, Eq)]
pub struct Miss {
    /// Its number, counted from 1 over the file.
    pub number: u64,
    /// Its channel.
    pub channel: u16,
    /// When it began: ticks of 0.1 µs; None where that is not known.
    pub stamp: Option<u64>,
}

/// What became of a rule: how many messages it selects, and how many of them miss it.
#[derive(Clone, Copy, Debug, PartialEq, Eq)]
pub struct RuleVerdict {
    /// The line of the rule.
    pub line: u64,
    /// How many messages it selects, or packets where it is about these.
    pub selected: u64,
    /// How many of them it counts: all of them, or those of a kind; none where it asks for no count.
    pub counted: u64,
    /// How many of them miss it.
    pub missed: u64,
    /// Whether it asks for another count of messages.
    pub miscounted: bool,
    /// Whether it is held: nothing that it selects misses it, a count is met, and any other rule selects a message or a
    /// packet at least.
    pub held: bool,
}

/// Rules that the text of a file spells, with the verdict on each.
#[derive(Clone, Copy)]
pub struct Judged<'j> {
    /// The name of the file.
    pub file: &'j [u8],
    /// The text.
    pub text: &'j [u8],
    /// The rules that it spells.
    pub rules: &'j [Rule],
    /// The first time of day of each channel of the recording, as `bench_select::read_stamps` finds them.
    pub origins: &'j [Option<u64>],
    /// The bytes of the recording's file that were skipped, as `read_skips` finds them.
    pub skips: &'j [Skip],
    /// The verdict on each rule.
    pub verdicts: &'j [RuleVerdict],
}

/// The verdict of a rule that selects so many messages or packets, counts so many of them, and of which so many miss
/// it.
pub fn verdict_of(rule: &Rule, selected: u64, counted: u64, missed: u64) -> RuleVerdict
    ensures { spec.IsVerdictWith rule.now selected counted missed result }
{
    let met = counts(&rule.check, counted);
    let held = missed == 0 && met && (is_count(&rule.check) || selected > 0);
    RuleVerdict {
        line: rule.line,
        selected,
        counted,
        missed,
        miscounted: !met,
        held,
    }
}

/// How many rules are not held.
pub fn not_held(verdicts: &[RuleVerdict]) -> u64
    ensures value { result ≡ spec.not_held verdicts.now }
    ensures few { result ≤ length verdicts.now }
{
    let mut found = 0u64;
    let mut rest = verdicts;
    'verdicts: while let Some((verdict, others)) = rest.split_first() {
        if !verdict.held {
            found += 1;
        }
        rest = others;
    }
    found
}
