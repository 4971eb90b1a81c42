//! `bench judge`: whether a recording is what rules expect.

use crate::signal_judging::judge_among;
use bench_files::{Hold, Kind};
use bench_json::{JsonLines, JsonSource};
use bench_judge::{
    Lost, PassFault, RuleVerdict, count_lost, junit_text, read_skips, write_verdicts,
};
use bench_watch::Reopen;
use ch11_reader::Skip;
use clap::{ArgMatches, Command};
use command_finishing::signal_verdicts::{AllSpelled, print_all_verdicts};
use command_finishing::verdicts::{Spelled, fault_of_pass, print_verdicts};
use command_parts::dictionaries::dictionary_in;
use command_parts::hosts::System;
use command_parts::looking::tell_of_unknown;
use command_parts::options::{argument, command_of, file, flag, force, json, optional};
use command_parts::recordings::{Recording, Source};
use command_parts::replacing::may_write;
use command_parts::requests::{
    CommandFault, junit_of, read_whole, recording_first, rules_asked, rules_text, verdict_on,
    write_new,
};
use command_parts::streams::{listing, on_stream};
use judge_rules::{Check, Rule};
use signal_judge::{AllJudged, junit_of_all, write_all_verdicts};
use std::alloc::{AllocError, Global};
use std::io::{BufWriter, IsTerminal, Write};
use std::rt::{Clock, Files};

/// What the help of `bench judge` ends with.
const NOTES: &str = "\
RULES is a text, a rule a line: expect [channel N] [line A|B] [from TIME] [to TIME] SELECTOR CHECK. Without it each
message has to be clean: of one of the standard's ten forms, all replies in time, no word too many or too few.

  SELECTOR  any, rx A S, tx A S, rt A S A S (sender first), mode A C, brx S, brt A S S (sender first), bmode C
            address A, subaddress S, mode code C: a number, or * for any
  CHECK     ok, fail, clean, status WORD [mask WORD], data [WORD | .... | WORD/MASK]..,
            response LOW HIGH (ticks of 0.1 us), period LOW HIGH (us), count LOW HIGH [of KIND],
            word I LOW HIGH (data word I, four hexadecimal digits), word I step LOW HIGH (what it is more than that
            of the message before), whole (behind any alone: no packet is missing)
  KIND      ok, fail, clean, silent, or a bit of the block status word as dump --decode names it
  TIME      a number with s, ms or us, as for --from: of messages that began then or later, or then or earlier

With --signals DICTIONARY (bench signals --help) a selector may be signal NAME, for the messages that have it; behind it
a check may also be value LOW HIGH, of names value LABEL, or step MOST, the most by which a value may differ from the
one before it in its channel.

A rule is held where no message that it selects misses it and it selects one at least. Prints a line for each
message that misses a rule, one for each rule, and how many rules are not held.
Exit status: 0 all rules are held, 5 one is not; else as for all commands.

Example:
  bench judge flight.ch11 flight.rules --junit flight.xml";

/// The command line of `bench judge`.
pub fn command<'a>(alloc: Global) -> Result<Command<'a>, AllocError> {
    let about = "Judges a recording by rules, or by the standard";
    let rows = [
        file(
            "junit",
            "The file to write a JUnit report to, a test case a rule",
        ),
        flag("skip", "Judges what is sound of a damaged recording"),
        json(),
        file(
            "signals",
            "The dictionary of signals that rules may name as a selector",
        ),
        force(),
        argument("RECORDING", "The Chapter 11 file to judge"),
        optional("RULES", "The rules to judge it by, as a text"),
    ];
    command_of(alloc, "judge", about, NOTES, &[&rows])
}

/// What is to be judged.
#[derive(Debug, Drop)]
pub struct Request<'a> {
    /// The file of the recording.
    pub recording: &'a str,
    /// The file of the rules; each message is to be clean where there is none.
    pub rules: Option<&'a str>,
    /// The file to write the verdicts to as JUnit XML, if any.
    pub junit: Option<&'a str>,
    /// Whether a damaged recording is judged as far as it is sound.
    pub skip: bool,
    /// Whether verdicts are printed as JSON lines.
    pub json: bool,
    /// Whether a file of another kind may be replaced by the verdicts.
    pub force: bool,
    /// The file of a dictionary whose signals rules may name, if any.
    pub signals: Option<&'a str>,
}

/// What a command line asks of `bench judge`.
pub fn request_in<'a>(given: &ArgMatches<'a>) -> Request<'a> {
    Request {
        recording: given.get_str("RECORDING").unwrap_or(""),
        rules: given.get_str("RULES"),
        junit: given.get_str("junit"),
        skip: given.get_flag("skip"),
        json: given.get_flag("json"),
        force: given.get_flag("force"),
        signals: given.get_str("signals"),
    }
}

/// What the rules are named by where there is no file of them.
pub(crate) const STANDARD: &str = "standard rule";

/// What a recording is judged by.
#[derive(Clone, Copy)]
pub(crate) enum Judging<'f, 'r, 'd> {
    /// Rules about messages alone.
    Plain(Spelled<'r>),
    /// The name of a file, and its rules, which may name signals.
    All(&'f str, AllSpelled<'r, 'd>),
}

impl Judging<'_, '_, '_> {
    /// Judges the recording with this name by them and prints the verdicts.
    fn print<'a, R: System, E: Eprint + IsTerminal>(
        &self,
        rt: &R,
        name: &'a str,
        recording: &Recording<'_, 'a, R, E>,
    ) -> Result<Vec<RuleVerdict>, CommandFault<'a>> {
        match self {
            Judging::Plain(spelled) => print_verdicts(rt, name, recording, *spelled),
            Judging::All(_, spelled) => print_all_verdicts(rt, name, recording, *spelled),
        }
    }

    /// Judges a recording by them and writes the verdicts as plain lines.
    fn write<S: Reopen, W: Write>(
        &self,
        alloc: Global,
        recording: &S,
        out: &mut W,
    ) -> Result<Vec<RuleVerdict>, PassFault> {
        match self {
            Judging::Plain(spelled) => {
                let (rules, origins, skips) = (spelled.rules, spelled.origins, spelled.skips);
                write_verdicts(alloc, recording, rules, origins, skips, out)
            }
            Judging::All(_, spelled) => {
                let (rules, origins, skips) = (spelled.rules, spelled.origins, spelled.skips);
                let verdicts = write_all_verdicts(alloc, recording, rules, origins, skips, out)?;
                Ok(verdicts.in_order(alloc)?)
            }
        }
    }

    /// The JUnit file of these verdicts on a recording of which so many packets say that messages are missing.
    fn junit<S: Reopen>(
        &self,
        alloc: Global,
        recording: &S,
        verdicts: &[RuleVerdict],
        lost: Lost,
    ) -> Result<Vec<u8>, PassFault> {
        match self {
            Judging::Plain(spelled) => junit_text(alloc, recording, spelled.judged(verdicts), lost),
            Judging::All(file, spelled) => {
                let judged = AllJudged {
                    file: file.as_bytes(),
                    text: spelled.text,
                    rules: spelled.rules,
                    origins: spelled.origins,
                    skips: spelled.skips,
                    verdicts,
                };
                junit_of_all(alloc, recording, judged, lost)
            }
        }
    }
}

/// Says that messages are missing from a recording, and how many packets say so, where any do.
fn tell_lost<E: Eprint>(errors: &E, lost: &Lost) {
    if lost.is_any() {
        // Nothing else is lost where standard error takes no more.
        let _ = eprintln!(errors; "messages are missing from this recording: {lost}");
    }
}

/// Judges a recording, whose faults come before those of the rules, and prints the verdicts. Where a rule is not held
/// it ends with a fault of its own. The JUnit file, which may be none of the others, is written behind what is printed.
pub fn run<'a, R: System, E: Eprint + IsTerminal>(
    rt: &R,
    errors: &E,
    request: &Request<'a>,
) -> Result<(), CommandFault<'a>> {
    if let Some(junit) = request.junit {
        let rules = request.rules.unwrap_or(request.recording);
        may_write(
            rt,
            junit,
            Kind::Verdicts,
            request.force,
            &[request.recording, rules],
        )?;
    }
    let signals = match request.signals {
        Some(dictionary) => Some(dictionary_in(rt, dictionary)?),
        None => None,
    };
    let source = Source::of(rt, errors, request.recording)?;
    let given = given_rules(rt, request)?;
    let text = lent(&given);
    let recording = source.recording(request.skip, true);
    let judged = match &signals {
        Some(signals) => judge_among(rt, errors, request, &recording, text, signals.as_slice()),
        None => judge_recording(rt, errors, request, &recording, text),
    };
    source.end();
    judged
}

/// The text of the file of rules, if there is one.
fn given_rules<'a, R: Files + AllocGlobal>(
    rt: &R,
    request: &Request<'a>,
) -> Result<Option<Vec<u8>>, CommandFault<'a>> {
    match request.rules {
        Some(name) => Ok(Some(read_whole(rt, name)?)),
        None => Ok(None),
    }
}

/// A text, if there is one.
fn lent(given: &Option<Vec<u8>>) -> Option<&[u8]> {
    match given {
        Some(text) => Some(text.as_slice()),
        None => None,
    }
}

/// Judges a recording by the rules of this text, where one is given. Its faults come before those of the rules: where
/// these are refused, it is read to its end first.
fn judge_recording<'a, R: System, E: Eprint + IsTerminal>(
    rt: &R,
    errors: &E,
    request: &Request<'a>,
    recording: &Recording<'_, 'a, R, E>,
    text: Option<&[u8]>,
) -> Result<(), CommandFault<'a>> {
    let rules = rules_asked(rt.alloc(), text);
    let read = if rules.is_ok() || request.skip {
        Ok(())
    } else {
        recording.check()
    };
    let (_, rules) = recording_first(read, rules)?;
    let stamps = recording.stamps(true)?;
    tell_of_unknown(errors, request.recording, &stamps);
    let skips = skips_of(recording, request.skip && tells_packets(rules.as_slice()))?;
    let spelled = Spelled {
        file: request.rules.unwrap_or(STANDARD),
        text: rules_text(text),
        rules: rules.as_slice(),
        origins: stamps.origins.as_slice(),
        skips: skips.as_slice(),
    };
    judge_by(rt, errors, request, recording, Judging::Plain(spelled))
}

/// Whether packets may be told that miss one of these rules.
pub(crate) fn tells_packets(rules: &[Rule]) -> bool {
    for rule in rules {
        if matches!(rule.check, Check::Whole) {
            return true;
        }
    }
    false
}

/// The bytes that are skipped of a recording, in a pass of its own where they are asked for, and else none.
pub(crate) fn skips_of<'a, R: Files + AllocGlobal + Clock, E: Eprint + IsTerminal>(
    recording: &Recording<'_, 'a, R, E>,
    asked: bool,
) -> Result<Vec<Skip>, CommandFault<'a>> {
    if !asked {
        return Ok(Vec::new(recording.alloc()));
    }
    let bytes = recording.begin_reading()?;
    recording.answer(read_skips(recording.alloc(), bytes))
}

/// Judges by these rules, prints the verdicts, tells of messages that are missing and writes the JUnit file.
pub(crate) fn judge_by<'a, R: System, E: Eprint + IsTerminal>(
    rt: &R,
    errors: &E,
    request: &Request<'a>,
    recording: &Recording<'_, 'a, R, E>,
    judging: Judging<'_, '_, '_>,
) -> Result<(), CommandFault<'a>> {
    let printed = if request.json {
        print_json(rt, request.recording, recording, judging)
    } else {
        judging.print(rt, request.recording, recording)
    };
    let junit = junit_of(request.junit, &printed);
    let verdicts = printed?;
    let lost = if junit.is_some() || errors.is_terminal() {
        lost_of(request.recording, recording)?
    } else {
        Lost::default()
    };
    if errors.is_terminal() {
        tell_lost(errors, &lost);
    }
    if let Some(junit) = junit {
        let made = judging.junit(rt.alloc(), recording, verdicts.as_slice(), lost);
        write_report(rt, request, junit, made)?;
    }
    verdict_on(verdicts.as_slice())
}

/// What the packets of the recording with this name say of messages that are missing: a pass.
fn lost_of<'a, R: Files + AllocGlobal + Clock, E: Eprint + IsTerminal>(
    name: &'a str,
    recording: &Recording<'_, 'a, R, E>,
) -> Result<Lost, CommandFault<'a>> {
    match recording.reopen() {
        Ok(input) => recording.answer(count_lost(recording.alloc(), input)),
        Err(error) => Err(CommandFault::of_stream(name, &error)),
    }
}

/// Judges the recording with this name by these rules and prints the verdicts as JSON lines.
fn print_json<'a, R: System, E: Eprint + IsTerminal>(
    rt: &R,
    name: &'a str,
    recording: &Recording<'_, 'a, R, E>,
    judging: Judging<'_, '_, '_>,
) -> Result<Vec<RuleVerdict>, CommandFault<'a>> {
    let alloc = rt.alloc();
    let lines = JsonLines::over(alloc, JsonSource::Lines, listing(rt));
    let mut out = on_stream("-", BufWriter::new(alloc, lines))?;
    match judging.write(alloc, recording, &mut out) {
        Ok(verdicts) => Ok(verdicts),
        Err(fault) => Err(fault_of_pass(name, fault)),
    }
}

/// Writes the JUnit file if it could be made.
fn write_report<'a, R: Files<File: Hold> + AllocGlobal>(
    rt: &R,
    request: &Request<'a>,
    junit: &'a str,
    made: Result<Vec<u8>, PassFault>,
) -> Result<(), CommandFault<'a>> {
    match made {
        Ok(report) => write_new(rt, junit, Kind::Verdicts, request.force, report.as_slice()),
        Err(fault) => Err(fault_of_pass(request.recording, fault)),
    }
}
