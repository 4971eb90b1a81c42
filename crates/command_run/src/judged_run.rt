//! `bench run --judge`: the rules of a run, read before it begins, and the verdicts on what it recorded.

use bench_files::leads_to_output;
use bench_judge::{PassFault, RuleVerdict, write_verdicts};
use command_finishing::signal_verdicts::{AllSpelled, print_all_verdicts, rules_among};
use command_finishing::verdicts::{Spelled, fault_of_pass, print_verdicts};
use command_parts::hosts::System;
use command_parts::options::{Row, file, value};
use command_parts::recordings::{Recording, Source};
use command_parts::requests::{CommandFault, RunRequest, read_whole, rules_of, verdict_on};
use judge_rules::Rule;
use signal_dictionary::Signal;
use signal_judge::{AllRules, write_all_verdicts};
use std::fs;
use std::io::{self, BufWriter, IsTerminal, Write};
use std::os::unix::fs::FileTypeExt;
use std::rt::{Clock, Files};

/// The rules of a run, and the text that spells them.
#[derive(Drop)]
pub(crate) struct RunRules<'d> {
    text: Vec<u8>,
    rules: Rules<'d>,
}

/// Rules about messages alone, or those that may name signals.
#[derive(Drop)]
enum Rules<'d> {
    Plain(Vec<Rule>),
    All(AllRules<'d>),
}

/// The option that names the rules of a run.
pub(crate) fn judge_option<'a>() -> Row<'a> {
    value(
        "judge",
        "RULES",
        "The rules to judge the recording by once it is whole; status 5 where one is not held",
    )
}

/// The option that names the dictionary of the signals that these rules may name.
pub(crate) fn signals_option<'a>() -> Row<'a> {
    file(
        "signals",
        "With --judge: the dictionary of signals that rules may name as a selector",
    )
    .only_with("judge")
}

/// Whether a recording of this name can be read back: one that goes to a pipe or a device is gone, and one that goes
/// to the standard output would have the verdicts behind it.
fn is_kept<R: Files>(rt: &R, name: &str) -> bool {
    if leads_to_output(rt, name) {
        return false;
    }
    match fs::metadata(rt, name) {
        Ok(metadata) => {
            let kind = metadata.file_type();
            !(kind.is_char_device() || kind.is_fifo() || kind.is_socket())
        }
        Err(_) => true,
    }
}

/// That a run that is judged records into a file that can be read back; else a usage fault.
pub(crate) fn judge_kept<'a, R: Files>(
    rt: &R,
    request: &RunRequest<'a>,
) -> Result<(), CommandFault<'a>> {
    if request.judge.is_some() && !is_kept(rt, request.out) {
        return Err(CommandFault::Usage(
            "--judge reads the recording back: --out has to be a file, and no pipe, device or standard output",
        ));
    }
    Ok(())
}

/// The rules that a run is to be judged by, if any, which may name these signals where a dictionary is named.
pub(crate) fn rules_of_run<'a, 'd, R: Files + AllocGlobal>(
    rt: &R,
    request: &RunRequest<'a>,
    signals: &'d [Signal],
) -> Result<Option<RunRules<'d>>, CommandFault<'a>> {
    let Some(name) = request.judge else {
        return Ok(None);
    };
    let text = read_whole(rt, name)?;
    let rules = if request.signals.is_some() {
        Rules::All(rules_among(rt.alloc(), text.as_slice(), signals)?)
    } else {
        Rules::Plain(rules_of(rt.alloc(), text.as_slice())?)
    };
    Ok(Some(RunRules { text, rules }))
}

/// The error stream, to which text is written; it is no fault where that fails, as everywhere.
#[derive(Drop)]
pub(crate) struct ErrorStream<'a, E> {
    pub(crate) errors: &'a E,
}

impl<E: Eprint> Write for ErrorStream<'_, E> {
    fn write(&mut self, bytes: &[u8]) -> io::Result<usize> {
        let text = str::from_utf8(bytes).unwrap_or("");
        // Nothing else is lost where standard error takes no more.
        let _ = eprint!(self.errors; "{text}");
        Ok(bytes.len())
    }

    fn flush(&mut self) -> io::Result<()> {
        Ok(())
    }
}

/// Judges a recording by rules and tells the verdicts on the error stream, as plain lines.
fn tell_verdicts<R: Files + AllocGlobal + Clock, E: Eprint + IsTerminal>(
    errors: &E,
    recording: &Recording<'_, '_, R, E>,
    rules: &Rules<'_>,
) -> Result<Vec<RuleVerdict>, PassFault> {
    let alloc = recording.alloc();
    let mut out = BufWriter::new(alloc, ErrorStream { errors })?;
    // the stamps of a run are ticks of the recorder's counter
    let origins: &[Option<u64>] = &[];
    match rules {
        Rules::Plain(rules) => {
            write_verdicts(alloc, recording, rules.as_slice(), origins, &[], &mut out)
        }
        Rules::All(rules) => {
            let verdicts = write_all_verdicts(alloc, recording, rules, origins, &[], &mut out)?;
            Ok(verdicts.in_order(alloc)?)
        }
    }
}

/// Judges what a run recorded, and prints the verdicts where its counts went. Where a rule is not held it ends with a
/// fault of its own.
pub(crate) fn judge_run<'a, R: System, E: Eprint + IsTerminal>(
    rt: &R,
    errors: &E,
    request: &RunRequest<'a>,
    given: &RunRules<'_>,
) -> Result<(), CommandFault<'a>> {
    let source = Source::of(rt, errors, request.out)?;
    let judged = judge_recorded(rt, errors, request, given, &source.recording(false, true));
    source.end();
    verdict_on(judged?.as_slice())
}

/// The verdicts on what a run recorded, which are printed.
fn judge_recorded<'a, R: System, E: Eprint + IsTerminal>(
    rt: &R,
    errors: &E,
    request: &RunRequest<'a>,
    given: &RunRules<'_>,
    recording: &Recording<'_, 'a, R, E>,
) -> Result<Vec<RuleVerdict>, CommandFault<'a>> {
    if !leads_to_output(rt, request.report) {
        return print_judged(rt, request, given, recording);
    }
    match tell_verdicts(errors, recording, &given.rules) {
        Ok(verdicts) => Ok(verdicts),
        Err(fault) => Err(fault_of_pass(request.out, fault)),
    }
}

/// The verdicts on what a run recorded, which are printed to the standard output.
fn print_judged<'a, R: System, E: Eprint + IsTerminal>(
    rt: &R,
    request: &RunRequest<'a>,
    given: &RunRules<'_>,
    recording: &Recording<'_, 'a, R, E>,
) -> Result<Vec<RuleVerdict>, CommandFault<'a>> {
    // the stamps of a run are ticks of the recorder's counter
    let origins: &[Option<u64>] = &[];
    let text = given.text.as_slice();
    match &given.rules {
        Rules::Plain(rules) => {
            let spelled = Spelled {
                file: request.judge.unwrap_or(""),
                text,
                rules: rules.as_slice(),
                origins,
                skips: &[],
            };
            print_verdicts(rt, request.out, recording, spelled)
        }
        Rules::All(rules) => {
            let spelled = AllSpelled {
                text,
                rules,
                origins,
                skips: &[],
            };
            print_all_verdicts(rt, request.out, recording, spelled)
        }
    }
}
