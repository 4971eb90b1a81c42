//! What stands behind a fault line, unless it is asked to stand alone: the place in the text that was refused with the
//! reason, the system's own words, or what the fault's code means. The line itself and the exit status stay as they
//! are.

use crate::differing::difference_of;
use crate::misplaced::{Content, named_no_recording, no_recording, other_in_place};
use crate::named::Named;
use crate::reasoning::{reason_of_dictionary, reason_of_job, reason_of_rules, reason_of_script};
use crate::refusing::refusal_of;
use bench_assemble::AssembleFault;
use bench_explain::explain;
use bench_files::Kind;
use bench_one::OneFault;
use bench_reasons::{Place, Reason, Text, explained, put_place};
use ch11_reader::Refusal;
use command_parts::requests::{CommandFault, read_again};
use frame_text::Cause;
use job_file::{JobError, read_job};
use judge_rules::RuleError;
use signal_dictionary::DictionaryError;
use std::alloc::{AllocError, Global};
use std::fmt::Write;
use std::io;
use std::io::IsTerminal;
use std::rt::Files;

/// Explains a fault behind its line. A text is read once more for it, and where that fails, or memory is refused,
/// nothing is shown.
pub(crate) fn point<R: Files + AllocGlobal, E: Eprint + IsTerminal>(
    rt: &R,
    errors: &E,
    named: &Named<'_, '_>,
    fault: &CommandFault<'_>,
) {
    if let CommandFault::System { code, .. } = fault {
        let error = io::Error::from_raw_os_error(*code);
        // Nothing else is lost where standard error takes no more.
        let _ = eprintln!(errors; "  {error}");
        return;
    }
    if let CommandFault::Busy(_) = fault {
        // Nothing else is lost where standard error takes no more.
        let _ = eprintln!(errors;
            "  another run is writing this file: wait until it has ended, or name another file"
        );
        return;
    }
    if let Ok(text) = lines_of(rt, named, fault) {
        // Nothing else is lost where standard error takes no more.
        let _ = eprint!(errors; "{text}");
    }
}

/// The lines that explain a fault; those of its code where there is nothing else to say.
fn lines_of<R: Files + AllocGlobal>(
    rt: &R,
    named: &Named<'_, '_>,
    fault: &CommandFault<'_>,
) -> Result<String, AllocError> {
    match particular(rt, named, fault)? {
        Some(text) => Ok(text),
        None => meaning(rt, fault),
    }
}

/// What there is to say of this fault in these files.
fn particular<R: Files + AllocGlobal>(
    rt: &R,
    named: &Named<'_, '_>,
    fault: &CommandFault<'_>,
) -> Result<Option<String>, AllocError> {
    match fault {
        CommandFault::Text(OneFault::Text { cause, place }) => {
            let text = named.text.unwrap_or("").as_bytes();
            text_lines(rt, "TEXT", text, Text::Send, *cause, *place)
        }
        CommandFault::Script(AssembleFault::Text { cause, place }) => {
            let (cause, place) = (*cause, *place);
            text_at_fault(rt, named, RefusedText::Script { cause, place })
        }
        CommandFault::Job(error) => job_at_fault(rt, named, error),
        CommandFault::Run(error) => refusal_of(rt, named, *error),
        CommandFault::Recording(refusal) if refusal.offset == 0 => no_recording(rt, named),
        CommandFault::OneOfTwo { name, refusal } => one_of_two(rt, named, name, *refusal),
        CommandFault::Report(error) => {
            let line = error.line;
            text_at_fault(rt, named, RefusedText::Report { line, fault })
        }
        CommandFault::Rules(error) => text_at_fault(rt, named, RefusedText::Rules(error)),
        CommandFault::Dictionary(error) => text_at_fault(rt, named, RefusedText::Dictionary(error)),
        CommandFault::NoneSelected => crossed_bounds(rt, named),
        CommandFault::Mismatch { channel, number } => difference_of(rt, named, *channel, *number),
        _ => Ok(None),
    }
}

/// The lines for the one of two recordings that is refused: that it is of another kind, or its name and what the
/// fault's code means.
fn one_of_two<R: Files + AllocGlobal>(
    rt: &R,
    named: &Named<'_, '_>,
    name: &str,
    refusal: Refusal,
) -> Result<Option<String>, AllocError> {
    if refusal.offset == 0 {
        let lines = named_no_recording(rt, named, name)?;
        if lines.is_some() {
            return Ok(lines);
        }
    }
    let mut out = String::new(rt.alloc());
    write!(out, "  in {name}\n")?;
    put_meaning(&mut out, format!(in rt.alloc(); "{refusal}")?.as_str())?;
    Ok(Some(out))
}

/// Why a text that a command line names is refused.
#[derive(Clone, Copy)]
enum RefusedText<'f, 'a> {
    /// A script, at this place.
    Script {
        cause: Cause,
        place: frame_text::Place,
    },
    /// A report, at this line: the fault as it was told.
    Report {
        line: u64,
        fault: &'f CommandFault<'a>,
    },
    /// Rules.
    Rules(&'f RuleError),
    /// A dictionary of signals.
    Dictionary(&'f DictionaryError),
}

impl RefusedText<'_, '_> {
    /// The text's file; none where the command line names none.
    fn name<'n>(self, named: &Named<'_, 'n>) -> Option<&'n str> {
        match self {
            RefusedText::Script { .. } => named.script,
            RefusedText::Report { .. } => named.report,
            RefusedText::Rules(_) => named.rules,
            RefusedText::Dictionary(_) => named.dictionary,
        }
    }

    /// What the file is to have in it.
    fn wanted(self) -> Content {
        match self {
            RefusedText::Script { .. } => Content::Script,
            RefusedText::Report { .. } => Content::Written(Kind::Report),
            RefusedText::Rules(_) => Content::Rules,
            RefusedText::Dictionary(_) => Content::Dictionary,
        }
    }

    /// What there is to say of the text in the file of this name, as lines.
    fn lines<R: Files + AllocGlobal>(
        self,
        rt: &R,
        named: &Named<'_, '_>,
        name: &str,
        text: &[u8],
    ) -> Result<Option<String>, AllocError> {
        match self {
            RefusedText::Script { cause, place } => {
                text_lines(rt, name, text, Text::Script, cause, place)
            }
            RefusedText::Report { line, fault } => {
                let fault = format!(in rt.alloc(); "{fault}")?;
                line_lines(rt, name, text, line, fault.as_str())
            }
            RefusedText::Rules(error) => rule_lines(rt, named, name, text, error),
            RefusedText::Dictionary(error) => {
                let reason = reason_of_dictionary(rt.alloc(), text, error)?;
                told(rt, name, text, reason)
            }
        }
    }
}

/// Why a text that is named is refused, as lines: that its file is of another kind, or what there is to say of it. The
/// file is read once more, and there are none where it is not named, or that fails.
fn text_at_fault<R: Files + AllocGlobal>(
    rt: &R,
    named: &Named<'_, '_>,
    refused: RefusedText<'_, '_>,
) -> Result<Option<String>, AllocError> {
    let Some(name) = refused.name(named) else {
        return Ok(None);
    };
    let Ok(text) = read_again(rt, name) else {
        return Ok(None);
    };
    let text = text.as_slice();
    match other_in_place(rt, named, refused.wanted(), name, text)? {
        Some(lines) => Ok(Some(lines)),
        None => refused.lines(rt, named, name, text),
    }
}

/// The reason of a script's text, or of that of a message, as lines.
fn text_lines<R: AllocGlobal>(
    rt: &R,
    name: &str,
    text: &[u8],
    kind: Text,
    cause: Cause,
    place: frame_text::Place,
) -> Result<Option<String>, AllocError> {
    let reason = reason_of_script(rt.alloc(), text, kind, cause, place)?;
    told(rt, name, text, reason)
}

/// The reason with its place, as lines.
fn told<R: AllocGlobal>(
    rt: &R,
    name: &str,
    text: &[u8],
    reason: Option<Reason>,
) -> Result<Option<String>, AllocError> {
    match reason {
        Some(reason) => Ok(Some(explained(rt.alloc(), name, text, &reason)?)),
        None => Ok(None),
    }
}

/// Why the first of the jobs that are named is refused that is refused so.
fn job_at_fault<R: Files + AllocGlobal>(
    rt: &R,
    named: &Named<'_, '_>,
    error: &JobError,
) -> Result<Option<String>, AllocError> {
    for name in named.jobs {
        let Ok(text) = read_again(rt, name) else {
            return Ok(None);
        };
        match refusal_of_job(rt.alloc(), text.as_slice()) {
            None => {}
            Some(found) if found == *error => {
                return job_lines(rt, named, name, text.as_slice(), error);
            }
            Some(_) => return Ok(None),
        }
    }
    Ok(None)
}

/// Why a text is no job, where it is none.
fn refusal_of_job(alloc: Global, text: &[u8]) -> Option<JobError> {
    match read_job(alloc, text) {
        Ok(_) => None,
        Err(error) => Some(error),
    }
}

/// Why a job is refused, as lines: that it is of another kind, or what there is to say of its text.
fn job_lines<R: AllocGlobal>(
    rt: &R,
    named: &Named<'_, '_>,
    name: &str,
    text: &[u8],
    error: &JobError,
) -> Result<Option<String>, AllocError> {
    if let Some(lines) = other_in_place(rt, named, Content::Written(Kind::Job), name, text)? {
        return Ok(Some(lines));
    }
    match error {
        JobError::Assembly { line, .. }
        | JobError::Loading { line, .. }
        | JobError::Inserts { line } => {
            let fault = format!(in rt.alloc(); "{error}")?;
            line_lines(rt, name, text, *line, fault.as_str())
        }
        _ => told(rt, name, text, reason_of_job(rt.alloc(), text, error)?),
    }
}

/// A line of a text, marked where it begins, and what the last code in a fault's text means.
fn line_lines<R: AllocGlobal>(
    rt: &R,
    name: &str,
    text: &[u8],
    line: u64,
    fault: &str,
) -> Result<Option<String>, AllocError> {
    let mut out = String::new(rt.alloc());
    put_place(&mut out, name, text, Place { line, column: 1 }, 1)?;
    put_meaning(&mut out, fault)?;
    Ok(Some(out))
}

/// The reason of a text of rules, which may name the signals of a dictionary, as lines.
fn rule_lines<R: Files + AllocGlobal>(
    rt: &R,
    named: &Named<'_, '_>,
    name: &str,
    text: &[u8],
    error: &RuleError,
) -> Result<Option<String>, AllocError> {
    let dictionary = dictionary_again(rt, named);
    let signals = match &dictionary {
        Some(text) => Some(text.as_slice()),
        None => None,
    };
    let reason = reason_of_rules(rt.alloc(), text, signals, error)?;
    told(rt, name, text, reason)
}

/// The text of the dictionary that is named, read once more; none where it names none, or that fails.
fn dictionary_again<R: Files + AllocGlobal>(rt: &R, named: &Named<'_, '_>) -> Option<Vec<u8>> {
    let name = named.dictionary?;
    read_again(rt, name).ok()
}

/// That the first message which is asked for stands behind the last one, as a line; none where it does not.
fn crossed_bounds<R: AllocGlobal>(
    rt: &R,
    named: &Named<'_, '_>,
) -> Result<Option<String>, AllocError> {
    let Some(selection) = named.selection else {
        return Ok(None);
    };
    let Some((from, to)) = selection.crossed() else {
        return Ok(None);
    };
    let line = format!(in rt.alloc();
        "  --from {from} stands behind --to {to}: no message lies between; give the first one as --from\n"
    )?;
    Ok(Some(line))
}

/// What a fault's code means, as lines.
fn meaning<R: AllocGlobal>(rt: &R, fault: &CommandFault<'_>) -> Result<String, AllocError> {
    let mut out = String::new(rt.alloc());
    match fault {
        CommandFault::Unknown(_) => {
            out.push_str("  there is no such code; bench explain lists those that there are\n")?
        }
        CommandFault::Device(_) => put_meaning(&mut out, "device")?,
        _ => put_meaning(&mut out, format!(in rt.alloc(); "{fault}")?.as_str())?,
    }
    Ok(out)
}

/// Puts what the last code in a fault's text means, and what to do.
fn put_meaning(out: &mut String, fault: &str) -> Result<(), AllocError> {
    let mut found = None;
    for word in fault.split(' ') {
        found = explain(word).or(found);
    }
    if let Some(explanation) = found {
        let (means, remedy) = (explanation.means, explanation.remedy);
        write!(out, "  {means}\n  {remedy}\n")?;
    }
    Ok(())
}
