//! Faults of scripts, jobs and rules as those that have their reasons in words.

use bench_reasons::{
    LineFault, Place, Reason, RuleFault, ScriptFault, Text, dictionary_reason, job_script_reason,
    line_reason, rule_reason, script_reason, signal_rule_reason,
};
use frame_text::Cause;
use job_file::JobError;
use judge_rules::RuleError;
use mil_host::BadAction;
use mil_line::LineError;
use signal_dictionary::DictionaryError;
use std::alloc::{AllocError, Global};

/// Why a script, or a line and a message, is refused.
pub(crate) fn reason_of_script(
    alloc: Global,
    text: &[u8],
    kind: Text,
    cause: Cause,
    place: frame_text::Place,
) -> Result<Option<Reason>, AllocError> {
    script_reason(alloc, text, kind, ScriptFault::of(cause), place_of(place))
}

/// Why a job is refused; none where its text alone does not say.
pub(crate) fn reason_of_job(
    alloc: Global,
    text: &[u8],
    error: &JobError,
) -> Result<Option<Reason>, AllocError> {
    match error {
        JobError::Line { line, fault } => line_reason(alloc, text, *line, line_fault(*fault)),
        JobError::Script { cause, place } => {
            job_script_reason(alloc, text, ScriptFault::of(*cause), place_of(*place))
        }
        JobError::Assembly { .. }
        | JobError::Loading { .. }
        | JobError::Inserts { .. }
        | JobError::Memory => Ok(None),
    }
}

/// Why rules are refused, which may name the signals of a dictionary where there is one; none where their text alone
/// does not say.
pub(crate) fn reason_of_rules(
    alloc: Global,
    text: &[u8],
    dictionary: Option<&[u8]>,
    error: &RuleError,
) -> Result<Option<Reason>, AllocError> {
    match (rule_fault(error.fault), dictionary) {
        (Some(fault), None) => rule_reason(alloc, text, error.line, fault),
        (Some(fault), Some(dictionary)) => {
            signal_rule_reason(alloc, text, dictionary, error.line, fault)
        }
        (None, _) => Ok(None),
    }
}

/// Why a dictionary is refused; none where its text alone does not say.
pub(crate) fn reason_of_dictionary(
    alloc: Global,
    text: &[u8],
    error: &DictionaryError,
) -> Result<Option<Reason>, AllocError> {
    match rule_fault(error.fault) {
        Some(fault) => dictionary_reason(alloc, text, error.line, fault),
        None => Ok(None),
    }
}

fn rule_fault(fault: judge_rules::RuleFault) -> Option<RuleFault> {
    match fault {
        judge_rules::RuleFault::Word => Some(RuleFault::Word),
        judge_rules::RuleFault::Number => Some(RuleFault::Number),
        judge_rules::RuleFault::Range => Some(RuleFault::Range),
        judge_rules::RuleFault::Memory => None,
    }
}

fn place_of(place: frame_text::Place) -> Place {
    Place {
        line: place.line,
        column: place.column,
    }
}

fn line_fault(fault: job_file::LineFault) -> LineFault {
    match fault {
        job_file::LineFault::Word => LineFault::Word,
        job_file::LineFault::Number => LineFault::Number,
        job_file::LineFault::Order => LineFault::Order,
        job_file::LineFault::Terminal => LineFault::Terminal,
        job_file::LineFault::Action(BadAction::Word) => LineFault::ActionWord,
        job_file::LineFault::Action(BadAction::Number) => LineFault::ActionNumber,
        job_file::LineFault::Action(BadAction::Range) => LineFault::ActionRange,
        job_file::LineFault::Fault(LineError::TooMany) => LineFault::FaultCount,
        job_file::LineFault::Fault(_) => LineFault::FaultRange,
    }
}
