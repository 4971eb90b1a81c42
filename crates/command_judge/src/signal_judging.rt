//! `bench judge --signals`: whether a recording is what rules expect that may name signals.

use crate::judging::{Judging, Request, STANDARD, judge_by, skips_of, tells_packets};
use command_finishing::signal_verdicts::{AllSpelled, rules_among};
use command_parts::hosts::System;
use command_parts::looking::tell_of_unknown;
use command_parts::recordings::Recording;
use command_parts::requests::{CommandFault, rules_text};
use signal_dictionary::Signal;
use std::io::IsTerminal;

/// Judges a recording by the rules of this text, where one is given, which may name these signals. Its faults come
/// before those of the rules.
pub(crate) fn judge_among<'a, R: System, E: Eprint + IsTerminal>(
    rt: &R,
    errors: &E,
    request: &Request<'a>,
    recording: &Recording<'_, 'a, R, E>,
    given: Option<&[u8]>,
    signals: &[Signal],
) -> Result<(), CommandFault<'a>> {
    let text = rules_text(given);
    let rules = match rules_among(rt.alloc(), text, signals) {
        Ok(rules) => rules,
        Err(fault) => {
            if !request.skip {
                recording.check()?;
            }
            return Err(fault);
        }
    };
    let stamps = recording.stamps(true)?;
    tell_of_unknown(errors, request.recording, &stamps);
    let skips = skips_of(
        recording,
        request.skip && tells_packets(rules.plain.as_slice()),
    )?;
    let spelled = AllSpelled {
        text,
        rules: &rules,
        origins: stamps.origins.as_slice(),
        skips: skips.as_slice(),
    };
    let file = request.rules.unwrap_or(STANDARD);
    judge_by(rt, errors, request, recording, Judging::All(file, spelled))
}
