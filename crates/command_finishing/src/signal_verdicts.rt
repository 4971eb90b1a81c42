//! The verdicts of rules that may name signals, printed to the standard output.

use crate::verdicts::fault_of_pass;
use bench_judge::RuleVerdict;
use ch11_reader::Skip;
use command_parts::hosts::System;
use command_parts::recordings::Recording;
use command_parts::requests::{CommandFault, fault_of_rules};
use command_parts::streams::{listing, on_stream};
use signal_dictionary::Signal;
use signal_judge::{AllRules, read_all_rules, write_all_verdicts};
use std::alloc::Global;
use std::io::{BufWriter, IsTerminal};

/// Rules that may name signals, and the text that spells them.
#[derive(Clone, Copy)]
pub struct AllSpelled<'r, 'd> {
    /// The text.
    pub text: &'r [u8],
    /// The rules that it spells.
    pub rules: &'r AllRules<'d>,
    /// The first time of day of each channel of the recording that has one, from which the times of rules count.
    pub origins: &'r [Option<u64>],
    /// The bytes of the recording's file that are skipped, where it is damaged and packets are told.
    pub skips: &'r [Skip],
}

/// The rules that a text spells, which may name these signals, or their first fault.
pub fn rules_among<'a, 'd>(
    alloc: Global,
    text: &[u8],
    signals: &'d [Signal],
) -> Result<AllRules<'d>, CommandFault<'a>> {
    match read_all_rules(alloc, text, signals) {
        Ok(rules) => Ok(rules),
        Err(error) => Err(fault_of_rules(error)),
    }
}

/// Judges the recording with this name by these rules and prints the verdicts.
pub fn print_all_verdicts<'a, R: System, E: Eprint + IsTerminal>(
    rt: &R,
    name: &'a str,
    recording: &Recording<'_, 'a, R, E>,
    spelled: AllSpelled<'_, '_>,
) -> Result<Vec<RuleVerdict>, CommandFault<'a>> {
    let alloc = rt.alloc();
    let mut out = on_stream("-", BufWriter::new(alloc, listing(rt)))?;
    let (rules, origins, skips) = (spelled.rules, spelled.origins, spelled.skips);
    match write_all_verdicts(alloc, recording, rules, origins, skips, &mut out) {
        Ok(verdicts) => Ok(verdicts.in_order(alloc)?),
        Err(fault) => Err(fault_of_pass(name, fault)),
    }
}
