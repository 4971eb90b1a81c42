//! The verdicts of rules on a recording, printed to the standard output.

use bench_judge::{
    Judged, PassFault, PrintFault, RuleVerdict, judge, write_colored, write_verdicts,
};
use bench_names::ChannelNames;
use bench_watch::Reopen;
use ch11_reader::Skip;
use command_parts::hosts::System;
use command_parts::recordings::{Recording, fault_of_reading};
use command_parts::requests::CommandFault;
use command_parts::streams::listing;
use command_parts::terminals::is_for_people;
use judge_rules::Rule;
use std::io::{BufWriter, IsTerminal};

/// Rules, and the text that spells them.
#[derive(Clone, Copy)]
pub struct Spelled<'r> {
    /// The name of the file.
    pub file: &'r str,
    /// The text.
    pub text: &'r [u8],
    /// The rules that it spells.
    pub rules: &'r [Rule],
    /// The first time of day of each channel of the recording that has one, from which the times of rules count.
    pub origins: &'r [Option<u64>],
    /// The bytes of the recording's file that are skipped, where it is damaged and packets are told.
    pub skips: &'r [Skip],
}

impl<'r> Spelled<'r> {
    /// The rules with these verdicts.
    pub fn judged(&self, verdicts: &'r [RuleVerdict]) -> Judged<'r> {
        Judged {
            file: self.file.as_bytes(),
            text: self.text,
            rules: self.rules,
            origins: self.origins,
            skips: self.skips,
            verdicts,
        }
    }
}

/// The fault of a recording with this name that was not judged to its end.
pub fn fault_of_pass<'a>(name: &'a str, fault: PassFault) -> CommandFault<'a> {
    match fault {
        PassFault::Opening(error) => CommandFault::of_stream(name, &error),
        PassFault::Recording(fault) => fault_of_reading(name, fault),
        PassFault::Printing(fault) => fault_of_printing(fault),
    }
}

/// The fault of verdicts that were not printed to their end.
fn fault_of_printing<'a>(fault: PrintFault) -> CommandFault<'a> {
    match fault {
        PrintFault::Memory => CommandFault::Memory,
        PrintFault::Device(error) => CommandFault::of_stream("-", &error),
    }
}

/// Judges the recording with this name by these rules and prints the verdicts.
pub fn print_verdicts<'a, R: System, E: Eprint + IsTerminal>(
    rt: &R,
    name: &'a str,
    recording: &Recording<'_, 'a, R, E>,
    spelled: Spelled<'_>,
) -> Result<Vec<RuleVerdict>, CommandFault<'a>> {
    match print_judged(rt, recording, spelled) {
        Ok(verdicts) => Ok(verdicts),
        Err(fault) => Err(fault_of_pass(name, fault)),
    }
}

/// Prints the verdicts of these rules, for people where they go to a terminal.
fn print_judged<R: System, E: Eprint + IsTerminal>(
    rt: &R,
    recording: &Recording<'_, '_, R, E>,
    spelled: Spelled<'_>,
) -> Result<Vec<RuleVerdict>, PassFault> {
    let alloc = rt.alloc();
    let (rules, origins, skips) = (spelled.rules, spelled.origins, spelled.skips);
    let mut out = BufWriter::new(alloc, listing(rt))?;
    if !is_for_people(rt) {
        return write_verdicts(alloc, recording, rules, origins, skips, &mut out);
    }
    let verdicts = match recording.reopen() {
        Ok(input) => judge(alloc, input, rules, origins)?,
        Err(error) => return Err(PassFault::Opening(error)),
    };
    let front = recording.front()?;
    let names = ChannelNames::of(front.as_slice());
    let judged = spelled.judged(verdicts.as_slice());
    write_colored(alloc, recording, names, judged, &mut out)?;
    Ok(verdicts)
}
