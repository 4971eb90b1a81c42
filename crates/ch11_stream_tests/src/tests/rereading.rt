//! Verdicts on a recording that is read anew for each pass, worked out by hand.

use crate::tests::equal::{are, are_bytes, same};
use crate::tests::streamed::{damaged, pair, refusal};
use crate::tests::streams::{Slow, reader_of};
use bench_judge::{
    Judged, Lost, PassFault, RuleVerdict, count_lost, judge, junit_text, tell_messages,
    tell_packets, write_colored, write_misses, write_packets, write_verdicts,
};
use bench_names::ChannelNames;
use bench_watch::Reopen;
use ch11_stream::StreamFault;
use judge_rules::{Rule, read_rules};
use std::alloc::Global;
use std::cell::Cell;
use std::io;
use std::io::ErrorKind;
use std::process::Abort;

/// Rules of which the first message misses the first; the second is held, and the third asks for another count.
const RULES: &[u8] = b"expect any ok\nexpect any period 1000 1000\nexpect any count 1 1\n";

/// What is written of them.
const TEXT: &str = "missed 1 message 1 channel 1 stamp 0
rule 1 selected 2 missed 1
rule 2 selected 2 missed 0
missed 3 count 2
rule 3 selected 2 missed 1
rules 3 missed 2
";

/// Rules of a recording whose first message, which had an error, is on another channel.
const APART_RULES: &[u8] = b"expect any fail\nexpect any count 1 1\n";

/// A recording that may be another from its second pass on, and that can be opened so many times. Its readers give one
/// byte at a time.
#[derive(Drop)]
pub(crate) struct Changing<'a> {
    first: &'a [u8],
    later: &'a [u8],
    most: usize,
    pub(crate) opened: Cell<usize>,
}

impl<'a> Changing<'a> {
    /// A recording of one file and then another, which may be opened so often.
    pub(crate) fn of(first: &'a [u8], later: &'a [u8], most: usize) -> Changing<'a> {
        Changing {
            first,
            later,
            most,
            opened: Cell::new(0),
        }
    }
}

impl<'a> Reopen for Changing<'a> {
    type Reader = Slow<'a>;

    fn reopen(&self) -> io::Result<Slow<'a>> {
        let opened = self.opened.get();
        self.opened.set(opened.saturating_add(1));
        if opened >= self.most {
            return Err(io::Error::from(ErrorKind::NotFound));
        }
        let file = if opened == 0 { self.first } else { self.later };
        Ok(reader_of(file, 1))
    }
}

/// The rules.
fn rules_of(rt: &impl Abort, alloc: Global) -> Vec<Rule> {
    read_rules(alloc, RULES).ok().expect(rt, "rules")
}

/// Judges the recording, of which this text is written.
fn judged(
    rt: &impl Abort,
    alloc: Global,
    recording: &Changing<'_>,
    text: &str,
) -> Result<Vec<RuleVerdict>, PassFault> {
    let rules = rules_of(rt, alloc);
    let mut out = Vec::new(alloc);
    let found = write_verdicts(alloc, recording, rules.as_slice(), &[], &[], &mut out);
    are_bytes(rt, &out, text.as_bytes());
    found
}

#[test]
fn verdicts_are_written_in_passes(rt: HostRuntime) {
    let file = pair();
    let recording = Changing::of(&file, &file, 2);
    let found = judged(&rt, rt.alloc(), &recording, TEXT);
    same(&rt, &found.ok().expect(&rt, "verdicts").len(), &3);
    same(&rt, &recording.opened.get(), &2);
}

/// The message that misses a rule stands in front of the fault of the second pass.
#[test]
fn a_later_pass_has_its_own_fault(rt: HostRuntime) {
    let (file, broken) = (pair(), damaged());
    let recording = Changing::of(&file, &broken, 2);
    let line = "missed 1 message 1 channel 1 stamp 0\n";
    is_refused(&rt, judged(&rt, rt.alloc(), &recording, line));
}

#[test]
fn a_recording_may_not_be_there_again(rt: HostRuntime) {
    let file = pair();
    let recording = Changing::of(&file, &file, 1);
    is_not_opened(&rt, judged(&rt, rt.alloc(), &recording, ""));
}

/// What the damaged recording comes to.
fn is_refused<T: Drop>(rt: &impl Abort, found: Result<T, PassFault>) {
    let fault = match found {
        Err(PassFault::Recording(fault)) => Some(fault),
        _ => None,
    };
    same(rt, &fault, &Some(StreamFault::Refused(refusal())));
}

/// What a recording comes to that is not there again.
fn is_not_opened<T: Drop>(rt: &impl Abort, found: Result<T, PassFault>) {
    let is_opening = matches!(&found, Err(PassFault::Opening(_)));
    same(rt, &is_opening, &true);
}

/// Passes over a damaged recording, which come behind those that answer its fault first.
#[test]
fn each_pass_refuses_a_damaged_recording(rt: HostRuntime) {
    let alloc = rt.alloc();
    let file = damaged();
    let input = reader_of(&file, 7);
    let rules = rules_of(&rt, alloc);
    let rule = rules.as_slice().first().expect(&rt, "a rule");
    let found = [
        tell_messages(alloc, input, rule, &[], 1).err(),
        tell_packets(alloc, input, rule, 1, &[]).err(),
        count_lost(alloc, input).err(),
    ];
    let refused = Some(StreamFault::Refused(refusal()));
    are(&rt, found.as_slice(), &[refused; 3]);
    let mut out = Vec::new(alloc);
    is_refused(&rt, write_misses(alloc, input, rule, &[], &mut out));
    is_refused(&rt, write_packets(alloc, input, rule, &[], &[], &mut out));
}

/// The pair, with its first message on channel 2; its header's checksum is one more then.
pub(crate) fn apart() -> [u8; 192] {
    let mut file = pair();
    file[34] = 2;
    file[54] = 0x09;
    file
}

/// The rules of that file, and the verdicts on it.
fn apart_verdicts(rt: &impl Abort, alloc: Global) -> (Vec<Rule>, Vec<RuleVerdict>) {
    let rules = read_rules(alloc, APART_RULES).ok().expect(rt, "rules");
    let file = apart();
    let verdicts = judge(alloc, reader_of(&file, 7), rules.as_slice(), &[])
        .ok()
        .expect(rt, "verdicts");
    (rules, verdicts)
}

/// The first rule is missed by a message, and its packets by the second packet of messages, which has the sequence
/// number of the first one. Nothing is told of them where none are asked for.
#[test]
fn no_misses_are_told_where_none_are_asked_for(rt: HostRuntime) {
    let alloc = rt.alloc();
    let file = pair();
    let rules = rules_of(&rt, alloc);
    let rule = rules.as_slice().first().expect(&rt, "a rule");
    let messages = tell_messages(alloc, reader_of(&file, 7), rule, &[], 0);
    same(&rt, &messages.ok().expect(&rt, "misses").len(), &0);
    let packets = tell_packets(alloc, reader_of(&file, 7), rule, 0, &[]);
    same(&rt, &packets.ok().expect(&rt, "packets").len(), &0);
}

/// Rules with these verdicts.
fn judged_apart<'j>(rules: &'j [Rule], verdicts: &'j [RuleVerdict]) -> Judged<'j> {
    Judged {
        file: b"apart.rules",
        text: APART_RULES,
        rules,
        origins: &[],
        skips: &[],
        verdicts,
    }
}

/// What a terminal shows of a recording that is apart, and how that ends.
fn shown(
    rt: &impl Abort,
    alloc: Global,
    recording: &Changing<'_>,
) -> (Result<(), PassFault>, Vec<u8>) {
    let (rules, verdicts) = apart_verdicts(rt, alloc);
    let mut out = Vec::new(alloc);
    let judged = judged_apart(rules.as_slice(), verdicts.as_slice());
    let answer = write_colored(alloc, recording, ChannelNames::of(&[]), judged, &mut out);
    (answer, out)
}

/// The report on a recording that is apart.
fn reported(
    rt: &impl Abort,
    alloc: Global,
    recording: &Changing<'_>,
) -> Result<Vec<u8>, PassFault> {
    let (rules, verdicts) = apart_verdicts(rt, alloc);
    let judged = judged_apart(rules.as_slice(), verdicts.as_slice());
    junit_text(alloc, recording, judged, Lost::default())
}

/// What a terminal shows and what a report tells of misses is read anew: it may not be there, or be damaged by then.
#[test]
fn what_is_told_of_misses_is_read_anew(rt: HostRuntime) {
    let (file, broken) = (apart(), damaged());
    let gone = Changing::of(&file, &file, 0);
    let (answer, _) = shown(&rt, rt.alloc(), &gone);
    is_not_opened(&rt, answer);
    let recording = Changing::of(&broken, &broken, 1);
    is_refused(&rt, reported(&rt, rt.alloc(), &recording));
}
