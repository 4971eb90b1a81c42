//! Verdicts as plain lines, of a recording that is read anew for each pass.
ghost use Rattle.bench_judge.specs.Lines.{miss_line, missed_lines, packet_line, rules_lines, verdict_lines};
ghost use Rattle.bench_judge.specs.Lines.{verdict_text};
ghost use Rattle.bench_judge.specs.Packets.{packets_missed};
ghost use Rattle.bench_judge.specs.Streaming.{WritesLinesOf, passed_of};
ghost use Rattle.bench_judge.specs.Tallies.{miss_lines, missed_by};
ghost use Rattle.bench_judge.specs.Verdicts as spec;
ghost use Rattle.bench_judge.specs.Verdicts.{AreVerdicts, IsVerdict};
ghost use Rattle.ch11_reader.specs.Indexed.{found_in};
ghost use Rattle.ch11_reader.specs.Recording.{packets_in};
ghost use Rattle.ch11_reader.specs.declared.error.Refusal.{Refusal};
ghost use Rattle.std.specs.List.{flat_map};
ghost use Rattle.std.specs.Io.KnownBytes.{Appends};
ghost use Rattle.std.specs.Prelude.{◌≡◌, ◌∷◌, [], ℕ, List, Some, Ok, Err, length, IfOk, OnOk};

use crate::checks::is_whole;
use crate::judging::judge;
use crate::lines::{write_count, write_last, write_messages, write_numbers, write_packet};
use crate::packets::misses_packet;
use crate::pass_fault::PassFault;
use crate::tallied::Tallied;
use crate::verdicts::RuleVerdict;
use bench_watch::Reopen;
use ch11_reader::{Packet, Skip};
use ch11_stream::{Advance, Packets, StreamFault};
use judge_rules::Rule;
use std::alloc::Global;
use std::io;
use std::io::Write;

/// A rule of which something is said, and what that rests on.
#[derive(Clone, Copy)]
pub struct Ruled<'r> {
    /// The rule.
    pub rule: &'r Rule,
    /// The first time of day of each channel of the recording, from which its times count.
    pub origins: &'r [Option<u64>],
    /// The bytes of the recording's file that were skipped, as `read_skips` finds them.
    pub skips: &'r [Skip],
}

/// Writes the messages that miss a rule, each as a line, of all bytes that a reader has left, as their packets come. A
/// recording that can't be read is refused with its first fault, K1 to K5, N2 or F1 to F3, and then the writer may have
/// got lines of packets in front of it; want of memory and failures of the reader and the writer are the others. The
/// times of the rule count from these times of day.
pub fn write_misses<R: Advance + Drop, W: Write>(
    alloc: Global,
    input: R,
    rule: &Rule,
    origins: &[Option<u64>],
    out: &mut W,
) -> Result<(), PassFault>
    ensures { (file : List ℕ) → R.remaining input ≡ Some file
        → WritesLinesOf (λ p. miss_lines rule.now p.origins p.messages) origins.now result file
        (W.contents out.old) (W.contents out.new) }
{
    write_each_miss(alloc, input, rule, origins, out)
}

/// Writes the messages that miss a rule of any kind, in the same way.
pub fn write_each_miss<T: Tallied, R: Advance + Drop, W: Write>(
    alloc: Global,
    input: R,
    rule: &T,
    origins: &[Option<u64>],
    out: &mut W,
) -> Result<(), PassFault>
    ensures { (file : List ℕ) → R.remaining input ≡ Some file
        → WritesLinesOf (λ p. flat_map (miss_line (T.line_of rule.now))
        (missed_by (T.misses_next rule.now p.origins) p.messages)) origins.now result file
        (W.contents out.old) (W.contents out.new) }
{
    let mut packets = Packets::over(alloc, input)?;
    let mut tally = T::no_tally(alloc);
    'packets: for _made in 0..u64::MAX {
        match packets.next() {
            Ok(Some(packet)) => {
                let messages = packets.messages();
                write_messages(&mut tally, rule, origins, &packet, messages, out)?;
            }
            Ok(None) => return Ok(()),
            Err(fault) => return Err(PassFault::Recording(fault)),
        }
    }
    Err(PassFault::Recording(StreamFault::Device))
}

/// Writes a packet as a line where it misses a rule.
fn write_if_missed<W: Write>(
    rule: &Rule,
    packet: &Packet,
    skips: &[Skip],
    out: &mut W,
) -> io::Result<()>
    ensures { OnOk result (Appends (W.contents out.old) (W.contents out.new)
        (flat_map (packet_line skips.now rule.now.line) (packets_missed rule.now (packet.now ∷ [])))) }
{
    let missed = misses_packet(rule, packet);
    if missed {
        return write_packet(out, rule.line, packet, skips);
    }
    Ok(())
}

/// Writes the packets that miss a rule, each as a line, in the same way, by where they begin in the file of which these
/// bytes were skipped.
pub fn write_packets<R: Advance + Drop, W: Write>(
    alloc: Global,
    input: R,
    rule: &Rule,
    origins: &[Option<u64>],
    skips: &[Skip],
    out: &mut W,
) -> Result<(), PassFault>
    ensures { (file : List ℕ) → R.remaining input ≡ Some file
        → WritesLinesOf (λ p. flat_map (packet_line skips.now rule.now.line) (packets_missed rule.now p.packets))
        origins.now result file (W.contents out.old) (W.contents out.new) }
{
    let mut packets = Packets::over(alloc, input)?;
    'packets: for _made in 0..u64::MAX {
        match packets.next() {
            Ok(Some(packet)) => write_if_missed(rule, &packet, skips, out)?,
            Ok(None) => return Ok(()),
            Err(fault) => return Err(PassFault::Recording(fault)),
        }
    }
    Err(PassFault::Recording(StreamFault::Device))
}

/// Writes the messages that miss a rule, or the packets where it is about these, of all bytes that a reader has left.
pub fn write_missed_of<R: Advance + Drop, W: Write>(
    alloc: Global,
    input: R,
    ruled: Ruled<'_>,
    out: &mut W,
) -> Result<(), PassFault>
    ensures { (file : List ℕ) → R.remaining input ≡ Some file
        → WritesLinesOf (missed_lines ruled.entry.skips.now ruled.entry.rule.now) ruled.entry.origins.now result file
        (W.contents out.old) (W.contents out.new) }
{
    let (rule, origins, skips) = (ruled.rule, ruled.origins, ruled.skips);
    if is_whole(&rule.check) {
        return write_packets(alloc, input, rule, origins, skips, out);
    }
    write_misses(alloc, input, rule, origins, out)
}

/// Writes the messages that miss a rule, or the packets, in a pass of their own.
fn write_each<S: Reopen, W: Write>(
    alloc: Global,
    recording: &S,
    ruled: Ruled<'_>,
    out: &mut W,
) -> Result<(), PassFault>
    ensures { (file : List ℕ) → S.bytes recording.now ≡ Some file
        → WritesLinesOf (missed_lines ruled.entry.skips.now ruled.entry.rule.now) ruled.entry.origins.now result file
        (W.contents out.old) (W.contents out.new) }
{
    match recording.reopen() {
        Ok(input) => write_missed_of(alloc, input, ruled, out),
        Err(error) => Err(PassFault::Opening(error)),
    }
}

/// Writes the messages or the packets that miss a rule, of which there are so many: in a pass of its own, where there
/// are any.
fn write_missed<S: Reopen, W: Write>(
    alloc: Global,
    recording: &S,
    ruled: Ruled<'_>,
    missed: u64,
    out: &mut W,
) -> Result<(), PassFault>
    ensures { (file : List ℕ) → S.bytes recording.now ≡ Some file → packets_in file ≡ Ok (found_in file)
        → missed ≡ spec.missed_count ruled.entry.rule.now (passed_of ruled.entry.origins.now file)
        → WritesLinesOf (missed_lines ruled.entry.skips.now ruled.entry.rule.now) ruled.entry.origins.now result file
        (W.contents out.old) (W.contents out.new) }
{
    if missed == 0 {
        return Ok(());
    }
    write_each(alloc, recording, ruled, out)
}

/// Writes the lines of a rule, of which this is the verdict.
fn write_rule<S: Reopen, W: Write>(
    alloc: Global,
    recording: &S,
    ruled: Ruled<'_>,
    verdict: &RuleVerdict,
    out: &mut W,
) -> Result<(), PassFault>
    ensures { (file : List ℕ) → S.bytes recording.now ≡ Some file → packets_in file ≡ Ok (found_in file)
        → IsVerdict ruled.entry.rule.now (passed_of ruled.entry.origins.now file) verdict.now
        → WritesLinesOf (verdict_lines ruled.entry.skips.now ruled.entry.rule.now) ruled.entry.origins.now result file
        (W.contents out.old) (W.contents out.new) }
{
    if verdict.miscounted {
        return Ok(write_count(out, verdict)?);
    }
    write_missed(alloc, recording, ruled, verdict.missed, out)?;
    Ok(write_numbers(out, verdict)?)
}

/// Writes the lines of all rules, of which these are the verdicts.
fn write_rules<S: Reopen, W: Write>(
    alloc: Global,
    recording: &S,
    rules: &[Rule],
    origins: &[Option<u64>],
    skips: &[Skip],
    verdicts: &[RuleVerdict],
    out: &mut W,
) -> Result<(), PassFault>
    requires { length verdicts.now ≡ length rules.now }
    ensures { (file : List ℕ) → S.bytes recording.now ≡ Some file → packets_in file ≡ Ok (found_in file)
        → AreVerdicts rules.now (passed_of origins.now file) verdicts.now
        → WritesLinesOf (rules_lines skips.now rules.now) origins.now result file (W.contents out.old)
        (W.contents out.new) }
{
    'rules: for place in 0..rules.len() {
        write_rule(
            alloc,
            recording,
            Ruled {
                rule: &rules[place],
                origins,
                skips,
            },
            &verdicts[place],
            out,
        )?;
    }
    Ok(())
}

/// Judges a recording by rules and writes the verdicts as plain lines, rule by rule: a line for each message or packet
/// that misses the rule, or one for a count that is not met, and a line with its numbers; last how many rules there are
/// and how many of them are not held. The times of rules count from these times of day, one for each channel whose
/// stamps are times of day; a packet is told by where it begins in the file of which these bytes were skipped. It takes
/// memory for the largest packet of messages or of time, the rules and, where one asks for a period or a step, the
/// channels. In a first pass all rules are judged, and nothing is written of a recording that is refused; each rule
/// that is missed takes one more pass, which writes what misses it. Where the recording changed between the passes, the
/// writer may have got lines in front of a fault of it, and what a rule's last line counts is what the first pass
/// found.
pub fn write_verdicts<S: Reopen, W: Write>(
    alloc: Global,
    recording: &S,
    rules: &[Rule],
    origins: &[Option<u64>],
    skips: &[Skip],
    out: &mut W,
) -> Result<Vec<RuleVerdict>, PassFault>
    ensures verdicts { (file : List ℕ) → S.bytes recording.now ≡ Some file
        → IfOk result (λ verdicts. AreVerdicts rules.now (passed_of origins.now file) verdicts.items) }
    ensures written { (file : List ℕ) → S.bytes recording.now ≡ Some file
        → WritesLinesOf (verdict_text skips.now rules.now) origins.now result file (W.contents out.old)
        (W.contents out.new) }
    ensures refused { (file : List ℕ) (r : Refusal) → S.bytes recording.now ≡ Some file → packets_in file ≡ Err r
        → out.new ≡ out.old }
{
    let verdicts = match recording.reopen() {
        Ok(input) => judge(alloc, input, rules, origins)?,
        Err(error) => return Err(PassFault::Opening(error)),
    };
    write_rules(
        alloc,
        recording,
        rules,
        origins,
        skips,
        verdicts.as_slice(),
        out,
    )?;
    write_last(out, verdicts.as_slice())?;
    out.flush()?;
    Ok(verdicts)
}
