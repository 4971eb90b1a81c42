//! Verdicts as plain lines, on their way to a writer.
ghost use Rattle.bench_judge.specs.Lines.{count_lines, last_line, miss_line, packet_line, rule_line};
ghost use Rattle.bench_judge.specs.Tallies.{IsWriting};
ghost use Rattle.bench_judge.specs.Verdicts as spec;
ghost use Rattle.bench_select.specs.Viewed.{Viewed, viewed_behind};
ghost use Rattle.ch11_layout.specs.Stamps.{kind_of};
ghost use Rattle.std.specs.Io.KnownBytes.{Appends};
ghost use Rattle.std.specs.Prelude.{◌≡◌, ◌+◌, ◌<◌, ◌^◌, ◌∷◌, List, ℕ, Option, length, OnOk};

use crate::fault::PrintFault;
use crate::skips::file_place;
use crate::tallied::{Tallied, note_miss};
use crate::verdicts::{Miss, RuleVerdict, not_held};
use ch11_f1::Messages;
use ch11_layout::{StampKind, View};
use ch11_reader::{Packet, Skip};
use std::io;
use std::io::Write;

/// Writes that a message misses the rule of a line.
pub fn write_miss<W: Write>(out: &mut W, line: u64, miss: &Miss) -> io::Result<()>
    ensures { OnOk result (Appends (W.contents out.old) (W.contents out.new) (miss_line line miss.now)) }
{
    let (number, channel) = (miss.number, miss.channel);
    match miss.stamp {
        Some(stamp) => write!(
            out,
            "missed {line} message {number} channel {channel} stamp {stamp}\n"
        ),
        None => write!(
            out,
            "missed {line} message {number} channel {channel} stamp -\n"
        ),
    }
}

/// Writes one more message of a channel if it misses the rule.
fn write_message<T: Tallied, W: Write>(
    tally: &mut T::Tally,
    rule: &T,
    origins: &[Option<u64>],
    number: u64,
    channel: u16,
    view: &View<'_>,
    out: &mut W,
) -> Result<(), PrintFault>
    ensures { (history : List Viewed) → (got : Option (List ℕ))
        → IsWriting (T.is_tally rule.now origins.now) (T.misses_next rule.now origins.now) (T.line_of rule.now)
        got history (W.contents out.old) tally.old
        → number ≡ length history + 1
        → OnOk result (IsWriting (T.is_tally rule.now origins.now) (T.misses_next rule.now origins.now)
        (T.line_of rule.now) got ((channel, view.now) ∷ history) (W.contents out.new) tally.new) }
{
    if let Some(miss) = note_miss(rule, tally, origins, number, channel, view)? {
        write_miss(out, rule.line(), &miss)?;
    }
    Ok(())
}

/// Writes those messages of a packet that miss the rule.
pub(crate) fn write_messages<T: Tallied, W: Write>(
    tally: &mut T::Tally,
    rule: &T,
    origins: &[Option<u64>],
    packet: &Packet,
    messages: Messages<'_>,
    out: &mut W,
) -> Result<(), PrintFault>
    requires { packet.now.before + length messages < 2 ^ 64 }
    ensures { (history : List Viewed) → (got : Option (List ℕ))
        → IsWriting (T.is_tally rule.now origins.now) (T.misses_next rule.now origins.now) (T.line_of rule.now)
        got history (W.contents out.old) tally.old
        → packet.now.before ≡ length history
        → OnOk result (IsWriting (T.is_tally rule.now origins.now) (T.misses_next rule.now origins.now)
        (T.line_of rule.now) got
        (viewed_behind (kind_of packet.now.header) packet.now.header.channel messages.entry history)
        (W.contents out.new) tally.new) }
{
    let channel = packet.header.channel;
    let kind = StampKind::of(&packet.header);
    let mut number = packet.before;
    let mut rest = messages;
    'messages: while let Some(seen) = rest.next() {
        number += 1;
        let view = View::of(kind, &seen);
        write_message(tally, rule, origins, number, channel, &view, out)?;
    }
    Ok(())
}

/// Writes that a packet misses the rule of a line, by where it begins in the file of which these bytes were skipped.
pub(crate) fn write_packet<W: Write>(
    out: &mut W,
    line: u64,
    packet: &Packet,
    skips: &[Skip],
) -> io::Result<()>
    ensures { OnOk result (Appends (W.contents out.old) (W.contents out.new)
        (packet_line skips.now line packet.now)) }
{
    let (place, channel) = (file_place(skips, packet.offset), packet.header.channel);
    write!(out, "missed {line} packet {place} channel {channel}\n")
}

/// Writes that the count of a rule is not met, of which this is the verdict.
pub fn write_count<W: Write>(out: &mut W, verdict: &RuleVerdict) -> io::Result<()>
    ensures { OnOk result (Appends (W.contents out.old) (W.contents out.new)
        (count_lines verdict.now.line verdict.now.selected verdict.now.counted)) }
{
    let (line, selected, counted) = (verdict.line, verdict.selected, verdict.counted);
    write!(
        out,
        "missed {line} count {counted}\nrule {line} selected {selected} missed 1\n"
    )
}

/// Writes how many messages a rule selects, and how many miss it, of which this is the verdict.
pub fn write_numbers<W: Write>(out: &mut W, verdict: &RuleVerdict) -> io::Result<()>
    ensures { OnOk result (Appends (W.contents out.old) (W.contents out.new)
        (rule_line verdict.now.line verdict.now.selected verdict.now.missed)) }
{
    let (line, selected, missed) = (verdict.line, verdict.selected, verdict.missed);
    write!(out, "rule {line} selected {selected} missed {missed}\n")
}

/// Writes the line behind those of the rules: how many there are, and how many are not held.
pub fn write_last<W: Write>(out: &mut W, verdicts: &[RuleVerdict]) -> io::Result<()>
    ensures { OnOk result (Appends (W.contents out.old) (W.contents out.new)
        (last_line (length verdicts.now) (spec.not_held verdicts.now))) }
{
    let (rules, missed) = (verdicts.len(), not_held(verdicts));
    write!(out, "rules {rules} missed {missed}\n")
}
