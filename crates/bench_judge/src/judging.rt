//! A pass over the messages of a recording, which all rules share.
ghost use Rattle.bench_judge.specs.Packets.{ArePacketTallies};
ghost use Rattle.bench_judge.specs.Selection.{Origins};
ghost use Rattle.bench_judge.specs.Tallies.{AreTallies, IsTally};
ghost use Rattle.bench_judge.specs.Verdicts as spec;
ghost use Rattle.bench_judge.specs.Verdicts.{AreVerdicts, IsVerdictWith, Passed, passed_in};
ghost use Rattle.bench_select.specs.Viewed.{Viewed, viewed_behind};
ghost use Rattle.ch11_layout.specs.Stamps.{kind_of};
ghost use Rattle.ch11_stream.specs.Folding.{FoldsPackets};
ghost use Rattle.std.specs.Prelude.{◌≡◌, ◌+◌, ◌<◌, ◌^◌, ◌∷◌, [], ℕ, List, Some, length, IfOk, OnOk};

use crate::checks::is_whole;
use crate::packets::{PacketTally, no_packets, note_packet};
use crate::tallied::Tallied;
use crate::tallies::Tally;
use crate::verdicts::{RuleVerdict, verdict_of};
use ch11_f1::Messages;
use ch11_header::Header;
use ch11_layout::{StampKind, View};
use ch11_stream::{Advance, Packets, StreamFault};
use judge_rules::Rule;
use std::alloc::{AllocError, Global};

/// The verdict of each rule on a recording, in the order of the rules: of all bytes that a reader has left, as their
/// packets come. The times of rules count from these times of day, one for each channel whose stamps are times of day.
/// All rules share one pass, however many they are, in which it is worked out at most once whether a message is clean:
/// memory is needed for the largest packet of messages or of time, and for a number of each channel for each rule of a
/// period or a step. A recording that can't be read is refused with its first fault, K1 to K5, N2 or F1 to F3; want of
/// memory and the reader's failure are the others.
pub fn judge<R: Advance + Drop>(
    alloc: Global,
    input: R,
    rules: &[Rule],
    origins: &[Option<u64>],
) -> Result<Vec<RuleVerdict>, StreamFault>
    ensures many { IfOk result (λ verdicts. length verdicts.items ≡ length rules.now) }
    ensures judged { (file : List ℕ) → R.remaining input ≡ Some file
        → FoldsPackets (λ ps verdicts. AreVerdicts rules.now (passed_in origins.now ps) verdicts.items) result file }
{
    let mut packets = Packets::over(alloc, input)?;
    let mut tallies = no_tallies(alloc, rules)?;
    let mut wholes = no_packets(alloc, rules)?;
    'packets: for made in 0..u64::MAX {
        match packets.next() {
            Ok(Some(packet)) => {
                note_packet(rules, wholes.as_mut_slice(), &packet);
                note_messages(
                    rules,
                    origins,
                    tallies.as_mut_slice(),
                    &packet.header,
                    packets.messages(),
                )?
            }
            Ok(None) => {
                let verdicts = verdicts_of(alloc, rules, tallies, wholes)?;
                return Ok(verdicts);
            }
            Err(fault) => return Err(fault),
        }
    }
    Err(StreamFault::Device)
}

/// A tally for each rule, of no messages.
pub fn no_tallies<T: Tallied>(alloc: Global, rules: &[T]) -> Result<Vec<T::Tally>, AllocError>
    ensures { IfOk result (λ tallies. (origins : Origins)
        → AreTallies T.is_tally rules.now origins [] tallies.items) }
{
    let mut tallies = Vec::with_capacity(alloc, rules.len())?;
    'rules: for _rule in rules {
        tallies.push(T::no_tally(alloc))?;
    }
    Ok(tallies)
}

/// One more message for each rule; whether it is clean is worked out at most once.
fn note_message<T: Tallied>(
    rules: &[T],
    origins: &[Option<u64>],
    tallies: &mut [T::Tally],
    channel: u16,
    view: &View<'_>,
) -> Result<(), AllocError>
    requires { length tallies.old ≡ length rules.now }
    ensures { (history : List Viewed) → AreTallies T.is_tally rules.now origins.now history tallies.old
        → length history + 1 < 2 ^ 64
        → OnOk result (AreTallies T.is_tally rules.now origins.now ((channel, view.now) ∷ history) tallies.new) }
{
    let mut known = None;
    'rules: for place in 0..rules.len() {
        rules[place].note(&mut tallies[place], origins, channel, view, &mut known)?;
    }
    Ok(())
}

/// The messages of a packet with this header for each rule.
pub fn note_messages<T: Tallied>(
    rules: &[T],
    origins: &[Option<u64>],
    tallies: &mut [T::Tally],
    header: &Header,
    messages: Messages<'_>,
) -> Result<(), AllocError>
    requires { length tallies.old ≡ length rules.now }
    ensures { (history : List Viewed) → AreTallies T.is_tally rules.now origins.now history tallies.old
        → length history + length messages.entry < 2 ^ 64
        → OnOk result (AreTallies T.is_tally rules.now origins.now
        (viewed_behind (kind_of header.now) header.now.channel messages.entry history) tallies.new) }
{
    let channel = header.channel;
    let kind = StampKind::of(header);
    let mut rest = messages;
    'messages: while let Some(seen) = rest.next() {
        note_message(rules, origins, tallies, channel, &View::of(kind, &seen))?;
    }
    Ok(())
}

/// The verdict of a rule with these tallies.
fn verdict_with(rule: &Rule, messages: &Tally, packets: &PacketTally) -> RuleVerdict
    ensures { IsVerdictWith rule.now
        (spec.of_these rule.now messages.now.selected packets.now.selected) messages.now.counted
        (spec.of_these rule.now messages.now.missed packets.now.missed) result }
{
    let counted = messages.counted;
    if is_whole(&rule.check) {
        verdict_of(
            rule,
            packets.selected as u64,
            counted,
            packets.missed as u64,
        )
    } else {
        verdict_of(rule, messages.selected, counted, messages.missed)
    }
}

/// The verdicts of tallies, one for each rule.
fn verdicts_of(
    alloc: Global,
    rules: &[Rule],
    tallies: Vec<Tally>,
    wholes: Vec<PacketTally>,
) -> Result<Vec<RuleVerdict>, AllocError>
    requires messages { length tallies.items ≡ length rules.now }
    requires packets { length wholes.items ≡ length rules.now }
    ensures { (p : Passed) → AreTallies IsTally rules.now p.origins p.messages tallies.items
        → ArePacketTallies rules.now p.packets wholes.items
        → IfOk result (λ verdicts. AreVerdicts rules.now p verdicts.items) }
{
    let mut verdicts = Vec::with_capacity(alloc, rules.len())?;
    'rules: for place in 0..rules.len() {
        verdicts.push(verdict_with(&rules[place], &tallies[place], &wholes[place]))?;
    }
    Ok(verdicts)
}
