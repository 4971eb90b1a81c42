//! The first messages that miss a rule about a signal.
ghost use Rattle.bench_select.specs.Viewed.{Viewed, viewed_behind, viewed_in};
ghost use Rattle.ch11_layout.specs.Stamps.{kind_of};
ghost use Rattle.ch11_stream.specs.Folding.{FoldsPackets};
ghost use Rattle.signal_judge.specs.Tallies.{IsFinding};
ghost use Rattle.signal_judge.specs.Verdicts.{misses};
ghost use Rattle.std.specs.Prelude.{◌≡◌, ◌+◌, ◌<◌, ◌≤◌, ◌^◌, ◌∷◌, ◌++◌, [], ℕ, List, Some, length, take, reverse};
ghost use Rattle.std.specs.Prelude.{OnOk};

use crate::rules::SignalRule;
use crate::tallies::SignalTally;
use crate::told::put_signal_told;
use bench_judge::{Miss, note_miss};
use ch11_f1::Messages;
use ch11_layout::{StampKind, View};
use ch11_reader::Packet;
use ch11_stream::{Advance, Packets, StreamFault};
use std::alloc::{AllocError, Global};

/// Appends a message that misses a rule where there are fewer than that.
fn put_first(found: &mut Vec<Miss>, most: usize, miss: Miss) -> Result<(), AllocError>
    ensures { length found.old.items ≤ most
        → OnOk result (found.new.items ≡ take most (found.old.items ++ miss ∷ [])) }
{
    if found.len() >= most {
        return Ok(());
    }
    found.push(miss)?;
    Ok(())
}

/// Appends one more message of a channel if it misses the rule and there are fewer than that, and tells
/// of it.
fn note_first(
    tally: &mut SignalTally,
    rule: &SignalRule<'_>,
    origins: &[Option<u64>],
    number: u64,
    channel: u16,
    view: &View<'_>,
    most: usize,
    found: &mut Vec<Miss>,
    told: &mut Vec<u8>,
) -> Result<(), AllocError>
    ensures { (history : List Viewed) → IsFinding rule.now origins.now most history found.old.items tally.old
        → number ≡ length history + 1
        → OnOk result (IsFinding rule.now origins.now most ((channel, view.now) ∷ history)
        found.new.items tally.new) }
{
    let before = tally.before(channel);
    if let Some(miss) = note_miss(rule, tally, origins, number, channel, view)? {
        if found.len() < most {
            put_signal_told(told, rule, &miss, before, view)?;
        }
        put_first(found, most, miss)?;
    }
    Ok(())
}

/// Appends those messages of a packet that miss a rule, until there are as many as that, and tells of them.
fn first_in(
    tally: &mut SignalTally,
    rule: &SignalRule<'_>,
    origins: &[Option<u64>],
    packet: &Packet,
    messages: Messages<'_>,
    most: usize,
    found: &mut Vec<Miss>,
    told: &mut Vec<u8>,
) -> Result<(), AllocError>
    requires { packet.now.before + length messages < 2 ^ 64 }
    ensures { (history : List Viewed) → IsFinding rule.now origins.now most history found.old.items tally.old
        → packet.now.before ≡ length history
        → OnOk result (IsFinding rule.now origins.now most
        (viewed_behind (kind_of packet.now.header) packet.now.header.channel messages.entry history)
        found.new.items tally.new) }
{
    let channel = packet.header.channel;
    let kind = StampKind::of(&packet.header);
    let mut number = packet.before;
    let mut rest = messages;
    'messages: while let Some(seen) = rest.next() {
        number += 1;
        note_first(
            tally,
            rule,
            origins,
            number,
            channel,
            &View::of(kind, &seen),
            most,
            found,
            told,
        )?;
    }
    Ok(())
}

/// The first messages that miss a rule about a signal, in the file's order, at most as many as that; of each is told
/// what was there and what was expected.
pub(crate) fn first_of<R: Advance + Drop>(
    alloc: Global,
    input: R,
    rule: &SignalRule<'_>,
    origins: &[Option<u64>],
    most: usize,
    told: &mut Vec<u8>,
) -> Result<Vec<Miss>, StreamFault>
    ensures { (file : List ℕ) → R.remaining input ≡ Some file
        → FoldsPackets (λ ps found. found.items
        ≡ take most (misses rule.now origins.now (reverse (viewed_in ps)))) result file }
{
    let mut packets = Packets::over(alloc, input)?;
    let mut found = Vec::new(alloc);
    let mut tally = SignalTally::new(alloc);
    'packets: for _made in 0..u64::MAX {
        match packets.next() {
            Ok(Some(packet)) => {
                let messages = packets.messages();
                first_in(
                    &mut tally, rule, origins, &packet, messages, most, &mut found, told,
                )?;
            }
            Ok(None) => return Ok(found),
            Err(fault) => return Err(fault),
        }
    }
    Err(StreamFault::Device)
}
