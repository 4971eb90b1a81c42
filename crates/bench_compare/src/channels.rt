//! A channel of two recordings, compared.
ghost use Rattle.bench_compare.specs.Channels.{Compares, ComparesAll, EndsWith, FindsDifference, origins_by};
ghost use Rattle.bench_compare.specs.Chosen.{chosen_among, chosen_if, one_if};
ghost use Rattle.bench_compare.specs.Differences.{part_of};
ghost use Rattle.bench_compare.specs.Passes.{IsUnderWay};
ghost use Rattle.ch11_f1.specs.Views.{message_of};
ghost use Rattle.ch11_layout.specs.Stamps.{kind_of, recorded};
ghost use Rattle.ch11_reader.specs.Recording.{Found, packets_in};
ghost use Rattle.std.specs.Prelude.{◌≡◌, ◌+◌, ◌≤◌, ◌<◌, ◌^◌, ◌==◌, ℕ, List, None, Ok, Some, length, IfOk};

use crate::channel_pass::{ChannelPass, Choice};
use crate::differences::{Difference, Origins, Part};
use crate::fault::{CompareFault, SideFault};
use crate::kept::{Kept, Met};
use crate::pairs;
use ch11_f1::Messages;
use ch11_layout::{StampKind, View};
use ch11_reader::Packet;
use ch11_stream::{Advance, Packets, StreamFault};
use std::alloc::{AllocError, Global};

/// What is compared of a channel.
#[derive(Clone, Copy, Debug)]
pub(crate) struct Asked<'s> {
    /// What is chosen of the first recording.
    pub(crate) first: Choice<'s>,
    /// What is chosen of the second.
    pub(crate) second: Choice<'s>,
    /// How many ticks of 0.1 µs times may be apart.
    pub(crate) within: u64,
}

/// How far a channel was compared.
#[derive(Clone, Copy, Debug)]
pub(crate) struct Standing {
    /// How many messages were the same.
    pub(crate) same: u64,
    /// The stamps from which those of the channel are told; None in front of its first messages.
    pub(crate) origins: Option<Origins>,
}

/// The stamps from which those of the channel are told, where these are the next ones.
fn origins_of(standing: &Standing, first: u64, second: u64) -> Origins
    ensures { result ≡ origins_by standing.now.origins first second }
{
    match standing.origins {
        Some(origins) => origins,
        None => Origins { first, second },
    }
}

/// A message that the second recording lacks.
fn without_second(
    alloc: Global,
    standing: &Standing,
    met: &Met<'_>,
) -> Result<Difference, AllocError>
    requires { standing.now.same + 1 < 2 ^ 64 }
    ensures { (within : ℕ) → IfOk result
        (λ d. Compares within (Some d) (recorded met.now.kind (message_of met.now.seen)) None standing.now
        standing.now) }
{
    let first = Kept::of(alloc, met)?;
    Ok(Difference {
        number: standing.same + 1,
        part: Part::MissingInSecond,
        origins: origins_of(standing, met.view().stamp(), 0),
        first: Some(first),
        second: None,
    })
}

/// The first part in which a message and one that is kept differ, if any does.
fn part_between(within: u64, origins: Origins, first: &View<'_>, second: &Kept) -> Option<Part>
    ensures { result ≡ part_of within origins first.now second.now }
{
    pairs::part_of(within, origins, first, &second.view())
}

/// Compares a message with the next one of the second recording.
fn compare_two(
    alloc: Global,
    within: u64,
    standing: &mut Standing,
    met: &Met<'_>,
    second: Kept,
) -> Result<Option<Difference>, AllocError>
    requires { standing.old.same + 1 < 2 ^ 64 }
    ensures compared { IfOk result (λ found. Compares within found (recorded met.now.kind (message_of met.now.seen))
        (Some second) standing.old standing.new) }
    ensures counted { standing.new.same ≤ standing.old.same + 1 }
{
    let view = met.view();
    let origins = origins_of(standing, view.stamp(), second.view().stamp());
    let number = standing.same + 1;
    match part_between(within, origins, &view, &second) {
        None => {
            standing.same = number;
            standing.origins = Some(origins);
            Ok(None)
        }
        Some(part) => {
            let first = Kept::of(alloc, met)?;
            Ok(Some(Difference {
                number,
                part,
                first: Some(first),
                second: Some(second),
                origins,
            }))
        }
    }
}

/// Compares a message with the next one of the second recording, if there is one.
fn compare_message(
    alloc: Global,
    within: u64,
    standing: &mut Standing,
    met: &Met<'_>,
    second: Option<Kept>,
) -> Result<Option<Difference>, AllocError>
    requires { standing.old.same + 1 < 2 ^ 64 }
    ensures compared { IfOk result (λ found. Compares within found (recorded met.now.kind (message_of met.now.seen))
        second standing.old standing.new) }
    ensures counted { standing.new.same ≤ standing.old.same + 1 }
{
    match second {
        None => Ok(Some(without_second(alloc, standing, met)?)),
        Some(second) => compare_two(alloc, within, standing, met, second),
    }
}

/// Compares a message, where it is chosen, with the next one of the second recording.
fn compare_if<S: Advance>(
    alloc: Global,
    asked: &Asked<'_>,
    chosen: bool,
    standing: &mut Standing,
    pass: &mut ChannelPass<S>,
    met: &Met<'_>,
) -> Result<Option<Difference>, CompareFault>
    requires { standing.old.same + 1 < 2 ^ 64 }
    ensures compared { (file other : List ℕ) (qs : List Found) → IsUnderWay other pass.old.reading
        → packets_in other ≡ Ok qs → ComparesAll asked.now.within asked.now.second.selection.now
        asked.now.second.channel file other qs (one_if chosen (recorded met.now.kind (message_of met.now.seen)))
        result standing.old pass.old standing.new pass.new }
    ensures counted { standing.new.same ≤ standing.old.same + 1 }
{
    if !chosen {
        return Ok(None);
    }
    match pass.next(alloc, asked.second) {
        Ok(second) => {
            let found = compare_message(alloc, asked.within, standing, met, second)?;
            Ok(found)
        }
        Err(fault) => Err(CompareFault::Second(SideFault::Reading(fault))),
    }
}

/// Compares the chosen messages of a packet of the first recording with the next ones of the second, up to the first
/// that differs.
fn compare_messages<S: Advance>(
    alloc: Global,
    asked: &Asked<'_>,
    standing: &mut Standing,
    pass: &mut ChannelPass<S>,
    packet: &Packet,
    messages: Messages<'_>,
) -> Result<Option<Difference>, CompareFault>
    requires few { packet.now.before + length messages < 2 ^ 64 }
    requires within { standing.old.same ≤ packet.now.before }
    ensures compared { (file other : List ℕ) (qs : List Found) → IsUnderWay other pass.old.reading
        → packets_in other ≡ Ok qs → ComparesAll asked.now.within asked.now.second.selection.now
        asked.now.second.channel file other qs (chosen_among asked.now.first.selection.now
        (kind_of packet.now.header) packet.now.before asked.now.first.channel messages.entry) result standing.old
        pass.old standing.new pass.new }
    ensures counted { standing.new.same ≤ packet.now.before + length messages.entry }
{
    let (channel, selection) = (asked.first.channel, asked.first.selection);
    let kind = StampKind::of(&packet.header);
    let mut number = packet.before;
    let mut rest = messages;
    'messages: while let Some(seen) = rest.next() {
        number += 1;
        let met = Met { number, kind, seen };
        let chosen = selection.selects(number, channel, &met.view());
        if let Some(difference) = compare_if(alloc, asked, chosen, standing, pass, &met)? {
            return Ok(Some(difference));
        }
    }
    Ok(None)
}

/// Compares the chosen messages of a packet of the first recording, where it is of the channel.
fn compare_packet<S: Advance>(
    alloc: Global,
    asked: &Asked<'_>,
    standing: &mut Standing,
    pass: &mut ChannelPass<S>,
    packet: &Packet,
    messages: Messages<'_>,
) -> Result<Option<Difference>, CompareFault>
    requires few { packet.now.before + length messages < 2 ^ 64 }
    requires within { standing.old.same ≤ packet.now.before }
    ensures compared { (file other : List ℕ) (qs : List Found) → IsUnderWay other pass.old.reading
        → packets_in other ≡ Ok qs → ComparesAll asked.now.within asked.now.second.selection.now
        asked.now.second.channel file other qs
        (chosen_if asked.now.first.selection.now (packet.now.header.channel == asked.now.first.channel)
        (kind_of packet.now.header) packet.now.before asked.now.first.channel messages.entry) result
        standing.old pass.old standing.new pass.new }
    ensures counted { standing.new.same ≤ packet.now.before + length messages.entry }
{
    if packet.header.channel == asked.first.channel {
        compare_messages(alloc, asked, standing, pass, packet, messages)
    } else {
        Ok(None)
    }
}

/// The message behind those that are the same, if the second recording has one.
fn compare_end<S: Advance>(
    alloc: Global,
    asked: &Asked<'_>,
    standing: &Standing,
    pass: &mut ChannelPass<S>,
) -> Result<Option<Difference>, CompareFault>
    ensures { (file other : List ℕ) (qs : List Found) → IsUnderWay other pass.old.reading → packets_in other ≡ Ok qs
        → EndsWith asked.now.within asked.now.second.selection.now asked.now.second.channel file other qs result
        standing.now pass.old }
{
    match pass.next(alloc, asked.second) {
        Ok(Some(second)) => {
            let Some(number) = standing.same.checked_add(1) else {
                return Err(CompareFault::Second(SideFault::Reading(StreamFault::Device)));
            };
            let stamp = second.view().stamp();
            Ok(Some(Difference {
                number,
                part: Part::MissingInFirst,
                origins: origins_of(standing, 0, stamp),
                first: None,
                second: Some(second),
            }))
        }
        Ok(None) => Ok(None),
        Err(fault) => Err(CompareFault::Second(SideFault::Reading(fault))),
    }
}

/// The first message of a channel in which two recordings differ, each given by a reader, if any does: a pass over
/// both, in memory for the largest packet of messages or of time of each, and the messages of one packet of the second.
pub(crate) fn compare_channel<R: Advance + Drop, S: Advance + Drop>(
    alloc: Global,
    first: R,
    second: S,
    asked: &Asked<'_>,
) -> Result<Option<Difference>, CompareFault>
    ensures { (file other : List ℕ) (ps qs : List Found) → R.remaining first ≡ Some file
        → S.remaining second ≡ Some other → packets_in file ≡ Ok ps → packets_in other ≡ Ok qs
        → FindsDifference asked.now file other ps qs result }
{
    let mut packets = Packets::over(alloc, first)?;
    let mut pass = ChannelPass::over(alloc, second)?;
    let mut standing = Standing {
        same: 0,
        origins: None,
    };
    'packets: for _made in 0..u64::MAX {
        match packets.next() {
            Ok(Some(packet)) => {
                let messages = packets.messages();
                let found = compare_packet(
                    alloc,
                    asked,
                    &mut standing,
                    &mut pass,
                    &packet,
                    messages,
                )?;
                if let Some(difference) = found {
                    return Ok(Some(difference));
                }
            }
            Ok(None) => return compare_end(alloc, asked, &standing, &mut pass),
            Err(fault) => return Err(CompareFault::First(SideFault::Reading(fault))),
        }
    }
    Err(CompareFault::First(SideFault::Reading(StreamFault::Device)))
}
