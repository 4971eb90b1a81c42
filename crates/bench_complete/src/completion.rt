//! A recording that was judged, and the complete file of it.
ghost use Rattle.bench_complete.specs.Complete.{Completes, Plan, low_by, plan_for, times_between};
ghost use Rattle.bench_complete.specs.Judging.{Fails, IsCompleted, Plans, RefusesCompletion, StopsWriting};
ghost use Rattle.bench_complete.specs.Judging.{is_setup, misuse};
ghost use Rattle.bench_complete.specs.Listing.{AreSmall, IsListed};
ghost use Rattle.ch11_reader.specs.Recording.{Found, packets_in};
ghost use Rattle.ch11_reader.specs.Skipping.{packets_read, skips_in};
ghost use Rattle.std.specs.Prelude.{◌≡◌, ◌≤◌, ℕ, List, true, option_map, Ok, OnOk, IfOk, IfErr, MatchResult, None};
ghost use Rattle.std.specs.Prelude.{Some};

use crate::additions::Additions;
use crate::extent::{Extent, extent_of};
use crate::fault::CompleteFault;
use crate::judging::{is_setup, judge};
use crate::lanes::Lanes;
use crate::leading::{leading, write_packets};
use crate::links::link;
use crate::listing::{Listed, SoundListed, list, list_sound};
use crate::merge::merge;
use crate::original::Original;
use crate::placed::Placed;
use crate::places::Places;
use crate::setup::write_front;
use crate::times::{SECOND, Times};
use ch11_reader::Skip;
use ch11_stream::Advance;
use std::alloc::Global;
use std::io::{Read, Write};
use std::marker::Model;

/// A recording that can be completed: what stands in the complete file. Where each packet stands is kept, some 40 bytes
/// of each, and the packets are read there once more. Contracts see the plan of it, where the recording's bytes are
/// known.
#[derive(Drop)]
pub struct Completion<'a, S: Places> {
    original: Original<S>,
    packets: Vec<Placed>,
    setup: Option<&'a [u8]>,
    times: Times,
    low: u64,
}

impl<'a, S: Places> Model for Completion<'a, S> {
    ghost use Rattle.bench_complete.specs.Complete.{Plan, plan_by};
    ghost use Rattle.bench_complete.specs.Judging.{IsPlanned};
    ghost use Rattle.std.specs.Prelude.{Option, option_map};

    ghost Value = { Option Plan };

    ghost view = { λ c. option_map (plan_by (option_map (λ text. text.now) c.setup) c.times c.packets.items)
        c.original };

    ghost invariant = { λ c. IsPlanned c.packets.items c.times c.low (option_map (λ text. text.now) c.setup) };
}

/// The time packets that are asked for, between the counters of a recording.
fn times_of(additions: &Additions<'_>, extent: Option<Extent>) -> Times
    ensures { result ≡ times_between additions.now additions.now.start extent }
{
    let none = Times {
        start: 0,
        channel: additions.time_channel,
        version: additions.version,
        first: 0,
        end: 0,
    };
    let Some(start) = additions.start else {
        return none;
    };
    let Some(extent) = extent else {
        return none;
    };
    Times {
        start: start.second,
        channel: additions.time_channel,
        version: additions.version,
        first: extent.low / SECOND,
        end: extent.high / SECOND + 1,
    }
}

/// The lowest counter of time packets and of those of a recording.
fn lowest(times: &Times, extent: Option<Extent>) -> u64
    requires { times.now.first ≤ 28147498 }
    ensures { result ≡ low_by times.now extent }
{
    match extent {
        None => 0,
        Some(found) => {
            if times.first < times.end {
                times.first * SECOND
            } else {
                found.low
            }
        }
    }
}

impl<'a, S: Places + Drop> Completion<'a, S> {
    /// The completion of packets that were listed.
    fn of(
        original: Original<S>,
        listed: Listed,
        additions: &Additions<'a>,
    ) -> Result<Completion<'a, S>, CompleteFault>
        requires small { AreSmall listed.packets.items }
        requires text { is_setup (option_map (λ text. text.now) additions.now.setup) ≡ true }
        ensures { (file : List ℕ) (ps : List Found) → original ≡ Some file → IsListed file ps listed
            → MatchResult result
            (λ c. (misuse file ps additions.now ≡ None) × (c ≡ Some (plan_for file ps additions.now)))
            (λ f. misuse file ps additions.now ≡ Some f) }
    {
        let packets = listed.packets.as_slice();
        let extent = extent_of(packets);
        if let Err(fault) = judge(additions, packets, listed.timed, extent) {
            return Err(fault);
        }
        let times = times_of(additions, extent);
        let low = lowest(&times, extent);
        Ok(Completion {
            original,
            packets: listed.packets,
            setup: additions.setup,
            times,
            low,
        })
    }

    /// Reads a recording from its first byte on and judges what is to be added to it; its packets are read again at
    /// their places, which are of the same bytes. The size of a setup text is judged first, then the recording, then
    /// the usage faults that hang on it. Want of memory, and a reader that fails, come only where that size is right.
    pub fn plan<R: Advance + Drop>(
        alloc: Global,
        input: R,
        places: S,
        additions: &Additions<'a>,
    ) -> Result<Completion<'a, S>, CompleteFault>
        ensures { (file : List ℕ) → R.remaining input ≡ Some file → S.bytes places ≡ Some file
            → Plans file (packets_in file) additions.now result }
    {
        if !is_setup(additions.setup) {
            return Err(CompleteFault::SetupSize);
        }
        let listed = list(alloc, input)?;
        Completion::of(Original::over(alloc, places), listed, additions)
    }

    /// The same for whatever is sound in a recording, with the bytes that were skipped. No recording is refused for a
    /// fault of its own, and the faults that hang on it are those of the packets that are sound.
    pub fn plan_skipping<R: Read + Drop>(
        alloc: Global,
        input: R,
        places: S,
        additions: &Additions<'a>,
    ) -> Result<(Completion<'a, S>, Vec<Skip>), CompleteFault>
        ensures planned { (file : List ℕ) → R.remaining input ≡ Some file → S.bytes places ≡ Some file
            → IfOk result (λ x. x.0 ≡ Some (plan_for file (packets_read file) additions.now)) }
        ensures skipped { (file : List ℕ) → R.remaining input ≡ Some file
            → IfOk result (λ x. x.1.items ≡ skips_in file) }
        ensures judged { (file : List ℕ) → R.remaining input ≡ Some file → S.bytes places ≡ Some file
            → IfOk result (λ x. misuse file (packets_read file) additions.now ≡ None) }
        ensures refused { (file : List ℕ) → R.remaining input ≡ Some file → S.bytes places ≡ Some file
            → IfErr result (λ f. RefusesCompletion file (Ok (packets_read file)) additions.now f) }
    {
        if !is_setup(additions.setup) {
            return Err(CompleteFault::SetupSize);
        }
        let SoundListed { listed, skips } = list_sound(alloc, input)?;
        match Completion::of(Original::over(alloc, places), listed, additions) {
            Ok(completion) => Ok((completion, skips)),
            Err(fault) => Err(fault),
        }
    }

    /// Writes the complete file: the setup record that is added, those that stand in front of the recording, and behind
    /// them all other packets, merged. Where it fails, it answers Memory, Reader
    /// or Device, and the writer may have got some of the file.
    pub fn write<W: Write>(&mut self, alloc: Global, out: &mut W) -> Result<(), CompleteFault>
        ensures written { OnOk result ((plan : Plan) → self.old ≡ Some plan
            → Completes plan (W.contents out.old) (W.contents out.new)) }
        ensures stays { self.new ≡ self.old }
        ensures stopped { IfErr result StopsWriting }
    {
        let packets = self.packets.as_slice();
        let (front, others) = packets.split_at(leading(packets));
        let lanes = Lanes {
            packets: others,
            times: self.times,
        };
        let links = link(alloc, lanes.packets)?;
        let heads = lanes.heads(alloc, &links)?;
        write_front(self.times.version, self.low, self.setup, out)?;
        write_packets(&mut self.original, front, out)?;
        merge(&lanes, &links, heads, &mut self.original, out)
    }
}

/// Completes a recording in memory: a fault of `Completion::plan`, and where it plans, one of `Completion::write`.
pub fn complete<W: Write>(
    alloc: Global,
    file: &[u8],
    additions: &Additions<'_>,
    out: &mut W,
) -> Result<(), CompleteFault>
    ensures completed { OnOk result (IsCompleted file.now (packets_in file.now) additions.now (W.contents out.old)
        (W.contents out.new)) }
    ensures failed { IfErr result (Fails file.now (packets_in file.now) additions.now) }
{
    match Completion::plan(alloc, file, file, additions) {
        Ok(mut completion) => completion.write(alloc, out),
        Err(refused) => Err(refused),
    }
}
