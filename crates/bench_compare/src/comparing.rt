//! Two recordings, compared channel by channel.
ghost use Rattle.bench_compare.specs.Compared as spec;
ghost use Rattle.bench_compare.specs.Counting.{AreCounts};
ghost use Rattle.ch11_reader.specs.Recording.{Found, packets_in};
ghost use Rattle.std.specs.Prelude.{◌≡◌, ℕ, List, Ok, Some, length, vec_len, IfOk};

use crate::channel_pass::Choice;
use crate::channels::{Asked, compare_channel};
use crate::counting::count_channels;
use crate::differences::{Compared, Difference};
use crate::fault::{CompareFault, SideFault};
use bench_select::{CHANNELS, Selection};
use bench_watch::Reopen;
use std::alloc::Global;

/// Two recordings, each read anew for each pass, and what is chosen of each.
#[derive(Drop)]
pub struct Sides<'s, A, B> {
    /// The first recording.
    pub first: &'s A,
    /// The second recording.
    pub second: &'s B,
    /// What is chosen of the first.
    pub of_first: Selection<'s>,
    /// What is chosen of the second.
    pub of_second: Selection<'s>,
}

/// How many messages are chosen of each channel of a recording.
fn count<S: Reopen>(
    alloc: Global,
    recording: &S,
    selection: &Selection,
) -> Result<Vec<u64>, SideFault>
    ensures len { IfOk result (λ counts. vec_len counts ≡ CHANNELS) }
    ensures counts { (file : List ℕ) → S.bytes recording.now ≡ Some file
        → spec.CountsFile selection.now file result }
{
    match recording.reopen() {
        Ok(input) => Ok(count_channels(alloc, input, selection)?),
        Err(error) => Err(SideFault::Opening(error)),
    }
}

/// The first message of a channel that differs, if any does, in a pass over both recordings.
fn difference<A: Reopen, B: Reopen>(
    alloc: Global,
    sides: &Sides<'_, A, B>,
    channel: u16,
    within: u64,
) -> Result<Option<Difference>, CompareFault>
    ensures { (file other : List ℕ) (ps qs : List Found) → A.bytes sides.now.first.now ≡ Some file
        → B.bytes sides.now.second.now ≡ Some other → packets_in file ≡ Ok ps → packets_in other ≡ Ok qs
        → spec.FindsIn within sides.now.of_first sides.now.of_second channel file other ps qs result }
{
    let first = match sides.first.reopen() {
        Ok(input) => input,
        Err(error) => return Err(CompareFault::First(SideFault::Opening(error))),
    };
    let second = match sides.second.reopen() {
        Ok(input) => input,
        Err(error) => return Err(CompareFault::Second(SideFault::Opening(error))),
    };
    let asked = Asked {
        first: Choice {
            channel,
            selection: &sides.of_first,
        },
        second: Choice {
            channel,
            selection: &sides.of_second,
        },
        within,
    };
    compare_channel(alloc, first, second, &asked)
}

/// Compares a channel of which the recordings have so many messages, behind those that were compared.
fn add_channel<A: Reopen, B: Reopen>(
    alloc: Global,
    sides: &Sides<'_, A, B>,
    channel: u16,
    counts: (u64, u64),
    within: u64,
    compared: &mut Vec<Compared>,
) -> Result<(), CompareFault>
    ensures { (file other : List ℕ) (ps qs : List Found) → A.bytes sides.now.first.now ≡ Some file
        → B.bytes sides.now.second.now ≡ Some other → packets_in file ≡ Ok ps → packets_in other ≡ Ok qs
        → spec.AddsChannel within sides.now.of_first sides.now.of_second channel file other ps qs counts result
        compared.old.items compared.new.items }
{
    let (first, second) = counts;
    if first == 0 && second == 0 {
        return Ok(());
    }
    let difference = difference(alloc, sides, channel, within)?;
    compared.push(Compared {
        channel,
        first,
        second,
        difference,
    })?;
    Ok(())
}

/// Compares two recordings channel by channel, in the order of their numbers, each channel of which one of them has a
/// chosen message. Stamps are compared by their distance from the first chosen message of their channel; they, and the
/// gaps of replies, may be so many ticks of 0.1 µs apart. The first recording is judged, then the second: one that
/// can't be read is refused with its first fault, K1 to K5, N2 or F1 to F3. Each is read once, and once more for each
/// of these channels, up to its first difference, in memory for the largest packet of messages or of time.
pub fn compare<A: Reopen, B: Reopen>(
    alloc: Global,
    sides: &Sides<'_, A, B>,
    within: u64,
) -> Result<Vec<Compared>, CompareFault>
    ensures { (file other : List ℕ) → A.bytes sides.now.first.now ≡ Some file
        → B.bytes sides.now.second.now ≡ Some other
        → spec.ComparesFiles within sides.now.of_first sides.now.of_second file other result }
{
    let firsts = match count(alloc, sides.first, &sides.of_first) {
        Ok(counts) => counts,
        Err(fault) => return Err(CompareFault::First(fault)),
    };
    let seconds = match count(alloc, sides.second, &sides.of_second) {
        Ok(counts) => counts,
        Err(fault) => return Err(CompareFault::Second(fault)),
    };
    compare_counted(alloc, sides, firsts.as_slice(), seconds.as_slice(), within)
}

/// The same, where the recordings have so many messages of each channel.
fn compare_counted<A: Reopen, B: Reopen>(
    alloc: Global,
    sides: &Sides<'_, A, B>,
    firsts: &[u64],
    seconds: &[u64],
    within: u64,
) -> Result<Vec<Compared>, CompareFault>
    requires firsts { length firsts.now ≡ CHANNELS }
    requires seconds { length seconds.now ≡ CHANNELS }
    ensures { (file other : List ℕ) (ps qs : List Found) → A.bytes sides.now.first.now ≡ Some file
        → B.bytes sides.now.second.now ≡ Some other → packets_in file ≡ Ok ps → packets_in other ≡ Ok qs
        → AreCounts sides.now.of_first ps firsts.now → AreCounts sides.now.of_second qs seconds.now
        → spec.ComparesCounted within sides.now.of_first sides.now.of_second file other ps qs result }
{
    let mut compared = Vec::new(alloc);
    'channels: for place in 0..CHANNELS {
        let counts = (firsts[place], seconds[place]);
        add_channel(alloc, sides, place as u16, counts, within, &mut compared)?;
    }
    Ok(compared)
}
