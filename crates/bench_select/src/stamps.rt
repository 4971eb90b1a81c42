//! What the time stamps of a recording are, channel by channel.
ghost use Rattle.bench_select.specs.Stamps as spec;
ghost use Rattle.bench_select.specs.Stamps.{AreStamps, IsBegun, IsMarked};
ghost use Rattle.ch11_reader.specs.Recording.{Found};
ghost use Rattle.ch11_stream.specs.Folding.{FoldsPackets};
ghost use Rattle.std.specs.Prelude.{◌≡◌, ◌<◌, ◌++◌, ◌∷◌, [], ℕ, List, None, Some, false, slice_index_or};
ghost use Rattle.std.specs.Prelude.{OnOk, vec_len};

use ch11_f1::Messages;
use ch11_header::Header;
use ch11_layout::StampKind;
use ch11_stream::{Advance, Packets, StreamFault};
use std::alloc::{AllocError, Global};

/// What the time stamps of a recording are.
#[derive(Drop)]
pub struct Stamps {
    /// The first time of day of each channel, in ticks of 0.1 µs behind 1970-01-01T00:00:00; None for one whose stamps
    /// are no times of day, and nothing above the highest channel that has one.
    pub origins: Vec<Option<u64>>,
    /// A mark for each channel that has messages of which no time is known; nothing above the highest of these.
    pub unknown: Vec<bool>,
}

impl Stamps {
    /// Those of no packet.
    fn none(alloc: Global) -> Stamps
        ensures { AreStamps [] result }
    {
        let origins = Vec::new(alloc);
        let unknown = Vec::new(alloc);
        Stamps { origins, unknown }
    }

    /// Those with the messages of one more packet, which has this header.
    fn note(&mut self, header: &Header, messages: Messages<'_>) -> Result<(), AllocError>
        ensures { (ps : List Found) (q : Found) → AreStamps ps self.old → q.header ≡ header.now
            → q.messages ≡ messages.entry → OnOk result (AreStamps (ps ++ q ∷ []) self.new) }
    {
        let kind = StampKind::of(header);
        let first = first_stamp(messages);
        begin_at(&mut self.origins, header.channel, ticks_of_day(kind, first))?;
        mark_if(&mut self.unknown, header.channel, is_unknown(kind, first))?;
        Ok(())
    }
}

/// The stamp of the first of messages, its eight bytes as a number.
fn first_stamp(messages: Messages<'_>) -> Option<u64>
    ensures { result ≡ spec.first_stamp messages.entry }
{
    let mut rest = messages;
    match rest.next() {
        Some(seen) => Some(seen.stamp),
        None => None,
    }
}

/// The time of day of a first stamp, where stamps are times of day.
fn ticks_of_day(kind: StampKind, first: Option<u64>) -> Option<u64>
    ensures { result ≡ spec.ticks_if kind first }
{
    match (kind, first) {
        (StampKind::TimeOfDay, Some(number)) => Some(kind.ticks(number)),
        _ => None,
    }
}

/// Whether a first stamp is one of which no time is known.
fn is_unknown(kind: StampKind, first: Option<u64>) -> bool
    ensures { result ≡ spec.unknown_if kind first }
{
    match (kind, first) {
        (StampKind::Unknown, Some(_)) => true,
        _ => false,
    }
}

/// Makes a place for a channel, and for each below it, where there is none: there is no time of day in those that are
/// new.
fn make_origin(origins: &mut Vec<Option<u64>>, channel: u16) -> Result<(), AllocError>
    ensures place { OnOk result (channel < vec_len origins.new) }
    ensures same { (k : ℕ) → slice_index_or origins.new.items k None ≡ slice_index_or origins.old.items k None }
{
    let place = usize::from(channel);
    if place < origins.len() {
        return Ok(());
    }
    origins.resize(place + 1, None)
}

/// The channel, which has a place, begins at a time of day, if there is one, unless it has begun.
fn put_origin(origins: &mut Vec<Option<u64>>, channel: u16, ticks: Option<u64>)
    requires { channel < vec_len origins.old }
    ensures { origins.new.items ≡ spec.begun channel ticks origins.old.items }
{
    let place = usize::from(channel);
    origins[place] = first_or(origins[place], ticks);
}

/// The channel begins at a time of day, if there is one, unless it has begun.
fn begin_at(
    origins: &mut Vec<Option<u64>>,
    channel: u16,
    ticks: Option<u64>,
) -> Result<(), AllocError>
    ensures { OnOk result (IsBegun channel ticks origins.old.items origins.new.items) }
{
    match ticks {
        None => Ok(()),
        Some(_) => {
            make_origin(origins, channel)?;
            put_origin(origins, channel, ticks);
            Ok(())
        }
    }
}

/// What there is before, or else these ticks.
fn first_or(before: Option<u64>, ticks: Option<u64>) -> Option<u64>
    ensures { result ≡ spec.first_or before ticks }
{
    match before {
        None => ticks,
        Some(first) => Some(first),
    }
}

/// Makes a place for a channel, and for each below it, where there is none: those that are new are not marked.
fn make_mark(marks: &mut Vec<bool>, channel: u16) -> Result<(), AllocError>
    ensures place { OnOk result (channel < vec_len marks.new) }
    ensures same { (k : ℕ) → slice_index_or marks.new.items k false ≡ slice_index_or marks.old.items k false }
{
    let place = usize::from(channel);
    if place < marks.len() {
        return Ok(());
    }
    marks.resize(place + 1, false)
}

/// The channel, which has a place, is marked, if its times are not known, or if it was.
fn put_mark(marks: &mut Vec<bool>, channel: u16, unknown: bool)
    requires { channel < vec_len marks.old }
    ensures { marks.new.items ≡ spec.marked channel unknown marks.old.items }
{
    let place = usize::from(channel);
    marks[place] = marks[place] || unknown;
}

/// The channel is marked, if its times are not known, or if it was.
fn mark_if(marks: &mut Vec<bool>, channel: u16, unknown: bool) -> Result<(), AllocError>
    ensures { OnOk result (IsMarked channel unknown marks.old.items marks.new.items) }
{
    if !unknown {
        return Ok(());
    }
    make_mark(marks, channel)?;
    put_mark(marks, channel, unknown);
    Ok(())
}

/// What the time stamps are of all bytes that a reader has left, in one pass over their packets, in memory for the
/// largest packet of messages or of time. A recording that can't be read is refused with its first fault, K1 to K5, N2
/// or F1 to F3; want of memory and the reader's failure are the others.
pub fn read_stamps<R: Advance + Drop>(alloc: Global, input: R) -> Result<Stamps, StreamFault>
    ensures { (file : List ℕ) → R.remaining input ≡ Some file → FoldsPackets AreStamps result file }
{
    let mut packets = Packets::over(alloc, input)?;
    let mut stamps = Stamps::none(alloc);
    'packets: for _made in 0..u64::MAX {
        match packets.next() {
            Ok(Some(packet)) => stamps.note(&packet.header, packets.messages())?,
            Ok(None) => return Ok(stamps),
            Err(fault) => return Err(fault),
        }
    }
    Err(StreamFault::Device)
}
