//! The time of day at the stamps of a recording.
ghost use Rattle.bench_clock.specs.Clock as spec;
ghost use Rattle.bench_clock.specs.Rising.{IsRising};
ghost use Rattle.bench_clock.specs.Time.{time_of};
ghost use Rattle.ch11_reader.specs.Listing.{listing};
ghost use Rattle.ch11_reader.specs.Skipping.{packets_read};
ghost use Rattle.ch11_stream.specs.Feeding.{IsOther};
ghost use Rattle.ch11_stream.specs.Folding.{FoldsPackets};
ghost use Rattle.std.specs.Prelude.{◌≡◌, ◌&&◌, ℕ, [], List, Some, false, IfOk, IfErr, option_map};

use crate::passing::{time_behind, utc_at};
use crate::ruling::place_of;
use crate::sound::read_sound_marks;
use crate::streaming::{TimePackets, read_marks};
use crate::time::TimeOfDay;
use crate::told::PacketTime;
use ch11_layout::StampKind;
use ch11_stream::{Advance, StreamFault};
use std::alloc::Global;
use std::io::Read;
use std::marker::Model;

/// A time packet that counts: its relative time counter in ticks of 0.1 µs, and the time at it.
#[derive(Clone, Copy, Debug)]
pub struct Mark {
    pub counter: u64,
    pub time: PacketTime,
}

/// The time packets of a recording, which tell the time of day at its stamps.
#[derive(Drop)]
pub struct Clock {
    marks: Vec<Mark>,
}

impl Model for Clock {
    ghost use Rattle.bench_clock.specs.Rising.{IsRising};
    ghost use Rattle.bench_clock.specs.declared.clock.Mark.{Mark};
    ghost use Rattle.std.specs.Prelude.{List};

    ghost Value = { List Mark };

    ghost view = { λ c. c.marks.items };

    ghost invariant = { λ c. IsRising c.marks.items };
}

/// The clock of a recording that was read for its times of day.
#[derive(Drop)]
pub struct ReadClock {
    pub clock: Clock,
    /// Whether the recording has packets of type 11 of which none can be read, so that it has no time of day.
    pub unread: bool,
}

impl Clock {
    /// The clock of a recording without time packets, by which no stamp has a time of day.
    pub fn unset(alloc: Global) -> Clock
        ensures { result ≡ [] }
    {
        Clock {
            marks: Vec::new(alloc),
        }
    }

    /// Whether there is no time packet that counts, so that no stamp has a time of day.
    pub fn is_empty(&self) -> bool
        ensures { result ≡ spec.is_unset self.now }
    {
        self.marks.is_empty()
    }

    /// The time of day at a stamp in ticks of 0.1 µs: that of the last time packet at or before it, of either form, and
    /// what has passed since. None in front of the first time packet, and behind the year 9999; behind the end of a
    /// year that is not named begins the next.
    pub fn at(&self, stamp: u64) -> Option<TimeOfDay>
        ensures { option_map (λ t. time_of t) result ≡ spec.time_at self.now stamp }
    {
        let first = self.marks.first()?;
        if stamp < first.counter {
            return None;
        }
        let mark = self.marks[place_of(self.marks.as_slice(), stamp)];
        let passed = stamp - mark.counter;
        time_behind(mark.time, passed)
    }

    /// The time of day of a stamp of this kind in ticks of 0.1 µs: that at a counter's, and one that is a time of day
    /// itself, UTC as it stands. None for a kind that is not known.
    pub fn of_stamp(&self, kind: StampKind, ticks: u64) -> Option<TimeOfDay>
        ensures { option_map (λ t. time_of t) result ≡ spec.time_of_stamp self.now kind ticks }
    {
        match kind {
            StampKind::Counter => self.at(ticks),
            StampKind::TimeOfDay => utc_at(ticks),
            StampKind::Unknown => None,
        }
    }
}

impl ReadClock {
    /// That of a recording without time packets.
    pub fn unset(alloc: Global) -> ReadClock
        ensures clock { result.clock ≡ [] }
        ensures unread { result.unread ≡ false }
    {
        ReadClock {
            clock: Clock::unset(alloc),
            unread: false,
        }
    }
}

/// Whether both are so.
fn both(any: bool, unset: bool) -> bool
    ensures { result ≡ (any && unset) }
{
    any && unset
}

/// The clock of the time packets of a recording.
fn read_of(found: TimePackets) -> ReadClock
    requires { IsRising found.marks.items }
    ensures clock { result.clock ≡ found.marks.items }
    ensures unread { result.unread ≡ (found.any && spec.is_unset found.marks.items) }
{
    let TimePackets { marks, any } = found;
    let clock = Clock { marks };
    let unread = both(any, clock.is_empty());
    ReadClock { clock, unread }
}

/// The clock of all bytes that a reader has left, in one pass over their packets, in memory for the largest packet of
/// messages or of time, and 24 bytes for each time packet that counts. Time packets are packets of type 11, where a
/// channel is named of that channel alone, with a body that `read_time` reads; one whose counter is not above those of
/// all before it does not count. A recording that can't be read is refused with its first fault, K1 to K5, N2 or F1 to
/// F3; want of memory and the reader's failure are the others.
pub fn read_clock<R: Advance + Drop>(
    alloc: Global,
    input: R,
    named: Option<u16>,
) -> Result<ReadClock, StreamFault>
    ensures clock { (file : List ℕ) → R.remaining input ≡ Some file
        → FoldsPackets (λ ps r. r.clock ≡ spec.marks_of named file (listing ps)) result file }
    ensures unread { (file : List ℕ) → R.remaining input ≡ Some file
        → FoldsPackets (λ ps r. r.unread ≡ spec.is_unread_of named file (listing ps)) result file }
{
    Ok(read_of(read_marks(alloc, input, named)?))
}

/// The clock of what is sound of all bytes that a reader has left, where a channel is named of its time packets alone,
/// in one pass over their stretches, in memory for the largest packet of any type, and 24 bytes for each time packet
/// that counts. Nothing is refused: a fault is want of memory, or the reader's failure.
pub fn read_sound_clock<R: Read + Drop>(
    alloc: Global,
    input: R,
    named: Option<u16>,
) -> Result<ReadClock, StreamFault>
    ensures clock { (file : List ℕ) → R.remaining input ≡ Some file
        → IfOk result (λ r. r.clock ≡ spec.marks_of named file (listing (packets_read file))) }
    ensures unread { (file : List ℕ) → R.remaining input ≡ Some file
        → IfOk result (λ r. r.unread ≡ spec.is_unread_of named file (listing (packets_read file))) }
    ensures failed { IfErr result IsOther }
{
    Ok(read_of(read_sound_marks(alloc, input, named)?))
}
