//! The marks of what is sound of a recording that may be damaged.
ghost use Rattle.bench_clock.specs.Clock.{has_time_packets, marks_of};
ghost use Rattle.bench_clock.specs.Rising.{IsRising};
ghost use Rattle.bench_clock.specs.Sound as spec;
ghost use Rattle.ch11_reader.specs.Listing.{listing};
ghost use Rattle.ch11_reader.specs.Skipping.{packets_read};
ghost use Rattle.ch11_stream.specs.Feeding.{IsOther};
ghost use Rattle.std.specs.Prelude.{◌≡◌, ◌++◌, ℕ, List, Some, IfOk, IfErr, OnOk};

use crate::streaming::TimePackets;
use ch11_stream::{StreamFault, Stretch, Stretches};
use std::alloc::{AllocError, Global};
use std::io::Read;

/// Notes what the stretch that was read last tells, and answers the last counter behind it.
fn note_stretch<R: Read>(
    found: &mut TimePackets,
    named: Option<u16>,
    last: Option<u64>,
    stretches: &Stretches<R>,
    stretch: &Stretch,
) -> Result<Option<u64>, AllocError>
    ensures marks { OnOk result (found.new.marks.items
        ≡ found.old.marks.items ++ spec.marks_of named last stretch.now stretches.now.kept) }
    ensures last { IfOk result (λ l. l ≡ spec.last_of named last stretch.now stretches.now.kept) }
    ensures any { OnOk result (found.new.any ≡ spec.or_time found.old.any named stretch.now) }
{
    match stretch {
        Stretch::Sound(packet) => found.note(named, last, &packet.header, stretches.bytes()),
        Stretch::Skipped(_) => Ok(last),
    }
}

/// The time packets of the channel that is named among the sound packets of all bytes that a reader has left.
pub(crate) fn read_sound_marks<R: Read + Drop>(
    alloc: Global,
    input: R,
    named: Option<u16>,
) -> Result<TimePackets, StreamFault>
    ensures rising { IfOk result (λ t. IsRising t.marks.items) }
    ensures found { (file : List ℕ) → R.remaining input ≡ Some file
        → IfOk result (λ t. t.marks.items ≡ marks_of named file (listing (packets_read file))) }
    ensures any { (file : List ℕ) → R.remaining input ≡ Some file
        → IfOk result (λ t. t.any ≡ has_time_packets named (listing (packets_read file))) }
    ensures failed { IfErr result IsOther }
{
    let mut stretches = Stretches::over(alloc, input)?;
    let marks = Vec::new(alloc);
    let mut found = TimePackets { marks, any: false };
    let mut last = None;
    'stretches: for _made in 0..u64::MAX {
        match stretches.next() {
            Ok(Some(stretch)) => last = note_stretch(
                &mut found, named, last, &stretches, &stretch,
            )?,
            Ok(None) => return Ok(found),
            Err(fault) => return Err(fault),
        }
    }
    Err(StreamFault::Device)
}
