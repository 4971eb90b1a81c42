//! The record of a finished talk.
ghost use Rattle.mil_bus.specs.BlockStatus.{block_of};
ghost use Rattle.mil_bus.specs.Counts.{seen_of};
ghost use Rattle.mil_monitor.specs.Observed.{observed, gap_half};
ghost use Rattle.std.specs.Prelude.{◌≡◌, ◌<◌};

use ch11_f1::Record;
use mil_bus::{Came, Talk, TalkCounts};

/// The gap of a reply as a record has it, in ticks: 0 where it did not come, 255 where it is more.
fn gap_half(came: Option<Came>) -> u16
    ensures value { result ≡ gap_half came }
    ensures small { result < 256 }
{
    match came {
        None => 0,
        Some(came) => came.gap.ticks().min(255),
    }
}

/// The record that a bus monitor keeps of a talk. It takes no memory.
pub fn observe(talk: &Talk) -> Record
    ensures { result ≡ observed talk.now }
{
    observe_by(talk, &talk.seen())
}

/// The same, from what is seen of the talk.
pub(crate) fn observe_by(talk: &Talk, seen: &TalkCounts) -> Record
    requires seen { seen.now ≡ seen_of talk.now.message talk.now.sent.items }
    ensures { result ≡ observed talk.now }
{
    observe_with(talk, seen, talk.block(seen))
}

/// The same, from what is seen of the talk and its block status word.
pub fn observe_with(talk: &Talk, seen: &TalkCounts, block: u16) -> Record
    requires seen { seen.now ≡ seen_of talk.now.message talk.now.sent.items }
    requires block { block ≡ block_of talk.now.line talk.now.message seen.now }
    ensures { result ≡ observed talk.now }
{
    Record {
        stamp: talk.start,
        block,
        gaps: gap_half(seen.two) * 256 + gap_half(seen.one),
        words: talk.sent.raw_bits(),
    }
}
