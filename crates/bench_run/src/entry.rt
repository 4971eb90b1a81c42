//! What goes through the trunk.

use ch11_f1::Record;
use mil_trunk::Tagged;

/// What a channel offers, by the index of its job.
#[derive(Debug, Drop)]
pub enum Entry {
    /// A message: its number, from 1, and what the bus monitor kept of it.
    Message {
        index: u8,
        number: u32,
        record: Record,
    },

    /// The end mark: no message follows.
    End {
        index: u8,
    },
}

impl Tagged for Entry {
    ghost use Rattle.bench_run.specs.Entries.{index_of};

    ghost tag_of = { index_of };

    fn tag(&self) -> u8 {
        match self {
            Entry::Message { index, .. } => *index,
            Entry::End { index } => *index,
        }
    }
}
