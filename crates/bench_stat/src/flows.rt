//! How messages follow one another.
ghost use Rattle.bench_stat.specs.Flows as spec;
ghost use Rattle.ch11_layout.specs.Stamps.{Recorded};
ghost use Rattle.std.specs.Prelude.{◌≡◌, ◌∷◌, [], List};

use crate::counts::{counted, more};
use crate::traffic::time_of;
use ch11_layout::View;
use mil_word::timing::CONTIGUOUS_GAP;

/// Messages that follow one another, such as those of a channel, or those with a terminal and a subaddress. Counts and
/// times go as far as 64 bits count; times are ticks of 0.1 µs.
#[derive(Clone, Copy, Debug, PartialEq, Eq)]
pub struct Flow {
    /// How many messages.
    pub messages: u64,
    /// How many of them had an error: block status bit 12; of a terminal and a subaddress, one that belongs to the
    /// terminal.
    pub errors: u64,
    /// The stamp of the latest message, 0 where there is none.
    pub begun: u64,
    /// The end of the latest message, where there is one.
    pub ended: Option<u64>,
    /// The least gap between a message and the next one, 2^64 - 1 where there is none. There is none where a stamp
    /// falls.
    pub least_gap: u64,
    /// The greatest gap, 0 where there is none. No gap is less than 20 ticks.
    pub greatest_gap: u64,
}

impl Flow {
    /// No messages.
    pub fn none() -> Flow
        ensures { result ≡ spec.flow_of [] }
    {
        Flow {
            messages: 0,
            errors: 0,
            begun: 0,
            ended: None,
            least_gap: u64::MAX,
            greatest_gap: 0,
        }
    }

    fn note_gap(&mut self, view: &View<'_>)
        ensures { self.new ≡ spec.with_gap self.old.ended view.now self.old }
    {
        if let Some(ended) = self.ended
            && view.stamp() >= self.begun
        {
            let gap = more(
                view.stamp().saturating_sub(ended),
                u64::from(CONTIGUOUS_GAP),
            );
            self.least_gap = gap.min(self.least_gap);
            self.greatest_gap = gap.max(self.greatest_gap);
        }
    }

    /// One more message, behind the others, which had this error.
    pub(crate) fn note_by(&mut self, view: &View<'_>, failed: bool)
        ensures { self.new ≡ spec.with_message_by failed view.now self.old }
    {
        self.note_gap(view);
        self.messages = more(self.messages, 1);
        self.errors = counted(self.errors, failed);
        self.begun = view.stamp();
        self.ended = Some(end_of(view));
    }

    fn note_message(&mut self, view: &View<'_>)
        ensures { self.new ≡ spec.with_message view.now self.old }
    {
        self.note_by(view, view.has_error());
    }

    /// One more message, behind the others.
    pub fn note(&mut self, view: &View<'_>)
        ensures new { self.new ≡ spec.with_message view.now self.old }
        ensures flow { (history : List Recorded) → self.old ≡ spec.flow_of history
            → self.new ≡ spec.flow_of (view.now ∷ history) }
    {
        self.note_message(view);
    }
}

/// The end of a message, in ticks, as far as 64 bits count.
pub(crate) fn end_of(view: &View<'_>) -> u64
    ensures { result ≡ spec.end_of view.now }
{
    more(view.stamp(), time_of(view))
}
