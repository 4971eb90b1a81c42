//! Status words by their bits.
ghost use Rattle.bench_stat.specs.Replies as spec;
ghost use Rattle.ch11_layout.specs.Stamps.{Recorded};
ghost use Rattle.std.specs.Prelude.{◌≡◌, ◌∷◌, [], List};

use crate::counts::{counted, more};
use ch11_layout::{View, is_set};
use mil_word::Status;

/// How many status words came, and in how many of them each bit was set (MIL-STD-1553B 4.3.3.5.3). Counts go as far as
/// 64 bits count.
#[derive(Clone, Copy, Debug, Default, PartialEq, Eq)]
pub struct Replies {
    /// Status words.
    pub words: u64,
    /// Message error, bit 10.
    pub message_error: u64,
    /// Instrumentation, bit 9.
    pub instrumentation: u64,
    /// Service request, bit 8.
    pub service_request: u64,
    /// A reserved bit, 7 to 5.
    pub reserved: u64,
    /// Broadcast command received, bit 4.
    pub broadcast: u64,
    /// Busy, bit 3.
    pub busy: u64,
    /// Subsystem flag, bit 2.
    pub subsystem: u64,
    /// Dynamic bus control acceptance, bit 1.
    pub control: u64,
    /// Terminal flag, bit 0.
    pub terminal: u64,
}

impl Replies {
    /// No status words.
    pub fn none() -> Replies
        ensures { result ≡ spec.replies_of [] }
    {
        Replies::default()
    }

    /// The counts of the bits, each with its name as a script and a rule have it.
    pub fn bits(&self) -> [(&'static str, u64); 9] {
        [
            ("message_error", self.message_error),
            ("instrumentation", self.instrumentation),
            ("service_request", self.service_request),
            ("reserved", self.reserved),
            ("broadcast", self.broadcast),
            ("busy", self.busy),
            ("subsystem", self.subsystem),
            ("control", self.control),
            ("terminal", self.terminal),
        ]
    }

    /// One more status word.
    fn note_status(&mut self, status: u16)
        ensures { self.new ≡ spec.with_status status self.old }
    {
        let word = Status::of(status);
        self.words = more(self.words, 1);
        self.message_error = counted(self.message_error, word.has_message_error());
        self.instrumentation = counted(self.instrumentation, word.has_instrumentation());
        self.service_request = counted(self.service_request, word.has_service_request());
        self.reserved = counted(self.reserved, has_reserved(status));
        self.broadcast = counted(self.broadcast, word.has_broadcast_received());
        self.busy = counted(self.busy, word.has_busy());
        self.subsystem = counted(self.subsystem, word.has_subsystem_flag());
        self.control = counted(self.control, word.has_control_acceptance());
        self.terminal = counted(self.terminal, word.has_terminal_flag());
    }

    /// A status word, where there is one at a place before another.
    fn note_at(&mut self, view: &View<'_>, place: usize, end: usize)
        ensures { self.new ≡ spec.with_statuses (spec.word_before view.now place end) self.old }
    {
        if place < end {
            self.note_status(view.word(place));
        }
    }

    /// One more message.
    pub fn note(&mut self, view: &View<'_>)
        ensures { (history : List Recorded) → self.old ≡ spec.replies_of history
            → self.new ≡ spec.replies_of (view.now ∷ history) }
    {
        let layout = view.layout();
        self.note_at(view, layout.commands, layout.data_start);
        self.note_at(view, layout.data_end, layout.words);
    }
}

fn has_reserved(status: u16) -> bool
    ensures { result ≡ spec.has_reserved status }
{
    is_set(status, 7) || is_set(status, 6) || is_set(status, 5)
}
