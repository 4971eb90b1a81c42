//! Messages, words and times of a channel.
ghost use Rattle.ch11_reader.specs.Contents.{capped};
ghost use Rattle.bench_stat.specs.Figures as spec;
ghost use Rattle.bench_stat.specs.Figures.{traffic_of, duration, load};
ghost use Rattle.bench_stat.specs.Steps.{with_traffic};
ghost use Rattle.bench_stat.specs.ChannelText as text;
ghost use Rattle.bench_stat.specs.RowText as rows;
ghost use Rattle.bench_stat.specs.Stretches.{kept_span, span};
ghost use Rattle.ch11_layout.specs.Stamps.{Recorded};
ghost use Rattle.std.specs.Prelude.{◌≡◌, ◌∷◌, [], List};

use crate::counts::more;
use crate::stretches::Stretches;
use ch11_layout::{StampKind, View};
use mil_word::timing::{CONTIGUOUS_GAP, WORD_TIME};

/// How much a channel carried, and when. Counts and times go as far as 64 bits count; times are ticks of 0.1 µs.
#[derive(Clone, Copy, Debug, PartialEq, Eq)]
pub struct Traffic {
    /// How many messages.
    pub messages: u64,
    /// How many bus words.
    pub words: u64,
    /// How long the bus was busy: 200 ticks a word, and what lies between the words of a message.
    pub busy: u64,
    /// What their stamps are, unknown where they are of more than one kind; None where there is no message.
    pub stamps: Option<StampKind>,
    /// The least stamp, 2^64 - 1 where there is no message.
    pub begin: u64,
    /// The greatest stamp, 0 where there is no message.
    pub last: u64,
    /// The greatest end of a message, 0 where there is none.
    pub end: u64,
    /// The stretches in which no stamp falls.
    pub stretches: Stretches,
}

impl Traffic {
    /// The traffic of a channel without messages.
    pub fn none() -> Traffic
        ensures { result ≡ traffic_of [] }
    {
        Traffic {
            messages: 0,
            words: 0,
            busy: 0,
            stamps: None,
            begin: u64::MAX,
            last: 0,
            end: 0,
            stretches: Stretches::none(),
        }
    }

    /// The time from the first message's first word to the last message's end, in ticks; where stamps fall, the sum of
    /// the spans of the stretches between.
    pub fn span(&self) -> u64
        ensures value { result ≡ kept_span self.now.stretches }
        ensures span { (history : List Recorded) → self.now ≡ traffic_of history → result ≡ span history }
    {
        self.stretches.span()
    }

    /// The share of the span in which the bus was busy, in hundredths of a per cent; None where there is no span.
    pub fn load(&self) -> Option<u64>
        ensures value { result ≡ text.load_of self.now }
        ensures load { (history : List Recorded) → self.now ≡ traffic_of history → result ≡ load history }
    {
        share_of(self.busy, self.span())
    }

    /// Whether the times of its messages are known, which then are all told by one clock.
    pub fn has_times(&self) -> bool
        ensures { result ≡ text.has_times self.now }
    {
        !matches!(self.stamps, Some(StampKind::Unknown))
    }

    /// The span where times are known.
    pub(crate) fn known_span(&self) -> Option<u64>
        ensures { result ≡ text.known_span self.now }
    {
        if self.has_times() {
            Some(self.span())
        } else {
            None
        }
    }

    /// The load where times are known.
    pub(crate) fn known_load(&self) -> Option<u64>
        ensures { result ≡ text.known_load self.now }
    {
        if self.has_times() { self.load() } else { None }
    }

    /// Whether its load over time is told: it has a span, and no stamp falls, so that the slices are times of the bus.
    pub(crate) fn has_slices(&self) -> bool
        ensures { result ≡ rows.has_slices self.now }
    {
        self.has_times() && self.stretches.falls == 0 && self.span() > 0
    }

    /// One more message.
    pub(crate) fn note(&mut self, view: &View<'_>)
        ensures { (history : List Recorded) → self.old ≡ traffic_of history
            → self.new ≡ traffic_of (view.now ∷ history) }
    {
        self.count(view);
    }

    fn count(&mut self, view: &View<'_>)
        ensures { self.new ≡ with_traffic view.now self.old }
    {
        let words = view.word_count() as u64;
        let time = time_of(view);
        self.messages = more(self.messages, 1);
        self.words = more(self.words, words);
        self.busy = more(self.busy, time);
        self.stamps = Some(joined(self.stamps, view.kind()));
        self.begin = view.stamp().min(self.begin);
        self.last = view.stamp().max(self.last);
        self.end = more(view.stamp(), time).max(self.end);
        self.stretches.note(view);
    }
}

/// What stamps are with one more of this kind.
fn joined(so_far: Option<StampKind>, kind: StampKind) -> StampKind
    ensures { result ≡ spec.joined so_far kind }
{
    match (so_far, kind) {
        (None, kind) => kind,
        (Some(StampKind::Counter), StampKind::Counter) => StampKind::Counter,
        (Some(StampKind::TimeOfDay), StampKind::TimeOfDay) => StampKind::TimeOfDay,
        (Some(_), _) => StampKind::Unknown,
    }
}

/// The share of a time in which the bus was busy, in hundredths of a per cent, rounded down; None of no time.
pub(crate) fn share_of(busy: u64, time: u64) -> Option<u64>
    ensures { result ≡ spec.share_of busy time }
{
    if time == 0 {
        return None;
    }
    let share = u128::from(busy) * 10_000 / u128::from(time);
    if share > u128::from(u64::MAX) {
        return Some(u64::MAX);
    }
    Some(share as u64)
}

/// How long a message takes, in ticks, as far as 64 bits count.
pub(crate) fn time_of(view: &View<'_>) -> u64
    ensures { result ≡ capped (duration view.now) }
{
    let (first, second) = (view.first_gap(), view.second_gap());
    let pauses = u64::from(u16::from(first).saturating_sub(CONTIGUOUS_GAP))
        + u64::from(u16::from(second).saturating_sub(CONTIGUOUS_GAP));
    let words = view.word_count() as u64;
    more(words.saturating_mul(u64::from(WORD_TIME)), pauses)
}
