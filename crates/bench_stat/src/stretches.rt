//! Stretches of a channel's messages, in which no stamp falls.
ghost use Rattle.bench_stat.specs.Stretches as spec;
ghost use Rattle.ch11_layout.specs.Stamps.{Recorded};
ghost use Rattle.std.specs.Prelude.{◌≡◌, [], List};

use crate::counts::more;
use crate::flows::end_of;
use ch11_layout::View;

/// How often stamps fell in a channel, and the stretches between: the latest one, and how long those before it were.
/// Times are ticks of 0.1 µs, as far as 64 bits count.
#[derive(Clone, Copy, Debug, PartialEq, Eq)]
pub struct Stretches {
    /// How many stamps are lower than the one before.
    pub falls: u64,
    /// The span of the stretches before the latest one.
    pub past: u64,
    /// The latest stamp, 0 where there is no message.
    pub latest: u64,
    /// The least stamp of the latest stretch, 2^64 - 1 where there is none.
    pub begin: u64,
    /// The greatest end of a message of the latest stretch, 0 where there is none.
    pub end: u64,
}

impl Stretches {
    /// Those of no messages.
    pub fn none() -> Stretches
        ensures { result ≡ spec.stretches_of [] }
    {
        Stretches {
            falls: 0,
            past: 0,
            latest: 0,
            begin: u64::MAX,
            end: 0,
        }
    }

    /// The time that all stretches take.
    fn taken(&self) -> u64
        ensures { result ≡ spec.kept_span self.now }
    {
        more(self.past, self.end.saturating_sub(self.begin))
    }

    /// The span of all stretches, in ticks.
    pub fn span(&self) -> u64
        ensures value { result ≡ spec.kept_span self.now }
        ensures span { (history : List Recorded) → self.now ≡ spec.stretches_of history → result ≡ spec.span history }
    {
        self.taken()
    }

    /// The latest stretch has ended.
    fn fall(&mut self)
        ensures { self.new ≡ spec.with_fall self.old }
    {
        self.falls = more(self.falls, 1);
        self.past = self.taken();
        self.begin = u64::MAX;
        self.end = 0;
    }

    /// One more message of the latest stretch.
    fn go_on(&mut self, view: &View<'_>)
        ensures { self.new ≡ spec.with_stamp view.now self.old }
    {
        self.latest = view.stamp();
        self.begin = view.stamp().min(self.begin);
        self.end = end_of(view).max(self.end);
    }

    /// One more message.
    pub(crate) fn note(&mut self, view: &View<'_>)
        ensures { self.new ≡ spec.with_stretch view.now self.old }
    {
        if view.stamp() < self.latest {
            self.fall();
        }
        self.go_on(view);
    }
}
