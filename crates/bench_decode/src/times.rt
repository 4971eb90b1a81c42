//! Times.
ghost use Rattle.bench_decode.specs.Times.{seconds_of, ticks_of};
ghost use Rattle.std.specs.Prelude.{◌≡◌, ◌<◌};

/// How many ticks of 0.1 µs a second has.
pub(crate) const SECOND: u64 = 10_000_000;

/// A time in seconds, and in ticks of 0.1 µs behind the last whole one.
#[derive(Clone, Copy, Debug, PartialEq, Eq)]
pub struct Time {
    pub seconds: u64,
    pub ticks: u64,
}

impl Time {
    /// The time of a stamp in ticks.
    pub fn of(stamp: u64) -> Time
        ensures seconds { result.seconds ≡ seconds_of stamp }
        ensures ticks { result.ticks ≡ ticks_of stamp }
        ensures below { result.ticks < SECOND }
    {
        Time {
            seconds: stamp / SECOND,
            ticks: stamp % SECOND,
        }
    }
}
