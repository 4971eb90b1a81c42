//! Times of day.
ghost use Rattle.std.specs.Prelude.{◌<◌};

/// How many ticks of 0.1 µs a second has.
pub(crate) const SECOND: u64 = 10_000_000;

/// A time of the years 1970 to 9999 in UTC, in ticks of 0.1 µs behind 1970-01-01T00:00:00.
#[derive(Clone, Copy, Debug)]
pub struct UtcTime {
    pub ticks: u64,
    pub ghost in_range: { ticks < 2534023008000000000 },
}

/// A time of a year that no packet names, in ticks of 0.1 µs behind its begin.
#[derive(Clone, Copy, Debug)]
pub struct YearTime {
    pub ticks: u64,
    pub ghost in_range: { ticks < 316224000000000 },
}

/// A time of day.
#[derive(Clone, Copy, Debug)]
pub enum TimeOfDay {
    /// With its date, in UTC.
    Utc(UtcTime),
    /// Of a year that no packet names.
    OfYear(YearTime),
}
