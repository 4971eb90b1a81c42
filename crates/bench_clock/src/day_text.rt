//! Times of day as text.
ghost use Rattle.bench_clock.specs.Time.{time_of};
ghost use Rattle.bench_clock.specs.TimeText as spec;
ghost use Rattle.std.specs.Prelude.{◌≡◌};

use crate::time::TimeOfDay;

/// The text of a time of day.
#[derive(Clone, Copy, Debug)]
pub enum TimeText {
    /// As `UtcTime::text` gives it.
    Utc([u8; 27]),
    /// As `YearTime::text` gives it.
    OfYear([u8; 20]),
}

impl TimeText {
    /// Its bytes.
    pub fn as_bytes(&self) -> &[u8]
        ensures { result.now ≡ spec.written self.now }
    {
        match self {
            TimeText::Utc(bytes) => bytes.as_slice(),
            TimeText::OfYear(bytes) => bytes.as_slice(),
        }
    }
}

impl TimeOfDay {
    /// The time as text. No memory is taken.
    pub fn text(&self) -> TimeText
        ensures { spec.written result ≡ spec.text_of (time_of self.now) }
    {
        match self {
            TimeOfDay::Utc(time) => TimeText::Utc(time.text()),
            TimeOfDay::OfYear(time) => TimeText::OfYear(time.text()),
        }
    }
}
