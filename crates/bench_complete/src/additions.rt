//! What is added to a recording.
ghost use Rattle.std.specs.Prelude.{◌<◌};

/// The most bytes that the text of a setup record may have.
pub(crate) const MOST_SETUP: usize = 524_000;

/// A second of the years 1970 to 2099 in UTC, counted from 1970-01-01T00:00:00.
#[derive(Clone, Copy, Debug)]
pub struct UtcSecond {
    pub second: u64,
    pub ghost in_range: { second < 4102444800 },
}

/// What is added to a recording to complete it.
#[derive(Clone, Copy, Debug)]
pub struct Additions<'a> {
    /// The text of the setup record, 1 to 524,000 bytes; no setup record without it.
    pub setup: Option<&'a [u8]>,
    /// The time at tick 0; no time packets without it.
    pub start: Option<UtcSecond>,
    /// The channel of the time packets, which has no packet in the recording.
    pub time_channel: u16,
    /// Whether time packets are added to a recording that has some already.
    pub second_time: bool,
    /// The data type version in the headers of what is added.
    pub version: u8,
}
