//! Times of day of a recording: the bodies of time packets, written and read, and the time of day at a stamp.
//!
//! It may know: headers, layouts, the reader, the packets of a stream; the kit's `jiff_core` for dates. Its tests:
//! `ch11_tests`, and those of `read_clock` `ch11_stream_tests`. Its wrong bodies: `edits/`.
#![tactic(auto)]

mod bcd;
mod body;
mod clock;
mod day_text;
mod marks;
mod passing;
mod reading;
mod ruling;
mod sound;
mod streaming;
mod time;
mod told;
mod utc_text;
mod year_reading;
mod year_text;

pub use body::body_of;
pub use clock::{Clock, Mark, ReadClock, read_clock, read_sound_clock};
pub use day_text::TimeText;
pub use time::{TimeOfDay, UtcTime, YearTime};
pub use told::{PacketTime, is_time_body, read_time};
