//! The times of day of a channel.
ghost use Rattle.bench_clock.specs.Time.{time_of};
ghost use Rattle.bench_stat.specs.Figures.{traffic_of};
ghost use Rattle.bench_stat.specs.Times.{AreTimes, between, between_of, time_by_stamps};
ghost use Rattle.ch11_layout.specs.Stamps.{Recorded};
ghost use Rattle.std.specs.Prelude.{◌≡◌, List, option_map};

use crate::traffic::Traffic;
use bench_clock::{Clock, TimeOfDay};
use ch11_layout::StampKind;

/// The times of day of the first and the last message of a channel, by its stamp; none where neither the stamps nor the
/// recording's time packets tell them, or there is no message.
#[derive(Clone, Copy, Debug)]
pub struct Times {
    /// That at the least stamp.
    pub first: Option<TimeOfDay>,
    /// That at the greatest stamp.
    pub last: Option<TimeOfDay>,
}

impl Times {
    /// Those of a channel by the recording's clock.
    pub fn of(clock: &Clock, traffic: &Traffic) -> Times
        ensures value { between_of result ≡ between clock.now traffic.now }
        ensures times { (history : List Recorded) → traffic.now ≡ traffic_of history
            → AreTimes clock.now history result }
    {
        Times {
            first: time_by(clock, traffic.stamps, traffic.begin),
            last: time_by(clock, traffic.stamps, traffic.last),
        }
    }
}

/// The time of day of a stamp, by what the stamps of all messages are.
fn time_by(clock: &Clock, stamps: Option<StampKind>, ticks: u64) -> Option<TimeOfDay>
    ensures { option_map (λ t. time_of t) result ≡ time_by_stamps clock.now stamps ticks }
{
    match stamps {
        None => None,
        Some(kind) => clock.of_stamp(kind, ticks),
    }
}
