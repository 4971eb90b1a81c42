//! What has passed since a time packet.
ghost use Rattle.bench_clock.specs.Clock as spec;
ghost use Rattle.bench_clock.specs.Rising.{IsWithin};
ghost use Rattle.bench_clock.specs.Time.{in_utc, time_of};
ghost use Rattle.bench_clock.specs.TimeBody.{year_seconds};
ghost use Rattle.std.specs.Prelude.{◌≡◌, ◌+◌, ◌*◌, ◌%◌, ◌<◌, IfSome, option_map};

use crate::time::{TimeOfDay, UtcTime, YearTime};
use crate::told::PacketTime;

/// The end of the year 9999, in ticks behind 1970-01-01T00:00:00.
const END: u64 = 2_534_023_008_000_000_000;

/// The ticks of a year of 365 days.
const YEAR: u64 = 315_360_000_000_000;

/// The ticks of a year of 366 days.
const LEAP_YEAR: u64 = 316_224_000_000_000;

/// The UTC time so many ticks behind another; none behind the year 9999.
fn utc_behind(start: u64, passed: u64) -> Option<u64>
    ensures ticks { result ≡ spec.within_years (start + passed) }
    ensures within { IfSome result (λ t. t < 2534023008000000000) }
{
    let ticks = start.saturating_add(passed);
    if ticks < END { Some(ticks) } else { None }
}

/// The UTC time so many ticks behind 1970-01-01T00:00:00; none behind the year 9999.
pub(crate) fn utc_at(ticks: u64) -> Option<TimeOfDay>
    ensures { option_map (λ t. time_of t) result ≡ option_map (λ t. in_utc t) (spec.within_years ticks) }
{
    if ticks < END {
        Some(TimeOfDay::Utc(UtcTime { ticks }))
    } else {
        None
    }
}

/// The time of a year of 365 days so many ticks behind another: behind its last day comes the first again.
fn in_short_year(start: u64, passed: u64) -> u64
    requires { start < 315360000000000 }
    ensures ticks { result ≡ (start + passed) % 315360000000000 }
    ensures within { result < 316224000000000 }
{
    (start + passed % YEAR) % YEAR
}

/// The same of a year of 366 days.
fn in_leap_year(start: u64, passed: u64) -> u64
    requires { start < 316224000000000 }
    ensures ticks { result ≡ (start + passed) % 316224000000000 }
    ensures within { result < 316224000000000 }
{
    (start + passed % LEAP_YEAR) % LEAP_YEAR
}

/// The same of a year that is a leap year or not.
fn in_year(leap: bool, start: u64, passed: u64) -> u64
    requires { start < year_seconds leap * 10000000 }
    ensures ticks { result ≡ (start + passed) % (year_seconds leap * 10000000) }
    ensures within { result < 316224000000000 }
{
    if leap {
        in_leap_year(start, passed)
    } else {
        in_short_year(start, passed)
    }
}

/// The time so many ticks behind that of a time packet; none behind the year 9999.
pub(crate) fn time_behind(time: PacketTime, passed: u64) -> Option<TimeOfDay>
    requires { IsWithin time }
    ensures { option_map (λ t. time_of t) result ≡ spec.time_behind time passed }
{
    match time {
        PacketTime::Utc(start) => {
            let ticks = utc_behind(start, passed)?;
            Some(TimeOfDay::Utc(UtcTime { ticks }))
        }
        PacketTime::OfYear { leap, ticks } => {
            let ticks = in_year(leap, ticks, passed);
            Some(TimeOfDay::OfYear(YearTime { ticks }))
        }
    }
}
