//! What the body of a time packet tells (IRIG 106-17 Chapter 11, time data packets, Format 1).
ghost use Rattle.bench_clock.specs.TimeBody as spec;
ghost use Rattle.std.specs.Prelude.{◌≡◌, ◌<◌, ◌*◌, ◌+◌, length, IfSome};

use crate::reading::read_second;
use crate::year_reading::read_year_second;

/// What a time packet tells, in ticks of 0.1 µs: a whole number of hundredths of a second.
#[derive(Clone, Copy, Debug, PartialEq, Eq)]
pub enum PacketTime {
    /// A time of the years 1970 to 9999 in UTC, behind 1970-01-01T00:00:00.
    Utc(u64),
    /// A time of a year that the packet does not name, behind its begin, and whether that is a leap year.
    OfYear { leap: bool, ticks: u64 },
}

/// The hundredths of a second that two digits spell; None where one is above 9.
fn hundredths_in(digits: u8) -> Option<u64>
    ensures hundredths { result ≡ spec.hundredths_in digits }
    ensures small { IfSome result (λ h. h < 100) }
{
    if digits / 16 < 10 && digits % 16 < 10 {
        Some(u64::from(digits / 16 * 10 + digits % 16))
    } else {
        None
    }
}

/// Ticks of 0.1 µs.
fn ticks_of(second: u64, hundredths: u64) -> u64
    requires second { second < 253402300800 }
    requires hundredths { hundredths < 100 }
    ensures { result ≡ second * 10000000 + hundredths * 100000 }
{
    second * 10_000_000 + hundredths * 100_000
}

/// The UTC time of a body, in ticks behind 1970-01-01T00:00:00.
fn utc_in(body: &[u8]) -> Option<u64>
    requires { length body.now ≡ 12 }
    ensures ticks { result ≡ spec.utc_in body.now }
    ensures small { IfSome result (λ t. t < 2534023008000000000) }
{
    let hundredths = hundredths_in(body[4])?;
    let mut settled = [0u8; 12];
    settled.copy_from_slice(body);
    settled[0] = 0x30;
    settled[4] = 0;
    let second = read_second(&settled)?;
    Some(ticks_of(second, hundredths))
}

/// The time of a year that a body tells, in ticks behind the begin of the year.
fn year_time_in(body: &[u8], leap: bool) -> Option<u64>
    requires length { length body.now ≡ 10 }
    requires leap { leap ≡ spec.is_leap body.now }
    ensures ticks { result ≡ spec.year_time_in body.now }
    ensures small { IfSome result (λ t. t < spec.year_seconds leap * 10000000) }
{
    let hundredths = hundredths_in(body[4])?;
    let mut settled = [0u8; 10];
    settled.copy_from_slice(body);
    settled[0] = 0x30;
    settled[4] = 0;
    let second = read_year_second(&settled, leap)?;
    Some(ticks_of(second, hundredths))
}

/// The time that the body of a time packet tells, in its form with a date (bit 9 of the first word, 12 bytes) or with
/// the day of the year (bit 9 clear, 10 bytes): both have any time source and format (bits 7 to 0 of the first word)
/// and any hundredths of a second. None for any other bytes: another length, other bits in the first word, a digit
/// above 9, a time that is none (an hour 24, a month 13, 30 February, day 366 where bit 8 does not say a leap year), a
/// date whose year bit 8 belies, or a year in front of 1970.
pub fn read_time(body: &[u8]) -> Option<PacketTime>
    ensures { result ≡ spec.packet_time body.now }
{
    if body.len() == 12 {
        return utc_in(body).map(|ticks| PacketTime::Utc(ticks));
    }
    if body.len() == 10 {
        let leap = body[1] == 1;
        return year_time_in(body, leap).map(|ticks| PacketTime::OfYear { leap, ticks });
    }
    None
}

/// Whether these bytes are the body of a time packet, which `read_time` reads.
pub fn is_time_body(body: &[u8]) -> bool
    ensures { result ≡ spec.is_time_body body.now }
{
    read_time(body).is_some()
}
