//! When a recorded message began.
ghost use Rattle.ch11_layout.specs.Stamps as spec;
ghost use Rattle.std.specs.Prelude.{◌≡◌};

use ch11_header::Header;

/// The flags that say that stamps are in the format of a secondary header: bits 7 and 6.
const OF_SECONDARY: u8 = 0xC0;

/// What the time stamps of a packet are (IRIG 106-17 Chapter 11, packet flags, intra-packet time stamps).
#[derive(Clone, Copy, Debug, PartialEq, Eq)]
pub enum StampKind {
    /// Ticks of 0.1 µs of the recorder's relative time counter.
    Counter,
    /// A time of day by IEEE 1588: the upper four bytes seconds behind 1970-01-01T00:00:00, the lower nanoseconds.
    TimeOfDay,
    /// In a format that is not read, so that no time is known.
    Unknown,
}

impl StampKind {
    /// That of the packet with this header: a time of day where flag bits 7 and 6 are set and bits 3 and 2 are 01.
    pub fn of(header: &Header) -> StampKind
        ensures { result ≡ spec.kind_of header.now }
    {
        if header.flags < OF_SECONDARY {
            StampKind::Counter
        } else if header.flags / 4 % 4 == 1 {
            StampKind::TimeOfDay
        } else {
            StampKind::Unknown
        }
    }

    /// A stamp, its eight bytes as a number, in ticks of 0.1 µs: of the relative time counter, or behind
    /// 1970-01-01T00:00:00, nanoseconds rounded down. One that is not known stays the number that it is.
    #[inline]
    pub fn ticks(self, number: u64) -> u64
        ensures { result ≡ spec.ticks_of self number }
    {
        match self {
            StampKind::TimeOfDay => ticks_of_day(number),
            StampKind::Counter | StampKind::Unknown => number,
        }
    }
}

/// A time of day in ticks of 0.1 µs.
fn ticks_of_day(number: u64) -> u64
    ensures { result ≡ spec.ticks_of_day number }
{
    number / 0x1_0000_0000 * 10_000_000 + number % 0x1_0000_0000 / 100
}
