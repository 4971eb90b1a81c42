//! How fast bus time runs.
ghost use Rattle.bench_live.specs.Paces as spec;
ghost use Rattle.std.specs.Prelude.{◌≡◌, ◌≤◌, ◌<◌, ◌^◌, length, option_map, position, IfSome};

use numerals::spelled;
use std::time::Duration;

/// How many ticks of bus time go by in so much real time.
#[derive(Clone, Copy, Debug, PartialEq, Eq)]
pub struct Pace {
    /// Bus time in thousandths of real time, 100 to 1,000,000.
    thousandths: u32,
}

/// How many thousandths the digits behind the point are.
fn thousandths(digits: &[u8]) -> Option<u64>
    ensures value { result ≡ spec.thousandths digits.now }
    ensures small { IfSome result (λ n. n < 2 ^ 24) }
{
    let value = spelled(10, 1, 3, digits)?;
    match digits.len() {
        1 => Some(value * 100),
        2 => Some(value * 10),
        _ => Some(value),
    }
}

/// A whole number in thousandths.
fn whole(text: &[u8]) -> Option<u64>
    ensures value { result ≡ spec.whole text.now }
    ensures small { IfSome result (λ n. n < 2 ^ 32) }
{
    let value = spelled(10, 1, 4, text)?;
    Some(value * 1000)
}

/// Where the first point stands.
fn point_in(text: &[u8]) -> Option<usize>
    ensures value { result ≡ position (λ b. spec.is_point b) text.now }
    ensures within { IfSome result (λ i. i < length text.now) }
{
    text.iter().position(|byte| *byte == b'.')
}

/// The number before the point and the digits behind it, in thousandths.
fn number(text: &[u8]) -> Option<u64>
    ensures { result ≡ spec.parted text.now (position (λ b. spec.is_point b) text.now) }
{
    let Some(place) = point_in(text) else {
        return whole(text);
    };
    let front = whole(&text[..place])?;
    let back = thousandths(&text[place + 1..])?;
    Some(front + back)
}

impl Pace {
    /// Bus time is real time.
    pub const REAL: Pace = Pace { thousandths: 1000 };

    /// The pace that a text spells: a number of 0.1 to 1000, with up to three digits behind a point.
    #[tactic(auto, unfolding(crate::specs::Paces::pace_in))]
    pub fn read(text: &[u8]) -> Option<Pace>
        ensures value { option_map (λ p. p.thousandths) result ≡ spec.pace_in text.now }
        ensures range { IfSome result (λ p. (100 ≤ p.thousandths) × (p.thousandths ≤ 1000000)) }
    {
        let value = number(text)?;
        if 100 <= value && value <= 1_000_000 {
            Some(Pace {
                thousandths: value as u32,
            })
        } else {
            None
        }
    }

    /// How much real time goes by up to a tick of 0.1 µs.
    pub(crate) fn span(self, tick: u64) -> Duration {
        let pace = u64::from(self.thousandths).max(1);
        Duration::from_nanos(tick.saturating_mul(100_000) / pace)
    }
}
