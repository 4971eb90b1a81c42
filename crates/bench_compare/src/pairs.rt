//! Two messages, compared part by part.
ghost use Rattle.bench_compare.specs.Differences as spec;
ghost use Rattle.std.specs.Prelude.{◌≡◌, ◌<◌};

use crate::differences::{Origins, Part};
use ch11_layout::View;

/// How far two numbers are apart.
fn apart(one: u128, other: u128) -> u128
    ensures { result ≡ spec.apart one other }
{
    if one < other {
        other - one
    } else {
        one - other
    }
}

/// Whether the distances of two stamps from the first ones are at most so many ticks apart.
fn are_near(within: u64, origins: Origins, stamp: u64, other: u64) -> bool
    ensures { result ≡ spec.are_near within origins stamp other }
{
    let one = u128::from(stamp) + u128::from(origins.second);
    let two = u128::from(other) + u128::from(origins.first);
    apart(one, two) <= u128::from(within)
}

/// Whether the gaps of two replies are the same: neither is there, or both are and are at most so many ticks apart.
fn is_like(within: u64, gap: u16, other: u16) -> bool
    ensures { result ≡ spec.is_like within gap other }
{
    if gap == 0 || other == 0 {
        gap == other
    } else {
        apart(u128::from(gap), u128::from(other)) <= u128::from(within)
    }
}

/// Whether the gap times words of two messages are the same.
fn are_like(within: u64, gaps: u16, other: u16) -> bool
    ensures { result ≡ spec.are_like within gaps other }
{
    is_like(within, gaps % 256, other % 256) && is_like(within, gaps / 256, other / 256)
}

/// The first part in which two messages differ, if any does: times may be so many ticks of 0.1 µs apart, and stamps are
/// told from those of the first messages of their channel.
pub fn part_of(within: u64, origins: Origins, one: &View<'_>, other: &View<'_>) -> Option<Part>
    ensures { result ≡ spec.part_of within origins one.now other.now }
{
    if !are_near(within, origins, one.stamp(), other.stamp()) {
        Some(Part::Stamp)
    } else if one.is_on_line_b() != other.is_on_line_b() {
        Some(Part::Line)
    } else if one.bytes() != other.bytes() {
        Some(Part::Words)
    } else if one.block() != other.block() {
        Some(Part::Block)
    } else if !are_like(within, one.gaps(), other.gaps()) {
        Some(Part::Gaps)
    } else {
        None
    }
}
