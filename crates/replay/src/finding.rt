//! The first message past a place, and the latest before one, whose outcome makes a condition true.
ghost use Rattle.frame_tree.specs.Tree.{condition_in};
ghost use Rattle.replay.specs.Finding.{count_to, earlier, later, IsMetBy, IsMetIn, Finds, FindsBack};
ghost use Rattle.replay.specs.Standings.{HasNoExtraMessages};
ghost use Rattle.std.specs.List.{AllByRecursion};
ghost use Rattle.std.specs.Prelude.{◌≡◌, ◌+◌, ◌<◌, ◌≤◌, length, true, false};

use crate::conditions::holds;
use crate::tracks::{Track, count};
use frame_tree::Cond;
use std::alloc::Allocator;

/// Whether the message behind so many others is of the job, and its outcome makes the condition true; of the job's
/// messages those up to it were heard then. Conditions: those before it were, and there are no more messages of the
/// job's channel than were kept.
fn is_met<A: Allocator + Clone>(
    track: &Track,
    channels: &[u16],
    before: usize,
    heard: &mut usize,
    condition: &Cond<A>,
) -> bool
    requires within { before < length channels.now }
    requires room { HasNoExtraMessages channels.now track.now }
    requires heard { heard.old ≡ count_to channels.now before track.now.job.channel }
    ensures heard { heard.new ≡ count_to channels.now (before + 1) track.now.job.channel }
    ensures met { result ≡ true → IsMetBy channels.now (condition_in condition.now) track.now (before + 1) }
    ensures other { result ≡ false → ¬ IsMetBy channels.now (condition_in condition.now) track.now (before + 1) }
{
    let channel = track.channel();
    if channels[before] == channel {
        *heard += 1;
        return holds(condition, track.outcome(*heard));
    }
    false
}

/// The first message past a place that is of the job, and whose outcome makes the condition true. Conditions: the place
/// is not past the end, and there are no more messages of the job's channel than were kept.
fn first_of_job<A: Allocator + Clone>(
    track: &Track,
    channels: &[u16],
    place: usize,
    condition: &Cond<A>,
) -> Option<usize>
    requires place { place ≤ length channels.now }
    requires room { HasNoExtraMessages channels.now track.now }
    ensures { Finds place (IsMetBy channels.now (condition_in condition.now) track.now) result }
{
    let mut heard = count(&channels[..place], track.channel());
    for before in place..channels.len() {
        if is_met(track, channels, before, &mut heard, condition) {
            return Some(before + 1);
        }
    }
    None
}

/// The earlier of two numbers, as far as they are there.
fn earlier(first: Option<usize>, other: Option<usize>) -> Option<usize>
    ensures { result ≡ earlier first other }
{
    match (first, other) {
        (None, other) => other,
        (first, None) => first,
        (Some(a), Some(b)) => Some(a.min(b)),
    }
}

/// The first message past a place that is of one of the jobs, and whose outcome makes the condition true. Conditions:
/// as for one job.
pub(crate) fn first_met<A: Allocator + Clone>(
    tracks: &[Track],
    channels: &[u16],
    place: usize,
    condition: &Cond<A>,
) -> Option<usize>
    requires place { place ≤ length channels.now }
    requires room { AllByRecursion (HasNoExtraMessages channels.now) tracks.now }
    ensures { Finds place (IsMetIn channels.now (condition_in condition.now) tracks.now) result }
{
    let mut first = None;
    for track in tracks {
        first = earlier(first, first_of_job(track, channels, place, condition));
    }
    first
}

/// The latest message before a place that is of the job, and whose outcome makes the condition true. Conditions: as for
/// the first past it.
fn latest_of_job<A: Allocator + Clone>(
    track: &Track,
    channels: &[u16],
    place: usize,
    condition: &Cond<A>,
) -> Option<usize>
    requires place { place ≤ length channels.now }
    requires room { HasNoExtraMessages channels.now track.now }
    ensures { FindsBack place (IsMetBy channels.now (condition_in condition.now) track.now) result }
{
    let mut heard = 0;
    let mut latest = None;
    for before in 0..place.saturating_sub(1) {
        if is_met(track, channels, before, &mut heard, condition) {
            latest = Some(before + 1);
        }
    }
    latest
}

/// The later of two numbers, as far as they are there.
fn later(latest: Option<usize>, other: Option<usize>) -> Option<usize>
    ensures { result ≡ later latest other }
{
    match (latest, other) {
        (None, other) => other,
        (latest, None) => latest,
        (Some(a), Some(b)) => Some(a.max(b)),
    }
}

/// The latest message before a place that is of one of the jobs, and whose outcome makes the condition true.
/// Conditions: as for one job.
pub(crate) fn latest_met<A: Allocator + Clone>(
    tracks: &[Track],
    channels: &[u16],
    place: usize,
    condition: &Cond<A>,
) -> Option<usize>
    requires place { place ≤ length channels.now }
    requires room { AllByRecursion (HasNoExtraMessages channels.now) tracks.now }
    ensures { FindsBack place (IsMetIn channels.now (condition_in condition.now) tracks.now) result }
{
    let mut latest = None;
    for track in tracks {
        latest = later(latest, latest_of_job(track, channels, place, condition));
    }
    latest
}
