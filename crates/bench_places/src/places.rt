//! The places of messages.
ghost use Rattle.bench_places.specs.Places.{count_in_channel, count_to, latest_of, is_sought, numbered, place_before};
ghost use Rattle.bench_places.specs.Places.{message_of_number, place_of};
ghost use Rattle.bench_places.specs.Places.{places_behind};
ghost use Rattle.bench_select.specs.Viewed.{viewed_in};
ghost use Rattle.std.specs.Prelude.{◌≡◌, ◌≤◌, ◌<◌, ◌+◌, ◌^◌, ◌∷◌, [], drop, length, MatchOption, Some, if◌then◌else◌};

use crate::messages::Following;
use crate::sought::Sought;
use ch11_layout::View;
use ch11_reader::Index;

/// The messages behind so many of these.
fn past<'a, 'i>(messages: Following<'a, 'i>, count: u64) -> Following<'a, 'i>
    ensures { result ≡ drop count messages.entry }
{
    let mut rest = messages;
    for _passed in 0..count {
        // It is among those that are passed.
        let _ = rest.next();
    }
    rest
}

/// The place of the message of a number, counted from 1, among those that meet it, where they stand behind so many
/// others.
#[tactic(auto, using(crate::proofs::Walking::to_number))]
fn nth_behind(messages: Following<'_, '_>, sought: &Sought, before: u64, n: u64) -> Option<u64>
    requires { before + length messages < 2 ^ 64 }
    ensures { result ≡ numbered n (places_behind before sought.now messages.entry) }
{
    if n == 0 {
        return None;
    }
    let mut left = n;
    let mut place = before;
    let mut rest = messages;
    'messages: while let Some((channel, view)) = rest.next() {
        place += 1;
        if sought.is_met(channel, &view) {
            left -= 1;
            if left == 0 {
                return Some(place);
            }
        }
    }
    None
}

/// The place of the message of a number, counted from 1, among those past a place that meet what is asked of them;
/// `None` where there are fewer. The messages are walked from the first one on.
#[tactic(auto, using(crate::proofs::Packets::few_left, crate::proofs::Packets::none_past))]
pub fn nth_place(index: &Index<'_>, sought: &Sought, from: u64, n: u64) -> Option<u64>
    ensures { result ≡ place_of sought.now from n index.now }
{
    if index.total() < from {
        return None;
    }
    nth_behind(past(Following::all(index), from), sought, from, n)
}

/// The place of a message where it meets what is asked of it, and else the latest one so far.
fn later_of(
    latest: Option<u64>,
    heard: &Option<(u16, View<'_>)>,
    sought: &Sought,
    place: u64,
) -> Option<u64>
    ensures { MatchOption heard.now (result ≡ latest)
        (λ h. result ≡ (if is_sought sought.now (h.0, h.1) then Some place else latest)) }
{
    match heard {
        Some((channel, view)) if sought.is_met(*channel, view) => Some(place),
        _ => latest,
    }
}

/// The place of the latest message before that of a place that meets what is asked of it; `None` where there is none.
/// The messages are walked from the first one on.
pub fn latest_place(index: &Index<'_>, sought: &Sought, place: u64) -> Option<u64>
    ensures { result ≡ latest_of sought.now place index.now }
{
    let mut rest = Following::all(index);
    let mut latest = None;
    for passed in 0..place.saturating_sub(1) {
        let heard = rest.next();
        latest = later_of(latest, &heard, sought, passed + 1);
    }
    latest
}

/// The place before the first message that meets what is asked of it, so that the next message is that one; the place
/// of the last message where none does.
#[tactic(auto, using(crate::proofs::Packets::first_some, crate::proofs::Packets::first_none))]
pub fn place_before(index: &Index<'_>, sought: &Sought) -> u64
    ensures { result ≡ place_before sought.now index.now }
{
    match nth_place(index, sought, 0, 1) {
        Some(place) => place - 1,
        None => index.total(),
    }
}

/// The message of a number, counted from 1, with its channel; `None` where there is none. The messages are walked from
/// the first one on.
#[tactic(auto, using(crate::proofs::Packets::no_message_past))]
pub fn message_numbered<'a>(index: &Index<'a>, number: u64) -> Option<(u16, View<'a>)>
    ensures { result ≡ message_of_number number (viewed_in index.now) }
{
    if number == 0 || index.total() < number {
        return None;
    }
    let mut rest = past(Following::all(index), number - 1);
    rest.next()
}

/// 1 where the message is of the channel, and else 0.
fn one_if_of(heard: &Option<(u16, View<'_>)>, channel: u16) -> u64
    ensures value { MatchOption heard.now (result ≡ 0)
        (λ h. result ≡ count_in_channel channel ((h.0, h.1) ∷ [])) }
    ensures few { result ≤ 1 }
{
    match heard {
        Some((one, _)) if *one == channel => 1,
        _ => 0,
    }
}

/// How many messages of a channel there are up to a place, that of the place included: so the number in its channel of
/// the message there. The messages are walked from the first one on.
pub fn number_in_channel(index: &Index<'_>, channel: u16, place: u64) -> u64
    ensures value { result ≡ count_to channel place index.now }
    ensures few { result ≤ place }
{
    let mut rest = Following::all(index);
    let mut count = 0;
    for _passed in 0..place {
        let heard = rest.next();
        count += one_if_of(&heard, channel);
    }
    count
}
