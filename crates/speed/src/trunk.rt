//! A trunk, for `benches/trunk`: THREADS COUNT CAPACITY, so many threads, at most 64, which send so many items each,
//! with a ticket of its own, while the main thread takes them all. Its figures: the nanoseconds of the exchange, and a
//! sum over what was taken.
ghost use Rattle.mil_trunk.specs.Ends.{IsTicketOf, IsTakerOf, bounds_of, tags_of, sent};
ghost use Rattle.mil_trunk.specs.Tags.{has, bound_of};
ghost use Rattle.std.specs.Prelude.{◌≡◌, ◌<◌, ◌≤◌, ◌+◌, ◌^◌, [], ℕ, true, length, IfSome};

use crate::watch::Watch;
use crate::words::number;
use mil_trunk::{Tags, Taker, Ticket, Trunk, TrunkError};
use std::sync::Wait;
use std::thread::{self, Scope, Threads};
use test_values::{BOUND, Item};

/// How many threads send, how many items each sends, and how many items the trunk holds.
#[derive(Clone, Copy)]
struct Load {
    threads: u8,
    count: u32,
    capacity: u32,
}

/// Offers an item until it is kept.
fn send<R: Wait>(rt: &R, trunk: &Trunk<Item>, ticket: &mut Ticket<Item>, item: Item)
    requires ticket { IsTicketOf trunk.now ticket.old }
    requires tag { has (tags_of ticket.old) item.tag ≡ true }
    requires bound { length (sent ticket.old) < bound_of (bounds_of ticket.old) item.tag }
    ensures ticket { IsTicketOf trunk.now ticket.new }
    ensures tags { tags_of ticket.new ≡ tags_of ticket.old }
    ensures bounds { bounds_of ticket.new ≡ bounds_of ticket.old }
    ensures sent { length (sent ticket.new) ≡ length (sent ticket.old) + 1 }
{
    for _ in rt.forever() {
        if trunk.offer(rt, ticket, item).is_ok() {
            return;
        }
        thread::yield_now();
    }
}

/// Sends the items 1, 2, .. of a tag.
fn send_all<R: Wait>(rt: &R, trunk: &Trunk<Item>, mut ticket: Ticket<Item>, tag: u8, count: u32)
    requires ticket { IsTicketOf trunk.now ticket × (sent ticket ≡ []) }
    requires tag { has (tags_of ticket) tag ≡ true }
    requires bound { count ≤ bound_of (bounds_of ticket) tag }
{
    for number in 0..count {
        send(rt, trunk, &mut ticket, Item { tag, number });
    }
}

/// Takes so many items, and adds up their numbers.
fn take_all<R: Wait>(rt: &R, trunk: &Trunk<Item>, mut taker: Taker<Item>, wanted: u64) -> u64
    requires { IsTakerOf trunk.now taker }
{
    let (mut left, mut sum) = (wanted, 0u64);
    for _ in rt.forever() {
        if left == 0 {
            return sum;
        }
        match trunk.take(rt, &mut taker) {
            Some(item) => {
                left -= 1;
                sum = sum.wrapping_add(u64::from(item.number) ^ u64::from(item.tag));
            }
            None => thread::yield_now(),
        }
    }
    unreachable!()
}

/// Starts a thread for each of the tags from `tag` on. It says how many were started.
fn start_all<'s, E, R: Wait + Sync>(
    scope: &Scope<'s, E>,
    rt: &'s R,
    trunk: &'s Trunk<Item>,
    mut rest: Ticket<Item>,
    load: Load,
) -> u8
    requires ticket { IsTicketOf trunk.now rest × (sent rest ≡ []) }
    requires tags { (t : ℕ) → t < 64 → has (tags_of rest) t ≡ true }
    requires bounds { (t : ℕ) → t < 64 → load.count ≤ bound_of (bounds_of rest) t }
    requires few { load.threads ≤ 64 }
    ensures { result ≤ load.threads }
{
    for tag in 0..load.threads {
        let ticket = trunk.split(&mut rest, Tags::none().with(tag));
        let count = load.count;
        let started = scope.spawn(
            move ||
                requires { IsTicketOf trunk.now ticket × (sent ticket ≡ []) × (has (tags_of ticket) tag ≡ true)
                    × (count ≤ bound_of (bounds_of ticket) tag) }
            { send_all(rt, trunk, ticket, tag, count) },
        );
        if started.is_err() {
            return tag;
        }
    }
    load.threads
}

/// Sends and takes all, and adds up what was taken.
fn exchange<R: Wait + Threads + Sync>(
    rt: &R,
    trunk: &Trunk<Item>,
    ticket: Ticket<Item>,
    taker: Taker<Item>,
    load: Load,
) -> u64
    requires ends { IsTicketOf trunk.now ticket × IsTakerOf trunk.now taker }
    requires sent { sent ticket ≡ [] }
    requires tags { (t : ℕ) → t < 64 → has (tags_of ticket) t ≡ true }
    requires bounds { (t : ℕ) → t < 64 → load.count ≤ bound_of (bounds_of ticket) t }
    requires few { load.threads ≤ 64 }
{
    thread::scope(
        thread::scope_env(),
        rt,
        move |scope| -> u64
            requires { IsTicketOf trunk.now ticket × IsTakerOf trunk.now taker × (sent ticket ≡ [])
                × ((t : ℕ) → t < 64 → has (tags_of ticket) t ≡ true)
                × ((t : ℕ) → t < 64 → load.count ≤ bound_of (bounds_of ticket) t) × (load.threads ≤ 64) }
        {
            let started = start_all(scope, rt, trunk, ticket, load);
            take_all(rt, trunk, taker, u64::from(started) * u64::from(load.count))
        },
    )
}

/// The figures of a load; None where memory is refused.
fn timed<T: Threads + Wait + Sync>(threads: &T, watch: &Watch<'_>, load: Load) -> Option<[u64; 2]>
    requires { (load.threads ≤ 64) × (load.count < 2 ^ 32) }
{
    let made: Result<(Trunk<Item>, _, _), TrunkError> = Trunk::make(
        watch.rt.alloc(),
        load.capacity,
        &[BOUND; 64],
    );
    let Ok((trunk, ticket, taker)) = made else {
        return None;
    };
    let start = watch.nanos();
    let sum = exchange(threads, &trunk, ticket, taker, load);
    Some([watch.since(start), sum])
}

/// The load that the words ask for; None where they are not three numbers in range.
fn load_of(words: &[&str]) -> Option<Load>
    ensures { IfSome result (λ load. (load.threads ≤ 64) × (load.count < 2 ^ 32)) }
{
    let load = Load {
        threads: u8::try_from(number(words, 0)?).ok()?,
        count: u32::try_from(number(words, 1)?).ok()?,
        capacity: u32::try_from(number(words, 2)?).ok()?,
    };
    if load.threads > 64 {
        return None;
    }
    Some(load)
}

/// What the words ask for; None where they do not say it, or memory is refused.
pub(crate) fn measured<T: Threads + Wait + Sync>(
    threads: &T,
    watch: &Watch<'_>,
    words: &[&str],
) -> Option<[u64; 2]> {
    timed(threads, watch, load_of(words)?)
}
