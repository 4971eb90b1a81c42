//! The trunk as threads share it: what each sends arrives in its order, once, and nothing else does.
ghost use Rattle.mil_trunk.specs.Ends.{IsTicketOf, IsTakerOf, bounds_of, tags_of, sent, received};
ghost use Rattle.mil_trunk.specs.Tags.{has, bound_of};
ghost use Rattle.std.specs.Prelude.{IfSome, IfNone, vec_len, vec_capacity, slice_index_or, filter};
ghost use Rattle.std.specs.Prelude.{◌≡◌, ◌==◌, ◌<◌, ◌≤◌, ◌+◌, ◌^◌, ◌++◌, ◌∷◌, [], ℕ, true, length, All, IsTrue, IfOk};

use mil_trunk::{Tags, Taker, Ticket, Trunk};
use std::alloc::{AllocError, Global};
use std::snapshot::Snapshot;
use std::sync::Wait;
use std::test::Fail;
use std::thread;
use std::thread::{Promise, PromisedHandle, Scope, Threads};
use test_values::{BOUND, Item};

/// How often a thread tries before it gives up, so that each test ends.
const TURNS: u32 = 10_000_000;

/// How many items each thread sends.
const COUNT: u32 = 1000;

// Offers an item until it is kept, or until it came back too often.
fn offer_one<R: Wait>(rt: &R, trunk: &Trunk<Item>, ticket: &mut Ticket<Item>, item: Item) -> bool
    requires ticket { IsTicketOf trunk.now ticket.old }
    requires tag { has (tags_of ticket.old) item.tag ≡ true }
    requires bound { length (sent ticket.old) < bound_of (bounds_of ticket.old) item.tag }
    ensures ticket { IsTicketOf trunk.now ticket.new }
    ensures tags { tags_of ticket.new ≡ tags_of ticket.old }
    ensures bounds { bounds_of ticket.new ≡ bounds_of ticket.old }
    ensures sent { IsTrue result → sent ticket.new ≡ sent ticket.old ++ item ∷ [] }
{
    for _ in 0..TURNS {
        if trunk.offer(rt, ticket, item).is_ok() {
            return true;
        }
        thread::yield_now();
    }
    false
}

// Offers the items of one tag, and says whether all were kept.
fn offer_all<R: Wait>(
    rt: &R,
    trunk: &Trunk<Item>,
    mut ticket: Ticket<Item>,
    tag: u8,
    items: &[Item],
) -> (Ticket<Item>, bool)
    requires ticket { IsTicketOf trunk.now ticket × (sent ticket ≡ []) }
    requires tag { has (tags_of ticket) tag ≡ true }
    requires items { All (λ item. item.tag ≡ tag) items.now }
    requires bound { length items.now ≤ bound_of (bounds_of ticket) tag }
    ensures ticket { IsTicketOf trunk.now result.0 }
    ensures tags { tags_of result.0 ≡ tags_of ticket }
    ensures sent { IsTrue result.1 → sent result.0 ≡ items.now }
{
    for item in items {
        if !offer_one(rt, trunk, &mut ticket, *item) {
            return (ticket, false);
        }
    }
    (ticket, true)
}

// Takes an item, or gives up where there was none too often.
fn take_one<R: Wait>(rt: &R, trunk: &Trunk<Item>, taker: &mut Taker<Item>) -> Option<Item>
    requires { IsTakerOf trunk.now taker.old }
    ensures taker { IsTakerOf trunk.now taker.new }
    ensures taken { IfSome result (λ item. received taker.new ≡ received taker.old ++ item ∷ []) }
    ensures none { IfNone result (received taker.new ≡ received taker.old) }
{
    for _ in 0..TURNS {
        if let Some(item) = trunk.take(rt, taker) {
            return Some(item);
        }
        thread::yield_now();
    }
    None
}

// Takes as many items as are wanted, or fewer where it has to wait for one too long.
fn take_all<R: Wait>(
    rt: &R,
    trunk: &Trunk<Item>,
    mut taker: Taker<Item>,
    wanted: usize,
    mut taken: Vec<Item>,
) -> (Taker<Item>, Vec<Item>)
    requires taker { IsTakerOf trunk.now taker × (received taker ≡ taken.items) }
    requires room { vec_len taken + wanted ≤ vec_capacity taken }
    ensures taker { IsTakerOf trunk.now result.0 }
    ensures taken { received result.0 ≡ result.1.items }
{
    for _ in 0..wanted {
        let Some(item) = take_one(rt, trunk, &mut taker) else {
            break;
        };
        taken.push_reserved(item);
    }
    (taker, taken)
}

/// What a thread promises: where it sent all, its ticket has sent the items, in their order.
#[derive(Drop)]
struct Sends<'a> {
    trunk: &'a Trunk<Item>,
    ticket: Snapshot<Ticket<Item>>,
    items: &'a [Item],
}

impl<'a> Promise<(Ticket<Item>, bool)> for Sends<'a> {
    ghost use Rattle.mil_trunk.specs.Ends.{IsTicketOf, tags_of, sent};
    ghost use Rattle.std.specs.Prelude.{◌≡◌, IsTrue};

    ghost kept_by = { λ p r. IsTicketOf p.trunk.now r.0 × (tags_of r.0 ≡ tags_of p.ticket.value)
        × (IsTrue r.1 → sent r.0 ≡ p.items.now) };
}

/// What the threads leave: the tickets taken in by one, the taker, what was taken, and whether all threads ran and sent
/// all.
struct Ended {
    ticket: Ticket<Item>,
    taker: Taker<Item>,
    taken: Vec<Item>,
    whole: bool,
}

// Starts a thread that offers the items of one tag.
fn start<'s, E, R: Wait + Sync>(
    scope: &Scope<'s, E>,
    rt: &'s R,
    trunk: &'s Trunk<Item>,
    ticket: Ticket<Item>,
    tag: u8,
    items: &'s [Item],
) -> Option<PromisedHandle<(Ticket<Item>, bool), Sends<'s>>>
    requires ticket { IsTicketOf trunk.now ticket × (sent ticket ≡ []) }
    requires tag { has (tags_of ticket) tag ≡ true }
    requires items { All (λ item. item.tag ≡ tag) items.now }
    requires bound { length items.now ≤ bound_of (bounds_of ticket) tag }
    ensures { IfSome result (λ h. (h.promise.trunk.now ≡ trunk.now) × (h.promise.ticket.value ≡ ticket)
        × (h.promise.items.now ≡ items.now)) }
{
    let promise = Sends {
        trunk,
        ticket: Snapshot::of(&ticket),
        items,
    };
    let started = scope.spawn_with(
        promise,
        move || -> (Ticket<Item>, bool)
            requires { IsTicketOf trunk.now ticket × (sent ticket ≡ []) × (has (tags_of ticket) tag ≡ true)
                × All (λ item. item.tag ≡ tag) items.now × (length items.now ≤ bound_of (bounds_of ticket) tag) }
            ensures { IsTicketOf trunk.entry.now result.0 × (tags_of result.0 ≡ tags_of ticket)
                × (IsTrue result.1 → sent result.0 ≡ items.entry.now) }
        { offer_all(rt, trunk, ticket, tag, items) },
    );
    started.ok()
}

// Starts a thread for each list from the place `from` on, takes in the calling thread, and then takes the tickets in
// again.
fn run_from<'s, E, R: Wait + Threads + Sync>(
    scope: &Scope<'s, E>,
    rt: &'s R,
    trunk: &'s Trunk<Item>,
    lists: &'s [Vec<Item>],
    from: usize,
    mut rest: Ticket<Item>,
    taker: Taker<Item>,
    wanted: usize,
    taken: Vec<Item>,
) -> Ended
    requires few { (length lists.now ≤ 64) × (from ≤ length lists.now) }
    requires lists { (k : ℕ) (d : _) → k < length lists.now
        → All (λ item. item.tag ≡ k) (slice_index_or lists.now k d).items }
    requires bounds { (k : ℕ) (d : _) → k < length lists.now
        → length (slice_index_or lists.now k d).items ≤ bound_of (bounds_of rest) k }
    requires ticket { IsTicketOf trunk.now rest × (sent rest ≡ []) }
    requires tags { (t : ℕ) → from ≤ t → t < 64 → has (tags_of rest) t ≡ true }
    requires taker { IsTakerOf trunk.now taker × (received taker ≡ taken.items) }
    requires room { vec_len taken + wanted ≤ vec_capacity taken }
    ensures ends { IsTicketOf trunk.now result.ticket × IsTakerOf trunk.now result.taker }
    ensures taken { received result.taker ≡ result.taken.items }
    ensures tags { IsTrue result.whole → (t : ℕ) → from ≤ t → t < 64 → has (tags_of result.ticket) t ≡ true }
    ensures before { IsTrue result.whole → (t : ℕ) → t < from
        → filter (λ item. item.tag == t) (sent result.ticket) ≡ [] }
    ensures sent { IsTrue result.whole → (k : ℕ) (d : _) → from ≤ k → k < length lists.now
        → filter (λ item. item.tag == k) (sent result.ticket) ≡ (slice_index_or lists.now k d).items }
{
    if from == lists.len() {
        let (taker, taken) = take_all(rt, trunk, taker, wanted, taken);
        return Ended {
            ticket: rest,
            taker,
            taken,
            whole: true,
        };
    }
    let tag = from as u8;
    let items = lists[from].as_slice();
    let ticket = trunk.split(&mut rest, Tags::none().with(tag));
    let started = start(scope, rt, trunk, ticket, tag, items);
    let mut ended = run_from(
        scope,
        rt,
        trunk,
        lists,
        from + 1,
        rest,
        taker,
        wanted,
        taken,
    );
    let Some(handle) = started else {
        ended.whole = false;
        return ended;
    };
    let (theirs, sent_all) = handle.join(rt);
    trunk.take_in(&mut ended.ticket, theirs);
    if !ended.whole || !sent_all {
        ended.whole = false;
        return ended;
    }
    ended
}

// The same for all lists, in a scope of its own.
fn in_scope<R: Wait + Threads + Sync>(
    rt: &R,
    trunk: &Trunk<Item>,
    lists: &[Vec<Item>],
    ticket: Ticket<Item>,
    taker: Taker<Item>,
    wanted: usize,
    taken: Vec<Item>,
) -> Ended
    requires few { length lists.now ≤ 64 }
    requires lists { (k : ℕ) (d : _) → k < length lists.now
        → All (λ item. item.tag ≡ k) (slice_index_or lists.now k d).items }
    requires bounds { (k : ℕ) (d : _) → k < length lists.now
        → length (slice_index_or lists.now k d).items ≤ bound_of (bounds_of ticket) k }
    requires ticket { IsTicketOf trunk.now ticket × (sent ticket ≡ []) }
    requires tags { (t : ℕ) → t < 64 → has (tags_of ticket) t ≡ true }
    requires taker { IsTakerOf trunk.now taker × (received taker ≡ taken.items) }
    requires room { vec_len taken + wanted ≤ vec_capacity taken }
    ensures ends { IsTicketOf trunk.now result.ticket × IsTakerOf trunk.now result.taker }
    ensures taken { received result.taker ≡ result.taken.items }
    ensures tags { IsTrue result.whole → (t : ℕ) → t < 64 → has (tags_of result.ticket) t ≡ true }
    ensures sent { IsTrue result.whole → (k : ℕ) (d : _) → k < length lists.now
        → filter (λ item. item.tag == k) (sent result.ticket) ≡ (slice_index_or lists.now k d).items }
{
    thread::scope(
        thread::scope_env(),
        rt,
        move |scope| -> Ended
            requires { (length lists.now ≤ 64)
                × ((k : ℕ) (d : _) → k < length lists.now
                → All (λ item. item.tag ≡ k) (slice_index_or lists.now k d).items)
                × ((k : ℕ) (d : _) → k < length lists.now
                → length (slice_index_or lists.now k d).items ≤ bound_of (bounds_of ticket) k)
                × IsTicketOf trunk.now ticket × (sent ticket ≡ [])
                × ((t : ℕ) → t < 64 → has (tags_of ticket) t ≡ true) × IsTakerOf trunk.now taker
                × (received taker ≡ taken.items) × (vec_len taken + wanted ≤ vec_capacity taken) }
            ensures { IsTicketOf trunk.entry.now result.ticket × IsTakerOf trunk.entry.now result.taker
                × (received result.taker ≡ result.taken.items)
                × (IsTrue result.whole → (t : ℕ) → t < 64 → has (tags_of result.ticket) t ≡ true)
                × (IsTrue result.whole → (k : ℕ) (d : _) → k < length lists.entry.now
                → filter (λ item. item.tag == k) (sent result.ticket) ≡ (slice_index_or lists.entry.now k d).items) }
        { run_from(scope, rt, trunk, lists, 0, ticket, taker, wanted, taken) },
    )
}

// Sends each list with a ticket of its own, from threads of their own, while the calling thread takes. It answers what
// was taken, where every thread ran and no turn limit was reached.
fn exchange<R: Wait + Threads + Sync>(
    rt: &R,
    alloc: Global,
    capacity: u32,
    lists: &[Vec<Item>],
    wanted: usize,
) -> Result<Option<Vec<Item>>, Fail>
    requires few { length lists.now ≤ 64 }
    requires lists { (k : ℕ) (d : _) → k < length lists.now
        → All (λ item. item.tag ≡ k) (slice_index_or lists.now k d).items }
    requires short { (k : ℕ) (d : _) → k < length lists.now → length (slice_index_or lists.now k d).items ≤ 2 ^ 55 }
    ensures { IfOk result (λ o. IfSome o
        (λ taken. (k : ℕ) (d : _) → k < length lists.now
        → filter (λ item. item.tag == k) taken.items ≡ (slice_index_or lists.now k d).items)) }
{
    let (trunk, ticket, taker) = Trunk::make(alloc, capacity, &[BOUND; 64])?;
    let taken = Vec::with_capacity(alloc, wanted)?;
    let ended = in_scope(rt, &trunk, lists, ticket, taker, wanted, taken);
    let Ended {
        ticket,
        taker,
        taken,
        whole,
    } = ended;
    if !whole {
        return Ok(None);
    }
    let (_, _, last) = trunk.settle(rt, ticket, taker);
    match last {
        None => Ok(Some(taken)),
        Some(_) => Ok(None),
    }
}

// The items 1, 2, .. of a tag.
fn numbered(alloc: Global, tag: u8) -> Result<Vec<Item>, AllocError>
    ensures tag { IfOk result (λ v. All (λ item. item.tag ≡ tag) v.items) }
    ensures len { IfOk result (λ v. length v.items ≡ COUNT) }
{
    let mut items = Vec::with_capacity(alloc, COUNT as usize)?;
    for number in 0..COUNT {
        items.push_reserved(Item {
            tag,
            number: number + 1,
        });
    }
    Ok(items)
}

// A list for each tag, from 0 on.
fn lists_of(alloc: Global, tags: u8) -> Result<Vec<Vec<Item>>, AllocError>
    ensures len { IfOk result (λ v. length v.items ≡ tags) }
    ensures lists { IfOk result (λ v. (k : ℕ) (d : _) → k < tags
        → All (λ item. item.tag ≡ k) (slice_index_or v.items k d).items
        × (length (slice_index_or v.items k d).items ≡ COUNT)) }
{
    let mut lists = Vec::new(alloc);
    for tag in 0..tags {
        lists.push(numbered(alloc, tag)?)?;
    }
    Ok(lists)
}

// Lets a thread for each tag send its items, and says whether each list arrived whole and in its order, and nothing
// else.
fn all_arrive<R: Wait + Threads + Sync>(
    rt: &R,
    alloc: Global,
    capacity: u32,
    tags: u8,
) -> Result<bool, Fail>
    requires { tags ≤ 64 }
{
    let lists = lists_of(alloc, tags)?;
    let wanted = COUNT as usize * tags as usize;
    let Some(taken) = exchange(rt, alloc, capacity, &lists, wanted)? else {
        return Ok(false);
    };
    for tag in 0..tags {
        let arrived = taken.iter().filter(|item| item.tag == tag);
        if !arrived.eq(&lists[tag as usize]) {
            return Ok(false);
        }
    }
    Ok(taken.len() == wanted)
}

#[test]
fn two_threads_and_a_taker(rt: HostRuntime) -> Result<(), Fail> {
    assert!(rt; all_arrive(&rt, rt.alloc(), 4, 2)?);
    Ok(())
}

#[test]
fn eight_threads_and_room_for_one(rt: HostRuntime) -> Result<(), Fail> {
    assert!(rt; all_arrive(&rt, rt.alloc(), 1, 8)?);
    Ok(())
}
