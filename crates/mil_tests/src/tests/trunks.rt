//! The trunk as one thread sees it.
ghost use Rattle.std.specs.Prelude.{◌≡◌};

mod threads;

use crate::tests::equal::{prints, same_in};
use mil_trunk::{Tags, Trunk, TrunkError};
use std::alloc::Global;
use test_values::{BOUND, Item};

/// An item of a tag.
fn make_item(tag: u8, number: u32) -> Item
    ensures { (result.tag ≡ tag) × (result.number ≡ number) }
{
    Item { tag, number }
}

#[test]
fn a_full_trunk_gives_back(rt: HostRuntime) {
    let made = Trunk::make(rt.alloc(), 2, &[BOUND]);
    let (trunk, mut ticket, mut taker) = made.expect(&rt, "a trunk");
    let (a, b, c) = (make_item(0, 1), make_item(0, 2), make_item(0, 3));
    let first = trunk.offer(&rt, &mut ticket, a);
    same_in(&rt, "first offer", &first, &Ok(()));
    let second = trunk.offer(&rt, &mut ticket, b);
    same_in(&rt, "second offer", &second, &Ok(()));
    let third = trunk.offer(&rt, &mut ticket, c);
    same_in(&rt, "third offer", &third, &Err(c));
    same_in(&rt, "first take", &trunk.take(&rt, &mut taker), &Some(a));
    let fourth = trunk.offer(&rt, &mut ticket, c);
    same_in(&rt, "fourth offer", &fourth, &Ok(()));
    same_in(&rt, "second take", &trunk.take(&rt, &mut taker), &Some(b));
    same_in(&rt, "third take", &trunk.take(&rt, &mut taker), &Some(c));
    same_in(&rt, "fourth take", &trunk.take(&rt, &mut taker), &None);
    let (_, _, last) = trunk.settle(&rt, ticket, taker);
    same_in(&rt, "settled", &last, &None);
}

/// Why a trunk of this capacity is refused; none where it is made.
fn refusal_of(alloc: Global, capacity: u32) -> Option<TrunkError> {
    let made: Result<(Trunk<Item>, _, _), _> = Trunk::make(alloc, capacity, &[BOUND]);
    made.err()
}

/// Capacities, and why a trunk is refused there.
const CAPACITIES: &[(&str, u32, Option<TrunkError>)] = &[
    ("0", 0, Some(TrunkError::Capacity)),
    ("1", 1, None),
    ("4096", 4096, None),
    ("4097", 4097, Some(TrunkError::Capacity)),
];

#[test]
fn capacities(rt: HostRuntime) {
    for (row, capacity, wanted) in CAPACITIES {
        same_in(&rt, row, &refusal_of(rt.alloc(), *capacity), wanted);
    }
}

#[test]
fn errors_print_their_numbers(rt: HostRuntime) {
    prints(&rt, rt.alloc(), &TrunkError::Capacity, "Q1");
    prints(&rt, rt.alloc(), &TrunkError::Memory, "Q2");
}

#[test]
fn settling_takes_what_is_left(rt: HostRuntime) {
    let made = Trunk::make(rt.alloc(), 3, &[BOUND; 64]);
    let (trunk, mut ticket, mut taker) = made.expect(&rt, "a trunk");
    let tags = Tags::none().with(5).with(63);
    let held = (tags.holds(5), tags.holds(63), tags.holds(6), tags.holds(64));
    same_in(&rt, "tags", &held, &(true, true, false, false));
    let (low, high) = (make_item(5, 1), make_item(62, 2));
    let first = trunk.offer(&rt, &mut ticket, low);
    same_in(&rt, "first offer", &first, &Ok(()));
    let mut other = trunk.split(&mut ticket, tags);
    let second = trunk.offer(&rt, &mut ticket, high);
    same_in(&rt, "second offer", &second, &Ok(()));
    let third = trunk.offer(&rt, &mut other, low);
    same_in(&rt, "offer by the other ticket", &third, &Ok(()));
    same_in(&rt, "take", &trunk.take(&rt, &mut taker), &Some(low));
    trunk.take_in(&mut ticket, other);
    let (ticket, taker, first) = trunk.settle(&rt, ticket, taker);
    let (ticket, taker, second) = trunk.settle(&rt, ticket, taker);
    let (_, _, third) = trunk.settle(&rt, ticket, taker);
    same_in(&rt, "first settled", &first, &Some(high));
    same_in(&rt, "second settled", &second, &Some(low));
    same_in(&rt, "third settled", &third, &None);
}
