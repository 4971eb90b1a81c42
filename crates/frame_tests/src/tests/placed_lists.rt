//! Lists of placed actions: what is put into them, in which order, and copies.
ghost use Rattle.bc_machine.specs.Rising.{IsRising};
ghost use Rattle.std.specs.Prelude.{◌≤◌};

use crate::tests::equal::{reads, same};
use bc_machine::{Actions, HostAction, Placed, Schedule};
use mil_bus::Bus;
use mil_host::read_action;
use std::alloc::Global;
use std::fmt::Write;
use std::process::Abort;

/// Actions of each kind of row: one data word, several, and none.
const GIVEN: &[(u32, u8, &str)] = &[
    (3, 5, "busy on"),
    (1, 6, "transmit 3 00AA"),
    (3, 6, "transmit 29 0001 0002 FFFF"),
    (1, 5, "transmit 1 1111 2222"),
    (2, 30, "illegal receive 3 32"),
    (1, 6, "deaf B on"),
];

/// As they are shown.
const GIVEN_SHOWN: &str =
    "3 5 busy on, 1 6 transmit 3 00AA, 3 6 transmit 29 0001 0002 FFFF, 1 5 transmit 1 1111 2222, \
     2 30 illegal receive 3 32, 1 6 deaf B on, ";

/// By rising number, those at one number in their order.
const SORTED_SHOWN: &str =
    "1 6 transmit 3 00AA, 1 5 transmit 1 1111 2222, 1 6 deaf B on, 2 30 illegal receive 3 32, 3 5 busy on, \
     3 6 transmit 29 0001 0002 FFFF, ";

/// The given actions and two more.
const GROWN_SHOWN: &str =
    "3 5 busy on, 1 6 transmit 3 00AA, 3 6 transmit 29 0001 0002 FFFF, 1 5 transmit 1 1111 2222, \
     2 30 illegal receive 3 32, 1 6 deaf B on, 4 5 vector 00AA, 2 5 transmit 2 0003 0004, ";

/// An action that is put into the sorted ones, and all of them then.
const PUT_IN: &[(u32, &str, &str)] = &[
    (
        1,
        "transmit 4 0005 0006",
        "1 6 transmit 3 00AA, 1 5 transmit 1 1111 2222, 1 6 deaf B on, 1 5 transmit 4 0005 0006, \
         2 30 illegal receive 3 32, 3 5 busy on, 3 6 transmit 29 0001 0002 FFFF, ",
    ),
    (
        2,
        "control on",
        "1 6 transmit 3 00AA, 1 5 transmit 1 1111 2222, 1 6 deaf B on, 2 30 illegal receive 3 32, \
         2 5 control on, 3 5 busy on, 3 6 transmit 29 0001 0002 FFFF, ",
    ),
    (
        9,
        "control on",
        "1 6 transmit 3 00AA, 1 5 transmit 1 1111 2222, 1 6 deaf B on, 2 30 illegal receive 3 32, \
         3 5 busy on, 3 6 transmit 29 0001 0002 FFFF, 9 5 control on, ",
    ),
];

/// A placed action.
fn placed(rt: &impl Abort, number: u32, address: u8, text: &str) -> Placed {
    Placed {
        number,
        action: HostAction::Terminal {
            address,
            action: read_action(text.as_bytes()).ok().expect(rt, text),
        },
    }
}

/// The list of the given actions.
fn given(rt: &impl Abort, alloc: Global) -> Actions {
    let mut actions = Actions::new(alloc);
    actions.reserve(GIVEN.len()).expect(rt, "memory");
    for (number, address, text) in GIVEN {
        actions
            .push(placed(rt, *number, *address, text))
            .expect(rt, "memory");
    }
    actions
}

/// Shows an action behind others.
fn show(rt: &impl Abort, text: &mut String, one: &Placed) {
    let number = one.number;
    if let HostAction::Terminal { address, action } = &one.action {
        write!(text, "{number} {address} {action}, ").expect(rt, "memory");
    }
}

/// A list is shown as this text.
fn is_shown(rt: &impl Abort, alloc: Global, actions: &Actions, wanted: &str) {
    let mut text = String::new(alloc);
    for place in 0..actions.len() {
        show(rt, &mut text, &actions.get(place));
    }
    reads(rt, "shown", text.as_str(), wanted);
}

/// These actions are the given ones, of which one is kept. The copy keeps all.
fn is_cut(rt: &impl Abort, alloc: Global, actions: &mut Actions, copy: &Actions) {
    is_shown(rt, alloc, actions, GIVEN_SHOWN);
    same(rt, &actions.is_empty(), &false);
    actions.truncate(1);
    is_shown(rt, alloc, actions, "3 5 busy on, ");
    is_shown(rt, alloc, copy, GIVEN_SHOWN);
}

#[test]
fn what_was_pushed_and_its_copy(rt: HostRuntime) {
    let mut actions = given(&rt, rt.alloc());
    let copy = actions.copy().expect(&rt, "memory");
    is_cut(&rt, rt.alloc(), &mut actions, &copy);
}

/// The list of the given actions, sorted.
fn sorted(rt: &impl Abort, alloc: Global) -> Actions
    ensures { IsRising result }
{
    let mut actions = given(rt, alloc);
    actions.sort().expect(rt, "memory");
    actions
}

/// The number of the last action.
fn last(actions: &Actions) -> Option<u32> {
    let count = actions.len();
    if count == 0 {
        return None;
    }
    Some(actions.number(count - 1))
}

/// Three of the sorted actions have the number 1, one has the number 2, and two have the number 3.
fn are_parted(rt: &impl Abort, actions: &Actions)
    requires { IsRising actions.now }
{
    let behind = (actions.behind(0), actions.behind(2), actions.behind(3));
    same(rt, &behind, &(0, 4, 6));
    same(rt, &last(actions), &Some(3));
}

#[test]
fn sorted_by_number(rt: HostRuntime) {
    let actions = sorted(&rt, rt.alloc());
    are_parted(&rt, &actions);
    is_shown(&rt, rt.alloc(), &actions, SORTED_SHOWN);
}

/// Whether there is room for one more action, which is put behind the others then.
fn fits(rt: &impl Abort, schedule: &mut Schedule, number: u32, address: u8, text: &str) -> bool {
    schedule.add(placed(rt, number, address, text)).is_ok()
}

/// The number of the action at a place, where there is one.
fn number_at(schedule: &Schedule, place: usize) -> Option<u32> {
    if place >= schedule.len() {
        return None;
    }
    Some(schedule.number(place))
}

/// There is room for two more than the given actions.
fn two_fit(rt: &impl Abort, schedule: &mut Schedule) {
    schedule.room(2).expect(rt, "memory");
    same(rt, &schedule.capacity(), &8);
    let fit = [
        fits(rt, schedule, 4, 5, "vector 00AA"),
        fits(rt, schedule, 2, 5, "transmit 2 0003 0004"),
        fits(rt, schedule, 2, 5, "busy off"),
    ];
    same(rt, &fit, &[true, true, false]);
    same(rt, &(schedule.len(), number_at(schedule, 7)), &(8, Some(2)));
}

/// A copy of the schedule has so much room, and its actions are shown as this text.
fn is_copied(rt: &impl Abort, alloc: Global, schedule: &Schedule, room: usize, text: &str) {
    let copy = schedule.copy().expect(rt, "memory");
    same(rt, &copy.capacity(), &room);
    is_shown(rt, alloc, &Actions::of(copy), text);
}

#[test]
fn room_for_two(rt: HostRuntime) {
    let mut schedule = Schedule::of(given(&rt, rt.alloc()));
    two_fit(&rt, &mut schedule);
    is_copied(&rt, rt.alloc(), &schedule, 8, GROWN_SHOWN);
}

/// A schedule of nothing that had room for none and for five, and has room for one.
fn shrunk(rt: &impl Abort, alloc: Global) -> Schedule {
    let mut schedule = Schedule::none(alloc);
    let none = schedule.capacity();
    schedule.reserve_rows(3).expect(rt, "memory");
    same(rt, &(none, schedule.capacity()), &(0, 0));
    schedule.grow(5).expect(rt, "memory");
    schedule.grow(2).expect(rt, "memory");
    let five = schedule.capacity();
    schedule.shrink(1);
    same(rt, &(five, schedule.capacity()), &(5, 1));
    schedule
}

/// There is room for one action, which a copy keeps when it is left out.
fn one_fits(rt: &impl Abort, alloc: Global, schedule: &mut Schedule) {
    let fit = [
        fits(rt, schedule, 7, 9, "transmit 29 0A0B 0C0D"),
        fits(rt, schedule, 7, 9, "busy on"),
    ];
    same(rt, &fit, &[true, false]);
    schedule.sort().expect(rt, "memory");
    let copy = schedule.copy().expect(rt, "memory");
    schedule.truncate(0);
    same(rt, &schedule.len(), &0);
    is_shown(rt, alloc, &Actions::of(copy), "7 9 transmit 29 0A0B 0C0D, ");
}

#[test]
fn a_schedule_grows_and_shrinks(rt: HostRuntime) {
    let mut schedule = shrunk(&rt, rt.alloc());
    one_fits(&rt, rt.alloc(), &mut schedule);
}

/// One more action in a sorted list goes behind those of its number.
fn put_in(rt: &impl Abort, alloc: Global, number: u32, text: &str) -> Actions {
    let mut schedule = Schedule::of(sorted(rt, alloc));
    schedule.room(1).expect(rt, "memory");
    schedule.put_in(placed(rt, number, 5, text));
    Actions::of(schedule)
}

/// The list is shown as this text then.
fn is_put_in(rt: &impl Abort, alloc: Global, number: u32, text: &str, shown: &str) {
    let actions = put_in(rt, alloc, number, text);
    is_shown(rt, alloc, &actions, shown);
}

#[test]
fn put_in_by_their_numbers(rt: HostRuntime) {
    for (number, text, shown) in PUT_IN {
        is_put_in(&rt, rt.alloc(), *number, text, shown);
    }
}

/// The words that a terminal of a bus has put up at a subaddress.
fn has_put_up(rt: &impl Abort, bus: &Bus, address: u8, subaddress: u8, words: &[u16])
    requires { (1 ≤ subaddress) × (subaddress ≤ 30) }
{
    let terminal = bus.terminal(address).expect(rt, "a terminal");
    same(rt, &terminal.transmit_words(subaddress), &words);
}

/// Actions of one number act on the bus, and no others.
fn act(rt: &impl Abort, schedule: &Schedule, bus: &mut Bus) {
    schedule.act_at(bus, 3);
    has_put_up(rt, bus, 6, 29, &[0x0001, 0x0002, 0xffff]);
    has_put_up(rt, bus, 6, 3, &[]);
    schedule.act_at(bus, 1);
    has_put_up(rt, bus, 6, 3, &[0x00aa]);
    has_put_up(rt, bus, 5, 1, &[0x1111, 0x2222]);
    has_put_up(rt, bus, 6, 29, &[0x0001, 0x0002, 0xffff]);
}

/// Those of a schedule act on a new bus.
fn act_alone(rt: &impl Abort, alloc: Global, schedule: Schedule) {
    let mut bus = Bus::make(alloc, 0, &[5, 6, 30]).expect(rt, "a bus");
    act(rt, &schedule, &mut bus);
}

/// A schedule of the given actions, in a copy.
fn copied(rt: &impl Abort, alloc: Global) -> Schedule {
    let schedule = Schedule::of(given(rt, alloc));
    schedule.copy().expect(rt, "memory")
}

// Given ones, sorted ones, and a copy.
#[test]
fn those_of_a_number_act(rt: HostRuntime) {
    let alloc = rt.alloc();
    act_alone(&rt, alloc, Schedule::of(given(&rt, alloc)));
    act_alone(&rt, alloc, Schedule::of(sorted(&rt, alloc)));
    act_alone(&rt, alloc, copied(&rt, alloc));
}
