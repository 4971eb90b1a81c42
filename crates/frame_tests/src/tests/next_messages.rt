//! What a controller sends next, told before it is sent, and faults that are planned for it then.

use crate::tests::controllers::{DROPPED, WRITTEN, controller};
use crate::tests::equal::same;
use crate::tests::records::{Row, sends};
use bc_machine::{Actions, Ended, HostAction, Machine};
use controller_host::{Control, Insertion};
use mil_line::{Fault, LineError, Plan};
use mil_message::{Draft, Message, ModeSubaddress};
use mil_word::Line;
use std::process::Abort;

/// A message as it is told: when it starts, its command word and its data words.
type Told = (u64, u16, &'static [u16]);

/// A fault of a reply that no message here is due.
const NONE: Fault = Fault::Drop { run: 2, index: 5 };

/// What is sent behind the end of the program.
const INSERTED: [Row; 1] = [(Some(5000), Some((0x0000, 0x0050)), &[0x2FE1, 0x2800])];

/// The controller stands at a message or at the end of its program, and tells this message.
fn tells(rt: &impl Abort, machine: &Machine, told: Option<Told>) {
    same(rt, &machine.may_send(), &true);
    let next = machine.next_message();
    match (&next, told) {
        (Some(next), Some((start, command, words))) => {
            let first = next.message.commands().first.value();
            same(rt, &(next.start, first), &(start, command));
            same(rt, &next.message.data_words(), &words);
        }
        (None, None) => {}
        _ => same(rt, &next.is_some(), &told.is_some()),
    }
}

/// No fault is taken that is out of its range, and no fifth one for a message.
fn refuses_faults(rt: &impl Abort, machine: &mut Machine) {
    let outside = machine.plan_next(Fault::Mute { run: 3 });
    same(rt, &outside, &Err(LineError::OutOfRange));
    for _ in 0..4 {
        machine.plan_next(NONE).expect(rt, "a fault");
    }
    same(rt, &machine.plan_next(NONE), &Err(LineError::TooMany));
}

/// A mode command, synchronize, to terminal 5, at tick 5000 or later.
fn insertion(rt: &impl Abort) -> HostAction {
    let draft = Draft::Mode {
        address: 5,
        subaddress: ModeSubaddress::ThirtyOne,
        code: 1,
        words: None,
    };
    let message = Message::check(draft).expect(rt, "a message");
    HostAction::Controller(Control::Insert(Insertion::make(5000, Line::A, message)))
}

/// What was planned and placed while it ran comes back.
fn gives_back(rt: &impl Abort, ended: &Ended) {
    let first = Fault::Drop { run: 0, index: 3 };
    same(rt, &ended.plan.faults(1).as_slice(), &[first].as_slice());
    same(rt, &ended.plan.faults(2).len(), &4);
    same(rt, &(ended.placed.len(), ended.posted.len()), &(0, 1));
}

// A message starts behind the gap that the one before asks for, and where it is inserted, not before its tick; a fault
// that is planned for it is a fault of it alone.
#[test]
fn messages_that_come_next(rt: HostRuntime) {
    let alloc = rt.alloc();
    let placed = Actions::new(alloc);
    let mut machine = controller(&rt, alloc, &WRITTEN, Plan::make(alloc), placed);
    tells(&rt, &machine, Some((0, 0x2823, &[1, 2, 3])));
    let drop = machine.plan_next(Fault::Drop { run: 0, index: 3 });
    same(&rt, &drop, &Ok(()));
    tells(&rt, &machine, Some((0, 0x2823, &[1, 2, 3])));
    sends(&rt, "a fault planned", &mut machine, 1, &DROPPED[..1]);
    refuses_faults(&rt, &mut machine);
    tells(&rt, &machine, Some((760, 0x2FE2, &[])));
    sends(&rt, "the others", &mut machine, 2, &DROPPED[1..]);
    tells(&rt, &machine, None);
    machine.room(1).expect(&rt, "memory");
    same(&rt, &machine.place(insertion(&rt)).is_ok(), &true);
    tells(&rt, &machine, Some((5000, 0x2FE1, &[])));
    sends(&rt, "a message inserted", &mut machine, 1, &INSERTED);
    gives_back(&rt, &machine.end());
}
