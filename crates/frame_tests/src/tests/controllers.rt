//! Controllers on real buses, against worked records.

use crate::tests::equal::same;
use crate::tests::loading::loaded;
use crate::tests::records::{Row, has_ended, sends};
use crate::tests::worked::LOOPS;
use bc_machine::{Actions, HostAction, Machine, Placed};
use mil_bus::Bus;
use mil_host::Action;
use mil_line::{Fault, Plan};
use std::alloc::Global;
use std::process::Abort;

/// `send A rx 5 1 [0001 0002 0003] send A mode 5 2 send A mode 5 2`
pub(crate) const WRITTEN: [u8; 46] = [
    0x42, 0x43, 0x30, 0x31, 4, 0, 2, 0, // the mark and the counts
    1, 0, 0, 0, 1, 0, 1, 0, 1, 0, 1, 0, 0, 0, 0, 0, // Send 0, Send 1, Send 1, Halt
    0, 0, 0x23, 0x28, 0, 0, 3, 0, 1, 0, 2, 0, 3, 0, // three words to terminal 5
    3, 0, 0xE2, 0x2F, 0, 0, 0, 0, // its status word
];

/// `send A tx 5 2 1 send A mode 5 18`
const ASKED: [u8; 36] = [
    0x42, 0x43, 0x30, 0x31, 3, 0, 2, 0, // the mark and the counts
    1, 0, 0, 0, 1, 0, 1, 0, 0, 0, 0, 0, // Send 0, Send 1, Halt
    1, 0, 0x41, 0x2C, 0, 0, 0, 0, // a word from terminal 5
    4, 0, 0xF2, 0x2F, 0, 0, 0, 0, // its last command word
];

/// `if fail { send A mode 5 1 }`
const CHOSEN: [u8; 40] = [
    0x42, 0x43, 0x30, 0x31, 6, 0, 1, 0, // the mark and the counts
    8, 0, 0, 0, 9, 0, 5, 0, 7, 0, 3, 0, // Test 0, JumpFalse 5, Jump 3
    1, 0, 0, 0, 7, 0, 5, 0, 0, 0, 0, 0, // Send 0, Jump 5, Halt
    3, 0, 0xE1, 0x2F, 0, 0, 0, 0, // the message
];

/// What `LOOPS` sends, where no terminal answers.
pub(crate) const NINE: [Row; 9] = [
    (Some(0), Some((0x1200, 0)), &[0x4821, 0x0001]),
    (Some(560), Some((0x3200, 0)), &[0x4821, 0x0001]),
    (Some(1120), Some((0x1200, 0)), &[0x4821, 0x0001]),
    (Some(1680), Some((0x1200, 0)), &[0x4821, 0x0001]),
    (Some(2240), Some((0x3200, 0)), &[0x4821, 0x0001]),
    (Some(2800), Some((0x1200, 0)), &[0x4821, 0x0001]),
    (Some(3360), Some((0x1200, 0)), &[0x4821, 0x0001]),
    (Some(3920), Some((0x3200, 0)), &[0x4821, 0x0001]),
    (Some(4480), Some((0x1200, 0)), &[0x4821, 0x0001]),
];

/// What `WRITTEN` sends, where the third data word is dropped.
pub(crate) const DROPPED: [Row; 3] = [
    (Some(0), Some((0x1220, 0x0000)), &[0x2823, 0x0001, 0x0002]),
    (Some(760), Some((0x0000, 0x0050)), &[0x2FE2, 0x2C00]),
    (Some(1240), Some((0x0000, 0x0050)), &[0x2FE2, 0x2C00]),
];

/// What `ASKED` sends, where terminal 5 is busy.
const BUSY: [Row; 2] = [
    (Some(0), Some((0x0000, 0x0050)), &[0x2C41, 0x2808]),
    (Some(480), Some((0x0000, 0x0050)), &[0x2FF2, 0x2808, 0x2C41]),
];

/// What a controller does.
#[derive(Clone, Copy)]
enum Play {
    /// It sends these rows in so many steps, and halts then.
    Out(u32, &'static [Row]),
    /// It sends what `WRITTEN` sends without a word of the first message.
    Drops,
    /// Its terminal 5 is busy, and answers, and so is that of a copy.
    Busy,
}

/// The controller sends these rows in so many steps, and halts then.
fn plays_out(rt: &impl Abort, machine: &mut Machine, steps: u32, rows: &[Row]) {
    sends(rt, "no fault and no action", machine, steps, rows);
    has_ended(rt, machine, rows.len());
}

/// The controller sends what `WRITTEN` sends without a word of the first message.
fn drops_one(rt: &impl Abort, machine: &mut Machine) {
    sends(rt, "a fault", machine, 4, &DROPPED);
    same(rt, &machine.bus().clock(), &(1240 + 460));
}

/// The last outcome: its status bits, whether it failed, and whether nothing answered.
fn last(machine: &Machine) -> Option<(u16, bool, bool)> {
    let last = machine.last_outcome()?;
    Some((last.bits, last.failed, last.silent))
}

/// Terminal 5 of the controller is busy, and answers.
fn is_busy(rt: &impl Abort, machine: &mut Machine) {
    same(rt, &last(machine), &None);
    sends(rt, "an action", machine, 3, &BUSY);
    same(rt, &last(machine), &Some((0x0008, false, false)));
}

/// So is that of a copy that was made before.
fn are_busy(rt: &impl Abort, machine: &mut Machine) {
    let mut copy = machine.copy().expect(rt, "memory");
    is_busy(rt, machine);
    is_busy(rt, &mut copy);
}

/// The controller does this.
fn does(rt: &impl Abort, machine: &mut Machine, play: &Play) {
    match play {
        Play::Out(steps, rows) => plays_out(rt, machine, *steps, rows),
        Play::Drops => drops_one(rt, machine),
        Play::Busy => are_busy(rt, machine),
    }
}

/// A controller of the image with these bytes, on a bus with terminal 5 alone, at tick 0.
pub(crate) fn controller(
    rt: &impl Abort,
    alloc: Global,
    image: &[u8],
    plan: Plan,
    placed: Actions,
) -> Machine {
    let bus = Bus::make(alloc, 0, &[5]).expect(rt, "a bus");
    Machine::start(loaded(rt, alloc, image), bus, plan, placed)
}

/// The controller of this image, with these faults and these actions, does this.
fn plays(rt: &impl Abort, alloc: Global, image: &[u8], plan: Plan, placed: Actions, play: &Play) {
    let mut machine = controller(rt, alloc, image, plan, placed);
    does(rt, &mut machine, play);
}

/// One with no fault and no action does this.
fn plays_alone(rt: &impl Abort, alloc: Global, image: &[u8], play: &Play) {
    plays(
        rt,
        alloc,
        image,
        Plan::make(alloc),
        Actions::new(alloc),
        play,
    );
}

// Retries take turns on the lines; before any message each test is false.
#[test]
fn images_that_are_played_out(rt: HostRuntime) {
    plays_alone(&rt, rt.alloc(), &LOOPS, &Play::Out(47, &NINE));
    plays_alone(&rt, rt.alloc(), &CHOSEN, &Play::Out(6, &[]));
}

/// No fault but a word of the first message that is not sent.
fn one_drop(rt: &impl Abort, alloc: Global) -> Plan {
    let mut plan = Plan::make(alloc);
    plan.add(1, Fault::Drop { run: 0, index: 3 })
        .expect(rt, "a fault");
    plan
}

/// Before the first message, terminal 5 becomes busy.
fn one_action(rt: &impl Abort, alloc: Global) -> Actions {
    let mut placed = Actions::new(alloc);
    let busy = Placed {
        number: 1,
        action: HostAction::Terminal {
            address: 5,
            action: Action::Busy(true),
        },
    };
    placed.push(busy).expect(rt, "memory");
    placed
}

// Faults of the first message alone, and an action before it.
#[test]
fn a_fault_and_an_action(rt: HostRuntime) {
    let alloc = rt.alloc();
    let plan = one_drop(&rt, alloc);
    plays(
        &rt,
        alloc,
        &WRITTEN,
        plan,
        Actions::new(alloc),
        &Play::Drops,
    );
    let placed = one_action(&rt, alloc);
    plays(&rt, alloc, &ASKED, Plan::make(alloc), placed, &Play::Busy);
}
