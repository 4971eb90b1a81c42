//! When something of a job is due, by time and by command, and which planned faults a message has.
ghost use Rattle.std.specs.Prelude.{◌≡◌, ◌<◌, ◌+◌, [], length};
ghost use Rattle.job_moments.specs.Planning.{MayStand};

use crate::tests::equal::same;
use arrayvec::ArrayVec;
use job_moments::{Met, Moment, Occasion, Occasions, Turns, Waiting};
use judge_rules::Selector;
use mil_line::Fault;
use mil_message::{Draft, Message};
use mil_word::Command;
use std::process::Abort;

/// A command to receive to terminal 5 at subaddress 1.
const RECEIVES: Selector = Selector::Receive {
    address: Some(5),
    subaddress: Some(1),
};

/// Five messages, by their starts and command words: terminal 5 receives at 1, transmits from 2, receives twice more
/// and transmits once more.
const MESSAGES: [(u64, u16); 5] = [
    (0, 0x2823),
    (1000, 0x2C40),
    (2000, 0x2823),
    (3000, 0x2823),
    (4000, 0x2C40),
];

/// A message with one command.
fn one(start: u64, command: u16) -> Met {
    Met {
        start,
        first: Command::of(command),
        second: None,
    }
}

/// Every so many messages, from one to another.
fn turns(first: u32, last: u32, step: u32) -> Turns
    ensures { result.step ≡ step }
{
    Turns { first, last, step }
}

/// One moment more, with a number.
fn wait(rt: &impl Abort, waiting: &mut Waiting<u32>, moment: Moment, number: u32)
    requires { waiting.old.made ≡ [] }
    ensures { waiting.new.made ≡ [] }
{
    waiting.push(moment, number).expect(rt, "memory");
}

/// The moment of this number is the first that is due in front of a message, and comes no more; or none is.
fn is_due(rt: &impl Abort, waiting: &mut Waiting<u32>, next: &Met, wanted: Option<u32>)
    requires { length waiting.old.made < 10 }
    ensures { length waiting.new.made ≡ length waiting.old.made }
{
    same(rt, &waiting.take_due(next), &wanted);
}

/// A message is made.
fn is_made(waiting: &mut Waiting<u32>, met: &Met)
    requires { length waiting.old.made < 10 }
    ensures { length waiting.new.made ≡ length waiting.old.made + 1 }
{
    waiting.meet(met);
}

/// A planned fault: the word of this index is left out.
fn plan(rt: &impl Abort, planned: &mut Occasions, occasion: Occasion, index: u32)
    requires made { planned.old.made ≡ [] }
    requires stands { MayStand occasion }
    ensures { planned.new.made ≡ [] }
{
    let fault = Fault::Drop { run: 0, index };
    planned.push(occasion, fault).expect(rt, "memory");
}

/// The next message has these faults, by the words that they leave out, and is made.
fn has(rt: &impl Abort, planned: &mut Occasions, next: &Met, wanted: &[u32])
    requires { length planned.old.made < 10 }
    ensures { length planned.new.made ≡ length planned.old.made + 1 }
{
    let found = planned.faults(next);
    let mut indices: ArrayVec<u32, 4> = ArrayVec::new();
    for fault in found.as_slice() {
        if let Fault::Drop { index, .. } = *fault {
            let _ = indices.try_push(index);
        }
    }
    same(rt, &indices.as_slice(), &wanted);
    planned.meet(next);
}

// The commands of a message between terminals: receive by 6 at 2, transmit from 5 at 1, three words.
#[test]
fn a_message_that_is_met(rt: HostRuntime) {
    let draft = Draft::Between {
        sender: 5,
        sender_subaddress: 1,
        receiver: 6,
        receiver_subaddress: 2,
        count: 3,
    };
    let message = Message::check(draft).expect(&rt, "a message");
    let wanted = Met {
        start: 760,
        first: Command::of(0x3043),
        second: Some(Command::of(0x2C23)),
    };
    same(&rt, &Met::of(760, &message), &wanted);
}

// The first message is due by its place among all; behind the second the third is due by its time, as the second to be
// received, and by its very tick, in the order of the text.
#[test]
fn moments_in_front_of_messages(rt: HostRuntime) {
    let second = Moment::Nth {
        selector: RECEIVES,
        place: 2,
    };
    let first = Moment::Nth {
        selector: Selector::Any,
        place: 1,
    };
    let mut waiting = Waiting::none(rt.alloc());
    wait(&rt, &mut waiting, Moment::Time(1500), 0);
    wait(&rt, &mut waiting, second, 1);
    wait(&rt, &mut waiting, first, 2);
    wait(&rt, &mut waiting, Moment::Time(2000), 3);
    let made = MESSAGES.map(|(start, command)| one(start, command));
    is_due(&rt, &mut waiting, &made[0], Some(2));
    is_due(&rt, &mut waiting, &made[0], None);
    is_made(&mut waiting, &made[0]);
    is_due(&rt, &mut waiting, &made[1], None);
    is_made(&mut waiting, &made[1]);
    is_due(&rt, &mut waiting, &made[2], Some(0));
    is_due(&rt, &mut waiting, &made[2], Some(1));
    is_due(&rt, &mut waiting, &made[2], Some(3));
    is_due(&rt, &mut waiting, &made[2], None);
}

// By number at 1, 3 and 5; at the first start at 1000 or later; as the second and third to be received; in a time, at
// both of its ends; as the third of all; and a fifth for the third message, which has four before it.
#[test]
fn faults_of_messages(rt: HostRuntime) {
    let mut planned = Occasions::none(rt.alloc());
    plan(&rt, &mut planned, Occasion::Numbers(turns(1, 5, 2)), 0);
    plan(&rt, &mut planned, Occasion::Once(Moment::Time(1000)), 1);
    let places = Occasion::Places {
        selector: RECEIVES,
        turns: turns(2, 3, 1),
    };
    plan(&rt, &mut planned, places, 2);
    let window = Occasion::Window {
        selector: RECEIVES,
        from: 2000,
        to: 3000,
    };
    plan(&rt, &mut planned, window, 3);
    let third = Moment::Nth {
        selector: Selector::Any,
        place: 3,
    };
    plan(&rt, &mut planned, Occasion::Once(third), 4);
    plan(&rt, &mut planned, Occasion::Numbers(turns(3, 3, 1)), 5);
    same(&rt, &planned.len(), &6);
    let made = MESSAGES.map(|(start, command)| one(start, command));
    has(&rt, &mut planned, &made[0], &[0]);
    has(&rt, &mut planned, &made[1], &[1]);
    has(&rt, &mut planned, &made[2], &[0, 2, 3, 4]);
    has(&rt, &mut planned, &made[3], &[2, 3]);
    has(&rt, &mut planned, &made[4], &[0]);
}
