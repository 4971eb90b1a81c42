//! The message that the next step sends: when it starts, and as what it is sent, with no look at what is answered.
ghost use Rattle.bc_machine.specs.Controller.{insertion_talk};
ghost use Rattle.bc_machine.specs.Hosting.{next_insertion};
ghost use Rattle.bc_machine.specs.MayStep.{IsAble};
ghost use Rattle.bc_machine.specs.NextMessage.{coming_talk, in_advance, talk_of_own};
ghost use Rattle.bc_machine.specs.Running.{bus_run, clock_in, most_inserted, setting, stops_at};
ghost use Rattle.controller_host.specs.Values.{InsertionValue};
ghost use Rattle.frame_code.specs.declared.Op.TheVariants as op;
ghost use Rattle.std.specs.Option.{option_map};
ghost use Rattle.std.specs.Prelude.{◌≡◌, ◌<◌, ◌≤◌, ◌^◌, Bool, Some, length, slice_get, if◌then◌else◌, IfSome};

use crate::laws::BusSetting;
use crate::machine::Machine;
use crate::parts::Parts;
use controller_host::Insertion;
use frame_code::Op;
use frame_load::loadable_runs;
use mil_message::Message;

/// A message that is about to be sent.
#[derive(Debug, Drop, PartialEq, Eq)]
pub struct NextMessage {
    /// The tick at which its first word starts, in ticks of 0.1 µs.
    pub start: u64,
    /// The message as it is sent, with the words that the host of the controller asks for.
    pub message: Message,
}

impl Parts {
    /// A message that waits, as it is sent next.
    fn next_of_host(&self, insertion: &Insertion) -> NextMessage
        requires { clock_in self.now ≤ 2 ^ 48 }
        ensures value { result
            ≡ in_advance (insertion_talk (setting self.now) self.now.point.gap insertion.now (bus_run self.now)) }
        ensures soon { result.start < 2 ^ 49 }
    {
        let start = self.bus.next_start(self.progress.gap);
        NextMessage {
            start: start.max(insertion.tick()),
            message: insertion.message().copy(),
        }
    }

    /// The message that waits longest, as it is sent next; None where none waits.
    fn next_waiting(&self) -> Option<NextMessage>
        requires number { length self.now.made < 2 ^ 31 }
        requires clock { clock_in self.now ≤ 2 ^ 48 }
        ensures value { result ≡ option_map
            (λ (x : InsertionValue).
            in_advance (insertion_talk (setting self.now) self.now.point.gap x (bus_run self.now)))
            (next_insertion self.now.placed (most_inserted self.now.code) self.now.made) }
        ensures soon { IfSome result (λ next. next.start < 2 ^ 49) }
    {
        match self.agenda.coming_insertion(self.most_inserted()) {
            Some(insertion) => Some(self.next_of_host(&insertion)),
            None => None,
        }
    }

    /// The message of an index, as it is sent next on either line.
    fn next_of_script(&self, index: u16) -> NextMessage
        requires message { index < length self.now.code.messages }
        requires number { length self.now.made < 2 ^ 31 }
        requires clock { clock_in self.now ≤ 2 ^ 48 }
        ensures value { (alternates : Bool) → Some result
            ≡ option_map in_advance (talk_of_own self.now alternates (slice_get self.now.code.messages index)) }
        ensures soon { result.start < 2 ^ 49 }
    {
        let (_, message) = &self.program.image().messages()[index as usize];
        NextMessage {
            start: self.bus.talk_start(self.progress.gap),
            message: self.agenda.coming_own(message),
        }
    }

    /// The message of an index as it is sent next, or the one that waits longest.
    fn next_either(&self, index: u16, alternates: bool) -> NextMessage
        requires able { IsAble self.now }
        requires there { slice_get self.now.code.operations self.now.at.place
            ≡ Some (if alternates then op.Alt index else op.Send index) }
        ensures value { Some result ≡ option_map in_advance (coming_talk self.now) }
        ensures soon { result.start < 2 ^ 49 }
    {
        // Named for the contract alone: the line plays no part.
        let _ = alternates;
        match self.next_waiting() {
            Some(next) => next,
            None => self.next_of_script(index),
        }
    }

    /// The message that the next step sends; None where it sends none.
    fn next_message(&self) -> Option<NextMessage>
        requires { IsAble self.now }
        ensures value { result ≡ option_map in_advance (coming_talk self.now) }
        ensures soon { IfSome result (λ next. next.start < 2 ^ 49) }
    {
        match self.op() {
            Op::Send(index) => Some(self.next_either(index, false)),
            Op::Alt(index) => Some(self.next_either(index, true)),
            Op::Halt => self.next_waiting(),
            _ => None,
        }
    }

    /// Whether the operation that is next sends a message or ends the program.
    fn may_send(&self) -> bool
        requires { self.now.at.place < length self.now.code.operations }
        ensures { result ≡ stops_at (slice_get self.now.code.operations self.now.at.place) }
    {
        matches!(self.op(), Op::Halt | Op::Send(_) | Op::Alt(_))
    }
}

impl Machine {
    /// Whether the operation that is next sends a message or ends the program: in front of it the messages are sent
    /// that the host of the controller has inserted, so the next step may send one. No other operation sends any.
    pub fn may_send(&self) -> bool
        ensures { result ≡ stops_at (slice_get self.now.code.operations self.now.at.place) }
    {
        loadable_runs::<BusSetting>();
        self.parts.may_send()
    }

    /// The message that the next step sends, of the script or inserted, and when it starts, below tick 2^49; None where
    /// the next step sends none. It takes no memory, and no message is exchanged.
    pub fn next_message(&self) -> Option<NextMessage>
        ensures value { result ≡ option_map in_advance (coming_talk self.now) }
        ensures soon { IfSome result (λ next. next.start < 2 ^ 49) }
    {
        loadable_runs::<BusSetting>();
        self.parts.next_message()
    }
}
