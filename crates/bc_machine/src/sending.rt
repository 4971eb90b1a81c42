//! The messages of a controller: those of its program, and those that its host has inserted.
ghost use Rattle.bc_machine.specs.Controller.{insertion_talk, outcome_in};
ghost use Rattle.controller_host.specs.Values.{latest_tick};
ghost use Rattle.bc_machine.specs.Frames.{most_ticks};
ghost use Rattle.bc_machine.specs.Hosting.{next_insertion};
ghost use Rattle.bc_machine.specs.MayStep.{IsAble};
ghost use Rattle.bc_machine.specs.Moves.{line_of};
ghost use Rattle.bc_machine.specs.Running.{moved_by, stepped, answered, latest_record, clock_in, world_in};
ghost use Rattle.bc_machine.specs.Running.{frames_point};
ghost use Rattle.bc_machine.specs.Running.{most_inserted, with_inserted, setting, bus_run};
ghost use Rattle.bc_machine.specs.Schedules.{MayControl};
ghost use Rattle.frame_code.specs.Table.{sends};
ghost use Rattle.frame_code.specs.declared.Op.TheVariants as op;
ghost use Rattle.mil_bus.specs.Exchange.{exchanged, now_of, talk_of};
ghost use Rattle.mil_line.specs.Ranges.{is_in_range};
ghost use Rattle.mil_monitor.specs.Observed.{observed};
ghost use Rattle.std.specs.List.{list_all};
ghost use Rattle.std.specs.Prelude.{◌≡◌, ◌<◌, ◌≤◌, ◌+◌, ◌-◌, ◌^◌, Some, None, true, if◌then◌else◌, slice_get, length};
ghost use Rattle.std.specs.Prelude.{unwrap_or, false};

use crate::Stepped;
use crate::outcomes::other;
use crate::parts::Parts;
use ch11_f1::Record;
use controller_host::Insertion;
use mil_bus::{Bus, Outcome, Talk, TalkCounts};
use mil_line::{Fault, Gap};
use mil_message::Message;
use mil_monitor::observe_with;
use mil_word::Line;

/// A controller sends at most so many messages.
const MOST_MESSAGES: u64 = 1_000_000;

/// The line of a message: its own, or the one other than the last.
pub fn line_for(alternates: bool, last: Line, own: Line) -> Line
    ensures { result ≡ line_of alternates last own }
{
    if alternates { other(last) } else { own }
}

/// A message as it is sent: with other words, or as it is.
fn sent_as<'a>(sourced: &'a Option<Message>, message: &'a Message) -> &'a Message
    ensures { result.now ≡ unwrap_or sourced.now message.now }
{
    match sourced {
        Some(sourced) => sourced,
        None => message,
    }
}

/// Exchanges a message on a bus: its record, and what it came to.
fn exchange(
    bus: &mut Bus,
    talk: &mut Talk,
    line: Line,
    message: &Message,
    gap: Gap,
    faults: &[Fault],
) -> (Record, Outcome)
    requires clock { now_of bus.old < 2 ^ 60 }
    requires in_range { list_all is_in_range faults.now ≡ true }
    ensures bus { bus.new ≡ exchanged bus.old line message.now gap faults.now }
    ensures answer { result.0 ≡ observed (talk_of bus.old line message.now gap faults.now) }
    ensures outcome { result.1 ≡ outcome_in (talk_of bus.old line message.now gap faults.now) }
    ensures soon { now_of bus.new ≤ now_of bus.old + 2 ^ 24 }
{
    let mut seen = TalkCounts::none();
    let verdict = bus.exchange_into(line, message, gap, faults, talk, &mut seen);
    (observe_with(talk, &seen, verdict.block), verdict.outcome)
}

impl Parts {
    /// Sends the message of an index, on its own line or on the line other than the last one's.
    fn send(&mut self, index: u16, alternates: bool) -> Stepped
        requires taken { self.old.taken < 2 ^ 31 }
        requires place { self.old.at.place < 4096 }
        requires message { index < length self.old.code.messages }
        requires number { self.old.point.number < 2 ^ 31 }
        requires counted { self.old.point.number ≡ length self.old.made }
        requires none { next_insertion self.old.placed (most_inserted self.old.code) self.old.made ≡ None }
        requires clock { clock_in self.old ≤ 2 ^ 48 }
        ensures value { self.new ≡ moved_by
            (sends (world_in self.old) (slice_get self.old.code.messages index)
            (line_of alternates self.old.at.line) self.old.at (frames_point self.old)) self.old }
        ensures answer { result ≡ latest_record self.new.point.state.talks }
        ensures soon { clock_in self.new ≤ clock_in self.old + 2 ^ 24 }
    {
        let (own, message) = &self.program.image().messages()[index as usize];
        let line = line_for(alternates, self.progress.line, *own);
        let sourced = self.agenda.send(&mut self.bus, message);
        let sent = sent_as(&sourced, message);
        let number = self.agenda.number();
        let faults = self.plan.faults(number);
        let came = exchange(
            &mut self.bus,
            &mut self.talk,
            line,
            sent,
            self.progress.gap,
            faults.as_slice(),
        );
        self.progress.note_sent(line, came.1);
        Stepped::Sent(came.0)
    }

    /// The same, where the host of the controller has asked for nothing: the message goes as it is.
    fn send_as_is(&mut self, index: u16, alternates: bool) -> Stepped
        requires taken { self.old.taken < 2 ^ 31 }
        requires place { self.old.at.place < 4096 }
        requires message { index < length self.old.code.messages }
        requires number { self.old.point.number < 2 ^ 31 }
        requires counted { self.old.point.number ≡ length self.old.made }
        requires free { MayControl false self.old.placed }
        requires clock { clock_in self.old ≤ 2 ^ 48 }
        ensures value { self.new ≡ moved_by
            (sends (world_in self.old) (slice_get self.old.code.messages index)
            (line_of alternates self.old.at.line) self.old.at (frames_point self.old)) self.old }
        ensures answer { result ≡ latest_record self.new.point.state.talks }
        ensures soon { clock_in self.new ≤ clock_in self.old + 2 ^ 24 }
    {
        let (own, message) = &self.program.image().messages()[index as usize];
        let line = line_for(alternates, self.progress.line, *own);
        self.agenda.send_as_is(&mut self.bus, message);
        let faults = self.plan.faults(self.agenda.number());
        let came = exchange(
            &mut self.bus,
            &mut self.talk,
            line,
            message,
            self.progress.gap,
            faults.as_slice(),
        );
        self.progress.note_sent(line, came.1);
        Stepped::Sent(came.0)
    }

    /// How many messages are inserted at most: so many that all are at most 1,000,000.
    pub(crate) fn most_inserted(&self) -> u64
        ensures { result ≡ most_inserted self.now.code }
    {
        MOST_MESSAGES - self.program.worst_messages()
    }

    /// The message of the host that is sent next, where the program sends one or has ended.
    fn waiting(&mut self) -> Option<Insertion>
        requires { length self.old.made < 2 ^ 31 }
        ensures value { result ≡ next_insertion self.old.placed (most_inserted self.old.code) self.old.made }
        ensures same { self.new ≡ self.old }
    {
        let most = self.most_inserted();
        self.agenda.next_insertion(most)
    }

    /// Sends the message that waits longest.
    fn insert(&mut self, insertion: &Insertion) -> Stepped
        requires number { self.old.point.number < 2 ^ 31 }
        requires counted { self.old.point.number ≡ length self.old.made }
        requires clock { clock_in self.old ≤ 2 ^ 48 }
        requires next { next_insertion self.old.placed (most_inserted self.old.code) self.old.made
            ≡ Some insertion.now }
        ensures value { self.new ≡ with_inserted self.old insertion.now }
        ensures answer { result ≡ Stepped.Inserted
            (observed (insertion_talk (setting self.old) self.old.point.gap insertion.now (bus_run self.old))) }
        ensures soon { clock_in self.new
            ≤ clock_in self.old + ((latest_tick - clock_in self.old) + 2 ^ 24) }
    {
        self.agenda.insert(&mut self.bus);
        let faults = self.plan.faults(self.agenda.number());
        let least_start = self.bus.hold(insertion.tick());
        let came = exchange(
            &mut self.bus,
            &mut self.talk,
            insertion.line(),
            insertion.message(),
            self.progress.gap,
            faults.as_slice(),
        );
        // The tick that this gives back is the insertion's.
        let _ = self.bus.hold(least_start);
        self.progress.latest = Some(came.1);
        Stepped::Inserted(came.0)
    }

    /// Sends the message of an index, or first the one that waits longest.
    #[inline(never)]
    fn send_or_insert(&mut self, index: u16, alternates: bool) -> Stepped
        requires able { IsAble self.old }
        requires there { slice_get self.old.code.operations self.old.at.place
            ≡ Some (if alternates then op.Alt index else op.Send index) }
        ensures value { self.new ≡ stepped self.old }
        ensures answer { result ≡ answered self.old }
        ensures soon { clock_in self.new ≤ clock_in self.old + most_ticks self.old }
    {
        match self.waiting() {
            Some(insertion) => self.insert(&insertion),
            None => self.send(index, alternates),
        }
    }

    /// Whether the host of the controller may have asked for something.
    fn has_controls(&self) -> bool
        ensures { MayControl result self.now.placed }
    {
        self.agenda.has_controls()
    }

    /// Sends the message of an index, or first the one that waits longest, with no look at what waits where the host of
    /// the controller has asked for nothing.
    pub(crate) fn send_next(&mut self, index: u16, alternates: bool) -> Stepped
        requires able { IsAble self.old }
        requires there { slice_get self.old.code.operations self.old.at.place
            ≡ Some (if alternates then op.Alt index else op.Send index) }
        ensures value { self.new ≡ stepped self.old }
        ensures answer { result ≡ answered self.old }
        ensures soon { clock_in self.new ≤ clock_in self.old + most_ticks self.old }
    {
        if self.has_controls() {
            return self.send_or_insert(index, alternates);
        }
        self.send_as_is(index, alternates)
    }

    /// At the end of the program: sends the message that waits longest, if one does.
    pub(crate) fn halt(&mut self) -> Stepped
        requires able { IsAble self.old }
        requires there { slice_get self.old.code.operations self.old.at.place ≡ Some op.Halt }
        ensures value { self.new ≡ stepped self.old }
        ensures answer { result ≡ answered self.old }
        ensures soon { clock_in self.new ≤ clock_in self.old + most_ticks self.old }
    {
        match self.waiting() {
            Some(insertion) => self.insert(&insertion),
            None => Stepped::Halted,
        }
    }
}
