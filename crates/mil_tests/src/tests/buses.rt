//! A bus with its planned faults, driven message by message, and what a monitor keeps of each: the figures of the tests
//! below it are worked out by hand from the rules.
use crate::tests::actions::action;
use crate::tests::equal::{are_in, same_in};
use crate::tests::messages::message;
use crate::tests::terminals::{has_received, has_received_from_all};
use ch11_f1::Record;
use mil_bus::{Bus, Talk, TalkCounts};
use mil_line::{Fault, Gap, LineError, Plan};
use mil_message::{Draft, ModeSubaddress};
use mil_monitor::observe_with;
use mil_word::{Line, Sync, Wave, Word};
use std::alloc::Global;
use std::process::Abort;

mod addresses;
mod failing;
mod faults;
mod irregular;
mod messages;
mod paces;
mod wholes;

/// A bus with its plan, and the number of the last message.
#[derive(Drop)]
struct Setting {
    bus: Bus,
    plan: Plan,
    number: u32,
    /// Room for a talk, which holds that of the last message.
    room: Talk,
}

/// What happens on a bus, by its name, and what is found then.
type Script = (&'static str, &'static [Step]);

/// The words of a record, in parts.
type Parts = &'static [&'static [u16]];

/// A step of a script.
#[derive(Clone, Copy)]
enum Step {
    /// An action of a terminal's host, by its text.
    Act(u8, &'static str),
    /// There is no terminal of this address, which takes an action.
    NoTerminal(u8),
    /// One more fault of a message.
    Plan(u32, Flaw),
    /// The next message, on a line, has a record of these words.
    Gives(Line, Asked, Beside, &'static [u16]),
    /// The same on line A, where the words are told in parts.
    GivesParts(Asked, Beside, Parts),
    /// One more fault of a message is one too many.
    TooMany(u32, Flaw),
    /// How many faults of a message are planned.
    Planned(u32, usize),
    /// At a terminal, a receive command to a subaddress left these words.
    Received(u8, u8, &'static [u16]),
    /// At a terminal, a receive command to all left these words at a subaddress.
    ReceivedFromAll(u8, u8, &'static [u16]),
    /// At each of 31 terminals but one, a receive command to all left these words at a subaddress, and none there.
    AllReceivedBut(Option<u8>, u8, &'static [u16]),
    /// Each of 31 terminals, asked for its status word alone, has these bits in it.
    AllTell(u16),
    /// The bus's clock.
    Clock(u64),
    /// No talk starts before this tick.
    Pace(u64),
    /// When the bus stands.
    Now(u64),
}

/// A fault.
#[derive(Clone, Copy)]
enum Flaw {
    /// A word from the controller is left out.
    Drop(u32),
    /// A data word is added behind a word from the controller.
    Add(u32, u16),
    /// Half bits of a word from the controller are inverted.
    Mask(u32, u64),
    /// A word of the first reply is left out.
    DropReply(u32),
    /// A data word is added behind a word of the first reply.
    AddReply(u32, u16),
    /// The first reply comes after so many ticks.
    Late(u32),
    /// The first reply is not sent.
    Mute,
    /// The first reply comes after so many ticks, sooner than it may.
    Early(u32),
    /// Before the word at a place of a run there are so many ticks.
    Pause(u32, u32, u32),
    /// So many data words more behind a run.
    Babble(u32, u32, u16),
}

/// What is compared of a record beside its words.
#[derive(Clone, Copy)]
enum Beside {
    /// The stamp, the block status and the gaps.
    All(u64, u16, u16),
    /// The block status and the gaps.
    Block(u16, u16),
    Nothing,
}

/// What is asked for.
#[derive(Clone, Copy)]
enum Asked {
    /// Words to a subaddress of terminal 5.
    Receive(u32, &'static [u16]),
    /// So many words from a subaddress of terminal 5.
    Transmit(u32, u32),
    /// A mode command to a terminal, without written words.
    Mode(u32, u32),
    /// A mode command to terminal 5, with written words.
    ModeWith(u32, &'static [u16]),
    /// A mode command to all, without written words.
    ModeToAll(u32),
    /// A mode command to all, with written words.
    ModeToAllWith(u32, &'static [u16]),
    /// Words to a subaddress of all.
    ToAll(u32, &'static [u16]),
    /// So many words from subaddress 1 of terminal 7 to subaddress 4 of terminal 3.
    Between(u32),
    /// So many words from subaddress 1 of terminal 7 to subaddress 4 of all others.
    BetweenAll(u32),
}

/// The draft of what is asked for.
fn draft_of(asked: Asked) -> Draft<'static> {
    match asked {
        Asked::Receive(subaddress, words) => Draft::ToTerminal {
            address: 5,
            subaddress,
            words,
        },
        Asked::Transmit(subaddress, count) => Draft::FromTerminal {
            address: 5,
            subaddress,
            count,
        },
        Asked::Mode(address, code) => mode(address, code, None),
        Asked::ModeWith(code, words) => mode(5, code, Some(words)),
        Asked::ModeToAll(code) => mode_to_all(code, None),
        Asked::ModeToAllWith(code, words) => mode_to_all(code, Some(words)),
        Asked::ToAll(subaddress, words) => Draft::ToAll { subaddress, words },
        Asked::Between(count) => Draft::Between {
            sender: 7,
            sender_subaddress: 1,
            receiver: 3,
            receiver_subaddress: 4,
            count,
        },
        Asked::BetweenAll(count) => Draft::BetweenAll {
            sender: 7,
            sender_subaddress: 1,
            receiver_subaddress: 4,
            count,
        },
    }
}

/// A mode command to a terminal.
fn mode(address: u32, code: u32, words: Option<&'static [u16]>) -> Draft<'static> {
    Draft::mode_command(address, ModeSubaddress::ThirtyOne, code, words)
}

/// A mode command to all.
fn mode_to_all(code: u32, words: Option<&'static [u16]>) -> Draft<'static> {
    Draft::mode_command_to_all(ModeSubaddress::ThirtyOne, code, words)
}

/// A data word of this value.
fn data_word(value: u16) -> Word {
    Word {
        sync: Sync::DataSync,
        value,
    }
}

/// The fault that is meant.
fn fault_of(flaw: Flaw) -> Fault {
    match flaw {
        Flaw::Drop(index) => Fault::Drop { run: 0, index },
        Flaw::Add(index, value) => Fault::Add {
            run: 0,
            index,
            word: data_word(value),
        },
        Flaw::DropReply(index) => Fault::Drop { run: 1, index },
        Flaw::AddReply(index, value) => Fault::Add {
            run: 1,
            index,
            word: data_word(value),
        },
        Flaw::Mask(index, half_bits) => Fault::Mask {
            run: 0,
            index,
            half_bits: Wave::of(half_bits % 0x100_0000_0000),
        },
        Flaw::Late(ticks) => Fault::Late { run: 1, ticks },
        Flaw::Mute => Fault::Mute { run: 1 },
        Flaw::Early(ticks) => Fault::Early { run: 1, ticks },
        Flaw::Pause(run, index, ticks) => Fault::Pause { run, index, ticks },
        Flaw::Babble(run, count, word) => Fault::Babble { run, count, word },
    }
}

/// New terminals of these addresses, and no fault.
fn fresh(rt: &impl Abort, alloc: Global, addresses: &[u8]) -> Setting {
    let bus = Bus::make(alloc, 0, addresses).expect(rt, "a bus");
    Setting::of(bus, Plan::make(alloc), 0)
}

/// Scripts, each on a bus of its own with new terminals of these addresses and no fault.
fn are_played(rt: &impl Abort, alloc: Global, addresses: &[u8], scripts: &[Script]) {
    for (name, steps) in scripts {
        let mut setting = fresh(rt, alloc, addresses);
        setting.plays(rt, name, steps);
    }
}

/// Words are those of these parts, one behind the other.
fn are_parts(rt: &impl Abort, row: &str, words: &[u16], parts: &[&[u16]]) {
    let mut rest = words;
    for part in parts {
        let (first, behind) = rest.split_at(part.len().min(rest.len()));
        are_in(rt, row, first, part);
        rest = behind;
    }
    are_in(rt, row, rest, &[]);
}

/// A record is as it should be.
fn is_kept(rt: &impl Abort, row: &str, record: &Record, beside: Beside, parts: &[&[u16]]) {
    match beside {
        Beside::All(stamp, block, gaps) => {
            let found = (record.stamp, record.block, record.gaps);
            same_in(rt, row, &found, &(stamp, block, gaps));
        }
        Beside::Block(block, gaps) => {
            same_in(rt, row, &(record.block, record.gaps), &(block, gaps));
        }
        Beside::Nothing => {}
    }
    are_parts(rt, row, record.words.as_slice(), parts);
}

impl Setting {
    /// A bus and its plan behind so many messages.
    fn of(bus: Bus, plan: Plan, number: u32) -> Setting {
        Setting {
            bus,
            plan,
            number,
            room: Talk::none(),
        }
    }

    /// These steps, one after the other.
    fn plays(&mut self, rt: &impl Abort, row: &str, steps: &[Step]) {
        for step in steps {
            self.step(rt, row, *step);
        }
    }

    fn step(&mut self, rt: &impl Abort, row: &str, step: Step) {
        match step {
            Step::Act(address, text) => self.act(rt, row, address, text),
            Step::NoTerminal(address) => self.has_none(rt, row, address),
            Step::Plan(number, flaw) => self.answers(rt, row, number, flaw, Ok(())),
            Step::TooMany(number, flaw) => {
                self.answers(rt, row, number, flaw, Err(LineError::TooMany))
            }
            Step::Planned(number, count) => {
                same_in(rt, row, &self.plan.faults(number).len(), &count)
            }
            Step::Gives(line, asked, beside, words) => {
                self.gives(rt, row, line, asked, beside, &[words])
            }
            Step::GivesParts(asked, beside, parts) => {
                self.gives(rt, row, Line::A, asked, beside, parts)
            }
            Step::Received(address, subaddress, words) => {
                self.has_received(rt, row, address, subaddress, words)
            }
            Step::ReceivedFromAll(address, subaddress, words) => {
                self.has_received_from_all(rt, row, address, subaddress, words)
            }
            Step::AllReceivedBut(none, subaddress, words) => {
                self.all_received_but(rt, row, none, subaddress, words)
            }
            Step::AllTell(bits) => self.all_tell(rt, row, bits),
            Step::Clock(ticks) => same_in(rt, row, &self.bus.clock(), &ticks),
            Step::Pace(tick) => self.bus.pace(tick),
            Step::Now(ticks) => same_in(rt, row, &self.bus.now(), &ticks),
        }
    }

    /// The same bus and plan once more.
    fn copy(&self, rt: &impl Abort) -> Setting {
        let plan = self.plan.copy().expect(rt, "memory");
        let bus = self.bus.copy().expect(rt, "memory");
        Setting::of(bus, plan, self.number)
    }

    /// The record of the next message.
    fn send(&mut self, rt: &impl Abort, line: Line, draft: Draft<'_>) -> Record {
        assert!(rt; self.bus.now() < 1 << 60);
        let message = message(rt, draft);
        self.number = self.number.wrapping_add(1);
        let faults = self.plan.faults(self.number);
        let mut seen = TalkCounts::none();
        let verdict = self.bus.exchange_into(
            line,
            &message,
            Gap::of(40),
            faults.as_slice(),
            &mut self.room,
            &mut seen,
        );
        observe_with(&self.room, &seen, verdict.block)
    }

    /// The next message has a record of these words, told in parts.
    fn gives(
        &mut self,
        rt: &impl Abort,
        row: &str,
        line: Line,
        asked: Asked,
        beside: Beside,
        parts: &[&[u16]],
    ) {
        let record = self.send(rt, line, draft_of(asked));
        is_kept(rt, row, &record, beside, parts);
    }

    /// What the plan answers to one more fault of a message.
    fn answers(
        &mut self,
        rt: &impl Abort,
        row: &str,
        number: u32,
        flaw: Flaw,
        wanted: Result<(), LineError>,
    ) {
        same_in(rt, row, &self.plan.add(number, fault_of(flaw)), &wanted);
    }

    /// An action of a terminal's host, by its text.
    fn act(&mut self, rt: &impl Abort, row: &str, address: u8, text: &str) {
        let acted = self.bus.act(address, &action(rt, text));
        same_in(rt, row, &acted, &true);
    }

    /// No terminal of this address takes an action.
    fn has_none(&mut self, rt: &impl Abort, row: &str, address: u8) {
        let acted = self.bus.act(address, &action(rt, "busy on"));
        let found = (acted, self.bus.terminal(address).is_none());
        same_in(rt, row, &found, &(false, true));
    }

    /// A receive command to a terminal left these words there.
    fn has_received(&self, rt: &impl Abort, row: &str, address: u8, subaddress: u8, words: &[u16]) {
        let terminal = self.bus.terminal(address).expect(rt, "no such terminal");
        has_received(rt, row, terminal, subaddress, words);
    }

    /// A receive command to all left these words at a terminal.
    fn has_received_from_all(
        &self,
        rt: &impl Abort,
        row: &str,
        address: u8,
        subaddress: u8,
        words: &[u16],
    ) {
        let terminal = self.bus.terminal(address).expect(rt, "no such terminal");
        has_received_from_all(rt, row, terminal, subaddress, words);
    }
}
