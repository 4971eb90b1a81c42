//! The registers of a terminal, which stand for its history.
ghost use Rattle.mil_terminal.specs.History.{History};
ghost use Rattle.mil_terminal.specs.Host.{is_deaf, is_mute};
ghost use Rattle.mil_terminal.specs.Registers as registers;
ghost use Rattle.mil_terminal.specs.Replies as replies;
ghost use Rattle.mil_terminal.specs.Status.{status};
ghost use Rattle.mil_terminal.specs.Slots.{put_up_slots};
ghost use Rattle.mil_terminal.specs.Updates.{stored, words_open};
ghost use Rattle.mil_terminal.specs.Windows.{ended_by, is_listening};
ghost use Rattle.mil_terminal.specs.declared.events.Event.TheVariants.{Heard, Quiet, Host};
ghost use Rattle.mil_word.specs.Fields.{field_values, most_words};
ghost use Rattle.std.specs.Prelude.{◌≡◌, ℕ, ◌≤◌, ◌<◌, [], ◌∷◌, IfOk, length, slice_index_or};

use crate::addresses::Address;
use crate::blocks::Block;
use crate::commands::{is_bus_control, is_question, is_unknown};
use crate::conditions::Conditions;
use crate::host::Settings;
use crate::pending::{Pending, same_line};
use crate::sounds::Sound;
use crate::switches::Switches;
use crate::synced::Synced;
use arrayvec::ArrayVec;
use mil_host::Action;
use mil_line::Gap;
use mil_mode::codes::TRANSMIT_LAST_COMMAND;
use mil_word::fields::FIELD_VALUES;
use mil_word::{Command, Line};
use std::alloc::{AllocError, Global};

/// All that a terminal keeps.
#[derive(Drop)]
pub struct Registers {
    pub own: Address,
    pub window: Option<Pending>,
    pub host: Settings,
    pub conditions: Conditions,
    pub switches: Switches,
    pub synced: Synced,
    pub last_command: u16,
    pub block: Block,
}

/// The words of the window that is open.
#[inline]
fn words_open(window: &Option<Pending>) -> &[u16]
    ensures words { result.now ≡ words_open window.now }
    ensures few { length result.now ≤ most_words }
{
    match window {
        Some(pending) => pending.words.as_slice(),
        None => &[],
    }
}

/// The words of a good receive command go into their slot, unless the terminal is busy.
fn store(block: &mut Block, command: Command, busy: bool, words: &[u16])
    requires { length words.now ≤ most_words }
    ensures { block.new ≡ stored block.old command busy words.now }
{
    if command.is_receive() && !busy {
        let sub = command.subaddress() as usize;
        if command.is_broadcast() {
            block.store(FIELD_VALUES + sub, words);
        } else {
            block.store(sub, words);
        }
    }
}

impl Registers {
    ghost use Rattle.mil_terminal.specs.StandsFor.{StandsFor};
    ghost use Rattle.mil_terminal.specs.Updates.{is_barred, is_marked_now, told, with_open_window, settled, acted};
    ghost use Rattle.mil_terminal.specs.Updates.{renewed, shut, ending, after_end, end_answer};

    /// The registers of a terminal that has met nothing yet. All room is made here.
    pub fn make(alloc: Global, own: Address) -> Result<Registers, AllocError>
        ensures stands { IfOk result (λ r. StandsFor r []) }
        ensures own { IfOk result (λ r. r.own ≡ own) }
    {
        let block = Block::empty(alloc)?;
        Ok(Registers {
            own,
            window: None,
            host: Settings::at_first(),
            conditions: Conditions::none(),
            switches: Switches::none(),
            synced: Synced::none(),
            last_command: 0,
            block,
        })
    }

    /// A word on a line.
    #[inline(always)]
    pub fn hear(&mut self, line: Line, sound: &Sound, gap: Gap)
        ensures stands { (h : History) → StandsFor self.old h → StandsFor self.new (Heard line sound.now gap ∷ h) }
        ensures own { self.new.own ≡ self.old.own }
    {
        match sound.command_to(self.own, self.host.broadcast) {
            Some(command) => self.open(line, command),
            None => {
                if let Some(pending) = &mut self.window {
                    if same_line(line, pending.line) {
                        pending.take_word(self.own, sound, gap);
                    }
                }
            }
        }
    }

    /// The status that a window sets when it ends, unless it asks for that which there was.
    fn tell(&mut self, command: Command, good: bool, asks: bool)
        ensures { self.new ≡ told self.old command good asks }
    {
        if !asks {
            self.conditions = Conditions {
                message_error: !good,
                service_request: self.host.service,
                broadcast: command.is_broadcast(),
                busy: self.host.busy,
                subsystem: self.host.subsystem,
                control: good && is_bus_control(command) && self.host.control,
                terminal: self.host.fault && !self.switches.inhibits(command, good),
            };
        }
    }

    #[inline(always)]
    fn open(&mut self, line: Line, command: Command)
        ensures { self.new ≡ with_open_window self.old line command }
    {
        if let Some(pending) = self.window.take() {
            let asks = is_question(self.own, pending.command);
            self.tell(pending.command, false, asks);
        }
        self.window = Some(Pending::open(line, command));
        if !(is_question(self.own, command) && command.code() == TRANSMIT_LAST_COMMAND) {
            self.last_command = command.value();
        }
    }

    /// A quiet on a line; where the terminal answers, the gap of its reply, whose words are put in place of others.
    pub fn quiet<const CAP: usize>(
        &mut self,
        line: Line,
        words: &mut ArrayVec<u16, CAP>,
    ) -> Option<Gap>
        requires room { 33 ≤ CAP }
        ensures stands { (h : History) → StandsFor self.old h → StandsFor self.new (Quiet line ∷ h) }
        ensures own { self.new.own ≡ self.old.own }
        ensures reply { (h : History) → StandsFor self.old h → replies.reply_if result words.new.items
            ≡ replies.reply_to self.old.own (ended_by self.old.own (Quiet line) h) (Quiet line ∷ h) }
    {
        match &mut self.window {
            None => None,
            Some(pending) => {
                if same_line(line, pending.line) {
                    match pending.take_quiet() {
                        None => None,
                        Some(shape) => {
                            let command = pending.command;
                            self.settle(line, command, shape, words)
                        }
                    }
                } else {
                    None
                }
            }
        }
    }

    /// The window that is open ends by its last quiet; its line and its command.
    fn settle<const CAP: usize>(
        &mut self,
        line: Line,
        command: Command,
        shape: bool,
        words: &mut ArrayVec<u16, CAP>,
    ) -> Option<Gap>
        requires room { 33 ≤ CAP }
        ensures after { self.new ≡ after_end (shut self.old) (ending self.old line command) shape }
        ensures reply { replies.reply_if result words.new.items
            ≡ end_answer (shut self.old) (ending self.old line command) shape }
    {
        let answers = shape && command.address() == self.own.value() && self.switches.is_on(line);
        let barred = self.bars(command);
        let good = shape && !barred;
        let asks = is_question(self.own, command) && !(shape && barred);
        self.conclude(line, command, good, asks);
        if answers {
            Some(self.respond(command, good, words))
        } else {
            None
        }
    }

    /// Whether the command is illegal: unknown here, or marked by the host.
    fn bars(&self, command: Command) -> bool
        ensures { result ≡ is_barred self.now command }
    {
        is_unknown(command) || self.marks_command(command)
    }

    /// Whether the host has marked the command.
    fn marks_command(&self, command: Command) -> bool
        ensures { result ≡ is_marked_now self.now command }
    {
        let marks = &self.host.marks;
        if command.is_mode() {
            marks.has_mode(command.is_transmit(), command.code())
        } else {
            marks.has(command.is_transmit(), command.subaddress(), command.count())
        }
    }

    /// The window that is open is shut; its words go where a good command has them.
    fn conclude(&mut self, line: Line, command: Command, good: bool, asks: bool)
        ensures { self.new ≡ settled (shut self.old) line command good asks (words_open self.old.window) }
    {
        self.tell(command, good, asks);
        if good {
            self.carry_out(line, command);
        }
        self.window = None;
    }

    /// A good command is carried out with the words of the window that is open.
    fn carry_out(&mut self, line: Line, command: Command)
        ensures { self.new ≡ acted self.old line command (words_open self.old.window) }
    {
        let words = words_open(&self.window);
        self.switches.act(line, command);
        self.synced.act(command, words, self.host.self_test);
        store(&mut self.block, command, self.host.busy, words);
    }

    /// An action of the host.
    pub fn act(&mut self, action: &Action)
        ensures stands { (h : History) → StandsFor self.old h → StandsFor self.new (Host action.now ∷ h) }
        ensures own { self.new.own ≡ self.old.own }
    {
        self.host.set(action);
        match action {
            Action::Transmit(put) => self.block.put_words(put.sub(), put.words()),
            Action::Ramp(ramp) => self
                .block
                .put_ramp(ramp.sub(), ramp.index() - 1, ramp.start(), ramp.add()),
            Action::BitWord(word) => self.synced.bit_word = *word,
            Action::Power(on) => {
                if *on {
                    self.renew();
                }
            }
            _ => {}
        }
    }

    /// The terminal is turned on: it is as at first, but for what its host has set.
    fn renew(&mut self)
        ensures renewed { self.new ≡ renewed self.old self.new.block }
        ensures cleared { (slot : ℕ) → slot < put_up_slots → slice_index_or self.new.block slot [] ≡ [] }
        ensures kept { (slot : ℕ) → put_up_slots ≤ slot
            → slice_index_or self.new.block slot [] ≡ slice_index_or self.old.block slot [] }
        ensures long { length self.new.block ≡ length self.old.block }
    {
        self.window = None;
        self.conditions = Conditions::none();
        self.switches = Switches::none();
        self.synced = Synced {
            sync_word: 0,
            bit_word: self.host.bit,
        };
        self.last_command = 0;
        self.block.clear_received();
    }

    /// Whether a window is open on the line that is not decided yet.
    pub fn listens(&self, line: Line) -> bool
        ensures { (h : History) → StandsFor self.now h → result ≡ is_listening self.now.own line h }
    {
        match &self.window {
            Some(pending) => same_line(line, pending.line),
            None => false,
        }
    }

    /// The status word.
    pub fn status(&self) -> u16
        ensures { (h : History) → StandsFor self.now h → result ≡ status self.now.own h }
    {
        self.conditions.word(self.own)
    }

    /// The last command.
    pub fn last_command(&self) -> u16
        ensures { (h : History) → StandsFor self.now h → result ≡ registers.last_command self.now.own h }
    {
        self.last_command
    }

    /// The vector word.
    pub fn vector(&self) -> u16
        ensures { (h : History) → StandsFor self.now h → result ≡ registers.vector h }
    {
        self.host.vector
    }

    /// The BIT word.
    pub fn bit_word(&self) -> u16
        ensures { (h : History) → StandsFor self.now h → result ≡ registers.bit_word self.now.own h }
    {
        self.synced.bit_word
    }

    /// The sync word.
    pub fn sync_word(&self) -> u16
        ensures { (h : History) → StandsFor self.now h → result ≡ registers.sync_word self.now.own h }
    {
        self.synced.sync_word
    }

    /// Whether the transmitter of the line is on.
    pub fn transmitter_on(&self, line: Line) -> bool
        ensures { (h : History) → StandsFor self.now h → result ≡ registers.is_transmitter_on self.now.own line h }
    {
        self.switches.is_on(line)
    }

    /// Whether the terminal flag is inhibited.
    pub fn flag_inhibited(&self) -> bool
        ensures { (h : History) → StandsFor self.now h → result ≡ registers.is_flag_inhibited self.now.own h }
    {
        self.switches.inhibited
    }

    /// Whether the terminal is deaf on the line.
    #[inline]
    pub fn deaf(&self, line: Line) -> bool
        ensures { (h : History) → StandsFor self.now h → result ≡ is_deaf line h }
    {
        self.host.deaf.has(line)
    }

    /// Whether it is mute there.
    #[inline]
    pub fn mute(&self, line: Line) -> bool
        ensures { (h : History) → StandsFor self.now h → result ≡ is_mute line h }
    {
        self.host.mute.has(line)
    }

    /// The words that were received at the subaddress.
    pub fn received(&self, sub: u8) -> &[u16]
        requires { sub < field_values }
        ensures { (h : History) → StandsFor self.now h → result.now ≡ registers.received self.now.own sub h }
    {
        self.block.at(sub as usize)
    }

    /// The words that were received there from all.
    pub fn received_from_all(&self, sub: u8) -> &[u16]
        requires { sub < field_values }
        ensures { (h : History) → StandsFor self.now h → result.now ≡ registers.received_from_all self.now.own sub h }
    {
        self.block.at(FIELD_VALUES + sub as usize)
    }

    /// The words that a transmit command there sends.
    pub fn transmit_words(&self, sub: u8) -> &[u16]
        requires { sub < field_values }
        ensures { (h : History) → StandsFor self.now h → result.now ≡ replies.transmit_words self.now.own sub h }
    {
        self.put_up(sub)
    }

    /// The same registers.
    pub fn copy(&self) -> Result<Registers, AllocError>
        ensures { IfOk result (λ r. r ≡ self.now) }
    {
        let block = self.block.copy()?;
        Ok(Registers {
            own: self.own,
            window: match &self.window {
                Some(pending) => Some(pending.copy()),
                None => None,
            },
            host: self.host.copy(),
            conditions: self.conditions,
            switches: self.switches,
            synced: self.synced,
            last_command: self.last_command,
            block,
        })
    }
}
