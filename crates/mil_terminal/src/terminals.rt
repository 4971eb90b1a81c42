//! The remote terminal.
ghost use Rattle.mil_terminal.specs.Host as host;
ghost use Rattle.mil_terminal.specs.Host.{is_deaf, is_mute};
ghost use Rattle.mil_terminal.specs.PutUp.{ramp_at};
ghost use Rattle.mil_terminal.specs.Registers as registers;
ghost use Rattle.mil_terminal.specs.Replies as replies;
ghost use Rattle.mil_terminal.specs.Runs.{heard, met, after_all};
ghost use Rattle.mil_terminal.specs.Service.{requests_service, waits_once};
ghost use Rattle.mil_terminal.specs.Station.{after};
ghost use Rattle.mil_terminal.specs.Status as statuses;
ghost use Rattle.mil_terminal.specs.Windows as windows;
ghost use Rattle.mil_terminal.specs.declared.events.Event.TheVariants.{Heard, Quiet, Host};
ghost use Rattle.mil_word.specs.Fields.{field_values, highest_address, highest_subaddress};
ghost use Rattle.mil_word.specs.Wave.{word_of};
ghost use Rattle.mil_word.specs.Words.{data_wave};
ghost use Rattle.mil_word.specs.declared.Line.{Line as LineValue};
ghost use Rattle.std.specs.Prelude.{◌≡◌, ◌<◌, ◌≤◌, ◌↔◌, ◌/◌, ◌%◌, ◌^◌, ◌==◌, Err, None, [], false, IfOk, map};

use crate::addresses::Address;
use crate::readers::HostConditions;
use crate::registers::Registers;
use crate::replies::Reply;
use crate::sounds::Sound;
use crate::{Event, TerminalError};
use arrayvec::ArrayVec;
use history::History;
use mil_host::Action;
use mil_line::Gap;
use mil_word::fields::HIGHEST_ADDRESS;
use mil_word::{Line, Sync, Wave, Word, decode, encode};
use std::alloc::{AllocError, Global};
use std::marker::Model;

/// A remote terminal. Contracts see its address and the history of what it has met, the newest event first; it holds no
/// list of events, and each of its readers and replies is a query on that history, whatever the history is.
#[derive(Drop)]
pub struct Terminal {
    pub(crate) registers: Registers,
    pub(crate) past: History<Event>,
}

impl Model for Terminal {
    ghost use Rattle.mil_terminal.specs.StandsFor.{StandsFor};
    ghost use Rattle.mil_terminal.specs.Station.{Station};

    ghost Value = { Station };

    ghost view = { λ t. record { own = t.registers.own; history = t.past } };

    ghost invariant = { λ t. StandsFor t.registers t.past };
}

impl Terminal {
    /// A terminal that has met nothing yet, at an address of 0 to 30. All room of later calls is made here.
    pub fn make(alloc: Global, address: u8) -> Result<Terminal, TerminalError>
        ensures made { IfOk result (λ t. t ≡ record { own = address; history = [] }) }
        ensures address { (result ≡ Err TerminalError.Address) ↔ (highest_address < address) }
    {
        if address > HIGHEST_ADDRESS {
            return Err(TerminalError::Address);
        }
        let registers = Registers::make(alloc, Address::of(address))?;
        Ok(Terminal {
            registers,
            past: History::none(),
        })
    }

    /// A word on a line, and the gap before it. A data word costs a few instructions where no window is open on its
    /// line.
    pub fn hear(&mut self, line: Line, wave: Wave, gap: Gap)
        ensures { self.new ≡ after self.old (Heard line wave gap) }
    {
        if begins_high(wave) {
            self.hear_word(line, wave, decode(wave), gap);
        } else if self.registers.listens(line) {
            self.hear_word(line, wave, decode(wave), gap);
        } else {
            self.pass(line, wave, gap);
        }
    }

    /// The same, for a wave that was decoded before.
    #[inline(always)]
    pub fn hear_word(&mut self, line: Line, wave: Wave, decoded: Option<Word>, gap: Gap)
        requires { decoded ≡ word_of wave }
        ensures { self.new ≡ after self.old (Heard line wave gap) }
    {
        if self.registers.is_off() {
            return;
        }
        self.registers.hear(line, &Sound::of(wave, decoded), gap);
        self.past = self.past.put_before(&Event::Heard { line, wave, gap });
    }

    /// Data words one after the other, by their values: the first has this gap, and the others follow at once. Where
    /// all are due they are taken as a whole.
    #[inline]
    pub fn hear_values(&mut self, line: Line, gap: Gap, values: &[u16])
        ensures { self.new ≡ after_all self.old (heard line gap (map data_wave values.now)) }
    {
        if self.registers.is_off() {
            return;
        }
        self.registers.hear_values(line, gap, values);
        self.past = past_of_values(&self.past, line, gap, values);
    }

    /// The same, for a word that is no command to this terminal or to all, on a line where this terminal is not
    /// listening: it changes nothing but what contracts see, and costs nothing.
    #[inline]
    pub fn pass(&mut self, line: Line, wave: Wave, gap: Gap)
        requires other { windows.opens self.old.own (Heard line wave gap) self.old.history ≡ false }
        requires closed { windows.is_listening self.old.own line self.old.history ≡ false }
        ensures after { self.new ≡ after self.old (Heard line wave gap) }
        ensures listening { (l : LineValue)
            → windows.is_listening self.new.own l self.new.history
            ≡ windows.is_listening self.old.own l self.old.history }
    {
        if !self.registers.is_off() {
            let heard = Event::Heard { line, wave, gap };
            self.past = self.past.put_before(&heard);
        }
    }

    /// A line that fell quiet where this terminal is not listening: it answers nothing, and this costs nothing.
    #[inline]
    pub fn pass_quiet(&mut self, line: Line)
        requires { windows.is_listening self.old.own line self.old.history ≡ false }
        ensures after { self.new ≡ after self.old (Quiet line) }
        ensures silent { replies.reply self.old.own line self.old.history ≡ None }
        ensures listening { (l : LineValue)
            → windows.is_listening self.new.own l self.new.history
            ≡ windows.is_listening self.old.own l self.old.history }
    {
        if !self.registers.is_off() {
            let quiet = Event::Quiet(line);
            self.past = self.past.put_before(&quiet);
        }
    }

    /// A line that fell quiet after words, and what the terminal answers.
    pub fn quiet(&mut self, line: Line) -> Option<Reply>
        ensures after { self.new ≡ after self.old (Quiet line) }
        ensures reply { result ≡ replies.reply self.old.own line self.old.history }
    {
        let mut words = ArrayVec::new();
        match self.quiet_into(line, &mut words) {
            Some(gap) => Some(Reply { gap, words }),
            None => None,
        }
    }

    /// The same, with the words of the reply, at most 33, in place of those that stood there; the gap before them, in
    /// ticks, where the terminal answers.
    pub fn quiet_into<const CAP: usize>(
        &mut self,
        line: Line,
        words: &mut ArrayVec<u16, CAP>,
    ) -> Option<Gap>
        requires room { 33 ≤ CAP }
        ensures after { self.new ≡ after self.old (Quiet line) }
        ensures reply { replies.reply_if result words.new.items ≡ replies.reply self.old.own line self.old.history }
    {
        if self.registers.is_off() {
            return None;
        }
        let gap = self.registers.quiet(line, words);
        self.past = self.past.put_before(&Event::Quiet(line));
        gap
    }

    /// An action of the host.
    pub fn act(&mut self, action: &Action)
        ensures { self.new ≡ after self.old (Host action.now) }
    {
        self.registers.act(action);
        self.past = self.past.put_before(&Event::Host(action.copy()));
    }

    /// Whether a window is open on the line that is not decided yet.
    #[inline]
    pub fn is_listening(&self, line: Line) -> bool
        ensures { result ≡ windows.is_listening self.now.own line self.now.history }
    {
        self.registers.listens(line)
    }

    /// The same terminal, with room of its own from the same allocator; it fails for want of memory alone.
    pub fn copy(&self) -> Result<Terminal, AllocError>
        ensures { IfOk result (λ t. t ≡ self.now) }
    {
        Ok(Terminal {
            registers: self.registers.copy()?,
            past: self.past.same(),
        })
    }

    /// The address, 0 to 30.
    #[inline]
    pub fn address(&self) -> u8
        ensures value { result ≡ self.now.own }
        ensures range { result ≤ highest_address }
    {
        self.registers.own.value()
    }

    /// The status word that a transmit status word command would be answered with (MIL-STD-1553B 4.3.3.5.3).
    pub fn status(&self) -> u16
        ensures { result ≡ statuses.status self.now.own self.now.history }
    {
        self.registers.status()
    }

    /// The last command (4.3.3.5.1.7.13); 0000 before any.
    pub fn last_command(&self) -> u16
        ensures { result ≡ registers.last_command self.now.own self.now.history }
    {
        self.registers.last_command()
    }

    /// The vector word that the host set (4.3.3.5.1.7.11); 0000 at first.
    pub fn vector(&self) -> u16
        ensures { result ≡ registers.vector self.now.history }
    {
        self.registers.vector()
    }

    /// The BIT word: the result of the last self test that was initiated (4.3.3.5.1.7.14); 0000 at first.
    pub fn bit_word(&self) -> u16
        ensures { result ≡ registers.bit_word self.now.own self.now.history }
    {
        self.registers.bit_word()
    }

    /// The word of the last synchronize with data word, or 0000 after a synchronize without one and after a reset.
    pub fn sync_word(&self) -> u16
        ensures { result ≡ registers.sync_word self.now.own self.now.history }
    {
        self.registers.sync_word()
    }

    /// Whether the transmitter of the line is on, as at first.
    pub fn transmitter_on(&self, line: Line) -> bool
        ensures { result ≡ registers.is_transmitter_on self.now.own line self.now.history }
    {
        self.registers.transmitter_on(line)
    }

    /// Whether the terminal flag is inhibited, as it is not at first.
    pub fn flag_inhibited(&self) -> bool
        ensures { result ≡ registers.is_flag_inhibited self.now.own self.now.history }
    {
        self.registers.flag_inhibited()
    }

    /// Whether the host has made the terminal deaf on the line, as it is not at first. A bus brings it no word and no
    /// quiet of that line then; what it is brought it takes as ever.
    #[inline]
    pub fn deaf(&self, line: Line) -> bool
        ensures { result ≡ is_deaf line self.now.history }
    {
        self.registers.deaf(line)
    }

    /// Whether the host has made it mute on the line, as it is not at first. A bus sends none of its replies there
    /// then; the terminal acts and answers as ever.
    #[inline]
    pub fn mute(&self, line: Line) -> bool
        ensures { result ≡ is_mute line self.now.history }
    {
        self.registers.mute(line)
    }

    /// The words that the latest receive command to this terminal left at a subaddress of 1 to 30; none at first.
    pub fn received(&self, sub: u8) -> &[u16]
        requires low { 1 ≤ sub }
        requires high { sub ≤ highest_subaddress }
        ensures { result.now ≡ registers.received self.now.own sub self.now.history }
    {
        self.registers.received(sub)
    }

    /// The words that the latest receive command to all terminals left there (Notice 2); none at first.
    pub fn received_from_all(&self, sub: u8) -> &[u16]
        requires low { 1 ≤ sub }
        requires high { sub ≤ highest_subaddress }
        ensures { result.now ≡ registers.received_from_all self.now.own sub self.now.history }
    {
        self.registers.received_from_all(sub)
    }

    /// The words that a transmit command there sends, before they are cut or filled with zeros to its count: those that
    /// the host put up, and at subaddress 30 those that were received there (Notice 2); none at first.
    pub fn transmit_words(&self, sub: u8) -> &[u16]
        requires low { 1 ≤ sub }
        requires high { sub ≤ highest_subaddress }
        ensures { result.now ≡ replies.transmit_words self.now.own sub self.now.history }
    {
        self.registers.transmit_words(sub)
    }

    /// What the ramp at a place, counted from 0, of a subaddress adds each time, if one stands there; its next word is
    /// among the words that a transmit command sends.
    pub fn ramp(&self, sub: u8, place: u8) -> Option<u16>
        requires { sub ≤ highest_subaddress }
        ensures { result ≡ ramp_at sub place self.now.history }
    {
        self.registers.ramp(sub, place)
    }

    /// Whether its host has turned the terminal off, as it is not at first.
    pub fn is_off(&self) -> bool
        ensures { result ≡ host.is_off self.now.history }
    {
        self.registers.is_off()
    }

    /// What its host has set on or off.
    pub fn conditions_set(&self) -> HostConditions
        ensures { result ≡ record {
          busy = host.is_busy self.now.history;
          service = requests_service self.now.own self.now.history;
          subsystem = host.has_subsystem_fault self.now.history;
          fault = host.has_fault self.now.history;
          control = host.accepts_control self.now.history;
          once = waits_once self.now.own self.now.history;
          broadcast = host.takes_broadcast self.now.history;
          gap = host.set_gap self.now.history;
        } }
    {
        self.registers.conditions_set()
    }

    /// Whether it has marked mode commands of this T/R bit and mode code as illegal.
    pub fn marks_mode(&self, transmit: bool, code: u8) -> bool
        requires { code < field_values }
        ensures { result ≡ host.is_mode_marked transmit code self.now.history }
    {
        self.registers.marks_mode(transmit, code)
    }
}

/// Whether the first half bit is high, as it is in the sync of a command or status word.
#[inline]
fn begins_high(wave: Wave) -> bool
    ensures { result ≡ (wave / 2 ^ 39 % 2 == 1) }
{
    wave.half_bits() >> 39 & 1 == 1
}

/// A history and data words by their values, which costs nothing.
#[inline]
fn past_of_values(past: &History<Event>, line: Line, gap: Gap, values: &[u16]) -> History<Event>
    ensures { result ≡ met (heard line gap (map data_wave values.now)) past.now }
{
    let mut events = past.same();
    let mut gap = gap;
    for value in values {
        let wave = encode(Word {
            sync: Sync::DataSync,
            value: *value,
        });
        events = events.put_before(&Event::Heard { line, wave, gap });
        gap = Gap::contiguous();
    }
    events
}
