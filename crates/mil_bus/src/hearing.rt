//! A word that comes to all terminals of a bus.
ghost use Rattle.mil_bus.specs.Exchange.{hearing, sends, misses};
ghost use Rattle.mil_bus.specs.Index.{IsClosed, is_command_to};
ghost use Rattle.mil_terminal.specs.Windows.{opens};
ghost use Rattle.mil_terminal.specs.declared.events.Event.TheVariants.{Heard};
ghost use Rattle.mil_word.specs.Fields.{field_values};
ghost use Rattle.mil_word.specs.Wave.{word_of};
ghost use Rattle.std.specs.Int.{bit_at};
ghost use Rattle.std.specs.Prelude.{◌≡◌, ℕ, ◌<◌, false, slice_index};

use crate::counts::is_command;
use crate::telling::Coming;
use crate::{Sent, Source};
use mil_terminal::Terminal;
use mil_word::fields::FIELD_VALUES;
use mil_word::{Command, Line, Word};

/// The places that a word may concern: those that are open, and that of the terminal that it commands, or all.
pub fn concerned(places: &[u8; FIELD_VALUES], opened: u32, decoded: Option<Word>) -> u32
    ensures kept { (k : ℕ) → k < 32 → bit_at result k ≡ 0 → bit_at opened k ≡ 0 }
    ensures commanded { (own : ℕ) → own < field_values → slice_index places.now own < 32
        → bit_at result (slice_index places.now own) ≡ 0 → is_command_to own decoded ≡ false }
{
    match decoded {
        None => opened,
        Some(word) => {
            let command = Command::of(word.value);
            if !is_command(word) {
                opened
            } else if command.is_broadcast() {
                u32::MAX
            } else {
                opened | 1 << (places[command.address() as usize] % 32)
            }
        }
    }
}

/// Whether a word is this terminal's own.
#[inline]
fn is_sender(source: Source, own: u8) -> bool
    ensures { result ≡ sends source own }
{
    match source {
        Source::Controller => false,
        Source::Terminal(address) => address == own,
    }
}

/// Whether the words of a sender do not come to a terminal: they are its own, or it is deaf on their line.
#[inline]
pub fn misses(terminal: &Terminal, line: Line, source: Source) -> bool
    ensures { result ≡ misses line source terminal.now }
{
    is_sender(source, terminal.address()) || terminal.deaf(line)
}

/// A word that does not concern a terminal comes to it: its history alone grows, which costs nothing.
#[inline]
pub fn pass(terminal: &mut Terminal, line: Line, sent: &Sent)
    requires other { opens terminal.old.own (Heard line sent.now.wave sent.now.gap) terminal.old.history ≡ false }
    requires closed { IsClosed terminal.old }
    ensures after { terminal.new ≡ hearing line sent.now terminal.old }
    ensures closed { IsClosed terminal.new }
{
    if !misses(terminal, line, sent.source) {
        terminal.pass(line, sent.wave, sent.gap);
    }
}

/// A word on a line, as it was decoded.
#[derive(Drop)]
pub struct HeardWord<'a> {
    pub line: Line,
    pub sent: &'a Sent,
    pub decoded: Option<Word>,
    ghost is_decoded: { decoded ≡ word_of sent.now.wave },
}

impl<'a> Coming for HeardWord<'a> {
    ghost use Rattle.mil_bus.specs.Exchange.{hearing};
    ghost use Rattle.mil_terminal.specs.Windows.{opens};
    ghost use Rattle.mil_terminal.specs.declared.events.Event.TheVariants as event;
    ghost use Rattle.std.specs.Prelude.{◌≡◌, false, None};

    type Answer = ();

    ghost answered = { λ o. None };

    ghost makes = { λ h. hearing h.line h.sent.now };

    ghost answers = { λ h s. None };

    ghost passes = { λ h s. opens s.own (event.Heard h.line h.sent.now.wave h.sent.now.gap) s.history ≡ false };

    #[inline]
    fn pass(&self, terminal: &mut Terminal) {
        pass(terminal, self.line, self.sent);
    }

    #[inline(always)]
    fn tell(&self, terminal: &mut Terminal, _answer: &mut ()) {
        if !misses(terminal, self.line, self.sent.source) {
            terminal.hear_word(self.line, self.sent.wave, self.decoded, self.sent.gap);
        }
    }
}
