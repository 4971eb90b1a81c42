//! What a host sets.
ghost use Rattle.mil_host.specs.Printing.{action_text};
ghost use Rattle.mil_host.specs.Ranges.{IsInRange};
ghost use Rattle.mil_host.specs.Reading.{action_in};
ghost use Rattle.std.specs.Prelude.{◌≡◌, ◌≤◌, Ok, All};

use crate::host_values::{ModeMark, ReplyGap, WordRamp};
use crate::values::{Mark, ResponseGap, TransmitWords};
use mil_word::Line;

/// What the host sets on its remote terminal. At first everything is off, each subaddress and count is legal,
/// the vector word and the self-test result are 0000, the response time is 80 ticks and no transmit words are put up
/// (own choice).
#[derive(Debug, Drop)]
pub enum Action {
    /// The words that a transmit command at a subaddress sends.
    Transmit(TransmitWords),
    /// The busy bit of the status word (MIL-STD-1553B 4.3.3.5.3.8).
    Busy(bool),
    /// The service request bit (4.3.3.5.3.5).
    Service(bool),
    /// The subsystem flag (4.3.3.5.3.9).
    Subsystem(bool),
    /// A fault of the terminal itself, which its terminal flag tells (4.3.3.5.3.11).
    Fault(bool),
    /// Whether an offer of dynamic bus control is accepted (4.3.3.5.3.10).
    Control(bool),
    /// The vector word (4.3.3.5.1.7.11).
    Vector(u16),
    /// The result of the terminal's self test, which becomes its BIT word when a self test is initiated.
    SelfTest(u16),
    /// The terminal takes commands of this direction, subaddress and count as illegal (4.4.3.4).
    Illegal(Mark),
    /// It takes them as legal again.
    Legal(Mark),
    /// The response time (4.3.3.8).
    Response(ResponseGap),
    /// Whether the terminal's receiver on a line fails: on a bus it meets no word and no quiet of that line (own
    /// choice).
    Deaf { line: Line, on: bool },
    /// Whether its transmitter on a line fails unnoticed: on a bus it acts there as ever, and nothing of its replies is
    /// sent (own choice).
    Mute { line: Line, on: bool },
    /// The terminal takes mode commands of this T/R bit and mode code as illegal, at both mode subaddresses and to all
    /// terminals (4.4.3.4).
    IllegalMode(ModeMark),
    /// It takes them again as the standard does.
    LegalMode(ModeMark),
    /// Whether commands to all terminals are commands for it, as they are at first (own choice; the standard makes
    /// broadcast an option, 4.3.3.6.7).
    Broadcast(bool),
    /// Whether the terminal is on, as it is at first. What comes to one that is off does not reach it; after on it is
    /// as one newly made, but for what its host has set (own choice).
    Power(bool),
    /// The BIT word (4.3.3.5.1.7.14).
    BitWord(u16),
    /// Service is requested until a reply has carried the vector word (own choice).
    ServiceOnce,
    /// The gap before a reply, also out of the standard's response time (4.3.3.8).
    Gap(ReplyGap),
    /// A word of those that a transmit command at a subaddress sends changes with each reply that carries it (own
    /// choice).
    Ramp(WordRamp),
}

impl Action {
    /// The same action.
    pub fn copy(&self) -> Action
        ensures { result ≡ self.now }
    {
        match self {
            Action::Transmit(words) => Action::Transmit(words.copy()),
            Action::Busy(on) => Action::Busy(*on),
            Action::Service(on) => Action::Service(*on),
            Action::Subsystem(on) => Action::Subsystem(*on),
            Action::Fault(on) => Action::Fault(*on),
            Action::Control(on) => Action::Control(*on),
            Action::Vector(word) => Action::Vector(*word),
            Action::SelfTest(word) => Action::SelfTest(*word),
            Action::Illegal(mark) => Action::Illegal(*mark),
            Action::Legal(mark) => Action::Legal(*mark),
            Action::Response(gap) => Action::Response(*gap),
            Action::Deaf { line, on } => Action::Deaf {
                line: *line,
                on: *on,
            },
            Action::Mute { line, on } => Action::Mute {
                line: *line,
                on: *on,
            },
            Action::IllegalMode(mark) => Action::IllegalMode(*mark),
            Action::LegalMode(mark) => Action::LegalMode(*mark),
            Action::Broadcast(on) => Action::Broadcast(*on),
            Action::Power(on) => Action::Power(*on),
            Action::BitWord(word) => Action::BitWord(*word),
            Action::ServiceOnce => Action::ServiceOnce,
            Action::Gap(gap) => Action::Gap(*gap),
            Action::Ramp(ramp) => Action::Ramp(*ramp),
        }
    }

    /// Each action has its values in their ranges, and its printed text, single spaces and upper-case data words,
    /// spells it: what `Display` writes is read back as the same action. The text stands on one line, with no control
    /// character.
    pub fn reads_back(&self)
        ensures ranges { IsInRange self.now }
        ensures back { action_in (action_text self.now) ≡ Ok self.now }
        ensures one_line { All (λ b. 32 ≤ b) (action_text self.now) }
    {
        self.keeps_ranges();
    }

    fn keeps_ranges(&self)
        ensures { IsInRange self.now }
    {
        // What is read here is read for the proof alone: the ranges stand with the types.
        match self {
            Action::Transmit(put) => put.keeps_ranges(),
            Action::Illegal(mark) | Action::Legal(mark) => mark.keeps_ranges(),
            Action::IllegalMode(mark) | Action::LegalMode(mark) => {
                let _code = mark.code();
            }
            Action::Ramp(ramp) => ramp.keeps_ranges(),
            Action::Vector(word) | Action::SelfTest(word) | Action::BitWord(word) => {
                let _word = *word;
            }
            Action::Response(gap) => {
                let _ticks = gap.ticks();
            }
            Action::Gap(gap) => {
                let _ticks = gap.ticks();
            }
            Action::Busy(_)
            | Action::Service(_)
            | Action::Subsystem(_)
            | Action::Fault(_)
            | Action::Control(_)
            | Action::Deaf { line: _, on: _ }
            | Action::Mute { line: _, on: _ }
            | Action::Broadcast(_)
            | Action::Power(_)
            | Action::ServiceOnce => {}
        }
    }
}
