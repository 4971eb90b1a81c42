//! The text of an action, and the code of a fault in such a text.
ghost use Rattle.mil_host.specs.Printing.{action_text, switch_text, direction_text, fault_code, mark_words};
ghost use Rattle.mil_host.specs.Printing.{mode_mark_words, ramp_words, spaced};
ghost use Rattle.mil_word.specs.Printing.{line_text};
ghost use Rattle.std.specs.Prelude.{◌≡◌, Some};

use crate::actions::Action;
use crate::data_words::{DataWord, DataWords};
use crate::host_values::{ModeMark, WordRamp};
use crate::reading::BadAction;
use crate::values::Mark;
use mil_word::Line;
use std::fmt::{self, Display, Formatter, Write};

fn switch(on: bool) -> &'static str
    ensures { result.now ≡ switch_text on }
{
    if on { "on" } else { "off" }
}

fn letter(line: Line) -> &'static str
    ensures { result.now ≡ line_text line }
{
    match line {
        Line::A => "A",
        Line::B => "B",
    }
}

fn direction(transmit: bool) -> &'static str
    ensures { result.now ≡ direction_text transmit }
{
    if transmit { "transmit" } else { "receive" }
}

/// The code of the fault: `H1`, `H2` or `H3`.
impl Display for BadAction {
    ghost output = { λ e. Some (fault_code e) };

    fn fmt<W: Write>(&self, f: &mut Formatter<W>) -> fmt::Result {
        f.write_str(match self {
            BadAction::Word => "H1",
            BadAction::Number => "H2",
            BadAction::Range => "H3",
        })
    }
}

/// A direction, a subaddress and a count as three words.
impl Display for Mark {
    ghost output = { λ m. Some (spaced (mark_words m)) };

    fn fmt<W: Write>(&self, f: &mut Formatter<W>) -> fmt::Result {
        let side = direction(self.transmit());
        let sub = self.sub();
        let count = self.count();
        write!(f, "{side} {sub} {count}")
    }
}

/// `mode`, a direction and a mode code as three words.
impl Display for ModeMark {
    ghost output = { λ m. Some (spaced (mode_mark_words m)) };

    fn fmt<W: Write>(&self, f: &mut Formatter<W>) -> fmt::Result {
        let side = direction(self.transmit());
        let code = self.code();
        write!(f, "mode {side} {code}")
    }
}

/// A subaddress, a place and two data words as four words.
impl Display for WordRamp {
    ghost output = { λ r. Some (spaced (ramp_words r)) };

    fn fmt<W: Write>(&self, f: &mut Formatter<W>) -> fmt::Result {
        let sub = self.sub();
        let index = self.index();
        let start = DataWord(self.start());
        let add = DataWord(self.add());
        write!(f, "{sub} {index} {start} {add}")
    }
}

/// The action as its text: single spaces, and data words in upper case.
impl Display for Action {
    ghost output = { λ a. Some (action_text a) };

    #[tactic(auto, unfolding(crate::specs::Printing::action_text))]
    fn fmt<W: Write>(&self, f: &mut Formatter<W>) -> fmt::Result {
        match self {
            Action::Transmit(put) => {
                let sub = put.sub();
                let words = DataWords(put.words());
                write!(f, "transmit {sub}{words}")
            }
            Action::Busy(on) => write!(f, "busy {}", switch(*on)),
            Action::Service(on) => write!(f, "service {}", switch(*on)),
            Action::Subsystem(on) => write!(f, "subsystem {}", switch(*on)),
            Action::Fault(on) => write!(f, "fault {}", switch(*on)),
            Action::Control(on) => write!(f, "control {}", switch(*on)),
            Action::Vector(word) => write!(f, "vector {}", DataWord(*word)),
            Action::SelfTest(word) => write!(f, "selftest {}", DataWord(*word)),
            Action::Illegal(mark) => write!(f, "illegal {mark}"),
            Action::Legal(mark) => write!(f, "legal {mark}"),
            Action::Response(gap) => {
                let ticks = gap.ticks();
                write!(f, "response {ticks}")
            }
            Action::Deaf { line, on } => write!(f, "deaf {} {}", letter(*line), switch(*on)),
            Action::Mute { line, on } => write!(f, "mute {} {}", letter(*line), switch(*on)),
            Action::IllegalMode(mark) => write!(f, "illegal {mark}"),
            Action::LegalMode(mark) => write!(f, "legal {mark}"),
            Action::Broadcast(on) => write!(f, "broadcast {}", switch(*on)),
            Action::Power(on) => write!(f, "power {}", switch(*on)),
            Action::BitWord(word) => write!(f, "bit {}", DataWord(*word)),
            Action::ServiceOnce => f.write_str("service once"),
            Action::Gap(gap) => {
                let ticks = gap.ticks();
                write!(f, "gap {ticks}")
            }
            Action::Ramp(ramp) => write!(f, "ramp {ramp}"),
        }
    }
}
