//! What comes to all terminals of a bus: one walk over those that it concerns, which passes the others.
ghost use Rattle.mil_bus.specs.Index.{IsClosed, AreClosed, HasCome, first_answer};
ghost use Rattle.mil_terminal.specs.Station.{Station};
ghost use Rattle.mil_word.specs.Fields.{all_terminals};
ghost use Rattle.std.specs.Int.{bit_at};
ghost use Rattle.std.specs.Option.{option_or};
ghost use Rattle.std.specs.Prelude.{◌≡◌, ℕ, ◌<◌, ◌≤◌, false, List, length, map, get_or, take};

use crate::bits::{next_set, with_bit};
use mil_terminal::Terminal;
use mil_word::Line;

/// What comes to terminals on a line: a word, the data words of a run, or a quiet.
pub trait Coming {
    ghost use Rattle.mil_bus.specs.Exchange.{Offer};
    ghost use Rattle.std.specs.Prelude.{Option, None};

    /// What is kept of the first answer, where terminals answer.
    type Answer;

    // The answer that is kept, if there was one.
    ghost answered: { Self.Answer → Option Offer };

    // What it makes of a terminal.
    ghost makes: { Self → Station → Station };

    // What a terminal answers to it.
    ghost answers: { Self → Station → Option Offer };

    // Whether it does not concern a terminal that has no open window.
    ghost passes: { Self → Station → Type 0 };

    /// It comes to a terminal that it does not concern, whose history alone grows, which costs nothing.
    fn pass(&self, terminal: &mut Terminal)
        requires other { passes self.now terminal.old }
        requires closed { IsClosed terminal.old }
        ensures after { terminal.new ≡ makes self.now terminal.old }
        ensures closed { IsClosed terminal.new }
        ensures silent { answers self.now terminal.old ≡ None };

    /// It comes to a terminal, whose answer is kept where there was none before.
    fn tell(&self, terminal: &mut Terminal, answer: &mut Self::Answer)
        ensures after { terminal.new ≡ makes self.now terminal.old }
        ensures first { answered answer.new ≡ option_or (answered answer.old) (answers self.now terminal.old) };
}

/// Whether a window of a terminal is open.
fn is_open(terminal: &Terminal) -> bool
    ensures { result ≡ false → IsClosed terminal.now }
{
    terminal.is_listening(Line::A) || terminal.is_listening(Line::B)
}

/// It comes to the terminals from one place up to another, none of which it concerns.
#[inline]
fn pass_between<C: Coming>(terminals: &mut Vec<Terminal>, from: usize, to: usize, coming: &C)
    requires order { from ≤ to }
    requires end { to ≤ length terminals.old.items }
    requires other { (k : ℕ) (d : Station) → from ≤ k → k < to → C.passes coming.now (get_or terminals.old.items k d) }
    requires closed { (k : ℕ) (d : Station) → from ≤ k → k < to → IsClosed (get_or terminals.old.items k d) }
    ensures come { (old : List Station) (opened : ℕ)
        → HasCome (C.makes coming.now) old terminals.old.items from opened
        → HasCome (C.makes coming.now) old terminals.new.items to opened }
    ensures silent { (old : List Station) (opened : ℕ)
        → HasCome (C.makes coming.now) old terminals.old.items from opened
        → first_answer (C.answers coming.now) (take to old) ≡ first_answer (C.answers coming.now) (take from old) }
{
    for i in from..to {
        let terminal = &mut terminals[i];
        coming.pass(terminal);
    }
}

/// It comes to all terminals, and the first answer, in order of address, is kept; a mask that is clear only where no
/// window is open afterwards. It concerns only those that the mask given has.
#[inline(always)]
pub fn tell_all<C: Coming>(
    terminals: &mut Vec<Terminal>,
    mask: u32,
    coming: &C,
    answer: &mut C::Answer,
) -> u32
    requires few { length terminals.old.items ≤ all_terminals }
    requires other { (k : ℕ) (d : Station) → k < length terminals.old.items → bit_at mask k ≡ 0
        → C.passes coming.now (get_or terminals.old.items k d) }
    requires closed { AreClosed mask terminals.old.items }
    ensures heard { terminals.new.items ≡ map (C.makes coming.now) terminals.old.items }
    ensures first { C.answered answer.new
        ≡ option_or (C.answered answer.old) (first_answer (C.answers coming.now) terminals.old.items) }
    ensures closed { AreClosed result terminals.new.items }
{
    let count = terminals.len();
    let mut opened = 0;
    let mut from = 0;
    for _step in 0..32_usize {
        let at = next_set(mask, from).min(count);
        pass_between(terminals, from, at, coming);
        if at == count {
            return opened;
        }
        let terminal = &mut terminals[at];
        coming.tell(terminal, answer);
        let is_open = is_open(terminal);
        opened = with_bit(opened, at, is_open);
        from = at + 1;
    }
    opened
}
