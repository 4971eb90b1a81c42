//! A quiet that comes to all terminals of a bus, and the first answer to it.
ghost use Rattle.mil_bus.specs.Exchange.{quieted, offer_of, answer};
ghost use Rattle.mil_bus.specs.Index.{IsClosed};
ghost use Rattle.mil_bus.specs.Offers.{given};
ghost use Rattle.mil_terminal.specs.Replies.{reply};
ghost use Rattle.mil_terminal.specs.Station.{after};
ghost use Rattle.mil_terminal.specs.declared.events.Event.TheVariants as event;
ghost use Rattle.std.specs.Option.{option_map, option_or};
ghost use Rattle.std.specs.Prelude.{◌≡◌, false, None};

use crate::Source;
use crate::offers::Offered;
use crate::telling::Coming;
use mil_terminal::Terminal;
use mil_word::Line;

/// A quiet comes to a terminal that is neither deaf nor mute there, where none has answered yet.
fn take_answer(terminal: &mut Terminal, line: Line, offer: &mut Offered)
    requires { offer.old.answered ≡ false }
    ensures after { terminal.new ≡ after terminal.old (event.Quiet line) }
    ensures first { given offer.new.answered offer.new
        ≡ option_map (offer_of terminal.old.own) (reply terminal.old.own line terminal.old.history) }
{
    let own = terminal.address();
    if let Some(gap) = terminal.quiet_into(line, &mut offer.values.words) {
        offer.answered = true;
        offer.source = Source::Terminal(own);
        offer.gap = gap;
        offer.values.commands = 1;
    }
}

/// A quiet comes to a terminal, unless it is deaf there; its answer counts where there was none before and the terminal
/// is not mute there.
fn quiet_one(terminal: &mut Terminal, line: Line, offer: &mut Offered)
    ensures after { terminal.new ≡ quieted line terminal.old }
    ensures first { given offer.new.answered offer.new
        ≡ option_or (given offer.old.answered offer.old) (answer line terminal.old) }
{
    if terminal.deaf(line) {
        return;
    }
    if offer.answered || terminal.mute(line) {
        // What it answers is lost.
        let _ = terminal.quiet(line);
    } else {
        take_answer(terminal, line, offer);
    }
}

/// A quiet comes to a terminal with no open window: its history alone grows, which costs nothing.
#[inline]
fn pass(terminal: &mut Terminal, line: Line)
    requires { IsClosed terminal.old }
    ensures after { terminal.new ≡ quieted line terminal.old }
    ensures closed { IsClosed terminal.new }
    ensures silent { answer line terminal.old ≡ None }
{
    if !terminal.deaf(line) {
        terminal.pass_quiet(line);
    }
}

/// A quiet on a line.
#[derive(Clone, Copy, Debug)]
pub struct Quiet {
    pub line: Line,
}

impl Coming for Quiet {
    ghost use Rattle.mil_bus.specs.Exchange.{quieted, answer};
    ghost use Rattle.mil_bus.specs.Offers.{given};
    ghost use Rattle.std.specs.Prelude.{⊤};

    type Answer = Offered;

    ghost answered = { λ o. given o.answered o };

    ghost makes = { λ q. quieted q.line };

    ghost answers = { λ q. answer q.line };

    ghost passes = { λ q s. ⊤ };

    #[inline]
    fn pass(&self, terminal: &mut Terminal) {
        pass(terminal, self.line);
    }

    fn tell(&self, terminal: &mut Terminal, answer: &mut Offered) {
        quiet_one(terminal, self.line, answer);
    }
}
