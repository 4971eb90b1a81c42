//! The data words of a run, which come to all terminals of a bus as a whole.
ghost use Rattle.mil_bus.specs.DataRuns.{hearing_all, run_words};
ghost use Rattle.mil_bus.specs.Index.{IsClosed};
ghost use Rattle.mil_word.specs.Words.{data_wave};
ghost use Rattle.std.specs.Prelude.{◌≡◌, map};

use crate::hearing::{misses, pass};
use crate::talk_runs::Run;
use crate::telling::Coming;
use mil_line::Gap;
use mil_terminal::Terminal;
use mil_word::Line;

/// The data words of a run come to a terminal with no open window: its history alone grows, which costs nothing.
#[inline]
fn pass_all(terminal: &mut Terminal, line: Line, run: &Run, values: &[u16])
    requires closed { IsClosed terminal.old }
    ensures after { terminal.new ≡ hearing_all line (run_words run.now (map data_wave values.now)) terminal.old }
    ensures closed { IsClosed terminal.new }
{
    let mut gap = run.gap;
    for value in values {
        let word = run.word(gap, false, *value);
        pass(terminal, line, &word);
        gap = Gap::contiguous();
    }
}

/// The data words of a run come to a terminal, which hears them unless they are its own or it is deaf
/// there.
#[inline]
fn hear_words(terminal: &mut Terminal, line: Line, run: &Run, values: &[u16])
    ensures { terminal.new ≡ hearing_all line (run_words run.now (map data_wave values.now)) terminal.old }
{
    if !misses(terminal, line, run.source) {
        terminal.hear_values(line, run.gap, values);
    }
}

/// The data words of a run on a line.
#[derive(Drop)]
pub struct HeardData<'a> {
    pub line: Line,
    pub run: &'a Run,
    pub values: &'a [u16],
}

impl<'a> Coming for HeardData<'a> {
    ghost use Rattle.mil_bus.specs.DataRuns.{hearing_all, run_words};
    ghost use Rattle.mil_word.specs.Words.{data_wave};
    ghost use Rattle.std.specs.Prelude.{⊤, None, map};

    type Answer = ();

    ghost answered = { λ o. None };

    ghost makes = { λ d. hearing_all d.line (run_words d.run.now (map data_wave d.values.now)) };

    ghost answers = { λ d s. None };

    ghost passes = { λ d s. ⊤ };

    #[inline]
    fn pass(&self, terminal: &mut Terminal) {
        pass_all(terminal, self.line, self.run, self.values);
    }

    fn tell(&self, terminal: &mut Terminal, _answer: &mut ()) {
        hear_words(terminal, self.line, self.run, self.values);
    }
}
