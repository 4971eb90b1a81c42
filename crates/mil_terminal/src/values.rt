//! Data words that are heard by their values.
ghost use Rattle.mil_terminal.specs.History.{History};
ghost use Rattle.mil_terminal.specs.Runs.{heard, met, AreSmall};
ghost use Rattle.mil_word.specs.Words.{data_wave};
ghost use Rattle.std.specs.Prelude.{◌≡◌, map};

use crate::pending::same_line;
use crate::registers::Registers;
use mil_line::Gap;
use mil_word::Line;

/// Each of the values has 16 bits, which it costs nothing to see.
#[inline]
pub fn are_small(values: &[u16])
    ensures { AreSmall values.now }
{
    for i in 0..values.len() {
        // Read for the proof alone: the range stands with the type.
        let _value = values[i];
    }
}

impl Registers {
    ghost use Rattle.mil_terminal.specs.StandsFor.{StandsFor};

    /// Data words on a line, by their values: the first has this gap, and the others follow at once.
    #[inline]
    pub fn hear_values(&mut self, line: Line, gap: Gap, values: &[u16])
        ensures stands { (h : History) → StandsFor self.old h
            → StandsFor self.new (met (heard line gap (map data_wave values.now)) h) }
        ensures own { self.new.own ≡ self.old.own }
    {
        are_small(values);
        if let Some(pending) = &mut self.window {
            if same_line(line, pending.line) {
                pending.take_values(self.own, gap, values);
            }
        }
    }
}
