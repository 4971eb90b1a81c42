//! A condition that each line has for itself.
ghost use Rattle.mil_terminal.specs.ByLines.{on_line, with_line};
ghost use Rattle.std.specs.Prelude.{◌≡◌, false};

use mil_word::Line;

/// Whether a condition is on, line by line.
#[derive(Clone, Copy, Debug)]
pub struct ByLine {
    pub a: bool,
    pub b: bool,
}

impl ByLine {
    /// It is off on both lines.
    pub fn none() -> ByLine
        ensures { result ≡ record { a = false; b = false } }
    {
        ByLine { a: false, b: false }
    }

    /// Whether it is on for this line.
    #[inline]
    pub fn has(&self, line: Line) -> bool
        ensures { result ≡ on_line self.now line }
    {
        match line {
            Line::A => self.a,
            Line::B => self.b,
        }
    }

    /// Turns it on or off for this line.
    pub fn set(&mut self, line: Line, on: bool)
        ensures { self.new ≡ with_line self.old line on }
    {
        match line {
            Line::A => self.a = on,
            Line::B => self.b = on,
        }
    }
}
