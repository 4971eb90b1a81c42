//! What mode codes 4 to 8 switch.
ghost use Rattle.std.specs.Prelude.{◌≡◌, not, false};

use mil_mode::codes::{
    INHIBIT_TERMINAL_FLAG, OVERRIDE_INHIBIT, OVERRIDE_SHUTDOWN, RESET_REMOTE_TERMINAL,
    TRANSMITTER_SHUTDOWN,
};
use mil_word::{Command, Line};

/// The transmitters that are off, and whether the terminal flag is inhibited.
#[derive(Clone, Copy, Debug)]
pub struct Switches {
    pub off_a: bool,
    pub off_b: bool,
    pub inhibited: bool,
}

impl Switches {
    ghost use Rattle.mil_terminal.specs.Updates.{off_on, switched, inhibited_for};

    /// Everything as at first and after a reset.
    pub fn none() -> Switches
        ensures { result ≡ record { off_a = false; off_b = false; inhibited = false } }
    {
        Switches {
            off_a: false,
            off_b: false,
            inhibited: false,
        }
    }

    /// Whether the transmitter of the line is on.
    pub fn is_on(&self, line: Line) -> bool
        ensures { result ≡ not (off_on self.now line) }
    {
        match line {
            Line::A => !self.off_a,
            Line::B => !self.off_b,
        }
    }

    /// A good command that was heard on the line: 4 turns the other line's transmitter off, 5 turns it on, 6 inhibits
    /// the terminal flag, 7 lifts this, and 8 does both (MIL-STD-1553B 4.3.3.5.1.7.5 to .9).
    pub fn act(&mut self, line: Line, command: Command)
        ensures { self.new ≡ switched self.old line command }
    {
        if command.is_mode() && command.is_transmit() {
            match (command.code(), line) {
                (TRANSMITTER_SHUTDOWN, Line::A) => self.off_b = true,
                (TRANSMITTER_SHUTDOWN, Line::B) => self.off_a = true,
                (OVERRIDE_SHUTDOWN, Line::A) => self.off_b = false,
                (OVERRIDE_SHUTDOWN, Line::B) => self.off_a = false,
                (INHIBIT_TERMINAL_FLAG, _) => self.inhibited = true,
                (OVERRIDE_INHIBIT, _) => self.inhibited = false,
                (RESET_REMOTE_TERMINAL, _) => *self = Switches::none(),
                _ => {}
            }
        }
    }

    /// Whether the terminal flag is inhibited for the status of this window.
    pub fn inhibits(&self, command: Command, good: bool) -> bool
        ensures { result ≡ inhibited_for self.now command good }
    {
        if good && command.is_mode() && command.is_transmit() {
            match command.code() {
                INHIBIT_TERMINAL_FLAG => true,
                OVERRIDE_INHIBIT => false,
                _ => self.inhibited,
            }
        } else {
            self.inhibited
        }
    }
}
