//! What is kept of a terminal, for it to be taken back there.
ghost use Rattle.std.specs.Prelude.{◌≡◌, IfOk};

use crate::Event;
use crate::registers::Registers;
use crate::saved_registers::SavedRegisters;
use crate::terminals::Terminal;
use history::History;
use std::alloc::{AllocError, Global};
use std::marker::Model;

/// A terminal as it was when it was saved, in less memory than a terminal takes: 80 bytes, and two for each word that
/// it holds and for each list of them that is not empty; 104 more where a window is undecided, and 360 where commands
/// are marked. Contracts see what they see of the terminal.
#[derive(Drop)]
pub struct SavedTerminal {
    registers: SavedRegisters,
    past: History<Event>,
}

impl Model for SavedTerminal {
    ghost use Rattle.mil_terminal.specs.StandsFor.{StandsFor};
    ghost use Rattle.mil_terminal.specs.Station.{Station};

    ghost Value = { Station };

    ghost view = { λ t. record { own = t.registers.own; history = t.past } };

    ghost invariant = { λ t. StandsFor t.registers t.past };
}

impl Terminal {
    /// The terminal as it is now; it fails for want of memory alone.
    pub fn save(&self) -> Result<SavedTerminal, AllocError>
        ensures { IfOk result (λ s. s ≡ self.now) }
    {
        Ok(SavedTerminal {
            registers: self.registers.save()?,
            past: self.past.same(),
        })
    }

    /// Goes to what was saved, of this terminal or another, address and all. It takes no memory.
    pub fn restore(&mut self, saved: &SavedTerminal)
        ensures { self.new ≡ saved.now }
    {
        self.registers.restore(&saved.registers);
        self.past = saved.past.same();
    }
}

impl SavedTerminal {
    /// A terminal that is as the saved one was; it fails for want of memory alone.
    pub fn terminal(&self, alloc: Global) -> Result<Terminal, AllocError>
        ensures { IfOk result (λ t. t ≡ self.now) }
    {
        let mut registers = Registers::make(alloc, self.registers.own())?;
        registers.restore(&self.registers);
        Ok(Terminal {
            registers,
            past: self.past.same(),
        })
    }
}
