//! What is kept of a bus, for it to be taken back there.
ghost use Rattle.std.specs.Prelude.{◌≡◌, IfOk, OnOk, OnErr};

use crate::Talk;
use crate::buses::Bus;
use crate::saved_terminals::SavedTerminals;
use crate::times::Times;
use history::History;
use std::alloc::AllocError;
use std::marker::Model;

/// A bus as it was when it was saved, in less memory than a bus takes: 80 bytes for each terminal, and two for each
/// word that the terminal holds and for each list of them that is not empty, but for open windows and marks. Contracts
/// see what they see of the bus.
#[derive(Drop)]
pub struct SavedBus {
    times: Times,
    terminals: SavedTerminals,
    past: History<Talk>,
}

impl Model for SavedBus {
    ghost use Rattle.mil_bus.specs.Exchange.{BusState};
    ghost use Rattle.mil_bus.specs.KeepsTimes.{KeepsTimes, bus_of};

    ghost Value = { BusState };

    ghost view = { λ b. bus_of b.times b.past b.terminals };

    ghost invariant = { λ b. KeepsTimes b.times b.past };
}

impl Bus {
    /// The bus as it is now; it fails for want of memory alone.
    pub fn save(&self) -> Result<SavedBus, AllocError>
        ensures { IfOk result (λ s. s ≡ self.now) }
    {
        Ok(SavedBus {
            times: self.times,
            terminals: self.terminals.save()?,
            past: self.past.same(),
        })
    }

    /// Goes to what was saved, of this bus or another. It takes memory only where that bus had another number of
    /// terminals; it fails for want of memory alone, and then all is as before.
    pub fn restore(&mut self, saved: &SavedBus) -> Result<(), AllocError>
        ensures restored { OnOk result (self.new ≡ saved.now) }
        ensures same { OnErr result (self.new ≡ self.old) }
    {
        self.terminals.restore(&saved.terminals)?;
        self.times = saved.times;
        self.past = saved.past.same();
        Ok(())
    }
}
