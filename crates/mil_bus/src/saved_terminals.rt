//! What is kept of the terminals of a bus.
ghost use Rattle.std.specs.Prelude.{◌≡◌, length, IfOk, OnOk, OnErr};

use crate::terminals::Terminals;
use mil_terminal::{SavedTerminal, Terminal};
use mil_word::fields::FIELD_VALUES;
use std::alloc::{AllocError, Global};
use std::marker::Model;

/// Terminals as they were when they were saved, in order of address, and what tells which of them an event concerns.
#[derive(Drop)]
pub struct SavedTerminals {
    list: Vec<SavedTerminal>,
    places: [u8; FIELD_VALUES],
    opened: u32,
}

impl Model for SavedTerminals {
    ghost use Rattle.mil_bus.specs.Index.{AreClosed, IsAddressIndex};
    ghost use Rattle.mil_terminal.specs.Station.{Station};
    ghost use Rattle.std.specs.Prelude.{List};

    ghost Value = { List Station };

    ghost view = { λ t. t.list.items };

    ghost invariant = { λ t. IsAddressIndex t.places t.list.items × AreClosed t.opened t.list.items };
}

/// What is kept of terminals, in their order.
fn all_saved(alloc: Global, terminals: &[Terminal]) -> Result<Vec<SavedTerminal>, AllocError>
    ensures { IfOk result (λ v. v.items ≡ terminals.now) }
{
    let mut saved = Vec::with_capacity(alloc, terminals.len())?;
    for terminal in terminals {
        saved.push(terminal.save()?)?;
    }
    Ok(saved)
}

/// Terminals that are as the saved ones were.
fn all_anew(alloc: Global, saved: &[SavedTerminal]) -> Result<Vec<Terminal>, AllocError>
    ensures { IfOk result (λ v. v.items ≡ saved.now) }
{
    let mut terminals = Vec::with_capacity(alloc, saved.len())?;
    for one in saved {
        terminals.push(one.terminal(alloc)?)?;
    }
    Ok(terminals)
}

/// Takes as many terminals to where they were saved.
fn restore_each(terminals: &mut [Terminal], saved: &[SavedTerminal])
    requires { length terminals.old ≡ length saved.now }
    ensures { terminals.new ≡ saved.now }
{
    for i in 0..saved.len() {
        terminals[i].restore(&saved[i]);
    }
}

impl Terminals {
    /// The terminals as they are now.
    pub fn save(&self) -> Result<SavedTerminals, AllocError>
        ensures { IfOk result (λ s. s ≡ self.now) }
    {
        Ok(SavedTerminals {
            list: all_saved(*self.list.allocator(), self.list.as_slice())?,
            places: self.places,
            opened: self.opened,
        })
    }

    /// Goes to what was saved: in its own memory where there are as many terminals, and else in new memory. Where that
    /// is refused, all is as before.
    pub fn restore(&mut self, saved: &SavedTerminals) -> Result<(), AllocError>
        ensures restored { OnOk result (self.new ≡ saved.now) }
        ensures same { OnErr result (self.new ≡ self.old) }
    {
        if self.list.len() == saved.list.len() {
            restore_each(self.list.as_mut_slice(), saved.list.as_slice());
        } else {
            self.list = all_anew(*self.list.allocator(), saved.list.as_slice())?;
        }
        self.places = saved.places;
        self.opened = saved.opened;
        Ok(())
    }
}
