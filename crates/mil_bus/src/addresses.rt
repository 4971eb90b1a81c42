//! The addresses of a new bus.
ghost use Rattle.mil_bus.specs.Addresses.{is_fit, stations_of};
ghost use Rattle.mil_bus.specs.Index.{IsAddressIndex, IsIndexBelow};
ghost use Rattle.mil_word.specs.Fields.{highest_address};
ghost use Rattle.std.specs.List.{list_any};
ghost use Rattle.std.specs.Prelude.{◌≡◌, ◌+◌, ◌≤◌, ◌==◌, ◌++◌, ◌∷◌, [], if◌then◌else◌, IfOk, OnOk};

use mil_terminal::Terminal;
use mil_word::fields::{ALL_TERMINALS, FIELD_VALUES, HIGHEST_ADDRESS};
use std::alloc::{AllocError, Global};

/// Whether an address is among those given.
fn has(addresses: &[u8], own: u8) -> bool
    ensures { result ≡ list_any (λ a. a == own) addresses.now }
{
    addresses.iter().any(|a| *a == own)
}

/// Whether each address is at most 30 and stands once.
pub fn is_fit(addresses: &[u8]) -> bool
    ensures { result ≡ is_fit addresses.now }
{
    for i in 0..addresses.len() {
        let address = addresses[i];
        if address > HIGHEST_ADDRESS || has(&addresses[i + 1..], address) {
            return false;
        }
    }
    true
}

/// A new terminal of an address, 0 to 30.
fn terminal(alloc: Global, own: u8) -> Result<Terminal, AllocError>
    requires { own ≤ highest_address }
    ensures { IfOk result (λ t. t ≡ record { own = own; history = [] }) }
{
    match Terminal::make(alloc, own) {
        Ok(terminal) => Ok(terminal),
        Err(_) => Err(AllocError),
    }
}

/// Puts a new terminal of an address behind the others, and its place into the table, where it is wanted.
fn add(
    alloc: Global,
    terminals: &mut Vec<Terminal>,
    places: &mut [u8; FIELD_VALUES],
    own: u8,
    wanted: bool,
) -> Result<(), AllocError>
    requires own { own ≤ highest_address }
    requires index { IsIndexBelow own places.old terminals.old.items }
    ensures stations { OnOk result
        (terminals.new.items ≡ terminals.old.items
        ++ (if wanted then record { own = own; history = [] } ∷ [] else [])) }
    ensures index { OnOk result (IsIndexBelow (own + 1) places.new terminals.new.items) }
{
    if !wanted {
        return Ok(());
    }
    places[own as usize] = terminals.len() as u8;
    terminals.push(terminal(alloc, own)?)?;
    Ok(())
}

/// New terminals of these addresses, in order of address; under each address the table then has the place of its
/// terminal.
pub fn fresh(
    alloc: Global,
    addresses: &[u8],
    places: &mut [u8; FIELD_VALUES],
) -> Result<Vec<Terminal>, AllocError>
    ensures stations { IfOk result (λ v. v.items ≡ stations_of addresses.now) }
    ensures index { IfOk result (λ v. IsAddressIndex places.new v.items) }
{
    let mut terminals = Vec::new(alloc);
    for own in 0..ALL_TERMINALS {
        let wanted = has(addresses, own);
        add(alloc, &mut terminals, places, own, wanted)?;
    }
    Ok(terminals)
}
