//! What hosts of the terminals of a job do.
ghost use Rattle.bench_reproduce.specs.Deeds.{are_of};
ghost use Rattle.job_file.specs.HeadLines.{has};
ghost use Rattle.std.specs.Prelude.{◌≡◌, true, IfOk};

use mil_host::Action;
use std::alloc::{AllocError, Global};
use std::marker::Model;

/// An action of the host of a terminal.
#[derive(Debug, Drop)]
pub(crate) struct Deed {
    pub(crate) address: u8,
    pub(crate) action: Action,
}

/// What hosts do in front of a message, and in front of the next one: each action is of a terminal that the job names,
/// so that a line of the job may have it. Contracts see the addresses of the terminals.
#[derive(Drop)]
pub(crate) struct Deeds {
    addresses: Vec<u8>,
    deeds: Vec<Deed>,
    later: Vec<Deed>,
}

impl Model for Deeds {
    ghost use Rattle.bench_reproduce.specs.Deeds.{are_of};
    ghost use Rattle.std.specs.Prelude.{◌≡◌, ℕ, List, true};

    ghost Value = { List ℕ };

    ghost view = { λ d. d.addresses.items };

    ghost invariant = { λ d. (are_of d.addresses.items d.deeds.items ≡ true)
        × (are_of d.addresses.items d.later.items ≡ true) };
}

/// Whether two actions set a switch of a terminal in the same way; None where they do not set the same switch.
fn set_alike(one: &Action, other: &Action) -> Option<bool> {
    match (one, other) {
        (Action::Busy(on), Action::Busy(then)) => Some(*on == *then),
        (Action::Service(on), Action::Service(then)) => Some(*on == *then),
        (Action::Subsystem(on), Action::Subsystem(then)) => Some(*on == *then),
        (Action::Fault(on), Action::Fault(then)) => Some(*on == *then),
        (Action::Control(on), Action::Control(then)) => Some(*on == *then),
        (Action::Broadcast(on), Action::Broadcast(then)) => Some(*on == *then),
        _ => None,
    }
}

/// Whether actions leave a switch of a terminal as another one would set it.
fn stands(deeds: &[Deed], address: u8, action: &Action) -> bool {
    let mut alike = false;
    for deed in deeds {
        if deed.address != address {
            continue;
        }
        if let Some(same) = set_alike(&deed.action, action) {
            alike = same;
        }
    }
    alike
}

impl Deeds {
    /// Nothing is done yet by the hosts of the terminals with these addresses. It fails for want of memory alone.
    pub(crate) fn none(alloc: Global, addresses: &[u8]) -> Result<Deeds, AllocError>
        ensures { IfOk result (λ d. d ≡ addresses.now) }
    {
        let addresses = addresses.to_vec(alloc)?;
        Ok(Deeds {
            addresses,
            deeds: Vec::new(alloc),
            later: Vec::new(alloc),
        })
    }

    /// Whether the job has a terminal with this address.
    pub(crate) fn has(&self, address: u8) -> bool
        ensures { result ≡ has address self.now }
    {
        self.addresses.iter().any(|a| *a == address)
    }

    /// Begins anew.
    pub(crate) fn clear(&mut self)
        ensures { self.new ≡ self.old }
    {
        self.deeds.clear();
        self.later.clear();
    }

    /// Puts an action behind the others; none of a terminal that is not there, and none that sets a switch as they
    /// leave it. It fails for want of memory alone.
    pub(crate) fn act(&mut self, address: u8, action: Action) -> Result<(), AllocError>
        ensures { self.new ≡ self.old }
    {
        if !self.has(address) || stands(self.deeds.as_slice(), address, &action) {
            return Ok(());
        }
        match self.deeds.push(Deed { address, action }) {
            Ok(()) => Ok(()),
            Err(_) => Err(AllocError),
        }
    }

    /// Puts an action in front of the next message, whatever that is; none of a terminal that is not there. It fails
    /// for want of memory alone.
    pub(crate) fn act_later(&mut self, address: u8, action: Action) -> Result<(), AllocError>
        ensures { self.new ≡ self.old }
    {
        if !self.has(address) {
            return Ok(());
        }
        match self.later.push(Deed { address, action }) {
            Ok(()) => Ok(()),
            Err(_) => Err(AllocError),
        }
    }

    /// What hosts do in front of the message.
    pub(crate) fn as_slice(&self) -> &[Deed]
        ensures { are_of self.now result.now ≡ true }
    {
        self.deeds.as_slice()
    }

    /// What they do in front of the next one.
    pub(crate) fn later(&self) -> &[Deed]
        ensures { are_of self.now result.now ≡ true }
    {
        self.later.as_slice()
    }
}
