//! What a message of the job is: its message, what hosts do in front of it, and the faults that are planned for it.

use crate::deeds::{Deed, Deeds};
use crate::planned::PlannedFaults;
use arrayvec::ArrayVec;
use mil_host::Action;
use mil_line::Fault;
use mil_message::Message;
use std::alloc::{AllocError, Global};

/// What explains a recorded message.
#[derive(Drop)]
pub(crate) struct Explanation {
    pub(crate) message: Message,
    pub(crate) deeds: Deeds,
    pub(crate) faults: PlannedFaults,
    /// The replies, 1 or 2, whose command a host was made to judge otherwise: once for each.
    pub(crate) rejudged: ArrayVec<u32, 2>,
}

impl Explanation {
    /// A message to begin with, of a job with terminals of these addresses.
    pub(crate) fn none(alloc: Global, addresses: &[u8]) -> Result<Explanation, AllocError> {
        let deeds = Deeds::none(alloc, addresses)?;
        Ok(Explanation {
            message: Message::default(),
            deeds,
            faults: PlannedFaults::none(),
            rejudged: ArrayVec::new(),
        })
    }

    /// Begins anew with a message and what hosts do in front of it in any case.
    pub(crate) fn begin(&mut self, message: Message, due: &[Deed]) -> Result<(), AllocError> {
        self.message = message;
        self.deeds.clear();
        self.faults.clear();
        self.rejudged.clear();
        for deed in due {
            self.act(deed.address, deed.action.copy())?;
        }
        Ok(())
    }

    /// Whether the job has a terminal with this address.
    pub(crate) fn has(&self, address: u8) -> bool {
        self.deeds.has(address)
    }

    /// Puts an action behind the others; none of a terminal that is not there, and none that sets a switch as they
    /// leave it.
    pub(crate) fn act(&mut self, address: u8, action: Action) -> Result<(), AllocError> {
        self.deeds.act(address, action)
    }

    /// Puts an action in front of the next message; none of a terminal that is not there.
    pub(crate) fn act_later(&mut self, address: u8, action: Action) -> Result<(), AllocError> {
        self.deeds.act_later(address, action)
    }

    /// Plans a fault; false where it is out of its range, or four are planned already.
    pub(crate) fn plan(&mut self, fault: Fault) -> bool {
        self.faults.plan(fault)
    }
}
