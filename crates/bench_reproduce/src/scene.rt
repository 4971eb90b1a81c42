//! The bus on which messages are tried, beside the bus as the messages explained so far have left it.
ghost use Rattle.mil_bus.specs.Exchange.{now_of};
ghost use Rattle.std.specs.Prelude.{◌<◌, ◌^◌, ◌≡◌, true};

use crate::deeds::Deed;
use crate::explanations::Explanation;
use crate::wanted::{LATEST_TICK, Wanted};
use mil_bus::{Bus, BusError, Talk};
use mil_host::Action;
use mil_line::Gap;
use mil_terminal::Terminal;
use mil_word::timing::{LEAST_GAP, LONGER_GAP};
use std::alloc::{AllocError, Global};

/// The last tick at which a message is tried.
const LAST_TICK: u64 = 1_152_921_504_606_846_975;

/// The gap that terminals keep at first, in ticks of 0.1 µs.
const FIRST_GAP: u16 = 80;

/// Two buses with the same terminals.
#[derive(Drop)]
pub(crate) struct Scene {
    /// Behind the messages that are explained.
    settled: Bus,
    /// Where the next one is tried.
    tried: Bus,
    /// Whether something was tried on it.
    spent: bool,
    /// The gap that the host of each terminal has set.
    gaps: [u16; 32],
    /// The least gap that a controller keeps behind the message that is settled last, in ticks.
    least: u16,
}

/// Whether a message may still be exchanged.
fn has_time(bus: &Bus) -> bool
    ensures { result ≡ true → now_of bus.now < 2 ^ 60 }
{
    bus.now() <= LAST_TICK
}

/// Exchanges a message on a bus, behind what hosts do in front of it; None where it would begin too late.
fn exchange(bus: &mut Bus, wanted: &Wanted, explanation: &Explanation) -> Option<Talk> {
    for deed in explanation.deeds.as_slice() {
        // Each is of a terminal that is there.
        let _ = bus.act(deed.address, &deed.action);
    }
    let before = bus.hold(wanted.at.min(LATEST_TICK));
    if !has_time(bus) {
        return None;
    }
    let talk = bus.exchange(
        wanted.line,
        &explanation.message,
        Gap::of(LEAST_GAP),
        explanation.faults.as_slice(),
    );
    // The tick that this gives back is the message's own.
    let _ = bus.hold(before);
    Some(talk)
}

/// The least gap that a controller keeps behind a message (own choice of the longer one).
fn least_behind(talk: &Talk) -> u16 {
    if talk.outcome().failed || talk.is_controllers_last() {
        LONGER_GAP
    } else {
        LEAST_GAP
    }
}

impl Scene {
    /// New terminals of these addresses.
    pub(crate) fn make(alloc: Global, addresses: &[u8]) -> Result<Scene, BusError> {
        let settled = Bus::make(alloc, 0, addresses)?;
        let tried = Bus::make(alloc, 0, addresses)?;
        Ok(Scene {
            settled,
            tried,
            spent: false,
            gaps: [FIRST_GAP; 32],
            least: LEAST_GAP,
        })
    }

    /// Tries a message.
    pub(crate) fn attempt(
        &mut self,
        wanted: &Wanted,
        explanation: &Explanation,
    ) -> Result<Option<Talk>, AllocError> {
        if self.spent {
            self.tried = self.settled.copy()?;
        }
        self.spent = true;
        Ok(exchange(&mut self.tried, wanted, explanation))
    }

    /// Keeps the message that was tried last.
    pub(crate) fn settle(&mut self, wanted: &Wanted, explanation: &Explanation) {
        if let Some(talk) = exchange(&mut self.settled, wanted, explanation) {
            self.least = least_behind(&talk);
        }
        self.spent = false;
        for deed in explanation.deeds.as_slice() {
            self.note_gap(deed);
        }
    }

    /// Notes the gap that a host sets.
    fn note_gap(&mut self, deed: &Deed) {
        let ticks = match &deed.action {
            Action::Response(gap) => u16::from(gap.ticks()),
            Action::Gap(gap) => u16::from(gap.ticks()),
            _ => return,
        };
        if let Some(kept) = self.gaps.get_mut(usize::from(deed.address)) {
            *kept = ticks;
        }
    }

    /// When the last word of the messages explained so far ended, in ticks.
    pub(crate) fn ended(&self) -> u64 {
        self.settled.clock()
    }

    /// The least gap that a controller keeps behind them, in ticks.
    pub(crate) fn least(&self) -> u16 {
        self.least
    }

    /// The gap that the host of a terminal has set, in ticks.
    pub(crate) fn gap(&self, address: u8) -> u16 {
        match self.gaps.get(usize::from(address)) {
            Some(ticks) => *ticks,
            None => FIRST_GAP,
        }
    }

    /// A terminal as the messages explained so far have left it.
    pub(crate) fn terminal(&self, address: u8) -> Option<&Terminal> {
        self.settled.terminal(address)
    }

    /// A terminal behind the message that was tried last.
    pub(crate) fn terminal_then(&self, address: u8) -> Option<&Terminal> {
        self.tried.terminal(address)
    }
}
