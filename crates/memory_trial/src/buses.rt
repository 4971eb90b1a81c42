//! Calls on terminals, plans and buses.
use crate::told::Told;
use mil_bus::{Bus, BusError};
use mil_line::{Fault, LineError, Plan};
use mil_terminal::{Terminal, TerminalError};
use std::alloc::Global;

/// The fault that is planned.
const MUTED: Fault = Fault::Mute { run: 1 };

/// `Terminal::make`.
pub(crate) fn terminal_make(alloc: Global) -> Told {
    match Terminal::make(alloc, 5) {
        Ok(_) => Told::Well,
        Err(TerminalError::Memory) => Told::Refused,
        Err(TerminalError::Address) => Told::Wrong,
    }
}

/// `Terminal::copy`.
pub(crate) fn terminal_copy(alloc: Global) -> Told {
    match Terminal::make(alloc, 5) {
        Ok(terminal) => Told::of(terminal.copy().is_ok()),
        Err(_) => Told::Early,
    }
}

/// Plans a fault for each message of 1 to 20, up to a refusal, behind which all up to the message before are planned.
pub(crate) fn plan_add(alloc: Global) -> Told {
    let mut plan = Plan::make(alloc);
    for number in 1..=20u32 {
        match plan.add(number, MUTED) {
            Ok(()) => {}
            Err(LineError::Memory) => {
                let planned = number == 1 || plan.faults(number - 1).len() == 1;
                return Told::refused(planned && plan.faults(number).is_empty());
            }
            Err(_) => return Told::Wrong,
        }
    }
    Told::Well
}

/// Plans a second fault for each message of 1 to 19, which all come behind that of message 20, up to a refusal,
/// behind which all up to the message before have two.
pub(crate) fn plan_add_late(alloc: Global) -> Told {
    let Ok(mut plan) = plan_of_twenty(alloc) else {
        return Told::Early;
    };
    for number in 1..20u32 {
        match plan.add(number, MUTED) {
            Ok(()) => {}
            Err(LineError::Memory) => {
                let planned = number == 1 || plan.faults(number - 1).len() == 2;
                return Told::refused(planned && plan.faults(number).len() == 1);
            }
            Err(_) => return Told::Wrong,
        }
    }
    Told::Well
}

/// A plan of a fault for each message of 1 to 20.
fn plan_of_twenty(alloc: Global) -> Result<Plan, LineError> {
    let mut plan = Plan::make(alloc);
    for number in 1..=20u32 {
        plan.add(number, MUTED)?;
    }
    Ok(plan)
}

/// `Plan::copy`, where a fault came late.
pub(crate) fn plan_copy(alloc: Global) -> Told {
    let Ok(mut plan) = plan_of_twenty(alloc) else {
        return Told::Early;
    };
    match plan.add(1, MUTED) {
        Ok(()) => Told::of(plan.copy().is_ok()),
        Err(_) => Told::Early,
    }
}

/// `Bus::make`.
pub(crate) fn bus_make(alloc: Global) -> Told {
    match Bus::make(alloc, 0, &[3, 5, 7]) {
        Ok(_) => Told::Well,
        Err(BusError::Memory) => Told::Refused,
        Err(BusError::Addresses) => Told::Wrong,
    }
}

/// `Bus::copy`.
pub(crate) fn bus_copy(alloc: Global) -> Told {
    match Bus::make(alloc, 0, &[3, 5, 7]) {
        Ok(bus) => Told::of(bus.copy().is_ok()),
        Err(_) => Told::Early,
    }
}
