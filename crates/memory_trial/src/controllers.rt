//! Calls on controllers that are under way.
use crate::told::Told;
use crate::worked::{FIVE, job_of};
use bc_machine::{HostAction, Machine};
use job_file::Job;
use mil_host::Action;
use std::alloc::Global;

/// The controller of a job; None where memory is refused.
fn controller(alloc: Global, job: &Job) -> Option<Machine> {
    job.machine(alloc, job.actions()).ok()
}

/// The controller of five messages; None where memory is refused.
fn five(alloc: Global) -> Option<Machine> {
    controller(alloc, &job_of(alloc, FIVE)?)
}

/// `Machine::copy`.
pub(crate) fn copied(alloc: Global) -> Told {
    match five(alloc) {
        Some(machine) => Told::of(machine.copy().is_ok()),
        None => Told::Early,
    }
}

/// `Machine::save`.
pub(crate) fn saved(alloc: Global) -> Told {
    match five(alloc) {
        Some(machine) => Told::of(machine.save(alloc).is_ok()),
        None => Told::Early,
    }
}

/// Makes room for actions; without room an action comes back.
pub(crate) fn room(alloc: Global) -> Told {
    let Some(mut machine) = five(alloc) else {
        return Told::Early;
    };
    let made = machine.room(40).is_ok();
    let kept = machine
        .place(HostAction::Terminal {
            address: 5,
            action: Action::Busy(true),
        })
        .is_ok();
    if made {
        Told::well(kept)
    } else {
        Told::refused(!kept)
    }
}
