//! What is kept of a controller, for it to be taken back there.
use crate::agenda::SavedAgenda;
use crate::begun::Begun;
use crate::progress::Progress;
use crate::schedule::Schedule;
use frame_load::Program;
use mil_bus::SavedBus;
use mil_line::Plan;
use std::marker::Model;
use std::snapshot::Snapshot;

/// What steps change of a controller. Contracts see the whole controller as plain data; of its program, plan and placed
/// actions no byte is kept.
#[derive(Drop)]
pub struct SavedParts {
    pub program: Snapshot<Program>,
    pub plan: Snapshot<Plan>,
    pub placed: Snapshot<Schedule>,
    pub posted: Snapshot<Schedule>,
    pub agenda: SavedAgenda,
    pub begun: Snapshot<Begun>,
    pub progress: Progress,
    pub bus: SavedBus,
}

impl Model for SavedParts {
    ghost use Rattle.bc_machine.specs.Running.{MachineState};

    ghost Value = { MachineState };

    ghost use Rattle.bc_machine.specs.SavedMachine.{state_kept, KeepsAgenda};

    ghost view = { state_kept };

    ghost invariant = { KeepsAgenda };
}

/// A controller as it was when it was saved: its bus, its registers and all else that steps change. Contracts see the
/// whole controller; of its program, plan and placed actions no byte is kept.
#[derive(Drop)]
pub struct Saved {
    pub(crate) parts: SavedParts,
}

impl Model for Saved {
    ghost use Rattle.bc_machine.specs.Running.{MachineState};
    ghost use Rattle.bc_machine.specs.UnderWay.{IsUnderWay};

    ghost Value = { MachineState };

    ghost view = { λ s. s.parts };

    ghost invariant = { λ s. IsUnderWay s.parts };
}
