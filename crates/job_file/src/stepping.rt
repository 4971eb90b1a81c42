//! The controller of a job, from one record to the next.
ghost use Rattle.bc_machine.specs.Running.{HasEnded, ended_in};
ghost use Rattle.bc_machine.specs.UnderWay.{IsUnderWay};
ghost use Rattle.bc_machine.specs.declared.placed.Placed.{Placed};
ghost use Rattle.frame_tree.specs.Bounds.{IsSound};
ghost use Rattle.job_file.specs.Machines.{IsOf, IsLatestOutcome};
ghost use Rattle.job_file.specs.Meaning.{records};
ghost use Rattle.job_file.specs.ChannelJobs.{ChannelJob};
ghost use Rattle.std.specs.Prelude.{◌≡◌, ◌+◌, ◌<◌, ◌≤◌, ◌^◌, List, Some, length, slice_get, IfSome, IfNone};

use crate::laws::job_runs;
use bc_machine::{Machine, Stepped};
use ch11_f1::Record;

/// Steps a controller to its next message, and gives the record of it; None where it halts before. It takes no memory.
///
/// Of whatever job and placed actions the controller is, it stays so, and the record is the next of the job's.
pub fn next_record(machine: &mut Machine) -> Option<Record>
    ensures under_way { IsUnderWay machine.new }
    ensures of_job { (job : ChannelJob) (placed : List Placed) → IsOf job placed machine.old
        → IsOf job placed machine.new }
    ensures told { IsLatestOutcome machine.old → IsLatestOutcome machine.new }
    ensures record { IfSome result
        (λ r. (job : ChannelJob) (placed : List Placed) → IsSound job.tree → IsOf job placed machine.old
        → slice_get (records job placed) machine.old.point.number ≡ Some r) }
    ensures number { IfSome result (λ _. machine.new.point.number ≡ machine.old.point.number + 1) }
    ensures small { IfSome result (λ r. r.stamp < 2 ^ 48) }

    // The message begins when the one before has ended, or later, and ends after it began.
    ensures follows { IfSome result (λ r. ended_in machine.old ≤ r.stamp) }
    ensures ends { IfSome result (λ r. r.stamp ≤ ended_in machine.new) }

    ensures all { IfNone result ((job : ChannelJob) (placed : List Placed) → IsSound job.tree
        → IsOf job placed machine.old
        → machine.old.point.number ≡ length (records job placed)) }
    ensures same { IfNone result (machine.new.point.number ≡ machine.old.point.number) }
    ensures ended { IfNone result (HasEnded machine.new) }
{
    // The laws of a job's records, for the proofs.
    job_runs();
    'steps: loop {
        match machine.step() {
            Stepped::Ran => {}
            Stepped::Sent(record) | Stepped::Inserted(record) => return Some(record),
            Stepped::Halted => return None,
        }
    }
}
