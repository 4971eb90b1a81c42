//! Laws of the definitions of this crate, the contract of a function that does nothing.
ghost use Rattle.job_file.specs.Machines.{Starts, StaysMachineOf, CountsMessagesSent, RecordsSoFar, BusSoFar};
ghost use Rattle.job_file.specs.Machines.{MadeSoFar, AllRecords};

use bc_machine::BusSetting;
use frame_asm::code_means;

/// The controller of a job of a sound script, under any placed actions: with each step it stays the job's; after so
/// many messages its records are the first of the job's records, and its bus is the job's after that many, and so are
/// the messages that it made; where it has ended, they are all of the job's records.
pub fn job_runs()
    ensures starts { Starts }
    ensures goes_on { StaysMachineOf }
    ensures counts { CountsMessagesSent }
    ensures so_far { RecordsSoFar }
    ensures bus { BusSoFar }
    ensures made { MadeSoFar }
    ensures whole { AllRecords }
{
    code_means::<BusSetting>();
}
