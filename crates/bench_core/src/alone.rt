//! One channel from its job to a recording, on the calling thread.
ghost use Rattle.bench_core.specs.OneChannel.{format_of, channel_file, IsReadAs};
ghost use Rattle.bench_core.specs.OneChannelFaults.{LeavesChannelInSink};
ghost use Rattle.ch11_recording.specs.Recording.{IsLimit, IsRecordingOf};
ghost use Rattle.job_file.specs.Jobs.{job_in};
ghost use Rattle.job_file.specs.Machines.{IsOf};
ghost use Rattle.job_file.specs.Meaning.{records};
ghost use Rattle.std.specs.Io.KnownBytes.{Appends};
ghost use Rattle.std.specs.Prelude.{◌≡◌, ◌-◌, ◌<◌, ◌≤◌, ◌^◌, ◌∷◌, [], false, IfOk, IfErr, OnOk};

use crate::channel_fault::ChannelFault;
use bc_machine::Machine;
use ch11_builder::{BuilderError, run_gives_the_packets};
use ch11_recording::{Recorder, record_fits, recording_is_read_again};
use ch11_writer::Sink;
use job_file::{Job, next_record};
use std::alloc::Global;

/// Records every message of a job, from its first on.
fn record_all<S: Sink>(
    job: &Job,
    version: u8,
    limit: u32,
    machine: Machine,
    recorder: Recorder<S>,
) -> Result<S, ChannelFault<S>>
    requires low { 256 ≤ limit }
    requires high { limit ≤ 524288 }
    requires machine { IsOf (job_in job.now) job.now.actions machine }
    requires first { machine.point.number ≡ 0 }
    requires begun { IsRecordingOf S.taken (format_of version limit) [] (S.taken recorder.writing.sink)
        (job.now.channel ∷ []) [] recorder }
    requires fresh { recorder.writing
        ≡ record { sink = recorder.writing.sink; taken = 0; failed = false; finished = false } }
    ensures file { IfOk result (λ s. Appends (S.taken recorder.writing.sink) (S.taken s)
        (channel_file job.now.channel version limit (records (job_in job.now) job.now.actions))) }
    ensures read { IfOk result (λ _. IsReadAs job.now.channel (records (job_in job.now) job.now.actions)
        (channel_file job.now.channel version limit (records (job_in job.now) job.now.actions))) }
    ensures refused { IfErr result (LeavesChannelInSink S.taken S.failures limit
        (channel_file job.now.channel version limit (records (job_in job.now) job.now.actions)) recorder.writing.sink) }
{
    let mut machine = machine;
    let mut recorder = recorder;
    // A job's script is sound by its type.
    let _sound = job.program();
    // A channel's number is in range by its type.
    let _channel = job.channel();
    run_gives_the_packets();
    recording_is_read_again();
    while let Some(record) = next_record(&mut machine) {
        let number = machine.number();
        record_fits(&record);
        recorder.keep(0, u64::from(number), &record);
    }
    recorder.end(0);
    match recorder.finish() {
        Ok(()) => Ok(recorder.into_sink()),
        Err(fault) => Err(ChannelFault::Sink {
            sink: recorder.into_sink(),
            taken: fault.taken,
        }),
    }
}

/// The recording of a job's channel under its own actions, in packets of at most `limit` bytes, put into the sink. G1
/// where the limit is outside 256 to 524,288, then U3 where memory is refused, then U4 where the sink fails; each hands
/// the sink back.
///
/// What the sink took, read back, gives the job's records, in order and once.
pub fn one_channel<S: Sink>(
    alloc: Global,
    job: &Job,
    version: u8,
    limit: u32,
    sink: S,
) -> Result<S, ChannelFault<S>>
    requires countable { S.failures sink < 2 ^ 64 - 1 }
    ensures file { IfOk result (λ s. Appends (S.taken sink) (S.taken s)
        (channel_file job.now.channel version limit (records (job_in job.now) job.now.actions))) }
    ensures read { IfOk result (λ _. IsReadAs job.now.channel (records (job_in job.now) job.now.actions)
        (channel_file job.now.channel version limit (records (job_in job.now) job.now.actions))) }
    ensures limit { OnOk result (IsLimit limit) }
    ensures refused { IfErr result (LeavesChannelInSink S.taken S.failures limit
        (channel_file job.now.channel version limit (records (job_in job.now) job.now.actions)) sink) }
{
    let recorder = match Recorder::make(alloc, version, limit, &[job.channel()], sink) {
        Ok(recorder) => recorder,
        Err((BuilderError::Limit, sink)) => return Err(ChannelFault::Limit { sink }),
        Err((BuilderError::Memory, sink)) => return Err(ChannelFault::Memory { sink }),
    };
    match job.machine(alloc, job.actions()) {
        Ok(machine) => record_all(job, version, limit, machine, recorder),
        Err(_) => Err(ChannelFault::Memory {
            sink: recorder.into_sink(),
        }),
    }
}
