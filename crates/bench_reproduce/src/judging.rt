//! What running a job gives, compared with what was recorded.
ghost use Rattle.bench_compare.specs.Channels.{origins_by};
ghost use Rattle.bench_reproduce.specs.Readings.{read_again, run_of};
ghost use Rattle.bench_reproduce.specs.Running.{ComparesNext, IsCompared, stamp_or};
ghost use Rattle.bench_reproduce.specs.Sameness.{is_same, places, same_in};
ghost use Rattle.bc_machine.specs.declared.placed.Placed.{Placed};
ghost use Rattle.byteorder.specs.Endian.{little_bytes};
ghost use Rattle.ch11_f1.specs.Again.{as_message};
ghost use Rattle.ch11_f1.specs.BodyBytes.{words_of};
ghost use Rattle.ch11_f1.specs.Views.{message_of};
ghost use Rattle.ch11_layout.specs.Stamps.{recorded};
ghost use Rattle.frame_tree.specs.Bounds.{IsSound};
ghost use Rattle.job_file.specs.Jobs.{job_in};
ghost use Rattle.job_file.specs.Machines.{IsOf};
ghost use Rattle.job_file.specs.Meaning.{records};
ghost use Rattle.job_file.specs.Spelled.{ChannelJob};
ghost use Rattle.std.specs.List.{flat_map};
ghost use Rattle.std.specs.Prelude.{◌≡◌, ◌+◌, ◌≤◌, ◌<◌, if◌then◌else◌, List, Some, None, map, take, option_map};
ghost use Rattle.std.specs.Prelude.{length};
ghost use Rattle.std.specs.Prelude.{OnOk, IfOk};

use crate::hearing::Heard;
use bc_machine::Machine;
use bench_compare::{Difference, Kept, Met, Origins, Part, part_of};
use byteorder::{ByteOrder, LittleEndian};
use ch11_f1::{Record, Seen};
use ch11_layout::{StampKind, View};
use job_file::{Job, next_record};
use std::alloc::{AllocError, Global};

/// How many differences are told.
const TOLD: usize = 10;

/// What running a job came to.
#[derive(Debug, Drop)]
pub struct Verdict {
    /// How many messages the recording or the run has, whichever has more.
    pub messages: u64,
    /// How many of them are the same.
    pub same: u64,
    /// The first ten that are not, the recording first.
    pub differences: Vec<Difference>,
}

/// The bytes of bus words, two for each, the low one first.
#[derive(Clone, Copy, Debug)]
struct WordBytes {
    bytes: [u8; 80],
    size: usize,
}

/// How far a run was compared.
#[derive(Debug, Drop)]
pub(crate) struct Standing {
    pub(crate) origins: Option<Origins>,
    pub(crate) same: u64,
    pub(crate) differences: Vec<Difference>,
}

/// The words of a record as bytes.
fn bytes_of(record: &Record) -> WordBytes
    ensures bytes { take result.size result.bytes ≡ flat_map (little_bytes 2) (words_of «record».now) }
    ensures size { result.size ≤ 80 }
{
    let words = record.words.as_slice();
    let mut bytes = [0u8; 80];
    let size = 2 * words.len();
    LittleEndian::write_u16_into(words, &mut bytes[..size]);
    WordBytes { bytes, size }
}

impl WordBytes {
    /// A record with these words as it is read from a body.
    fn seen(&self, record: &Record) -> Seen<'_>
        requires bytes { take self.now.size self.now.bytes ≡ flat_map (little_bytes 2) (words_of «record».now) }
        requires size { self.now.size ≤ 80 }
        ensures { message_of result ≡ as_message «record».now }
    {
        Seen {
            stamp: record.stamp,
            block: record.block,
            gaps: record.gaps,
            words: &self.bytes[..self.size],
        }
    }
}

/// The stamps from which those of the channel are told, where these are the next ones.
fn origins_of(standing: &Standing, first: u64, second: u64) -> Origins
    ensures { result ≡ origins_by standing.now.origins first second }
{
    match standing.origins {
        Some(origins) => origins,
        None => Origins { first, second },
    }
}

/// Tells of a difference, where fewer than ten are told.
fn tell(
    alloc: Global,
    differences: &mut Vec<Difference>,
    number: u64,
    part: Part,
    origins: Origins,
    message: &Met<'_>,
    met: Option<&Met<'_>>,
) -> Result<(), AllocError> {
    if differences.len() >= TOLD {
        return Ok(());
    }
    let first = Kept::of(alloc, message)?;
    let second = match met {
        Some(met) => Some(Kept::of(alloc, met)?),
        None => None,
    };
    differences.push(Difference {
        number,
        part,
        first: Some(first),
        second,
        origins,
    })?;
    Ok(())
}

/// Compares a message with the record of the run at its place.
fn compare_with(
    alloc: Global,
    standing: &mut Standing,
    number: u64,
    message: &Met<'_>,
    record: &Record,
) -> Result<(), AllocError>
    requires { standing.old.same < number }
    ensures { OnOk result (IsCompared standing.old (recorded message.now.kind (message_of message.now.seen))
        (Some «record».now) standing.new) }
{
    let bytes = bytes_of(record);
    let kind = StampKind::Counter;
    let seen = bytes.seen(record);
    let view = message.view();
    let origins = origins_of(standing, view.stamp(), record.stamp);
    standing.origins = Some(origins);
    match part_of(0, origins, &view, &View::of(kind, &seen)) {
        None => {
            standing.same += 1;
            Ok(())
        }
        Some(part) => {
            let met = Met { number, kind, seen };
            tell(
                alloc,
                &mut standing.differences,
                number,
                part,
                origins,
                message,
                Some(&met),
            )
        }
    }
}

/// Compares a message with what the run has at its place.
fn compare_at(
    alloc: Global,
    standing: &mut Standing,
    number: u64,
    message: &Met<'_>,
    record: &Option<Record>,
) -> Result<(), AllocError>
    requires { standing.old.same < number }
    ensures { OnOk result (IsCompared standing.old (recorded message.now.kind (message_of message.now.seen))
        «record».now standing.new) }
{
    match record {
        Some(record) => compare_with(alloc, standing, number, message, record),
        None => {
            let origins = origins_of(standing, message.view().stamp(), 0);
            standing.origins = Some(origins);
            let part = Part::MissingInSecond;
            tell(
                alloc,
                &mut standing.differences,
                number,
                part,
                origins,
                message,
                None,
            )
        }
    }
}

/// Compares a message with the next record of a job, whose controller this is.
fn compare_next(
    alloc: Global,
    machine: &mut Machine,
    standing: &mut Standing,
    number: u64,
    message: &Met<'_>,
) -> Result<(), AllocError>
    requires { standing.old.same < number }
    ensures of_job { (job : ChannelJob) (placed : List Placed) → IsOf job placed machine.old
        → IsOf job placed machine.new }
    ensures next { OnOk result ((job : ChannelJob) (placed : List Placed) → IsSound job.tree
        → IsOf job placed machine.old
        → ComparesNext (records job placed) machine.old.point.number machine.new.point.number
        standing.old (recorded message.now.kind (message_of message.now.seen)) standing.new) }
    ensures more { OnOk result (standing.new.same ≤ standing.old.same + 1) }
{
    let record = next_record(machine);
    compare_at(alloc, standing, number, message, &record)
}

/// Lets a job run to its end, whose controller this is.
fn run_on(machine: &mut Machine)
    ensures { (job : ChannelJob) (placed : List Placed) → IsSound job.tree → IsOf job placed machine.old
        → machine.new.point.number ≡ length (records job placed) }
{
    'records: while let Some(_record) = next_record(machine) {}
}

/// Compares the records of a job, whose controller this is, and has made none, with the messages that were recorded.
fn compare_all(alloc: Global, machine: &mut Machine, heard: &Heard) -> Result<Verdict, AllocError>
    requires { machine.old.point.number ≡ 0 }
    ensures messages { IfOk result (λ v. (job : ChannelJob) (placed : List Placed) → IsSound job.tree
        → IsOf job placed machine.old
        → v.messages ≡ places heard.now (map read_again (records job placed))) }
    ensures same { IfOk result (λ v. (job : ChannelJob) (placed : List Placed) → IsSound job.tree
        → IsOf job placed machine.old
        → v.same ≡ same_in heard.now (map read_again (records job placed))) }
{
    let mut standing = Standing {
        origins: None,
        same: 0,
        differences: Vec::new(alloc),
    };
    'messages: for place in 0..heard.len() {
        let number = place as u64 + 1;
        compare_next(alloc, machine, &mut standing, number, &heard.at(place))?;
    }
    run_on(machine);
    Ok(Verdict {
        messages: u64::from(machine.number()).max(heard.len() as u64),
        same: standing.same,
        differences: standing.differences,
    })
}

/// Runs a job and compares its records with the messages that were recorded. What the job has stands in memory once.
pub(crate) fn judge(alloc: Global, job: Job, heard: &Heard) -> Result<Verdict, AllocError>
    ensures messages { IfOk result (λ v. v.messages ≡ places heard.now (run_of (job_in job))) }
    ensures same { IfOk result (λ v. v.same ≡ same_in heard.now (run_of (job_in job))) }
{
    // A job's script is sound by its type.
    let _sound = job.program();
    let mut machine = job.into_machine(alloc)?;
    let verdict = compare_all(alloc, &mut machine, heard)?;
    Ok(verdict)
}
