//! A recorded channel as a job.
ghost use Rattle.bench_reproduce.specs.Reproduced.{IsReproduced, IsRun, Plays};
ghost use Rattle.std.specs.Prelude.{◌≡◌, ℕ, List, Some, string_bytes, IfOk, IfSome};

use crate::answering::answering;
use crate::explaining::{Explainer, play};
use crate::fault::ReproduceFault;
use crate::form::JobForm;
use crate::frames::{Schedule, schedule_of};
use crate::framing::Framing;
use crate::hearing::{Heard, hear};
use crate::judging::{Verdict, judge};
use crate::laws::all_are_same;
use crate::wanted::LATEST_TICK;
use crate::writing::JobText;
use ch11_stream::Advance;
use job_file::read_job;
use std::alloc::{AllocError, Global};

/// A job that was written, and what running it came to.
#[derive(Drop)]
pub struct Reproduction {
    /// The text of the job.
    pub text: String,
    /// How it has the messages.
    pub form: JobForm,
    /// What running it came to.
    pub verdict: Verdict,
}

/// The stamp of the first message, where all others begin at most 2^47 ticks after it.
fn first_stamp(heard: &Heard) -> Result<u64, ReproduceFault> {
    let Some(met) = heard.get(0) else {
        return Err(ReproduceFault::Nothing);
    };
    let first = met.view().stamp();
    for place in 0..heard.len() {
        if heard.at(place).view().stamp().saturating_sub(first) > LATEST_TICK {
            return Err(ReproduceFault::Span);
        }
    }
    Ok(first)
}

/// What was recorded of a channel, and from which stamp on.
#[derive(Clone, Copy)]
struct Material<'h> {
    heard: &'h Heard,
    channel: u16,
    first: u64,
}

/// The number of the message at a place.
fn number_of(place: usize) -> u32 {
    place.min(1_000_000) as u32 + 1
}

/// The text of a job that inserts each message at its time.
fn inserted(alloc: Global, material: &Material<'_>) -> Result<String, AllocError> {
    let (heard, channel, first) = (material.heard, material.channel, material.first);
    let addresses = answering(alloc, heard)?;
    let mut text = JobText::begin(alloc, channel, heard.len(), None, addresses.as_slice())?;
    let mut explainer = Explainer::begin(alloc, heard, first, addresses.as_slice())?;
    for place in 0..heard.len() {
        if let Some(wanted) = explainer.explain(place)? {
            text.put_inserted(number_of(place), &wanted, explainer.explanation(), 0)?;
        }
    }
    text.end("")
}

/// Puts the lines of the message at a place, which the script sends or which is inserted.
fn put_one(
    schedule: &Schedule,
    place: usize,
    explainer: &mut Explainer<'_>,
    framing: &mut Framing<'_>,
    text: &mut JobText,
) -> Result<(), AllocError> {
    let Some(wanted) = explainer.explain(place)? else {
        return Ok(());
    };
    let (number, explanation) = (number_of(place), explainer.explanation());
    if schedule.sends(place) {
        framing.send(&wanted, explanation)?;
        text.put_sent(number, &wanted, explanation, framing.control())
    } else {
        text.put_inserted(number, &wanted, explanation, schedule.shift)
    }
}

/// The text of a job whose script sends the messages of a schedule.
fn framed(
    alloc: Global,
    material: &Material<'_>,
    schedule: &Schedule,
) -> Result<String, AllocError> {
    let (heard, channel, first) = (material.heard, material.channel, material.first);
    let addresses = answering(alloc, heard)?;
    let sent = Some(schedule.count());
    let mut text = JobText::begin(alloc, channel, heard.len(), sent, addresses.as_slice())?;
    let mut explainer = Explainer::begin(alloc, heard, first, addresses.as_slice())?;
    let mut framing = Framing::begin(alloc, schedule);
    for place in 0..heard.len() {
        put_one(schedule, place, &mut explainer, &mut framing, &mut text)?;
    }
    text.end(framing.script())
}

/// The text of a job with frames, where messages recur.
fn framed_if_any(alloc: Global, material: &Material<'_>) -> Result<Option<String>, AllocError> {
    let addresses = answering(alloc, material.heard)?;
    let played = play(alloc, material.heard, material.first, addresses.as_slice())?;
    let schedule = schedule_of(alloc, played.as_slice())?;
    drop(played);
    if schedule.groups.is_empty() {
        return Ok(None);
    }
    Ok(Some(framed(alloc, material, &schedule)?))
}

/// Runs a job as its text spells it, and compares its records with the messages that were recorded.
fn run_written(alloc: Global, text: &[u8], heard: &Heard) -> Result<Verdict, ReproduceFault>
    ensures { IfOk result (λ v. IsRun text.now heard.now v.messages v.same) }
{
    let job = read_job(alloc, text)?;
    let verdict = judge(alloc, job, heard)?;
    Ok(verdict)
}

/// A job that inserts each message, and what running it came to.
fn by_inserts(alloc: Global, material: &Material<'_>) -> Result<Reproduction, ReproduceFault>
    ensures { IfOk result (λ r. IsRun (string_bytes r.text) material.now.heard.now r.verdict.messages r.verdict.same) }
{
    let text = inserted(alloc, material)?;
    let verdict = run_written(alloc, text.as_bytes(), material.heard)?;
    Ok(Reproduction {
        text,
        form: JobForm::Inserts,
        verdict,
    })
}

/// A job with frames, and what running it came to; None where no message recurs, and where it is no job.
fn by_frames(alloc: Global, material: &Material<'_>) -> Result<Option<Reproduction>, ReproduceFault>
    ensures { IfOk result (λ found. IfSome found
        (λ r. IsRun (string_bytes r.text) material.now.heard.now r.verdict.messages r.verdict.same)) }
{
    let Some(text) = framed_if_any(alloc, material)? else {
        return Ok(None);
    };
    match run_written(alloc, text.as_bytes(), material.heard) {
        Ok(verdict) => Ok(Some(Reproduction {
            text,
            form: JobForm::Frames,
            verdict,
        })),
        Err(ReproduceFault::Refused(_)) => Ok(None),
        Err(fault) => Err(fault),
    }
}

/// The job with frames, or the other where more messages come out the same by that one, and what running it came to.
fn by_either(alloc: Global, material: &Material<'_>) -> Result<Reproduction, ReproduceFault>
    ensures { IfOk result (λ r. IsRun (string_bytes r.text) material.now.heard.now r.verdict.messages r.verdict.same) }
{
    let Some(framed) = by_frames(alloc, material)? else {
        return by_inserts(alloc, material);
    };
    if framed.verdict.same == framed.verdict.messages {
        // No job does better.
        return Ok(framed);
    }
    let plain = by_inserts(alloc, material)?;
    if plain.verdict.same > framed.verdict.same {
        Ok(plain)
    } else {
        Ok(framed)
    }
}

/// A job of that form, and what running it came to.
fn in_form(
    alloc: Global,
    material: &Material<'_>,
    form: JobForm,
) -> Result<Reproduction, ReproduceFault>
    ensures { IfOk result (λ r. IsRun (string_bytes r.text) material.now.heard.now r.verdict.messages r.verdict.same) }
{
    match form {
        JobForm::Inserts => by_inserts(alloc, material),
        JobForm::Frames => by_either(alloc, material),
    }
}

/// A job that plays the messages of a channel of a recording, given by a reader, at their times, with the replies and
/// the errors that were recorded, as far as a job can tell them; and what running it came to, compared with what was
/// recorded. With `JobForm::Frames` messages that recur are sent by frames, where they do and no fewer come out the
/// same.
pub fn reproduce<R: Advance + Drop>(
    alloc: Global,
    input: R,
    channel: u16,
    form: JobForm,
) -> Result<Reproduction, ReproduceFault>
    ensures counted { IfOk result (λ r. (file : List ℕ) → R.remaining input ≡ Some file
        → IsReproduced (string_bytes r.text) file channel r.verdict.messages r.verdict.same) }

    // Where it says that all messages are the same, running the job that the text spells gives them.
    ensures same { IfOk result (λ r. r.verdict.same ≡ r.verdict.messages → (file : List ℕ)
        → R.remaining input ≡ Some file → Plays (string_bytes r.text) file channel) }
{
    // The law by which all are the same, for the proofs.
    all_are_same();
    let messages = hear(alloc, input, channel)?;
    let heard = &messages;
    let first = first_stamp(heard)?;
    let material = Material {
        heard,
        channel,
        first,
    };
    let reproduction = in_form(alloc, &material, form)?;
    Ok(reproduction)
}
