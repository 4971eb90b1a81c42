//! The job of a text.
ghost use Rattle.frame_asm.specs.Shapes.{code_of_tree};
ghost use Rattle.frame_load.specs.Budget.{worst_messages};
ghost use Rattle.frame_text.specs.Frames.{tree_of_text};
ghost use Rattle.frame_tree.specs.Bounds.{IsSound};
ghost use Rattle.frame_tree.specs.Tree.{tree_of};
ghost use Rattle.job_file.specs.Drafts.{shown};
ghost use Rattle.job_file.specs.Faults.{IsJobHead, IsFirstFault, IsInsertsRefusal, IsScriptRefused, IsLineOf};
ghost use Rattle.job_file.specs.Faults.{IsPlacedBelow};
ghost use Rattle.job_file.specs.JobRanges.{IsFit};
ghost use Rattle.job_file.specs.Jobs.{job_in};
ghost use Rattle.job_file.specs.Reading.{IsJobRefusal, IsScriptRefusal, IsCodeRefusal, HasProgram, all_inserts};
ghost use Rattle.job_file.specs.Scripts.{tree_spelled, IsProgramOf};
ghost use Rattle.job_file.specs.Spelled.{spelled, job_meant, job_with, written, written_of};
ghost use Rattle.job_file.specs.Texts.{HasAccepted, IsAccepted};
ghost use Rattle.job_file.specs.Timed.{resolved};
ghost use Rattle.std.specs.Prelude.{◌≡◌, ◌+◌, ◌-◌, ◌^◌, ◌≤◌, min, Ok, Some, MatchResult, IfOk, IfErr};

use crate::drafts::{Draft, Taken};
use crate::error::{JobError, LineFault};
use crate::jobs::Job;
use crate::resolving::resolve;
use crate::scripts::Script;
use bumpalo::Bump;
use frame_asm::{AsmError, assemble};
use frame_load::{LoadError, Program, load};
use frame_text::{Place, ScriptError, parse};
use frame_tree::Frame;
use std::alloc::Global;
use text_lines::split_line;

/// A channel makes at most so many messages.
const MOST_MESSAGES: u64 = 1_000_000;

/// What the lines above the script say, the line of the script, counted from 1, and the script.
#[derive(Drop)]
struct Head<'a> {
    draft: Draft,
    line: u64,
    script: &'a [u8],
}

/// The lines of a text up to the line of the script.
fn read_head(alloc: Global, text: &[u8]) -> Result<Head<'_>, JobError>
    ensures read { MatchResult result
        (λ h. written text.now ≡ written_of (shown h.draft) h.script.now) (IsJobRefusal (written text.now)) }
    ensures fit { IfOk result (λ h. IsFit (shown h.draft)) }
    ensures head { IfOk result (λ h. IsJobHead text.now (shown h.draft) h.line h.script.now) }
    ensures first { IfErr result (IsFirstFault text.now) }
{
    let mut draft = Draft::make(alloc);
    let mut rest = text;
    let mut line = 1u64;
    while !rest.is_empty() {
        let (first, behind) = split_line(rest);
        match draft.take_line(first) {
            Ok(Taken::Line) => {}
            Ok(Taken::Script) => {
                return Ok(Head {
                    draft,
                    line,
                    script: behind,
                });
            }
            Err(refusal) => return Err(JobError::of_line(line, refusal)),
        }
        rest = behind;
        line += 1;
    }
    Err(JobError::Line {
        line,
        fault: LineFault::Order,
    })
}

/// A place of the script in the whole text, where the script begins behind this line.
fn placed(line: u64, place: Place) -> Place
    ensures line { result.line ≡ min (line + place.line) (2 ^ 64 - 1) }
    ensures column { result.column ≡ place.column }
{
    Place {
        line: line.saturating_add(place.line),
        column: place.column,
    }
}

/// The frame of a script that begins behind a line, in an arena.
fn read_script<'a>(arena: &'a Bump, line: u64, text: &[u8]) -> Result<Frame<&'a Bump>, JobError>
    ensures tree { IfOk result (λ f. tree_of_text text.now ≡ Ok (tree_of f)) }
    ensures refused { IfErr result (IsScriptRefusal (tree_of_text text.now)) }
    ensures place { IfErr result (IsPlacedBelow line text.now) }
    ensures sound { IfOk result (λ f. IsSound (tree_of f)) }
{
    match parse(arena, text) {
        Ok(frame) => Ok(frame),
        Err(ScriptError::Text { cause, place }) => Err(JobError::Script {
            cause,
            place: placed(line, place),
        }),
        Err(ScriptError::Memory { .. }) => Err(JobError::Memory),
    }
}

/// The program of a frame; a refusal stands at the line of the script.
fn program(alloc: Global, line: u64, frame: &Frame<&Bump>) -> Result<Program, JobError>
    requires { IsSound (tree_of frame.now) }
    ensures program { IfOk result (λ p. p ≡ code_of_tree (tree_of frame.now)) }
    ensures refused { IfErr result (IsCodeRefusal (code_of_tree (tree_of frame.now))) }
    ensures line { IfErr result (IsLineOf line) }
    ensures well { IfOk result (λ _. HasProgram (code_of_tree (tree_of frame.now))) }
{
    let image = match assemble(alloc, frame) {
        Ok(image) => image,
        Err(AsmError::Memory) => return Err(JobError::Memory),
        Err(fault) => return Err(JobError::Assembly { line, fault }),
    };
    match load(alloc, image) {
        Ok(program) => Ok(program),
        Err(LoadError::Memory) => Err(JobError::Memory),
        Err(fault) => Err(JobError::Loading { line, fault }),
    }
}

/// Gives up all that stands in an arena; where that is refused, a new arena takes its place.
fn give_up(alloc: Global, arena: &mut Bump) {
    if arena.reset().is_err() {
        *arena = Bump::new(alloc);
    }
}

/// The job of the lines above a script, and of the program of the script, which begins behind a line.
fn complete(
    alloc: Global,
    channel: u16,
    draft: Draft,
    line: u64,
    program: Program,
    script: &[u8],
) -> Result<Job, JobError>
    requires channel { draft.channel ≡ Some channel }
    requires fit { IsFit (shown draft) }
    requires program { IsProgramOf script.now program }
    ensures job { IfOk result (λ j. job_in j
        ≡ resolved (job_with channel (shown draft) (tree_spelled script.now)) draft.timed) }
    ensures few { IfOk result (λ _. all_inserts draft.actions draft.timed.whens
        + worst_messages program.operations ≤ 1000000) }
    ensures many { IfErr result (IsInsertsRefusal line (shown draft) program) }
{
    let left = MOST_MESSAGES - program.worst_messages();
    if draft.has_more_inserts(left) {
        return Err(JobError::Inserts { line });
    }
    let job = Job::make(alloc, channel, draft, program, Script::of(script));
    match resolve(alloc, job) {
        Ok(job) => Ok(job),
        Err(_) => Err(JobError::Memory),
    }
}

/// The job of the lines above a script, and of the script, which begins behind a line. The script's tree stands in the
/// arena until its image is made.
fn finish(
    alloc: Global,
    arena: &mut Bump,
    draft: Draft,
    line: u64,
    script: &[u8],
) -> Result<Job, JobError>
    requires { IsFit (shown draft) }
    ensures job { IfOk result (λ j. job_meant (written_of (shown draft) script.now) ≡ Some (job_in j)) }
    ensures refused { IfErr result (IsJobRefusal (written_of (shown draft) script.now)) }
    ensures first { IfErr result (IsScriptRefused (shown draft) line script.now) }
    ensures well { IfOk result (λ _. HasAccepted (written_of (shown draft) script.now)) }
{
    let Some(channel) = draft.channel else {
        return Err(JobError::Line {
            line,
            fault: LineFault::Order,
        });
    };
    let frame = read_script(arena, line, script)?;
    let program = program(alloc, line, &frame)?;
    drop(frame);
    give_up(alloc, arena);
    complete(alloc, channel, draft, line, program, script)
}

/// The job that a text spells, whose script's tree stands in the arena meanwhile.
pub(crate) fn read_in(alloc: Global, arena: &mut Bump, text: &[u8]) -> Result<Job, JobError>
    ensures job { IfOk result (λ j. spelled text.now ≡ Some (job_in j)) }
    ensures accepted { IfOk result (λ _. IsAccepted text.now) }
    ensures refused { IfErr result (IsJobRefusal (written text.now)) }
    ensures first { IfErr result (IsFirstFault text.now) }

    // Want of memory may still be answered of a text that gives a job, where there is no room for the job itself.
    ensures room { IfOk result (λ _. IsFirstFault text.now JobError.Memory) }
{
    let Head {
        draft,
        line,
        script,
    } = read_head(alloc, text)?;
    finish(alloc, arena, draft, line, script)
}

/// The job that a text spells: lines `channel N`, `start TICK`, `terminal ADDRESS`, `at WHEN ADDRESS ACTION`,
/// `at WHEN bc CONTROL`, `fault WHEN FAULT` and others, and below a line `script` the script. What is said by time and
/// by command stands in the job at the numbers at which it is due: its controller is run once to find them, where there
/// is such a line. The first fault is answered, line by line: J1 to J6, then J7 of the script, where A1 counts before
/// A2, and P5 before P8, then J9; and J8 where memory is refused. The script's tree stands in an arena, which is given
/// up once the image is made.
pub fn read_job(alloc: Global, text: &[u8]) -> Result<Job, JobError>
    ensures job { IfOk result (λ j. spelled text.now ≡ Some (job_in j)) }
    ensures accepted { IfOk result (λ _. IsAccepted text.now) }
    ensures refused { IfErr result (IsJobRefusal (written text.now)) }
    ensures first { IfErr result (IsFirstFault text.now) }
{
    let mut arena = Bump::new(alloc);
    read_in(alloc, &mut arena, text)
}
