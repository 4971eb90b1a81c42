//! How a job with lines by time or by command comes about: its controller is run once more beside them, to tell which
//! of them each action and fault is. What is found here is only tried, by `command_tests`: no contract says that it is
//! so.
ghost use Rattle.bench_check.specs.Tracing.{IsCounted};
ghost use Rattle.job_file.specs.Resolving.{turns_left, HasPlanned, IsKept, MayPlan};
ghost use Rattle.job_file.specs.Timed.{says_nothing};
ghost use Rattle.std.specs.Prelude.{◌≡◌, ◌<◌, [], true, Ok, IfOk};

use crate::mistakes::Mistake;
use crate::odd_lines::{LineTrace, odd_lines};
use crate::origins::{Origin, Origins};
use bc_machine::{Actions, Stepped};
use job_file::{Due, Job, JobRun, SaidLines, said_lines};
use job_moments::{Met, Occasions};
use std::alloc::{AllocError, Global};

/// How many faults may be planned for a message.
const MOST_FAULTS: usize = 4;

/// How many messages a job sends at most.
const MOST_MESSAGES: u32 = 1_000_000;

/// By which line each action and each planned fault of a job came, and what is probably a mistake in its lines.
#[derive(Drop)]
pub(crate) struct Traced {
    pub(crate) origins: Origins,
    pub(crate) mistakes: Vec<Mistake>,
}

/// What was found so far.
#[derive(Drop)]
struct Trace {
    /// The faults of all lines, and the messages that were sent.
    occasions: Occasions,
    sent: u32,
    /// The places of the faults that are due at a message, among those of all lines.
    due: Vec<usize>,
    /// The lines with actions by time or by command, and those that plan faults, in the order of the text.
    moments: Vec<LineTrace>,
    faults: Vec<LineTrace>,
    origins: Origins,
}

/// Lines of these numbers, as they are before any message.
fn lines_of(alloc: Global, numbers: &[u64], are_due: bool) -> Result<Vec<LineTrace>, AllocError> {
    let mut lines = Vec::new(alloc);
    for number in numbers {
        lines.push(LineTrace::new(*number, are_due))?;
    }
    Ok(lines)
}

/// The lines of the actions that a job places by number, which are its first ones.
fn placed_lines(
    alloc: Global,
    actions: &Actions,
    lines: &[u64],
) -> Result<Vec<Origin>, AllocError> {
    let mut origins = Vec::new(alloc);
    for (place, line) in lines.iter().enumerate() {
        if place < actions.len() {
            origins.push(Origin {
                number: actions.number(place),
                line: *line,
            })?;
        }
    }
    Ok(origins)
}

impl Trace {
    /// A job before any message. Of one in which no fault is by time or by command those that never come to be due are
    /// told by their numbers, and not here.
    fn begin(alloc: Global, job: &Job, said: &SaidLines) -> Result<Trace, AllocError>
        ensures { IfOk result (λ t. IsCounted t) }
    {
        Ok(Trace {
            occasions: job.occasions(alloc)?,
            sent: 0,
            due: Vec::new(alloc),
            moments: lines_of(alloc, &said.moments, false)?,
            faults: lines_of(alloc, &said.faults, !job.finds_faults())?,
            origins: Origins {
                actions: placed_lines(alloc, job.actions(), &said.actions)?,
                faults: Vec::new(alloc),
            },
        })
    }

    /// The action of a line by time or by command, by its place among these, is done at the message of a number.
    fn note_action(&mut self, number: u32, place: usize) -> Result<(), AllocError>
        ensures { IsCounted self.old → IsCounted self.new }
    {
        let Some(line) = self.moments.get_mut(place) else {
            return Ok(());
        };
        line.note(number, true);
        let line = line.number;
        self.origins.actions.push(Origin { number, line })?;
        Ok(())
    }

    /// This message is sent, if one is.
    fn note_next(&mut self, next: Option<Met>) -> Result<(), AllocError>
        requires { IsCounted self.old }
        ensures { IsCounted self.new }
    {
        match next {
            Some(met) => self.note_message(&met),
            None => Ok(()),
        }
    }

    /// A message is sent.
    fn note_message(&mut self, met: &Met) -> Result<(), AllocError>
        requires { IsCounted self.old }
        ensures { IsCounted self.new }
    {
        // A job sends no more.
        if self.sent >= MOST_MESSAGES {
            return Ok(());
        }
        self.due.clear();
        self.occasions.places(met, &mut self.due)?;
        self.occasions.meet(met);
        self.sent += 1;
        let faults = &mut self.origins.faults;
        note_faults(&mut self.faults, faults, self.sent, &self.due)
    }
}

/// The faults at these places among those of all lines are due at the message of a number: the first four of them are
/// planned for it.
fn note_faults(
    lines: &mut [LineTrace],
    origins: &mut Vec<Origin>,
    number: u32,
    due: &[usize],
) -> Result<(), AllocError> {
    for (before, place) in due.iter().enumerate() {
        if let Some(line) = lines.get_mut(*place) {
            let counts = before < MOST_FAULTS;
            line.note(number, counts);
            if counts {
                let line = line.number;
                origins.push(Origin { number, line })?;
            }
        }
    }
    Ok(())
}

/// Places the first action that is due in front of the next message, and gives it; None where none is due.
fn do_first(run: &mut JobRun) -> Option<Due>
    requires kept { IsKept run.old }
    requires planned { MayPlan run.old }
    ensures kept { IsKept run.new }
    ensures planned { MayPlan run.new }
    ensures left { turns_left run.new.machine ≡ turns_left run.old.machine }
{
    run.do_first()
}

/// Places what is due in front of the next message, and notes its lines. It fails for want of memory alone.
fn do_due(run: &mut JobRun, trace: &mut Trace) -> Result<(), AllocError>
    requires kept { IsKept run.old }
    requires planned { MayPlan run.old }
    requires counted { IsCounted trace.old }
    ensures kept { IsKept run.new }
    ensures planned { MayPlan run.new }
    ensures counted { IsCounted trace.new }
    ensures left { turns_left run.new.machine ≡ turns_left run.old.machine }
{
    'times: for time in 0..run.left() {
        let Some(due) = do_first(run) else {
            return Ok(());
        };
        let number = run.machine.number().saturating_add(1);
        trace.note_action(number, due.place)?;
    }
    Ok(())
}

/// One step of the controller; whether it goes on.
fn goes_on(run: &mut JobRun) -> bool
    requires kept { IsKept run.old }
    requires planned { HasPlanned run.old }
    ensures kept { IsKept run.new }
    ensures planned { MayPlan run.new }
    ensures less { result ≡ true → turns_left run.new.machine < turns_left run.old.machine }
{
    match run.step() {
        Stepped::Halted => false,
        _ => true,
    }
}

/// One step of the controller, behind what is due in front of it; whether it goes on. It fails for want of memory
/// alone.
fn turn(run: &mut JobRun, trace: &mut Trace) -> Result<bool, AllocError>
    requires kept { IsKept run.old }
    requires planned { MayPlan run.old }
    requires counted { IsCounted trace.old }
    ensures kept { IfOk result (λ _. IsKept run.new) }
    ensures planned { IfOk result (λ _. MayPlan run.new) }
    ensures counted { IfOk result (λ _. IsCounted trace.new) }
    ensures less { result ≡ Ok true → turns_left run.new.machine < turns_left run.old.machine }
{
    do_due(run, trace)?;
    run.plan()?;
    let next = run.next();
    if !goes_on(run) {
        return Ok(false);
    }
    trace.note_next(next)?;
    Ok(true)
}

/// Goes on until the controller has ended. It fails for want of memory alone.
fn turn_to_end(run: &mut JobRun, trace: &mut Trace) -> Result<(), AllocError>
    requires kept { IsKept run.old }
    requires planned { MayPlan run.old }
    requires counted { IsCounted trace.old }
{
    'turns: loop {
        let goes_on = turn(run, trace)?;
        if !goes_on {
            return Ok(());
        }
    }
}

/// What a run of a job's controller comes to that is before any message. It fails for want of memory alone.
fn trace_of_run(
    alloc: Global,
    job: &Job,
    said: &SaidLines,
    run: &mut JobRun,
) -> Result<Trace, AllocError>
    requires kept { IsKept run.old }
    requires planned { MayPlan run.old }
{
    let mut trace = Trace::begin(alloc, job, said)?;
    match turn_to_end(run, &mut trace) {
        Ok(()) => Ok(trace),
        Err(error) => Err(error),
    }
}

/// What a run of a job's controller comes to. It fails for want of memory alone.
fn trace_of(alloc: Global, job: &Job, said: &SaidLines) -> Result<Trace, AllocError> {
    let mut run = job.begin(alloc, 0)?;
    trace_of_run(alloc, job, said, &mut run)
}

/// By which line of its text each action and each planned fault of a job came, and what is probably a mistake in these
/// lines. Where none is by time or by command, nothing is told, and no run is made. It fails for want of memory alone.
pub(crate) fn trace_lines(alloc: Global, job: &Job, text: &[u8]) -> Result<Traced, AllocError>
    ensures { IfOk result (λ t. says_nothing job.now.timed ≡ true → t.mistakes.items ≡ []) }
{
    if !job.has_moments() {
        return Ok(Traced {
            origins: Origins::none(alloc),
            mistakes: Vec::new(alloc),
        });
    }
    let said = said_lines(alloc, text)?;
    let mut trace = trace_of(alloc, job, &said)?;
    trace.origins.actions.sort_by_key(|origin| origin.number)?;
    let mut lines = trace.moments;
    for line in &trace.faults {
        lines.push(*line)?;
    }
    lines.sort_by_key(|line| line.number)?;
    let mistakes = odd_lines(alloc, text, &lines)?;
    Ok(Traced {
        origins: trace.origins,
        mistakes,
    })
}
