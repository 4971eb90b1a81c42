//! A job, tried message by message.
ghost use Rattle.bc_machine.specs.Rising.{IsRising};
ghost use Rattle.bench_check.specs.FrameLines.{frame_line_at};
ghost use Rattle.bench_check.specs.Listing.{HasTold, IsTold};
ghost use Rattle.bench_check.specs.Meeting.{meets_something as is_met};
ghost use Rattle.bench_check.specs.Overruns.{overruns, overruns_at};
ghost use Rattle.bench_check.specs.Trying.{IsTried, StepsOn, HasEnded};
ghost use Rattle.bench_check.specs.Unmet as spec;
ghost use Rattle.job_file.specs.Rooms.{most_items};
ghost use Rattle.mil_bus.specs.Exchange.{now_of, talk_start};
ghost use Rattle.mil_line.specs.Plans.{faults_of};
ghost use Rattle.mil_line.specs.Ranges.{is_in_range};
ghost use Rattle.std.specs.Io.KnownBytes.{Appends};
ghost use Rattle.std.specs.List.{filter, list_all};
ghost use Rattle.std.specs.Prelude.{◌≡◌, ◌++◌, ◌+◌, ◌-◌, ◌<◌, ◌≤◌, ◌^◌, true, false, not, IfOk, OnOk};
ghost use Rattle.std.specs.Prelude.{List, Option, ℕ};

use crate::calls::Calls;
use crate::carried::Carried;
use crate::checked::Way;
use crate::filling::Filled;
use crate::findings::Findings;
use crate::frames::{Overrun, note_frame};
use crate::meeting::meets;
use crate::messages::{put_actions, put_message, put_outcome};
use crate::oddities::Oddities;
use crate::origins::{Origin, Origins, line_at, put_line};
use crate::planned::put_fault;
use crate::signals::put_signals;
use bc_machine::{Machine, Placed, Stepped, Upcoming};
use job_file::{Job, job_runs};
use mil_line::{Fault, Plan};
use std::alloc::{AllocError, Global};
use std::io::Write;
use text_lines::WriteFault;

/// What is told of the messages on the way, and how.
#[derive(Clone, Copy)]
struct Told<'s> {
    way: Way<'s>,
    origins: &'s Origins,
    calls: Calls,
    oddities: Oddities,
}

/// A job that is tried: its controller, and what was found so far.
#[derive(Drop)]
struct Trial<'s> {
    machine: Machine,
    unmet: Vec<(u32, Fault)>,
    overruns: Vec<Overrun>,
    carried: Carried,
    told: Told<'s>,
}

/// Puts a line for each fault that is planned for a message, behind it by which line of the text it came, where that is
/// told; and keeps those that meet nothing.
fn note_faults(
    alloc: Global,
    text: &mut String,
    unmet: &mut Vec<(u32, Fault)>,
    number: u32,
    coming: &Upcoming,
    faults: &[Fault],
    origins: &[Origin],
) -> Result<(), AllocError>
    requires clock { now_of coming.now.bus < 2 ^ 60 }
    requires start { coming.now.talk.start ≡ talk_start coming.now.bus coming.now.gap }
    requires in_range { list_all is_in_range faults.now ≡ true }
    ensures { OnOk result (unmet.new.items
        ≡ unmet.old.items ++ spec.numbered number
        (filter (λ f. not (is_met coming.now.bus coming.now.talk faults.now f)) faults.now)) }
{
    for (place, fault) in faults.iter().enumerate() {
        text.push_str("  ")?;
        put_fault(text, number, fault)?;
        put_line(text, line_at(origins, place))?;
        if meets(alloc, coming, faults, fault)? {
            text.push_str("\n")?;
        } else {
            text.push_str(" meets nothing\n")?;
            unmet.push((number, *fault))?;
        }
    }
    Ok(())
}

/// Keeps the faults that are planned for messages that are never sent, where so many are.
fn add_never_sent(unmet: &mut Vec<(u32, Fault)>, plan: &Plan, made: u32) -> Result<(), AllocError>
    requires { made ≤ 1000000 }
    ensures { OnOk result (unmet.new.items ≡ unmet.old.items ++ spec.planned_behind plan.now made (1000000 - made)) }
{
    for count in 0..1_000_000 - made {
        let number = made + count + 1;
        let faults = plan.faults(number);
        add_numbered(unmet, number, faults.as_slice())?;
    }
    Ok(())
}

/// Keeps these faults of a message.
fn add_numbered(
    unmet: &mut Vec<(u32, Fault)>,
    number: u32,
    faults: &[Fault],
) -> Result<(), AllocError>
    ensures { OnOk result (unmet.new.items ≡ unmet.old.items ++ spec.numbered number faults.now) }
{
    for fault in faults {
        unmet.push((number, *fault))?;
    }
    Ok(())
}

/// The lines of a message; what is found is kept.
fn note(
    alloc: Global,
    job: &Job,
    filled: &Filled,
    number: u32,
    coming: &Upcoming,
    unmet: &mut Vec<(u32, Fault)>,
    told: &mut Told<'_>,
) -> Result<String, AllocError>
    requires rising { IsRising filled.now }
    requires clock { now_of coming.now.bus < 2 ^ 60 }
    requires start { coming.now.talk.start ≡ talk_start coming.now.bus coming.now.gap }
    ensures { OnOk result (unmet.new.items
        ≡ unmet.old.items ++ spec.numbered number
        (filter (λ f. not (is_met coming.now.bus coming.now.talk (faults_of number job.now.plan) f))
        (faults_of number job.now.plan))) }
{
    let mut text = String::new(alloc);
    put_message(alloc, &mut text, number, coming)?;
    let origins = told.origins;
    put_actions(&mut text, number, filled.actions(), origins)?;
    let faults = job.plan().faults(number);
    let (planned, lines) = (faults.as_slice(), origins.of_faults(number));
    note_faults(alloc, &mut text, unmet, number, coming, planned, lines)?;
    put_outcome(&mut text, &coming.talk, told.way.bits)?;
    let (signals, channel) = (told.way.signals, job.channel());
    put_signals(alloc, &mut text, signals, channel, &coming.talk)?;
    told.calls.note(number, &coming.talk.message);
    told.oddities.note(number, filled, &coming.talk);
    Ok(text)
}

/// The actions of a job by rising numbers, and where they put words up. It fails for want of memory alone.
fn filled_by(job: &Job) -> Result<Filled, AllocError>
    ensures { IfOk result (λ filled. IsRising filled) }
{
    let mut placed = job.actions().copy()?;
    placed.sort()?;
    Ok(Filled::of(placed))
}

/// Prints the line of a frame that the next step closes, and keeps it where it took longer than its period.
fn close<W: Write>(
    alloc: Global,
    overruns: &mut Vec<Overrun>,
    machine: &Machine,
    out: &mut W,
) -> Result<(), WriteFault>
    ensures kept { OnOk result (overruns.new.items ≡ overruns.old.items ++ overruns_at machine.now) }
    ensures told { OnOk result (Appends (W.contents out.old) (W.contents out.new) (frame_line_at machine.now)) }
{
    let mut text = String::new(alloc);
    note_frame(&mut text, overruns, machine)?;
    out.write_all(text.as_bytes())?;
    Ok(())
}

impl<'s> Trial<'s> {
    /// A job before any message.
    fn begin(
        alloc: Global,
        job: &Job,
        filled: &Filled,
        way: Way<'s>,
        origins: &'s Origins,
    ) -> Result<Trial<'s>, AllocError>
        ensures tried { IfOk result (λ t. IsTried job.now t) }
        ensures told { IfOk result (λ t. (got : Option (List ℕ)) → HasTold job.now t.machine got got) }
    {
        let machine = job.machine(alloc, job.actions())?;
        let unmet = Vec::new(alloc);
        let overruns = Vec::new(alloc);
        let carried = Carried::none(alloc, filled.actions())?;
        let told = Told {
            way,
            origins,
            calls: Calls::none(),
            oddities: Oddities::none(),
        };
        Ok(Trial {
            machine,
            unmet,
            overruns,
            carried,
            told,
        })
    }

    /// Makes one step, prints the lines of its message and of the frame that it closes, and answers whether there are
    /// more.
    fn step<W: Write>(
        &mut self,
        alloc: Global,
        job: &Job,
        filled: &Filled,
        out: &mut W,
    ) -> Result<bool, WriteFault>
        requires rising { IsRising filled.now }
        requires tried { IsTried job.now self.old }
        ensures on { IfOk result (λ more. more ≡ true → StepsOn job.now self.old self.new) }
        ensures ends { IfOk result (λ more. more ≡ false → HasEnded job.now self.new) }
        ensures told { IfOk result (λ more. more ≡ true → (before : Option (List ℕ))
            → HasTold job.now self.old.machine before (W.contents out.old)
            → HasTold job.now self.new.machine before (W.contents out.new)) }
        ensures last { IfOk result (λ more. more ≡ false → (before : Option (List ℕ))
            → HasTold job.now self.old.machine before (W.contents out.old)
            → IsTold job.now before (W.contents out.new)) }
    {
        // The laws of a job's records, for the proofs.
        job_runs();
        let _sound = job.program();
        close(alloc, &mut self.overruns, &self.machine, out)?;
        match self.machine.upcoming()? {
            Some(coming) => {
                let number = self.machine.number() + 1;
                self.carried.note_coming(filled.actions(), number, &coming)?;
                let text = note(
                    alloc,
                    job,
                    filled,
                    number,
                    &coming,
                    &mut self.unmet,
                    &mut self.told,
                )?;
                out.write_all(text.as_bytes())?;
                // What the step makes was told as the message that comes.
                let _ = self.machine.step();
                Ok(true)
            }
            None => match self.machine.step() {
                Stepped::Halted => Ok(false),
                Stepped::Ran => Ok(true),
                Stepped::Sent(_) => Ok(true),
                Stepped::Inserted(_) => Ok(true),
            },
        }
    }

    /// Makes all steps.
    fn run<W: Write>(
        &mut self,
        alloc: Global,
        job: &Job,
        filled: &Filled,
        out: &mut W,
    ) -> Result<(), WriteFault>
        requires rising { IsRising filled.now }
        requires tried { IsTried job.now self.old }
        requires told { HasTold job.now self.old.machine (W.contents out.old) (W.contents out.old) }
        ensures made { OnOk result (self.new.machine.point.number ≡ spec.made job.now) }
        ensures unmet { OnOk result (self.new.unmet.items ≡ spec.unmet job.now) }
        ensures overruns { OnOk result (self.new.overruns.items ≡ overruns job.now) }
        ensures told { OnOk result (IsTold job.now (W.contents out.old) (W.contents out.new)) }
    {
        'steps: loop {
            let more = self.step(alloc, job, filled, out)?;
            if !more {
                break;
            }
        }
        add_never_sent(&mut self.unmet, job.plan(), self.machine.number())?;
        self.told.oddities.finish();
        Ok(())
    }

    /// What was found, with what no message carries and the room that the job may take.
    fn end(self, uncarried: Vec<Placed>, room: u64) -> Findings
        ensures made { result.made ≡ self.entry.machine.point.number }
        ensures unmet { result.unmet.items ≡ self.entry.unmet.items }
        ensures overruns { result.overruns.items ≡ self.entry.overruns.items }
        ensures room { result.room ≡ room }
    {
        Findings {
            made: self.machine.number(),
            unmet: self.unmet,
            overruns: self.overruns,
            calls: self.told.calls,
            oddities: self.told.oddities,
            uncarried,
            room,
        }
    }
}

/// A job that was tried to its end, whose actions by rising numbers are these. It fails for want of memory, and where
/// the writer does.
fn tried_to_end<'s, W: Write>(
    alloc: Global,
    job: &Job,
    filled: &Filled,
    way: Way<'s>,
    origins: &'s Origins,
    out: &mut W,
) -> Result<Trial<'s>, WriteFault>
    requires rising { IsRising filled.now }
    ensures made { IfOk result (λ t. t.machine.point.number ≡ spec.made job.now) }
    ensures unmet { IfOk result (λ t. t.unmet.items ≡ spec.unmet job.now) }
    ensures overruns { IfOk result (λ t. t.overruns.items ≡ overruns job.now) }
    ensures told { OnOk result (IsTold job.now (W.contents out.old) (W.contents out.new)) }
{
    let mut trial = Trial::begin(alloc, job, filled, way, origins)?;
    match trial.run(alloc, job, filled, out) {
        Ok(()) => Ok(trial),
        Err(fault) => Err(fault),
    }
}

/// Tries a job whose actions by rising numbers are these, and answers what was found. It fails for want of memory, and
/// where the writer does.
fn try_with<'s, W: Write>(
    alloc: Global,
    job: &Job,
    filled: &Filled,
    way: Way<'s>,
    origins: &'s Origins,
    out: &mut W,
) -> Result<Findings, WriteFault>
    requires rising { IsRising filled.now }
    ensures made { IfOk result (λ f. f.made ≡ spec.made job.now) }
    ensures unmet { IfOk result (λ f. f.unmet.items ≡ spec.unmet job.now) }
    ensures room { IfOk result (λ f. f.room ≡ most_items 0 job.now) }
    ensures overruns { IfOk result (λ f. f.overruns.items ≡ overruns job.now) }
    ensures told { OnOk result (IsTold job.now (W.contents out.old) (W.contents out.new)) }
{
    let trial = tried_to_end(alloc, job, filled, way, origins, out)?;
    let made = trial.machine.number();
    match trial.carried.uncarried(alloc, filled.actions(), made) {
        Ok(uncarried) => Ok(trial.end(uncarried, job.most_items(0))),
        Err(error) => Err(WriteFault::from(error)),
    }
}

/// Tries a job: prints each of its messages, with the actions that are placed at it, the faults that are planned for
/// it, by which line of its text each of these came, where that is told, what it comes to and the values of signals in
/// it, and behind each frame with a period what time was left of it; and answers what was found. It fails for want of
/// memory, and where the writer does.
pub fn try_job<'s, W: Write>(
    alloc: Global,
    job: &Job,
    way: Way<'s>,
    origins: &'s Origins,
    out: &mut W,
) -> Result<Findings, WriteFault>
    ensures made { IfOk result (λ f. f.made ≡ spec.made job.now) }
    ensures unmet { IfOk result (λ f. f.unmet.items ≡ spec.unmet job.now) }
    ensures room { IfOk result (λ f. f.room ≡ most_items 0 job.now) }
    ensures overruns { IfOk result (λ f. f.overruns.items ≡ overruns job.now) }
    ensures told { OnOk result (IsTold job.now (W.contents out.old) (W.contents out.new)) }
{
    let filled = filled_by(job)?;
    try_with(alloc, job, &filled, way, origins, out)
}
