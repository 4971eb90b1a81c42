//! The loader (own choice): which images the controller may run without ever being stuck, how many steps a run
//! takes at most, and how many messages it sends.
//!
//! It may know: words, messages, code. Its tests: `frame_tests`. Its wrong bodies: `edits/`.
#![tactic(auto)]

ghost use Rattle.frame_code.specs.Loadable.{IsLoadable};
ghost use Rattle.frame_code.specs.Routines.{main_of, routine_at};
ghost use Rattle.frame_code.specs.Table.{Code, Running, goes_on, stuck, start, step, run};
ghost use Rattle.frame_code.specs.declared.Op.TheVariants as op;
ghost use Rattle.frame_code.specs.declared.Op.{Op};
ghost use Rattle.frame_load.specs.Budget as sums;
ghost use Rattle.frame_load.specs.Judging.{Judges, Refuses, IsWithin, HasShortPeriods};
ghost use Rattle.frame_load.specs.Marks.{AreBrackets};
ghost use Rattle.frame_load.specs.Runs.{Reaches, HaltsWithin, EachLoadable, EachReached, paid};
ghost use Rattle.frame_load.specs.declared.error.LoadError.{LoadError};
ghost use Rattle.std.specs.Prelude.{IfErr};
ghost use Rattle.std.specs.Prelude.{◌+◌, ◌-◌, ◌≡◌, ◌≢◌, ◌≤◌, ◌<◌, ◌↔◌, ℕ, length, slice_get, Some, None, Err, IfOk};

mod checks;
mod error;
mod nesting;
mod routines;
mod sums;

use crate::sums::Counted;
pub use error::LoadError;
use frame_code::{Image, Setting};
use std::alloc::{AllocError, Global};
use std::marker::Model;

/// What a run comes to at most.
#[derive(Clone, Copy)]
struct Most {
    steps: u64,
    messages: u64,
}

/// An image that the controller may run.
#[derive(Drop)]
pub struct Program {
    image: Image,
    starts: [u16; 33],
    main: u8,
    most: Most,
}

impl Model for Program {
    ghost use Rattle.frame_code.specs.Table.{Code};

    ghost Value = { Code };

    ghost use Rattle.frame_load.specs.Judging.{IsProgram};

    ghost view = { λ p. p.image };

    ghost invariant = { λ p. IsProgram p.image p.starts p.main p.most.steps p.most.messages };
}

impl Program {
    /// The image that was loaded.
    pub fn image(&self) -> &Image
        ensures value { result.now ≡ self.now }
        ensures loadable { IsLoadable self.now }
        ensures within { IsWithin self.now }
        ensures short { HasShortPeriods self.now }
    {
        &self.image
    }

    /// The place where the routine of this number begins. Condition: there is such a routine.
    pub fn routine(&self, number: u8) -> u16
        requires { routine_at self.now.operations number ≢ None }
        ensures { routine_at self.now.operations number ≡ Some result }
    {
        self.starts[number as usize]
    }

    /// The place where the main part begins, and with it a run: behind the last Return.
    pub fn main(&self) -> u16
        ensures { result ≡ main_of self.now.operations }
    {
        self.starts[self.main as usize]
    }

    /// How many steps a run takes at most, 1 to 100,000,000: the sum over the operations of the main part of the
    /// product of the counts of the loops that they stand in, a Call counted together with what its routine takes.
    pub fn budget(&self) -> u64
        ensures value { result ≡ sums.budget self.now.operations }
        ensures within { result ≤ 100000000 }
    {
        self.most.steps
    }

    /// How many messages a run sends at most, 0 to 1,000,000: the same sum over the operations that send.
    pub fn worst_messages(&self) -> u64
        ensures value { result ≡ sums.worst_messages self.now.operations }
        ensures within { result ≤ 1000000 }
    {
        self.most.messages
    }

    /// An equal program, in memory of its own.
    pub fn copy(&self) -> Result<Program, AllocError>
        ensures { IfOk result (λ program. program ≡ self.now) }
    {
        Ok(Program {
            image: self.image.copy()?,
            starts: self.starts,
            main: self.main,
            most: self.most,
        })
    }
}

/// Law: in any world a run of a code that keeps the loader's rules never meets a bad place, an empty counter list, an
/// empty list of return places or of open frames, or a routine or a message that is not there; it stands at an
/// operation with at most 17 counters, and at fewer at a Loop, with at most 16 open frames, and at fewer at a Begin,
/// and with at most 32 return places, and at fewer at a Call; whatever operations cost, its steps cost together at most
/// what the code's sum says; so it sends at most as many messages as that sum says, and halts within its budget, which
/// counts the Halt too.
pub fn loadable_runs<W: Setting>()
    ensures never_stuck { EachReached W.State W.Outcome (λ w code from x. step w code x.at x.point ≢ stuck) }
    ensures begins { EachLoadable W.State W.Outcome (λ w code from.
        Reaches w code from (record { at = start code; point = from })) }
    ensures goes_on { EachReached W.State W.Outcome (λ w code from x. (y : Running W.State W.Outcome) →
        step w code x.at x.point ≡ goes_on y → Reaches w code from y) }
    ensures inside { EachReached W.State W.Outcome (λ w code from x. x.at.place < length code.operations) }
    ensures counters { EachReached W.State W.Outcome (λ w code from x. length x.at.counters ≤ 17) }
    ensures room { EachReached W.State W.Outcome (λ w code from x. (n : ℕ) →
        slice_get code.operations x.at.place ≡ Some (op.Loop n) → length x.at.counters < 17) }
    ensures opened { EachReached W.State W.Outcome (λ w code from x. length x.at.frames ≤ 16) }
    ensures room_to_begin { EachReached W.State W.Outcome (λ w code from x.
        slice_get code.operations x.at.place ≡ Some op.Begin → length x.at.frames < 16) }
    ensures returns { EachReached W.State W.Outcome (λ w code from x. length x.at.returns ≤ 32) }
    ensures room_to_call { EachReached W.State W.Outcome (λ w code from x. (k : ℕ) →
        slice_get code.operations x.at.place ≡ Some (op.Call k) → length x.at.returns < 32) }
    ensures costs { EachLoadable W.State W.Outcome (λ w code from. (cost : Op → ℕ) (n : ℕ) →
        paid w cost n code (start code) from ≤ sums.total cost code.operations) }
    ensures messages { EachReached W.State W.Outcome (λ w code from x.
        x.point.number ≤ from.number + sums.worst_messages code.operations) }
    ensures halts { EachLoadable W.State W.Outcome (λ w code from.
        HaltsWithin w code (sums.budget code.operations - 1) (start code) from) }
{}

// The most steps that a run may take.
const STEPS: u64 = 100_000_000;

// The most messages that a run may send.
const MESSAGES: u64 = 1_000_000;

// The most ticks that the periods of a run may come to.
const PERIODS: u64 = 1 << 46;

// What a run comes to at most, or the first rule on sums that the image breaks.
fn weigh(image: &Image, brackets: &[u16; 4096]) -> Result<Most, LoadError>
    requires loadable { IsLoadable image.now }
    requires marked { AreBrackets image.now.operations brackets.now }
    ensures kept { IfOk result (λ most. IsWithin image.now × HasShortPeriods image.now) }
    ensures steps { IfOk result (λ most. most.steps ≡ sums.budget image.now.operations) }
    ensures messages { IfOk result (λ most. most.messages ≡ sums.worst_messages image.now.operations) }
    ensures broken { IfErr result (Refuses image.now) }
{
    let operations = image.operations();
    let mut weights = [0; 4096];
    sums::mark_weights(operations, brackets, &mut weights);
    let steps = sums::count(operations, &weights, Counted::Steps);
    let messages = sums::count(operations, &weights, Counted::Messages);
    if STEPS < steps || MESSAGES < messages {
        return Err(LoadError::Budget);
    }
    if PERIODS < sums::count(operations, &weights, Counted::Periods) {
        return Err(LoadError::Periods);
    }
    Ok(Most { steps, messages })
}

// The program of an image, or the first rule that it breaks.
fn judge(image: Image) -> Result<Program, LoadError>
    ensures { Judges image result }
{
    let operations = image.operations();
    if !checks::ends_in_halt(operations) {
        return Err(LoadError::End);
    }
    if !routines::are_right(operations) {
        return Err(LoadError::Routines);
    }
    let mut brackets = [0; 4096];
    checks::mark_brackets(operations, &mut brackets);
    if !nesting::is_nested(operations, &brackets) {
        return Err(LoadError::Nesting);
    }
    let mut numbers = [0; 4096];
    routines::number(operations, &mut numbers);
    if !checks::all_go_well(operations, &brackets, &numbers) {
        return Err(LoadError::Jumps);
    }
    if !checks::all_have_messages(operations, image.messages().len()) {
        return Err(LoadError::Messages);
    }
    let most = weigh(&image, &brackets)?;
    let mut starts = [0; 33];
    let main = routines::find(operations, &mut starts);
    Ok(Program {
        image,
        starts,
        main,
        most,
    })
}

/// The program of an image that keeps all rules, else the first rule that it breaks, in the order P4, P7, P2, P1, P3,
/// P5, P8. It takes no memory, and time linear in the image.
pub fn load(_alloc: Global, image: Image) -> Result<Program, LoadError>
    ensures judged { Judges image result }
    ensures exact { (e : LoadError) → (result ≡ Err e) ↔ Refuses image e }
{
    judge(image)
}
