//! Whole texts.

ghost use Rattle.frame_text.specs.Chains.{IsScript};
ghost use Rattle.frame_text.specs.Conditions.{condition_of_text, whole_condition};
ghost use Rattle.frame_text.specs.Frames.{tree_of_text, whole_script};
ghost use Rattle.frame_text.specs.Messages.{send_of_text, whole_send};
ghost use Rattle.frame_text.specs.Places.{StandsIn, TellsFault};
ghost use Rattle.frame_text.specs.Reading.{ReadsTokens, ReadsTokensInMemory, FailsReadingTokens, Breaks, HasNoFault};
ghost use Rattle.frame_text.specs.Reading.{IsOfText, ReadsScript, IsTextError};
ghost use Rattle.frame_tree.specs.Bounds.{IsSound};
ghost use Rattle.frame_tree.specs.Tree.{condition_in, tree_of};
ghost use Rattle.std.specs.Prelude.{IfOk, IfErr};

use crate::boxes::Boxes;
use crate::builder::Builder;
use crate::faults::{Cause, ScriptError, TextFault};
use crate::keywords::misplaced;
use crate::places::located;
use crate::tokens::{fault, next};
use crate::weights::Weigher;
use crate::{conditions, definitions, messages};
use frame_tree::{Cond, Frame, Scope};
use mil_message::Message;
use mil_word::Line;
use std::alloc::Allocator;

// The frame of a script, with at most 1,000,000 messages at worst.
fn script<B: Builder>(builder: &B, text: &[u8]) -> Result<B::Frame, TextFault>
    ensures tree { ReadsTokensInMemory B.refused B.tree result (whole_script text.now) }
    ensures sound { IfOk result (λ f. IsSound (B.tree f)) }
    ensures script { IfOk result (λ f. IsScript (B.tree f)) }
{
    let frame = definitions::script(builder, text, &Scope::Empty, &Scope::Empty, 32)?;
    if builder.messages(&frame) > 1_000_000 {
        return Err(fault(Cause::Messages, text));
    }
    Ok(frame)
}

// The line and the message of a whole text.
#[tactic(auto, unfolding(crate::specs::Reading::to_the_end))]
fn send(text: &[u8]) -> Result<(Line, Message), TextFault>
    ensures tree { ReadsTokens (λ x. x) result (whole_send text.now) }
    ensures of_text { IfErr result (λ e. IsOfText e) }
{
    let (line, message, rest) = messages::send(text)?;
    match next(rest) {
        None => Ok((line, message)),
        Some((word, _)) => Err(fault(misplaced(word), rest)),
    }
}

// The condition of a whole text.
#[tactic(auto, unfolding(crate::specs::Reading::to_the_end))]
fn condition<B: Builder>(builder: &B, text: &[u8]) -> Result<B::Cond, TextFault>
    ensures { ReadsTokensInMemory B.refused B.condition result (whole_condition text.now) }
{
    let (condition, rest) = conditions::condition(builder, text, 16)?;
    match next(rest) {
        None => Ok(condition),
        Some((word, _)) => Err(fault(misplaced(word), rest)),
    }
}

// The fault of a script. Where memory was refused the text is read once more, without memory, so that a fault of the
// text comes before want of memory.
#[tactic(auto, using(crate::proofs::Refusing::read_again, crate::proofs::Refusing::sure))]
fn script_fault(text: &[u8], fault: TextFault) -> TextFault
    requires { FailsReadingTokens fault (whole_script text.now) }
    ensures { Breaks (HasNoFault (whole_script text.now)) result (whole_script text.now) }
{
    if let TextFault::Text(..) = fault {
        return fault;
    }
    match script(&Weigher, text) {
        Ok(_) => fault,
        Err(found) => found,
    }
}

// The same of a condition.
#[tactic(auto, using(crate::proofs::Refusing::read_again, crate::proofs::Refusing::sure))]
fn condition_fault(text: &[u8], fault: TextFault) -> TextFault
    requires { FailsReadingTokens fault (whole_condition text.now) }
    ensures { Breaks (HasNoFault (whole_condition text.now)) result (whole_condition text.now) }
{
    if let TextFault::Text(..) = fault {
        return fault;
    }
    match condition(&Weigher, text) {
        Ok(_) => fault,
        Err(first) => first,
    }
}

// The frame of a script in memory, or its first fault.
#[tactic(auto, using(crate::proofs::Refusing::unsure))]
fn first_script<A: Allocator + Clone>(alloc: A, text: &[u8]) -> Result<Frame<A>, TextFault>
    ensures tree { ReadsTokensInMemory (HasNoFault (whole_script text.now)) tree_of result (whole_script text.now) }
    ensures sound { IfOk result (λ f. IsSound (tree_of f)) }
    ensures script { IfOk result (λ f. IsScript (tree_of f)) }
{
    match script(&Boxes { alloc }, text) {
        Ok(frame) => Ok(frame),
        Err(fault) => Err(script_fault(text, fault)),
    }
}

// The same of a condition.
#[tactic(auto, using(crate::proofs::Refusing::unsure))]
fn first_condition<A: Allocator + Clone>(alloc: A, text: &[u8]) -> Result<Cond<A>, TextFault>
    ensures { ReadsTokensInMemory (HasNoFault (whole_condition text.now)) condition_in result
        (whole_condition text.now) }
{
    match condition(&Boxes { alloc }, text) {
        Ok(condition) => Ok(condition),
        Err(fault) => Err(condition_fault(text, fault)),
    }
}

/// The frame of a script. It is refused with the first fault from left to right; for want of memory only where it has
/// none, so that what is answered of a text with a fault is the same with and without memory. A frame is sound, a chain
/// of frames behind its definitions.
#[tactic(auto, using(crate::proofs::Refusing::told, crate::proofs::Refusing::told_at, crate::proofs::Refusing::alone))]
pub fn parse<A: Allocator + Clone>(alloc: A, text: &[u8]) -> Result<Frame<A>, ScriptError>
    ensures tree { ReadsScript tree_of result (tree_of_text text.now) }
    ensures place { IfErr result (λ e. StandsIn text.now e) }
    ensures fault { IfErr result (λ e. TellsFault text.now (whole_script text.now) e) }
    ensures sound { IfOk result (λ f. IsSound (tree_of f)) }
    ensures script { IfOk result (λ f. IsScript (tree_of f)) }
{
    match first_script(alloc, text) {
        Ok(frame) => Ok(frame),
        Err(fault) => Err(located(text, fault)),
    }
}

/// The line and the message of a text such as `A rx 5 1 [0001]`. It takes no memory, and is never refused for want of
/// it.
#[tactic(auto, using(crate::proofs::Refusing::known, crate::proofs::Refusing::there, crate::proofs::Refusing::alone))]
pub fn read_send(text: &[u8]) -> Result<(Line, Message), ScriptError>
    ensures tree { ReadsScript (λ x. x) result (send_of_text text.now) }
    ensures no_memory { IfErr result (λ e. IsTextError e) }
    ensures place { IfErr result (λ e. StandsIn text.now e) }
    ensures fault { IfErr result (λ e. TellsFault text.now (whole_send text.now) e) }
{
    match send(text) {
        Ok(read) => Ok(read),
        Err(fault) => Err(located(text, fault)),
    }
}

/// The condition of a text such as `any ( fail silent )`. It is refused with the first fault from left to right; for
/// want of memory only where it has none.
#[tactic(auto, using(crate::proofs::Refusing::told, crate::proofs::Refusing::told_at, crate::proofs::Refusing::alone))]
pub fn read_cond<A: Allocator + Clone>(alloc: A, text: &[u8]) -> Result<Cond<A>, ScriptError>
    ensures tree { ReadsScript condition_in result (condition_of_text text.now) }
    ensures place { IfErr result (λ e. StandsIn text.now e) }
    ensures fault { IfErr result (λ e. TellsFault text.now (whole_condition text.now) e) }
{
    match first_condition(alloc, text) {
        Ok(condition) => Ok(condition),
        Err(fault) => Err(located(text, fault)),
    }
}
