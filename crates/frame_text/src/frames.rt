//! The text of frames.

ghost use Rattle.frame_text.specs.Frames.{call_at, frame_at, frames_at, block_at, inner_at};
ghost use Rattle.frame_text.specs.Frames.{else_at, retry_at, choice_at, until_at, label_at};
ghost use Rattle.frame_text.specs.Reading.{Tokens, ReadsTokens, ReadsTokensInMemory, Makes, at_first, IsOfText};
ghost use Rattle.frame_text.specs.Tokens.{tokens};
ghost use Rattle.frame_tree.specs.Names as names;
ghost use Rattle.frame_tree.specs.Scopes.{scope_of};
ghost use Rattle.frame_tree.specs.Tree.{Tree, chain, nothing};
ghost use Rattle.std.specs.Prelude.{◌≡◌, ◌<◌, ◌≤◌, ℕ, length, Ok, IfOk, IfErr};

use crate::builder::Builder;
use crate::conditions::condition;
use crate::faults::{Cause, TextFault};
use crate::keywords::{FrameWord, frame_word, is, misplaced};
use crate::memory::or_refused;
use crate::messages::send;
use crate::tokens::{Read, after_token, fault, first_token, next};
use crate::words::{number_in_range, period};
use frame_tree::{Name, Scope};
use mil_word::timing::LEAST_GAP;

/// Where frames are read.
#[derive(Drop)]
pub struct Around<'a, B: Builder> {
    /// What makes them.
    pub builder: &'a B,
    /// Of each name in scope the depth of its body.
    pub scope: &'a Scope<'a>,
    /// Of each the number that the builder has for it.
    pub costs: &'a Scope<'a>,
    /// How many blocks may stand in one another.
    pub depth: u8,
}

// No frames, where the rest of the text goes on.
fn no_frames<'a, B: Builder>(builder: &B, rest: &'a [u8]) -> Read<'a, B::Frame>
    ensures tree { ReadsTokensInMemory {Y = Tree × Tokens} B.refused (λ x. (B.tree x.0, tokens x.1.now)) result
        (Ok (nothing, tokens rest.now)) }
    ensures rest { IfOk result (λ x. x.1.now ≡ rest.now) }
    ensures fits { IfOk result (λ x. (ds ms : names.Scope ℕ) → B.fits ds ms x.0) }
{
    let frames = or_refused!(builder.no_frames(), rest);
    Ok((builder.whole(frames), rest))
}

// How many blocks may stand in a block, whose opening brace is the first token of the text.
#[tactic(auto, using(crate::proofs::Scripts::inner_some, crate::proofs::Scripts::inner_none))]
fn within(scope: &Scope<'_>, depth: u8, text: &[u8]) -> Result<u8, TextFault>
    ensures tree { ReadsTokens (λ d. λ ts. frames_at (frame_at (scope_of scope.now) d) (length ts) ts) result
        (at_first (tokens text.now) (inner_at (scope_of scope.now) depth)) }
    ensures fewer { IfOk result (λ d. d < depth) }
    ensures of_text { IfErr result (λ e. IsOfText e) }
{
    if depth == 0 {
        return Err(fault(Cause::Depth, text));
    }
    Ok(depth - 1)
}

/// A block in its braces, with at most `around.depth` blocks in one another, this one among them.
#[cycle(frames)]
#[tactic(auto, unfolding(crate::specs::Frames::block_from))]
pub fn block<'a, B: Builder>(around: &Around<'_, B>, text: &'a [u8]) -> Read<'a, B::Frame>
    ensures made { Makes B.refused (λ x. (B.tree x.0, tokens x.1.now))
        (block_at (scope_of around.now.scope.now) around.now.depth) text.now result }
    ensures fits { IfOk result (λ x. B.fits (scope_of around.now.scope.now) (scope_of around.now.costs.now) x.0) }
{
    let (word, rest) = first_token(text)?;
    if !is(word, b"{") {
        return Err(fault(misplaced(word), text));
    }
    let inside = Around {
        builder: around.builder,
        scope: around.scope,
        costs: around.costs,
        depth: within(around.scope, around.depth, text)?,
    };
    let (found, rest) = frames(&inside, rest)?;
    Ok((around.builder.whole(found), rest))
}

// Frames up to the closing brace.
#[cycle(frames)]
fn frames<'a, B: Builder>(around: &Around<'_, B>, text: &'a [u8]) -> Read<'a, B::Row>
    ensures made { Makes B.refused (λ x. (chain (B.row_trees x.0), tokens x.1.now))
        (λ ts. frames_at (frame_at (scope_of around.now.scope.now) around.now.depth) (length ts) ts) text.now result }
    ensures fits { IfOk result (λ x. B.row_fits (scope_of around.now.scope.now) (scope_of around.now.costs.now) x.0) }
{
    let mut found = or_refused!(around.builder.no_frames(), text);
    let mut rest = text;
    while let Some((word, after)) = next(rest) {
        if is(word, b"}") {
            return Ok((found, after));
        }
        let (one, left) = frame(around, rest)?;
        found = or_refused!(around.builder.more(found, one), left);
        rest = left;
    }
    Err(fault(Cause::End, rest))
}

// What stands behind an else, or nothing.
#[cycle(frames)]
#[tactic(auto, unfolding(crate::specs::Frames::else_at))]
fn else_part<'a, B: Builder>(around: &Around<'_, B>, text: &'a [u8]) -> Read<'a, B::Frame>
    ensures tree { ReadsTokensInMemory B.refused (λ x. (B.tree x.0, tokens x.1.now)) result
        (else_at (block_at (scope_of around.now.scope.now) around.now.depth) (tokens text.now)) }
    ensures fewer { IfOk result (λ x. length (tokens x.1.now) ≤ length (tokens text.now)) }
    ensures fits { IfOk result (λ x. B.fits (scope_of around.now.scope.now) (scope_of around.now.costs.now) x.0) }
{
    let Some((word, rest)) = next(text) else {
        return no_frames(around.builder, text);
    };
    if !is(word, b"else") {
        return no_frames(around.builder, text);
    }
    block(around, rest)
}

// A message that is sent again, behind its first word.
fn retry<'a, B: Builder>(builder: &B, text: &'a [u8]) -> Read<'a, B::Frame>
    ensures made { Makes B.refused (λ x. (B.tree x.0, tokens x.1.now)) retry_at text.now result }
    ensures fits { IfOk result (λ x. (ds ms : names.Scope ℕ) → B.fits ds ms x.0) }
{
    let (count, rest) = number_in_range(text, 1, 8)?;
    let rest = after_token(rest, b"send")?;
    let (line, message, rest) = send(rest)?;
    Ok((builder.retry(count as u8, line, message), rest))
}

/// The name of a definition.
#[tactic(auto, unfolding(crate::specs::Frames::label_at))]
pub fn label(text: &[u8]) -> Result<(Name, &[u8]), TextFault>
    ensures tree { ReadsTokens (λ x. (x.0, tokens x.1.now)) result (label_at (tokens text.now)) }
    ensures fewer { IfOk result (λ x. length (tokens x.1.now) < length (tokens text.now)) }
    ensures of_text { IfErr result (λ e. IsOfText e) }
{
    let (word, rest) = first_token(text)?;
    match Name::new(word) {
        Some(name) => Ok((name, rest)),
        None => Err(fault(misplaced(word), text)),
    }
}

// A call, behind its first word; `text` begins with that.
fn call<'a, B: Builder>(around: &Around<'_, B>, text: &[u8], behind: &'a [u8]) -> Read<'a, B::Frame>
    ensures made { Makes B.refused (λ x. (B.tree x.0, tokens x.1.now))
        (call_at (scope_of around.now.scope.now) around.now.depth (tokens text.now)) behind.now result }
    ensures fits { IfOk result (λ x. B.fits (scope_of around.now.scope.now) (scope_of around.now.costs.now) x.0) }
{
    let (name, rest) = label(behind)?;
    if !around.scope.has(&name) {
        return Err(fault(Cause::Name, behind));
    }
    if around.scope.number_of(&name) > u32::from(around.depth) {
        return Err(fault(Cause::Depth, text));
    }
    Ok((around.builder.call(name, around.scope, around.costs), rest))
}

// A choice between two blocks, behind its first word.
#[cycle(frames)]
fn choice<'a, B: Builder>(around: &Around<'_, B>, text: &'a [u8]) -> Read<'a, B::Frame>
    ensures made { Makes B.refused (λ x. (B.tree x.0, tokens x.1.now))
        (choice_at (block_at (scope_of around.now.scope.now) around.now.depth)) text.now result }
    ensures fits { IfOk result (λ x. B.fits (scope_of around.now.scope.now) (scope_of around.now.costs.now) x.0) }
{
    let (asked, rest) = condition(around.builder, text, 16)?;
    let (then, rest) = block(around, rest)?;
    let (otherwise, rest) = else_part(around, rest)?;
    let whole = or_refused!(around.builder.choose(asked, then, otherwise), rest);
    Ok((whole, rest))
}

// A block that runs until a condition holds, at most so many times, behind its first word.
#[cycle(frames)]
fn until<'a, B: Builder>(around: &Around<'_, B>, text: &'a [u8]) -> Read<'a, B::Frame>
    ensures made { Makes B.refused (λ x. (B.tree x.0, tokens x.1.now))
        (until_at (block_at (scope_of around.now.scope.now) around.now.depth)) text.now result }
    ensures fits { IfOk result (λ x. B.fits (scope_of around.now.scope.now) (scope_of around.now.costs.now) x.0) }
{
    let (asked, rest) = condition(around.builder, text, 16)?;
    let rest = after_token(rest, b"at")?;
    let rest = after_token(rest, b"most")?;
    let (count, rest) = number_in_range(rest, 1, 10_000)?;
    let (body, rest) = block(around, rest)?;
    let whole = or_refused!(around.builder.until(asked, count as u16, body), rest);
    Ok((whole, rest))
}

/// A frame with at most `around.depth` blocks in one another.
#[cycle(frames)]
#[tactic(auto, unfolding(crate::specs::Frames::frame_from, crate::specs::Frames::frame_of))]
pub fn frame<'a, B: Builder>(around: &Around<'_, B>, text: &'a [u8]) -> Read<'a, B::Frame>
    ensures made { Makes B.refused (λ x. (B.tree x.0, tokens x.1.now))
        (frame_at (scope_of around.now.scope.now) around.now.depth) text.now result }
    ensures fits { IfOk result (λ x. B.fits (scope_of around.now.scope.now) (scope_of around.now.costs.now) x.0) }
{
    let (word, rest) = first_token(text)?;
    match frame_word(word) {
        FrameWord::Send => {
            let (line, message, rest) = send(rest)?;
            Ok((around.builder.send(line, message), rest))
        }
        FrameWord::Retry => retry(around.builder, rest),
        FrameWord::Gap => {
            let (ticks, rest) = number_in_range(rest, u32::from(LEAST_GAP), 65_535)?;
            Ok((around.builder.gap(ticks as u16), rest))
        }
        FrameWord::Repeat => {
            let (count, rest) = number_in_range(rest, 1, 10_000)?;
            let (body, rest) = block(around, rest)?;
            Ok((
                or_refused!(around.builder.repeat(count as u16, body), rest),
                rest,
            ))
        }
        FrameWord::If => choice(around, rest),
        FrameWord::Until => until(around, rest),
        FrameWord::Timed => {
            let (hundreds, rest) = period(rest)?;
            let (body, rest) = block(around, rest)?;
            Ok((
                or_refused!(around.builder.timed(hundreds, body), rest),
                rest,
            ))
        }
        FrameWord::Call => call(around, text, rest),
        FrameWord::NoFrame => Err(fault(misplaced(word), text)),
    }
}
