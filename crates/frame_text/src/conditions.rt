//! The text of a condition.

ghost use Rattle.frame_text.specs.Conditions.{name_at, pair_at, condition_at, below_at};
ghost use Rattle.frame_text.specs.Reading.{ReadsTokens, ReadsTokensInMemory, at_first, IsOfText};
ghost use Rattle.frame_text.specs.Tokens.{tokens};
ghost use Rattle.std.specs.Prelude.{◌<◌, length, IfOk, IfErr};

use crate::builder::Builder;
use crate::faults::{Cause, TextFault};
use crate::keywords::{ConditionWord, condition_word, misplaced};
use crate::memory::or_refused;
use crate::tokens::{after_token, fault, first_token};
use mil_message::OutcomeTest;
use mil_status::StatusBit;

// The status bit of a name.
#[tactic(auto, unfolding(crate::specs::Conditions::name_at))]
fn name(text: &[u8]) -> Result<(StatusBit, &[u8]), TextFault>
    ensures tree { ReadsTokens (λ x. (x.0, tokens x.1.now)) result (name_at (tokens text.now)) }
    ensures fewer { IfOk result (λ x. length (tokens x.1.now) < length (tokens text.now)) }
    ensures of_text { IfErr result (λ e. IsOfText e) }
{
    let (word, rest) = first_token(text)?;
    match StatusBit::named(word) {
        Some(bit) => Ok((bit, rest)),
        None => Err(fault(misplaced(word), text)),
    }
}

// How many operators may stand above a test within an operator, which is the first token of the text.
#[tactic(auto, using(crate::proofs::Below::below_some, crate::proofs::Below::below_none))]
fn within(depth: u8, text: &[u8]) -> Result<u8, TextFault>
    ensures tree { ReadsTokens (λ d. condition_at d) result (at_first (tokens text.now) (below_at depth)) }
    ensures fewer { IfOk result (λ d. d < depth) }
    ensures of_text { IfErr result (λ e. IsOfText e) }
{
    if depth == 0 {
        return Err(fault(Cause::Depth, text));
    }
    Ok(depth - 1)
}

// Two conditions in their brackets.
#[cycle(conditions)]
#[tactic(auto, unfolding(crate::specs::Conditions::pair_at))]
fn pair<'a, B: Builder>(
    builder: &B,
    text: &'a [u8],
    depth: u8,
) -> Result<(B::Cond, B::Cond, &'a [u8]), TextFault>
    ensures tree { ReadsTokensInMemory B.refused (λ x. ((B.condition x.0, B.condition x.1), tokens x.2.now)) result
        (pair_at (condition_at depth) (tokens text.now)) }
    ensures fewer { IfOk result (λ x. length (tokens x.2.now) < length (tokens text.now)) }
{
    let rest = after_token(text, b"(")?;
    let (first, rest) = condition(builder, rest, depth)?;
    let (second, rest) = condition(builder, rest, depth)?;
    let rest = after_token(rest, b")")?;
    Ok((first, second, rest))
}

/// A condition with at most `depth` operators above any test.
#[cycle(conditions)]
#[tactic(auto, unfolding(crate::specs::Conditions::condition_from, crate::specs::Conditions::condition_of))]
pub fn condition<'a, B: Builder>(
    builder: &B,
    text: &'a [u8],
    depth: u8,
) -> Result<(B::Cond, &'a [u8]), TextFault>
    ensures tree { ReadsTokensInMemory B.refused (λ x. (B.condition x.0, tokens x.1.now)) result
        (condition_at depth (tokens text.now)) }
    ensures fewer { IfOk result (λ x. length (tokens x.1.now) < length (tokens text.now)) }
{
    let (word, rest) = first_token(text)?;
    match condition_word(word) {
        ConditionWord::Fail => Ok((builder.ask(OutcomeTest::Failed), rest)),
        ConditionWord::Silent => Ok((builder.ask(OutcomeTest::Silent), rest)),
        ConditionWord::Bit => {
            let (bit, rest) = name(rest)?;
            Ok((builder.ask(OutcomeTest::Bit(bit)), rest))
        }
        ConditionWord::Not => {
            let depth = within(depth, text)?;
            let (inner, rest) = condition(builder, rest, depth)?;
            let whole = or_refused!(builder.not(inner), rest);
            Ok((whole, rest))
        }
        ConditionWord::All => {
            let depth = within(depth, text)?;
            let (first, second, rest) = pair(builder, rest, depth)?;
            let whole = or_refused!(builder.all(first, second), rest);
            Ok((whole, rest))
        }
        ConditionWord::Any => {
            let depth = within(depth, text)?;
            let (first, second, rest) = pair(builder, rest, depth)?;
            let whole = or_refused!(builder.any(first, second), rest);
            Ok((whole, rest))
        }
        ConditionWord::NoCondition => Err(fault(misplaced(word), text)),
    }
}
