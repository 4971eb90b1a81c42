//! The text of a script: definitions, and the frames behind them.

ghost use Rattle.frame_text.specs.Frames.{fresh_name_at, main_at, script_at};
ghost use Rattle.frame_text.specs.Reading.{ReadsTokens, ReadsTokensInMemory, IsOfText};
ghost use Rattle.frame_text.specs.Tokens.{tokens};
ghost use Rattle.frame_tree.specs.Scopes.{scope_of};
ghost use Rattle.std.specs.Prelude.{length, IfOk, IfErr};

use crate::builder::Builder;
use crate::faults::{Cause, TextFault};
use crate::frames::{Around, block, frame, label};
use crate::keywords::is;
use crate::memory::or_refused;
use crate::tokens::{fault, next};
use frame_tree::{Name, Scope};

// A name that is not in scope yet.
fn fresh_name<'a>(text: &'a [u8], scope: &Scope<'_>) -> Result<(Name, &'a [u8]), TextFault>
    ensures tree { ReadsTokens (λ x. (x.0, tokens x.1.now)) result
        (fresh_name_at (scope_of scope.now) (tokens text.now)) }
    ensures of_text { IfErr result (λ e. IsOfText e) }
{
    let (name, rest) = label(text)?;
    if scope.has(&name) {
        return Err(fault(Cause::Name, text));
    }
    Ok((name, rest))
}

// Frames up to the end of the text.
fn main<B: Builder>(
    builder: &B,
    text: &[u8],
    scope: &Scope<'_>,
    costs: &Scope<'_>,
) -> Result<B::Frame, TextFault>
    ensures tree { ReadsTokensInMemory B.refused B.tree result
        (main_at (scope_of scope.now) (length (tokens text.now)) (tokens text.now)) }
    ensures fits { IfOk result (λ f. B.fits (scope_of scope.now) (scope_of costs.now) f) }
{
    let around = Around {
        builder,
        scope,
        costs,
        depth: 16,
    };
    let mut found = or_refused!(builder.no_frames(), text);
    let mut rest = text;
    while let Some((word, _)) = next(rest) {
        // The word is read again as the begin of a frame.
        let _ = word;
        let (one, left) = frame(&around, rest)?;
        found = or_refused!(builder.more(found, one), left);
        rest = left;
    }
    Ok(builder.whole(found))
}

/// Definitions, at most `left` of them, and the frames behind them up to the end of the text. Of each name in scope
/// `scope` has the depth of its body, and `costs` the number that the builder has for it.
pub fn script<'s, B: Builder>(
    builder: &B,
    text: &[u8],
    scope: &'s Scope<'s>,
    costs: &'s Scope<'s>,
    left: u8,
) -> Result<B::Frame, TextFault>
    ensures tree { ReadsTokensInMemory B.refused B.tree result (script_at left (scope_of scope.now) (tokens text.now)) }
    ensures fits { IfOk result (λ f. B.fits (scope_of scope.now) (scope_of costs.now) f) }
{
    let Some((word, rest)) = next(text) else {
        return main(builder, text, &*scope, &*costs);
    };
    if !is(word, b"define") {
        return main(builder, text, &*scope, &*costs);
    }
    if left == 0 {
        return Err(fault(Cause::Definitions, text));
    }
    let (name, rest) = fresh_name(rest, &*scope)?;
    let around = Around {
        builder,
        scope: &*scope,
        costs: &*costs,
        depth: 17,
    };
    let (body, rest) = block(&around, rest)?;
    let depth = builder.depth(&body, &*scope);
    let cost = builder.messages(&body);
    let inner = Scope::With(&name, depth, &*scope);
    let inner_costs = Scope::With(&name, cost, &*costs);
    let others = script(builder, rest, &inner, &inner_costs, left - 1)?;
    let whole = or_refused!(builder.define(name, body, others), rest);
    Ok(whole)
}
