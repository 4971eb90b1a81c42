//! Why a script is refused.

use crate::fault::ScriptFault;
use crate::kinds::Kind;
use crate::messages::message_reason;
use crate::places::{Place, left_at, place_at};
use crate::reason::{Other, Reason};
use crate::symbols::Symbol;
use crate::walk::{text_of, token_at, walk_to};
use std::alloc::{AllocError, Global};

/// Which text is refused.
#[derive(Clone, Copy, Debug, PartialEq, Eq)]
pub enum Text {
    /// A script.
    Script,
    /// The script of a job.
    Job,
    /// A line and a message, without their `send`.
    Send,
}

/// Why a text is refused with a fault at a place; none where that is no fault of it.
pub fn script_reason(
    alloc: Global,
    text: &[u8],
    kind: Text,
    fault: ScriptFault,
    place: Place,
) -> Result<Option<Reason>, AllocError> {
    reason_behind(alloc, text, text, kind, fault, place)
}

/// The same of a script that stands at the end of a text, where the place is one of the whole text.
pub(crate) fn reason_behind(
    alloc: Global,
    text: &[u8],
    script: &[u8],
    kind: Text,
    fault: ScriptFault,
    place: Place,
) -> Result<Option<Reason>, AllocError> {
    let left = left_at(text, place);
    if let ScriptFault::Message(bad) = fault {
        return Ok(message_reason(text, left, bad));
    }
    let token = token_at(text, left);
    let Some((symbol, open)) = wanted(alloc, script, kind, left)? else {
        return Ok(None);
    };
    let (why, remedy) = match of_a_job(fault, kind, text_of(token), symbol) {
        Some(said) => said,
        None => words_for(fault, text_of(token), symbol),
    };
    let mut reason = Reason::at(place, token.len(), why, remedy);
    if fault == ScriptFault::End {
        if let Some(left) = open {
            reason.other = Some(unclosed(text, left));
        }
    }
    Ok(Some(reason))
}

/// What has to stand in a script where so many bytes of it are left, and how many are left at the innermost open
/// bracket.
fn wanted(
    alloc: Global,
    script: &[u8],
    kind: Text,
    left: usize,
) -> Result<Option<(Option<Symbol>, Option<usize>)>, AllocError> {
    let walk = match kind {
        Text::Script | Text::Job => walk_to(alloc, script, &[Symbol::Script], left)?,
        Text::Send => walk_to(
            alloc,
            script,
            &[Symbol::Message, Symbol::One(Kind::Line)],
            left,
        )?,
    };
    let Some(mut walk) = walk else {
        return Ok(None);
    };
    let symbol = walk.wanted(text_of(token_at(script, left)));
    Ok(Some((symbol, walk.innermost())))
}

/// A bracket that is open where a text ends.
fn unclosed(text: &[u8], left: usize) -> Other {
    Other {
        place: place_at(text, left),
        width: 1,
        why: "this is not closed",
    }
}

/// What is wrong with a line of a job that stands where a frame of a script is to stand, and what to do; none where the
/// token begins no such line.
fn of_a_job(
    fault: ScriptFault,
    kind: Text,
    token: &str,
    symbol: Option<Symbol>,
) -> Option<(&'static str, &'static str)> {
    if fault != ScriptFault::Token || !begins_a_line(token) {
        return None;
    }
    match (symbol?, kind) {
        (Symbol::Script | Symbol::Frames | Symbol::Block, Text::Job) => Some((
            "this line of a job stands behind the line script",
            "write it in front of the line script, where a job names its terminals, actions and faults",
        )),
        (Symbol::Script | Symbol::Frames | Symbol::Block, _) => Some((
            "this is a line of a job, and not of a script",
            "a script has frames alone; bench check and bench run take jobs",
        )),
        _ => None,
    }
}

/// Whether a word begins a line of a job in front of its script.
fn begins_a_line(word: &str) -> bool {
    matches!(
        word,
        "channel" | "start" | "terminal" | "at" | "fault" | "faults" | "series"
    )
}

/// What is wrong with a token, and what may stand in its place.
fn words_for(
    fault: ScriptFault,
    token: &str,
    symbol: Option<Symbol>,
) -> (&'static str, &'static str) {
    let allowed = match symbol {
        Some(symbol) => symbol.allowed(),
        None => "the text ends in front of it",
    };
    match fault {
        ScriptFault::Byte => (
            "this byte is in no word of a script",
            "words have letters, digits and _; beside them stand { } ( ) [ ], spaces, and comments behind #",
        ),
        ScriptFault::Token => (misplaced(token, symbol), allowed),
        ScriptFault::Number => (no_number(symbol), allowed),
        ScriptFault::End => ("the text ends too early", allowed),
        ScriptFault::Range => ("this number is out of its range", allowed),
        ScriptFault::Depth => too_deep(token),
        ScriptFault::Name => wrong_name(symbol),
        ScriptFault::Definitions => (
            "this is the thirty-third definition",
            "put frames that always run together into one of the 32",
        ),
        ScriptFault::Messages => (
            "the script may send more than 1000000 messages",
            "lower the counts of its loops; a retry counts as often as it may be tried",
        ),
        ScriptFault::Message(_) => ("the numbers of this message do not go together", allowed),
    }
}

/// Why a token cannot stand where it does.
fn misplaced(token: &str, symbol: Option<Symbol>) -> &'static str {
    match symbol {
        Some(Symbol::One(Kind::StatusBit)) => "no status bit has this name",
        Some(Symbol::One(_)) => "this cannot stand here",
        Some(_) => match token {
            "}" => "this closes no block",
            "else" => "this stands behind no if",
            "define" => "definitions stand above all other frames",
            _ => "this cannot stand here",
        },
        None => "nothing may stand here",
    }
}

fn no_number(symbol: Option<Symbol>) -> &'static str {
    match symbol {
        Some(Symbol::Words) => "this is no data word",
        _ => "this is no number of one to seven digits",
    }
}

fn too_deep(token: &str) -> (&'static str, &'static str) {
    match token {
        "{" => (
            "this is the seventeenth block in one another",
            "at most 16 are allowed; put blocks one behind the other",
        ),
        "call" => (
            "the blocks of the called frame would stand more than 16 deep",
            "call it further out, or take blocks out of it",
        ),
        _ => (
            "this is the seventeenth operator of its condition",
            "at most 16 of not, all and any stand above a test",
        ),
    }
}

fn wrong_name(symbol: Option<Symbol>) -> (&'static str, &'static str) {
    match symbol {
        Some(Symbol::One(Kind::NewName)) => (
            "this name is defined already",
            "give each definition a name of its own",
        ),
        _ => (
            "no frame of this name is defined above",
            "define it above its first call; a frame cannot call itself",
        ),
    }
}
