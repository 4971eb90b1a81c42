//! What is added to an explanation that does not give the record.

use crate::cases::{Case, words_of};
use crate::edits::{Alteration, edit, pause, spoil, turn};
use crate::explanations::Explanation;
use crate::hosts::{has, legality};
use crate::outlook::{Outlook, is_question};
use crate::styles::Mark;
use arrayvec::ArrayVec;
use mil_bus::Talk;
use mil_host::Action;
use mil_line::Fault;
use mil_monitor::observe;
use mil_status::{BlockBits, StatusBits};
use mil_word::{Line, Sync};
use std::alloc::AllocError;

/// How words of a run are altered.
fn alteration_of(case: &Case<'_>, run: u32) -> Alteration {
    let commands = if run == 0 { case.commands() } else { 1 };
    let adds_data = case.style.adds_data || run == 0 && case.breaks_off();
    let added = if case.wanted.has(BlockBits::SYNC_TYPE_ERROR) && !adds_data {
        Sync::CommandSync
    } else {
        Sync::DataSync
    };
    Alteration {
        run,
        front: 0,
        commands,
        unsound: case.wanted.has(BlockBits::INVALID_WORD_ERROR),
        added,
    }
}

/// The words that the controller gives.
fn given_by_controller(case: &Case<'_>) -> ArrayVec<u16, 40> {
    let mut words = ArrayVec::new();
    let given = case.message().controller_words();
    for word in given.as_slice() {
        // There are 34 at most.
        let _ = words.try_push(word.value);
    }
    words
}

/// Plans faults that make the controller's words those that were recorded.
pub(crate) fn mend_controller(explanation: &mut Explanation, case: &Case<'_>) {
    let given = given_by_controller(case);
    let wanted = case.wanted.part(0, case.guess.sent);
    let mut alteration = alteration_of(case, 0);
    let words = given.as_slice();
    // Where the faults are not enough, in each of these, the record comes out another.
    if case.guess.is_headless {
        let _ = explanation.plan(Fault::Drop { run: 0, index: 0 });
        alteration.front = 1;
    }
    let own = &words[alteration.front.min(words.len())..];
    if own != wanted {
        let _ = edit(explanation, alteration, own, wanted);
    }
}

/// Whether an unsound word is planned.
fn masks(explanation: &Explanation) -> bool {
    explanation
        .faults
        .as_slice()
        .iter()
        .any(|fault| matches!(fault, Fault::Mask { .. }))
}

/// Whether a word is planned that is added.
fn adds(explanation: &Explanation) -> bool {
    explanation
        .faults
        .as_slice()
        .iter()
        .any(|fault| matches!(fault, Fault::Add { .. }))
}

/// Makes a word of the controller odd as the block status word tells.
pub(crate) fn mark_controller(explanation: &mut Explanation, case: &Case<'_>) {
    let last = match case.guess.command_at {
        Some(place) => place,
        None => case.message().controller_count().saturating_sub(1),
    };
    let front = usize::from(case.guess.is_headless);
    let place = if case.style.mark == Mark::First {
        front.min(last)
    } else {
        last
    };
    let unsound = case.wanted.has(BlockBits::INVALID_WORD_ERROR) && !masks(explanation);
    // A mark that finds no room, here and below, leaves the record another.
    if unsound {
        let _ = spoil(explanation, 0, place);
    }
    let breaks_off = case.breaks_off();
    if case.wanted.has(BlockBits::SYNC_TYPE_ERROR) && (breaks_off || !adds(explanation)) {
        let other = if breaks_off {
            last
        } else if unsound {
            last.saturating_sub(place)
        } else {
            place
        };
        let _ = turn(explanation, 0, other);
    }
    if case.wanted.has(BlockBits::FORMAT_ERROR) {
        let _ = pause(explanation, 0, place.max(1));
    }
}

/// Silences a reply of the talk that did not come; false where nothing is left to add. The terminal of its command may
/// not be there: then another one replied, and a planned fault alone silences it.
fn silence(
    explanation: &mut Explanation,
    case: &Case<'_>,
    outlook: &Outlook<'_>,
    run: u32,
) -> Result<bool, AllocError> {
    let (address, line) = (case.command(run).address(), case.wanted.line);
    let is_there = explanation.has(address);
    if case.style.deafens {
        explanation.act(address, Action::Deaf { line, on: true })?;
        explanation.act_later(address, Action::Deaf { line, on: false })?;
        return Ok(is_there);
    }
    let fault = Fault::Mute { run };
    if explanation.faults.as_slice().contains(&fault) {
        return Ok(false);
    }
    let on_line_b = matches!(line, Line::B);
    let stays = is_there && outlook.stays_silent(case.next, address, on_line_b);
    if !stays && explanation.plan(fault) {
        return Ok(true);
    }
    explanation.act(address, Action::Mute { line, on: true })?;
    Ok(is_there)
}

/// Has a terminal take its command as illegal, or as legal again, where its status word alone tells so. That of the
/// command may not be there, as with one to all terminals: then it is another one that replied.
fn rejudge(
    explanation: &mut Explanation,
    case: &Case<'_>,
    run: u32,
    given: &[u16],
    wanted: &[u16],
) -> Result<bool, AllocError> {
    let command = case.command(run);
    let (Some(own), Some(status)) = (given.first(), wanted.first()) else {
        return Ok(false);
    };
    let is_illegal = has(*status, StatusBits::MESSAGE_ERROR);
    let was_illegal = has(*own, StatusBits::MESSAGE_ERROR);
    if is_illegal == was_illegal || is_question(command) && !is_illegal {
        return Ok(false);
    }
    if is_illegal && wanted.len() > 1 || explanation.rejudged.as_slice().contains(&run) {
        return Ok(false);
    }
    if !explanation.has(command.address()) {
        return Ok(false);
    }
    // There is room for both replies.
    let _ = explanation.rejudged.try_push(run);
    explanation.act(command.address(), legality(command, is_illegal))?;
    Ok(true)
}

/// Adds what makes a reply the one that was recorded; false where nothing is left to add.
fn mend_reply(
    explanation: &mut Explanation,
    case: &Case<'_>,
    outlook: &Outlook<'_>,
    talk: &Talk,
    run: u32,
) -> Result<bool, AllocError> {
    let given = words_of(talk, run);
    let wanted = case.reply_words(run);
    if given.as_slice() == wanted || given.as_slice().is_empty() {
        return Ok(false);
    }
    if wanted.is_empty() {
        return silence(explanation, case, outlook, run);
    }
    if rejudge(explanation, case, run, given.as_slice(), wanted)? {
        return Ok(true);
    }
    if !case.style.mends || alters(explanation, run) {
        return Ok(false);
    }
    Ok(edit(
        explanation,
        alteration_of(case, run),
        given.as_slice(),
        wanted,
    ))
}

/// Whether words of a run are altered.
fn alters(explanation: &Explanation, at: u32) -> bool {
    explanation
        .faults
        .as_slice()
        .iter()
        .any(|fault| match fault {
            Fault::Mask { run, .. } | Fault::Drop { run, .. } | Fault::Add { run, .. } => *run
                == at,
            Fault::Babble { run, .. } => *run == at,
            _ => false,
        })
}

/// Adds what makes replies those that were recorded; false where nothing is left to add.
pub(crate) fn mend(
    explanation: &mut Explanation,
    case: &Case<'_>,
    outlook: &Outlook<'_>,
    talk: &Talk,
) -> Result<bool, AllocError> {
    let first = mend_reply(explanation, case, outlook, talk, 1)?;
    if first {
        return Ok(true);
    }
    mend_reply(explanation, case, outlook, talk, 2)
}

/// The run of a reply whose words may be odd, and its last place.
fn last_reply(case: &Case<'_>) -> (u32, usize) {
    let run = if case.wanted.came(2) { 2 } else { 1 };
    let last = case.reply_words(run).len().saturating_sub(1);
    (run, last.min(case.due_words(run)))
}

/// Makes words of replies odd as far as the block status word tells so and the talk does not; false where there is
/// nothing to do.
pub(crate) fn mend_bits(explanation: &mut Explanation, case: &Case<'_>, talk: &Talk) -> bool {
    if !case.wanted.came(1) || case.style.mark != Mark::Reply {
        return false;
    }
    let lacks = case.wanted.block & !observe(talk).block;
    let (run, last) = last_reply(case);
    let mut changed = false;
    if lacks & BlockBits::INVALID_WORD_ERROR.0 != 0 {
        changed = spoil(explanation, run, last);
    }
    if lacks & BlockBits::SYNC_TYPE_ERROR.0 != 0 {
        let place = if changed { 0 } else { last };
        changed = turn(explanation, run, place) || changed;
    }
    if lacks & BlockBits::FORMAT_ERROR.0 != 0 {
        let last = case.reply_words(1).len().saturating_sub(1);
        let place = last.min(case.due_words(1)).max(1);
        changed = pause(explanation, 1, place) || changed;
    }
    changed
}
