//! The moves of the debugger, and what is replied to each.
ghost use Rattle.bench_step.specs.Commands as asked;
ghost use Rattle.bench_step.specs.Session.{Replies, IsMoveIfAny, IsMoveTo, after_reply, selected_place};
ghost use Rattle.frame_tree.specs.Tree.{condition_in};
ghost use Rattle.std.specs.Prelude.{◌≡◌, ◌+◌, ◌-◌};

use crate::commands::Way;
use crate::replies::Reply;
use bench_places::{Sought, latest_place, nth_place, place_before};
use ch11_reader::Index;
use frame_tree::Cond;
use judge_rules::Selector;
use replay::{Replay, ReplayError};
use std::alloc::Global;

/// To a place, which is one of the recording: a refusal is want of memory.
pub(crate) fn move_to(replay: &mut Replay<'_>, place: u64) -> Reply
    ensures reply { IsMoveTo place result }
    ensures after { replay.new.state ≡ after_reply result replay.old.state }
{
    match replay.go(place) {
        Ok(()) => Reply::At(place),
        Err(_) => Reply::Refused(ReplayError::Memory),
    }
}

/// To the place that was looked for, which is one of the recording, if there is one.
pub(crate) fn move_if_any(replay: &mut Replay<'_>, found: Option<u64>) -> Reply
    ensures reply { IsMoveIfAny found result }
    ensures after { replay.new.state ≡ after_reply result replay.old.state }
{
    match found {
        Some(place) => move_to(replay, place),
        None => Reply::Refused(ReplayError::Past),
    }
}

/// So many messages on.
#[tactic(auto, using(crate::proofs::Moving::moved_on))]
pub(crate) fn go_on(replay: &mut Replay<'_>, count: u64) -> Reply
    ensures lawful { Replies replay.old.state (asked.forward count) result }
    ensures after { replay.new.state ≡ after_reply result replay.old.state }
{
    let place = replay.place();
    if replay.total() - place < count {
        return Reply::Refused(ReplayError::Past);
    }
    move_to(replay, place + count)
}

/// So many messages back.
#[tactic(auto, using(crate::proofs::Moving::moved_back))]
pub(crate) fn go_back(replay: &mut Replay<'_>, count: u64) -> Reply
    ensures lawful { Replies replay.old.state (asked.back count) result }
    ensures after { replay.new.state ≡ after_reply result replay.old.state }
{
    let place = replay.place();
    if place < count {
        return Reply::Refused(ReplayError::Start);
    }
    move_to(replay, place - count)
}

/// To a place.
pub(crate) fn go_to(replay: &mut Replay<'_>, place: u64) -> Reply
    ensures lawful { Replies replay.old.state (asked.go place) result }
    ensures after { replay.new.state ≡ after_reply result replay.old.state }
{
    match replay.go(place) {
        Ok(()) => Reply::At(place),
        Err(fault) => Reply::Refused(fault),
    }
}

/// To the place before the first message with a later stamp than so many ticks.
pub(crate) fn go_time(replay: &mut Replay<'_>, ticks: u64) -> Reply
    ensures lawful { Replies replay.old.state (asked.go_time ticks) result }
    ensures after { replay.new.state ≡ after_reply result replay.old.state }
{
    let index = replay.index();
    let place = place_before(index, &Sought::Later(ticks));
    move_to(replay, place)
}

/// To the message of a number among all that meet what is asked of them.
#[tactic(auto, using(crate::proofs::Moving::sought))]
pub(crate) fn seek(replay: &mut Replay<'_>, sought: &Sought, number: u64) -> Reply
    ensures lawful { Replies replay.old.state (asked.seek sought.now number) result }
    ensures after { replay.new.state ≡ after_reply result replay.old.state }
{
    let found = nth_place(replay.index(), sought, 0, number);
    move_if_any(replay, found)
}

/// On to the next message whose outcome makes the condition true.
pub(crate) fn find_on(replay: &mut Replay<'_>, condition: &Cond<Global>) -> Reply
    ensures lawful { Replies replay.old.state (asked.find (condition_in condition.now)) result }
    ensures after { replay.new.state ≡ after_reply result replay.old.state }
{
    let moved = replay.find(condition);
    Reply::to_move(replay, moved)
}

/// Back to the latest message before the place whose outcome makes the condition true.
pub(crate) fn find_back(replay: &mut Replay<'_>, condition: &Cond<Global>) -> Reply
    ensures lawful { Replies replay.old.state (asked.find_back (condition_in condition.now)) result }
    ensures after { replay.new.state ≡ after_reply result replay.old.state }
{
    let moved = replay.find_back(condition);
    Reply::to_move(replay, moved)
}

/// The place of the next message that the selector is about, or of the latest one before a place, if there is one.
fn selected_place(index: &Index<'_>, way: Way, selector: Selector, place: u64) -> Option<u64>
    ensures { result ≡ selected_place way selector place index.now }
{
    let sought = Sought::Commands(selector);
    match way {
        Way::On => nth_place(index, &sought, place, 1),
        Way::Back => latest_place(index, &sought, place),
    }
}

/// On to the next message that the selector is about, or back to the latest one before the place.
#[tactic(auto, using(crate::proofs::Moving::selected))]
pub(crate) fn select(replay: &mut Replay<'_>, way: Way, selector: Selector) -> Reply
    ensures lawful { Replies replay.old.state (asked.selects way selector) result }
    ensures after { replay.new.state ≡ after_reply result replay.old.state }
{
    let place = replay.place();
    let found = selected_place(replay.index(), way, selector, place);
    move_if_any(replay, found)
}
