//! Which frames with a period may not fit into it at worst: a tally of a script.
ghost use Rattle.bench_check.specs.Fitting as spec;
ghost use Rattle.frame_tree.specs.Scopes.{scope_of};
ghost use Rattle.frame_tree.specs.Tree.{tree_of};
ghost use Rattle.std.specs.Prelude.{◌≡◌, ◌++◌, ◌+◌, ◌*◌, ◌≤◌, length, IfOk, OnOk};

use frame_tree::{Frame, Scope};
use mil_message::{Due, Message};
use mil_word::timing::{CONTIGUOUS_GAP, LATEST_RESPONSE, LONGER_GAP, SYNC_TO_PARITY, WORD_TIME};
use std::alloc::{AllocError, Allocator, Global};

/// A frame with a period whose body may take longer than the period.
#[derive(Clone, Copy, Debug, PartialEq, Eq)]
pub struct Tight {
    /// Its place among the frames with a period of its script, in the order of the text, counted from 1.
    pub place: usize,
    /// Its period, 1 to 65,535 times 100 µs.
    pub hundreds: u16,
    /// How long its body takes at worst, in ticks of 0.1 µs; 100 s where it is more.
    pub ticks: u64,
}

/// A frame with a period.
#[derive(Clone, Copy, Debug, PartialEq, Eq)]
pub(crate) struct Timed {
    /// Its period, 1 to 65,535 times 100 µs.
    pub hundreds: u16,
    /// How long its body takes at worst, in ticks of 0.1 µs; 100 s where it is more.
    pub ticks: u32,
}

/// From the end of the word before to the end of the status of a reply that comes as late as it may.
const LATEST_REPLY: u32 = LATEST_RESPONSE as u32 + SYNC_TO_PARITY as u32;

/// How many ticks 100 s have: no number of ticks is told beyond them.
const MOST: u32 = 1_000_000_000;

/// A reply that is due, sent as late as it may be, in ticks of 0.1 µs.
fn reply_ticks(due: &Due) -> u32
    ensures value { result ≡ spec.reply_ticks due.now }
    ensures small { result ≤ 100000 }
{
    LATEST_REPLY + u32::from(WORD_TIME) * u32::from(due.words)
}

/// Replies that are due, each sent as late as it may be, in ticks of 0.1 µs.
fn replies_ticks(due: &[Due]) -> u32
    requires { length due.now ≤ 2 }
    ensures value { result ≡ spec.replies_ticks due.now }
    ensures small { result ≤ 100000 * length due.now }
{
    match due.split_first() {
        None => 0,
        Some((first, others)) => reply_ticks(first) + replies_ticks(others),
    }
}

/// A message whose replies come as late as they may, in ticks of 0.1 µs.
#[tactic(auto, using(crate::proofs::Fitted::few_replies))]
fn message_ticks(message: &Message) -> u32
    ensures value { result ≡ spec.message_ticks message.now }
    ensures small { result ≤ 1000000 }
{
    let words = message.controller_count() as u32;
    u32::from(WORD_TIME) * words + replies_ticks(message.replies_due().as_slice())
}

/// The pause in front of a message that has this gap, and the message, in ticks of 0.1 µs.
fn spent(gap: u16, message: &Message) -> u32
    ensures value { result ≡ spec.spent gap message.now }
    ensures small { result ≤ 2000000 }
{
    u32::from(gap).saturating_sub(u32::from(CONTIGUOUS_GAP)) + message_ticks(message)
}

/// The longest gap that a frame sets, in ticks of 0.1 µs; 0 where it sets none.
fn set_gap<A: Allocator + Clone>(frame: &Frame<A>) -> u16
    ensures { result ≡ spec.set_gap (tree_of frame.now) }
{
    match frame {
        Frame::Send { .. } | Frame::Retry { .. } | Frame::Call(_) => 0,
        Frame::Gap(ticks) => *ticks,
        Frame::Repeat { body, .. } | Frame::Until { body, .. } => set_gap(body),
        Frame::Timed { body, .. } => set_gap(body),
        Frame::If {
            then,
            otherwise,
            ..
        } => set_gap(then).max(set_gap(otherwise)),
        Frame::Seq(frames) => {
            let mut longest = 0;
            for one in frames {
                longest = set_gap(one).max(longest);
            }
            longest
        }
        Frame::Define { body, rest, .. } => set_gap(body).max(set_gap(rest)),
    }
}

/// So many times these ticks, 100 s where it is more.
fn times(count: u16, ticks: u32) -> u32
    ensures { result ≡ spec.most (count * ticks) }
{
    u32::from(count).saturating_mul(ticks).min(MOST)
}

/// How long a frame takes at worst, in ticks of 0.1 µs, 100 s where it is more, where no gap is longer than this and a
/// call of each name in scope takes as long as its number says.
fn ticks_in<'a, A: Allocator + Clone>(frame: &'a Frame<A>, gap: u16, scope: &'a Scope<'a>) -> u32
    ensures { result ≡ spec.most (spec.ticks_in gap (scope_of scope.now) (tree_of frame.now)) }
{
    match frame {
        Frame::Send { message, .. } => spent(gap, message),
        Frame::Retry { count, message, .. } => times(u16::from(*count) + 1, spent(gap, message)),
        Frame::Gap(_) => 0,
        Frame::Repeat { count, body } => times(*count, ticks_in(body, gap, scope)),
        Frame::Until { count, body, .. } => times(*count, ticks_in(body, gap, scope)),
        Frame::Timed { hundreds, body } => {
            ticks_in(body, gap, scope).max(1000 * u32::from(*hundreds))
        }
        Frame::If {
            then,
            otherwise,
            ..
        } => ticks_in(then, gap, scope).max(ticks_in(otherwise, gap, scope)),
        Frame::Seq(frames) => {
            let mut total = 0;
            for one in frames {
                total = (total + ticks_in(one, gap, scope)).min(MOST);
            }
            total
        }
        Frame::Call(name) => scope.number_of(name).min(MOST),
        Frame::Define { name, body, rest } => {
            ticks_in(
                rest,
                gap,
                &Scope::With(name, ticks_in(body, gap, scope), scope),
            )
        }
    }
}

/// Adds the frames with a period of a frame, in the order of the text, where no gap is longer than this and a call of
/// each name in scope takes as long as its number says.
fn add_frames<'a, A: Allocator + Clone>(
    found: &mut Vec<Timed>,
    frame: &'a Frame<A>,
    gap: u16,
    scope: &'a Scope<'a>,
) -> Result<(), AllocError>
    ensures { OnOk result (found.new.items
        ≡ found.old.items ++ spec.frames_in gap (scope_of scope.now) (tree_of frame.now)) }
{
    match frame {
        Frame::Send { .. } | Frame::Retry { .. } | Frame::Gap(_) | Frame::Call(_) => Ok(()),
        Frame::Repeat { body, .. } | Frame::Until { body, .. } => {
            add_frames(found, body, gap, scope)
        }
        Frame::Timed { hundreds, body } => {
            let ticks = ticks_in(body, gap, scope);
            found.push(Timed {
                hundreds: *hundreds,
                ticks,
            })?;
            add_frames(found, body, gap, scope)
        }
        Frame::If {
            then,
            otherwise,
            ..
        } => {
            add_frames(found, then, gap, scope)?;
            add_frames(found, otherwise, gap, scope)
        }
        Frame::Seq(frames) => {
            for one in frames {
                add_frames(found, one, gap, scope)?;
            }
            Ok(())
        }
        Frame::Define { name, body, rest } => {
            add_frames(found, body, gap, scope)?;
            let ticks = ticks_in(body, gap, scope);
            add_frames(found, rest, gap, &Scope::With(name, ticks, scope))
        }
    }
}

/// Keeps the frame of this place where it takes longer than its period.
fn note_tight(tight: &mut Vec<Tight>, place: usize, frame: &Timed) -> Result<(), AllocError>
    ensures { OnOk result (tight.new.items ≡ tight.old.items ++ spec.tight_at place frame.now) }
{
    if 1000 * u32::from(frame.hundreds) < frame.ticks {
        tight.push(Tight {
            place,
            hundreds: frame.hundreds,
            ticks: u64::from(frame.ticks),
        })?;
    }
    Ok(())
}

/// Those of these frames that take longer than their period, counted from 1.
fn tight_of(alloc: Global, frames: &[Timed]) -> Result<Vec<Tight>, AllocError>
    ensures { IfOk result (λ l. l.items ≡ spec.tight_from 1 frames.now) }
{
    let mut tight = Vec::new(alloc);
    let mut place = 0;
    for one in frames {
        place += 1;
        note_tight(&mut tight, place, one)?;
    }
    Ok(tight)
}

/// The frames with a period of a script whose body takes longer than the period at worst: every reply comes with the
/// longest response time, 12.0 µs, in front of every message stands the longest gap, every retry is used up, an `until`
/// runs all its turns, an `if` takes the branch that is longer, and a call takes as long as the body of its definition,
/// whose frames count once. Planned faults are not counted. This is a tally of the script: that a frame which is not
/// among these ends in time where no fault is planned is what it is meant for, and no contract says it. It fails for
/// want of memory alone.
pub fn tight_frames<A: Allocator + Clone>(
    alloc: Global,
    frame: &Frame<A>,
) -> Result<Vec<Tight>, AllocError>
    ensures { IfOk result (λ l. l.items ≡ spec.tight_frames (tree_of frame.now)) }
{
    let gap = LONGER_GAP.max(set_gap(frame));
    let mut found = Vec::new(alloc);
    add_frames(&mut found, frame, gap, &Scope::Empty)?;
    tight_of(alloc, found.as_slice())
}
