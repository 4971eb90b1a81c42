//! Lines posted while a run goes on.
ghost use Rattle.bench_live.specs.Posting.{IsCallDone};
ghost use Rattle.bench_live.specs.Posting.{IsHandOf, AreHandsOf, as_post, is_channel, LeavesHand, IsLineDone};
ghost use Rattle.bench_mail.specs.Mail.{posted};
ghost use Rattle.std.specs.List.{position_or_len};
ghost use Rattle.std.specs.Prelude.{◌≡◌, ◌<◌, ◌≤◌, ◌^◌, ◌∷◌, ◌++◌, [], length, IfOk, IfErr, OnOk};

use crate::desk::{Desk, Hand};
use crate::line::{LivePost, read_post};
use bench_mail::{Mailbox, PostError};
use bench_settings::MOST_POSTS;
use mil_host::BadAction;
use std::alloc::Global;
use std::io::BufRead;
use std::rt::Clock;
use std::sync::Wait;
use std::sync::atomic::{AtomicU32, Ordering};
use std::time::Duration;
use std::{io, thread};
use text_lines::without_end;

/// How many milliseconds lie between two tries at a full mailbox.
const PAUSE: u64 = 1;

/// Why a line was not posted.
#[derive(Clone, Copy, Debug, PartialEq, Eq)]
pub enum PostFault {
    /// H1 to H3: the line asks for no action.
    Line(BadAction),
    /// No job has the channel.
    NoChannel(u16),
    /// E3: the job has no terminal at the address.
    NoTerminal,
    /// `MOST_POSTS` actions were posted to the channel.
    Spent(u16),
    /// The script of the channel has ended.
    Ended(u16),
}

/// A line that was not posted.
#[derive(Clone, Copy, Debug, PartialEq, Eq)]
pub struct Told {
    /// The number of the line, from 1.
    pub number: u64,
    pub fault: PostFault,
}

/// Posts an action to a channel; where its mailbox is full, a little later again, until its script has ended.
fn post_to<R: Wait + Clock>(
    rt: &R,
    mailbox: &Mailbox,
    ended: &AtomicU32,
    hand: &mut Hand,
    post: LivePost,
) -> Result<(), PostFault>
    requires hand { IsHandOf mailbox.now hand.old }
    ensures hand { IsHandOf mailbox.now hand.new }
    ensures posted { OnOk result (posted hand.new.poster ≡ posted hand.old.poster ++ as_post post ∷ []) }
    ensures refused { IfErr result (LeavesHand mailbox.now hand.old hand.new post) }
{
    let LivePost {
        channel,
        mut action,
    } = post;
    if hand.count >= MOST_POSTS {
        return Err(PostFault::Spent(channel));
    }
    for _ in rt.forever() {
        if ended.load(Ordering::SeqCst) > 0 {
            return Err(PostFault::Ended(channel));
        }
        match mailbox.post(rt, &mut hand.poster, 0, action) {
            Ok(()) => {
                hand.count += 1;
                return Ok(());
            }
            Err(PostError::NoTerminal { .. }) => return Err(PostFault::NoTerminal),
            Err(PostError::Full { action: back }) => {
                action = back;
                thread::sleep(rt, Duration::from_millis(PAUSE));
            }
        }
    }
    unreachable!()
}

/// The place of a channel; how many there are where it stands nowhere.
pub(crate) fn place_of(channels: &[u16], channel: u16) -> usize
    ensures value { result ≡ position_or_len (is_channel channel) channels.now }
    ensures within { result ≤ length channels.now }
{
    for (i, one) in channels.iter().enumerate() {
        if *one == channel {
            return i;
        }
    }
    channels.len()
}

/// Posts what a line asks for to its channel.
fn post_line<R: Wait + Clock>(
    rt: &R,
    desk: &Desk,
    hands: &mut Vec<Hand>,
    line: &[u8],
) -> Result<(), PostFault>
    requires hands { AreHandsOf desk.now hands.old.items }
    ensures hands { AreHandsOf desk.now hands.new.items }
    ensures done { IsLineDone desk.now line.now hands.old.items hands.new.items result }
{
    let post = match read_post(line) {
        Ok(post) => post,
        Err(fault) => return Err(PostFault::Line(fault)),
    };
    let place = place_of(&desk.channels, post.channel);
    if place >= desk.channels.len() {
        return Err(PostFault::NoChannel(post.channel));
    }
    post_to(
        rt,
        &desk.boxes[place],
        &desk.ended[place],
        &mut hands[place],
        post,
    )
}

/// The number of a line has the size of its type.
fn number_fits(number: u64)
    ensures { number < 2 ^ 64 }
{}

/// Reads lines and posts what they ask for, each once and in their order, up to the end of the input or to the first
/// line that is not posted, which is answered with its number and its fault. `number` counts the lines, up to 2^64 - 1:
/// it is the number of the last line that was read before. A last line needs no LF. Fault: the reader's, or want of
/// memory for a line, behind the lines that were posted.
pub fn next_fault<R: Wait + Clock, B: BufRead>(
    rt: &R,
    alloc: Global,
    desk: &Desk,
    hands: &mut Vec<Hand>,
    input: &mut B,
    number: &mut u64,
) -> io::Result<Option<Told>>
    requires hands { AreHandsOf desk.now hands.old.items }
    ensures hands { AreHandsOf desk.now hands.new.items }
    ensures done { IfOk result (IsCallDone desk.now number.old number.new (B.remaining input.old)
        (B.remaining input.new) hands.old.items hands.new.items) }
{
    number_fits(*number);
    let mut line = Vec::new(alloc);
    'lines: for _ in rt.forever() {
        line.clear();
        if input.read_until(b'\n', &mut line)? == 0 {
            return Ok(None);
        }
        *number = number.saturating_add(1);
        if let Err(fault) = post_line(rt, desk, hands, without_end(&line)) {
            return Ok(Some(Told {
                number: *number,
                fault,
            }));
        }
    }
    unreachable!()
}
