//! Status words and response times.
ghost use Rattle.bench_decode.specs.BitText.{status_names};
ghost use Rattle.bench_decode.specs.ReplyText as spec;
ghost use Rattle.bench_decode.specs.Waiting.{drawn_on};
ghost use Rattle.mil_word.specs.Fields.{address_of};
ghost use Rattle.ch11_layout.specs.Layouts.{word_of};
ghost use Rattle.ch11_layout.specs.Replies.{front_reply};
ghost use Rattle.std.specs.Prelude.{◌≡◌, ◌+◌, ◌<◌, ◌≤◌, ◌||◌, length, is_some};

use crate::fields::put_name;
use crate::line::{SIZE, TextLine};
use crate::superseding::has_reserved;
use ch11_layout::{Reply, View};
use mil_word::Status;

/// How many bytes a gap, a status word with its gap, and all status words of a message take at most.
pub(crate) const GAP: usize = 26;

pub(crate) const REPLY: usize = 176;

pub(crate) const REPLIES: usize = 512;

/// Puts the status words of a message, each with the names of its bits and its response time.
#[inline]
pub(crate) fn put_replies(line: &mut TextLine, view: &View<'_>)
    requires { length line.old.text + REPLIES ≤ SIZE }
    ensures put { line.new ≡ drawn_on line.old (spec.replies_parts view.now) }
    ensures few { length line.new.text ≤ length line.old.text + REPLIES }
{
    let front = put_entry(line, false, view.front_reply());
    let back = put_entry(line, front, view.back_reply());
    let first = put_missing(line, back, first_left(view));
    let second = put_missing(line, first, second_left(view));
    put_none(line, second);
}

/// The gap of the first reply, 0 where a status word stands behind it.
fn first_left(view: &View<'_>) -> u8
    ensures { result ≡ spec.first_left view.now }
{
    if first_told(view) {
        0
    } else {
        view.first_gap()
    }
}

/// Whether a status word stands behind the gap of the first reply.
fn first_told(view: &View<'_>) -> bool
    ensures { result ≡ spec.first_told view.now }
{
    view.front_reply().is_some() || view.back_reply().is_some() && !view.is_transfer()
}

/// The gap of the second reply, 0 where a status word stands behind it.
fn second_left(view: &View<'_>) -> u8
    ensures { result ≡ spec.second_left view.now }
{
    if second_told(view) {
        0
    } else {
        view.second_gap()
    }
}

/// Whether a status word stands behind the gap of the second reply.
fn second_told(view: &View<'_>) -> bool
    ensures { result ≡ spec.second_told view.now }
{
    view.back_reply().is_some() && view.is_transfer()
}

/// Parts what follows from what stands there, if anything does.
fn part(line: &mut TextLine, any: bool)
    requires { length line.old.text + 2 ≤ SIZE }
    ensures put { line.new ≡ drawn_on line.old (spec.parting any) }
    ensures few { length line.new.text ≤ length line.old.text + 2 }
{
    if any {
        line.put(b", ");
    }
}

/// Puts a status word, if there is one, separated from what stands there, and answers whether anything does then.
fn put_entry(line: &mut TextLine, any: bool, reply: Option<Reply>) -> bool
    requires { length line.old.text + 178 ≤ SIZE }
    ensures put { line.new ≡ drawn_on line.old (spec.listed any (spec.entry_of reply)) }
    ensures any { result ≡ (any || spec.is_any (spec.entry_of reply)) }
    ensures few { length line.new.text ≤ length line.old.text + 178 }
{
    match reply {
        Some(reply) => {
            part(line, any);
            put_reply(line, reply);
            true
        }
        None => any,
    }
}

/// Puts a gap behind which no status word stands, if it is not 0, separated from what stands there, and answers whether
/// anything does then.
fn put_missing(line: &mut TextLine, any: bool, gap: u8) -> bool
    requires { length line.old.text + 48 ≤ SIZE }
    ensures put { line.new ≡ drawn_on line.old (spec.listed any (spec.lone_gap gap)) }
    ensures any { result ≡ (any || spec.is_any (spec.lone_gap gap)) }
    ensures few { length line.new.text ≤ length line.old.text + 48 }
{
    if gap == 0 {
        return any;
    }
    part(line, any);
    line.put(b"no status word");
    put_gap(line, gap);
    true
}

/// Puts '-' where nothing stands.
fn put_none(line: &mut TextLine, any: bool)
    requires { length line.old.text + 1 ≤ SIZE }
    ensures put { line.new ≡ drawn_on line.old (spec.or_none any) }
    ensures few { length line.new.text ≤ length line.old.text + 1 }
{
    if any {
        return;
    }
    line.put(b"-");
}

/// Puts the status word in front of the data words, if there is one.
pub(crate) fn put_front(line: &mut TextLine, view: &View<'_>)
    requires { length line.old.text + REPLY ≤ SIZE }
    ensures put { line.new ≡ drawn_on line.old (spec.front_parts (front_reply view.now)) }
    ensures few { length line.new.text ≤ length line.old.text + REPLY }
{
    match view.front_reply() {
        Some(reply) => put_reply(line, reply),
        None => {}
    }
}

/// The terminal address of a word, as a command or a status word has it.
pub(crate) fn address_at(view: &View<'_>, place: usize) -> u8
    ensures { result ≡ address_of (word_of view.now.bytes place) }
{
    Status::of(view.word(place)).address()
}

/// Puts a status word with the names of its bits and its response time.
#[inline]
pub(crate) fn put_reply(line: &mut TextLine, reply: Reply)
    requires { length line.old.text + REPLY ≤ SIZE }
    ensures put { line.new ≡ drawn_on line.old (spec.reply_parts reply) }
    ensures few { length line.new.text ≤ length line.old.text + REPLY }
{
    line.put_digits(reply.status);
    put_marks(line, reply);
    put_gap(line, reply.gap);
}

/// Whether a status word is of the terminal that is due.
fn is_due(reply: Reply) -> bool
    ensures { result ≡ spec.is_due reply }
{
    Status::of(reply.status).address() == reply.due
}

/// Whether a status word is of the terminal that is due, and none of its bits is set.
fn is_plain(reply: Reply) -> bool
    ensures { result ≡ spec.is_plain reply }
{
    is_due(reply) && reply.status % 2048 == 0
}

/// Puts whose a status word is, where another terminal's is due, and the names of its bits.
#[inline]
fn put_marks(line: &mut TextLine, reply: Reply)
    requires { length line.old.text + 133 ≤ SIZE }
    ensures put { line.new ≡ drawn_on line.old (spec.mark_parts reply) }
    ensures few { length line.new.text ≤ length line.old.text + 133 }
{
    if is_plain(reply) {
        return;
    }
    line.begin_red();
    put_sender(line, reply);
    put_bits(line, reply.status);
    line.end_red();
}

/// Puts the terminal that a status word is of, where another one is due.
fn put_sender(line: &mut TextLine, reply: Reply)
    requires { length line.old.text + 26 ≤ SIZE }
    ensures put { line.new ≡ drawn_on line.old (spec.sender_parts reply) }
    ensures few { length line.new.text ≤ length line.old.text + 26 }
{
    if is_due(reply) {
        return;
    }
    line.put_labelled(b" from ", u64::from(Status::of(reply.status).address()));
}

/// Puts the names of the bits of a status word that are set (MIL-STD-1553B 4.3.3.5.3).
fn put_bits(line: &mut TextLine, status: u16)
    requires { length line.old.text + 97 ≤ SIZE }
    ensures put { line.new ≡ drawn_on line.old (status_names status) }
    ensures few { length line.new.text ≤ length line.old.text + 97 }
{
    let word = Status::of(status);
    put_name(line, word.has_message_error(), b" message_error");
    put_name(line, word.has_instrumentation(), b" instrumentation");
    put_name(line, word.has_service_request(), b" service_request");
    put_name(line, has_reserved(status), b" reserved");
    put_name(line, word.has_broadcast_received(), b" broadcast");
    put_name(line, word.has_busy(), b" busy");
    put_name(line, word.has_subsystem_flag(), b" subsystem");
    put_name(line, word.has_control_acceptance(), b" control");
    put_name(line, word.has_terminal_flag(), b" terminal");
}

/// Puts a gap in microseconds.
pub(crate) fn put_gap(line: &mut TextLine, gap: u8)
    requires { length line.old.text + GAP ≤ SIZE }
    ensures put { line.new ≡ drawn_on line.old (spec.gap_parts gap) }
    ensures few { length line.new.text ≤ length line.old.text + GAP }
{
    line.put_small(gap / 10);
    line.put(&[b'.', b'0' + gap % 10, b' ', b'u', b's']);
}
