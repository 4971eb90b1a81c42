//! Messages whose data words another command breaks off.

use crate::answering::reply_place;
use crate::cases::sent_by;
use crate::guesses::{Guess, RESERVED, data, receive};
use crate::wanted::Wanted;
use mil_word::{Command, Status};

/// The place of the reply to the command that the word at a place may be, where the record ends with that reply: with
/// the data words that are due, or with the status word alone.
fn reply_to(wanted: &Wanted, place: usize) -> Option<usize> {
    let own = Command::of(wanted.word(place));
    let reply = place.saturating_add(reply_place(own));
    let behind = wanted.count().checked_sub(reply.saturating_add(1))?;
    let status = wanted.word(reply);
    let is_whole = behind == 0 || behind == sent_by(own);
    if is_whole && Status::of(status).address() == own.address() && status & RESERVED == 0 {
        Some(reply)
    } else {
        None
    }
}

/// A receive command whose data words a command breaks off, to a terminal that then replies. The message has the words
/// that came up to that command, with `is_short`, or up to the reply. Where the first word asks for more, it was
/// altered.
pub(crate) fn broken_off(wanted: &Wanted, is_short: bool) -> Option<Guess> {
    let own = Command::of(wanted.word(0));
    if own.is_transmit() || own.is_mode() {
        return None;
    }
    for place in 1..wanted.count() {
        let Some(reply) = reply_to(wanted, place) else {
            continue;
        };
        let count = if is_short {
            place
        } else {
            reply.saturating_sub(1)
        };
        let words = data(wanted, 1, count);
        let message = receive(own.address(), own.subaddress(), words.as_slice())?;
        return Some(Guess {
            message,
            sent: reply,
            heard: Some(wanted.word(place)),
            is_headless: false,
            command_at: Some(place),
        });
    }
    None
}
