//! Which transfer between terminals a record may be of.

use crate::guesses::{ALL, Guess, RESERVED, command, data_subaddress};
use crate::wanted::Wanted;
use mil_message::Message;
use mil_status::BlockBits;
use mil_word::{Command, Status};

/// The numbers of the forms of a transfer.
const BETWEEN: u8 = 2;

const BETWEEN_ALL: u8 = 7;

/// The terminals of a transfer, and how many words it has.
#[derive(Clone, Copy)]
struct Ends {
    receiver: u8,
    to: u8,
    sender: u8,
    from: u8,
    count: u8,
}

/// A transfer between terminals.
fn between(ends: Ends) -> Option<Message> {
    let count = usize::from(ends.count);
    let form = if ends.receiver == ALL {
        BETWEEN_ALL
    } else {
        BETWEEN
    };
    let first = command(ends.receiver, false, ends.to, count);
    let second = command(ends.sender, true, ends.from, count);
    Message::of_parts(form, first, second, &[])
}

/// A terminal that may be the other end.
pub(crate) fn other_end(address: u8) -> u8 {
    if address == 0 { 1 } else { 0 }
}

/// The receiver of a transfer of which the command to it is not known: all terminals, where one reply was due and came.
fn unknown_receiver(wanted: &Wanted, sender: u8) -> u8 {
    if wanted.has(BlockBits::RESPONSE_TIMEOUT) || wanted.came(2) {
        other_end(sender)
    } else {
        ALL
    }
}

/// The ends that two commands have, with the count of the one or the other. `altered`: the first of them was altered on
/// the line, so that its address tells nothing.
fn both_ends(
    wanted: &Wanted,
    own: Command,
    second: Command,
    by_first: bool,
    altered: bool,
) -> Ends {
    let sender = second.address().min(ALL - 1);
    let receiver = if altered || own.address() == sender {
        unknown_receiver(wanted, sender)
    } else {
        own.address()
    };
    let counted = if by_first { own } else { second };
    Ends {
        receiver,
        to: data_subaddress(own),
        sender,
        from: data_subaddress(second),
        count: counted.count(),
    }
}

/// The ends of a transfer whose first command, or whose second, was left out.
fn one_end(wanted: &Wanted, which: u8) -> Ends {
    let own = Command::of(wanted.word(0));
    let address = own.address().min(ALL - 1);
    let (receiver, sender) = if which == 2 {
        (unknown_receiver(wanted, address), address)
    } else {
        (own.address(), other_end(own.address()))
    };
    let subaddress = data_subaddress(own);
    Ends {
        receiver,
        to: subaddress,
        sender,
        from: subaddress,
        count: own.count(),
    }
}

/// The place of the second command where words were added in front of it: its terminal replies behind it.
fn later_command(wanted: &Wanted) -> Option<usize> {
    if !wanted.came(1) {
        return None;
    }
    for place in 2..wanted.count().saturating_sub(1) {
        let command = Command::of(wanted.word(place));
        let status = wanted.word(place.saturating_add(1));
        let is_own = Status::of(status).address() == command.address();
        if command.is_transmit() && !command.is_broadcast() && is_own && status & RESERVED == 0 {
            return Some(place);
        }
    }
    None
}

/// The ends that the first command and a later one have, and how many words are then the controller's.
fn far_ends(wanted: &Wanted, own: Command, by_first: bool, altered: bool) -> Option<(Ends, usize)> {
    let place = later_command(wanted)?;
    let second = Command::of(wanted.word(place));
    let ends = both_ends(wanted, own, second, by_first, altered);
    Some((ends, place.saturating_add(1)))
}

/// A guess of a transfer between terminals.
pub(crate) fn transfer(wanted: &Wanted, which: u8) -> Option<Guess> {
    let (own, second) = (Command::of(wanted.word(0)), Command::of(wanted.word(1)));
    let (ends, commands) = match which {
        0 => (both_ends(wanted, own, second, false, false), 2),
        1 => (both_ends(wanted, own, second, true, false), 2),
        2 | 3 => (one_end(wanted, which), 1),
        4 => (both_ends(wanted, own, second, false, false), 3),
        5 => (both_ends(wanted, own, second, false, true), 2),
        6 => (both_ends(wanted, own, second, true, true), 2),
        7 => far_ends(wanted, own, false, false)?,
        8 => far_ends(wanted, own, true, false)?,
        9 => far_ends(wanted, own, false, true)?,
        10 => far_ends(wanted, own, true, true)?,
        11 if !wanted.came(2) => (both_ends(wanted, own, second, true, false), 2),
        _ => return None,
    };
    let message = between(ends)?;
    let sent = if wanted.came(1) {
        commands
    } else {
        wanted.count()
    };
    let mut found = Guess::of(message, sent);
    found.is_headless = which == 2;
    if which == 11 {
        // The sender heard another count than the receiver.
        found.heard = Some(second.value());
    }
    Some(found)
}
