//! Which message a record may be of, and which one that is no transfer between terminals.

use crate::breaks::broken_off;
use crate::transfers::{other_end, transfer};
use crate::wanted::Wanted;
use arrayvec::ArrayVec;
use mil_message::Message;
use mil_status::BlockBits;
use mil_word::{Command, Status};

/// The address of commands to all terminals (MIL-STD-1553B 4.3.3.5.1.2).
pub(crate) const ALL: u8 = 31;

/// How many guesses there are at most.
pub(crate) const GUESSES: u8 = 13;

/// The mode codes from which on a mode command has a data word (MIL-STD-1553B 4.3.3.5.1.7).
pub(crate) const WITH_WORD: u8 = 16;

/// The mode codes that ask for the vector word, and that bring a word to synchronize by.
const VECTOR: usize = 16;

const SYNCHRONIZE: usize = 17;

/// The bits of a status word that are zero (MIL-STD-1553B 4.3.3.5.3.6).
pub(crate) const RESERVED: u16 = 0xE0;

/// The numbers of the forms of a message.
const TO_TERMINAL: u8 = 0;

const FROM_TERMINAL: u8 = 1;

const MODE: u8 = 3;

const MODE_FROM: u8 = 4;

const MODE_TO: u8 = 5;

const TO_ALL: u8 = 6;

const MODE_ALL: u8 = 8;

const MODE_ALL_TO: u8 = 9;

/// A message that may have been sent, and how many of the recorded words are then the controller's.
#[derive(Drop)]
pub(crate) struct Guess {
    pub(crate) message: Message,
    pub(crate) sent: usize,
    /// The command word that the terminal that replies hears, where it is not the message's.
    pub(crate) heard: Option<u16>,
    /// Whether the first word was left out.
    pub(crate) is_headless: bool,
    /// The place of the word that is a command where a data word is due.
    pub(crate) command_at: Option<usize>,
}

impl Guess {
    /// A message of which so many words are the controller's.
    pub(crate) fn of(message: Message, sent: usize) -> Guess {
        Guess {
            message,
            sent,
            heard: None,
            is_headless: false,
            command_at: None,
        }
    }
}

/// A command word of these fields.
pub(crate) fn command(address: u8, transmit: bool, subaddress: u8, count: usize) -> u16 {
    let direction = if transmit { 1024u16 } else { 0 };
    u16::from(address % 32) * 2048
        + direction
        + u16::from(subaddress % 32) * 32
        + (count % 32) as u16
}

/// A subaddress of data words: that of a command, or else 1.
pub(crate) fn data_subaddress(command: Command) -> u8 {
    if command.is_mode() {
        1
    } else {
        command.subaddress()
    }
}

/// A receive command with these words.
pub(crate) fn receive(address: u8, subaddress: u8, words: &[u16]) -> Option<Message> {
    let form = if address == ALL { TO_ALL } else { TO_TERMINAL };
    let first = command(address, false, subaddress, words.len());
    Message::of_parts(form, first, 0, words)
}

/// So many words from a place on, zeros where there are fewer.
pub(crate) fn data(wanted: &Wanted, from: usize, count: usize) -> ArrayVec<u16, 32> {
    let mut words = ArrayVec::new();
    for place in 0..count.min(32) {
        // There is room for each of them.
        let _ = words.try_push(wanted.word(from.saturating_add(place)));
    }
    words
}

/// The mode command that a command word spells, with a data word where it has one.
fn mode(own: Command, word: u16) -> Option<Message> {
    let with_word = own.code() >= WITH_WORD;
    let to_all = own.is_broadcast();
    let value = own.value();
    match (own.is_transmit(), with_word, to_all) {
        (true, false, false) => Message::of_parts(MODE, value, 0, &[]),
        (true, true, false) => Message::of_parts(MODE_FROM, value, 0, &[]),
        (true, false, true) => Message::of_parts(MODE_ALL, value, 0, &[]),
        (false, true, false) => Message::of_parts(MODE_TO, value, 0, &[word]),
        (false, true, true) => Message::of_parts(MODE_ALL_TO, value, 0, &[word]),
        _ => None,
    }
}

/// The message that the word at a place spells, with the words behind it.
fn spelled_at(wanted: &Wanted, place: usize) -> Option<Message> {
    if wanted.count() <= place {
        return None;
    }
    spelled_by(
        wanted,
        Command::of(wanted.word(place)),
        place.saturating_add(1),
    )
}

/// The message of a command, with the words from a place on.
fn spelled_by(wanted: &Wanted, own: Command, behind: usize) -> Option<Message> {
    if own.is_mode() {
        return mode(own, wanted.word(behind));
    }
    if own.is_transmit() {
        return Message::of_parts(FROM_TERMINAL, own.value(), 0, &[]);
    }
    let words = data(wanted, behind, usize::from(own.count()));
    receive(own.address(), own.subaddress(), words.as_slice())
}

/// The lawful mode command that is like the first word.
fn like_mode(wanted: &Wanted) -> Option<Message> {
    let own = Command::of(wanted.word(0));
    let address = own.address();
    let with_word = own.code() >= WITH_WORD;
    if !own.is_mode() {
        return short(wanted);
    }
    let value = match (own.is_transmit(), with_word) {
        (true, true) => command(address, true, 0, VECTOR),
        (true, false) | (false, false) => command(address, true, 0, usize::from(own.code())),
        (false, true) => command(address, false, 0, SYNCHRONIZE),
    };
    mode(Command::of(value), wanted.word(1))
}

/// The address that a message without a reply may have been sent to: that of the first word, where a reply was due
/// exactly if there is one address.
fn address_for(wanted: &Wanted) -> u8 {
    let own = Command::of(wanted.word(0));
    if !wanted.has(BlockBits::RESPONSE_TIMEOUT) {
        ALL
    } else if own.is_broadcast() {
        ALL - 1
    } else {
        own.address()
    }
}

/// A receive command with so many words, in the place of what the first word spells.
fn received_with(wanted: &Wanted, count: usize) -> Option<Message> {
    if count == 0 || count > 32 {
        return None;
    }
    let words = data(wanted, 1, count);
    let subaddress = data_subaddress(Command::of(wanted.word(0)));
    receive(address_for(wanted), subaddress, words.as_slice())
}

/// A message of one word.
fn short(wanted: &Wanted) -> Option<Message> {
    let address = address_for(wanted);
    let form = if address == ALL { MODE_ALL } else { MODE };
    Message::of_parts(form, command(address, true, 0, 1), 0, &[])
}

/// A message whose first word was left out.
fn headless(wanted: &Wanted) -> Option<Message> {
    let address = if wanted.has(BlockBits::RESPONSE_TIMEOUT) {
        ALL - 1
    } else {
        ALL
    };
    let words = data(wanted, 0, wanted.count());
    receive(address, 1, words.as_slice())
}

/// A guess of a message that is no transfer between terminals.
fn single(wanted: &Wanted, which: u8) -> Option<Guess> {
    if wanted.came(1) {
        answered(wanted, which)
    } else {
        unanswered(wanted, which)
    }
}

/// A guess of a message without a reply.
fn unanswered(wanted: &Wanted, which: u8) -> Option<Guess> {
    let count = wanted.count();
    let message = match which {
        0 => spelled_at(wanted, 0),
        1 => received_with(wanted, count.saturating_sub(1)),
        2 if count == 1 => short(wanted),
        3 if count > 0 => headless(wanted),
        4 if count == 0 => short(wanted),
        5 => received_with(wanted, count),
        6 => received_with(wanted, count.saturating_sub(2)),
        7 => like_mode(wanted),
        _ => None,
    }?;
    let mut found = Guess::of(message, count);
    found.is_headless = which == 3;
    Some(found)
}

/// A guess of a message with a reply: the first word has its command, or one behind it, or another was sent in its
/// place, of which the line made what was heard.
fn answered(wanted: &Wanted, which: u8) -> Option<Guess> {
    let count = wanted.count();
    match which {
        0 => plainly_answered(wanted),
        1 => longer(wanted, count.saturating_sub(1)),
        2 => superseded(wanted),
        3 => {
            let message = like_mode(wanted)?;
            let sent = message.controller_count();
            Some(disguised(wanted, message, sent))
        }
        4 => Some(disguised(wanted, other_transmit(wanted)?, 1)),
        5 => Some(disguised(wanted, receive(heard_address(wanted), 1, &[0])?, 1)),
        6 => {
            let all = Message::of_parts(MODE_ALL, command(ALL, true, 0, 1), 0, &[])?;
            Some(disguised(wanted, all, 1))
        }
        7 => Some(disguised(wanted, receive(ALL, 1, &[0])?, 1)),
        8 => longer(wanted, count.saturating_sub(2)),
        9 => overheard(wanted),
        10 => broken_off(wanted, true),
        11 => broken_off(wanted, false),
        12 => elsewhere(wanted),
        _ => None,
    }
}

/// The message that the first word spells, with its reply behind it.
fn plainly_answered(wanted: &Wanted) -> Option<Guess> {
    let message = spelled_at(wanted, 0)?;
    let sent = message.controller_count();
    Some(Guess::of(message, sent))
}

/// The same, where more words are the controller's than are due.
fn longer(wanted: &Wanted, sent: usize) -> Option<Guess> {
    let message = spelled_at(wanted, 0)?;
    if sent <= message.controller_count() {
        return None;
    }
    Some(Guess::of(message, sent))
}

/// The message that the second word spells, where the first was another.
fn superseded(wanted: &Wanted) -> Option<Guess> {
    let message = spelled_at(wanted, 1)?;
    let sent = message.controller_count() + 1;
    Some(Guess {
        message,
        sent,
        heard: Some(wanted.word(1)),
        is_headless: false,
        command_at: None,
    })
}

/// The message that the first word spells, where a word behind its own is a command to a terminal that then replies.
fn overheard(wanted: &Wanted) -> Option<Guess> {
    let message = spelled_at(wanted, 0)?;
    let own = message.controller_count();
    for place in own..wanted.count().saturating_sub(1) {
        let (word, next) = (wanted.word(place), wanted.word(place.saturating_add(1)));
        if Command::of(word).address() == Status::of(next).address() && next & RESERVED == 0 {
            return Some(Guess {
                message,
                sent: place.saturating_add(1),
                heard: Some(word),
                is_headless: false,
                command_at: None,
            });
        }
    }
    None
}

/// The message that the first word spells, but to another terminal: its address was altered.
fn elsewhere(wanted: &Wanted) -> Option<Guess> {
    let own = Command::of(wanted.word(0));
    if wanted.count() == 0 || own.is_broadcast() {
        return None;
    }
    let address = other_end(own.address());
    let count = usize::from(own.code());
    let other = command(address, own.is_transmit(), own.subaddress(), count);
    let message = spelled_by(wanted, Command::of(other), 1)?;
    let sent = message.controller_count();
    Some(disguised(wanted, message, sent))
}

/// A message in whose place the first word was heard.
fn disguised(wanted: &Wanted, message: Message, sent: usize) -> Guess {
    Guess {
        message,
        sent,
        heard: Some(wanted.word(0)),
        is_headless: false,
        command_at: None,
    }
}

/// The address of the terminal that heard the first word.
fn heard_address(wanted: &Wanted) -> u8 {
    Command::of(wanted.word(0)).address().min(ALL - 1)
}

/// A transmit command for another number of words than came.
fn other_transmit(wanted: &Wanted) -> Option<Message> {
    let count = if wanted.count() == 3 { 2 } else { 1 };
    let first = command(heard_address(wanted), true, 1, count);
    Message::of_parts(FROM_TERMINAL, first, 0, &[])
}

/// A message that a record may be of, the likeliest first; None where there is no such guess.
pub(crate) fn guess_at(wanted: &Wanted, which: u8) -> Option<Guess> {
    if wanted.is_transfer() {
        transfer(wanted, which)
    } else {
        single(wanted, which)
    }
}
