//! Which terminals answered.

use crate::guesses::ALL;
use crate::hearing::Heard;
use ch11_layout::View;
use mil_line::MOST_SENT;
use mil_word::{Command, Status};
use std::alloc::{AllocError, Global};

/// Notes a terminal whose address a command and a word have that may be its status word; whether it is one.
fn note(answered: &mut [bool; 32], command: u16, status: u16) -> bool {
    let address = Command::of(command).address();
    let is_own = Status::of(status).address() == address && address < ALL;
    if is_own {
        answered[usize::from(address % 32)] = true;
    }
    is_own
}

/// Where the reply to a command word stands that is no transfer.
pub(crate) fn reply_place(command: Command) -> usize {
    if command.is_mode() {
        if !command.is_transmit() && command.code() >= 16 {
            2
        } else {
            1
        }
    } else if command.is_transmit() {
        1
    } else {
        usize::from(command.count()).saturating_add(1)
    }
}

/// Notes the terminals whose replies a message has. Behind an error it may be any terminal to which a word in front of
/// the last one is a command, or that which is called.
fn note_replies(answered: &mut [bool; 32], view: &View<'_>) {
    if view.first_gap() == 0 {
        return;
    }
    let last = view.word_count().saturating_sub(1);
    if view.is_transfer() {
        let sender = note(answered, view.word(1), view.word(2));
        let receiver = note(answered, view.word(0), view.word(last));
        if !sender && !receiver {
            // (a command has the address of the terminal that it calls)
            let _ = note(answered, view.word(1), view.word(1));
        }
        return;
    }
    let own = view.word(0);
    if note(answered, own, view.word(reply_place(Command::of(own)))) {
        return;
    }
    for place in 0..last.min(MOST_SENT) {
        // Whichever of them it is, the next ones are looked at too.
        let _ = note(answered, view.word(place), view.word(last));
    }
    // (a command has the address of the terminal that it calls)
    let _ = note(answered, own, own);
}

/// The terminals that answered, in the order of their addresses.
pub(crate) fn answering(alloc: Global, heard: &Heard) -> Result<Vec<u8>, AllocError> {
    let mut answered = [false; 32];
    for place in 0..heard.len() {
        note_replies(&mut answered, &heard.at(place).view());
    }
    let mut addresses = Vec::new(alloc);
    for address in 0..ALL {
        if answered[usize::from(address)] {
            addresses.push(address)?;
        }
    }
    Ok(addresses)
}
