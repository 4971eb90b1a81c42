//! A way to explain a record: a message that it may be of, and how it came about.

use crate::guesses::{Guess, WITH_WORD};
use crate::hosts::Reply;
use crate::outlook::bit;
use crate::styles::Style;
use crate::wanted::Wanted;
use arrayvec::ArrayVec;
use mil_bus::Talk;
use mil_message::Message;
use mil_status::BlockBits;
use mil_word::{Command, raw_bits};

/// What is tried.
#[derive(Clone, Copy)]
pub(crate) struct Case<'c> {
    pub(crate) wanted: &'c Wanted,
    pub(crate) guess: &'c Guess,
    pub(crate) style: Style,
    /// The place of the next message in the recording.
    pub(crate) next: usize,
}

/// The words of a run of a talk.
pub(crate) fn words_of(talk: &Talk, run: u32) -> ArrayVec<u16, 40> {
    let mut words = ArrayVec::new();
    let sent = talk.sent.list();
    for word in sent.as_slice() {
        if u32::from(word.run) == run {
            // There is room for each of them.
            let _ = words.try_push(raw_bits(word.wave));
        }
    }
    words
}

/// How many data words a terminal sends for a command.
pub(crate) fn sent_by(command: Command) -> usize {
    if !command.is_transmit() {
        0
    } else if command.is_mode() {
        usize::from(command.code() >= WITH_WORD)
    } else {
        usize::from(command.count())
    }
}

/// How many replies are due.
pub(crate) fn due_count(message: &Message) -> u32 {
    message.replies_due().as_slice().len().min(2) as u32
}

impl<'c> Case<'c> {
    /// The message that it may be of.
    pub(crate) fn message(&self) -> &'c Message {
        &self.guess.message
    }

    /// The command that a reply answers.
    pub(crate) fn command(&self, run: u32) -> Command {
        if let Some(heard) = self.guess.heard {
            return Command::of(heard);
        }
        let commands = self.message().commands();
        match commands.second {
            Some(second) if run == 1 => second,
            _ => commands.first,
        }
    }

    /// Whether a command breaks off the data words of the controller.
    pub(crate) fn breaks_off(&self) -> bool {
        self.guess.command_at.is_some()
    }

    /// How many of the controller's words are commands.
    pub(crate) fn commands(&self) -> usize {
        if self.message().commands().second.is_some() {
            2
        } else {
            1
        }
    }

    /// How many data words a reply is due.
    pub(crate) fn due_words(&self, run: u32) -> usize {
        if let Some(heard) = self.guess.heard {
            return sent_by(Command::of(heard));
        }
        let due = self.message().replies_due();
        match due.as_slice().get(if run == 1 { 0 } else { 1 }) {
            Some(due) => usize::from(due.words),
            None => 0,
        }
    }

    /// The recorded words of a reply. Where a second one came, the first has as many words as are due.
    pub(crate) fn reply_words(&self, run: u32) -> &'c [u16] {
        let (wanted, sent) = (self.wanted, self.guess.sent);
        if !wanted.came(run) {
            return &[];
        }
        if !wanted.came(2) {
            return wanted.part(sent, wanted.count());
        }
        let border = sent.saturating_add(self.due_words(1)).saturating_add(1);
        if run == 1 {
            wanted.part(sent, border)
        } else {
            wanted.part(border, wanted.count())
        }
    }

    /// A reply as it was recorded, if it came with a word.
    pub(crate) fn reply(&self, run: u32) -> Option<Reply<'c>> {
        let (status, words) = self.reply_words(run).split_first()?;
        let due = self.due_words(run).min(words.len());
        Some(Reply {
            run,
            command: self.command(run),
            line: self.wanted.line,
            status: *status,
            words: &words[..due],
            gap: self.wanted.gap(run),
            is_odd: self.wanted.has_odd_word(),
            is_unsound: self.wanted.has(BlockBits::INVALID_WORD_ERROR),
        })
    }

    /// Whether the message is for all terminals.
    pub(crate) fn is_to_all(&self) -> bool {
        self.message().commands().first.is_broadcast()
    }

    /// Whether each terminal that it is for has shown its status word in a sound message.
    pub(crate) fn shows_all(&self) -> bool {
        let count = due_count(self.message());
        !self.is_to_all()
            && !self.wanted.has_odd_word()
            && (count < 1 || self.wanted.came(1))
            && (count < 2 || self.wanted.came(2))
    }

    /// The terminals that it is for, among these.
    pub(crate) fn concerned(&self, present: u32) -> u32 {
        if self.is_to_all() {
            return present;
        }
        let due = self.message().replies_due();
        let mut addresses = 0u32;
        for reply in due.as_slice() {
            addresses |= bit(reply.address);
        }
        addresses & present
    }
}
