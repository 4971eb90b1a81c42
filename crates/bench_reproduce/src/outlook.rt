//! What the messages behind one tell of the terminals then: replies that show a status word, a last command or words
//! that were received before.

use crate::hearing::Heard;
use crate::ramps::Coming;
use crate::scene::Scene;
use arrayvec::ArrayVec;
use ch11_layout::View;
use mil_terminal::Terminal;
use mil_word::Command;

/// How many messages are looked at.
const REACH: usize = 200;

/// The mode codes that ask for the status word and for the last command, and leave both as they were (MIL-STD-1553B
/// 4.3.3.5.1.7.3, 4.3.3.5.1.7.13).
const STATUS: u8 = 2;

const LAST_COMMAND: u8 = 18;

/// The subaddress that sends what it received (MIL-STD-1553B Notice 2, 30.7).
pub(crate) const WRAPAROUND: u8 = 30;

/// What a terminal is known to hold behind a message.
#[derive(Clone, Copy, Debug, Default)]
pub(crate) struct Shown {
    pub(crate) address: u8,
    /// Its status word, if that is shown.
    pub(crate) status: Option<u16>,
    /// Its last command.
    pub(crate) last: Option<u16>,
    /// The place of the message that shows what it received at the wraparound subaddress.
    pub(crate) wrapped: Option<usize>,
}

/// What is known of terminals behind a message.
#[derive(Drop)]
pub(crate) struct Outlook<'a> {
    messages: &'a Heard,
    pub(crate) shown: ArrayVec<Shown, 32>,
}

/// Whether a command asks for the status word or the last command.
pub(crate) fn is_question(command: Command) -> bool {
    command.is_mode()
        && command.is_transmit()
        && (command.code() == STATUS || command.code() == LAST_COMMAND)
}

/// The bit of an address.
pub(crate) fn bit(address: u8) -> u32 {
    1u32 << (address % 32)
}

/// What a question and its reply show of its terminal.
fn answer_in(view: &View<'_>, command: Command) -> Shown {
    let mut shown = Shown {
        address: command.address(),
        status: None,
        last: None,
        wrapped: None,
    };
    if view.has_error() || view.word_count() < 2 {
        return shown;
    }
    shown.status = Some(view.word(1));
    if command.code() == LAST_COMMAND && view.word_count() == 3 {
        shown.last = Some(view.word(2));
    }
    shown
}

/// Where the data words of a reply begin.
fn data_place(view: &View<'_>) -> usize {
    if view.is_transfer() { 3 } else { 2 }
}

/// Whether a message has a command to which a terminal replies with data words.
fn asks(view: &View<'_>, command: Command) -> bool {
    view.word(data_place(view).saturating_sub(2)) == command.value()
}

/// The data words that a terminal sent for a command, zeros behind them, if the message is sound and has them.
fn sent_words(view: &View<'_>, command: Command) -> Option<[u16; 32]> {
    let from = data_place(view);
    let count = usize::from(command.count()).min(32);
    if view.has_error() || view.word_count() < from.saturating_add(count) {
        return None;
    }
    let mut words = [0u16; 32];
    for place in 0..count {
        words[place] = view.word(from.saturating_add(place));
    }
    Some(words)
}

impl<'a> Outlook<'a> {
    /// Nothing is known.
    pub(crate) fn none(messages: &'a Heard) -> Outlook<'a> {
        Outlook {
            messages,
            shown: ArrayVec::new(),
        }
    }

    /// What the messages from a place on show of the terminals with these addresses.
    pub(crate) fn look(&mut self, from: usize, addresses: u32) {
        self.shown.clear();
        let mut open = addresses;
        for ahead in 0..REACH {
            if open == 0 {
                break;
            }
            let Some(met) = self.messages.get(from.saturating_add(ahead)) else {
                break;
            };
            let view = met.view();
            open = self.meet(&view, open);
        }
    }

    /// What a message shows, and which terminals nothing was met of yet.
    fn meet(&mut self, view: &View<'_>, open: u32) -> u32 {
        if view.word_count() == 0 {
            return open;
        }
        let first = Command::of(view.word(0));
        if first.is_broadcast() {
            return 0;
        }
        let own = bit(first.address());
        if open & own != 0 && is_question(first) && !view.is_transfer() {
            // There is room for each terminal once.
            let _ = self.shown.try_push(answer_in(view, first));
        }
        let mut left = open & !own;
        if view.is_transfer() {
            left &= !bit(Command::of(view.word(1)).address());
        }
        left
    }

    /// What the messages from a place on show of what a terminal has received at the wraparound subaddress.
    pub(crate) fn look_for_wrapped(&mut self, from: usize, address: u8) {
        for ahead in 0..REACH {
            let place = from.saturating_add(ahead);
            let Some(met) = self.messages.get(place) else {
                return;
            };
            let view = met.view();
            let first = Command::of(view.word(0));
            let own = first.address() == address && first.subaddress() == WRAPAROUND;
            if own && !view.is_transfer() {
                if first.is_transmit() && !view.has_error() && view.word_count() > 2 {
                    // What finds no room is not foreseen.
                    let _ = self.shown.try_push(Shown {
                        address,
                        status: None,
                        last: None,
                        wrapped: Some(place),
                    });
                }
                return;
            }
        }
    }

    /// The words of the next two replies to a command, from a place on, if both are sound.
    pub(crate) fn coming(&self, from: usize, command: Command) -> Option<Coming> {
        let mut first = None;
        for ahead in 0..REACH {
            let view = self.messages.get(from.saturating_add(ahead))?.view();
            if !asks(&view, command) {
                continue;
            }
            let words = sent_words(&view, command)?;
            match first {
                None => first = Some(words),
                Some(first) => {
                    return Some(Coming {
                        first,
                        second: words,
                    });
                }
            }
        }
        None
    }

    /// Whether the next reply of a terminal, by messages from a place on, has this gap too.
    pub(crate) fn keeps_gap(&self, from: usize, address: u8, gap: u16) -> bool {
        for ahead in 0..REACH {
            let Some(met) = self.messages.get(from.saturating_add(ahead)) else {
                return false;
            };
            let view = met.view();
            let first = Command::of(view.word(0));
            if first.address() == address && !view.is_transfer() && view.first_gap() != 0 {
                return u16::from(view.first_gap()) == gap;
            }
        }
        false
    }

    /// Whether the next message to a terminal, from a place on, is not answered either.
    pub(crate) fn stays_silent(&self, from: usize, address: u8, on_line_b: bool) -> bool {
        for ahead in 0..REACH {
            let Some(met) = self.messages.get(from.saturating_add(ahead)) else {
                return false;
            };
            let view = met.view();
            let first = Command::of(view.word(0));
            let own = first.address() == address && view.is_on_line_b() == on_line_b;
            if own && !view.is_transfer() {
                return view.first_gap() == 0;
            }
        }
        false
    }

    /// How much of what is shown the terminals do not hold behind the message that was tried last.
    pub(crate) fn missed(&self, scene: &Scene) -> u32 {
        let mut count = 0u32;
        for shown in self.shown.as_slice() {
            if let Some(terminal) = scene.terminal_then(shown.address) {
                if !self.holds(terminal, shown) {
                    count = count.saturating_add(1);
                }
            }
        }
        count
    }

    /// Whether a terminal holds what is shown of it.
    fn holds(&self, terminal: &Terminal, shown: &Shown) -> bool {
        is_or_unknown(shown.status, terminal.status())
            && is_or_unknown(shown.last, terminal.last_command())
            && self.wraps(terminal, shown)
    }

    /// Whether a terminal holds the words that it is known to send from the wraparound subaddress.
    fn wraps(&self, terminal: &Terminal, shown: &Shown) -> bool {
        let Some(place) = shown.wrapped else {
            return true;
        };
        let Some(met) = self.messages.get(place) else {
            return true;
        };
        let view = met.view();
        let words = terminal.received(WRAPAROUND);
        for k in 2..view.word_count() {
            let held = match words.get(k - 2) {
                Some(word) => *word,
                None => 0,
            };
            if held != view.word(k) {
                return false;
            }
        }
        true
    }
}

/// Whether a word is the one that is shown, if one is.
fn is_or_unknown(shown: Option<u16>, word: u16) -> bool {
    match shown {
        Some(shown) => shown == word,
        None => true,
    }
}
