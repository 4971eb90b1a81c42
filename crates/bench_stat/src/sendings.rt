//! How a recorded message was sent.
ghost use Rattle.bench_stat.specs.Sendings as spec;
ghost use Rattle.std.specs.Prelude.{◌≡◌};

use crate::senders::is_senders;
use ch11_layout::View;

/// Line, error and command words of a recorded message.
#[derive(Clone, Copy, Debug, PartialEq, Eq)]
pub struct Sending {
    /// Whether it was sent on line B: bit 13 of the block status word.
    pub line_b: bool,
    /// Whether it had an error: bit 12.
    pub failed: bool,
    /// Whether that is the error of the sender of a transfer between terminals, and not of the terminal that the first
    /// command calls.
    pub sender_failed: bool,
    /// Its first word, a command word.
    pub first: Option<u16>,
    /// Its second word, where bit 11 says that it is a transfer between terminals: the command to the sender.
    pub second: Option<u16>,
}

impl Sending {
    /// How the message was sent.
    pub fn of(view: &View<'_>) -> Sending
        ensures { result ≡ spec.sending_of view.now }
    {
        let second = if view.is_transfer() {
            command_at(view, 1)
        } else {
            None
        };
        let failed = view.has_error();
        Sending {
            line_b: view.is_on_line_b(),
            failed,
            sender_failed: failed && is_senders(view),
            first: command_at(view, 0),
            second,
        }
    }

    /// Whether it is a retry, on the other line, of the message before it.
    pub(crate) fn is_retry_of(&self, before: &Sending) -> bool
        ensures { result ≡ spec.is_retry before.now self.now }
    {
        before.failed
            && before.line_b != self.line_b
            && is_same_word(before.first, self.first)
            && is_same_word(before.second, self.second)
    }
}

/// The bus word at a place, if there is one.
fn command_at(view: &View<'_>, place: usize) -> Option<u16>
    ensures { result ≡ spec.word_at place view.now }
{
    if place < view.word_count() {
        Some(view.word(place))
    } else {
        None
    }
}

/// Whether both are absent, or the same word.
fn is_same_word(a: Option<u16>, b: Option<u16>) -> bool
    ensures { result ≡ spec.is_same_word a b }
{
    match (a, b) {
        (None, None) => true,
        (Some(a), Some(b)) => a == b,
        (None, Some(_)) | (Some(_), None) => false,
    }
}
