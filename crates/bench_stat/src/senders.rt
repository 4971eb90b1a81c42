//! Whose the error of a transfer between terminals is.
ghost use Rattle.bench_stat.specs.Senders as spec;
ghost use Rattle.std.specs.Prelude.{◌≡◌, ◌+◌};

use ch11_layout::View;
use mil_word::Command;
use mil_word::timing::RESPONSE_TIME_OUT;

/// Whether the error of a failed message with two commands is that of the sender of data words, and not of their
/// receiver.
pub(crate) fn is_senders(view: &View<'_>) -> bool
    ensures { result ≡ spec.is_senders view.now }
{
    has_two_commands(view)
        && (is_broadcast(view) || is_first_reply_wrong(view) || are_words_wrong(view))
}

/// Whether it is a transfer between terminals, with both commands.
fn has_two_commands(view: &View<'_>) -> bool
    ensures { result ≡ spec.has_two_commands view.now }
{
    view.is_transfer() && view.word_count() > 1
}

/// Whether the receivers are all terminals.
fn is_broadcast(view: &View<'_>) -> bool
    ensures { result ≡ spec.is_to_all view.now }
{
    Command::of(view.word(0)).is_broadcast()
}

/// The address of a word, as a command or a status word has it.
fn address_at(view: &View<'_>, place: usize) -> u8
    ensures { result ≡ spec.address_at place view.now }
{
    Command::of(view.word(place)).address()
}

/// Whether there is no status word of the sender, which would be the third word of such a message.
fn is_first_reply_missing(view: &View<'_>) -> bool
    ensures { result ≡ spec.is_first_reply_missing view.now }
{
    view.first_gap() == 0 || view.word_count() < 3
}

/// Whether it is missing, of another terminal, or late.
fn is_first_reply_wrong(view: &View<'_>) -> bool
    ensures { result ≡ spec.is_first_reply_wrong view.now }
{
    is_first_reply_missing(view)
        || address_at(view, 2) != address_at(view, 1)
        || u16::from(view.first_gap()) > RESPONSE_TIME_OUT
}

/// Where the receiver's status word is due, counted from 0.
fn receivers_place(view: &View<'_>) -> usize
    ensures { result ≡ spec.receivers_place view.now }
{
    3 + usize::from(Command::of(view.word(1)).count())
}

/// Whether there is a word with the receiver's address at a place.
fn is_receivers(view: &View<'_>, place: usize) -> bool
    ensures { result ≡ spec.is_receivers place view.now }
{
    place < view.word_count() && address_at(view, place) == address_at(view, 0)
}

/// Whether words are unsound, not contiguous or of another sync.
fn has_unsound_word(view: &View<'_>) -> bool
    ensures { result ≡ spec.has_unsound_word view.now }
{
    view.has_format_error() || view.has_sync_type_error() || view.has_invalid_word_error()
}

/// Whether words are missing, left over or unsound, where the receiver did not reply.
fn has_wrong_words(view: &View<'_>) -> bool
    ensures { result ≡ spec.are_words_wrong view.now }
{
    view.word_count() != receivers_place(view) || has_unsound_word(view)
}

/// Whether the receiver replied, and its status word is the last word in place of the one that is due.
fn is_reply_elsewhere(view: &View<'_>) -> bool
    ensures { result ≡ spec.is_reply_elsewhere view.now }
{
    let words = view.word_count();
    !is_receivers(view, receivers_place(view)) && words > 3 && is_receivers(view, words - 1)
}

/// Whether the sender's words are wrong, by what the receiver did.
fn are_words_wrong(view: &View<'_>) -> bool
    ensures { result ≡ spec.are_senders_words_wrong view.now }
{
    if view.second_gap() == 0 {
        has_wrong_words(view)
    } else {
        is_reply_elsewhere(view)
    }
}
