//! A second command in a message, which supersedes the first.
ghost use Rattle.bench_decode.specs.Superseding as spec;
ghost use Rattle.ch11_layout.specs.Layouts.{commands_in};
ghost use Rattle.std.specs.Prelude.{◌≡◌, ◌≤◌, IfSome, MatchOption};

use ch11_layout::{View, is_set};
use mil_mode::{ModeRow, data_words, mode_of};
use mil_word::{Command, Status};

/// How many data words go with a command, at most 255.
fn data_words_of(command: Command) -> u8
    ensures { result ≡ spec.data_words_of command }
{
    if command.is_mode() {
        data_words(command.is_transmit(), command.code())
    } else {
        command.count()
    }
}

/// Whether a mode command is one that the standard has.
fn is_known(command: Command) -> bool
    ensures { result ≡ spec.is_known_mode command }
{
    matches!(
        mode_of(command.is_transmit(), command.code()),
        ModeRow::Known
    )
}

/// Whether one terminal answers a command.
fn is_answerable(command: Command) -> bool
    ensures { result ≡ spec.is_answerable command }
{
    !command.is_broadcast() && (!command.is_mode() || is_known(command))
}

/// The status word that answers the word at a place, where that is a command.
fn answer_to(view: &View<'_>, place: usize) -> Status
    requires { place ≤ 1000 }
    ensures { result ≡ spec.answer_at place view.now }
{
    let command = Command::of(view.word(place));
    let answer = if command.is_transmit() {
        place + 1
    } else {
        view.word_count().saturating_sub(1)
    };
    Status::of(view.word(answer))
}

/// Whether the words behind that at a place are the answer to it as a command, and no more.
fn is_whole(view: &View<'_>, place: usize) -> bool
    requires { place ≤ 1000 }
    ensures { result ≡ spec.is_whole place view.now }
{
    let command = Command::of(view.word(place));
    view.word_count() == place + 2 + usize::from(data_words_of(command))
}

/// Whether a status word alone is the answer to it, which says that there are no data words.
fn is_excused(view: &View<'_>, place: usize) -> bool
    requires { place ≤ 1000 }
    ensures { result ≡ spec.is_excused place view.now }
{
    let answer = answer_to(view, place);
    Command::of(view.word(place)).is_transmit()
        && view.word_count() == place + 2
        && (answer.has_message_error() || answer.has_busy())
}

/// Whether the word at a place is answered as a command.
fn is_answered(view: &View<'_>, place: usize) -> bool
    requires { place ≤ 1000 }
    ensures { result ≡ spec.is_answered place view.now }
{
    let command = Command::of(view.word(place));
    place + 1 < view.word_count()
        && is_answerable(command)
        && answer_to(view, place).address() == command.address()
        && (is_whole(view, place) || is_excused(view, place))
}

/// Whether one reply came, and words are not as they are due by number or sync.
pub(crate) fn is_suspect(view: &View<'_>) -> bool
    ensures { result ≡ spec.is_suspect view.now }
{
    (view.has_word_count_error() || view.has_sync_type_error())
        && view.first_gap() != 0
        && view.second_gap() == 0
}

/// How many of the words are commands of the message's form.
fn command_count(view: &View<'_>) -> usize
    ensures many { result ≡ commands_in view.now }
    ensures few { result ≤ 2 }
{
    view.layout().commands
}

/// Whether the word behind the commands, where a status word is due, is one that the terminal could give that is due.
fn has_own_status(view: &View<'_>) -> bool
    ensures { result ≡ spec.has_own_status view.now }
{
    let commands = command_count(view);
    let status = view.word(commands);
    let due = Command::of(view.word(commands.saturating_sub(1))).address();
    has_front(view) && could_be_of(due, status)
}

/// Whether a status word stands right behind the commands.
pub(crate) fn has_front(view: &View<'_>) -> bool
    ensures { result ≡ spec.has_front_word view.now }
{
    let layout = view.layout();
    layout.commands < layout.data_start
}

/// Whether a terminal could give a status word: it has its address, and no bit that is never set.
fn could_be_of(address: u8, status: u16) -> bool
    ensures { result ≡ spec.could_be_of address status }
{
    let word = Status::of(status);
    word.address() == address && !(word.has_instrumentation() || has_reserved(status))
}

/// Whether a reserved bit of a status word is set.
pub(crate) fn has_reserved(status: u16) -> bool
    ensures { result ≡ spec.has_reserved status }
{
    is_set(status, 7) || is_set(status, 6) || is_set(status, 5)
}

/// How many words the controller has to send behind the commands.
fn controller_words(view: &View<'_>) -> u8
    ensures { result ≡ spec.controller_words view.now }
{
    let first = Command::of(view.word(0));
    if command_count(view) == 2 || first.is_transmit() {
        0
    } else {
        data_words_of(first)
    }
}

/// The first word that is answered as a command from one place up to another, that one included.
fn first_answered(view: &View<'_>, from: usize, to: usize) -> Option<usize>
    requires { to ≤ 900 }
    ensures { MatchOption result (spec.IsAnsweredNowhere from to view.now)
        (λ place. spec.IsFirstAnswered from to view.now place) }
{
    'places: for place in from..to + 1 {
        if is_answered(view, place) {
            return Some(place);
        }
    }
    None
}

/// Whether a message may have a second command: one reply came to words that are not as they are due, and that is not
/// the reply of the first command.
fn may_have_second(view: &View<'_>) -> bool
    ensures { result ≡ spec.may_have_second view.now }
{
    is_suspect(view) && !has_own_status(view)
}

/// The first word that is answered as a command where the controller's words stand.
fn second_among(view: &View<'_>) -> Option<usize>
    ensures place { result ≡ spec.second_among view.now }
    ensures near { IfSome result (λ place. place ≤ 900) }
{
    let from = command_count(view);
    first_answered(view, from, from + usize::from(controller_words(view)))
}

/// The place of the second command of a message, where the record tells one, at most 900.
pub(crate) fn second_command(view: &View<'_>) -> Option<usize>
    ensures place { result ≡ spec.second_place view.now }
    ensures near { IfSome result (λ place. place ≤ 900) }
{
    if may_have_second(view) {
        second_among(view)
    } else {
        None
    }
}
