//! Messages as the standard has them.
ghost use Rattle.bench_judge.specs.Clean as spec;
ghost use Rattle.ch11_layout.specs.Replies.{data_count};
ghost use Rattle.mil_word.specs.Fields.{most_words};
ghost use Rattle.std.specs.Prelude.{◌≡◌, ◌-◌, ◌≤◌, Some};

use crate::replies::{replies_fit, sends_no_data, words_due};
use ch11_layout::View;
use mil_message::Message;
use mil_mode::{ModeRow, broadcast_allowed, mode_of};
use mil_word::Command;
use mil_word::fields::MOST_WORDS;

/// Whether the block status word of a message has none of the bits of errors.
fn has_no_error(view: &View<'_>) -> bool
    ensures { result ≡ spec.has_no_error view.now.block }
{
    !view.has_error()
        && !view.has_format_error()
        && !view.has_response_timeout()
        && !view.has_word_count_error()
        && !view.has_sync_type_error()
        && !view.has_invalid_word_error()
}

/// Whether the standard assigns a mode command's code, and lets it be sent to all terminals where it is.
fn may_be_sent(command: Command) -> bool
    ensures { result ≡ spec.may_be_sent command }
{
    if !command.is_mode() {
        return true;
    }
    let (transmit, code) = (command.is_transmit(), command.code());
    matches!(mode_of(transmit, code), ModeRow::Known)
        && (!command.is_broadcast() || broadcast_allowed(transmit, code))
}

/// The number of the form of a mode command.
fn mode_form(command: Command) -> u8
    ensures { result ≡ spec.mode_form command }
{
    if command.is_transmit() {
        if command.is_broadcast() {
            8
        } else if mil_mode::data_words(true, command.code()) == 0 {
            3
        } else {
            4
        }
    } else if command.is_broadcast() {
        9
    } else {
        5
    }
}

/// The number of the form whose first command this would be, alone or as the first of two.
fn form_number(two: bool, first: Command) -> u8
    ensures { result ≡ spec.form_number_of two first }
{
    if two {
        if first.is_broadcast() { 7 } else { 2 }
    } else if first.is_mode() {
        mode_form(first)
    } else if first.is_transmit() {
        1
    } else if first.is_broadcast() {
        6
    } else {
        0
    }
}

/// The message of one of the ten forms that has these parts.
fn message_with(number: u8, first: u16, second: u16, words: &[u16]) -> Option<Message>
    ensures { result ≡ spec.form_with (record { number = number; first = first; second = second; words = words.now }) }
{
    Message::of_parts(number, first, second, words)
}

/// The message of one of the ten forms whose words a recorded message may have. Condition: at most 32 of its words are
/// data words.
fn message_in(view: &View<'_>) -> Option<Message>
    requires { data_count view.now ≤ most_words }
    ensures { result ≡ spec.form_with (spec.parts_in view.now) }
{
    let two = view.layout().commands == 2;
    let first = view.word(0);
    let second = if two { view.word(1) } else { 0 };
    let number = form_number(two, Command::of(first));
    if matches!(number, 0 | 5 | 6 | 9) {
        let words = view.data_words();
        message_with(number, first, second, words.as_slice())
    } else {
        message_with(number, first, second, &[])
    }
}

/// Whether the data words are as many as controller and terminal send, or none where the terminal's status tells so.
fn data_fit(message: &Message, count: usize, statuses: &[u16]) -> bool
    ensures { result ≡ spec.data_fit message.now count statuses.now }
{
    let due = usize::from(words_due(message.replies_due().as_slice()));
    count == message.data_words().len() + due || count == 0 && 0 < due && sends_no_data(statuses)
}

/// Whether a message is as the standard has it: of one of the ten forms, with a mode code that the standard assigns,
/// all replies in time and no word too many or too few (MIL-STD-1553B 4.3.3.6, with Notice 2).
#[inline(never)]
#[tactic(auto, unfolding(crate::specs::Clean::clean))]
pub(crate) fn is_clean(view: &View<'_>) -> bool
    ensures { result ≡ spec.clean view.now }
{
    if !has_no_error(view) || !may_be_sent(Command::of(view.word(0))) {
        return false;
    }
    let count = view.data_count();
    if count > usize::from(MOST_WORDS) {
        return false;
    }
    let Some(message) = message_in(view) else {
        return false;
    };
    let statuses = view.statuses();
    data_fit(&message, count, statuses.as_slice())
        && replies_fit(
            message.replies_due().as_slice(),
            statuses.as_slice(),
            &[view.first_gap(), view.second_gap()],
        )
}

/// Whether a message is clean, which is worked out where it is not known yet, and known from then on.
#[inline(always)]
pub(crate) fn clean_once(known: &mut Option<bool>, view: &View<'_>) -> bool
    requires { spec.IsKnown known.old view.now }
    ensures value { result ≡ spec.clean view.now }
    ensures known { spec.IsKnown known.new view.now }
{
    if let Some(clean) = *known {
        return clean;
    }
    let clean = is_clean(view);
    *known = Some(clean);
    clean
}
