//! Which of the selected messages miss their rule.
ghost use Rattle.bench_judge.specs.Checks as spec;
ghost use Rattle.bench_judge.specs.Clean.{IsKnown};
ghost use Rattle.std.specs.Prelude.{◌≡◌, ◌+◌, ◌<◌, ◌^◌, length};

use crate::clean::clean_once;
use ch11_layout::View;
use judge_rules::{Bounds, Check, Datum, Kind, WordRange};

/// How many ticks of 0.1 µs a microsecond has.
const TICKS: u64 = 10;

/// How many values a word has.
const WORDS: u64 = 65_536;

/// Whether a word has a value in the bits of a mask.
#[inline(always)]
fn agrees(datum: &Datum, word: u16) -> bool
    ensures { result ≡ spec.agrees datum.now word }
{
    word & datum.mask == datum.value & datum.mask
}

/// Whether a message has a status word, and all have this value.
#[inline(always)]
fn has_status(datum: &Datum, view: &View<'_>) -> bool
    ensures { result ≡ spec.has_status datum.now view.now }
{
    let layout = view.layout();
    let front = layout.commands < layout.data_start;
    let back = layout.data_end < layout.words;
    (front || back)
        && (!front || agrees(datum, view.word(layout.commands)))
        && (!back || agrees(datum, view.word(layout.data_end)))
}

/// Whether a message's words from a place on have these values.
fn words_agree(view: &View<'_>, place: usize, wanted: &[Datum]) -> bool
    requires { place + length wanted.now < 2 ^ 64 }
    ensures { result ≡ spec.words_agree view.now.bytes place wanted.now }
{
    let (mut next, mut rest) = (place, wanted);
    'words: while let Some((datum, others)) = rest.split_first() {
        if !agrees(datum, view.word(next)) {
            return false;
        }
        next += 1;
        rest = others;
    }
    true
}

/// Whether the data words of a message are these, as many of them.
#[inline(never)]
fn has_data(wanted: &[Datum], view: &View<'_>) -> bool
    ensures { result ≡ spec.has_data wanted.now view.now }
{
    view.data_count() == wanted.len() && words_agree(view, view.layout().data_start, wanted)
}

/// Whether a number lies in bounds.
fn is_in(bounds: &Bounds, number: u64) -> bool
    ensures { result ≡ spec.is_in bounds.now number }
{
    u64::from(bounds.low) <= number && number <= u64::from(bounds.high)
}

/// Whether a message has a reply, and the gap of each lies in the bounds.
#[inline(always)]
fn responds_in(bounds: &Bounds, view: &View<'_>) -> bool
    ensures { result ≡ spec.responds_in bounds.now view.now }
{
    let (first, second) = (view.first_gap(), view.second_gap());
    (first != 0 || second != 0)
        && (first == 0 || is_in(bounds, u64::from(first)))
        && (second == 0 || is_in(bounds, u64::from(second)))
}

/// Whether so many ticks lie in bounds of microseconds.
fn is_in_micros(bounds: &Bounds, ticks: u64) -> bool
    ensures { result ≡ spec.is_in_micros bounds.now ticks }
{
    TICKS * u64::from(bounds.low) <= ticks && ticks <= TICKS * u64::from(bounds.high)
}

/// Whether a stamp follows the one before it within bounds, if there is one.
#[inline(always)]
pub(crate) fn follows_in(bounds: &Bounds, before: Option<u64>, stamp: u64) -> bool
    ensures { result ≡ spec.follows_in bounds.now before stamp }
{
    match before {
        None => true,
        Some(before) => before <= stamp && is_in_micros(bounds, stamp - before),
    }
}

/// The data word of a place, counted from 1, if a message has it.
#[inline(always)]
pub(crate) fn data_word(place: u8, view: &View<'_>) -> Option<u16>
    ensures { result ≡ spec.data_word place view.now }
{
    let place = usize::from(place);
    if place <= view.data_count() {
        Some(view.word(view.layout().data_start + place.saturating_sub(1)))
    } else {
        None
    }
}

/// Whether a word has a value in a range.
fn is_in_range(range: &WordRange, word: u16) -> bool
    ensures { result ≡ spec.is_in_range range.now word }
{
    range.low <= word && word <= range.high
}

/// Whether there is a word, and it has a value in a range.
#[inline(always)]
fn has_word(range: &WordRange, word: Option<u16>) -> bool
    ensures { result ≡ spec.has_word range.now word }
{
    match word {
        None => false,
        Some(word) => is_in_range(range, word),
    }
}

/// By how much a word is more than the one before it, modulo 65,536.
pub(crate) fn step_from(before: u64, word: u16) -> u16
    ensures { result ≡ spec.step_from before word }
{
    ((u64::from(word) + WORDS).saturating_sub(before) % WORDS) as u16
}

/// Whether there is a word, and it is by so much more than the one before it, if there is one.
#[inline(always)]
fn steps_in(range: &WordRange, before: Option<u64>, word: Option<u16>) -> bool
    ensures { result ≡ spec.steps_in range.now before word }
{
    match word {
        None => false,
        Some(word) => match before {
            None => true,
            Some(before) => is_in_range(range, step_from(before, word)),
        },
    }
}

/// What a check compares with that of the message before, if there is anything: the stamp, or a data word.
#[inline(always)]
pub(crate) fn compared(check: &Check, view: &View<'_>) -> Option<u64>
    ensures { result ≡ spec.compared check.now view.now }
{
    match check {
        Check::Period(_) => Some(view.stamp()),
        Check::DataStep(range) => match data_word(range.place, view) {
            Some(word) => Some(u64::from(word)),
            None => None,
        },
        _ => None,
    }
}

/// Whether so many messages were counted as a check asks for; it may ask for no number of them.
pub(crate) fn counts(check: &Check, counted: u64) -> bool
    ensures { result ≡ spec.counts check.now counted }
{
    match check {
        Check::Count(bounds) => is_in(bounds, counted),
        Check::CountOf { bounds, .. } => is_in(bounds, counted),
        _ => true,
    }
}

/// Whether a check is one of a count.
pub(crate) fn is_count(check: &Check) -> bool
    ensures { result ≡ spec.is_count check.now }
{
    matches!(check, Check::Count(_) | Check::CountOf { .. })
}

/// Whether a check is about packets.
pub(crate) fn is_whole(check: &Check) -> bool
    ensures { result ≡ spec.is_whole check.now }
{
    matches!(check, Check::Whole)
}

/// Whether a message has the bit of no response, or a late one, and no reply came to it.
fn is_silent(view: &View<'_>) -> bool
    ensures { result ≡ spec.is_silent view.now }
{
    view.has_response_timeout() && view.first_gap() == 0 && view.second_gap() == 0
}

/// Whether a message is of a kind. Whether it is clean is worked out at most once.
#[inline(never)]
fn is_of_kind(kind: Kind, view: &View<'_>, known: &mut Option<bool>) -> bool
    requires { IsKnown known.old view.now }
    ensures value { result ≡ spec.is_of_kind kind view.now }
    ensures known { IsKnown known.new view.now }
{
    match kind {
        Kind::Sound => !view.has_error(),
        Kind::Failed | Kind::MessageError => view.has_error(),
        Kind::Clean => clean_once(known, view),
        Kind::Silent => is_silent(view),
        Kind::TerminalToTerminal => view.is_transfer(),
        Kind::FormatError => view.has_format_error(),
        Kind::ResponseTimeout => view.has_response_timeout(),
        Kind::WordCountError => view.has_word_count_error(),
        Kind::SyncTypeError => view.has_sync_type_error(),
        Kind::InvalidWordError => view.has_invalid_word_error(),
    }
}

/// Whether a check counts a message. Whether the message is clean is worked out at most once.
#[inline(always)]
pub(crate) fn is_counted(check: &Check, view: &View<'_>, known: &mut Option<bool>) -> bool
    requires { IsKnown known.old view.now }
    ensures value { result ≡ spec.is_counted check.now view.now }
    ensures known { IsKnown known.new view.now }
{
    match check {
        Check::Count(_) => true,
        Check::CountOf { kind, .. } => is_of_kind(*kind, view, known),
        _ => false,
    }
}

/// Whether a message meets a check, where the selected message before it in its channel, if there is one that has what
/// is compared, had this of it. Whether the message is clean is worked out at most once.
#[inline(always)]
pub(crate) fn meets(
    check: &Check,
    before: Option<u64>,
    view: &View<'_>,
    known: &mut Option<bool>,
) -> bool
    requires { IsKnown known.old view.now }
    ensures met { result ≡ spec.meets check.now before view.now }
    ensures known { IsKnown known.new view.now }
{
    match check {
        Check::Sound => !view.has_error(),
        Check::Failed => view.has_error(),
        Check::Clean => clean_once(known, view),
        Check::Status(datum) => has_status(datum, view),
        Check::Data(wanted) => has_data(wanted.as_slice(), view),
        Check::Response(bounds) => responds_in(bounds, view),
        Check::Period(bounds) => view.has_time() && follows_in(bounds, before, view.stamp()),
        Check::DataWord(range) => has_word(range, data_word(range.place, view)),
        Check::DataStep(range) => steps_in(range, before, data_word(range.place, view)),
        Check::Count(_) | Check::CountOf { .. } | Check::Whole => true,
    }
}
