//! Which messages have a signal, and the bits that it is in them.
ghost use Rattle.bench_select.specs.Signals as spec;
ghost use Rattle.signal_dictionary.specs.Fitting.{is_place, width_of};
ghost use Rattle.signal_values.specs.Readings.{value_of};
ghost use Rattle.std.specs.Prelude.{◌≡◌, ◌+◌, ◌-◌, ◌<◌, ◌≤◌, ◌^◌, true, IfSome, option_map};

use crate::selectors::{is_of, selects_commands};
use ch11_layout::View;
use signal_dictionary::{Place, Signal};
use signal_values::{Reading, bits_of, pair_of, reading_of};

/// The data word at a place, counted from 1.
fn data_word(view: &View<'_>, place: u8) -> Option<u16>
    ensures { result ≡ spec.data_word view.now place }
{
    let (layout, index) = (view.layout(), usize::from(place));
    if 1 <= index && index <= layout.data_end - layout.data_start {
        Some(view.word(layout.data_start + index - 1))
    } else {
        None
    }
}

/// The bits of a data word, from the upper one to the lower one; none where the message lacks the word.
fn bits_in(view: &View<'_>, word: u8, high: u8, low: u8) -> Option<u32>
    requires order { low ≤ high }
    requires most { high ≤ 15 }
    ensures value { result ≡ spec.bits_if high low (spec.data_word view.now word) }
    ensures small { IfSome result (λ field. field < 2 ^ (high + 1 - low)) }
{
    let word = data_word(view, word)?;
    Some(bits_of(word, high, low))
}

/// The bits of two data words, of which the first is the upper half; none where the message lacks one.
fn pair_in(view: &View<'_>, first: u8, second: u8) -> Option<u32>
    ensures value { result ≡ spec.pair_if (spec.data_word view.now first) (spec.data_word view.now second) }
    ensures small { IfSome result (λ field. field < 2 ^ 32) }
{
    let upper = data_word(view, first)?;
    let lower = data_word(view, second)?;
    Some(pair_of(upper, lower))
}

/// The bits of a place in a message; none where it lacks the data words.
fn bits_at(place: Place, view: &View<'_>) -> Option<u32>
    requires { is_place place ≡ true }
    ensures value { result ≡ spec.bits_at place view.now }
    ensures small { IfSome result (λ field. field < 2 ^ width_of place) }
{
    match place {
        Place::Bits { word, high, low } => bits_in(view, word, high, low),
        Place::Pair { first } => {
            let second = first + 1;
            pair_in(view, first, second)
        }
    }
}

/// The bits of a signal in a message on a channel; none where it has not the signal: it is of another channel, its
/// commands are others, it has an error (block status bit 12), or it lacks the data words.
pub fn field_in(signal: &Signal, channel: u16, view: &View<'_>) -> Option<u32>
    ensures value { result ≡ spec.field_in signal.now channel view.now }
    ensures small { IfSome result (λ field. field < 2 ^ width_of signal.now.place) }
{
    if is_of(signal.channel, channel)
        && !view.has_error()
        && selects_commands(signal.selector, view)
    {
        bits_at(signal.place, view)
    } else {
        None
    }
}

/// The value of a signal in a message on a channel; none where it has not the signal.
pub fn value_in(signal: &Signal, channel: u16, view: &View<'_>) -> Option<Reading>
    ensures { option_map value_of result ≡ spec.value_in signal.now channel view.now }
{
    let field = field_in(signal, channel, view)?;
    Some(reading_of(signal.place.width(), &signal.kind, field))
}

/// Whether a message on a channel has a signal.
pub fn has_signal(signal: &Signal, channel: u16, view: &View<'_>) -> bool
    ensures { result ≡ spec.has_signal signal.now channel view.now }
{
    field_in(signal, channel, view).is_some()
}
