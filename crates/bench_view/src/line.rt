//! A message as a line of a page.
ghost use Rattle.bench_decode.specs.ByTime.{Told};
ghost use Rattle.bench_signals.specs.Values.{text_in};
ghost use Rattle.bench_view.specs.Letters.{number_text};
ghost use Rattle.bench_view.specs.Lines as spec;
ghost use Rattle.ch11_layout.specs.Layouts.{size_of};
ghost use Rattle.std.specs.Prelude.{◌≡◌, ◌++◌, ◌∷◌, [], OnOk};

use crate::letters::{put_number, put_word};
use bench_decode::Place;
use bench_select::value_in;
use ch11_layout::{StampKind, View};
use signal_dictionary::Signal;
use signal_values::put_reading;
use std::alloc::AllocError;

/// Puts a number and a space.
fn put_spaced(text: &mut Vec<u8>, value: u64) -> Result<(), AllocError>
    ensures { OnOk result (text.new.items ≡ text.old.items ++ spec.spaced value) }
{
    put_number(text, value)?;
    text.push(b' ')?;
    Ok(())
}

/// Puts where a message stands.
fn put_place(text: &mut Vec<u8>, place: &Place) -> Result<(), AllocError>
    ensures { OnOk result (text.new.items
        ≡ text.old.items ++ spec.place_text place.now.number place.now.channel place.now.in_channel) }
{
    put_spaced(text, place.number)?;
    put_spaced(text, u64::from(place.channel))?;
    put_spaced(text, place.in_channel)
}

/// Puts what a stamp has in front of its number: `@` where it is a time of day.
fn put_stamp(text: &mut Vec<u8>, view: &View<'_>) -> Result<(), AllocError>
    ensures { OnOk result (text.new.items ≡ text.old.items ++ spec.stamp_by view.now.kind view.now.stamp) }
{
    match view.kind() {
        StampKind::Counter => put_spaced(text, view.stamp()),
        StampKind::TimeOfDay => {
            text.push(b'@')?;
            put_spaced(text, view.stamp())
        }
        StampKind::Unknown => text.extend_from_slice(b"- "),
    }
}

/// Puts the bus words of a message.
#[tactic(auto, unfolding(crate::specs::Lines::words_text))]
fn put_words(text: &mut Vec<u8>, view: &View<'_>) -> Result<(), AllocError>
    ensures { OnOk result (text.new.items ≡ text.old.items ++ spec.words_text (size_of view.now) view.now) }
{
    'words: for place in 0..view.word_count() {
        put_word(text, view.word(place))?;
    }
    Ok(())
}

/// Puts the block status word, the gap times word and the bus words.
fn put_body(text: &mut Vec<u8>, view: &View<'_>) -> Result<(), AllocError>
    ensures { OnOk result (text.new.items ≡ text.old.items ++ spec.body_text view.now) }
{
    put_word(text, view.block())?;
    put_word(text, view.gaps())?;
    put_words(text, view)
}

/// Puts the value of a signal, which has this place in its dictionary, where a message has it.
fn put_value(
    text: &mut Vec<u8>,
    index: u64,
    signal: &Signal,
    channel: u16,
    view: &View<'_>,
) -> Result<(), AllocError>
    ensures { OnOk result (text.new.items
        ≡ text.old.items ++ spec.value_text index (text_in signal.now channel view.now)) }
{
    let Some(reading) = value_in(signal, channel, view) else {
        return Ok(());
    };
    text.push(b' ')?;
    put_number(text, index)?;
    text.push(b'=')?;
    put_reading(text, &signal.kind, reading)
}

/// Puts the values of the signals that a message has.
fn put_values(
    text: &mut Vec<u8>,
    signals: &[Signal],
    channel: u16,
    view: &View<'_>,
) -> Result<(), AllocError>
    ensures { OnOk result (text.new.items ≡ text.old.items ++ spec.values_text signals.now 0 channel view.now) }
{
    'signals: for index in 0..signals.len() {
        put_value(text, index as u64, &signals[index], channel, view)?;
    }
    Ok(())
}

/// Puts the line of a message.
pub(crate) fn put_line(
    text: &mut Vec<u8>,
    signals: &[Signal],
    place: &Place,
    view: &View<'_>,
) -> Result<(), AllocError>
    ensures { (t : Told) → t.number ≡ place.now.number → t.channel ≡ place.now.channel
        → t.in_channel ≡ place.now.in_channel → t.message ≡ view.now
        → OnOk result (text.new.items ≡ text.old.items ++ spec.line_text signals.now t) }
{
    put_place(text, place)?;
    put_stamp(text, view)?;
    put_body(text, view)?;
    put_values(text, signals, place.channel, view)?;
    text.push(b'\n')?;
    Ok(())
}
