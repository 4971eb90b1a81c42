//! The parts of a message's line, written one behind the other into a buffer that has room for all of them.
ghost use Rattle.bench_clock.specs.Time.{time_of};
ghost use Rattle.bench_clock.specs.TimeText.{text_of};
ghost use Rattle.bench_dump.specs.DumpText.{bus_words, byte_digits, word_digits};
ghost use Rattle.bench_dump.specs.Places.{IsPutInBuffer};
ghost use Rattle.bench_dump.specs.TimedText.{time_words, timed_line};
ghost use Rattle.ch11_f1.specs.Views.{message_of};
ghost use Rattle.std.specs.Prelude.{◌≡◌, ◌+◌, ◌*◌, ◌/◌, ◌≤◌, ◌∷◌, ◌++◌, length, decimal, option_map};

use crate::digits::{place_byte, place_decimal};
use bench_clock::TimeOfDay;
use ch11_f1::Seen;

/// How many bytes a message's line has at most beside its bus words: 50 of labels, three numbers of up to 20, two words
/// of 4 and a time of 27.
pub(crate) const MESSAGE_HEAD: usize = 145;

/// Places bytes in a buffer that has room for them, and answers where they end.
#[inline(always)]
pub fn place_bytes(buffer: &mut [u8], at: usize, bytes: &[u8]) -> usize
    requires { at + length bytes.now ≤ length buffer.old }
    ensures { IsPutInBuffer buffer.old buffer.new at bytes.now result }
{
    let end = at + bytes.len();
    buffer[at..end].copy_from_slice(bytes);
    end
}

/// Places a label.
#[inline(always)]
fn place_label<const N: usize>(buffer: &mut [u8], at: usize, label: &[u8; N]) -> usize
    requires { at + N ≤ length buffer.old }
    ensures placed { IsPutInBuffer buffer.old buffer.new at label.now result }
    ensures end { result ≡ at + N }
{
    place_bytes(buffer, at, label)
}

/// Places a label and a number.
#[inline(always)]
fn place_number<const N: usize>(buffer: &mut [u8], at: usize, label: &[u8; N], number: u64) -> usize
    requires { at + N + 20 ≤ length buffer.old }
    ensures placed { IsPutInBuffer buffer.old buffer.new at (label.now ++ decimal number) result }
    ensures few { result ≤ at + N + 20 }
{
    let middle = place_label(buffer, at, label);
    place_decimal(buffer, middle, number)
}

/// Places a label and a word as four digits.
#[inline(always)]
fn place_word<const N: usize>(buffer: &mut [u8], at: usize, label: &[u8; N], word: u16) -> usize
    requires { at + N + 4 ≤ length buffer.old }
    ensures placed { IsPutInBuffer buffer.old buffer.new at (label.now ++ word_digits word) result }
    ensures end { result ≡ at + N + 4 }
{
    let first = place_label(buffer, at, label);
    let second = place_byte(buffer, first, (word / 256) as u8);
    place_byte(buffer, second, (word % 256) as u8)
}

/// Places a bus word: a space and four digits.
#[inline(always)]
fn place_bus_word(buffer: &mut [u8], at: usize, high: u8, low: u8) -> usize
    requires { at + 5 ≤ length buffer.old }
    ensures placed { IsPutInBuffer buffer.old buffer.new at (32 ∷ (byte_digits high ++ byte_digits low)) result }
    ensures end { result ≡ at + 5 }
{
    buffer[at] = b' ';
    let middle = place_byte(buffer, at + 1, high);
    place_byte(buffer, middle, low)
}

/// Places bus words, two bytes each with the low one first, in a buffer that has room for them, and answers where they
/// end: of each a space and four upper-case hexadecimal digits.
#[inline]
pub fn place_bus_words(buffer: &mut [u8], start: usize, words: &[u8]) -> usize
    requires { start + 5 * (length words.now / 2) ≤ length buffer.old }
    ensures placed { IsPutInBuffer buffer.old buffer.new start (bus_words words.now) result }
    ensures end { result ≡ start + 5 * (length words.now / 2) }
{
    let mut at = start;
    let mut rest = words;
    'words: while rest.len() >= 2 {
        at = place_bus_word(buffer, at, rest[1], rest[0]);
        let (_, others) = rest.split_at(2);
        rest = others;
    }
    at
}

/// Places a time of day.
#[inline(always)]
fn place_day(buffer: &mut [u8], at: usize, time: TimeOfDay) -> usize
    requires { at + 27 ≤ length buffer.old }
    ensures placed { IsPutInBuffer buffer.old buffer.new at (text_of (time_of time)) result }
    ensures few { result ≤ at + 27 }
{
    match time {
        TimeOfDay::Utc(time) => place_label(buffer, at, &time.text()),
        TimeOfDay::OfYear(time) => place_label(buffer, at, &time.text()),
    }
}

/// Places a time of day behind its label, where there is one.
#[inline(always)]
fn place_time(buffer: &mut [u8], at: usize, time: Option<TimeOfDay>) -> usize
    requires { at + 33 ≤ length buffer.old }
    ensures placed { IsPutInBuffer buffer.old buffer.new at (time_words (option_map (λ t. time_of t) time)) result }
    ensures few { result ≤ at + 33 }
{
    match time {
        None => at,
        Some(time) => {
            let middle = place_label(buffer, at, b" time ");
            place_day(buffer, middle, time)
        }
    }
}

/// Places the line of a message, with a time of day or without.
#[inline]
#[tactic(auto, unfolding(crate::specs::TimedText::timed_line))]
pub(crate) fn place_message(
    buffer: &mut [u8],
    start: usize,
    number: u64,
    channel: u16,
    time: Option<TimeOfDay>,
    seen: &Seen<'_>,
) -> usize
    requires { start + (MESSAGE_HEAD + 5 * (length seen.now.words.now / 2)) ≤ length buffer.old }
    ensures { IsPutInBuffer buffer.old buffer.new start
        (timed_line (option_map (λ t. time_of t) time) number channel (message_of seen.now)) result }
{
    let at = place_number(buffer, start, b"message ", number);
    let at = place_number(buffer, at, b" channel ", channel as u64);
    let at = place_number(buffer, at, b" stamp ", seen.stamp);
    let at = place_time(buffer, at, time);
    let at = place_word(buffer, at, b" block ", seen.block);
    let at = place_word(buffer, at, b" gaps ", seen.gaps);
    let at = place_label(buffer, at, b" words");
    let at = place_bus_words(buffer, at, seen.words);
    place_label(buffer, at, b"\n")
}
