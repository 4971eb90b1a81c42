//! The values of the signals of a value change dump, as text. A text is put from its end on towards the front, into
//! room of a fixed size: so each digit goes at once where it stays.
ghost use Rattle.bench_export.specs.Digits.{four};
ghost use Rattle.bench_export.specs.Showing as showing;
ghost use Rattle.bench_export.specs.Waves as spec;
ghost use Rattle.std.specs.Prelude.{◌≡◌, ◌+◌, ◌<◌, ◌≤◌, ◌++◌, ◌∷◌, [], codes, decimal, drop, length, option_map};

use crate::changes::{Change, Driven};
use crate::lines::{Shown, Wire};
use ch11_layout::Role;
use itoa::{Buffer, write_digits};

/// How many bytes are kept for the text of a change: 41 for a time, 74 for each of four values, and 9 for an error.
pub(crate) const LONGEST: usize = 346;

/// The most binary digits that a value has.
const DIGITS: usize = 64;

/// Puts a byte in front of a place.
#[inline(always)]
fn put_byte(room: &mut [u8], end: usize, byte: u8) -> usize
    requires some { 0 < end }
    requires within { end ≤ length room.old }
    ensures before { result + 1 ≡ end }
    ensures put { drop result room.new ≡ byte ∷ drop end room.old }
{
    room[end - 1] = byte;
    end - 1
}

/// Puts the four binary digits of a number below 16 in front of a place.
#[inline(always)]
fn put_four(room: &mut [u8], end: usize, value: u64) -> usize
    requires few { value < 16 }
    requires room { 4 ≤ end }
    requires within { end ≤ length room.old }
    ensures before { result + 4 ≡ end }
    ensures put { drop result room.new ≡ four value ++ drop end room.old }
{
    let end = put_byte(room, end, b'0' + (value % 2) as u8);
    let end = put_byte(room, end, b'0' + (value / 2 % 2) as u8);
    let end = put_byte(room, end, b'0' + (value / 4 % 2) as u8);
    put_byte(room, end, b'0' + (value / 8 % 2) as u8)
}

/// Puts a number in at most so many binary digits, without leading zeros, one after the other.
#[inline]
fn put_few(room: &mut [u8], end: usize, most: usize, value: u64) -> usize
    requires room { most ≤ end }
    requires within { end ≤ length room.old }
    ensures before { result ≤ end }
    ensures short { end ≤ result + most }
    ensures put { drop result room.new ≡ spec.binary most value ++ drop end room.old }
{
    if most == 0 {
        return end;
    }
    let at = put_byte(room, end, b'0' + (value % 2) as u8);
    if value < 2 {
        return at;
    }
    put_few(room, at, most - 1, value / 2)
}

/// Puts a number in at most so many binary digits, without leading zeros, four at a time.
#[inline]
fn put_binary(room: &mut [u8], end: usize, most: usize, value: u64) -> usize
    requires room { most ≤ end }
    requires within { end ≤ length room.old }
    ensures before { result ≤ end }
    ensures short { end ≤ result + most }
    ensures put { drop result room.new ≡ spec.binary most value ++ drop end room.old }
{
    if most < 4 {
        return put_few(room, end, most, value);
    }
    if value < 16 {
        return put_few(room, end, most, value);
    }
    let at = put_four(room, end, value % 16);
    put_binary(room, at, most - 4, value / 16)
}

/// Puts a value, z where there is none.
#[inline]
fn put_value(room: &mut [u8], end: usize, value: Option<u64>) -> usize
    requires room { 64 ≤ end }
    requires within { end ≤ length room.old }
    ensures before { result ≤ end }
    ensures short { end ≤ result + 64 }
    ensures put { drop result room.new ≡ spec.value_text value ++ drop end room.old }
{
    match value {
        None => put_byte(room, end, b'z'),
        Some(value) => put_binary(room, end, DIGITS, value),
    }
}

/// The letter of a line.
#[inline]
fn letter_of(on_b: bool) -> u8
    ensures { result ∷ [] ≡ spec.letter_text on_b }
{
    if on_b { b'B' } else { b'A' }
}

/// Puts the number of a channel.
#[inline]
fn put_channel(room: &mut [u8], end: usize, channel: u16) -> usize
    requires room { 5 ≤ end }
    requires within { end ≤ length room.old }
    ensures before { result ≤ end }
    ensures short { end ≤ result + 5 }
    ensures put { drop result room.new ≡ decimal channel ++ drop end room.old }
{
    write_digits(u64::from(channel), room, end)
}

/// Puts the code of a signal of a line, and the end of the text line.
#[inline]
fn put_code(room: &mut [u8], end: usize, letter: u8, wire: Wire) -> usize
    requires room { 8 ≤ end }
    requires within { end ≤ length room.old }
    ensures before { result ≤ end }
    ensures short { end ≤ result + 8 }
    ensures put { drop result room.new ≡ spec.code_line (letter ∷ []) wire.on_b wire.channel ++ drop end room.old }
{
    let end = put_byte(room, end, b'\n');
    let end = put_channel(room, end, wire.channel);
    let end = put_byte(room, end, letter_of(wire.on_b));
    put_byte(room, end, letter)
}

/// Puts that a signal of a line takes a value.
#[inline]
fn put_signal(room: &mut [u8], end: usize, letter: u8, value: Option<u64>, wire: Wire) -> usize
    requires room { 74 ≤ end }
    requires within { end ≤ length room.old }
    ensures before { result ≤ end }
    ensures short { end ≤ result + 74 }
    ensures put { drop result room.new
        ≡ spec.signal_text (letter ∷ []) value wire.on_b wire.channel ++ drop end room.old }
{
    let end = put_code(room, end, letter, wire);
    let end = put_byte(room, end, b' ');
    let end = put_value(room, end, value);
    put_byte(room, end, b'b')
}

/// Puts that a signal of a line takes a value, where it is another than before.
#[inline]
fn put_changed(
    room: &mut [u8],
    end: usize,
    letter: u8,
    before: Option<u64>,
    now: Option<u64>,
    wire: Wire,
) -> usize
    requires room { 74 ≤ end }
    requires within { end ≤ length room.old }
    ensures before { result ≤ end }
    ensures short { end ≤ result + 74 }
    ensures put { drop result room.new
        ≡ spec.told_text (letter ∷ []) (showing.told_if before now) wire.on_b wire.channel ++ drop end room.old }
{
    if is_same(before, now) {
        return end;
    }
    put_signal(room, end, letter, now, wire)
}

/// Whether two values are the same one.
#[inline]
fn is_same(one: Option<u64>, other: Option<u64>) -> bool
    ensures { result ≡ showing.is_same one other }
{
    match (one, other) {
        (None, None) => true,
        (Some(one), Some(other)) => one == other,
        _ => false,
    }
}

/// What the kind of a word is shown as.
#[inline]
fn kind_of(role: Role) -> u64
    ensures { result ≡ showing.kind_of role }
{
    match role {
        Role::Command => 1,
        Role::Data => 2,
        Role::Status => 3,
    }
}

/// The value of a line's signal of words.
#[inline]
fn word_shown(driven: Option<Driven>) -> Option<u64>
    ensures { result ≡ option_map (λ d. d.word) driven }
{
    match driven {
        None => None,
        Some(driven) => Some(u64::from(driven.word)),
    }
}

/// The value of a line's signal of kinds.
#[inline]
fn kind_shown(driven: Option<Driven>) -> Option<u64>
    ensures { result ≡ option_map (λ d. showing.kind_of d.role) driven }
{
    match driven {
        None => None,
        Some(driven) => Some(kind_of(driven.role)),
    }
}

/// The value of a line's signal of terminals.
#[inline]
fn terminal_shown(driven: Option<Driven>) -> Option<u64>
    ensures { result ≡ option_map (λ d. d.terminal) driven }
{
    match driven {
        None => None,
        Some(driven) => Some(u64::from(driven.terminal)),
    }
}

/// The value of a line's signal of messages.
#[inline]
fn message_shown(driven: Option<Driven>) -> Option<u64>
    ensures { result ≡ option_map (λ d. d.number) driven }
{
    match driven {
        None => None,
        Some(driven) => Some(driven.number),
    }
}

/// Puts a value of the signal of errors of a line.
#[inline]
fn put_error_value(room: &mut [u8], end: usize, value: u8, wire: Wire) -> usize
    requires room { 9 ≤ end }
    requires within { end ≤ length room.old }
    ensures before { result ≤ end }
    ensures short { end ≤ result + 9 }
    ensures put { drop result room.new
        ≡ value ∷ spec.code_line (codes "e") wire.on_b wire.channel ++ drop end room.old }
{
    let end = put_code(room, end, b'e', wire);
    put_byte(room, end, value)
}

/// Puts whether a message with an error is on a line, where that changes.
#[inline]
fn put_error(room: &mut [u8], end: usize, before: bool, now: bool, wire: Wire) -> usize
    requires room { 9 ≤ end }
    requires within { end ≤ length room.old }
    ensures before { result ≤ end }
    ensures short { end ≤ result + 9 }
    ensures put { drop result room.new
        ≡ spec.error_text (showing.error_if before now) wire.on_b wire.channel ++ drop end room.old }
{
    if before {
        if now {
            end
        } else {
            put_error_value(room, end, b'0', wire)
        }
    } else if now {
        put_error_value(room, end, b'1', wire)
    } else {
        end
    }
}

/// Puts what a line shows: its word, and what else changes.
#[inline]
fn put_shown(room: &mut [u8], end: usize, before: Shown, now: Shown, wire: Wire) -> usize
    requires room { 305 ≤ end }
    requires within { end ≤ length room.old }
    ensures before { result ≤ end }
    ensures short { end ≤ result + 305 }
    ensures put { drop result room.new ≡ spec.shown_text before now wire.on_b wire.channel ++ drop end room.old }
{
    let end = put_error(room, end, before.error, now.error, wire);
    let end = put_changed(
        room,
        end,
        b'm',
        message_shown(before.driven),
        message_shown(now.driven),
        wire,
    );
    let end = put_changed(
        room,
        end,
        b't',
        terminal_shown(before.driven),
        terminal_shown(now.driven),
        wire,
    );
    let end = put_changed(
        room,
        end,
        b'k',
        kind_shown(before.driven),
        kind_shown(now.driven),
        wire,
    );
    put_signal(room, end, b'w', word_shown(now.driven), wire)
}

/// Puts a time, where it is not that of the change before.
#[inline]
fn put_time(room: &mut [u8], end: usize, last: u128, tick: u128) -> usize
    requires room { 41 ≤ end }
    requires within { end ≤ length room.old }
    ensures before { result ≤ end }
    ensures short { end ≤ result + 41 }
    ensures put { drop result room.new ≡ spec.time_text last tick ++ drop end room.old }
{
    if last == tick {
        return end;
    }
    let end = put_byte(room, end, b'\n');
    let end = put_number(room, end, tick);
    put_byte(room, end, b'#')
}

/// Puts a text in front of a place.
fn put_text(room: &mut [u8], end: usize, text: &[u8]) -> usize
    requires room { length text.now ≤ end }
    requires within { end ≤ length room.old }
    ensures start { result + length text.now ≡ end }
    ensures put { drop result room.new ≡ text.now ++ drop end room.old }
{
    let start = end - text.len();
    room[start..end].copy_from_slice(text);
    start
}

/// Puts a number in decimal digits in front of a place.
#[inline]
fn put_number(room: &mut [u8], end: usize, number: u128) -> usize
    requires room { 39 ≤ end }
    requires within { end ≤ length room.old }
    ensures before { result ≤ end }
    ensures short { end ≤ result + 39 }
    ensures put { drop result room.new ≡ decimal number ++ drop end room.old }
{
    if number <= u64::MAX as u128 {
        write_digits(number as u64, room, end)
    } else {
        let mut buffer = Buffer::new();
        put_text(room, end, buffer.format(number).as_bytes())
    }
}

/// Puts a change behind a time that was told, on a line that shows something.
#[inline]
pub(crate) fn put_change(room: &mut [u8], last: u128, before: Shown, change: &Change) -> usize
    requires { length room.old ≡ LONGEST }
    ensures long { length room.new ≡ LONGEST }
    ensures within { result ≤ LONGEST }
    ensures put { drop result room.new ≡ spec.change_text last before change.now }
{
    let end = put_shown(room, LONGEST, before, change.shown(), change.wire());
    put_time(room, end, last, change.tick)
}
