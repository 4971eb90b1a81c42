//! Lines on their way to a writer, in columns.
ghost use Rattle.bench_decode.specs.Columns.{plain_control, red_control, right, spaces};
ghost use Rattle.bench_decode.specs.Times.{decimals_text};
ghost use Rattle.bench_decode.specs.Waiting.{IsPut, begun, controlled, no_lines, told};
ghost use Rattle.bench_dump.specs.DumpText.{bus_words, word_digits};
ghost use Rattle.std.specs.Io.KnownBytes.{Appends};
ghost use Rattle.std.specs.Prelude.{◌≡◌, ◌+◌, ◌*◌, ◌-◌, ◌/◌, ◌<◌, ◌≤◌, ◌∷◌, ◌++◌, [], length, take, max, min};
ghost use Rattle.std.specs.Prelude.{codes, decimal, IfOk, OnOk};

use crate::digits::{decimals_of, digits_of_word};
use crate::times::{SECOND, Time};
use bench_dump::{place_bus_words, place_bytes, place_decimal};
use std::alloc::{AllocError, Global};
use std::io::{self, Write};
use std::marker::Model;

/// How many bytes there is room for.
pub(crate) const SIZE: usize = 65536;

/// How many bytes are free at least where a line is begun or goes on: more than its columns and 256 words take.
pub(crate) const ROOM: usize = 2048;

/// The most digits that a number has.
pub(crate) const DIGITS: usize = 20;

/// How many bytes are put at once of a text, or of words: 256 words, which take 1,280 bytes.
const PIECE: usize = 512;

/// How many spaces are put at once at most, and always written.
pub(crate) const MOST_SPACES: usize = 64;

/// How many bytes of a control sequence there are at most.
pub(crate) const CONTROL: usize = 5;

/// How many bytes the columns in front of a form take.
pub(crate) const FRONT: usize = 43;

/// How many bytes a number behind a space takes at most.
pub(crate) const SMALL: usize = 21;

/// Up to where bus words or a text in pieces are put at most.
pub(crate) const PIECES_END: usize = 64768;

const SPACES: [u8; 64] = [b' '; 64];

const RED: &[u8] = b"\x1b[31m";

const PLAIN: &[u8] = b"\x1b[0m";

/// How lines are shown: `Colored` has errors and the bits of status words in red, for a terminal.
#[derive(Clone, Copy, Debug, PartialEq, Eq)]
pub enum Shown {
    Plain,
    Colored,
}

/// At most 65,536 bytes that wait for the writer. Contracts see them, the last line's columns, and how lines are shown.
#[derive(Drop)]
pub struct TextLine {
    bytes: Vec<u8>,
    len: usize,
    // where the line began on which the text stands, and behind it the bytes on it that take no column
    begin: usize,
    shown: Shown,
}

impl Model for TextLine {
    ghost use Rattle.bench_decode.specs.Waiting.{IsBuffer, Waiting};
    ghost use Rattle.std.specs.Prelude.{◌-◌, take};

    ghost Value = { Waiting };

    ghost view = { λ l. record { text = take l.len l.bytes.items; columns = l.len - l.begin; shown = l.shown } };

    ghost invariant = { λ l. IsBuffer l.bytes.items l.len l.begin };
}

impl TextLine {
    /// No line yet. All memory is taken here.
    pub fn new(alloc: Global, shown: Shown) -> Result<TextLine, AllocError>
        ensures { IfOk result (λ line. line ≡ no_lines shown) }
    {
        Ok(TextLine {
            bytes: vec![in alloc; 0; SIZE]?,
            len: 0,
            begin: 0,
            shown,
        })
    }

    /// Text, which there is room for.
    #[inline(always)]
    pub(crate) fn put(&mut self, text: &[u8])
        requires { length self.old.text + length text.now ≤ SIZE }
        ensures put { self.new ≡ told self.old text.now }
        ensures few { length self.new.text ≡ length self.old.text + length text.now }
        ensures columns { self.new.columns ≡ self.old.columns + length text.now }
    {
        self.len = place_bytes(self.bytes.as_mut_slice(), self.len, text);
    }

    /// The text that waits.
    pub fn text(&self) -> &[u8]
        ensures { result.now ≡ self.now.text }
    {
        &self.bytes.as_slice()[..self.len]
    }

    /// Drops the text that waits.
    pub(crate) fn clear(&mut self)
        ensures new { self.new ≡ no_lines self.old.shown }
        ensures few { length self.new.text ≡ 0 }
    {
        self.len = 0;
        self.begin = 0;
    }

    /// A new line.
    pub(crate) fn end_line(&mut self)
        requires { length self.old.text < SIZE }
        ensures { self.new ≡ begun (told self.old (codes "\n")) }
    {
        self.put(b"\n");
        self.begin = self.len;
    }

    /// So many spaces. As many as there may be are always written, since that is quicker.
    #[inline(always)]
    fn put_spaces(&mut self, count: usize)
        requires few { count ≤ MOST_SPACES }
        requires room { length self.old.text + MOST_SPACES ≤ SIZE }
        ensures put { self.new ≡ told self.old (spaces count) }
        ensures few { length self.new.text ≡ length self.old.text + count }
        ensures columns { self.new.columns ≡ self.old.columns + count }
    {
        place_bytes(self.bytes.as_mut_slice(), self.len, &SPACES);
        self.len += count;
    }

    /// Spaces up to a column.
    pub(crate) fn fill_to(&mut self, column: usize)
        requires near { column ≤ self.old.columns + MOST_SPACES }
        requires room { length self.old.text + MOST_SPACES ≤ SIZE }
        ensures put { self.new ≡ told self.old (spaces (column - self.old.columns)) }
        ensures few { length self.new.text ≤ length self.old.text + MOST_SPACES }
        ensures columns { self.new.columns ≡ max column self.old.columns }
    {
        let used = self.len - self.begin;
        self.put_spaces(column.saturating_sub(used));
    }

    /// Spaces up to a column, and one at least.
    pub(crate) fn pad_to(&mut self, column: usize)
        requires near { column ≤ self.old.columns + MOST_SPACES }
        requires room { length self.old.text + MOST_SPACES ≤ SIZE }
        ensures put { self.new ≡ told self.old (spaces (max (column - self.old.columns) 1)) }
        ensures few { length self.new.text ≤ length self.old.text + MOST_SPACES }
        ensures columns { self.new.columns ≡ max column (self.old.columns + 1) }
    {
        let used = self.len - self.begin;
        self.put_spaces(column.saturating_sub(used).max(1));
    }

    /// Text in red from here on, where lines are coloured.
    pub(crate) fn begin_red(&mut self)
        requires { length self.old.text + CONTROL ≤ SIZE }
        ensures put { self.new ≡ controlled self.old red_control }
        ensures columns { self.new.columns ≡ self.old.columns }
        ensures few { length self.new.text ≤ length self.old.text + CONTROL }
    {
        self.put_hidden(RED);
    }

    /// Text as ever from here on.
    pub(crate) fn end_red(&mut self)
        requires { length self.old.text + CONTROL ≤ SIZE }
        ensures put { self.new ≡ controlled self.old plain_control }
        ensures columns { self.new.columns ≡ self.old.columns }
        ensures few { length self.new.text ≤ length self.old.text + CONTROL }
    {
        self.put_hidden(PLAIN);
    }

    /// Bytes that take no column.
    fn put_hidden(&mut self, bytes: &[u8])
        requires { length self.old.text + length bytes.now ≤ SIZE }
        ensures put { self.new ≡ controlled self.old bytes.now }
        ensures columns { self.new.columns ≡ self.old.columns }
        ensures few { length self.new.text ≤ length self.old.text + length bytes.now }
    {
        match self.shown {
            Shown::Plain => {}
            Shown::Colored => {
                self.put(bytes);
                self.begin += bytes.len();
            }
        }
    }
    /// The columns in front of a form, one over the end of the one before it where that has bytes of no meaning: a
    /// number in seven columns, seconds in six, their decimals, two numbers in eight, and a letter between spaces.
    #[inline(always)]
    pub(crate) fn put_front(
        &mut self,
        number: &[u8; 8],
        seconds: &[u8; 8],
        decimals: &[u8; 8],
        channel: &[u8; 8],
        in_channel: &[u8; 8],
        letter: u8,
    )
        requires { length self.old.text + FRONT ≤ SIZE }
        ensures put { self.new ≡ told self.old
            (take 7 number.now ++ (take 6 seconds.now ++ (decimals.now ++ (channel.now ++ (in_channel.now
            ++ (32 ∷ letter ∷ 32 ∷ 32 ∷ 32 ∷ 32 ∷ [])))))) }
        ensures few { length self.new.text ≤ length self.old.text + FRONT }
        ensures columns { self.new.columns ≡ self.old.columns + FRONT }
    {
        let at = self.len;
        let buffer = self.bytes.as_mut_slice();
        place_bytes(buffer, at, number);
        place_bytes(buffer, at + 7, seconds);
        place_bytes(buffer, at + 13, decimals);
        place_bytes(buffer, at + 21, channel);
        place_bytes(buffer, at + 29, in_channel);
        self.len = place_bytes(buffer, at + 37, &[b' ', letter, b' ', b' ', b' ', b' ']);
    }

    /// A number, with spaces before it up to a width.
    pub(crate) fn put_right(&mut self, number: u64, width: usize)
        requires narrow { width ≤ DIGITS }
        requires room { length self.old.text + MOST_SPACES ≤ SIZE }
        ensures put { self.new ≡ told self.old (right width (decimal number)) }
        ensures few { length self.new.text ≤ length self.old.text + DIGITS }
        ensures columns { self.old.columns + width ≤ self.new.columns }
    {
        let mut digits = [0; DIGITS];
        let end = place_decimal(&mut digits, 0, number);
        self.put_spaces(width.saturating_sub(end));
        self.put(&digits[..end]);
    }

    /// A number.
    pub(crate) fn put_number(&mut self, number: u64)
        requires { length self.old.text + DIGITS ≤ SIZE }
        ensures put { self.new ≡ told self.old (decimal number) }
        ensures few { length self.new.text ≤ length self.old.text + DIGITS }
    {
        self.len = place_decimal(self.bytes.as_mut_slice(), self.len, number);
    }

    /// A number behind a space, most often one of one or two digits.
    #[inline(always)]
    pub(crate) fn put_small(&mut self, number: u8)
        requires { length self.old.text + SMALL ≤ SIZE }
        ensures put { self.new ≡ told self.old (32 ∷ decimal number) }
        ensures few { length self.new.text ≤ length self.old.text + SMALL }
    {
        if number < 10 {
            self.put(&[b' ', b'0' + number]);
        } else if number < 100 {
            self.put(&[b' ', b'0' + number / 10, b'0' + number % 10]);
        } else {
            self.put_labelled(b" ", u64::from(number));
        }
    }

    /// A label and a number.
    pub(crate) fn put_labelled(&mut self, label: &[u8], number: u64)
        requires { length self.old.text + length label.now + DIGITS ≤ SIZE }
        ensures put { self.new ≡ told self.old (label.now ++ decimal number) }
        ensures few { length self.new.text ≤ length self.old.text + length label.now + DIGITS }
    {
        self.put(label);
        self.put_number(number);
    }

    /// The point and the seven decimals of a time in seconds.
    pub(crate) fn put_decimals(&mut self, time: Time)
        requires below { time.ticks < SECOND }
        requires room { length self.old.text + 8 ≤ SIZE }
        ensures put { self.new ≡ told self.old (decimals_text time.ticks) }
        ensures few { length self.new.text ≡ length self.old.text + 8 }
        ensures columns { self.new.columns ≡ self.old.columns + 8 }
    {
        self.put(&decimals_of(time));
    }

    /// A word as four hexadecimal digits behind a space.
    #[inline(always)]
    pub(crate) fn put_word(&mut self, word: u16)
        requires { length self.old.text + 5 ≤ SIZE }
        ensures put { self.new ≡ told self.old (32 ∷ word_digits word) }
        ensures few { length self.new.text ≡ length self.old.text + 5 }
    {
        self.put(b" ");
        self.put_digits(word);
    }

    /// A word as four hexadecimal digits.
    #[inline(always)]
    pub(crate) fn put_digits(&mut self, word: u16)
        requires { length self.old.text + 4 ≤ SIZE }
        ensures put { self.new ≡ told self.old (word_digits word) }
        ensures few { length self.new.text ≡ length self.old.text + 4 }
    {
        self.put(&digits_of_word(word));
    }

    /// Bus words as they lie in a body, two bytes each with the low one first: four hexadecimal digits of each behind a
    /// space. What waits may go to the writer in between.
    pub(crate) fn put_words<W: Write>(&mut self, out: &mut W, words: &[u8]) -> io::Result<()>
        ensures put { OnOk result (IsPut (W.contents out.old) self.old (W.contents out.new) self.new
            (bus_words words.now)) }
        ensures room { OnOk result (length self.new.text ≤ max (length self.old.text) PIECES_END) }
    {
        let mut rest = words;
        'pieces: while rest.len() > 0 {
            let (piece, others) = rest.split_at(piece_of(rest.len()));
            self.hand_on(out)?;
            self.put_piece(piece);
            rest = others;
        }
        Ok(())
    }

    /// Text of any length. What waits may go to the writer in between.
    pub(crate) fn put_text<W: Write>(&mut self, out: &mut W, text: &[u8]) -> io::Result<()>
        ensures put { OnOk result (IsPut (W.contents out.old) self.old (W.contents out.new) self.new text.now) }
        ensures room { OnOk result (length self.new.text ≤ max (length self.old.text) PIECES_END) }
    {
        let mut rest = text;
        'pieces: while rest.len() > 0 {
            let (piece, others) = rest.split_at(piece_of(rest.len()));
            self.hand_on(out)?;
            self.put(piece);
            rest = others;
        }
        Ok(())
    }

    /// Bus words which there is room for.
    pub(crate) fn put_piece(&mut self, words: &[u8])
        requires { length self.old.text + 5 * (length words.now / 2) ≤ SIZE }
        ensures put { self.new ≡ told self.old (bus_words words.now) }
        ensures few { length self.new.text ≡ length self.old.text + 5 * (length words.now / 2) }
    {
        self.len = place_bus_words(self.bytes.as_mut_slice(), self.len, words);
    }

    /// Begins a line, and hands what waits on to the writer where there is little room left.
    #[inline(always)]
    pub(crate) fn begin_line<W: Write>(&mut self, out: &mut W) -> io::Result<()>
        ensures put { OnOk result (IsPut (W.contents out.old) self.old (W.contents out.new) self.new []) }
        ensures room { OnOk result (length self.new.text + ROOM ≤ SIZE) }
        ensures begun { OnOk result (self.new.columns ≡ 0) }
    {
        self.hand_on(out)?;
        self.begin = self.len;
        Ok(())
    }

    /// Hands what waits on to the writer where there is little room left.
    #[inline(always)]
    pub(crate) fn hand_on<W: Write>(&mut self, out: &mut W) -> io::Result<()>
        ensures put { OnOk result (IsPut (W.contents out.old) self.old (W.contents out.new) self.new []) }
        ensures room { OnOk result (length self.new.text + ROOM ≤ SIZE) }
    {
        if self.len + ROOM > SIZE {
            self.hand_over(out)?;
        }
        Ok(())
    }

    /// Hands all that waits on to the writer.
    fn hand_over<W: Write>(&mut self, out: &mut W) -> io::Result<()>
        ensures gone { OnOk result (Appends (W.contents out.old) (W.contents out.new) self.old.text) }
        ensures new { OnOk result (self.new ≡ no_lines self.old.shown) }
    {
        out.write_all(&self.bytes.as_slice()[..self.len])?;
        self.clear();
        Ok(())
    }

    /// Hands all that waits on to the writer, and flushes it.
    pub fn finish<W: Write>(&mut self, out: &mut W) -> io::Result<()>
        ensures gone { OnOk result (Appends (W.contents out.old) (W.contents out.new) self.old.text) }
        ensures new { OnOk result (self.new ≡ no_lines self.old.shown) }
    {
        self.hand_over(out)?;
        out.flush()
    }
}

/// How many bytes of so many are put at once.
fn piece_of(len: usize) -> usize
    ensures { result ≡ min len PIECE }
{
    if len < PIECE { len } else { PIECE }
}
