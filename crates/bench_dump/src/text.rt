//! Text on its way to a writer.
ghost use Rattle.bench_clock.specs.Time.{time_of};
ghost use Rattle.bench_dump.specs.TimedText.{timed_line};
ghost use Rattle.ch11_f1.specs.Views.{message_of};
ghost use Rattle.ch11_stream.specs.Feeding.{IsOther};
ghost use Rattle.std.specs.Io.KnownBytes.{Appends};
ghost use Rattle.std.specs.Prelude.{◌≡◌, ◌+◌, ◌≤◌, ◌++◌, [], length, take, vec_len, option_map, OnOk, IfErr};

use crate::places::{MESSAGE_HEAD, place_bytes, place_message};
use bench_clock::TimeOfDay;
use ch11_f1::Seen;
use ch11_stream::StreamFault;
use std::alloc::{AllocError, Global};
use std::io::Write;
use std::marker::Model;

/// The text that waits for the writer; contracts see its bytes. Behind them lies room that can be written at once.
#[derive(Drop)]
pub(crate) struct Text {
    bytes: Vec<u8>,
    len: usize,
}

impl Model for Text {
    ghost use Rattle.std.specs.Prelude.{ℕ, ◌≤◌, List, length, take};

    ghost Value = { List ℕ };

    ghost view = { λ t. take t.len t.bytes.items };

    ghost invariant = { λ t. t.len ≤ length t.bytes.items };
}

/// Makes the bytes as many as that, all that there are staying.
#[cold]
#[inline(never)]
fn grow(bytes: &mut Vec<u8>, len: usize, size: usize) -> Result<(), AllocError>
    requires behind { len ≤ vec_len bytes.old }
    requires more { vec_len bytes.old ≤ size }
    ensures front { take len bytes.new.items ≡ take len bytes.old.items }
    ensures kept { len ≤ vec_len bytes.new }
    ensures size { OnOk result (vec_len bytes.new ≡ size) }
{
    bytes.resize(size, 0)
}

/// Makes room for so many bytes behind the first `len`, which stay.
#[inline(always)]
fn make_room(bytes: &mut Vec<u8>, len: usize, most: usize) -> Result<(), AllocError>
    requires { len ≤ vec_len bytes.old }
    ensures front { take len bytes.new.items ≡ take len bytes.old.items }
    ensures kept { len ≤ vec_len bytes.new }
    ensures room { OnOk result (len + most ≤ vec_len bytes.new) }
{
    if most <= bytes.len() - len {
        return Ok(());
    }
    let least = len.saturating_add(most);
    let double = bytes.len().saturating_mul(2);
    grow(bytes, len, if least < double { double } else { least })
}

impl Text {
    /// No text, and no room yet.
    pub(crate) fn new(alloc: Global) -> Text
        ensures { result ≡ [] }
    {
        Text {
            bytes: Vec::new(alloc),
            len: 0,
        }
    }

    /// How many bytes wait.
    #[inline(always)]
    pub(crate) fn len(&self) -> usize
        ensures { result ≡ length self.now }
    {
        self.len
    }

    /// The bytes that wait.
    pub(crate) fn as_slice(&self) -> &[u8]
        ensures { result.now ≡ self.now }
    {
        &self.bytes.as_slice()[..self.len]
    }

    /// Drops all text.
    #[inline(always)]
    pub(crate) fn clear(&mut self)
        ensures { self.new ≡ [] }
    {
        self.len = 0;
    }

    /// Appends bytes.
    pub(crate) fn put(&mut self, bytes: &[u8]) -> Result<(), AllocError>
        ensures { OnOk result (self.new ≡ self.old ++ bytes.now) }
    {
        make_room(&mut self.bytes, self.len, bytes.len())?;
        let buffer = self.bytes.as_mut_slice();
        self.len = place_bytes(buffer, self.len, bytes);
        Ok(())
    }

    /// Hands all text on to the writer, and flushes it.
    pub(crate) fn finish<W: Write>(&self, out: &mut W) -> Result<(), StreamFault>
        ensures printed { OnOk result (Appends (W.contents out.old) (W.contents out.new) self.now) }
        ensures failed { IfErr result IsOther }
    {
        out.write_all(self.as_slice())?;
        out.flush()?;
        Ok(())
    }

    /// Appends the line of a message, with a time of day or without.
    #[inline]
    pub(crate) fn put_message(
        &mut self,
        number: u64,
        channel: u16,
        time: Option<TimeOfDay>,
        seen: &Seen<'_>,
    ) -> Result<(), AllocError>
        ensures { OnOk result (self.new
            ≡ self.old ++ timed_line (option_map (λ t. time_of t) time) number channel (message_of seen.now)) }
    {
        let words = seen.word_count().saturating_mul(5);
        make_room(
            &mut self.bytes,
            self.len,
            words.saturating_add(MESSAGE_HEAD),
        )?;
        let buffer = self.bytes.as_mut_slice();
        self.len = place_message(buffer, self.len, number, channel, time, seen);
        Ok(())
    }
}
