//! Bytes that a reader gave, on their way to whoever uses them.
ghost use Rattle.ch11_stream.specs.Feeding.{AreMoreReady, IsOther, bytes_given};
ghost use Rattle.std.specs.Io.KnownBytes.{Consumes, IsAtEnd};
ghost use Rattle.std.specs.Prelude.{false, Ok, IfOk, IfErr, OnOk};
ghost use Rattle.std.specs.Prelude.{◌≡◌, ◌+◌, ◌-◌, ◌<◌, ◌≤◌, [], ◌++◌, length, take, drop, slice_range, vec_len};

use crate::fault::StreamFault;
use std::alloc::{AllocError, Global};
use std::io;
use std::io::{ErrorKind, Read};
use std::marker::Model;

/// How many bytes there is room for at most, as long as no packet needs more.
const PIECE: usize = 262_144;

/// How many bytes are asked for at first, and behind bytes that were passed unread, of which more may be passed soon.
const FEW: usize = 4096;

/// Bytes that are ready, and room behind them. Contracts see the bytes, and how many more there is room for.
#[derive(Drop)]
pub(crate) struct Buffer {
    bytes: Vec<u8>,
    start: usize,
    end: usize,
    /// How many bytes a read asks for at most; one is always asked for.
    most: usize,
}

impl Model for Buffer {
    ghost use Rattle.ch11_stream.specs.Feeding.{Buffered};
    ghost use Rattle.std.specs.Prelude.{◌-◌, ◌≤◌, length, slice_range};

    ghost Value = { Buffered };

    ghost view = { λ b.
        record { ready = slice_range b.bytes.items b.start b.end; room = length b.bytes.items - b.end } };

    ghost invariant = { λ b. (b.start ≤ b.end) × (b.end ≤ length b.bytes.items) };
}

/// Moves the bytes between two places to the front.
fn move_to_front(bytes: &mut Vec<u8>, start: usize, end: usize)
    requires order { start ≤ end }
    requires within { end ≤ vec_len bytes.old }
    ensures moved { take (end - start) bytes.new.items ≡ slice_range bytes.old.items start end }
    ensures len { vec_len bytes.new ≡ vec_len bytes.old }
{
    bytes.copy_within(start..end, 0);
}

/// Makes the bytes so many more; the first `end`, which stay, are followed by zeros.
#[cold]
#[inline(never)]
fn grow(bytes: &mut Vec<u8>, end: usize, more: usize) -> Result<(), AllocError>
    requires { end ≤ vec_len bytes.old }
    ensures front { take end bytes.new.items ≡ take end bytes.old.items }
    ensures size { OnOk result (vec_len bytes.new ≡ vec_len bytes.old + more) }
    ensures kept { end ≤ vec_len bytes.new }
{
    let size = bytes.len().checked_add(more).ok_or(AllocError)?;
    bytes.resize(size, 0)
}

/// What a read came to: how many bytes it gave, and whether there may be more.
#[derive(Clone, Copy)]
struct Gave {
    count: usize,
    more: bool,
}

/// What a read came to. One that was interrupted gave nothing; one that failed otherwise is a device's fault, unless
/// the reader itself wanted memory.
fn judge(read: io::Result<usize>) -> Result<Gave, StreamFault>
    ensures count { IfOk result (λ gave. gave.count ≡ bytes_given read) }
    ensures ended { IfOk result (λ gave. gave.more ≡ false → read ≡ Ok 0) }
    ensures failed { IfErr result IsOther }
{
    match read {
        Ok(count) => Ok(Gave {
            count,
            more: count != 0,
        }),
        Err(e) if e.kind() == ErrorKind::Interrupted => Ok(Gave {
            count: 0,
            more: true,
        }),
        Err(e) if e.kind() == ErrorKind::OutOfMemory => Err(StreamFault::Memory),
        Err(_) => Err(StreamFault::Device),
    }
}

/// One read behind the first `end` bytes, which stay, of `most` bytes at most, but of one always.
fn read_behind<R: Read>(
    input: &mut R,
    bytes: &mut [u8],
    end: usize,
    most: usize,
) -> Result<Gave, StreamFault>
    requires { end < length bytes.old }
    ensures front { take end bytes.new ≡ take end bytes.old }
    ensures within { IfOk result (λ gave. end + gave.count ≤ length bytes.new) }
    ensures taken { IfOk result (λ gave. Consumes (R.remaining input.old) (R.remaining input.new)
        (take gave.count (drop end bytes.new))) }
    ensures ended { IfOk result (λ gave. gave.more ≡ false → (gave.count ≡ 0) × IsAtEnd (R.remaining input.new)) }
    ensures failed { IfErr result IsOther }
{
    let count = most.max(1).min(bytes.len() - end);
    let read = input.read(&mut bytes[end..end + count]);
    judge(read)
}

/// How many bytes to ask for at most behind a read that gave so many, where there was room for so many: twice as many
/// where it gave all that it was asked for.
fn most_behind(most: usize, room: usize, gave: usize) -> usize {
    if gave < most.min(room) {
        most
    } else {
        most.saturating_mul(2)
    }
}

impl Buffer {
    /// No bytes, and no room yet.
    pub(crate) fn none(alloc: Global) -> Buffer
        ensures { result.ready ≡ [] }
    {
        Buffer {
            bytes: Vec::new(alloc),
            start: 0,
            end: 0,
            most: FEW,
        }
    }

    /// How many bytes are ready.
    #[inline]
    pub(crate) fn len(&self) -> usize
        ensures { result ≡ length self.now.ready }
    {
        self.end - self.start
    }

    /// The bytes that are ready.
    #[inline]
    pub(crate) fn ready(&self) -> &[u8]
        ensures { result.now ≡ self.now.ready }
    {
        &self.bytes.as_slice()[self.start..self.end]
    }

    /// Lets the first so many bytes go.
    #[inline]
    pub(crate) fn pass(&mut self, count: usize)
        requires { count ≤ length self.old.ready }
        ensures { self.new.ready ≡ drop count self.old.ready }
    {
        self.start += count;
        if self.start == self.end {
            self.start = 0;
            self.end = 0;
        }
    }

    /// Moves the bytes that are ready to the front, where so many would not fit otherwise.
    fn settle(&mut self, size: usize)
        ensures ready { self.new.ready ≡ self.old.ready }
    {
        if self.start > 0 && self.bytes.len() - self.start < size {
            move_to_front(&mut self.bytes, self.start, self.end);
            self.end -= self.start;
            self.start = 0;
        }
    }

    /// Makes room behind the bytes that are ready, as a part of so many in all. There is room for twice as many bytes
    /// as before at most, and for more than before only where the reader gave all that it was asked for, or the part
    /// needs it: so no more is asked for than the reader has shown to have.
    pub(crate) fn make_room(&mut self, size: usize) -> Result<(), AllocError>
        requires { length self.old.ready < size }
        ensures ready { self.new.ready ≡ self.old.ready }
        ensures room { OnOk result (0 < self.new.room) }
    {
        self.settle(size);
        let len = self.bytes.len();
        if self.end == len || len < self.most.min(PIECE) {
            grow(&mut self.bytes, self.end, len.max(FEW))?;
        }
        Ok(())
    }

    /// One read behind the bytes that are ready; answers whether there may be more. A read that was interrupted gives
    /// nothing.
    pub(crate) fn read<R: Read>(&mut self, input: &mut R) -> Result<bool, StreamFault>
        requires { 0 < self.old.room }
        ensures read { IfOk result
            (AreMoreReady (R.remaining input.old) (R.remaining input.new) self.old.ready self.new.ready) }
        ensures failed { IfErr result IsOther }
    {
        let room = self.bytes.len() - self.end;
        let gave = read_behind(input, self.bytes.as_mut_slice(), self.end, self.most)?;
        self.end += gave.count;
        self.most = most_behind(self.most, room, gave.count);
        Ok(gave.more)
    }

    /// Has the next read ask for few bytes, and each behind one that gives all of them for up to twice as many.
    pub(crate) fn read_few(&mut self)
        ensures { self.new ≡ self.old }
    {
        self.most = FEW;
    }
}
