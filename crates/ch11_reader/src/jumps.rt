//! Jumps over messages, so that looking for the next packet takes time in proportion to the bytes.
//!
//! A file may be made so that a header stands every 24 bytes, and behind each a body whose messages go on for megabytes
//! and end in a fault. Read one after the other, each of these bodies would be walked to its fault. So once as much was
//! walked in vain as the file is long, a table is made, in one pass from the end of the file: from each place that may
//! be a message's, how many messages a jump may pass over and how many bytes. A jump is one message, or one message and
//! the two jumps behind it where they are equal in messages; so any number of messages is walked in some forty jumps or
//! steps.
ghost use Rattle.ch11_f1.specs.BodyReading.{message_at, messages_at};
ghost use Rattle.ch11_reader.specs.Walking.{between, no_jump, Leads, IsJump, AreJumps};
ghost use Rattle.std.specs.Prelude.{◌≡◌, ℕ, ◌+◌, ◌*◌, ◌<◌, ◌≤◌, length, IfOk, IfErr, IfSome, Err, slice_index_or};

use byteorder::{ByteOrder, LittleEndian};
use ch11_f1::{BodyError, RECORD_HEAD};
use std::alloc::{AllocError, Global};
use std::marker::Model;

/// So many messages, which take so many bytes; neither where nothing is known.
#[derive(Clone, Copy)]
pub(crate) struct Jump {
    pub(crate) messages: u32,
    pub(crate) bytes: u32,
}

/// No jump.
const STAY: Jump = Jump {
    messages: 0,
    bytes: 0,
};

/// The jumps of a file that are known: from even places, and from odd ones. Contracts see the file's bytes.
#[derive(Drop)]
pub(crate) struct Jumps<'a> {
    file: &'a [u8],
    even: Vec<Jump>,
    odd: Vec<Jump>,
}

impl<'a> Model for Jumps<'a> {
    ghost use Rattle.ch11_reader.specs.Walking.{AreJumps};
    ghost use Rattle.std.specs.Prelude.{ℕ, List};

    ghost Value = { List ℕ };

    ghost view = { λ j. j.file.now };

    ghost invariant = { λ j. AreJumps j.file.now 0 j.even.items × AreJumps j.file.now 1 j.odd.items };
}

/// Where the message at a place ends, or its first fault, in the bytes up to an end.
fn message_end(file: &[u8], place: usize, end: usize) -> Result<usize, BodyError>
    requires order { place ≤ end }
    requires within { end ≤ length file.now }
    ensures within { IfOk result (λ next. (place + 14 ≤ next) × (next ≤ end) × (next < place + 65550)) }
    ensures leads { IfOk result (λ next. Leads file.now place 1 next) }
    ensures fault { IfErr result (λ e. message_at (between place end file.now) ≡ Err e) }
{
    if end - place < RECORD_HEAD {
        return Err(BodyError::End);
    }
    let size = LittleEndian::read_u16(&file[place + 12..]) as usize;
    if size % 2 == 1 {
        return Err(BodyError::Odd);
    }
    if end - place < RECORD_HEAD + size {
        return Err(BodyError::End);
    }
    Ok(place + RECORD_HEAD + size)
}

/// An entry of a table; no jump past its end.
fn jump_at(table: &[Jump], i: usize) -> Jump
    ensures { result ≡ slice_index_or table.now i no_jump }
{
    match table.get(i) {
        Some(jump) => *jump,
        None => STAY,
    }
}

impl<'a> Jumps<'a> {
    /// No jumps yet.
    pub(crate) fn none(alloc: Global, file: &'a [u8]) -> Jumps<'a>
        ensures { result ≡ file.now }
    {
        Jumps {
            file,
            even: Vec::new(alloc),
            odd: Vec::new(alloc),
        }
    }

    /// Whether no jump is known from this place and those that lie an even number of bytes from it.
    pub(crate) fn is_empty_at(&self, place: usize) -> bool {
        if place % 2 == 0 {
            self.even.is_empty()
        } else {
            self.odd.is_empty()
        }
    }

    /// The jump from a place.
    fn known(&self, place: usize) -> Jump
        ensures { IsJump self.now place result }
    {
        if place % 2 == 0 {
            jump_at(&self.even, place / 2)
        } else {
            jump_at(&self.odd, place / 2)
        }
    }

    /// The jump over a message, and over the two jumps behind it; none where they differ.
    fn longer(&self, place: usize, next: usize) -> Option<Jump>
        requires order { place ≤ next }
        requires within { next ≤ length self.now }
        requires near { next < place + 65550 }
        requires leads { Leads self.now place 1 next }
        ensures { IfSome result (IsJump self.now place) }
    {
        let first = self.known(next);
        if first.messages == 0 || self.file.len() - next < first.bytes as usize {
            return None;
        }
        let second = self.known(next + first.bytes as usize);
        let messages = 1 + first.messages as u64 + second.messages as u64;
        let bytes = (next - place) as u64 + first.bytes as u64 + second.bytes as u64;
        if first.messages != second.messages || messages > 0xFFFF_FFFF || bytes > 0xFFFF_FFFF {
            return None;
        }
        Some(Jump {
            messages: messages as u32,
            bytes: bytes as u32,
        })
    }

    /// The longest jump from a place that follows from those behind it.
    fn farthest(&self, place: usize) -> Jump
        requires { place ≤ length self.now }
        ensures { IsJump self.now place result }
    {
        let Ok(next) = message_end(self.file, place, self.file.len()) else {
            return STAY;
        };
        match self.longer(place, next) {
            Some(jump) => jump,
            None => Jump {
                messages: 1,
                bytes: (next - place) as u32,
            },
        }
    }

    /// Keeps a jump from a place.
    fn keep(&mut self, place: usize, jump: Jump)
        requires { IsJump self.old place jump }
        ensures { self.new ≡ self.old }
    {
        let i = place / 2;
        if place % 2 == 0 {
            if i < self.even.len() {
                self.even[i] = jump;
            }
        } else if i < self.odd.len() {
            self.odd[i] = jump;
        }
    }

    /// Takes a table of jumps from even or from odd places.
    fn lay(&mut self, first: usize, table: Vec<Jump>)
        requires parity { first < 2 }
        requires jumps { AreJumps self.old first table.items }
        ensures { self.new ≡ self.old }
    {
        if first == 0 {
            self.even = table;
        } else {
            self.odd = table;
        }
    }

    /// Makes the table of a place and of those that lie an even number of bytes from it.
    pub(crate) fn make(&mut self, alloc: Global, place: usize) -> Result<(), AllocError>
        ensures { self.new ≡ self.old }
    {
        let count = self.file.len() / 2;
        let table = vec![in alloc; STAY; count]?;
        let first = place % 2;
        self.lay(first, table);
        let mut left = count;
        'places: while left > 0 {
            left -= 1;
            let place = 2 * left + first;
            let jump = self.farthest(place);
            self.keep(place, jump);
        }
        Ok(())
    }

    /// The first fault of so many messages between two places. None where they are all there.
    pub(crate) fn fault(&self, start: usize, end: usize, count: u32) -> Option<BodyError>
        requires order { start ≤ end }
        requires within { end ≤ length self.now }
        ensures { IfSome result (λ e. messages_at count (between start end self.now) ≡ Err e) }
    {
        let mut place = start;
        let mut left = count;
        'messages: while left > 0 {
            let jump = self.known(place);
            if jump.messages > 0 && jump.messages <= left && jump.bytes as usize <= end - place {
                place += jump.bytes as usize;
                left -= jump.messages;
                continue;
            }
            match message_end(self.file, place, end) {
                Ok(next) => {
                    place = next;
                    left -= 1;
                }
                Err(fault) => return Some(fault),
            }
        }
        None
    }
}
