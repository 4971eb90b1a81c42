//! The stretches of a recording that may be damaged, one after the other.
ghost use Rattle.ch11_stream.specs.Reading.{at_start};
ghost use Rattle.ch11_stream.specs.Stretches.{IsNextStretch, TakesStretch};
ghost use Rattle.std.specs.Io.KnownBytes.{prepend_known};
ghost use Rattle.std.specs.Prelude.{◌≡◌, ◌≤◌, length, drop, IfOk};

use crate::buffer::Buffer;
use crate::fault::StreamFault;
use crate::looking::{Coming, look, pass_skip};
use crate::standing::Standing;
use crate::stretch::Stretch;
use crate::taking::{check_end, is_kept_by};
use ch11_f1::Messages;
use ch11_reader::{Checked, Skip};
use std::alloc::{AllocError, Global};
use std::io::Read;
use std::marker::Model;

/// What was taken of the bytes to come: nothing at their end, a packet, all bytes of which are ready, or bytes that
/// were passed.
#[derive(Clone, Copy)]
pub(crate) enum Taken {
    End,
    Sound(Checked),
    Skipped(Skip),
}

/// A recording that a reader gives, read as far as it is sound, one stretch after the other: where a packet without a
/// fault begins, it is read; elsewhere all bytes up to the next such packet, or up to the end, are skipped. All bytes
/// of a packet are kept until the next stretch is read, and as many as a header says are kept while it is judged; those
/// that are skipped are passed.
#[derive(Drop)]
pub struct Stretches<R: Read> {
    input: R,
    at: Standing,
}

impl<R: Read> Model for Stretches<R> {
    ghost use Rattle.ch11_stream.specs.Holding.{given_of, held_of};
    ghost use Rattle.ch11_stream.specs.Reading.{Reading};
    ghost use Rattle.ch11_stream.specs.Stretches.{HasPacketReady, bytes_in};
    ghost use Rattle.std.specs.Io.KnownBytes.{prepend_known};
    ghost use Rattle.std.specs.Prelude.{drop};

    ghost Value = { Reading };

    ghost view = { λ s. record {
      earlier = s.at.listed;
      given = given_of s.at.last s.at.buffer.ready;
      kept = bytes_in s.at.last s.at.buffer.ready;
      offset = s.at.offset;
      left = prepend_known (drop (held_of s.at.last) s.at.buffer.ready) (R.remaining s.input);
      fault = s.at.fault;
    } };

    ghost invariant = { λ s. HasPacketReady s.at.listed s.at.offset s.at.last s.at.buffer.ready s.at.fault };
}

/// Takes the stretch that begins the bytes to come, which stand at an offset.
fn take_stretch<R: Read>(
    buffer: &mut Buffer,
    input: &mut R,
    offset: usize,
) -> Result<Taken, StreamFault>
    ensures { TakesStretch result offset (prepend_known buffer.old.ready (R.remaining input.old))
        (R.remaining input.new) buffer.new.ready }
{
    match look(buffer, input)? {
        Coming::End => Ok(Taken::End),
        Coming::Sound(checked) => {
            check_end(offset, checked.header.packet_length as usize)?;
            Ok(Taken::Sound(checked))
        }
        Coming::Faulty(fault) => {
            let length = pass_skip(buffer, input)?;
            check_end(offset, length)?;
            Ok(Taken::Skipped(Skip {
                offset,
                length,
                fault,
            }))
        }
    }
}

impl<R: Read> Stretches<R> {
    /// The stretches of what a reader will give, from the start of a file. Little memory is taken before the first is
    /// read.
    pub fn over(alloc: Global, input: R) -> Result<Stretches<R>, AllocError>
    where
        R: Drop,
        ensures { IfOk result (λ s. s ≡ at_start (R.remaining input)) }
    {
        let at = Standing::at_start(alloc)?;
        Ok(Stretches { input, at })
    }

    /// The next stretch. None at the reader's end. Nothing is refused: want of memory for a packet, and a failure of
    /// the reader, are the answer from then on. A read that was interrupted is made again.
    pub fn next(&mut self) -> Result<Option<Stretch>, StreamFault>
        ensures { IsNextStretch result self.old self.new }
    {
        if let Some(fault) = self.at.fault {
            return Err(fault);
        }
        self.at.let_go();
        match take_stretch(&mut self.at.buffer, &mut self.input, self.at.offset) {
            Ok(Taken::Sound(checked)) => {
                let packet = self.at.enter(checked, Some(checked.header))?;
                Ok(Some(Stretch::Sound(packet)))
            }
            Ok(Taken::Skipped(skip)) => {
                self.at.offset += skip.length;
                Ok(Some(Stretch::Skipped(skip)))
            }
            Ok(Taken::End) => Ok(None),
            Err(fault) => Err(self.at.fail(fault)),
        }
    }

    /// The messages of the packet that was read last, in the file's order; none where it is of another data type, and
    /// where the last stretch is no packet.
    pub fn messages(&self) -> Messages<'_>
        ensures { result ≡ self.now.given }
    {
        self.at.messages()
    }

    /// The bytes of the packet that was read last, where it is of messages or a time packet; none where it is of
    /// another data type, and where the last stretch is no packet.
    pub fn bytes(&self) -> &[u8]
        ensures { result.now ≡ self.now.kept }
    {
        let Some(header) = &self.at.last else {
            return &[];
        };
        if is_kept_by(header) {
            self.at.bytes()
        } else {
            &[]
        }
    }

    /// All bytes of the packet that was read last; none where the last stretch is no packet.
    pub(crate) fn packet(&self) -> &[u8] {
        self.at.bytes()
    }
}
