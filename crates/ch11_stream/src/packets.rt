//! The packets of a recording, one after the other.
ghost use Rattle.ch11_stream.specs.Holding.{last_of};
ghost use Rattle.ch11_stream.specs.Reading.{IsNextPacket, at_start};
ghost use Rattle.std.specs.Prelude.{◌≡◌, IfOk};

use crate::advance::Advance;
use crate::fault::StreamFault;
use crate::standing::Standing;
use crate::taking::{is_kept_by, take_next};
use ch11_f1::Messages;
use ch11_header::Header;
use ch11_reader::Packet;
use std::alloc::{AllocError, Global};
use std::marker::Model;

/// The packets of a recording that a reader gives, one after the other, in the file's order. Of a packet of
/// MIL-STD-1553 messages and of a time packet its bytes are kept until the next one is read; packets of other data
/// types are passed, unread where they are long and the reader can. The reader is asked for at most 4096 bytes at
/// first, for up to 262,144 as long as it gives all that it is asked for, and for up to twice the largest packet of
/// these two types.
#[derive(Drop)]
pub struct Packets<R: Advance> {
    input: R,
    at: Standing,
}

impl<R: Advance> Model for Packets<R> {
    ghost use Rattle.ch11_stream.specs.Holding.{IsHolding, given_of, held_of};
    ghost use Rattle.ch11_stream.specs.Reading.{Reading};
    ghost use Rattle.std.specs.Io.KnownBytes.{prepend_known};
    ghost use Rattle.std.specs.Prelude.{take, drop};

    ghost Value = { Reading };

    ghost view = { λ p. record {
      earlier = p.at.listed;
      given = given_of p.at.last p.at.buffer.ready;
      kept = take (held_of p.at.last) p.at.buffer.ready;
      offset = p.at.offset;
      left = prepend_known (drop (held_of p.at.last) p.at.buffer.ready) (R.remaining p.input);
      fault = p.at.fault;
    } };

    ghost invariant = { λ p. IsHolding p.at.listed p.at.offset p.at.last p.at.buffer.ready p.at.fault };
}

/// The header of a packet whose bytes are ready, as those of one of messages and of a time packet are.
fn kept_of(header: Header) -> Option<Header>
    ensures { result ≡ last_of header }
{
    if is_kept_by(&header) {
        Some(header)
    } else {
        None
    }
}

impl<R: Advance> Packets<R> {
    /// The packets that a reader will give, from the start of a file. Little memory is taken before the first is read.
    pub fn over(alloc: Global, input: R) -> Result<Packets<R>, AllocError>
    where
        R: Drop,
        ensures { IfOk result (λ p. p ≡ at_start (R.remaining input)) }
    {
        let at = Standing::at_start(alloc)?;
        Ok(Packets { input, at })
    }

    /// The next packet, as an index lists it. None at the reader's end. The first fault, K1 to K5, N2, F1 to F3, with
    /// the packet's offset, is the answer from then on, and so is want of memory for a packet whose bytes are
    /// kept, and a failure of the reader. A read that was interrupted is made again.
    pub fn next(&mut self) -> Result<Option<Packet>, StreamFault>
        ensures { IsNextPacket result self.old self.new }
    {
        if let Some(fault) = self.at.fault {
            return Err(fault);
        }
        self.at.let_go();
        match take_next(&mut self.at.buffer, &mut self.input, self.at.offset) {
            Ok(Some(checked)) => {
                let last = kept_of(checked.header);
                Ok(Some(self.at.enter(checked, last)?))
            }
            Ok(None) => Ok(None),
            Err(fault) => Err(self.at.fail(fault)),
        }
    }

    /// The messages of the packet that was read last, in the file's order; none where it is of another data type,
    /// before the first packet, and behind the last one or a fault.
    pub fn messages(&self) -> Messages<'_>
        ensures { result ≡ self.now.given }
    {
        self.at.messages()
    }

    /// The bytes of the packet that was read last, where it is of messages or a time packet; none where it is of
    /// another data type, before the first packet, and behind the last one or a fault.
    pub fn bytes(&self) -> &[u8]
        ensures { result.now ≡ self.now.kept }
    {
        self.at.bytes()
    }
}
