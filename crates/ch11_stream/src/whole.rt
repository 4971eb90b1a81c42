//! The packets of a recording with all their bytes, one after the other.
ghost use Rattle.ch11_stream.specs.Reading.{IsNextPacket, at_start};
ghost use Rattle.ch11_stream.specs.WholePackets.{HasWhole, TakesWhole};
ghost use Rattle.std.specs.Io.KnownBytes.{prepend_known};
ghost use Rattle.std.specs.Prelude.{◌≡◌, [], IfOk};

use crate::buffer::Buffer;
use crate::fault::StreamFault;
use crate::looking::{Coming, look};
use crate::standing::Standing;
use crate::taking::check_end;
use ch11_f1::Messages;
use ch11_reader::{Checked, Packet, Refusal};
use std::alloc::{AllocError, Global};
use std::io::Read;
use std::marker::Model;

/// The packets of a recording that a reader gives, one after the other, in the file's order, of whatever type, each
/// with all its bytes, which are kept until the next one is read. The reader is asked for at most 4096 bytes at first,
/// for up to 262,144 as long as it gives all that it is asked for, and for up to twice the largest packet.
#[derive(Drop)]
pub struct WholePackets<R: Read> {
    input: R,
    at: Standing,
}

impl<R: Read> Model for WholePackets<R> {
    ghost use Rattle.ch11_stream.specs.Holding.{IsHolding, given_of, held_of};
    ghost use Rattle.ch11_stream.specs.Stretches.{bytes_in};
    ghost use Rattle.ch11_stream.specs.WholePackets.{WholeReading};
    ghost use Rattle.std.specs.Io.KnownBytes.{prepend_known};
    ghost use Rattle.std.specs.Prelude.{take, drop};

    ghost Value = { WholeReading };

    ghost view = { λ p. record {
      reading = record {
        earlier = p.at.listed;
        given = given_of p.at.last p.at.buffer.ready;
        kept = bytes_in p.at.last p.at.buffer.ready;
        offset = p.at.offset;
        left = prepend_known (drop (held_of p.at.last) p.at.buffer.ready) (R.remaining p.input);
        fault = p.at.fault;
      };
      whole = take (held_of p.at.last) p.at.buffer.ready;
    } };

    ghost invariant = { λ p. IsHolding p.at.listed p.at.offset p.at.last p.at.buffer.ready p.at.fault };
}

/// Takes the packet that begins the bytes to come, which stand at an offset; None at the reader's end.
fn take_whole<R: Read>(
    buffer: &mut Buffer,
    input: &mut R,
    offset: usize,
) -> Result<Option<Checked>, StreamFault>
    ensures { TakesWhole result offset (prepend_known buffer.old.ready (R.remaining input.old))
        (R.remaining input.new) buffer.new.ready }
{
    match look(buffer, input)? {
        Coming::End => Ok(None),
        Coming::Sound(checked) => {
            check_end(offset, checked.header.packet_length as usize)?;
            Ok(Some(checked))
        }
        Coming::Faulty(fault) => Err(StreamFault::Refused(Refusal { offset, fault })),
    }
}

impl<R: Read> WholePackets<R> {
    /// The packets that a reader will give, from the start of a file. Little memory is taken before the first is read.
    pub fn over(alloc: Global, input: R) -> Result<WholePackets<R>, AllocError>
    where
        R: Drop,
        ensures { IfOk result (λ p. p ≡ record { reading = at_start (R.remaining input); whole = [] }) }
    {
        let at = Standing::at_start(alloc)?;
        Ok(WholePackets { input, at })
    }

    /// The next packet, as an index lists it. None at the reader's end. The first fault, K1 to K5, N2, F1 to F3, with
    /// the packet's offset, is the answer from then on, and so is want of memory for a packet, and a failure of the
    /// reader. A read that was interrupted is made again.
    pub fn next(&mut self) -> Result<Option<Packet>, StreamFault>
        ensures next { IsNextPacket result self.old.reading self.new.reading }
        ensures whole { HasWhole result self.old self.new }
    {
        if let Some(fault) = self.at.fault {
            return Err(fault);
        }
        self.at.let_go();
        match take_whole(&mut self.at.buffer, &mut self.input, self.at.offset) {
            Ok(Some(checked)) => Ok(Some(self.at.enter(checked, Some(checked.header))?)),
            Ok(None) => Ok(None),
            Err(fault) => Err(self.at.fail(fault)),
        }
    }

    /// The messages of the packet that was read last, in the file's order; none where it is of another data type,
    /// before the first packet, and behind the last one or a fault.
    pub fn messages(&self) -> Messages<'_>
        ensures { result ≡ self.now.reading.given }
    {
        self.at.messages()
    }

    /// All bytes of the packet that was read last; none before the first packet, and behind the last one or a fault.
    pub fn bytes(&self) -> &[u8]
        ensures { result.now ≡ self.now.whole }
    {
        self.at.bytes()
    }
}
