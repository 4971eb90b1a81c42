//! A recording that may be damaged, as a reader of its sound packets.
ghost use Rattle.std.specs.Prelude.{◌≤◌, length};

use crate::advance::Advance;
use crate::fault::StreamFault;
use crate::stretches::Stretches;
use std::alloc::{AllocError, Global};
use std::io::{self, Error, ErrorKind, Read};

/// The packets of a recording without a fault, one behind the other, as `Stretches` reads them: bytes that can be read
/// as a recording of their own. Its messages and sequence numbers are those of the damaged recording; where a packet
/// stands in the file is lost. Want of memory for a packet is an error of the kind `OutOfMemory`. No contract says
/// which bytes these are.
#[derive(Drop)]
pub struct SoundPackets<R: Read> {
    stretches: Stretches<R>,
    /// How many bytes of the packet that was read last were given.
    given: usize,
}

impl<R: Read> SoundPackets<R> {
    /// The packets of what a reader will give, from the start of a file.
    pub fn over(alloc: Global, input: R) -> Result<SoundPackets<R>, AllocError>
    where
        R: Drop,
    {
        Ok(SoundPackets {
            stretches: Stretches::over(alloc, input)?,
            given: 0,
        })
    }

    /// Gives bytes of the packet that was read last that were not given yet, as many as there is room for.
    fn give(&mut self, room: &mut [u8]) -> usize
        ensures { result ≤ length room.new }
    {
        let rest = self.stretches.packet().get(self.given..).unwrap_or(&[]);
        let count = rest.len().min(room.len());
        room[..count].copy_from_slice(&rest[..count]);
        self.given = self.given.saturating_add(count);
        count
    }
}

/// A fault of the stretches as an error of a reader.
fn error_of(fault: StreamFault) -> Error {
    match fault {
        StreamFault::Memory => Error::from(ErrorKind::OutOfMemory),
        _ => Error::from(ErrorKind::Other),
    }
}

impl<R: Read> Read for SoundPackets<R> {
    fn read(&mut self, buf: &mut [u8]) -> io::Result<usize> {
        'stretches: for _made in 0..u64::MAX {
            let count = self.give(buf);
            if count > 0 || buf.is_empty() {
                return Ok(count);
            }
            match self.stretches.next() {
                Ok(Some(_)) => self.given = 0,
                Ok(None) => return Ok(0),
                Err(fault) => return Err(error_of(fault)),
            }
        }
        Err(Error::from(ErrorKind::Other))
    }
}

impl<R: Read> Advance for SoundPackets<R> {
    /// None: what is sound is seen as it is read.
    fn advance(&mut self, _count: u64) -> io::Result<u64> {
        Ok(0)
    }
}
