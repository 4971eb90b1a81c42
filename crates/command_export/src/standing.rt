//! Recordings whose packets are read where they stand.

use bench_complete::Places;
use command_parts::recordings::Recording;
use command_parts::requests::{CommandFault, open_to_read};
use std::io::{self, IsTerminal, Read, Seek, SeekFrom};
use std::rt::{Clock, Files};

/// The bytes of a recording at any place.
#[derive(Drop)]
pub(crate) enum Standing<'f, F> {
    /// Those that are kept.
    Kept(&'f [u8]),
    /// Those of a file, which is read at its places by a seek. No clause knows them.
    File(F),
}

impl<'f, F: Read + Seek> Places for Standing<'f, F> {
    fn read_exact_at(&mut self, offset: usize, room: &mut [u8]) -> io::Result<()> {
        match self {
            Standing::Kept(bytes) => bytes.read_exact_at(offset, room),
            Standing::File(file) => {
                file.seek(SeekFrom::Start(offset as u64))?;
                file.read_exact(room)
            }
        }
    }
}

/// The bytes of a recording at any place: a file is opened once more.
pub(crate) fn standing_of<'f, 'a, R: Files + AllocGlobal + Clock, E: Eprint + IsTerminal>(
    rt: &R,
    recording: &Recording<'f, 'a, R, E>,
    name: &'a str,
) -> Result<Standing<'f, R::File>, CommandFault<'a>> {
    match recording.bytes() {
        Some(bytes) => Ok(Standing::Kept(bytes)),
        None => Ok(Standing::File(open_to_read(rt, name)?)),
    }
}
