//! Recordings whose bytes can be read at any place.
ghost use Rattle.std.specs.Prelude.{◌≡◌, ℕ, List, Option, None, Some, OnOk, length, take, drop};

use std::io::{self, Error, ErrorKind};

/// A recording whose bytes can be read at any place, as those of a file can that seeks.
pub trait Places {
    // All its bytes, where they are known.
    ghost bytes: { Self → Option (List ℕ) } = { λ _. None };

    /// Reads as many bytes as there is room for, from an offset on. It fails where there are fewer.
    fn read_exact_at(&mut self, offset: usize, room: &mut [u8]) -> io::Result<()>
        ensures read { OnOk result ((file : List ℕ) → bytes self.old ≡ Some file
            → room.new ≡ take (length room.new) (drop offset file)) }
        ensures stays { bytes self.new ≡ bytes self.old };
}

/// Bytes in memory are read where they stand.
impl<'a> Places for &'a [u8] {
    ghost bytes = { λ kept. Some kept.now };

    fn read_exact_at(&mut self, offset: usize, room: &mut [u8]) -> io::Result<()> {
        let behind = self.get(offset..).unwrap_or(&[]);
        match behind.get(..room.len()) {
            Some(bytes) => {
                room.copy_from_slice(bytes);
                Ok(())
            }
            None => Err(Error::from(ErrorKind::UnexpectedEof)),
        }
    }
}
