//! Readers that may pass bytes without giving them.
ghost use Rattle.ch11_stream.specs.Feeding.{IsAdvanced};
ghost use Rattle.std.specs.Prelude.{◌≤◌, IfOk};

use std::io;
use std::io::Read;

/// A reader that may pass bytes to come without giving them, as a file can that seeks.
pub trait Advance: Read {
    /// Passes up to `count` of the bytes to come, and answers how many: 0 where they have to be read. Behind the last
    /// byte a reader may go on passing: then the next read gives none.
    fn advance(&mut self, count: u64) -> io::Result<u64>
        ensures passed { IfOk result
            (λ passed. IsAdvanced count passed (Self.remaining self.old) (Self.remaining self.new)) };
}

/// Bytes in memory are passed as they are.
impl Advance for &[u8] {
    fn advance(&mut self, count: u64) -> io::Result<u64> {
        let passed = self.len().min(usize::try_from(count).unwrap_or(usize::MAX));
        *self = &self[passed..];
        Ok(passed as u64)
    }
}
