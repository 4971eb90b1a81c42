//! A recording that can be read more than once.
ghost use Rattle.std.specs.Prelude.{◌≡◌, ℕ, List, Option, None, Some, IfOk};

use ch11_stream::Advance;
use std::io;

/// A recording that is read anew from its start for each pass, as a file is that is opened again.
pub trait Reopen {
    // The bytes that each pass finds, where they are known.
    ghost bytes: { Self → Option (List ℕ) } = { λ _. None };

    /// What reads it.
    type Reader: Advance + Drop;

    /// A reader at the recording's first byte. It fails where the recording can't be opened.
    fn reopen(&self) -> io::Result<Self::Reader>
        ensures { (file : List ℕ) → bytes self.now ≡ Some file
            → IfOk result (λ reader. Self.Reader.remaining reader ≡ Some file) };
}

/// Bytes in memory are read from the first one again.
impl<'a> Reopen for &'a [u8] {
    ghost bytes = { λ kept. Some kept.now };

    type Reader = &'a [u8];

    fn reopen(&self) -> io::Result<&'a [u8]> {
        Ok(*self)
    }
}
