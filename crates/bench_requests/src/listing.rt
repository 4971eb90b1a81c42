//! Where a listing goes: the standard output, whose reader may go away before the end.
ghost use Rattle.bench_requests.specs.Listings.{IsClosed, IsOther, is_over};
ghost use Rattle.std.specs.IoError.{error_kind};
ghost use Rattle.std.specs.Prelude.{◌≡◌, true, false, IfOk, IfErr, IsOk, MatchResult};

use crate::fault::CommandFault;
use std::io::{self, Write};

/// A writer of a listing. A reader that goes away (a closed pipe) is no fault of it: what follows is either asked for
/// no more, or taken and written nowhere.
#[derive(Drop)]
pub struct Listing<W: Write + Drop> {
    out: W,
    /// Whether what follows is taken.
    goes_on: bool,
    is_gone: bool,
}

impl<W: Write + Drop> Listing<W> {
    /// A listing that ends with its reader: behind it nothing decides any more what the command comes to. The writer
    /// fails then, and `is_gone` says why.
    pub fn ending(out: W) -> Listing<W>
        ensures gone { result.is_gone ≡ false }
        ensures on { result.goes_on ≡ false }
    {
        Listing {
            out,
            goes_on: false,
            is_gone: false,
        }
    }

    /// A listing that is made to its end also without a reader, since the end decides what the command comes to.
    pub fn going_on(out: W) -> Listing<W>
        ensures gone { result.is_gone ≡ false }
        ensures on { result.goes_on ≡ true }
    {
        Listing {
            out,
            goes_on: true,
            is_gone: false,
        }
    }

    /// Whether the reader has gone away.
    pub fn is_gone(&self) -> bool
        ensures { result ≡ self.now.is_gone }
    {
        self.is_gone
    }

    /// What a call comes to that failed so and was to take so many bytes.
    fn failed(&mut self, error: io::Error, len: usize) -> io::Result<usize>
        ensures gone { IsClosed (error_kind error) → self.new.is_gone ≡ true }
        ensures stays { IsOther (error_kind error) → self.new.is_gone ≡ self.old.is_gone }
        ensures on { self.new.goes_on ≡ self.old.goes_on }
        ensures taken { IfOk result (λ count. (count ≡ len) × IsClosed (error_kind error) × (self.old.goes_on ≡ true)) }
        ensures ended { IfErr result (λ told. told ≡ error) }
        ensures goes_on { IsClosed (error_kind error) → self.old.goes_on ≡ true → IsOk result }
    {
        if error.kind() == io::ErrorKind::BrokenPipe {
            self.is_gone = true;
            if self.goes_on {
                return Ok(len);
            }
        }
        Err(error)
    }
}

impl<W: Write + Drop> Write for Listing<W> {
    fn write(&mut self, buf: &[u8]) -> io::Result<usize> {
        if self.goes_on && self.is_gone {
            return Ok(buf.len());
        }
        match self.out.write(buf) {
            Ok(count) => Ok(count),
            Err(error) => self.failed(error, buf.len()),
        }
    }

    fn flush(&mut self) -> io::Result<()> {
        if self.goes_on && self.is_gone {
            return Ok(());
        }
        match self.out.flush() {
            Ok(()) => Ok(()),
            Err(error) => {
                self.failed(error, 0)?;
                Ok(())
            }
        }
    }
}

/// What a command comes to whose listing ended so: where its reader has gone, a fault of the standard output is none.
pub fn unless_gone<'a>(
    is_gone: bool,
    answer: Result<(), CommandFault<'a>>,
) -> Result<(), CommandFault<'a>>
    ensures done { IfOk answer.entry (λ _. IsOk result) }
    ensures ended { IfErr answer.entry (λ fault. MatchResult result
        (λ _. is_over is_gone fault ≡ true)
        (λ told. (told ≡ fault) × (is_over is_gone fault ≡ false))) }
{
    match answer {
        Ok(()) => Ok(()),
        Err(fault) => {
            if is_gone && fault.is_of_output() {
                Ok(())
            } else {
                Err(fault)
            }
        }
    }
}
