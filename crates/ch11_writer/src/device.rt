//! A sink over a file, or any other writer of the standard library.
ghost use Rattle.std.specs.Prelude.{◌≡◌, false};

use crate::sink::{Sink, SinkFault};
use std::io::Write;
use std::marker::Model;

/// A sink over a writer of the standard library, as a file. An error of the writer is a fault, and so is a write that
/// takes no byte. What it took is known where the writer tells its bytes.
#[derive(Drop)]
pub struct StdSink<W: Write> {
    writer: W,
    failures: u64,
    finished: bool,
}

impl<W: Write> Model for StdSink<W> {
    ghost use Rattle.ch11_writer.specs.Sinks.{Device};

    ghost Value = { Device W };

    ghost view = { λ s. record { writer = s.writer; failures = s.failures; finished = s.finished } };
}

impl<W: Write> StdSink<W> {
    /// A sink over this writer, which has taken nothing and has not failed.
    pub fn make(writer: W) -> StdSink<W>
        ensures { result ≡ record { writer = writer; failures = 0; finished = false } }
    {
        StdSink {
            writer,
            failures: 0,
            finished: false,
        }
    }

    /// The writer as it stands.
    pub fn writer(&self) -> &W
        ensures { result.now ≡ self.now.writer }
    {
        &self.writer
    }
}

impl<W: Write> Sink for StdSink<W> {
    ghost taken = { λ s. W.contents s.writer };

    ghost failures = { λ s. s.failures };

    ghost finished = { λ s. s.finished };

    fn take(&mut self, bytes: &[u8]) -> Result<usize, SinkFault> {
        match self.writer.write(bytes) {
            Ok(n) if n > 0 => Ok(n),
            _ => {
                self.failures += 1;
                Err(SinkFault)
            }
        }
    }

    fn finish(&mut self) -> Result<(), SinkFault> {
        if self.writer.flush().is_err() {
            self.failures += 1;
            return Err(SinkFault);
        }
        self.finished = true;
        Ok(())
    }

    fn failures(&self) -> u64 {
        self.failures
    }
}
