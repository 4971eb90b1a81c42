//! A sink in memory.
ghost use Rattle.std.specs.Prelude.{IsOk, Some};
ghost use Rattle.std.specs.Prelude.{◌≡◌, ◌++◌, ◌+◌, ◌-◌, ◌<◌, ◌^◌, [], true, false, length, is_ok, if◌then◌else◌, IfOk};

use crate::sink::{Sink, SinkFault};
use std::alloc::Global;
use std::marker::Model;

/// A sink that keeps what it takes in memory. Refused memory is a fault.
#[derive(Drop)]
pub struct MemorySink {
    bytes: Vec<u8>,
    failures: u64,
    finished: bool,
}

impl Model for MemorySink {
    ghost use Rattle.ch11_writer.specs.Sinks.{Memory};

    ghost Value = { Memory };

    ghost view = { λ s. record { bytes = s.bytes.items; failures = s.failures; finished = s.finished } };
}

impl MemorySink {
    /// An empty sink. It takes no memory yet.
    pub fn make(alloc: Global) -> MemorySink
        ensures { result ≡ record { bytes = []; failures = 0; finished = false } }
    {
        MemorySink {
            bytes: Vec::new(alloc),
            failures: 0,
            finished: false,
        }
    }

    /// What it took.
    pub fn bytes(&self) -> &[u8]
        ensures { result.now ≡ self.now.bytes }
    {
        &self.bytes
    }

    /// Counts a failure, for a sink that holds this one and fails where this one would not.
    pub(crate) fn fail(&mut self) -> SinkFault
        requires { self.old.failures < 2 ^ 64 - 1 }
        ensures { self.new ≡ record self.old { failures = self.old.failures + 1 } }
    {
        self.failures += 1;
        SinkFault
    }
}

impl Sink for MemorySink {
    ghost taken = { λ s. Some s.bytes };

    ghost failures = { λ s. s.failures };

    ghost finished = { λ s. s.finished };

    /// Takes all of the bytes, or none where memory is refused.
    fn take(&mut self, bytes: &[u8]) -> Result<usize, SinkFault>
        requires some { 0 < length bytes.now }
        requires countable { self.old.failures < 2 ^ 64 - 1 }
        ensures count { IfOk result (λ n. n ≡ length bytes.now) }
        ensures after { self.new ≡ (if is_ok result
            then record self.old { bytes = self.old.bytes ++ bytes.now }
            else record self.old { failures = self.old.failures + 1 }) }
    {
        match self.bytes.extend_from_slice(bytes) {
            Ok(()) => Ok(bytes.len()),
            Err(_) => Err(self.fail()),
        }
    }

    /// Succeeds always.
    fn finish(&mut self) -> Result<(), SinkFault>
        ensures ok { IsOk result }
        ensures after { self.new ≡ record self.old { finished = true } }
    {
        self.finished = true;
        Ok(())
    }

    fn failures(&self) -> u64 {
        self.failures
    }
}
