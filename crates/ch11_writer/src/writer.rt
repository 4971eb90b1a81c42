//! The writer of packets into a sink.
ghost use Rattle.ch11_writer.specs.Codes.{fault_text};
ghost use Rattle.ch11_writer.specs.Putting.{IsPut};
ghost use Rattle.ch11_writer.specs.Sent.{shown_by, AreBytesSent};
ghost use Rattle.ch11_writer.specs.Writing.{IsWritten, Puts, PutsNone, progress_of, Writing};
ghost use Rattle.std.specs.Io.KnownBytes.{Keeps};
ghost use Rattle.std.specs.Prelude.{if◌then◌else◌, IfErr, IsOk, OnOk, Some};
ghost use Rattle.std.specs.Prelude.{◌≡◌, [], ◌+◌, ◌-◌, ◌<◌, ◌^◌, ◌↔◌, ◌||◌, true, false, length, is_ok};

use crate::sink::Sink;
use std::fmt::{self, Display, Formatter, Write};
use std::marker::Model;

/// V1: the sink failed in this call or an earlier one. `taken` counts the bytes that it took from the writer.
#[derive(Clone, Copy, Debug, PartialEq, Eq)]
pub struct WriteFault {
    pub taken: u64,
}

impl Display for WriteFault {
    ghost output = { λ e. Some (fault_text e) };

    fn fmt<W: Write>(&self, f: &mut Formatter<W>) -> fmt::Result {
        write!(f, "V1 taken {}", self.taken)
    }
}

/// How far a run of bytes came: so many were taken, and whether those are all.
#[derive(Clone, Copy)]
struct Sent {
    count: usize,
    whole: bool,
}

/// Gives the sink the bytes until it has taken all or failed.
fn send<S: Sink>(sink: &mut S, bytes: &[u8]) -> Sent
    requires { S.failures sink.old < 2 ^ 64 - 1 }
    ensures { AreBytesSent result bytes.now (shown_by S.taken S.failures S.finished sink.old)
        (shown_by S.taken S.failures S.finished sink.new) }
{
    let mut count = 0;
    while count < bytes.len() {
        match sink.take(&bytes[count..]) {
            Ok(n) => count += n,
            Err(_) => {
                return Sent {
                    count,
                    whole: false,
                };
            }
        }
    }
    Sent { count, whole: true }
}

/// Writes a recording to a sink until the sink fails, and calls it no more from then on.
#[derive(Drop)]
pub struct Writer<S: Sink> {
    sink: S,
    taken: u64,
    failed: bool,
    finished: bool,
}

impl<S: Sink> Model for Writer<S> {
    ghost Value = { Writing S };

    ghost view = { λ w. record { sink = w.sink; taken = w.taken; failed = w.failed; finished = w.finished } };

    ghost invariant = { λ w. w.failed ≡ false → S.failures w.sink < 2 ^ 64 - 1 };
}

impl<S: Sink> Writer<S> {
    /// A writer that has written nothing.
    pub fn make(sink: S) -> Writer<S>
        requires countable { S.failures sink < 2 ^ 64 - 1 }
        ensures made { result ≡ record { sink = sink; taken = 0; failed = false; finished = false } }
        ensures written { IsWritten [] (S.taken sink) (progress_of S.taken result) }
    {
        Writer {
            sink,
            taken: 0,
            failed: false,
            finished: false,
        }
    }

    /// Writes the packets that stand first in the recording, as they are. It answers and fails as `put` does.
    pub fn prologue(&mut self, bytes: &[u8]) -> Result<(), WriteFault>
        requires unfinished { self.old.finished ≡ false }
        requires few { self.old.taken + length bytes.now < 2 ^ 64 }
        ensures put { IsPut (shown_by S.taken S.failures S.finished) bytes.now result self.old self.new }
        ensures written { Puts bytes.now (progress_of S.taken self.old) (progress_of S.taken self.new) }
    {
        self.put(bytes)
    }

    /// Writes the bytes. V1 where the sink fails now or has failed before; from its first fault on the sink is called
    /// no more.
    pub fn put(&mut self, bytes: &[u8]) -> Result<(), WriteFault>
        requires unfinished { self.old.finished ≡ false }
        requires few { self.old.taken + length bytes.now < 2 ^ 64 }
        ensures put { IsPut (shown_by S.taken S.failures S.finished) bytes.now result self.old self.new }
        ensures written { Puts bytes.now (progress_of S.taken self.old) (progress_of S.taken self.new) }
    {
        if self.failed {
            return Err(WriteFault { taken: self.taken });
        }
        let sent = send(&mut self.sink, bytes);
        self.taken += sent.count as u64;
        self.failed = !sent.whole;
        if sent.whole {
            Ok(())
        } else {
            Err(WriteFault { taken: self.taken })
        }
    }

    /// Tells the sink that the recording is whole. V1 as in `put`. After a success only `into_sink` follows.
    pub fn finish(&mut self) -> Result<(), WriteFault>
        requires unfinished { self.old.finished ≡ false }
        ensures ok { IsOk result ↔ (self.new.failed ≡ false) }
        ensures failures { S.failures self.new.sink ≡ (if self.old.failed || is_ok result
            then S.failures self.old.sink else S.failures self.old.sink + 1) }
        ensures fault { IfErr result (λ e. e.taken ≡ self.new.taken) }
        ensures silent { self.old.failed ≡ true → self.new ≡ self.old }
        ensures taken { Keeps (S.taken self.old.sink) (S.taken self.new.sink) }
        ensures count { self.new.taken ≡ self.old.taken }
        ensures written { PutsNone (progress_of S.taken self.old) (progress_of S.taken self.new) }
        ensures told { OnOk result (S.finished self.new.sink ≡ true) }
        ensures finished { self.new.finished ≡ is_ok result }
    {
        if !self.failed && self.sink.finish().is_ok() {
            self.finished = true;
            return Ok(());
        }
        self.failed = true;
        Err(WriteFault { taken: self.taken })
    }

    /// The sink as it stands.
    pub fn into_sink(self) -> S
        ensures { result ≡ self.sink }
    {
        self.sink
    }
}
