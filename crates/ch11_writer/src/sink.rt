//! Sinks: what takes the bytes of a recording, and may fail.
ghost use Rattle.std.specs.Io.KnownBytes.{Keeps, WriteAppends};
ghost use Rattle.std.specs.Prelude.{if◌then◌else◌, IfOk};
ghost use Rattle.std.specs.Prelude.{◌≡◌, ℕ, List, ◌+◌, ◌-◌, ◌≤◌, ◌<◌, ◌^◌, Bool, true, length, take, is_ok};
ghost use Rattle.std.specs.declared.option.Option.{Option};

/// A sink did not do what it was asked for: it took no byte, or it could not be finished.
#[derive(Clone, Copy, Debug, PartialEq, Eq)]
pub struct SinkFault;

/// What takes the bytes of a recording: memory, a file, or anything else that may fail.
pub trait Sink {
    // The bytes that it has taken, where they are known.
    ghost taken: { Self → Option (List ℕ) };

    // How often it has failed.
    ghost failures: { Self → ℕ };

    // Whether it has been told that no byte follows.
    ghost finished: { Self → Bool };

    /// Takes one to all of the bytes, and says how many. A fault takes none.
    fn take(&mut self, bytes: &[u8]) -> Result<usize, SinkFault>
        requires some { 0 < length bytes.now }
        requires countable { failures self.old < 2 ^ 64 - 1 }
        ensures count { IfOk result (λ n. (0 < n) × (n ≤ length bytes.now)) }
        ensures taken { WriteAppends (taken self.old) (taken self.new) result bytes.now }
        ensures failures { failures self.new ≡ (if is_ok result then failures self.old else failures self.old + 1) }
        ensures finished { finished self.new ≡ finished self.old };

    /// Tells the sink that no byte follows, so that it hands on what it still holds.
    fn finish(&mut self) -> Result<(), SinkFault>
        requires countable { failures self.old < 2 ^ 64 - 1 }
        ensures taken { Keeps (taken self.old) (taken self.new) }
        ensures failures { failures self.new ≡ (if is_ok result then failures self.old else failures self.old + 1) }
        ensures finished { finished self.new ≡ (if is_ok result then true else finished self.old) };

    /// How often it has failed. A success leaves this number as it was.
    fn failures(&self) -> u64
        ensures { result ≡ failures self.now };
}
