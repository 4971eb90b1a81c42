//! A sink in memory under a rule of what it takes.
ghost use Rattle.ch11_writer.specs.Sinks.{empty_under};
ghost use Rattle.std.specs.Prelude.{◌≡◌, ℕ, ◌++◌, ◌+◌, ◌-◌, ◌<◌, ◌≤◌, ◌^◌, Bool, true, length, take, is_ok};
ghost use Rattle.std.specs.Prelude.{if◌then◌else◌, IfErr, IfOk, Some};

use crate::memory::MemorySink;
use crate::sink::{Sink, SinkFault};
use std::alloc::Global;
use std::marker::Model;

/// How many bytes a sink takes at a call, and whether it can be finished.
pub trait TakeRule {
    // How many of so many bytes a call takes; none where it fails.
    ghost allowed: { Self → ℕ → ℕ };

    // The rule behind a call that took so many bytes; none where it failed.
    ghost noted: { Self → ℕ → Self };

    // Whether the sink can be finished.
    ghost finishes: { Self → Bool };

    /// How many of so many bytes a call takes; none where it fails.
    fn allow(&self, size: usize) -> usize
        requires some { 0 < size }
        ensures allowed { result ≡ allowed self.now size }
        ensures within { result ≤ size };

    /// Notes how many bytes a call took; none where it failed.
    fn note(&mut self, taken: usize)
        ensures { self.new ≡ noted self.old taken };

    /// Whether the sink can be finished.
    fn can_finish(&self) -> bool
        ensures { result ≡ finishes self.now };
}

/// A sink in memory that takes what its rule lets it take. Refused memory is a fault of that call.
#[derive(Drop)]
pub struct RuledSink<R: TakeRule> {
    held: MemorySink,
    rule: R,
}

impl<R: TakeRule> Model for RuledSink<R> {
    ghost use Rattle.ch11_writer.specs.Sinks.{Ruled};

    ghost Value = { Ruled R };

    ghost view = { λ s. record { held = s.held; rule = s.rule } };
}

impl<R: TakeRule> RuledSink<R> {
    /// An empty sink under this rule. It takes no memory yet.
    pub fn under(alloc: Global, rule: R) -> RuledSink<R>
        ensures { result ≡ empty_under rule }
    {
        RuledSink {
            held: MemorySink::make(alloc),
            rule,
        }
    }

    /// What it took.
    pub fn bytes(&self) -> &[u8]
        ensures { result.now ≡ self.now.held.bytes }
    {
        self.held.bytes()
    }

    /// The rule as it stands.
    pub(crate) fn rule(&self) -> &R
        ensures { result.now ≡ self.now.rule }
    {
        &self.rule
    }
}

/// Takes so many of the bytes, or fails where that is none of them.
fn take_first(held: &mut MemorySink, bytes: &[u8], size: usize) -> Result<usize, SinkFault>
    requires within { size ≤ length bytes.now }
    requires countable { held.old.failures < 2 ^ 64 - 1 }
    ensures count { IfOk result (λ n. (n ≡ size) × (0 < n)) }
    ensures after { held.new ≡ (if is_ok result
        then record held.old { bytes = held.old.bytes ++ take size bytes.now }
        else record held.old { failures = held.old.failures + 1 }) }
{
    if size == 0 {
        return Err(held.fail());
    }
    held.take(&bytes[..size])
}

impl<R: TakeRule> Sink for RuledSink<R> {
    ghost taken = { λ s. Some s.held.bytes };

    ghost failures = { λ s. s.held.failures };

    ghost finished = { λ s. s.held.finished };

    /// Takes as many of the bytes as the rule allows; none where it allows none, and where memory is refused.
    fn take(&mut self, bytes: &[u8]) -> Result<usize, SinkFault>
        requires some { 0 < length bytes.now }
        requires countable { self.old.held.failures < 2 ^ 64 - 1 }
        ensures count { IfOk result (λ n. (n ≡ R.allowed self.old.rule (length bytes.now)) × (0 < n)) }
        ensures within { IfOk result (λ n. n ≤ length bytes.now) }
        ensures taken { IfOk result (λ n. self.new ≡ record {
          held = record self.old.held { bytes = self.old.held.bytes ++ take n bytes.now };
          rule = R.noted self.old.rule n;
        }) }
        ensures failed { IfErr result (λ _. self.new ≡ record {
          held = record self.old.held { failures = self.old.held.failures + 1 };
          rule = R.noted self.old.rule 0;
        }) }
    {
        let size = self.rule.allow(bytes.len());
        match take_first(&mut self.held, bytes, size) {
            Ok(count) => {
                self.rule.note(count);
                Ok(count)
            }
            Err(fault) => {
                self.rule.note(0);
                Err(fault)
            }
        }
    }

    /// Fails where the rule does not let it be finished, and only there.
    fn finish(&mut self) -> Result<(), SinkFault>
        requires countable { self.old.held.failures < 2 ^ 64 - 1 }
        ensures ok { is_ok result ≡ R.finishes self.old.rule }
        ensures after { self.new ≡ record self.old {
          held = (if is_ok result
              then record self.old.held { finished = true }
              else record self.old.held { failures = self.old.held.failures + 1 });
        } }
    {
        if !self.rule.can_finish() {
            return Err(self.held.fail());
        }
        self.held.finish()
    }

    fn failures(&self) -> u64 {
        self.held.failures()
    }
}
