//! A sink that fails once.
ghost use Rattle.ch11_writer.specs.Sinks.{empty_under};
ghost use Rattle.std.specs.Prelude.{◌≡◌, ◌+◌, ◌-◌, ◌^◌, ◌==◌, true, if◌then◌else◌, min};

use crate::ruled::{RuledSink, TakeRule};
use std::alloc::Global;

/// A sink in memory that fails at one of its takes alone, and takes all bytes at the others. Refused memory is a fault.
/// It counts its takes.
pub type FlakySink = RuledSink<FailsOnce>;

/// The take of this number, counted from 1, fails; any other takes all of its bytes. It counts the takes, up to
/// 2^64 - 1.
#[derive(Drop)]
pub struct FailsOnce {
    fails_at: u64,
    takes: u64,
}

impl TakeRule for FailsOnce {
    ghost allowed = { λ rule size. if min (rule.takes + 1) (2 ^ 64 - 1) == rule.fails_at then 0 else size };

    ghost noted = { λ rule _. record rule { takes = min (rule.takes + 1) (2 ^ 64 - 1) } };

    ghost finishes = { λ _. true };

    fn allow(&self, size: usize) -> usize {
        if self.takes.saturating_add(1) == self.fails_at {
            0
        } else {
            size
        }
    }

    fn note(&mut self, _taken: usize) {
        self.takes = self.takes.saturating_add(1);
    }

    fn can_finish(&self) -> bool {
        true
    }
}

impl RuledSink<FailsOnce> {
    /// A sink that fails at its take of this number, counted from 1. It takes no memory yet.
    pub fn make(alloc: Global, fails_at: u64) -> FlakySink
        ensures { result ≡ empty_under (record { fails_at = fails_at; takes = 0 }) }
    {
        RuledSink::under(alloc, FailsOnce { fails_at, takes: 0 })
    }

    /// How often `take` was called, at most 2^64 - 1.
    pub fn takes(&self) -> u64
        ensures { result ≡ self.now.rule.takes }
    {
        self.rule().takes
    }
}
