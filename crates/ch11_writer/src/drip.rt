//! A sink that takes one byte a call.
ghost use Rattle.ch11_writer.specs.Sinks.{empty_under};
ghost use Rattle.std.specs.Prelude.{◌≡◌, true};

use crate::ruled::{RuledSink, TakeRule};
use std::alloc::Global;

/// A sink in memory that takes one byte a call, as a slow device may. Refused memory is a fault.
pub type DripSink = RuledSink<OneByte>;

/// Each call takes the first of its bytes.
#[derive(Drop)]
pub struct OneByte;

impl TakeRule for OneByte {
    ghost allowed = { λ _ _. 1 };

    ghost noted = { λ rule _. rule };

    ghost finishes = { λ _. true };

    fn allow(&self, _size: usize) -> usize {
        1
    }

    fn note(&mut self, _taken: usize) {}

    fn can_finish(&self) -> bool {
        true
    }
}

impl RuledSink<OneByte> {
    /// An empty sink. It takes no memory yet.
    pub fn make(alloc: Global) -> DripSink
        ensures { result ≡ empty_under (record {}) }
    {
        RuledSink::under(alloc, OneByte)
    }
}
