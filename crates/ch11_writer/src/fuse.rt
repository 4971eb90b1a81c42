//! A sink in memory that fails once it has taken so many bytes.
ghost use Rattle.ch11_writer.specs.Sinks.{empty_under};
ghost use Rattle.std.specs.Prelude.{◌≡◌, ◌-◌, ◌||◌, ◌==◌, false, not, min};

use crate::ruled::{RuledSink, TakeRule};
use std::alloc::Global;

/// A sink in memory that takes so many bytes. It fails at the first `take` that it is asked for once it has them, and
/// from then on for good, `finish` included. Refused memory is a fault of that call alone.
pub type FuseSink = RuledSink<Fuse>;

/// A call takes as many of its bytes as are left. Where none is left, the fuse blows, and nothing can be finished.
#[derive(Drop)]
pub struct Fuse {
    left: usize,
    blown: bool,
}

impl TakeRule for Fuse {
    ghost allowed = { λ fuse size. min size fuse.left };

    ghost noted = { λ fuse taken. record { left = fuse.left - taken; blown = fuse.blown || fuse.left == 0 } };

    ghost finishes = { λ fuse. not fuse.blown };

    fn allow(&self, size: usize) -> usize {
        size.min(self.left)
    }

    fn note(&mut self, taken: usize) {
        self.blown = self.blown || self.left == 0;
        self.left = self.left.saturating_sub(taken);
    }

    fn can_finish(&self) -> bool {
        !self.blown
    }
}

impl RuledSink<Fuse> {
    /// A sink that takes `k` bytes. It takes no memory yet.
    pub fn make(alloc: Global, k: usize) -> FuseSink
        ensures { result ≡ empty_under (record { left = k; blown = false }) }
    {
        RuledSink::under(
            alloc,
            Fuse {
                left: k,
                blown: false,
            },
        )
    }
}
