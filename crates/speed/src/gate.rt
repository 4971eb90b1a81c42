//! A gate that holds each channel while its share of the queue is full.
use bench_run::Gate;
use std::sync::atomic::{AtomicU64, Ordering};
use std::{array, thread};

/// A channel looks at the writer, and the writer tells how far it came, once in so many messages.
const STRIDE: u32 = 64;

/// No channel 1 to 8 has more than `share` messages on their way to the writer, so that a queue with room for all
/// shares refuses none; where a channel has, its thread yields.
#[derive(Drop)]
pub struct PacedGate {
    share: u64,
    taken: [AtomicU64; 8],
}

impl PacedGate {
    /// A gate of so many channels, each of which may fill its part of a queue, but for what it learns too late.
    pub fn among(channels: u16, queue: u32) -> PacedGate {
        let part = u64::from(queue) / u64::from(channels.max(1));
        PacedGate {
            share: part.saturating_sub(u64::from(STRIDE)),
            taken: array::from_fn(|_| AtomicU64::new(0)),
        }
    }

    /// How far the writer told that it came with a channel.
    fn taken(&self, channel: u16) -> u64 {
        self.taken[usize::from(channel % 8)].load(Ordering::SeqCst)
    }
}

impl Gate for PacedGate {
    fn before_message(&self, channel: u16, number: u32) {
        if number % STRIDE != 0 {
            return;
        }
        let last = u64::from(number) + u64::from(STRIDE);
        for _ in 0..u64::MAX {
            if last <= self.taken(channel).saturating_add(self.share) {
                return;
            }
            thread::yield_now();
        }
    }

    fn after_offer(&self, _channel: u16, _number: u32, _kept: bool) {}

    fn after_take(&self, channel: u16, number: u32) {
        if number > 0 && number % STRIDE == 0 {
            self.taken[usize::from(channel % 8)].store(u64::from(number), Ordering::SeqCst);
        }
    }

    /// Gives way as the gate does under which no message is refused: several items may have come then.
    fn on_empty(&self, running: usize) {
        let items = u64::from(STRIDE).min(self.share);
        for _ in 0..(items / running.max(1) as u64).max(1) {
            thread::yield_now();
        }
    }
}
