//! A gate that holds each channel until its host has posted.
use bench_run::Gate;
use std::sync::atomic::{AtomicU32, Ordering};
use std::thread;

/// Each channel waits before this message.
const HELD: u32 = 50;

/// The hosts of channels 1 and 2 that have posted all that they will.
#[derive(Drop)]
pub struct Posted {
    first: AtomicU32,
    second: AtomicU32,
}

impl Posted {
    /// No host has posted yet.
    pub fn none() -> Posted {
        Posted {
            first: AtomicU32::new(0),
            second: AtomicU32::new(0),
        }
    }

    /// Whether the host of a channel has posted.
    fn of(&self, channel: u16) -> &AtomicU32 {
        if channel == 1 {
            &self.first
        } else {
            &self.second
        }
    }

    /// The host of a channel has posted.
    pub fn tell(&self, channel: u16) {
        self.of(channel).store(1, Ordering::SeqCst);
    }
}

impl Gate for Posted {
    fn before_message(&self, channel: u16, number: u32) {
        if number != HELD {
            return;
        }
        for _ in 0..u64::MAX {
            if self.of(channel).load(Ordering::SeqCst) == 1 {
                return;
            }
            thread::yield_now();
        }
    }

    fn after_offer(&self, _channel: u16, _number: u32, _kept: bool) {}

    fn after_take(&self, _channel: u16, _number: u32) {}
}
