//! Points of a run at which its threads may be held.

use ch11_f1::Record;
use std::thread;

/// What is called at points of a run, on the thread that is there. It may wait, so that tests fix the order of the
/// threads.
pub trait Gate: Sync {
    /// Before the steps of a channel that may make its next message, and before `before_message` of it: that message
    /// starts at this tick of 0.1 µs at the earliest. A gate that leaves it out waits for nothing there.
    fn before_tick(&self, _channel: u16, _tick: u64) {}

    /// Before the steps that may make the message of a number, 1 and up, of a channel; also where the script ends
    /// instead.
    fn before_message(&self, channel: u16, number: u32);

    /// After each offer: of a message with its number, of an end mark with 0; and whether the queue kept it.
    fn after_offer(&self, channel: u16, number: u32, kept: bool);

    /// After each message that the writer took, and before `after_take` of it: its channel, its number, and what the
    /// bus monitor kept of it. A gate that leaves it out does nothing there.
    fn on_message(&self, _channel: u16, _number: u32, _record: &Record) {}

    /// After each item that the writer took, before it takes the next: of a message with its number, of an end mark
    /// with 0.
    fn after_take(&self, channel: u16, number: u32);

    /// What the writer's thread does where the queue is empty while so many channels, 1 and up, still run: it may wait
    /// or give way, and then looks at the queue again. A gate that leaves it out gives way once.
    fn on_empty(&self, _running: usize) {
        thread::yield_now();
    }
}

/// A gate that holds nothing: the queue alone orders the threads.
#[derive(Clone, Copy, Debug)]
pub struct OpenGate;

impl Gate for OpenGate {
    fn before_message(&self, _channel: u16, _number: u32) {}

    fn after_offer(&self, _channel: u16, _number: u32, _kept: bool) {}

    fn after_take(&self, _channel: u16, _number: u32) {}
}
