//! A gate under which no message finds the queue full.
use crate::gate::Gate;
use ch11_f1::Record;
use std::sync::atomic::{AtomicU64, Ordering};
use std::thread;

/// How often the writer's thread gives way at most before it looks at an empty queue again.
const PATIENCE: u64 = 64;

/// The items that are on their way to the writer: no more than the queue holds.
#[derive(Drop)]
struct Way {
    /// How many items the queue holds.
    queue: u64,
    /// How many items asked to be let onto the way; they are let on in this order.
    asked: AtomicU64,
    /// How many of them are on the way no longer.
    gone: AtomicU64,
}

impl Way {
    /// Waits until there is room for one item more.
    fn enter(&self) {
        let place = self.asked.fetch_add(1, Ordering::SeqCst);
        for _ in 0..u64::MAX {
            let gone = self.gone.load(Ordering::SeqCst);
            if place < gone.saturating_add(self.queue) {
                return;
            }
            thread::yield_now();
        }
    }

    /// An item is on the way no longer.
    fn leave(&self) {
        self.gone.fetch_add(1, Ordering::SeqCst);
    }
}

/// A gate that holds a channel before each message, and before the end of its script, until the queue has room for what
/// comes next: no more items are on their way to the writer than the queue holds. So no message is refused. It stands
/// around another gate, which is called at each point as well, but where the queue is empty.
///
/// A gate is made for one run. What it waits for comes: the writer takes each item that was kept, also once the sink
/// failed, and a channel that ended waits for nothing.
#[derive(Drop)]
pub struct HoldingGate<'a, G> {
    gate: &'a G,
    way: Way,
}

impl<'a, G> HoldingGate<'a, G> {
    /// The gate of a run whose queue holds so many items, before anything has passed it.
    pub fn around(gate: &'a G, queue: u32) -> HoldingGate<'a, G> {
        HoldingGate {
            gate,
            way: Way {
                queue: u64::from(queue),
                asked: AtomicU64::new(0),
                gone: AtomicU64::new(0),
            },
        }
    }
}

impl<G: Gate> Gate for HoldingGate<'_, G> {
    fn before_tick(&self, channel: u16, tick: u64) {
        self.gate.before_tick(channel, tick);
    }

    /// Each call is followed by one item: a message, or the end mark.
    fn before_message(&self, channel: u16, number: u32) {
        self.gate.before_message(channel, number);
        self.way.enter();
    }

    /// A message that was refused all the same comes to nobody; an end mark that was is offered again.
    fn after_offer(&self, channel: u16, number: u32, kept: bool) {
        if number > 0 && !kept {
            self.way.leave();
        }
        self.gate.after_offer(channel, number, kept);
    }

    fn on_message(&self, channel: u16, number: u32, record: &Record) {
        self.gate.on_message(channel, number, record);
    }

    fn after_take(&self, channel: u16, number: u32) {
        self.way.leave();
        self.gate.after_take(channel, number);
    }

    /// Gives way so often that several items may have come: the less often the more channels run, and no more often
    /// than the queue holds items, since channels wait once it is full. The other gate is not called: that it gave way
    /// or waited as well would only hold the writer longer.
    fn on_empty(&self, running: usize) {
        let items = PATIENCE.min(self.way.queue);
        for _ in 0..(items / running.max(1) as u64).max(1) {
            thread::yield_now();
        }
    }
}
