//! What a run passes on its way: bus time at a pace of real time, a word on which scripts have ended, and messages that
//! are shown.
use crate::desk::Desk;
use crate::pace::Pace;
use crate::show::Show;
use bench_run::Gate;
use ch11_f1::Record;
use std::rt::Clock;
use std::sync::Wait;
use std::time::Duration;

/// A gate of a run that a person watches or drives. It stands around another gate, which is called at each point as
/// well.
#[derive(Drop)]
pub struct SessionGate<'a, G, C, R> {
    gate: &'a G,
    clock: &'a C,
    rt: &'a R,
    /// How real time and bus time go together; none where bus time goes as fast as it can.
    pace: Option<Pace>,
    /// When bus time was 0.
    began: Option<Duration>,
    desk: Option<&'a Desk>,
    show: Option<&'a Show>,
}

impl<'a, G, C: Clock, R> SessionGate<'a, G, C, R> {
    /// The gate of a run that begins now. With a pace it holds a channel before each message until real time has come
    /// to the tick at which that message may start; where the clock can't be read it holds nothing. A desk is told
    /// which scripts have ended, and each message that the writer took is handed to what shows it.
    pub fn around(
        gate: &'a G,
        clock: &'a C,
        rt: &'a R,
        pace: Option<Pace>,
        desk: Option<&'a Desk>,
        show: Option<&'a Show>,
    ) -> SessionGate<'a, G, C, R> {
        SessionGate {
            gate,
            clock,
            rt,
            pace,
            began: clock.monotonic().ok(),
            desk,
            show,
        }
    }

    /// Waits for the tick.
    fn wait(&self, tick: u64) {
        let (Some(pace), Some(began)) = (self.pace, self.began) else {
            return;
        };
        let Ok(now) = self.clock.monotonic() else {
            return;
        };
        let due = began.saturating_add(pace.span(tick));
        self.clock.sleep(due.saturating_sub(now));
    }
}

impl<G: Gate, C: Clock + Sync, R: Wait + Sync> Gate for SessionGate<'_, G, C, R> {
    fn before_tick(&self, channel: u16, tick: u64) {
        self.wait(tick);
        self.gate.before_tick(channel, tick);
    }

    fn before_message(&self, channel: u16, number: u32) {
        self.gate.before_message(channel, number);
    }

    /// An end mark has the number 0.
    fn after_offer(&self, channel: u16, number: u32, kept: bool) {
        if let Some(desk) = self.desk {
            if number == 0 {
                desk.end(channel);
            }
        }
        self.gate.after_offer(channel, number, kept);
    }

    fn on_message(&self, channel: u16, number: u32, record: &Record) {
        if let Some(show) = self.show {
            show.take(self.rt, channel, number, record);
        }
        self.gate.on_message(channel, number, record);
    }

    fn after_take(&self, channel: u16, number: u32) {
        self.gate.after_take(channel, number);
    }

    fn on_empty(&self, running: usize) {
        self.gate.on_empty(running);
    }
}
