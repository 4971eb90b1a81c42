//! The gate that waits, by its pace.
use bench_live::{Pace, SessionGate};
use bench_run::{Gate, OpenGate};
use std::io;
use std::process::Abort;
use std::rt::Clock;
use std::sync::atomic::{AtomicU64, Ordering};
use std::time::Duration;

/// A clock that stands at a second but for the sleeps, in milliseconds.
#[derive(Drop)]
struct Slept {
    milliseconds: AtomicU64,
}

impl Clock for Slept {
    fn monotonic(&self) -> io::Result<Duration> {
        let slept = self.milliseconds.load(Ordering::SeqCst);
        Ok(Duration::from_millis(slept.saturating_add(1000)))
    }

    fn since_1970(&self) -> io::Result<Duration> {
        self.monotonic()
    }

    fn sleep(&self, duration: Duration) {
        let milliseconds = u64::from(duration.subsec_millis()).saturating_add(
            duration.as_secs().saturating_mul(1000),
        );
        self.milliseconds.fetch_add(milliseconds, Ordering::SeqCst);
    }
}

/// Ticks before which a gate waits, each of a channel: 2 s of bus time, 1 s of the other channel's, and 3 s.
const TICKS: [(u16, u64); 3] = [(1, 20_000_000), (2, 10_000_000), (1, 30_000_000)];

/// A pace, and how many milliseconds have gone by at each of the ticks.
const ROWS: [(&str, [u64; 3]); 5] = [
    ("1", [2000, 2000, 3000]),
    ("0.5", [4000, 4000, 6000]),
    ("0.1", [20_000, 20_000, 30_000]),
    ("2.50", [800, 800, 1200]),
    ("1000", [2, 2, 3]),
];

/// A gate that waits before the ticks by a clock leaves it at these times.
fn waits<G: Gate>(rt: &impl Abort, clock: &Slept, gate: &G, text: &str, times: &[u64; 3]) {
    for ((channel, tick), time) in TICKS.iter().zip(times) {
        gate.before_tick(*channel, *tick);
        assert_eq!(rt;
            clock.milliseconds.load(Ordering::SeqCst),
            *time,
            "{text} at {tick}"
        );
    }
}

#[test]
fn a_gate_waits_for_ticks(rt: HostRuntime) {
    for (text, times) in ROWS {
        let clock = Slept {
            milliseconds: AtomicU64::new(0),
        };
        let pace = Pace::read(text.as_bytes());
        let gate = SessionGate::around(&OpenGate, &clock, &rt, pace, None, None);
        waits(&rt, &clock, &gate, text, &times);
    }
}
