//! What is shown on a terminal while a recording is made.
use bench_run::{Gate, HoldingGate};
use bench_run_command::Progress;
use std::io;
use std::process::Abort;
use std::rt::Clock;
use std::sync::Wait;
use std::sync::atomic::{AtomicU64, Ordering};
use std::time::Duration;
use test_values::Screen;

/// A clock that stands where it was set, in milliseconds.
#[derive(Drop)]
struct Standing {
    now: AtomicU64,
}

impl Standing {
    fn at(now: u64) -> Standing {
        Standing {
            now: AtomicU64::new(now),
        }
    }

    fn set(&self, now: u64) {
        self.now.store(now, Ordering::SeqCst);
    }
}

impl Clock for Standing {
    fn monotonic(&self) -> io::Result<Duration> {
        Ok(Duration::from_millis(self.now.load(Ordering::SeqCst)))
    }

    fn since_1970(&self) -> io::Result<Duration> {
        self.monotonic()
    }
}

/// The writer takes so many messages.
fn take<G: Gate>(gate: &G, count: u32) {
    for number in 1..=count {
        gate.after_take(1, number);
    }
}

/// Where the clock stands, how many messages the writer takes then, and what is shown behind them.
type Row<'a> = (u64, u32, &'a str);

/// While a gate is passed so, this is shown.
fn shows<R: Wait + AllocGlobal + Abort, G: Gate>(
    rt: &R,
    clock: &Standing,
    screen: &Screen<'_, R>,
    gate: &G,
    rows: &[Row<'_>],
) {
    for (now, count, text) in rows {
        clock.set(*now);
        take(gate, *count);
        assert!(rt; screen.shows(text), "{count} at {now}");
    }
}

#[test]
fn a_long_recording_shows_a_line(rt: HostRuntime) {
    let clock = Standing::at(5000);
    let screen = Screen::make(&rt, true);
    let progress = Progress::begin(&clock, &screen);
    let silent = [(6999, 4096, ""), (7000, 2047, "")];
    shows(&rt, &clock, &screen, &progress, &silent);
    progress.after_take(1, 0);
    let told = [
        (7000, 0, ""),
        (7000, 1, "\r6144 messages"),
        (7000, 2048, "\r6144 messages"),
        (7200, 2048, "\r6144 messages\r10240 messages"),
    ];
    shows(&rt, &clock, &screen, &progress, &told);
    take(&progress, 5);
    progress.end();
    assert!(rt; screen.shows("\r6144 messages\r10240 messages\r10245 messages\n"));
}

/// A recording of 8192 messages, which ends at this time, shows nothing.
fn shows_nothing<R: Wait + AllocGlobal + Abort + Sync>(rt: &R, is_terminal: bool, now: u64) {
    let clock = Standing::at(0);
    let screen = Screen::make(rt, is_terminal);
    let progress = Progress::begin(&clock, &screen);
    clock.set(now);
    take(&progress, 8192);
    progress.end();
    assert!(rt; screen.shows(""));
}

#[test]
fn a_short_recording_and_a_file_show_nothing(rt: HostRuntime) {
    shows_nothing(&rt, true, 1999);
    shows_nothing(&rt, false, 10_000);
}

#[test]
fn a_held_recording_shows_a_line(rt: HostRuntime) {
    let clock = Standing::at(0);
    let screen = Screen::make(&rt, true);
    let progress = Progress::begin(&clock, &screen);
    let gate = HoldingGate::around(&progress, 1);
    shows(
        &rt,
        &clock,
        &screen,
        &gate,
        &[(2000, 2048, "\r2048 messages")],
    );
}
