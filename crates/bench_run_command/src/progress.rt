//! How far a recording has come, on a terminal.
use bench_run::Gate;
use bench_watch::{Elapsed, PAUSE, QUIET};
use std::io::IsTerminal;
use std::rt::Clock;
use std::sync::atomic::{AtomicU64, Ordering};

/// After so many messages the clock is looked at.
const STRIDE: u64 = 2048;

/// A gate that holds nothing, and shows how many messages the writer has taken: one line that is written again and
/// again once the recording has taken two seconds, and only where the errors go to a terminal and there is a clock.
#[derive(Drop)]
pub struct Progress<'a, C, E> {
    errors: &'a E,
    /// The time since the recording began.
    elapsed: Elapsed<'a, C>,
    /// How many messages the writer has taken.
    taken: AtomicU64,
    /// How many milliseconds after the beginning the next line may be shown.
    due: AtomicU64,
}

impl<'a, C: Clock, E: Eprint + IsTerminal> Progress<'a, C, E> {
    /// The progress of a recording that begins now.
    pub fn begin(clock: &'a C, errors: &'a E) -> Progress<'a, C, E> {
        Progress {
            errors,
            elapsed: Elapsed::begin(clock, errors),
            taken: AtomicU64::new(0),
            due: AtomicU64::new(QUIET),
        }
    }

    /// Ends the line, where there is one, with the number of all messages that were taken.
    pub fn end(&self) {
        if self.due.load(Ordering::SeqCst) > QUIET {
            let taken = self.taken.load(Ordering::SeqCst);
            // Nothing else is lost where standard error takes no more.
            let _ = eprintln!(self.errors; "\r{taken} messages");
        }
    }

    /// Shows how many messages were taken, where it is time to.
    fn show(&self, taken: u64) {
        let Some(passed) = self.elapsed.milliseconds() else {
            return;
        };
        if passed >= self.due.load(Ordering::SeqCst) {
            // Nothing else is lost where standard error takes no more.
            let _ = eprint!(self.errors; "\r{taken} messages");
            self.due
                .store(passed.saturating_add(PAUSE), Ordering::SeqCst);
        }
    }
}

impl<C: Clock + Sync, E: Eprint + IsTerminal + Sync> Gate for Progress<'_, C, E> {
    fn before_message(&self, _channel: u16, _number: u32) {}

    fn after_offer(&self, _channel: u16, _number: u32, _kept: bool) {}

    /// An end mark, with the number 0, is no message.
    fn after_take(&self, _channel: u16, number: u32) {
        if number > 0 && self.elapsed.is_shown() {
            let taken = self.taken.fetch_add(1, Ordering::SeqCst).wrapping_add(1);
            if taken % STRIDE == 0 {
                self.show(taken);
            }
        }
    }
}
