//! How far a pass over a large recording has come, on a terminal.
ghost use Rattle.bench_watch.specs.Watching.{watched_remaining};
ghost use Rattle.std.specs.Prelude.{◌≡◌};

use crate::elapsed::{Elapsed, PAUSE, QUIET};
use ch11_stream::Advance;
use std::cell::Cell;
use std::fs;
use std::io::{self, ErrorKind, IsTerminal, Read};
use std::rt::{Clock, Files};

/// After so many bytes the clock is looked at.
const STRIDE: u64 = 16_777_216;

/// Where the passes over a recording are. Times are milliseconds since the first began.
#[derive(Clone, Copy)]
struct State {
    /// The number of the pass, from 1.
    pass: u64,
    /// When it began.
    began: u64,
    /// How many bytes it has read.
    read: u64,
    /// At how many bytes the clock is looked at.
    look: u64,
    /// When the next line may be shown.
    due: u64,
    /// Whether a line is shown.
    shown: bool,
    /// Whether the file could not be read.
    failed: bool,
}

/// What is seen of the passes over a recording: whether its file could not be read; and how far a pass has come, in one
/// line that is written again and again once the passes have taken two seconds, and only where the errors go to a
/// terminal and there is a clock.
#[derive(Drop)]
pub struct Watch<'f, C, E> {
    errors: &'f E,
    /// The time since the first pass began.
    elapsed: Elapsed<'f, C>,
    /// How many bytes a pass reads.
    size: u64,
    state: Cell<State>,
}

impl<'f, C: Clock + Files, E: Eprint + IsTerminal> Watch<'f, C, E> {
    /// Passes over the recording with this name, which begin now.
    pub fn begin(clock: &'f C, errors: &'f E, name: &str) -> Watch<'f, C, E> {
        Watch {
            errors,
            elapsed: Elapsed::begin(clock, errors),
            size: size_of(clock, name),
            state: Cell::new(State {
                pass: 0,
                began: 0,
                read: 0,
                look: STRIDE,
                due: QUIET,
                shown: false,
                failed: false,
            }),
        }
    }

    /// Whether the file could not be read.
    pub fn has_failed(&self) -> bool {
        self.state.get().failed
    }

    /// Whether no pass has begun.
    pub fn is_new(&self) -> bool {
        self.state.get().pass == 0
    }

    /// Erases the line that is shown.
    pub fn end(&self) {
        let mut state = self.state.get();
        if state.shown {
            state.shown = false;
            self.state.set(state);
            // Nothing else is lost where standard error takes no more.
            let _ = eprint!(self.errors; "\r\x1b[K");
        }
    }

    /// One more pass.
    fn begin_pass(&self) {
        self.end();
        let mut state = self.state.get();
        state.pass = state.pass.saturating_add(1);
        state.read = 0;
        state.look = STRIDE;
        if let Some(passed) = self.elapsed.milliseconds() {
            state.began = passed;
        }
        self.state.set(state);
    }

    /// The file could not be read.
    fn fail(&self) {
        let mut state = self.state.get();
        state.failed = true;
        self.state.set(state);
    }

    /// So many bytes more were read or passed.
    fn note(&self, count: u64) {
        if !self.elapsed.is_shown() {
            return;
        }
        let mut state = self.state.get();
        state.read = state.read.saturating_add(count);
        if state.read >= state.look {
            state.look = state.read.saturating_add(STRIDE);
            if let Some(passed) = self.elapsed.milliseconds() {
                self.show(&mut state, passed);
            }
        }
        self.state.set(state);
    }

    /// Shows how far the pass has come, where it is time to.
    fn show(&self, state: &mut State, passed: u64) {
        if passed < state.due {
            return;
        }
        let (pass, percent) = (state.pass, percent_of(state.read, self.size));
        let left = left_of(
            passed.saturating_sub(state.began),
            state.read,
            self.size.saturating_sub(state.read),
        );
        // Nothing else is lost where standard error takes no more.
        let _ = eprint!(self.errors; "\rpass {pass}: {percent} % read, {left} s left\x1b[K");
        state.due = passed.saturating_add(PAUSE);
        state.shown = true;
    }
}

/// A file, or another reader, that is watched while it is read: it gives what that gives.
#[derive(Drop)]
pub struct Watched<'f, F, C, E> {
    file: F,
    watch: &'f Watch<'f, C, E>,
    /// Whether it is shown how far the pass has come.
    shown: bool,
    /// Whether the pass has begun.
    begun: bool,
}

impl<'f, F: Read, C: Clock + Files, E: Eprint + IsTerminal> Watched<'f, F, C, E> {
    /// A file that was opened. How far it is read is shown, or not.
    pub fn over(file: F, watch: &'f Watch<'f, C, E>, shown: bool) -> Watched<'f, F, C, E>
        ensures { watched_remaining F.remaining result ≡ F.remaining file }
    {
        Watched {
            file,
            watch,
            shown,
            begun: false,
        }
    }
}

impl<'f, F: Read, C: Clock + Files, E: Eprint + IsTerminal> Read for Watched<'f, F, C, E> {
    ghost remaining = { watched_remaining F.remaining };

    fn read(&mut self, buf: &mut [u8]) -> io::Result<usize> {
        if !self.begun {
            self.begun = true;
            self.watch.begin_pass();
        }
        let given = self.file.read(buf);
        match &given {
            Ok(0) => self.watch.end(),
            Ok(count) if self.shown => self.watch.note(*count as u64),
            Err(error) if error.kind() != ErrorKind::Interrupted => self.watch.fail(),
            _ => {}
        }
        given
    }
}

impl<'f, F: Advance, C: Clock + Files, E: Eprint + IsTerminal> Advance for Watched<'f, F, C, E> {
    fn advance(&mut self, count: u64) -> io::Result<u64> {
        let passed = self.file.advance(count);
        match &passed {
            Ok(count) if self.shown => self.watch.note(*count),
            Ok(_) => {}
            Err(_) => self.watch.fail(),
        }
        passed
    }
}

/// How many bytes the file with this name has.
fn size_of<R: Files>(rt: &R, name: &str) -> u64 {
    match fs::metadata(rt, name) {
        Ok(about) => about.len(),
        Err(_) => 0,
    }
}

/// How many hundredths of all were read, at most 100.
fn percent_of(read: u64, size: u64) -> u64 {
    if read >= size {
        return 100;
    }
    let percent = u128::from(read) * 100 / u128::from(size);
    u64::try_from(percent).unwrap_or(100)
}

/// How many seconds what is left will take, where reading so many bytes took so many milliseconds.
fn left_of(passed: u64, read: u64, left: u64) -> u64 {
    if read == 0 {
        return 0;
    }
    let time = u128::from(passed) * u128::from(left) / u128::from(read);
    u64::try_from(time.div_ceil(1000)).unwrap_or(u64::MAX)
}
