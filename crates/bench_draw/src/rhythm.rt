//! The rhythm of a channel: commands that recur with a period, and the begins of frames that they tell.
ghost use Rattle.bench_draw.specs.Rhythm.{is_near};
ghost use Rattle.std.specs.Prelude.{◌≡◌};

use crate::scale::Scale;
use ch11_layout::View;
use std::alloc::{AllocError, Global};

/// How many commands of a channel are followed: the first of them.
const COMMANDS: usize = 64;

/// How many messages of a command are kept; those of one that has more are too close for marks.
const MOST: usize = 128;

/// How many tenths of a pixel lie between marks at least.
const LEAST: u64 = 120;

/// What tells the messages of a command: its words, the second only of a transfer between terminals, and the line.
#[derive(Clone, Copy, Debug, PartialEq, Eq)]
struct Called {
    first: u16,
    second: u16,
    line_b: bool,
}

impl Called {
    fn of(view: &View<'_>) -> Called {
        let second = if view.is_transfer() { view.word(1) } else { 0 };
        Called {
            first: view.word(0),
            second,
            line_b: view.is_on_line_b(),
        }
    }
}

/// A command on the way: when its messages began, whether it had more of them than are kept, and the shortest time that
/// the channel was still in front of one.
#[derive(Drop)]
struct Recurring {
    called: Called,
    begins: Vec<u64>,
    is_full: bool,
    pause: u64,
}

impl Recurring {
    /// One more message.
    fn add(&mut self, begin: u64, pause: u64) -> Result<(), AllocError> {
        self.pause = self.pause.min(pause);
        if self.begins.len() < MOST {
            self.begins.push(begin)?;
        } else {
            self.is_full = true;
        }
        Ok(())
    }

    /// The period in which it recurs, where there is one and it has the room of a mark.
    fn period(&self, alloc: Global, scale: &Scale) -> Result<Option<u64>, AllocError> {
        if self.is_full {
            return Ok(None);
        }
        let found = period_of(alloc, self.begins.as_slice())?;
        Ok(found.filter(|period| scale.length(*period) >= LEAST))
    }
}

/// The messages of a channel on the way: their commands, and when the latest ended.
#[derive(Drop)]
pub(crate) struct Rhythm {
    commands: Vec<Recurring>,
    latest: u64,
}

/// Frames: their period in ticks, and when they begin.
#[derive(Drop)]
pub(crate) struct Frames {
    pub(crate) period: u64,
    pub(crate) begins: Vec<u64>,
}

impl Rhythm {
    /// The rhythm before the first message.
    pub(crate) fn new(alloc: Global) -> Rhythm {
        Rhythm {
            commands: Vec::new(alloc),
            latest: u64::MAX,
        }
    }

    /// One more message, which ends there.
    pub(crate) fn add(
        &mut self,
        alloc: Global,
        view: &View<'_>,
        end: u64,
    ) -> Result<(), AllocError> {
        // (in front of the first there is no time that is known)
        let pause = if self.latest == u64::MAX {
            u64::MAX
        } else {
            view.stamp().saturating_sub(self.latest)
        };
        self.latest = end;
        let called = Called::of(view);
        for command in self.commands.iter_mut() {
            if command.called == called {
                return command.add(view.stamp(), pause);
            }
        }
        if self.commands.len() < COMMANDS {
            let mut begins = Vec::new(alloc);
            begins.push(view.stamp())?;
            self.commands.push(Recurring {
                called,
                begins,
                is_full: false,
                pause,
            })?;
        }
        Ok(())
    }

    /// The frames of the channel: of the commands that recur with the shortest period that has room for marks, the one
    /// with the longest pause in front of it begins them, of equal ones the first. None where no command recurs so, or
    /// the channel has one alone.
    pub(crate) fn frames(
        &self,
        alloc: Global,
        scale: &Scale,
    ) -> Result<Option<Frames>, AllocError> {
        if self.commands.len() < 2 {
            return Ok(None);
        }
        let mut best: Option<(u64, usize)> = None;
        for (place, command) in self.commands.iter().enumerate() {
            if let Some(period) = command.period(alloc, scale)?
                && self.is_better(period, command.pause, best)
            {
                best = Some((period, place));
            }
        }
        match best {
            Some((period, place)) => self.begun(alloc, period, place),
            None => Ok(None),
        }
    }

    /// Whether a command with this period and pause begins frames rather than one that was found before.
    fn is_better(&self, period: u64, pause: u64, best: Option<(u64, usize)>) -> bool {
        let Some((other, place)) = best else {
            return true;
        };
        if !is_near(period, other) {
            return period < other;
        }
        self.commands
            .get(place)
            .is_some_and(|command| command.pause < pause)
    }

    /// Frames that begin with the command at a place: with each of its messages that does not come too early behind the
    /// last one, as one that is tried again does.
    fn begun(
        &self,
        alloc: Global,
        period: u64,
        place: usize,
    ) -> Result<Option<Frames>, AllocError> {
        let Some(command) = self.commands.get(place) else {
            return Ok(None);
        };
        let mut begins = Vec::new(alloc);
        let mut next = 0u64;
        for begin in command.begins.iter() {
            if *begin >= next {
                begins.push(*begin)?;
                next = begin.saturating_add(period - period / 8);
            }
        }
        Ok(Some(Frames { period, begins }))
    }
}

/// Whether the time from one message to the next is a period, but for an eighth of it.
fn is_near(time: u64, period: u64) -> bool
    ensures { result ≡ is_near time period }
{
    time.abs_diff(period) <= period / 8
}

/// The period of messages that begin there: the time from one to the next that is in the middle of all of them by
/// size, where at least three in four are near it and there are four messages.
fn period_of(alloc: Global, begins: &[u64]) -> Result<Option<u64>, AllocError> {
    let mut times = Vec::new(alloc);
    let mut last = u64::MAX;
    for begin in begins {
        if last != u64::MAX {
            times.push(begin.saturating_sub(last))?;
        }
        last = *begin;
    }
    if times.len() < 3 {
        return Ok(None);
    }
    times.sort()?;
    let Some(middle) = times.get(times.len() / 2).copied() else {
        return Ok(None);
    };
    let near = times.iter().filter(|time| is_near(**time, middle)).count() as u64;
    let all = times.len() as u64;
    let is_steady = middle > 0 && near.saturating_mul(4) >= all.saturating_mul(3);
    Ok(is_steady.then_some(middle))
}
