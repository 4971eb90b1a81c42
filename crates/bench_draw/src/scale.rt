//! Times as places in the picture.

use ch11_layout::{Role, View};
use mil_word::timing::{CONTIGUOUS_GAP, WORD_TIME};

/// How many pixels the time takes from left to right.
pub(crate) const WIDTH: u64 = 1200;

/// Where the time begins, in pixels from the left.
pub(crate) const LEFT: u64 = 90;

/// How many parts of the time have a load of their own.
pub(crate) const PARTS: usize = 100;

/// How many ticks a word takes.
pub(crate) const WORD: u64 = WORD_TIME as u64;

/// From which tick to which the picture goes.
#[derive(Clone, Copy)]
pub(crate) struct Scale {
    pub(crate) begin: u64,
    pub(crate) span: u64,
}

impl Scale {
    /// The scale of a time that begins and ends there, of at least one tick.
    pub(crate) fn of(begin: u64, end: u64) -> Scale {
        Scale {
            begin,
            span: end.saturating_sub(begin).max(1),
        }
    }

    /// The place of a tick in tenths of a pixel from the left of the time.
    pub(crate) fn tenths(&self, tick: u64) -> u64 {
        let behind = u128::from(tick.saturating_sub(self.begin));
        let place = behind * 10 * u128::from(WIDTH) / u128::from(self.span.max(1));
        u64::try_from(place).unwrap_or(u64::MAX).min(10 * WIDTH)
    }

    /// How many tenths of a pixel so many ticks take.
    pub(crate) fn length(&self, ticks: u64) -> u64 {
        self.tenths(self.begin.saturating_add(ticks))
    }

    /// The pixel of a tick, of which the time has 1200.
    pub(crate) fn pixel(&self, tick: u64) -> usize {
        ((self.tenths(tick) / 10) as usize).min(WIDTH as usize - 1)
    }

    /// The hundredth of the time that a tick is in, 0 to 99.
    pub(crate) fn part(&self, tick: u64) -> usize {
        self.pixel(tick) / (WIDTH as usize / PARTS)
    }

    /// The tick at which a hundredth of the time begins.
    fn edge(&self, part: usize) -> u64 {
        let behind = u128::from(self.span) * part as u128 / PARTS as u128;
        self.begin
            .saturating_add(u64::try_from(behind).unwrap_or(u64::MAX))
    }

    /// How many ticks a hundredth of the time has.
    pub(crate) fn ticks_in(&self, part: usize) -> u64 {
        self.edge(part.saturating_add(1))
            .saturating_sub(self.edge(part))
    }

    /// How many ticks of a hundredth of the time lie from one tick up to another.
    pub(crate) fn shared(&self, part: usize, begin: u64, end: u64) -> u64 {
        let from = begin.max(self.edge(part));
        let to = end.min(self.edge(part.saturating_add(1)));
        to.saturating_sub(from)
    }
}

/// Words of one role behind one another: when the first begins, and how many there are.
#[derive(Clone, Copy)]
pub(crate) struct Run {
    pub(crate) begin: u64,
    pub(crate) words: u64,
    pub(crate) role: Role,
}

impl Run {
    /// The tick at which the last of the words ends.
    pub(crate) fn end(&self) -> u64 {
        self.begin.saturating_add(self.words.saturating_mul(WORD))
    }
}

/// What lies between two words with this gap, in ticks.
fn pause(gap: u8) -> u64 {
    u64::from(u16::from(gap).saturating_sub(CONTIGUOUS_GAP))
}

/// The runs of a message: a command, a second one, a status word in front of the data words, data words, a status
/// word behind them. Runs without words are there too.
pub(crate) fn runs_of(view: &View<'_>) -> [Run; 5] {
    let layout = view.layout();
    let front = layout.data_start.saturating_sub(layout.commands) as u64;
    let back = layout.words.saturating_sub(layout.data_end) as u64;
    let command = Run {
        begin: view.stamp(),
        words: layout.commands.min(1) as u64,
        role: Role::Command,
    };
    let second = Run {
        begin: command.end(),
        words: layout.commands.saturating_sub(1) as u64,
        role: Role::Command,
    };
    let status = Run {
        begin: second.end().saturating_add(if front > 0 {
            pause(view.first_gap())
        } else {
            0
        }),
        words: front,
        role: Role::Status,
    };
    let carried = Run {
        begin: status.end(),
        words: layout.data_end.saturating_sub(layout.data_start) as u64,
        role: Role::Data,
    };
    let reply = Run {
        begin: carried
            .end()
            .saturating_add(if back > 0 { pause(view.last_gap()) } else { 0 }),
        words: back,
        role: Role::Status,
    };
    [command, second, status, carried, reply]
}

/// The end of a message, in ticks.
pub(crate) fn end_of(view: &View<'_>) -> u64 {
    let [_, _, _, _, last] = runs_of(view);
    last.end()
}
