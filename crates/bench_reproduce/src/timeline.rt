//! When the messages of a channel were on the bus, and which commands they were: what frames are found by.

use mil_message::Message;
use mil_word::Line;
use mil_word::timing::CONTIGUOUS_GAP;

/// What recurs of a message: its line, its form and its command words.
#[derive(Clone, Copy, Debug, PartialEq, Eq)]
pub(crate) struct Call {
    line: Line,
    form: u8,
    first: u16,
    /// The second command word, of a transfer between terminals.
    second: Option<u16>,
}

impl Call {
    /// That of a message on a line.
    pub(crate) fn of(line: Line, message: &Message) -> Call {
        let commands = message.commands();
        Call {
            line,
            form: message.form_number(),
            first: commands.first.value(),
            second: commands.second.map(|command| command.value()),
        }
    }
}

/// A message as it was played.
#[derive(Clone, Copy, Debug)]
pub(crate) struct Played {
    /// When it began, in ticks behind the first message of the channel.
    pub(crate) at: u64,
    /// When its last word ended.
    pub(crate) end: u64,
    /// The least gap that a controller keeps behind it, in ticks.
    pub(crate) least: u16,
    pub(crate) call: Call,
}

/// The messages of a channel on a job's time.
#[derive(Clone, Copy)]
pub(crate) struct Timeline<'p> {
    played: &'p [Played],
    /// The tick of the first of them.
    shift: u64,
}

impl<'p> Timeline<'p> {
    /// These messages, the first of them at a tick.
    pub(crate) fn of(played: &'p [Played], shift: u64) -> Timeline<'p> {
        Timeline { played, shift }
    }

    /// How many messages there are.
    pub(crate) fn count(&self) -> usize {
        self.played.len()
    }

    /// The same messages, the first of them at another tick.
    pub(crate) fn shifted(&self, shift: u64) -> Timeline<'p> {
        Timeline {
            played: self.played,
            shift,
        }
    }

    /// The tick of the first message.
    pub(crate) fn shift(&self) -> u64 {
        self.shift
    }

    /// When a message began; the latest tick of all where there is none.
    pub(crate) fn at(&self, place: usize) -> u64 {
        match self.played.get(place) {
            Some(played) => played.at.saturating_add(self.shift),
            None => u64::MAX,
        }
    }

    /// When a message ended.
    pub(crate) fn end(&self, place: usize) -> u64 {
        match self.played.get(place) {
            Some(played) => played.end.saturating_add(self.shift),
            None => u64::MAX,
        }
    }

    /// Whether two messages have the same commands.
    pub(crate) fn is_like(&self, place: usize, other: usize) -> bool {
        match (self.played.get(place), self.played.get(other)) {
            (Some(one), Some(two)) => one.call == two.call,
            _ => false,
        }
    }

    /// The message in front of one.
    fn before(&self, place: usize) -> Option<&'p Played> {
        self.played.get(place.checked_sub(1)?)
    }

    /// When a message begins by a gap alone, in ticks: the first of all at once.
    pub(crate) fn start_by(&self, place: usize, gap: u64) -> u64 {
        let Some(before) = self.before(place) else {
            return 0;
        };
        let kept = gap.max(u64::from(before.least));
        let end = before.end.saturating_add(self.shift);
        end.saturating_add(kept.saturating_sub(u64::from(CONTIGUOUS_GAP)))
    }

    /// The gap that a message kept behind the one in front of it, and the least that it had to keep.
    pub(crate) fn gaps(&self, place: usize) -> (u64, u64) {
        let Some(before) = self.before(place) else {
            return (0, 0);
        };
        let end = before.end.saturating_add(self.shift);
        let kept = self.at(place).saturating_add(u64::from(CONTIGUOUS_GAP));
        (kept.saturating_sub(end), u64::from(before.least))
    }
}
