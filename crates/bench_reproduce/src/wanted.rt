//! The record that a message of the job has to give.

use arrayvec::ArrayVec;
use ch11_f1::Record;
use ch11_layout::View;
use mil_bus::Talk;
use mil_line::MOST_SENT;
use mil_monitor::observe;
use mil_status::BlockBits;
use mil_word::Line;

/// The latest tick before which an inserted message may be held back: 2^47.
pub(crate) const LATEST_TICK: u64 = 140_737_488_355_328;

/// What was recorded of a message: when it began, in ticks behind the first of its channel, its line, its block status
/// word and gap times word, and its first forty words.
#[derive(Debug, Drop)]
pub(crate) struct Wanted {
    pub(crate) at: u64,
    pub(crate) line: Line,
    pub(crate) block: u16,
    pub(crate) gaps: u16,
    pub(crate) words: ArrayVec<u16, 40>,
}

impl Wanted {
    /// What was recorded of a message of a channel whose first stamp is given.
    pub(crate) fn of(view: &View<'_>, first: u64) -> Wanted {
        let mut words = ArrayVec::new();
        for place in 0..view.word_count().min(MOST_SENT) {
            // There is room for each of them.
            let _ = words.try_push(view.word(place));
        }
        Wanted {
            at: view.stamp().saturating_sub(first).min(LATEST_TICK),
            line: view.line(),
            block: view.block(),
            gaps: view.gaps(),
            words,
        }
    }

    /// How many words there are.
    pub(crate) fn count(&self) -> usize {
        self.words.as_slice().len()
    }

    /// The word at a place; 0 where there is none.
    pub(crate) fn word(&self, place: usize) -> u16 {
        match self.words.as_slice().get(place) {
            Some(word) => *word,
            None => 0,
        }
    }

    /// The words from one place up to another.
    pub(crate) fn part(&self, from: usize, to: usize) -> &[u16] {
        let words = self.words.as_slice();
        let end = to.min(words.len());
        &words[from.min(end)..end]
    }

    /// Whether the block status word has a bit.
    pub(crate) fn has(&self, bit: BlockBits) -> bool {
        self.block & bit.0 != 0
    }

    /// Whether it has two commands.
    pub(crate) fn is_transfer(&self) -> bool {
        self.has(BlockBits::TERMINAL_TO_TERMINAL)
    }

    /// The gap of a reply in ticks, 0 where there was none. `run` 1 or 2.
    pub(crate) fn gap(&self, run: u32) -> u16 {
        if run == 1 {
            self.gaps % 256
        } else {
            self.gaps / 256
        }
    }

    /// Whether a reply came.
    pub(crate) fn came(&self, run: u32) -> bool {
        self.gap(run) != 0
    }

    /// Whether a word was unsound, had another sync than its place, or stood behind a gap.
    pub(crate) fn has_odd_word(&self) -> bool {
        self.has(BlockBits::INVALID_WORD_ERROR)
            || self.has(BlockBits::SYNC_TYPE_ERROR)
            || self.has(BlockBits::FORMAT_ERROR)
    }

    /// Whether a talk gives this record.
    pub(crate) fn is_given_by(&self, talk: &Talk) -> bool {
        self.is_like(&observe(talk))
    }

    /// Whether it is the same as a record.
    fn is_like(&self, record: &Record) -> bool {
        self.at == record.stamp
            && self.block == record.block
            && self.gaps == record.gaps
            && self.words.as_slice() == record.words.as_slice()
    }
}
