//! A recorded message, decoded once for all that look at it.
ghost use Rattle.ch11_f1.specs.Views.{message_of};
ghost use Rattle.ch11_layout.specs.BlockStatus as block;
ghost use Rattle.ch11_layout.specs.Forms.{form_of};
ghost use Rattle.ch11_layout.specs.Layouts as layouts;
ghost use Rattle.ch11_layout.specs.Replies as spec;
ghost use Rattle.ch11_layout.specs.Stamps.{has_time, recorded, time_of};
ghost use Rattle.mil_word.specs.Fields.{most_words};
ghost use Rattle.std.specs.Prelude.{◌≡◌, ◌≤◌};

use crate::block::{
    FORMAT_ERROR, INVALID_WORD_ERROR, LINE_B, MESSAGE_ERROR, RESPONSE_TIMEOUT, SYNC_TYPE_ERROR,
    TERMINAL_TO_TERMINAL, WORD_COUNT_ERROR,
};
use crate::forms::RecordedForm;
use crate::layouts::{Layout, first_gap, is_set, second_gap};
use crate::stamps::StampKind;
use arrayvec::ArrayVec;
use ch11_f1::Seen;
use mil_word::{Command, Line};
use std::marker::Model;

/// A status word that came.
#[derive(Clone, Copy, Debug, PartialEq, Eq)]
pub struct Reply {
    /// The status word.
    pub status: u16,
    /// The address of the terminal of which it is due, 0 to 31.
    pub due: u8,
    /// The response time in ticks of 0.1 µs, 255 where it was that or longer.
    pub gap: u8,
}

/// A recorded message with when it began, what its words are, its form and its replies, worked out once. Contracts see
/// the message.
#[derive(Debug, Drop)]
pub struct View<'a> {
    seen: Seen<'a>,
    kind: StampKind,
    layout: Layout,
    form: RecordedForm,
}

impl<'a> Model for View<'a> {
    ghost use Rattle.ch11_f1.specs.Views.{message_of};
    ghost use Rattle.ch11_layout.specs.Forms.{form_of};
    ghost use Rattle.ch11_layout.specs.Layouts.{layout_of};
    ghost use Rattle.ch11_layout.specs.Stamps.{Recorded, recorded};
    ghost use Rattle.std.specs.Prelude.{◌≡◌};

    ghost Value = { Recorded };

    ghost view = { λ v. recorded v.kind (message_of v.seen) };

    ghost invariant = { λ v. (v.layout ≡ layout_of (recorded v.kind (message_of v.seen)))
        × (v.form ≡ form_of (recorded v.kind (message_of v.seen))) };
}

impl<'a> View<'a> {
    /// A message as it lies in a body, decoded; its packet's stamps are of this kind.
    #[inline]
    pub fn of(kind: StampKind, seen: &Seen<'a>) -> View<'a>
        ensures { result ≡ recorded kind (message_of seen.now) }
    {
        let layout = Layout::of(seen);
        View {
            seen: *seen,
            kind,
            layout,
            form: RecordedForm::in_layout(seen, &layout),
        }
    }

    /// Its time stamp, the eight bytes as a number.
    #[inline]
    pub fn number(&self) -> u64
        ensures { result ≡ self.now.number }
    {
        self.seen.stamp
    }

    /// What its time stamp is.
    #[inline]
    pub fn kind(&self) -> StampKind
        ensures { result ≡ self.now.kind }
    {
        self.kind
    }

    /// Its time stamp in ticks of 0.1 µs, of the recorder's counter or behind 1970-01-01T00:00:00; where no time is
    /// known, the number that it is.
    #[inline]
    pub fn stamp(&self) -> u64
        ensures { result ≡ self.now.stamp }
    {
        self.kind.ticks(self.seen.stamp)
    }

    /// When it began, in the same ticks; None where no time is known.
    #[inline]
    pub fn time(&self) -> Option<u64>
        ensures { result ≡ time_of self.now }
    {
        match self.kind {
            StampKind::Counter | StampKind::TimeOfDay => Some(self.stamp()),
            StampKind::Unknown => None,
        }
    }

    /// Whether its time is known.
    #[inline]
    pub fn has_time(&self) -> bool
        ensures { result ≡ has_time self.now }
    {
        self.time().is_some()
    }

    /// Its block status word.
    #[inline]
    pub fn block(&self) -> u16
        ensures { result ≡ self.now.block }
    {
        self.seen.block
    }

    /// Its gap times word.
    #[inline]
    pub fn gaps(&self) -> u16
        ensures { result ≡ self.now.gaps }
    {
        self.seen.gaps
    }

    /// Its bus words as they lie in the body: two bytes each, the low one first.
    #[inline]
    pub fn bytes(&self) -> &'a [u8]
        ensures { result.now ≡ self.now.bytes }
    {
        self.seen.words
    }

    /// How many bus words it has.
    #[inline]
    pub fn word_count(&self) -> usize
        ensures { result ≡ layouts.size_of self.now }
    {
        self.seen.word_count()
    }

    /// The bus word at a place, counted from 0; 0 where there is none.
    #[inline]
    pub fn word(&self, place: usize) -> u16
        ensures { result ≡ layouts.word_of self.now.bytes place }
    {
        self.seen.word(place)
    }

    /// Which of its words are commands, status words and data words.
    #[inline]
    pub fn layout(&self) -> Layout
        ensures { result ≡ layouts.layout_of self.now }
    {
        self.layout
    }

    /// Its form.
    #[inline]
    pub fn form(&self) -> RecordedForm
        ensures { result ≡ form_of self.now }
    {
        self.form
    }

    /// The line that it went over.
    #[inline]
    pub fn line(&self) -> Line
        ensures { result ≡ spec.line_of self.now }
    {
        if self.is_on_line_b() {
            Line::B
        } else {
            Line::A
        }
    }

    /// The gap of the first reply in ticks of 0.1 µs: 0 where there was none, 255 where it was that or longer.
    #[inline]
    pub fn first_gap(&self) -> u8
        ensures { result ≡ layouts.first_gap self.now }
    {
        first_gap(&self.seen)
    }

    /// The gap of the second reply in ticks of 0.1 µs: 0 where there was none, 255 where it was that or longer.
    #[inline]
    pub fn second_gap(&self) -> u8
        ensures { result ≡ layouts.second_gap self.now }
    {
        second_gap(&self.seen)
    }

    /// The gap of the reply of the terminal that receives data words in ticks of 0.1 µs: 0 where there was none, 255
    /// where it was that or longer.
    #[inline]
    pub fn last_gap(&self) -> u8
        ensures { result ≡ layouts.last_gap self.now }
    {
        if self.is_transfer() {
            self.second_gap()
        } else if self.layout.commands < self.layout.data_start {
            0
        } else {
            self.first_gap()
        }
    }

    /// The reply of the terminal that sends data words, in front of them, if it came.
    #[inline]
    pub fn front_reply(&self) -> Option<Reply>
        ensures { result ≡ spec.front_reply self.now }
    {
        let commands = self.layout.commands;
        if commands >= self.layout.data_start {
            return None;
        }
        Some(Reply {
            status: self.word(commands),
            due: Command::of(self.word(commands.saturating_sub(1))).address(),
            gap: self.first_gap(),
        })
    }

    /// The reply of the terminal that receives data words, behind them, if it came.
    #[inline]
    pub fn back_reply(&self) -> Option<Reply>
        ensures { result ≡ spec.back_reply self.now }
    {
        if self.layout.data_end >= self.layout.words {
            return None;
        }
        Some(Reply {
            status: self.word(self.layout.data_end),
            due: Command::of(self.word(0)).address(),
            gap: self.last_gap(),
        })
    }

    /// Its status words, in their order.
    pub fn statuses(&self) -> ArrayVec<u16, 2>
        ensures { result.items ≡ spec.statuses self.now }
    {
        let mut found = ArrayVec::new();
        let layout = self.layout;
        if layout.commands < layout.data_start {
            found.push(self.word(layout.commands));
        }
        if layout.data_end < layout.words {
            found.push(self.word(layout.data_end));
        }
        found
    }

    /// Its data words. Condition: they are at most 32.
    pub fn data_words(&self) -> ArrayVec<u16, 32>
        requires { spec.data_count self.now ≤ most_words }
        ensures { result.items ≡ spec.data_words self.now }
    {
        let mut found = ArrayVec::new();
        let start = self.data_start();
        'words: for place in 0..self.data_count() {
            found.push(self.word(start + place));
        }
        found
    }

    /// Where its data words begin.
    #[inline]
    fn data_start(&self) -> usize
        ensures { result ≡ (layouts.layout_of self.now).data_start }
    {
        self.layout.data_start
    }

    /// How many data words it has.
    #[inline]
    pub fn data_count(&self) -> usize
        ensures { result ≡ spec.data_count self.now }
    {
        self.layout.data_end.saturating_sub(self.layout.data_start)
    }
}

/// The bits of its block status word by name.
impl<'a> View<'a> {
    /// It went over line B (bit 13).
    #[inline]
    pub fn is_on_line_b(&self) -> bool
        ensures { result ≡ block.is_on_line_b self.now.block }
    {
        is_set(self.seen.block, LINE_B)
    }

    /// The summary of its errors (bit 12).
    #[inline]
    pub fn has_error(&self) -> bool
        ensures { result ≡ block.has_error self.now.block }
    {
        is_set(self.seen.block, MESSAGE_ERROR)
    }

    /// A transfer between terminals, which has two commands (bit 11).
    #[inline]
    pub fn is_transfer(&self) -> bool
        ensures { result ≡ block.is_transfer self.now.block }
    {
        is_set(self.seen.block, TERMINAL_TO_TERMINAL)
    }

    /// A format error (bit 10).
    #[inline]
    pub fn has_format_error(&self) -> bool
        ensures { result ≡ block.has_format_error self.now.block }
    {
        is_set(self.seen.block, FORMAT_ERROR)
    }

    /// No response, or a late one (bit 9).
    #[inline]
    pub fn has_response_timeout(&self) -> bool
        ensures { result ≡ block.has_response_timeout self.now.block }
    {
        is_set(self.seen.block, RESPONSE_TIMEOUT)
    }

    /// Another number of words than due (bit 5).
    #[inline]
    pub fn has_word_count_error(&self) -> bool
        ensures { result ≡ block.has_word_count_error self.now.block }
    {
        is_set(self.seen.block, WORD_COUNT_ERROR)
    }

    /// A sound word with the wrong sync for its place (bit 4).
    #[inline]
    pub fn has_sync_type_error(&self) -> bool
        ensures { result ≡ block.has_sync_type_error self.now.block }
    {
        is_set(self.seen.block, SYNC_TYPE_ERROR)
    }

    /// An unsound word (bit 3).
    #[inline]
    pub fn has_invalid_word_error(&self) -> bool
        ensures { result ≡ block.has_invalid_word_error self.now.block }
    {
        is_set(self.seen.block, INVALID_WORD_ERROR)
    }
}
