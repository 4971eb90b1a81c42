//! One exchange as it was on a line.
ghost use Rattle.mil_bus.specs.Times.{end_of, lasting, is_controllers_last};
ghost use Rattle.mil_bus.specs.declared.talks.Sent.{Sent};
ghost use Rattle.mil_bus.specs.declared.talks.Source.TheVariants.{Controller};
ghost use Rattle.mil_word.specs.Timing.{contiguous_gap};
ghost use Rattle.std.specs.Prelude.{◌≡◌, ◌+◌, ◌<◌, ◌≤◌, ◌^◌, []};

use crate::SentWords;
use mil_line::Gap;
use mil_message::Message;
use mil_word::timing::{SYNC_TO_PARITY, WORD_TIME};
use mil_word::{Line, Wave};

/// Who sent a word.
#[derive(Clone, Copy, Debug, PartialEq, Eq)]
pub enum Source {
    Controller,
    /// The terminal of this address, 0 to 30.
    Terminal(u8),
}

impl Default for Source {
    ghost use Rattle.mil_bus.specs.declared.talks.Source.TheVariants.{Controller};

    ghost is_default = { λ s. s ≡ Controller };

    fn default() -> Source
        ensures { result ≡ Controller }
    {
        Source::Controller
    }
}

/// A word on a line.
#[derive(Clone, Copy, Debug, PartialEq, Eq)]
pub struct Sent {
    /// What came on the line, sound or not.
    pub wave: Wave,
    /// The gap before it, in ticks of 0.1 µs.
    pub gap: Gap,
    /// The run that it belongs to: 0 is the controller's, 1 and up are the replies.
    pub run: u8,
    pub source: Source,
}

impl Default for Sent {
    ghost use Rattle.mil_bus.specs.declared.talks.Source.TheVariants.{Controller};
    ghost use Rattle.mil_word.specs.Timing.{contiguous_gap};

    ghost is_default = { λ s. s ≡ record { wave = 0; gap = contiguous_gap; run = 0; source = Controller } };

    fn default() -> Sent
        ensures { result ≡ record { wave = 0; gap = contiguous_gap; run = 0; source = Controller } }
    {
        Sent {
            wave: Wave::default(),
            gap: Gap::default(),
            run: 0,
            source: Source::Controller,
        }
    }
}

/// The exchange of one message.
#[derive(Debug, Drop)]
pub struct Talk {
    /// When its first word started, or would have, in ticks of 0.1 µs.
    pub start: u64,
    /// The line that the message was asked for.
    pub line: Line,
    pub message: Message,
    /// The words that came on the line, in their order; none past the fortieth is sent.
    pub sent: SentWords,
}

/// The ticks from the end of the word before to the end of a word, by its place in the talk.
#[inline]
pub(crate) fn lasting(place: usize, gap: Gap) -> u64
    ensures value { result ≡ lasting place gap }
    ensures small { result < 2 ^ 17 }
{
    if place == 0 {
        u64::from(WORD_TIME)
    } else {
        u64::from(gap.ticks()) + u64::from(SYNC_TO_PARITY)
    }
}

impl Talk {
    /// Room for a talk: one of no word, at tick 0 on line A, of the message that is there by default.
    pub fn none() -> Talk
        ensures none { result.sent.items ≡ [] }
    {
        Talk {
            start: 0,
            line: Line::A,
            message: Message::default(),
            sent: SentWords::none(),
        }
    }

    /// When the last word ended, and where there was none, when its first would have started.
    pub fn end(&self) -> u64
        requires { self.now.start < 2 ^ 61 }
        ensures value { result ≡ end_of self.now }
        ensures soon { result ≤ self.now.start + 2 ^ 23 }
        ensures after { self.now.start ≤ result }
    {
        self.sent.end(self.start)
    }

    /// Whether the last word was the controller's; a talk of no word counts so.
    pub fn is_controllers_last(&self) -> bool
        ensures { result ≡ is_controllers_last self.now.sent.items }
    {
        self.sent.is_controllers_last()
    }
}
