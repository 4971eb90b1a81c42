//! Lines that speak of many messages, and what a series places at them.
ghost use Rattle.job_file.specs.Spans.{IsSpan, span_count, span_number, word_at, placed_at};
ghost use Rattle.mil_word.specs.Fields.{highest_put_up};
ghost use Rattle.std.specs.Prelude.{◌≡◌, ◌<◌, ◌≤◌};

use arrayvec::ArrayVec;
use bc_machine::{HostAction, Placed};
use mil_host::{Action, TransmitWords};

/// The messages from `first` to `last`, both 1 to 1,000,000, of which each is `step` (1 to 1,000,000) behind the one
/// before.
#[derive(Clone, Copy, Debug)]
pub struct Span {
    pub first: u32,
    pub last: u32,
    pub step: u32,
}

impl Span {
    /// How many there are.
    pub fn count(self) -> u32
        requires { IsSpan self }
        ensures value { result ≡ span_count self }
        ensures few { result ≤ 1000000 }
    {
        (self.last - self.first) / self.step + 1
    }

    /// The number of the one that so many stand before.
    #[tactic(auto, using(crate::proofs::SpanLemmas::number_high))]
    pub fn number(self, before: u32) -> u32
        requires span { IsSpan self }
        requires before { before < span_count self }
        ensures value { result ≡ span_number self before }
        ensures low { 1 ≤ result }
        ensures high { result ≤ 1000000 }
    {
        self.first + before * self.step
    }
}

/// Before each of these messages the host of the terminal puts up one word for a transmit command at the subaddress,
/// 1 to 29: `start` before the first, and `add` more, modulo 65,536, before each next one.
#[derive(Clone, Copy, Debug)]
pub struct Series {
    pub span: Span,
    pub address: u8,
    pub sub: u8,
    pub start: u16,
    pub add: u16,
}

impl Series {
    /// The word before the message that so many stand before.
    fn word(&self, before: u32) -> u16
        ensures { result ≡ word_at self.now before }
    {
        let word = u64::from(self.start) + u64::from(before) * u64::from(self.add);
        (word % 65_536) as u16
    }

    /// The action before that message.
    pub fn placed(&self, before: u32) -> Placed
        requires span { IsSpan self.now.span }
        requires before { before < span_count self.now.span }
        requires low { 1 ≤ self.now.sub }
        requires high { self.now.sub ≤ highest_put_up }
        ensures { result ≡ placed_at self.now before }
    {
        let mut words = ArrayVec::new();
        words.push(self.word(before));
        Placed {
            number: self.span.number(before),
            action: HostAction::Terminal {
                address: self.address,
                action: Action::Transmit(TransmitWords::make(self.sub, words)),
            },
        }
    }
}
