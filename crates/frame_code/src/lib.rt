//! The code of the bus controller (own choice): fourteen operations, images of them, the bytes of an image, and
//! which images may be loaded.
//!
//! It may know: words, messages, mode codes, status bits. Its tests: `frame_tests`. Its wrong bodies: `edits/`.
#![tactic(auto)]

ghost use Rattle.frame_code.specs.Ranges.{IsImage};
ghost use Rattle.std.specs.Prelude.{◌≡◌, IfOk};

mod error;
mod fields;
mod reading;
mod writing;

pub use error::ImageError;
use mil_message::{Message, OutcomeTest};
use mil_word::Line;
pub use reading::read_image;
use std::alloc::AllocError;
use std::marker::Model;
pub use writing::write_image;

/// One operation of the bus controller. Places are counted from 0 in the list of operations, messages in that of
/// messages; a message step sends its message, and all other steps take no time on the bus.
#[derive(Clone, Copy, PartialEq, Eq, Debug)]
pub enum Op {
    /// Number 0: the end; every later step is a Halt too.
    Halt,
    /// Number 1: sends the message of this index on its own line.
    Send(u16),
    /// Number 2: sends the message of this index on the line other than the last one's (before any, A counts as
    /// last).
    Alt(u16),
    /// Number 3: sets the gap before the messages after it, 40 to 65,535 ticks of 0.1 µs.
    SetGap(u16),
    /// Number 4: pushes the counter, 1 to 10,000.
    Loop(u16),
    /// Number 5: takes 1 from the top counter; above 0 it goes to this place, at 0 it pops the counter and goes on.
    Again(u16),
    /// Number 6: pops the top counter and goes to this place.
    Leave(u16),
    /// Number 7: goes to this place.
    Jump(u16),
    /// Number 8: sets the flag to a test of the last outcome (false before any): 0 failed, 1 silent, 16 + b the bit b
    /// of the status words, b one of 0 to 4 and 8 to 10.
    Test(OutcomeTest),
    /// Number 9: goes to this place where the flag is false.
    JumpFalse(u16),
    /// Number 10: notes the place behind it, and goes to the start of the routine of this number, 0 to 31.
    Call(u8),
    /// Number 11: goes to the place that was noted last, and forgets it; a routine ends here. Main begins behind the
    /// last one, and the machine starts there.
    Return,
    /// Number 12: opens a frame, and notes now as the tick at which it begins.
    Begin,
    /// Number 13: closes the frame that was opened last: nothing is sent before so many hundreds of µs, 1 to 65,535,
    /// have passed since it began.
    Pace(u16),
}

/// What the controller runs: at most 4096 operations, each with its operand in its range, and the at most 1024 messages
/// that they send.
#[derive(Drop)]
pub struct Image {
    operations: Vec<Op>,
    messages: Vec<(Line, Message)>,
}

impl Model for Image {
    ghost use Rattle.frame_code.specs.Table.{Code};

    ghost Value = { Code };

    ghost use Rattle.frame_code.specs.Ranges.{code_in, IsImage};

    ghost view = { code_in };

    ghost invariant = { λ i. IsImage (code_in i) };
}

impl Image {
    /// The image of these operations and messages. Condition: there are at most 4096 and 1024 of them, and each operand
    /// is in its range.
    pub fn new(operations: Vec<Op>, messages: Vec<(Line, Message)>) -> Image
        requires { IsImage (record { operations = operations.items; messages = messages.items }) }
        ensures { result ≡ record { operations = operations.items; messages = messages.items } }
    {
        Image {
            operations,
            messages,
        }
    }

    /// An equal image, in memory of its own.
    pub fn copy(&self) -> Result<Image, AllocError>
        ensures { IfOk result (λ image. image ≡ self.now) }
    {
        Ok(Image {
            operations: self.operations.clone()?,
            messages: self.messages.clone()?,
        })
    }

    /// The operations, at most 4096.
    pub fn operations(&self) -> &[Op]
        ensures value { result.now ≡ self.now.operations }
        ensures image { IsImage self.now }
    {
        &self.operations
    }

    /// The messages, at most 1024, each with its line.
    pub fn messages(&self) -> &[(Line, Message)]
        ensures value { result.now ≡ self.now.messages }
        ensures image { IsImage self.now }
    {
        &self.messages
    }
}

/// What frames run on, for proofs alone: the type of its states and that of its outcomes.
pub trait Setting {
    ghost State: { Type 0 };

    ghost Outcome: { Type 0 };
}
