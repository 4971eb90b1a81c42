//! Frames, the programs of a bus controller, as trees under any allocator (own choice): what a script says, before
//! it is assembled, and what it means in any world.
//!
//! It may know: words, messages. Its tests: `frame_tests`. Its wrong bodies: `edits/`.
#![tactic(auto)]

mod bounds;
mod conditions;
mod frames;
mod names;

pub use bounds::expansion_keeps;
use mil_message::{Message, OutcomeTest};
use mil_word::Line;
pub use names::{Name, Scope};
use std::alloc::Allocator;

/// A condition on the outcome of the last message; before any message every test in it is false.
#[derive(Drop)]
pub enum Cond<A: Allocator + Clone> {
    /// A test of the last outcome.
    Test(OutcomeTest),
    /// The condition does not hold.
    Not(Box<Cond<A>, A>),
    /// Both conditions hold.
    And(Box<Cond<A>, A>, Box<Cond<A>, A>),
    /// One of the conditions holds, or both do.
    Or(Box<Cond<A>, A>, Box<Cond<A>, A>),
}

/// A frame.
#[derive(Drop)]
pub enum Frame<A: Allocator + Clone> {
    /// Sends a message on a line.
    Send {
        line: Line,
        message: Message,
    },
    /// Sends a message, and then at most `count` (1 to 8) times more, each time on the line other than before, while
    /// the last outcome is failed.
    Retry {
        count: u8,
        line: Line,
        message: Message,
    },
    /// Sets the gap of all messages after it, 40 to 65,535 ticks of 0.1 µs.
    Gap(u16),
    /// Runs the body `count` (1 to 10,000) times.
    Repeat {
        count: u16,
        body: Box<Frame<A>, A>,
    },
    /// Runs `then` where the condition holds, else `otherwise`.
    If {
        condition: Cond<A>,
        then: Box<Frame<A>, A>,
        otherwise: Box<Frame<A>, A>,
    },
    /// Looks at the condition before each turn, and runs the body while it does not hold and fewer than `count` (1 to
    /// 10,000) turns ran.
    Until {
        condition: Cond<A>,
        count: u16,
        body: Box<Frame<A>, A>,
    },
    /// Runs the body; what is behind it starts `hundreds` (1 to 65,535) times 100 µs after the body began, or as soon
    /// as it can where the body took longer.
    Timed {
        hundreds: u16,
        body: Box<Frame<A>, A>,
    },
    /// Runs frames one after the other.
    Seq(Vec<Frame<A>, A>),
    /// Runs the body of the definition of this name.
    Call(Name),
    /// Runs the rest, in which the name stands for the body. A frame may be assembled where its definitions stand at
    /// the outside: at most 32, with distinct names, each calling earlier ones alone.
    Define {
        name: Name,
        body: Box<Frame<A>, A>,
        rest: Box<Frame<A>, A>,
    },
}
