//! Copies of frames.

ghost use Rattle.frame_tree.specs.Tree.{tree_of, send, retry};
ghost use Rattle.std.specs.Prelude.{◌≡◌, map, IfOk};

use crate::Frame;
use mil_message::Message;
use mil_word::Line;
use std::alloc::{AllocError, Allocator};

impl<A: Allocator + Clone> Frame<A> {
    /// The same frame under another allocator.
    pub fn copy_in<B: Allocator + Clone>(&self, alloc: B) -> Result<Frame<B>, AllocError>
        ensures { IfOk result (λ f. tree_of f ≡ tree_of self.now) }
    {
        self.copied(&alloc)
    }

    // The same frame, each of its parts in this memory.
    #[cycle(copies)]
    fn copied<B: Allocator + Clone>(&self, alloc: &B) -> Result<Frame<B>, AllocError>
        ensures { IfOk result (λ f. tree_of f ≡ tree_of self.now) }
    {
        match self {
            Frame::Send { line, message } => Ok(send_copy(*line, message)),
            Frame::Retry {
                count,
                line,
                message,
            } => Ok(retry_copy(*count, *line, message)),
            Frame::Gap(ticks) => Ok(Frame::Gap(*ticks)),
            Frame::Repeat { count, body } => Ok(Frame::Repeat {
                count: *count,
                body: boxed(alloc, body.copied(alloc)?)?,
            }),
            Frame::If {
                condition,
                then,
                otherwise,
            } => Ok(Frame::If {
                condition: condition.copy_in(alloc)?,
                then: boxed(alloc, then.copied(alloc)?)?,
                otherwise: boxed(alloc, otherwise.copied(alloc)?)?,
            }),
            Frame::Until {
                condition,
                count,
                body,
            } => Ok(Frame::Until {
                condition: condition.copy_in(alloc)?,
                count: *count,
                body: boxed(alloc, body.copied(alloc)?)?,
            }),
            Frame::Timed { hundreds, body } => Ok(Frame::Timed {
                hundreds: *hundreds,
                body: boxed(alloc, body.copied(alloc)?)?,
            }),
            Frame::Seq(frames) => Ok(Frame::Seq(Frame::copies_of(frames.as_slice(), alloc)?)),
            Frame::Call(name) => Ok(Frame::Call(name.copy())),
            Frame::Define { name, body, rest } => Ok(Frame::Define {
                name: name.copy(),
                body: boxed(alloc, body.copied(alloc)?)?,
                rest: boxed(alloc, rest.copied(alloc)?)?,
            }),
        }
    }

    // Copies of these frames, in their order.
    #[cycle(copies)]
    fn copies_of<B: Allocator + Clone>(
        frames: &[Frame<A>],
        alloc: &B,
    ) -> Result<Vec<Frame<B>, B>, AllocError>
        ensures { IfOk result (λ copies. map tree_of copies.items ≡ map tree_of frames.now) }
    {
        let mut copies = Vec::new(alloc.clone()?);
        for frame in frames {
            copies.push(frame.copied(alloc)?)?;
        }
        Ok(copies)
    }
}

// The same send under any allocator: it holds none.
fn send_copy<A: Allocator + Clone>(line: Line, message: &Message) -> Frame<A>
    ensures { tree_of result ≡ send line message.now }
{
    Frame::Send {
        line,
        message: message.copy(),
    }
}

// The same retry under any allocator: it holds none.
fn retry_copy<A: Allocator + Clone>(count: u8, line: Line, message: &Message) -> Frame<A>
    ensures { tree_of result ≡ retry count line message.now }
{
    Frame::Retry {
        count,
        line,
        message: message.copy(),
    }
}

// A frame in memory of its own.
fn boxed<A: Allocator + Clone>(alloc: &A, frame: Frame<A>) -> Result<Box<Frame<A>, A>, AllocError>
    ensures { IfOk result (λ b. b.value ≡ frame) }
{
    Ok(Box::new(alloc.clone()?, frame)?)
}
