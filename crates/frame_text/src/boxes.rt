//! Frames in memory.

ghost use Rattle.frame_tree.specs.Tree.{condition_in, tree_of};
ghost use Rattle.std.specs.Prelude.{◌≡◌, IfOk};

use crate::builder::Builder;
use frame_tree::{Cond, Frame, Name, Scope};
use mil_message::{Message, OutcomeTest};
use mil_word::Line;
use std::alloc::{AllocError, Allocator};

/// Makes frames whose parts lie in memory of an allocator.
#[derive(Drop)]
pub struct Boxes<A: Allocator + Clone> {
    pub alloc: A,
}

// A value in memory of its own.
fn boxed<A: Allocator + Clone, T: Drop>(alloc: &A, value: T) -> Result<Box<T, A>, AllocError>
    ensures { IfOk result (λ b. b.value ≡ value) }
{
    Ok(Box::new(alloc.clone()?, value)?)
}

impl<A: Allocator + Clone> Builder for Boxes<A> {
    ghost use Rattle.frame_tree.specs.Tree.{condition_in, tree_of};
    ghost use Rattle.std.specs.Prelude.{map};

    type Cond = Cond<A>;

    type Frame = Frame<A>;

    type Row = Vec<Frame<A>, A>;

    ghost condition = { condition_in };

    ghost tree = { tree_of };

    ghost row_trees = { λ r. map tree_of r.items };

    ghost fits = { λ _ _ _. Unit {0} };

    ghost row_fits = { λ _ _ _. Unit {0} };

    ghost cost_is = { λ _ _. Unit {0} };

    ghost refused = { Unit {0} };

    fn ask(&self, test: OutcomeTest) -> Cond<A> {
        Cond::Test(test)
    }

    fn not(&self, inner: Cond<A>) -> Result<Cond<A>, AllocError> {
        Ok(Cond::Not(boxed(&self.alloc, inner)?))
    }

    fn all(&self, first: Cond<A>, second: Cond<A>) -> Result<Cond<A>, AllocError> {
        let first = boxed(&self.alloc, first)?;
        Ok(Cond::And(first, boxed(&self.alloc, second)?))
    }

    fn any(&self, first: Cond<A>, second: Cond<A>) -> Result<Cond<A>, AllocError> {
        let first = boxed(&self.alloc, first)?;
        Ok(Cond::Or(first, boxed(&self.alloc, second)?))
    }

    fn send(&self, line: Line, message: Message) -> Frame<A> {
        Frame::Send { line, message }
    }

    fn retry(&self, count: u8, line: Line, message: Message) -> Frame<A> {
        Frame::Retry {
            count,
            line,
            message,
        }
    }

    fn gap(&self, ticks: u16) -> Frame<A> {
        Frame::Gap(ticks)
    }

    fn repeat(&self, count: u16, body: Frame<A>) -> Result<Frame<A>, AllocError> {
        let body = boxed(&self.alloc, body)?;
        Ok(Frame::Repeat { count, body })
    }

    fn choose(
        &self,
        asked: Cond<A>,
        then: Frame<A>,
        otherwise: Frame<A>,
    ) -> Result<Frame<A>, AllocError> {
        let then = boxed(&self.alloc, then)?;
        let otherwise = boxed(&self.alloc, otherwise)?;
        Ok(Frame::If {
            condition: asked,
            then,
            otherwise,
        })
    }

    fn until(&self, asked: Cond<A>, count: u16, body: Frame<A>) -> Result<Frame<A>, AllocError> {
        let body = boxed(&self.alloc, body)?;
        Ok(Frame::Until {
            condition: asked,
            count,
            body,
        })
    }

    fn timed(&self, hundreds: u16, body: Frame<A>) -> Result<Frame<A>, AllocError> {
        let body = boxed(&self.alloc, body)?;
        Ok(Frame::Timed { hundreds, body })
    }

    fn call(&self, name: Name, _scope: &Scope<'_>, _costs: &Scope<'_>) -> Frame<A> {
        Frame::Call(name)
    }

    fn define(&self, name: Name, body: Frame<A>, rest: Frame<A>) -> Result<Frame<A>, AllocError> {
        let body = boxed(&self.alloc, body)?;
        let rest = boxed(&self.alloc, rest)?;
        Ok(Frame::Define { name, body, rest })
    }

    fn no_frames(&self) -> Result<Vec<Frame<A>, A>, AllocError> {
        Ok(Vec::new(self.alloc.clone()?))
    }

    fn more(
        &self,
        before: Vec<Frame<A>, A>,
        one: Frame<A>,
    ) -> Result<Vec<Frame<A>, A>, AllocError> {
        let mut row = before;
        row.push(one)?;
        Ok(row)
    }

    fn whole(&self, frames: Vec<Frame<A>, A>) -> Frame<A> {
        Frame::Seq(frames)
    }

    fn depth(&self, frame: &Frame<A>, scope: &Scope<'_>) -> u32 {
        frame.depth_in(scope)
    }

    fn messages(&self, frame: &Frame<A>) -> u32 {
        frame.worst_messages()
    }
}
