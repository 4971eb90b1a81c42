//! What frames come to. It takes no memory, so a text in whose reading memory was refused can be read to its end.

ghost use Rattle.std.specs.Prelude.{◌≡◌, ◌+◌, ◌*◌, min, max};

use crate::builder::Builder;
use crate::outlines::{Ask, Asked, Outline, Part, asked_of, outline_of};
use frame_tree::{Name, Scope};
use mil_message::{Message, OutcomeTest};
use mil_word::Line;
use std::alloc::AllocError;
use std::snapshot::Snapshot;

/// What a frame comes to, or frames one after the other.
#[derive(Drop)]
pub struct Weight {
    /// How many messages are sent at most, 1,000,001 where they are more than 1,000,000.
    pub messages: u32,
    /// How many blocks stand in one another, 17 where they are more than 16.
    pub depth: u32,
    /// The frame, in proofs alone.
    pub outline: Snapshot<Outline>,
}

/// Makes weights. It takes no memory.
#[derive(Drop)]
pub struct Weigher;

// A product, 1,000,001 where it is more than that.
fn times_capped(count: u16, messages: u32) -> u32
    ensures { result ≡ min 1000001 (count * messages) }
{
    u32::from(count).saturating_mul(messages).min(1_000_001)
}

// A sum, 1,000,001 where it is more than that.
fn sum_capped(first: u32, second: u32) -> u32
    ensures { result ≡ min 1000001 (first + second) }
{
    first.saturating_add(second).min(1_000_001)
}

// How many blocks stand in one another where these stand in one more, 17 where they are more than 16.
fn deeper(first: u32, second: u32) -> u32
    ensures { result ≡ min 17 (max first second + 1) }
{
    first.max(second).saturating_add(1).min(17)
}

impl Builder for Weigher {
    ghost use Rattle.frame_text.specs.OutlineParts.{condition_known, tree_known, row_known};
    ghost use Rattle.frame_text.specs.Weights.{IsOfFrame, IsOfRow};

    type Cond = Snapshot<Asked>;

    type Frame = Weight;

    type Row = Weight;

    ghost condition = { λ c. condition_known c.value };

    ghost tree = { λ w. tree_known w.outline.value };

    ghost row_trees = { λ w. row_known w.outline.value };

    ghost fits = { λ ds ms w. IsOfFrame ds ms w };

    ghost row_fits = { λ ds ms w. IsOfRow ds ms w };

    ghost cost_is = { λ w cost. cost ≡ w.messages };

    ghost refused = { ⊥ };

    #[tactic(auto, using(crate::proofs::Made::condition_again, crate::proofs::Made::tree_again))]
    fn ask(&self, test: OutcomeTest) -> Self::Cond {
        asked_of(Ask::Test(test))
    }

    fn not(&self, inner: Self::Cond) -> Result<Self::Cond, AllocError> {
        Ok(asked_of(Ask::Not(inner)))
    }

    fn all(&self, first: Self::Cond, second: Self::Cond) -> Result<Self::Cond, AllocError> {
        Ok(asked_of(Ask::All(first, second)))
    }

    fn any(&self, first: Self::Cond, second: Self::Cond) -> Result<Self::Cond, AllocError> {
        Ok(asked_of(Ask::Any(first, second)))
    }

    #[tactic(auto, using(crate::proofs::Made::condition_again, crate::proofs::Made::tree_again))]
    fn send(&self, line: Line, message: Message) -> Weight {
        Weight {
            messages: 1,
            depth: 0,
            outline: outline_of(Part::Send(line, Snapshot::of(&message))),
        }
    }

    #[tactic(auto, using(crate::proofs::Made::condition_again, crate::proofs::Made::tree_again))]
    fn retry(&self, count: u8, line: Line, message: Message) -> Weight {
        Weight {
            messages: u32::from(count) + 1,
            depth: 0,
            outline: outline_of(Part::Retry(count, line, Snapshot::of(&message))),
        }
    }

    #[tactic(auto, using(crate::proofs::Made::condition_again, crate::proofs::Made::tree_again))]
    fn gap(&self, ticks: u16) -> Weight {
        Weight {
            messages: 0,
            depth: 0,
            outline: outline_of(Part::Gap(ticks)),
        }
    }

    fn repeat(&self, count: u16, body: Weight) -> Result<Weight, AllocError> {
        let messages = times_capped(count, body.messages);
        let depth = deeper(body.depth, 0);
        Ok(Weight {
            messages,
            depth,
            outline: outline_of(Part::Repeat(count, body.outline)),
        })
    }

    fn choose(
        &self,
        asked: Self::Cond,
        then: Weight,
        otherwise: Weight,
    ) -> Result<Weight, AllocError> {
        let messages = then.messages.max(otherwise.messages);
        let depth = deeper(then.depth, otherwise.depth);
        Ok(Weight {
            messages,
            depth,
            outline: outline_of(Part::If(asked, then.outline, otherwise.outline)),
        })
    }

    fn until(&self, asked: Self::Cond, count: u16, body: Weight) -> Result<Weight, AllocError> {
        let messages = times_capped(count, body.messages);
        let depth = deeper(body.depth, 0);
        Ok(Weight {
            messages,
            depth,
            outline: outline_of(Part::Until(asked, count, body.outline)),
        })
    }

    fn timed(&self, hundreds: u16, body: Weight) -> Result<Weight, AllocError> {
        let depth = deeper(body.depth, 0);
        Ok(Weight {
            messages: body.messages,
            depth,
            outline: outline_of(Part::Timed(hundreds, body.outline)),
        })
    }

    #[tactic(auto, using(crate::proofs::Made::condition_again, crate::proofs::Made::tree_again))]
    fn call(&self, name: Name, scope: &Scope<'_>, costs: &Scope<'_>) -> Weight {
        Weight {
            messages: costs.number_of(&name).min(1_000_001),
            depth: scope.number_of(&name).min(17),
            outline: outline_of(Part::Call(Snapshot::of(&name))),
        }
    }

    fn define(&self, name: Name, body: Weight, rest: Weight) -> Result<Weight, AllocError> {
        let depth = rest.depth.max(body.depth);
        Ok(Weight {
            messages: rest.messages,
            depth,
            outline: outline_of(Part::Define(Snapshot::of(&name), body.outline, rest.outline)),
        })
    }

    fn no_frames(&self) -> Result<Weight, AllocError> {
        Ok(Weight {
            messages: 0,
            depth: 0,
            outline: outline_of(Part::NoFrames),
        })
    }

    fn more(&self, before: Weight, one: Weight) -> Result<Weight, AllocError> {
        let messages = sum_capped(before.messages, one.messages);
        let depth = before.depth.max(one.depth);
        Ok(Weight {
            messages,
            depth,
            outline: outline_of(Part::More(before.outline, one.outline)),
        })
    }

    #[tactic(auto, using(crate::proofs::Made::condition_again, crate::proofs::Made::tree_again))]
    fn whole(&self, frames: Weight) -> Weight {
        Weight {
            messages: frames.messages,
            depth: frames.depth,
            outline: outline_of(Part::Whole(frames.outline)),
        }
    }

    fn depth(&self, frame: &Weight, _scope: &Scope<'_>) -> u32 {
        frame.depth
    }

    fn messages(&self, frame: &Weight) -> u32 {
        frame.messages
    }
}
