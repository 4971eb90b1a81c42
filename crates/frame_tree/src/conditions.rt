//! Conditions.

ghost use Rattle.frame_tree.specs.Bounds.{operators};
ghost use Rattle.frame_tree.specs.Tree.{condition_in};
ghost use Rattle.std.specs.Prelude.{◌≡◌, IfOk, min};

use crate::Cond;
use std::alloc::{AllocError, Allocator};

impl<A: Allocator + Clone> Cond<A> {
    /// The same condition under another allocator.
    pub fn copy_in<B: Allocator + Clone>(&self, alloc: &B) -> Result<Cond<B>, AllocError>
        ensures { IfOk result (λ c. condition_in c ≡ condition_in self.now) }
    {
        match self {
            Cond::Test(test) => Ok(Cond::Test(*test)),
            Cond::Not(c) => {
                let c = c.copy_in(alloc)?;
                Ok(Cond::Not(Box::new(alloc.clone()?, c)?))
            }
            Cond::And(a, b) => {
                let a = a.copy_in(alloc)?;
                let b = b.copy_in(alloc)?;
                let a = Box::new(alloc.clone()?, a)?;
                Ok(Cond::And(a, Box::new(alloc.clone()?, b)?))
            }
            Cond::Or(a, b) => {
                let a = a.copy_in(alloc)?;
                let b = b.copy_in(alloc)?;
                let a = Box::new(alloc.clone()?, a)?;
                Ok(Cond::Or(a, Box::new(alloc.clone()?, b)?))
            }
        }
    }

    /// How many operators stand above a test at most, 17 where it is more than 16.
    pub fn operators(&self) -> u32
        ensures { result ≡ min 17 (operators (condition_in self.now)) }
    {
        match self {
            Cond::Test(_) => 0,
            Cond::Not(c) => (c.operators() + 1).min(17),
            Cond::And(a, b) | Cond::Or(a, b) => (a.operators().max(b.operators()) + 1).min(17),
        }
    }
}
