//! A stack in a fixed array.
ghost use Rattle.std.specs.Prelude.{◌≡◌, ◌<◌, ◌≤◌, [], ◌∷◌, length, MatchOption, IfSome};

use std::marker::Model;

/// At most `N` things, in a fixed array; contracts see the list, the latest first.
#[derive(Drop)]
pub struct Stack<T: Copy + Default, const N: usize> {
    slots: [T; N],
    depth: usize,
}

impl<T: Copy + Default, const N: usize> Model for Stack<T, N> {
    ghost use Rattle.bc_machine.specs.Stacks.{stacked};
    ghost use Rattle.std.specs.Prelude.{List, ◌≤◌};

    ghost Value = { List T };

    ghost view = { λ s. stacked s.slots s.depth };

    ghost invariant = { λ s. s.depth ≤ N };
}

impl<T: Copy + Default, const N: usize> Stack<T, N> {
    /// Nothing.
    pub fn none() -> Stack<T, N>
        ensures { result ≡ [] }
    {
        Stack {
            slots: [T::default(); N],
            depth: 0,
        }
    }

    /// One thing more. Condition: there are fewer than `N`.
    pub fn push(&mut self, one: T)
        requires { length self.old < N }
        ensures { self.new ≡ one ∷ self.old }
    {
        self.slots[self.depth] = one;
        self.depth += 1;
    }

    /// Takes the latest off, if there is one.
    pub fn pop(&mut self) -> Option<T>
        ensures popped { MatchOption result ((self.old ≡ []) × (self.new ≡ [])) (λ n. self.old ≡ n ∷ self.new) }
        ensures room { IfSome result (λ _. length self.new < N) }
    {
        if self.depth == 0 {
            return None;
        }
        self.depth -= 1;
        Some(self.slots[self.depth])
    }

    /// The same.
    pub fn copy(&self) -> Stack<T, N>
        ensures { result ≡ self.now }
    {
        Stack {
            slots: self.slots,
            depth: self.depth,
        }
    }
}
