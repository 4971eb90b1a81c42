//! What the readers make of a text. The same readers make a frame in memory (`boxes`), and what it comes to where
//! memory was refused (`weights`).

ghost use Rattle.frame_tree.specs.Bounds.{worst_messages, depth_in};
ghost use Rattle.frame_tree.specs.Names as names;
ghost use Rattle.frame_tree.specs.Scopes.{scope_of};
ghost use Rattle.frame_tree.specs.Tree as trees;
ghost use Rattle.frame_tree.specs.Tree.{Condition, asked, negated, both, either, Tree, chain};
ghost use Rattle.std.specs.Prelude.{◌≡◌, ℕ, List, [], ◌∷◌, ◌++◌, min, IfOk, OnErr};

use frame_tree::{Name, Scope};
use mil_message::{Message, OutcomeTest};
use mil_word::Line;
use std::alloc::AllocError;

/// Makes what stands for a frame out of its parts.
pub trait Builder {
    /// What stands for a condition.
    type Cond: Drop;

    /// What stands for a frame.
    type Frame: Drop;

    /// What stands for frames one after the other, as far as they are read.
    type Row: Drop;

    ghost condition: { Self.Cond → Condition };

    ghost tree: { Self.Frame → Tree };

    ghost row_trees: { Self.Row → List Tree };

    // What is known of the numbers that are kept, where in a call of each name in scope so many blocks stand in one
    // another, and it sends so many messages.
    ghost fits: { names.Scope ℕ → names.Scope ℕ → Self.Frame → Type 0 };

    ghost row_fits: { names.Scope ℕ → names.Scope ℕ → Self.Row → Type 0 };

    // The number that stands for a frame as the body of a definition: how many messages a call of it sends.
    ghost cost_is: { Self.Frame → ℕ → Type 0 };

    // What is known where memory was refused.
    ghost refused: { Type 0 };

    fn ask(&self, test: OutcomeTest) -> Self::Cond
        ensures { condition result ≡ asked test };

    fn not(&self, inner: Self::Cond) -> Result<Self::Cond, AllocError>
        ensures is { IfOk result (λ c. condition c ≡ negated (condition inner)) }
        ensures memory { OnErr result refused };

    fn all(&self, first: Self::Cond, second: Self::Cond) -> Result<Self::Cond, AllocError>
        ensures is { IfOk result (λ c. condition c ≡ both (condition first) (condition second)) }
        ensures memory { OnErr result refused };

    fn any(&self, first: Self::Cond, second: Self::Cond) -> Result<Self::Cond, AllocError>
        ensures is { IfOk result (λ c. condition c ≡ either (condition first) (condition second)) }
        ensures memory { OnErr result refused };

    fn send(&self, line: Line, message: Message) -> Self::Frame
        ensures tree { tree result ≡ trees.send line message }
        ensures fits { (ds ms : names.Scope ℕ) → fits ds ms result };

    fn retry(&self, count: u8, line: Line, message: Message) -> Self::Frame
        ensures tree { tree result ≡ trees.retry count line message }
        ensures fits { (ds ms : names.Scope ℕ) → fits ds ms result };

    fn gap(&self, ticks: u16) -> Self::Frame
        ensures tree { tree result ≡ trees.gap ticks }
        ensures fits { (ds ms : names.Scope ℕ) → fits ds ms result };

    fn repeat(&self, count: u16, body: Self::Frame) -> Result<Self::Frame, AllocError>
        ensures tree { IfOk result (λ f. tree f ≡ trees.repeat count (tree body)) }
        ensures fits { IfOk result (λ f. (ds ms : names.Scope ℕ) → fits ds ms body → fits ds ms f) }
        ensures memory { OnErr result refused };

    fn choose(
        &self,
        asked: Self::Cond,
        then: Self::Frame,
        otherwise: Self::Frame,
    ) -> Result<Self::Frame, AllocError>
        ensures tree { IfOk result (λ f. tree f ≡ trees.choose (condition asked) (tree then) (tree otherwise)) }
        ensures fits { IfOk result (λ f. (ds ms : names.Scope ℕ) → fits ds ms then → fits ds ms otherwise
            → fits ds ms f) }
        ensures memory { OnErr result refused };

    fn until(
        &self,
        asked: Self::Cond,
        count: u16,
        body: Self::Frame,
    ) -> Result<Self::Frame, AllocError>
        ensures tree { IfOk result (λ f. tree f ≡ trees.until (condition asked) count (tree body)) }
        ensures fits { IfOk result (λ f. (ds ms : names.Scope ℕ) → fits ds ms body → fits ds ms f) }
        ensures memory { OnErr result refused };

    fn timed(&self, hundreds: u16, body: Self::Frame) -> Result<Self::Frame, AllocError>
        ensures tree { IfOk result (λ f. tree f ≡ trees.timed hundreds (tree body)) }
        ensures fits { IfOk result (λ f. (ds ms : names.Scope ℕ) → fits ds ms body → fits ds ms f) }
        ensures memory { OnErr result refused };

    /// A call of a name that is in scope.
    fn call(&self, name: Name, scope: &Scope<'_>, costs: &Scope<'_>) -> Self::Frame
        ensures tree { tree result ≡ trees.call name }
        ensures fits { fits (scope_of scope.now) (scope_of costs.now) result };

    /// A definition, and what stands behind it.
    fn define(
        &self,
        name: Name,
        body: Self::Frame,
        rest: Self::Frame,
    ) -> Result<Self::Frame, AllocError>
        ensures tree { IfOk result (λ f. tree f ≡ trees.define name (tree body) (tree rest)) }
        ensures fits { IfOk result (λ f. (ds ms : names.Scope ℕ) (depth cost : ℕ) → fits ds ms body
            → depth ≡ min 17 (depth_in ds (tree body)) → cost_is body cost
            → fits ((name, depth) ∷ ds) ((name, cost) ∷ ms) rest → fits ds ms f) }
        ensures memory { OnErr result refused };

    /// No frames yet.
    fn no_frames(&self) -> Result<Self::Row, AllocError>
        ensures row { IfOk result (λ r. row_trees r ≡ []) }
        ensures fits { IfOk result (λ r. (ds ms : names.Scope ℕ) → row_fits ds ms r) }
        ensures memory { OnErr result refused };

    /// One frame more.
    fn more(&self, before: Self::Row, one: Self::Frame) -> Result<Self::Row, AllocError>
        ensures row { IfOk result (λ r. row_trees r ≡ row_trees before ++ tree one ∷ []) }
        ensures fits { IfOk result (λ r. (ds ms : names.Scope ℕ) → row_fits ds ms before → fits ds ms one
            → row_fits ds ms r) }
        ensures memory { OnErr result refused };

    /// Frames one after the other, as one frame.
    fn whole(&self, frames: Self::Row) -> Self::Frame
        ensures tree { tree result ≡ chain (row_trees frames) }
        ensures fits { (ds ms : names.Scope ℕ) → row_fits ds ms frames → fits ds ms result };

    /// How many blocks stand in one another, 17 where they are more than 16.
    fn depth(&self, frame: &Self::Frame, scope: &Scope<'_>) -> u32
        ensures { (ms : names.Scope ℕ) → fits (scope_of scope.now) ms frame.now
            → result ≡ min 17 (depth_in (scope_of scope.now) (tree frame.now)) };

    /// How many messages are sent at most, 1,000,001 where they are more than 1,000,000.
    fn messages(&self, frame: &Self::Frame) -> u32
        ensures cost { cost_is frame.now result }
        ensures whole { fits [] [] frame.now → result ≡ min 1000001 (worst_messages (tree frame.now)) };
}
