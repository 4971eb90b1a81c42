//! How large a frame is, and whether it may be assembled. What a definition's body comes to is counted once, and its
//! calls take that number: no expansion is ever built.

ghost use Rattle.frame_tree.specs.Bounds.{IsDefined, IsSound};
ghost use Rattle.frame_tree.specs.Bounds.{depth, depth_in, worst_messages, messages_in, IsInRange, CallsKnown};
ghost use Rattle.frame_tree.specs.Expansion.{expansion};
ghost use Rattle.frame_tree.specs.Scopes.{scope_of};
ghost use Rattle.frame_tree.specs.Tree.{Tree, tree_of};
ghost use Rattle.std.specs.Prelude.{◌≡◌, ℕ, ◌≤◌, ◌*◌, ◌↔◌, IsTrue, min, length, []};

use crate::{Frame, Scope};
use mil_word::timing::LEAST_GAP;
use std::alloc::Allocator;

impl<A: Allocator + Clone> Frame<A> {
    /// How many messages it sends at most, 1,000,001 where it is more than 1,000,000: every retry is used up, an
    /// `until` runs all its turns, an `if` takes the branch with more, and a call sends what the body of its definition
    /// does.
    pub fn worst_messages(&self) -> u32
        ensures { result ≡ min 1000001 (worst_messages (tree_of self.now)) }
    {
        self.messages_in(&Scope::Empty)
    }

    // The same where a call of each name in scope sends so many messages.
    fn messages_in<'a>(&'a self, scope: &'a Scope<'a>) -> u32
        ensures { result ≡ min 1000001 (messages_in (scope_of scope.now) (tree_of self.now)) }
    {
        match self {
            Frame::Send { .. } => 1,
            Frame::Retry { count, .. } => u32::from(*count) + 1,
            Frame::Gap(_) => 0,
            Frame::Repeat { count, body } => times_capped(*count, body.messages_in(scope)),
            Frame::Until { count, body, .. } => times_capped(*count, body.messages_in(scope)),
            Frame::Timed { body, .. } => body.messages_in(scope),
            Frame::If {
                then,
                otherwise,
                ..
            } => then.messages_in(scope).max(otherwise.messages_in(scope)),
            Frame::Seq(frames) => {
                let mut total = 0;
                for frame in frames {
                    total = (total + frame.messages_in(scope)).min(1_000_001);
                }
                total
            }
            Frame::Call(name) => scope.number_of(name).min(1_000_001),
            Frame::Define { name, body, rest } => {
                rest.messages_in(&Scope::With(name, body.messages_in(scope), scope))
            }
        }
    }

    /// How many repeats, ifs, untils and frames with a period stand in one another, those in the bodies of its calls
    /// with them, 17 where it is more than 16; the body of a definition counts, called or not.
    pub fn depth(&self) -> u32
        ensures { result ≡ min 17 (depth (tree_of self.now)) }
    {
        self.depth_in(&Scope::Empty)
    }

    /// The same where in a call of each name in scope so many do as its number says, 17 where they are more than 16.
    pub fn depth_in<'a>(&'a self, scope: &'a Scope<'a>) -> u32
        ensures { result ≡ min 17 (depth_in (scope_of scope.now) (tree_of self.now)) }
    {
        match self {
            Frame::Send { .. } | Frame::Retry { .. } | Frame::Gap(_) => 0,
            Frame::Repeat { body, .. } => (body.depth_in(scope) + 1).min(17),
            Frame::Until { body, .. } => (body.depth_in(scope) + 1).min(17),
            Frame::Timed { body, .. } => (body.depth_in(scope) + 1).min(17),
            Frame::If {
                then,
                otherwise,
                ..
            } => (then.depth_in(scope).max(otherwise.depth_in(scope)) + 1).min(17),
            Frame::Seq(frames) => {
                let mut deepest = 0;
                for frame in frames {
                    deepest = frame.depth_in(scope).max(deepest);
                }
                deepest
            }
            Frame::Call(name) => scope.number_of(name).min(17),
            Frame::Define { name, body, rest } => {
                let inside = body.depth_in(scope);
                rest.depth_in(&Scope::With(name, inside, scope)).max(inside)
            }
        }
    }

    /// Whether it may be assembled: depth at most 16, at most 16 operators above any test of a condition, every number
    /// in its range, at most 1,000,000 messages at worst, and definitions at the outside alone, at most 32, with
    /// distinct names, each call naming an earlier one.
    pub fn sound(&self) -> bool
        ensures { IsTrue result ↔ IsSound (tree_of self.now) }
    {
        self.depth() <= 16
            && self.is_in_range()
            && self.worst_messages() <= 1_000_000
            && self.is_defined(0, &Scope::Empty)
    }

    // Whether every number is in its range, and every condition one that a script may have.
    fn is_in_range(&self) -> bool
        ensures { IsTrue result ↔ IsInRange (tree_of self.now) }
    {
        match self {
            Frame::Send { .. } => true,
            Frame::Retry { count, .. } => 1 <= *count && *count <= 8,
            Frame::Gap(ticks) => LEAST_GAP <= *ticks,
            Frame::Repeat { count, body } => 1 <= *count && *count <= 10_000 && body.is_in_range(),
            Frame::If {
                condition,
                then,
                otherwise,
            } => { condition.operators() <= 16 && then.is_in_range() && otherwise.is_in_range() }
            Frame::Until {
                condition,
                count,
                body,
            } => {
                condition.operators() <= 16 && 1 <= *count && *count <= 10_000 && body.is_in_range()
            }
            Frame::Timed { hundreds, body } => 1 <= *hundreds && body.is_in_range(),
            Frame::Seq(frames) => {
                for frame in frames {
                    if !frame.is_in_range() {
                        return false;
                    }
                }
                true
            }
            Frame::Call(_) => true,
            Frame::Define { body, rest, .. } => body.is_in_range() && rest.is_in_range(),
        }
    }

    // Whether no definition is in it, and each call names a definition in scope.
    fn calls_known<'a>(&'a self, scope: &'a Scope<'a>) -> bool
        ensures { IsTrue result ↔ CallsKnown (scope_of scope.now) (tree_of self.now) }
    {
        match self {
            Frame::Send { .. } | Frame::Retry { .. } | Frame::Gap(_) => true,
            Frame::Repeat { body, .. } | Frame::Until { body, .. } => body.calls_known(scope),
            Frame::Timed { body, .. } => body.calls_known(scope),
            Frame::If {
                then,
                otherwise,
                ..
            } => then.calls_known(scope) && otherwise.calls_known(scope),
            Frame::Seq(frames) => {
                for frame in frames {
                    if !frame.calls_known(scope) {
                        return false;
                    }
                }
                true
            }
            Frame::Call(name) => scope.has(name),
            Frame::Define { .. } => false,
        }
    }

    // Whether its definitions stand as they should, where so many are in scope.
    fn is_defined<'a>(&'a self, count: u32, scope: &'a Scope<'a>) -> bool
        requires { length (scope_of scope.now) ≡ count }
        ensures { IsTrue result ↔ IsDefined (scope_of scope.now) (tree_of self.now) }
    {
        match self {
            Frame::Define { name, body, rest } => {
                count < 32
                    && !scope.has(name)
                    && body.calls_known(scope)
                    && rest.is_defined(count + 1, &Scope::With(name, count, scope))
            }
            Frame::Send { .. } | Frame::Retry { .. } | Frame::Gap(_) => true,
            Frame::Repeat { .. } | Frame::Until { .. } | Frame::If { .. } => self.calls_known(
                scope,
            ),
            Frame::Timed { .. } => self.calls_known(scope),
            Frame::Seq(_) => self.calls_known(scope),
            Frame::Call(name) => scope.has(name),
        }
    }
}

/// Law: the expansion of a tree has neither a definition nor a call, sends as many messages as the tree at worst, and
/// is no deeper.
pub fn expansion_keeps()
    ensures plain { (t : Tree) → CallsKnown {X = ℕ} [] (expansion t) }
    ensures messages { (t : Tree) → worst_messages (expansion t) ≡ worst_messages t }
    ensures depth { (t : Tree) → depth (expansion t) ≤ depth t }
{}

// A product, 1,000,001 where it is more than that.
fn times_capped(count: u16, messages: u32) -> u32
    ensures { result ≡ min 1000001 (count * messages) }
{
    u32::from(count).saturating_mul(messages).min(1_000_001)
}
