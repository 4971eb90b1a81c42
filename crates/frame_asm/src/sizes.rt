//! How many operations and messages a frame has, so that each place is known before it is written.
ghost use Rattle.frame_asm.specs.Shapes.{branch_size, size, entries};
ghost use Rattle.frame_tree.specs.Tree.{condition_in, tree_of};
ghost use Rattle.std.specs.Prelude.{◌≡◌, min};

use frame_tree::{Cond, Frame};
use std::alloc::Allocator;

/// How many operations a condition has, or 4096 where it has more.
pub fn branch_len<A: Allocator + Clone>(condition: &Cond<A>) -> u16
    ensures { result ≡ min 4096 (branch_size (condition_in condition.now)) }
{
    match condition {
        Cond::Test(_) => 3,
        Cond::Not(c) => branch_len(c),
        Cond::And(a, b) => (branch_len(a) + branch_len(b)).min(4096),
        Cond::Or(a, b) => (branch_len(a) + branch_len(b)).min(4096),
    }
}

/// How many operations a frame has, or 4096 where it has more.
pub fn operation_count<A: Allocator + Clone>(frame: &Frame<A>) -> u16
    ensures { result ≡ min 4096 (size (tree_of frame.now)) }
{
    match frame {
        Frame::Send { .. } | Frame::Gap(_) | Frame::Call(_) => 1,
        Frame::Retry { .. } => 8,
        Frame::Repeat { body, .. } | Frame::Timed { body, .. } => {
            (operation_count(body) + 2).min(4096)
        }
        Frame::If {
            condition,
            then,
            otherwise,
        } => {
            let all = branch_len(condition)
                + operation_count(then)
                + 1
                + operation_count(otherwise);
            all.min(4096)
        }
        Frame::Until {
            condition,
            body,
            ..
        } => {
            let all = branch_len(condition) + operation_count(body) + 3;
            all.min(4096)
        }
        Frame::Seq(frames) => {
            let mut total = 0;
            for frame in frames {
                total = (total + operation_count(frame)).min(4096);
            }
            total
        }
        Frame::Define { body, rest, .. } => {
            let all = operation_count(body) + 1 + operation_count(rest);
            all.min(4096)
        }
    }
}

/// How many messages a frame has, or 1025 where it has more.
pub fn entry_count<A: Allocator + Clone>(frame: &Frame<A>) -> u16
    ensures { result ≡ min 1025 (entries (tree_of frame.now)) }
{
    match frame {
        Frame::Send { .. } | Frame::Retry { .. } => 1,
        Frame::Gap(_) | Frame::Call(_) => 0,
        Frame::Repeat { body, .. } | Frame::Until { body, .. } => entry_count(body),
        Frame::Timed { body, .. } => entry_count(body),
        Frame::If {
            then,
            otherwise,
            ..
        } => (entry_count(then) + entry_count(otherwise)).min(1025),
        Frame::Seq(frames) => {
            let mut total = 0;
            for frame in frames {
                total = (total + entry_count(frame)).min(1025);
            }
            total
        }
        Frame::Define { body, rest, .. } => (entry_count(body) + entry_count(rest)).min(1025),
    }
}
