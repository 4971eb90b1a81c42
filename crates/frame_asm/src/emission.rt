//! Writing the operations and messages of a frame behind those that are there.
ghost use Rattle.frame_asm.specs.Shapes.{branch_size, probe, branch, size, entries, tree_messages, retry_shape};
ghost use Rattle.frame_asm.specs.Shapes.{until_front, with_shape, AreRoutines};
ghost use Rattle.frame_code.specs.declared.Op.TheVariants as op;
ghost use Rattle.frame_tree.specs.Bounds.{CallsKnown, IsDefined};
ghost use Rattle.frame_tree.specs.Names.{meant_by};
ghost use Rattle.frame_tree.specs.Scopes.{scope_of};
ghost use Rattle.frame_tree.specs.Tree.{condition_in, tree_of, choose, until, chain};
ghost use Rattle.std.specs.Prelude.{◌≡◌, ◌+◌, ◌<◌, ◌≤◌, [], ◌∷◌, ◌++◌, length, map, IfOk, OnOk};

use crate::sizes::{branch_len, operation_count};
use frame_code::Op;
use frame_tree::{Cond, Frame, Name, Scope};
use mil_message::{Message, OutcomeTest};
use mil_word::Line;
use std::alloc::{AllocError, Allocator};

/// One more operation.
pub fn put(operations: &mut Vec<Op>, op: Op) -> Result<(), AllocError>
    ensures { OnOk result (operations.new.items ≡ operations.old.items ++ op ∷ []) }
{
    operations.push(op)?;
    Ok(())
}

// One more message: its index.
fn enter(
    messages: &mut Vec<(Line, Message)>,
    line: Line,
    message: Message,
) -> Result<u16, AllocError>
    requires { length messages.old.items < 1024 }
    ensures index { IfOk result (λ i. i ≡ length messages.old.items) }
    ensures messages { OnOk result (messages.new.items ≡ messages.old.items ++ (line, message) ∷ []) }
{
    let index = messages.len() as u16;
    messages.push((line, message))?;
    Ok(index)
}

fn emit_test(
    operations: &mut Vec<Op>,
    test: OutcomeTest,
    yes: u16,
    no: u16,
) -> Result<(), AllocError>
    ensures { OnOk result (operations.new.items ≡ operations.old.items ++ probe test yes no) }
{
    put(operations, Op::Test(test))?;
    put(operations, Op::JumpFalse(no))?;
    put(operations, Op::Jump(yes))
}

// The operations of a condition: to `yes` where it holds, to `no` where it does not.
#[tactic(auto, using(crate::proofs::Branches::length_after))]
fn emit_branch<A: Allocator + Clone>(
    operations: &mut Vec<Op>,
    condition: &Cond<A>,
    yes: u16,
    no: u16,
) -> Result<(), AllocError>
    requires { length operations.old.items + branch_size (condition_in condition.now) ≤ 4096 }
    ensures { OnOk result (operations.new.items
        ≡ operations.old.items ++ branch (length operations.old.items) (condition_in condition.now) yes no) }
{
    match condition {
        Cond::Test(test) => emit_test(operations, *test, yes, no),
        Cond::Not(c) => emit_branch(operations, c, no, yes),
        Cond::And(a, b) => {
            let middle = operations.len() as u16 + branch_len(a);
            emit_branch(operations, a, middle, no)?;
            emit_branch(operations, b, yes, no)
        }
        Cond::Or(a, b) => {
            let middle = operations.len() as u16 + branch_len(a);
            emit_branch(operations, a, yes, middle)?;
            emit_branch(operations, b, yes, no)
        }
    }
}

// A message, and the operation that sends it.
fn emit_send(
    operations: &mut Vec<Op>,
    messages: &mut Vec<(Line, Message)>,
    line: Line,
    message: &Message,
) -> Result<(), AllocError>
    requires { length messages.old.items < 1024 }
    ensures operations { OnOk result
        (operations.new.items ≡ operations.old.items ++ op.Send (length messages.old.items) ∷ []) }
    ensures messages { OnOk result (messages.new.items ≡ messages.old.items ++ (line, message.now) ∷ []) }
{
    let index = enter(messages, line, message.copy())?;
    put(operations, Op::Send(index))
}

// The operations of a retry that sends this message.
fn emit_attempts(operations: &mut Vec<Op>, message: u16, count: u16) -> Result<(), AllocError>
    requires { length operations.old.items + 8 ≤ 4096 }
    ensures { OnOk result (operations.new.items
        ≡ operations.old.items ++ retry_shape (length operations.old.items) message count) }
{
    let place = operations.len() as u16;
    put(operations, Op::Send(message))?;
    put(operations, Op::Loop(count))?;
    put(operations, Op::Test(OutcomeTest::Failed))?;
    put(operations, Op::JumpFalse(place + 6))?;
    put(operations, Op::Alt(message))?;
    put(operations, Op::Jump(place + 7))?;
    put(operations, Op::Leave(place + 8))?;
    put(operations, Op::Again(place + 2))
}

// A message, and the operations of a retry that sends it.
fn emit_retry(
    operations: &mut Vec<Op>,
    messages: &mut Vec<(Line, Message)>,
    count: u8,
    line: Line,
    message: &Message,
) -> Result<(), AllocError>
    requires room { length operations.old.items + 8 ≤ 4096 }
    requires table { length messages.old.items < 1024 }
    ensures operations { OnOk result
        (operations.new.items ≡ operations.old.items
        ++ retry_shape (length operations.old.items) (length messages.old.items) count) }
    ensures messages { OnOk result (messages.new.items ≡ messages.old.items ++ (line, message.now) ∷ []) }
{
    let index = enter(messages, line, message.copy())?;
    emit_attempts(operations, index, count as u16)
}

// What stands in front of the first part of an if: answers the place behind the second.
fn open_if<A: Allocator + Clone>(
    operations: &mut Vec<Op>,
    condition: &Cond<A>,
    then: &Frame<A>,
    otherwise: &Frame<A>,
) -> Result<u16, AllocError>
    requires { length operations.old.items
        + size (choose (condition_in condition.now) (tree_of then.now) (tree_of otherwise.now)) ≤ 4095 }
    ensures operations { let first = length operations.old.items + branch_size (condition_in condition.now) in
        OnOk result (operations.new.items
        ≡ operations.old.items
        ++ branch (length operations.old.items) (condition_in condition.now) first
        (first + size (tree_of then.now) + 1)) }
    ensures end { IfOk result (λ end. end
        ≡ length operations.old.items + branch_size (condition_in condition.now) + size (tree_of then.now) + 1
        + size (tree_of otherwise.now)) }
{
    let then_at = operations.len() as u16 + branch_len(condition);
    let else_at = then_at + operation_count(then) + 1;
    let end = else_at + operation_count(otherwise);
    emit_branch(operations, condition, then_at, else_at)?;
    Ok(end)
}

// What stands in front of the body of an until: answers the place that each further turn begins at.
fn open_until<A: Allocator + Clone>(
    operations: &mut Vec<Op>,
    condition: &Cond<A>,
    count: u16,
    body: &Frame<A>,
) -> Result<u16, AllocError>
    requires { length operations.old.items + size (until (condition_in condition.now) count (tree_of body.now)) ≤ 4095 }
    ensures operations { OnOk result
        (operations.new.items ≡ operations.old.items
        ++ until_front (length operations.old.items) (condition_in condition.now) count (size (tree_of body.now))) }
    ensures turn { IfOk result (λ turn. turn ≡ length operations.old.items + 1) }
{
    let test_at = operations.len() as u16 + 1;
    let leave = test_at + branch_len(condition);
    let end = leave + operation_count(body) + 2;
    put(operations, Op::Loop(count))?;
    emit_branch(operations, condition, leave, leave + 1)?;
    put(operations, Op::Leave(end))?;
    Ok(test_at)
}

/// The operations and messages of a frame without definitions.
#[cycle(frames)]
pub fn emit<A: Allocator + Clone>(
    operations: &mut Vec<Op>,
    messages: &mut Vec<(Line, Message)>,
    scope: &Scope<'_>,
    frame: &Frame<A>,
) -> Result<(), AllocError>
    requires room { length operations.old.items + size (tree_of frame.now) ≤ 4095 }
    requires table { length messages.old.items + entries (tree_of frame.now) ≤ 1024 }
    requires calls { CallsKnown (scope_of scope.now) (tree_of frame.now) }
    requires routines { AreRoutines (scope_of scope.now) }
    ensures operations { OnOk result (operations.new.items
        ≡ with_shape (scope_of scope.now) operations.old.items (length messages.old.items) (tree_of frame.now)) }
    ensures messages { OnOk result (messages.new.items ≡ messages.old.items ++ tree_messages (tree_of frame.now)) }
{
    match frame {
        Frame::Send { line, message } => emit_send(operations, messages, *line, message),
        Frame::Retry {
            count,
            line,
            message,
        } => emit_retry(operations, messages, *count, *line, message),
        Frame::Gap(ticks) => put(operations, Op::SetGap(*ticks)),
        Frame::Repeat { count, body } => {
            let first = operations.len() as u16 + 1;
            put(operations, Op::Loop(*count))?;
            emit(operations, messages, scope, body)?;
            put(operations, Op::Again(first))
        }
        Frame::If {
            condition,
            then,
            otherwise,
        } => {
            let end = open_if(operations, condition, then, otherwise)?;
            emit(operations, messages, scope, then)?;
            put(operations, Op::Jump(end))?;
            emit(operations, messages, scope, otherwise)
        }
        Frame::Until {
            condition,
            count,
            body,
        } => {
            let turn = open_until(operations, condition, *count, body)?;
            emit(operations, messages, scope, body)?;
            put(operations, Op::Again(turn))
        }
        Frame::Timed { hundreds, body } => {
            put(operations, Op::Begin)?;
            emit(operations, messages, scope, body)?;
            put(operations, Op::Pace(*hundreds))
        }
        Frame::Seq(frames) => emit_sequence(operations, messages, scope, frames),
        Frame::Call(name) => put(operations, Op::Call(routine_of(scope, name))),
        Frame::Define { .. } => Ok(()),
    }
}

// The operations and messages of these frames, in their order.
#[cycle(frames)]
fn emit_sequence<A: Allocator + Clone>(
    operations: &mut Vec<Op>,
    messages: &mut Vec<(Line, Message)>,
    scope: &Scope<'_>,
    frames: &Vec<Frame<A>, A>,
) -> Result<(), AllocError>
    requires room { length operations.old.items + size (chain (map tree_of frames.now.items)) ≤ 4095 }
    requires table { length messages.old.items + entries (chain (map tree_of frames.now.items)) ≤ 1024 }
    requires calls { CallsKnown (scope_of scope.now) (chain (map tree_of frames.now.items)) }
    requires routines { AreRoutines (scope_of scope.now) }
    ensures operations { OnOk result (operations.new.items
        ≡ with_shape (scope_of scope.now) operations.old.items (length messages.old.items)
        (chain (map tree_of frames.now.items))) }
    ensures messages { OnOk result
        (messages.new.items ≡ messages.old.items ++ tree_messages (chain (map tree_of frames.now.items))) }
{
    for frame in frames {
        emit(operations, messages, scope, frame)?;
    }
    Ok(())
}

// The number of the routine of a name.
fn routine_of(scope: &Scope<'_>, name: &Name) -> u8
    requires { AreRoutines (scope_of scope.now) }
    ensures { result ≡ meant_by 0 (scope_of scope.now) name.now }
{
    scope.number_of(name) as u8
}

// These names and one more, whose routine has this number.
fn with_routine<'a>(name: &'a Name, number: u32, others: &'a Scope<'a>) -> Scope<'a>
    ensures { scope_of result ≡ (name.now, number) ∷ scope_of others.now }
{
    Scope::With(name, number, others)
}

/// The operations and messages of a frame whose definitions stand at the outside; so many are in scope.
pub fn emit_all<'a, A: Allocator + Clone>(
    operations: &mut Vec<Op>,
    messages: &mut Vec<(Line, Message)>,
    count: u32,
    scope: &'a Scope<'a>,
    frame: &'a Frame<A>,
) -> Result<(), AllocError>
    requires room { length operations.old.items + size (tree_of frame.now) ≤ 4095 }
    requires table { length messages.old.items + entries (tree_of frame.now) ≤ 1024 }
    requires defined { IsDefined (scope_of scope.now) (tree_of frame.now) }
    requires count { length (scope_of scope.now) ≡ count }
    requires routines { AreRoutines (scope_of scope.now) }
    ensures operations { OnOk result (operations.new.items
        ≡ with_shape (scope_of scope.now) operations.old.items (length messages.old.items) (tree_of frame.now)) }
    ensures messages { OnOk result (messages.new.items ≡ messages.old.items ++ tree_messages (tree_of frame.now)) }
{
    match frame {
        Frame::Define { name, body, rest } => {
            emit(operations, messages, scope, body)?;
            put(operations, Op::Return)?;
            let inner = with_routine(name, count, scope);
            emit_all(operations, messages, count + 1, &inner, rest)
        }
        Frame::Send { .. } | Frame::Retry { .. } | Frame::Gap(_) | Frame::Call(_) => {
            emit(operations, messages, scope, frame)
        }
        Frame::Repeat { .. } | Frame::Until { .. } | Frame::If { .. } | Frame::Timed { .. } => {
            emit(operations, messages, scope, frame)
        }
        Frame::Seq(_) => emit(operations, messages, scope, frame),
    }
}
