//! Frames as text, one a line.

ghost use Rattle.frame_text.specs.PrintedConditions.{condition_text};
ghost use Rattle.frame_text.specs.PrintedMessages.{send_text};
ghost use Rattle.frame_text.specs.Printing as texts;
ghost use Rattle.frame_tree.specs.Names.{are_word_bytes};
ghost use Rattle.frame_tree.specs.Tree.{condition_in, tree_of, send, retry, gap, repeat, until, timed, call};
ghost use Rattle.std.specs.Prelude.{◌≡◌, true, ◌+◌, ◌++◌, OnOk, string_bytes, codes, decimal};

use crate::printed_conditions::put_condition;
use crate::printed_messages::put_send;
use frame_tree::{Cond, Frame, Name};
use mil_message::Message;
use mil_word::Line;
use std::alloc::{AllocError, Allocator};
use std::fmt::Write;

// Whether a frame has no frame but empty sequences.
fn is_empty<A: Allocator + Clone>(frame: &Frame<A>) -> bool
    ensures { result ≡ texts.is_empty (tree_of frame.now) }
{
    match frame {
        Frame::Seq(frames) => {
            for one in frames {
                if !is_empty(one) {
                    return false;
                }
            }
            true
        }
        _ => false,
    }
}

// Two spaces for each open block.
fn put_indent(out: &mut String, depth: usize) -> Result<(), AllocError>
    ensures { OnOk result (string_bytes out.new ≡ string_bytes out.old ++ texts.indent depth) }
{
    for _ in 0..depth {
        out.push_str("  ")?;
    }
    Ok(())
}

// A line and a message, with the end of their line.
fn put_message(out: &mut String, line: Line, message: &Message) -> Result<(), AllocError>
    ensures { OnOk result (string_bytes out.new ≡ string_bytes out.old ++ (send_text line message.now ++ codes "\n")) }
{
    put_send(out, line, message)?;
    out.push_str("\n")
}

// A message that is sent once, on its line.
#[tactic(auto, unfolding(crate::specs::Printing::lines))]
fn put_send_line(
    out: &mut String,
    line: Line,
    message: &Message,
    depth: usize,
) -> Result<(), AllocError>
    ensures { OnOk result (string_bytes out.new ≡ string_bytes out.old ++ texts.lines depth (send line message.now)) }
{
    put_indent(out, depth)?;
    put_message(out, line, message)
}

// A message that is sent again, on its line.
#[tactic(auto, unfolding(crate::specs::Printing::lines))]
fn put_retry(
    out: &mut String,
    count: u8,
    line: Line,
    message: &Message,
    depth: usize,
) -> Result<(), AllocError>
    ensures { OnOk result (string_bytes out.new
        ≡ string_bytes out.old ++ texts.lines depth (retry count line message.now)) }
{
    put_indent(out, depth)?;
    write!(out, "retry {count} ")?;
    put_message(out, line, message)
}

// A gap, on its line.
#[tactic(auto, unfolding(crate::specs::Printing::lines))]
fn put_gap(out: &mut String, ticks: u16, depth: usize) -> Result<(), AllocError>
    ensures { OnOk result (string_bytes out.new ≡ string_bytes out.old ++ texts.lines depth (gap ticks)) }
{
    put_indent(out, depth)?;
    write!(out, "gap {ticks}\n")
}

// A run of letters, digits and _.
#[tactic(auto, using(crate::proofs::Naming::rest_is_word))]
fn put_word(out: &mut String, word: &[u8]) -> Result<(), AllocError>
    requires { are_word_bytes word.now ≡ true }
    ensures { OnOk result (string_bytes out.new ≡ string_bytes out.old ++ word.now) }
{
    match word.split_first() {
        None => Ok(()),
        Some((byte, rest)) => {
            out.push(*byte as char)?;
            put_word(out, rest)
        }
    }
}

fn put_name(out: &mut String, name: &Name) -> Result<(), AllocError>
    ensures { OnOk result (string_bytes out.new ≡ string_bytes out.old ++ name.now) }
{
    put_word(out, name.bytes())
}

// A call, on its line.
#[tactic(auto, unfolding(crate::specs::Printing::lines))]
fn put_call(out: &mut String, name: &Name, depth: usize) -> Result<(), AllocError>
    ensures { OnOk result (string_bytes out.new ≡ string_bytes out.old ++ texts.lines depth (call name.now)) }
{
    put_indent(out, depth)?;
    out.push_str("call ")?;
    put_name(out, name)?;
    out.push_str("\n")
}

// What stands in front of the block of a definition.
fn put_define(out: &mut String, name: &Name) -> Result<(), AllocError>
    ensures { OnOk result (string_bytes out.new
        ≡ string_bytes out.old ++ (codes "define " ++ (name.now ++ codes " "))) }
{
    out.push_str("define ")?;
    put_name(out, name)?;
    out.push_str(" ")
}

// What stands in front of the first block of an if, with its indent.
fn put_if_condition<A: Allocator + Clone>(
    out: &mut String,
    condition: &Cond<A>,
    depth: usize,
) -> Result<(), AllocError>
    ensures { OnOk result (string_bytes out.new
        ≡ string_bytes out.old
        ++ (texts.indent depth ++ (codes "if " ++ (condition_text (condition_in condition.now) ++ codes " ")))) }
{
    put_indent(out, depth)?;
    out.push_str("if ")?;
    put_condition(out, condition)?;
    out.push_str(" ")
}

// What stands in front of the block of an until.
fn put_until_condition<A: Allocator + Clone>(
    out: &mut String,
    condition: &Cond<A>,
    count: u16,
) -> Result<(), AllocError>
    ensures { OnOk result (string_bytes out.new
        ≡ string_bytes out.old
        ++ (codes "until " ++ (condition_text (condition_in condition.now) ++ (codes " at most "
        ++ (decimal count ++ codes " "))))) }
{
    out.push_str("until ")?;
    put_condition(out, condition)?;
    write!(out, " at most {count} ")
}

// A block of frames, behind what opens it on its line.
#[cycle(lines)]
fn put_block<A: Allocator + Clone>(
    out: &mut String,
    body: &Frame<A>,
    depth: usize,
) -> Result<(), AllocError>
    ensures { OnOk result (string_bytes out.new
        ≡ string_bytes out.old ++ texts.block_text depth (texts.lines (depth + 1) (tree_of body.now))) }
{
    // no memory holds a tree of so many levels
    let inner = depth.checked_add(1).ok_or(AllocError)?;
    out.push_str("{\n")?;
    put_lines(out, body, inner)?;
    put_indent(out, depth)?;
    out.push_str("}")
}

// A repeat, on its lines.
#[cycle(lines)]
#[tactic(auto, unfolding(crate::specs::Printing::lines))]
fn put_repeat<A: Allocator + Clone>(
    out: &mut String,
    body: &Frame<A>,
    count: u16,
    depth: usize,
) -> Result<(), AllocError>
    ensures { OnOk result (string_bytes out.new
        ≡ string_bytes out.old ++ texts.lines depth (repeat count (tree_of body.now))) }
{
    put_indent(out, depth)?;
    write!(out, "repeat {count} ")?;
    put_block(out, body, depth)?;
    out.push_str("\n")
}

// An until, on its lines.
#[cycle(lines)]
#[tactic(auto, unfolding(crate::specs::Printing::lines))]
fn put_until<A: Allocator + Clone>(
    out: &mut String,
    body: &Frame<A>,
    condition: &Cond<A>,
    count: u16,
    depth: usize,
) -> Result<(), AllocError>
    ensures { OnOk result (string_bytes out.new
        ≡ string_bytes out.old ++ texts.lines depth (until (condition_in condition.now) count (tree_of body.now))) }
{
    put_indent(out, depth)?;
    put_until_condition(out, condition, count)?;
    put_block(out, body, depth)?;
    out.push_str("\n")
}

// A frame with a period, on its lines.
#[cycle(lines)]
#[tactic(auto, unfolding(crate::specs::Printing::lines))]
fn put_timed<A: Allocator + Clone>(
    out: &mut String,
    body: &Frame<A>,
    hundreds: u16,
    depth: usize,
) -> Result<(), AllocError>
    ensures { OnOk result (string_bytes out.new
        ≡ string_bytes out.old ++ texts.lines depth (timed hundreds (tree_of body.now))) }
{
    let period = u32::from(hundreds) * 100;
    put_indent(out, depth)?;
    write!(out, "frame {period} ")?;
    put_block(out, body, depth)?;
    out.push_str("\n")
}

/// The lines of a frame inside so many blocks.
#[cycle(lines)]
#[tactic(auto, unfolding(crate::specs::Printing::lines))]
pub fn put_lines<A: Allocator + Clone>(
    out: &mut String,
    frame: &Frame<A>,
    depth: usize,
) -> Result<(), AllocError>
    ensures { OnOk result (string_bytes out.new ≡ string_bytes out.old ++ texts.lines depth (tree_of frame.now)) }
{
    match frame {
        Frame::Send { line, message } => put_send_line(out, *line, message, depth),
        Frame::Retry {
            count,
            line,
            message,
        } => put_retry(out, *count, *line, message, depth),
        Frame::Gap(ticks) => put_gap(out, *ticks, depth),
        Frame::Repeat { count, body } => put_repeat(out, body, *count, depth),
        Frame::If {
            condition,
            then,
            otherwise,
        } => {
            put_if_condition(out, condition, depth)?;
            put_block(out, then, depth)?;
            put_else(out, otherwise, depth)?;
            Ok(())
        }
        Frame::Until {
            condition,
            count,
            body,
        } => put_until(out, body, condition, *count, depth),
        Frame::Timed { hundreds, body } => put_timed(out, body, *hundreds, depth),
        Frame::Seq(frames) => {
            for one in frames {
                put_lines(out, one, depth)?;
            }
            Ok(())
        }
        Frame::Call(name) => put_call(out, name, depth),
        Frame::Define { name, body, rest } => {
            put_indent(out, depth)?;
            put_define(out, name)?;
            put_block(out, body, depth)?;
            out.push_str("\n")?;
            put_lines(out, rest, depth)
        }
    }
}

// What stands behind the first block of an if, with the end of its last line.
#[cycle(lines)]
fn put_else<A: Allocator + Clone>(
    out: &mut String,
    otherwise: &Frame<A>,
    depth: usize,
) -> Result<(), AllocError>
    ensures { OnOk result (string_bytes out.new
        ≡ string_bytes out.old
        ++ (texts.else_text depth (texts.is_empty (tree_of otherwise.now))
        (texts.lines (depth + 1) (tree_of otherwise.now)) ++ codes "\n")) }
{
    if is_empty(otherwise) {
        return out.push_str("\n");
    }
    out.push_str(" else ")?;
    put_block(out, otherwise, depth)?;
    out.push_str("\n")
}
