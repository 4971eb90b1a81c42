//! Scripts: frames as text (own choice), read and printed. A text has at most one tree, and every other text is
//! refused by its first fault from left to right.
//!
//! It may know: words, messages, status bits, trees, numbers and words of a text. Its tests: `frame_tests`. Its
//! wrong bodies: `edits/`.
#![tactic(auto)]

ghost use Rattle.frame_text.specs.Chains.{IsScript};
ghost use Rattle.frame_text.specs.Frames.{tree_of_text};
ghost use Rattle.frame_text.specs.Printing.{printed};
ghost use Rattle.frame_tree.specs.Bounds.{IsSound};
ghost use Rattle.frame_tree.specs.Tree.{tree_of};
ghost use Rattle.std.specs.Prelude.{◌≡◌, Ok, IfOk, string_bytes};

mod boxes;
mod builder;
mod conditions;
mod definitions;
mod faults;
mod frames;
mod keywords;
mod laws;
mod memory;
mod messages;
mod outlines;
mod places;
mod printed_conditions;
mod printed_frames;
mod printed_messages;
mod tokens;
mod weights;
mod whole;
mod words;

pub use faults::{Cause, Place, ScriptError};
use frame_tree::Frame;
pub use laws::scripts_read_back;
use printed_frames::put_lines;
pub use printed_messages::SendText;
use std::alloc::{AllocError, Allocator, Global};
pub use tokens::next as next_token;
pub use whole::{parse, read_cond, read_send};

/// The text of a frame: one frame a line, two spaces for each open block, an empty else left out. Of a sound script,
/// such as `parse` gives, the tree is also that of its print.
pub fn print<A: Allocator + Clone>(alloc: Global, frame: &Frame<A>) -> Result<String, AllocError>
    ensures text { IfOk result (λ s. string_bytes s ≡ printed (tree_of frame.now)) }
    ensures reads_back { IfOk result (λ s. IsScript (tree_of frame.now) → IsSound (tree_of frame.now)
        → tree_of_text (string_bytes s) ≡ Ok (tree_of frame.now)) }
{
    let mut text = String::new(alloc);
    put_lines(&mut text, frame, 0)?;
    Ok(text)
}
