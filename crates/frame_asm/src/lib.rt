//! The assembler (own choice): the image of a frame, whose code does in any world what the frame means.
//!
//! It may know: words, messages, trees, code. Its tests: `frame_tests`. Its wrong bodies: `edits/`.
#![tactic(auto)]

ghost use Rattle.frame_asm.specs.Behaves.{Behaves};
ghost use Rattle.frame_asm.specs.Shapes.{code_of_tree, size, entries};
ghost use Rattle.frame_code.specs.Loadable.{IsLoadable};
ghost use Rattle.frame_code.specs.Ranges.{IsImage};
ghost use Rattle.frame_tree.specs.Bounds.{IsSound};
ghost use Rattle.frame_tree.specs.Tree.{Tree, tree_of};
ghost use Rattle.mil_message.specs.World.{World, Point};
ghost use Rattle.std.specs.Prelude.{◌≡◌, ◌<◌, ◌≤◌, ◌↔◌, length, IfOk, Err};

mod emission;
mod error;
mod sizes;

pub use error::AsmError;
use frame_code::{Image, Op, Setting};
use frame_tree::{Frame, Scope};
use std::alloc::{Allocator, Global};

/// Law: in any world, and from any point, the code of a sound tree does what the tree means, and halts there.
pub fn code_means<W: Setting>()
    ensures { (w : World W.State W.Outcome) (t : Tree) (p : Point W.State W.Outcome) → IsSound t
        → Behaves w t (code_of_tree t) p }
{}

// The image of a frame, by the sizes of its tree.
fn build<A: Allocator + Clone>(alloc: Global, frame: &Frame<A>) -> Result<Image, AsmError>
    requires { IsSound (tree_of frame.now) }
    ensures image { IfOk result (λ image. image ≡ code_of_tree (tree_of frame.now)) }
    ensures range { IfOk result (λ image. IsImage image) }
    ensures operations { (result ≡ Err AsmError.Operations) ↔ (4095 < size (tree_of frame.now)) }
    ensures messages { (result ≡ Err AsmError.Messages) ↔ (size (tree_of frame.now) ≤ 4095)
        × (1024 < entries (tree_of frame.now)) }
{
    if sizes::operation_count(frame) > 4095 {
        return Err(AsmError::Operations);
    }
    if sizes::entry_count(frame) > 1024 {
        return Err(AsmError::Messages);
    }
    let mut operations = Vec::new(alloc);
    let mut messages = Vec::new(alloc);
    emission::emit_all(&mut operations, &mut messages, 0, &Scope::Empty, frame)?;
    emission::put(&mut operations, Op::Halt)?;
    Ok(Image::new(operations, messages))
}

/// The image of a frame. Condition: the frame is sound. The image is the code of the frame's tree, whatever the
/// allocators; the loader may refuse it for its budget or its periods alone.
pub fn assemble<A: Allocator + Clone>(alloc: Global, frame: &Frame<A>) -> Result<Image, AsmError>
    requires { IsSound (tree_of frame.now) }
    ensures image { IfOk result (λ image. image ≡ code_of_tree (tree_of frame.now)) }
    ensures loadable { IfOk result (λ image. IsLoadable image) }
    ensures operations { (result ≡ Err AsmError.Operations) ↔
        (4096 < length (code_of_tree (tree_of frame.now)).operations) }
    ensures messages { (result ≡ Err AsmError.Messages)
        ↔ (length (code_of_tree (tree_of frame.now)).operations ≤ 4096)
        × (1024 < length (code_of_tree (tree_of frame.now)).messages) }
{
    build(alloc, frame)
}
