//! A script as the bytes of its image.
ghost use Rattle.bench_assemble.specs.Assembled.{image_of_text, image_of_tree, judged_code, IsRefusal, told_as};
ghost use Rattle.frame_asm.specs.Shapes.{code_of_tree};
ghost use Rattle.frame_code.specs.Loadable.{IsLoadable};
ghost use Rattle.frame_tree.specs.Bounds.{IsSound};
ghost use Rattle.frame_tree.specs.Tree.{tree_of};
ghost use Rattle.std.specs.Prelude.{◌≡◌, Ok, IfOk, IfErr};

use crate::{AssembleFault, Sizes};
use frame_asm::{AsmError, assemble};
use frame_code::{Image, write_image};
use frame_load::{LoadError, Program, load};
use frame_text::{ScriptError, parse};
use frame_tree::Frame;
use std::alloc::Global;

/// The bytes of the image of a script, and its sizes. A text that has no tree is refused with its first fault (S1 to
/// S8); then code of more than 4096 operations (A1), more than 1024 messages (A2), a program over its budget (P5), and
/// periods that come to more than 2^46 ticks (P8); then memory.
pub fn assemble_text(alloc: Global, text: &[u8]) -> Result<(Vec<u8>, Sizes), AssembleFault>
    ensures image { IfOk result (λ x. image_of_text text.now ≡ Ok (x.0.items, x.1)) }
    ensures refused { IfErr result (IsRefusal (image_of_text text.now)) }
{
    match parse(alloc, text) {
        Ok(frame) => assemble_frame(alloc, &frame),
        Err(ScriptError::Text { cause, place }) => Err(AssembleFault::Text { cause, place }),
        Err(ScriptError::Memory { .. }) => Err(AssembleFault::Memory),
    }
}

/// The bytes of the image of a frame, and its sizes.
fn assemble_frame(alloc: Global, frame: &Frame<Global>) -> Result<(Vec<u8>, Sizes), AssembleFault>
    requires { IsSound (tree_of frame.now) }
    ensures image { IfOk result (λ x. image_of_tree (tree_of frame.now) ≡ Ok (x.0.items, x.1)) }
    ensures refused { IfErr result (IsRefusal (image_of_tree (tree_of frame.now))) }
{
    let program = program_of(alloc, frame)?;
    let image = program.image();
    let bytes = write_image(alloc, image)?;
    let sizes = Sizes {
        operations: image.operations().len(),
        messages: image.messages().len(),
        budget: program.budget(),
    };
    Ok((bytes, sizes))
}

/// The program of a frame.
fn program_of(alloc: Global, frame: &Frame<Global>) -> Result<Program, AssembleFault>
    requires { IsSound (tree_of frame.now) }
    ensures program { IfOk result (λ p. judged_code (code_of_tree (tree_of frame.now)) ≡ Ok p) }
    ensures refused { IfErr result (IsRefusal (judged_code (code_of_tree (tree_of frame.now)))) }
{
    match assemble(alloc, frame) {
        Ok(image) => loaded(alloc, image),
        Err(AsmError::Operations) => Err(AssembleFault::Operations),
        Err(AsmError::Messages) => Err(AssembleFault::Messages),
        Err(AsmError::Memory) => Err(AssembleFault::Memory),
    }
}

/// The program of an image that breaks no rule of the loader but the last two.
fn loaded(alloc: Global, image: Image) -> Result<Program, AssembleFault>
    requires loadable { IsLoadable image }
    ensures program { IfOk result (λ p. judged_code image ≡ Ok p) }
    ensures refused { IfErr result (IsRefusal (judged_code image)) }
{
    match load(alloc, image) {
        Ok(program) => Ok(program),
        Err(why) => Err(told(why)),
    }
}

/// What a refusal of the loader is told as.
fn told(why: LoadError) -> AssembleFault
    ensures { result ≡ told_as why }
{
    match why {
        LoadError::Periods => AssembleFault::Periods,
        LoadError::Memory => AssembleFault::Memory,
        _ => AssembleFault::Budget,
    }
}
