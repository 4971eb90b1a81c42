//! Calls on scripts, their trees, their images and their programs.
ghost use Rattle.frame_tree.specs.Bounds.{IsSound};
ghost use Rattle.frame_tree.specs.Tree.{tree_of};

use crate::told::Told;
use crate::worked::{LOOPS, SCRIPT};
use bumpalo::Bump;
use frame_asm::{AsmError, assemble};
use frame_code::{ImageError, read_image, write_image};
use frame_load::{Program, load};
use frame_text::{ScriptError, parse, print, read_cond};
use frame_tree::Frame;
use std::alloc::{AllocError, Global};

/// What a text was answered with.
fn answered<T>(answer: &Result<T, ScriptError>) -> Told {
    match answer {
        Ok(_) => Told::Well,
        Err(ScriptError::Memory { .. }) => Told::Refused,
        Err(ScriptError::Text { .. }) => Told::Wrong,
    }
}

/// `parse`, under the allocator of the system.
pub(crate) fn parsed(alloc: Global) -> Told {
    answered(&parse(alloc, SCRIPT))
}

/// `parse`, in an arena.
pub(crate) fn parsed_in_arena(alloc: Global) -> Told {
    let arena = Bump::new(alloc);
    answered(&parse(&arena, SCRIPT))
}

/// `Frame::copy_in`.
pub(crate) fn copied(alloc: Global) -> Told {
    match parse(alloc, SCRIPT) {
        Ok(frame) => {
            let copy: Result<Frame<Global>, AllocError> = frame.copy_in(alloc);
            Told::of(copy.is_ok())
        }
        Err(_) => Told::Early,
    }
}

/// `print` of a frame.
pub(crate) fn printed(alloc: Global) -> Told {
    match parse(alloc, SCRIPT) {
        Ok(frame) => Told::of(print(alloc, &frame).is_ok()),
        Err(_) => Told::Early,
    }
}

/// `read_cond`.
pub(crate) fn condition(alloc: Global) -> Told {
    answered(&read_cond(alloc, b"any ( fail all ( silent not bit busy ) )"))
}

/// The image of a frame.
fn image_of(alloc: Global, frame: &Frame<Global>) -> Told
    requires { IsSound (tree_of frame.now) }
{
    match assemble(alloc, frame) {
        Ok(_) => Told::Well,
        Err(AsmError::Memory) => Told::Refused,
        Err(_) => Told::Wrong,
    }
}

/// `assemble`.
pub(crate) fn assembled(alloc: Global) -> Told {
    match parse(alloc, SCRIPT) {
        Ok(frame) => image_of(alloc, &frame),
        Err(_) => Told::Early,
    }
}

/// `write_image`.
pub(crate) fn image_written(alloc: Global) -> Told {
    match read_image(alloc, &LOOPS) {
        Ok(image) => Told::of(write_image(alloc, &image).is_ok()),
        Err(_) => Told::Early,
    }
}

/// `read_image`.
pub(crate) fn image_read(alloc: Global) -> Told {
    match read_image(alloc, &LOOPS) {
        Ok(_) => Told::Well,
        Err(ImageError::Memory) => Told::Refused,
        Err(_) => Told::Wrong,
    }
}

/// The program of the image; None where memory is refused.
fn program(alloc: Global) -> Option<Program> {
    load(alloc, read_image(alloc, &LOOPS).ok()?).ok()
}

/// `Program::copy`.
pub(crate) fn program_copied(alloc: Global) -> Told {
    match program(alloc) {
        Some(program) => Told::of(program.copy().is_ok()),
        None => Told::Early,
    }
}
