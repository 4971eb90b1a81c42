//! A picture on the way: text of bounded size.
ghost use Rattle.std.specs.Prelude.{◌≤◌, vec_len, IfOk};

use std::alloc::{AllocError, Global};

/// How many bytes a picture has at most.
pub const MOST_BYTES: usize = 5_000_000;

/// How many bytes are kept for the end of the picture.
const END: &[u8] = b"</svg>\n";

/// A picture on the way. Elements that it has no room for are left out whole.
#[derive(Drop)]
pub(crate) struct Picture {
    text: Vec<u8>,
    room: usize,
}

impl Picture {
    /// A picture without elements.
    pub(crate) fn new(alloc: Global) -> Picture {
        Picture {
            text: Vec::new(alloc),
            room: MOST_BYTES - END.len(),
        }
    }

    /// How many bytes of elements there is room for.
    pub(crate) fn room(&self) -> usize {
        self.room
    }

    /// One more element, if there is room for it.
    pub(crate) fn put(&mut self, element: &str) -> Result<(), AllocError> {
        let bytes = element.as_bytes();
        if bytes.len() <= self.room {
            self.text.extend_from_slice(bytes)?;
            self.room -= bytes.len();
        }
        Ok(())
    }

    /// The whole picture.
    pub(crate) fn end(self) -> Result<Vec<u8>, AllocError>
        ensures { IfOk result (λ text. vec_len text ≤ MOST_BYTES) }
    {
        let mut text = self.text;
        if text.len() <= MOST_BYTES - END.len() {
            text.extend_from_slice(END)?;
        } else {
            text.clear();
        }
        Ok(text)
    }
}
