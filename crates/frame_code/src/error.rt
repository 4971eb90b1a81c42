//! Why an image cannot be read or written.
use std::alloc::{AllocError, AllocFailed};
use std::fmt::{self, Display, Formatter, Write};

/// Why bytes are not an image. They are judged field by field in their order; want of memory comes last.
#[derive(Clone, Copy, PartialEq, Eq, Debug)]
pub enum ImageError {
    /// C1: there are fewer than four bytes, or they are none of the marks BC01, BC02 and BC03.
    Mark,
    /// C2: the bytes end too early, or go on behind the last message.
    Length,
    /// C3: an operation's number is over 9 (with the mark BC02 over 11, with BC03 over 13), its second byte is not 00,
    /// its operand is out of its range, or there are more than 4096 operations.
    Operations,
    /// C4: there are more than 1024 messages, or no message of the form has the field.
    Messages,
    /// C6: the mark is BC02 or BC03, and a lower one knows all operations.
    Version,
    /// C5: memory was refused.
    Memory,
}

impl Display for ImageError {
    ghost use Rattle.frame_code.specs.Codes.{fault_code};
    ghost use Rattle.std.specs.Prelude.{Some};

    ghost output = { λ e. Some (fault_code e) };

    fn fmt<W: Write>(&self, f: &mut Formatter<W>) -> fmt::Result {
        f.write_str(match self {
            ImageError::Mark => "C1",
            ImageError::Length => "C2",
            ImageError::Operations => "C3",
            ImageError::Messages => "C4",
            ImageError::Version => "C6",
            ImageError::Memory => "C5",
        })
    }
}

impl From<AllocError> for ImageError {
    ghost use Rattle.frame_code.specs.declared.error.ImageError.TheVariants.{Memory};
    ghost use Rattle.std.specs.Prelude.{◌≡◌};

    ghost from_gives = { λ _ e. e ≡ Memory };

    fn from(_: AllocError) -> ImageError {
        ImageError::Memory
    }
}

impl<T: Drop> From<AllocFailed<T>> for ImageError {
    ghost use Rattle.frame_code.specs.declared.error.ImageError.TheVariants.{Memory};
    ghost use Rattle.std.specs.Prelude.{◌≡◌};

    ghost from_gives = { λ _ e. e ≡ Memory };

    fn from(_: AllocFailed<T>) -> ImageError {
        ImageError::Memory
    }
}
