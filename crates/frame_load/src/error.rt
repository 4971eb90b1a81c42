//! Why an image is no program.
use std::fmt::{self, Display, Formatter, Write};

/// Why an image is not loaded. The rules are judged in the order in which they stand here, each over the whole image.
#[derive(Clone, Copy, PartialEq, Eq, Debug)]
pub enum LoadError {
    /// P4: there is no operation, or the last is not Halt.
    End,
    /// P7: there are more than 32 routines, or a Call is of one that is not there or does not end before the Call's own
    /// begins.
    Routines,
    /// P2: Loop with Again and Begin with Pace do not pair as two kinds of brackets of one nesting in a routine, a
    /// Leave stands outside every loop, or more than 17 loops or more than 16 frames are open, those that a Call opens
    /// counted.
    Nesting,
    /// P1: an operation goes where it must not: an Again not behind its Loop, a Leave not behind the Again of its loop,
    /// or one that stands in a frame within its loop, a Jump or JumpFalse not to a later operation of its routine in
    /// the same innermost bracket.
    Jumps,
    /// P3: the message of a Send or Alt is not there.
    Messages,
    /// P5: a run may take more than 100,000,000 steps or send more than 1,000,000 messages.
    Budget,
    /// P6: memory was refused; `load` takes none, and never answers it.
    Memory,
    /// P8: the periods of all frames that a run may close come to more than 2^46 ticks.
    Periods,
}

impl Display for LoadError {
    ghost use Rattle.frame_load.specs.Codes.{fault_code};
    ghost use Rattle.std.specs.Prelude.{Some};

    ghost output = { λ e. Some (fault_code e) };

    fn fmt<W: Write>(&self, f: &mut Formatter<W>) -> fmt::Result {
        f.write_str(match self {
            LoadError::Jumps => "P1",
            LoadError::Nesting => "P2",
            LoadError::Messages => "P3",
            LoadError::End => "P4",
            LoadError::Budget => "P5",
            LoadError::Memory => "P6",
            LoadError::Routines => "P7",
            LoadError::Periods => "P8",
        })
    }
}
