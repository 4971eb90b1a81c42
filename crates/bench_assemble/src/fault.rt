//! Why a script has no image.
ghost use Rattle.bench_assemble.specs.Letters.{letters_of};
ghost use Rattle.bench_assemble.specs.declared.fault.AssembleFault.TheVariants.{Memory};
ghost use Rattle.std.specs.Prelude.{◌≡◌};

use frame_asm::AsmError;
use frame_load::LoadError;
use frame_text::{Cause, Place, ScriptError};
use std::alloc::AllocError;
use std::fmt::{self, Display, Formatter, Write};

/// Why a script has no image. Faults of the text count before those of its code, and want of memory comes last.
#[derive(Clone, Copy, Debug, PartialEq, Eq)]
pub enum AssembleFault {
    /// S1 to S8, S10 or S11: the first fault of the text, and its place.
    Text { cause: Cause, place: Place },
    /// A1: there are more than 4096 operations.
    Operations,
    /// A2: there are more than 1024 messages in the table.
    Messages,
    /// P5: a run may take more than 100,000,000 steps or send more than 1,000,000 messages.
    Budget,
    /// P8: the periods of the frames that a run may close come to more than 2^46 ticks. The code of a script breaks no
    /// other rule of the loader than these two.
    Periods,
    /// Memory was refused.
    Memory,
}

/// `S7 line 1 column 8`, `A1`, `P5`, `P8`, `memory`.
impl Display for AssembleFault {
    ghost output = { letters_of };

    fn fmt<W: Write>(&self, f: &mut Formatter<W>) -> fmt::Result {
        match self {
            AssembleFault::Text { cause, place } => {
                let text = ScriptError::Text {
                    cause: *cause,
                    place: *place,
                };
                write!(f, "{text}")
            }
            AssembleFault::Operations => write!(f, "{}", AsmError::Operations),
            AssembleFault::Messages => write!(f, "{}", AsmError::Messages),
            AssembleFault::Budget => write!(f, "{}", LoadError::Budget),
            AssembleFault::Periods => write!(f, "{}", LoadError::Periods),
            AssembleFault::Memory => f.write_str("memory"),
        }
    }
}

impl From<AllocError> for AssembleFault {
    ghost from_gives = { λ _ e. e ≡ Memory };

    fn from(_: AllocError) -> AssembleFault {
        AssembleFault::Memory
    }
}
