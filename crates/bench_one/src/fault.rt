//! Why there is no packet.
ghost use Rattle.bench_one.specs.Codes.{fault_text};
ghost use Rattle.bench_one.specs.declared.fault.OneFault.TheVariants.{Memory};
ghost use Rattle.std.specs.Prelude.{◌≡◌, Some};

use frame_text::{Cause, Place, ScriptError};
use std::alloc::AllocError;
use std::fmt::{self, Display, Formatter, Write};

/// Why a text gave no packet.
#[derive(Clone, Copy, Debug, PartialEq, Eq)]
pub enum OneFault {
    /// S1 to S5: the first fault of the text, and its place.
    Text { cause: Cause, place: Place },
    /// Memory was refused.
    Memory,
}

/// `S1 line 1 column 3`, `S4 line 1 column 3 M3`, `memory`.
impl Display for OneFault {
    ghost output = { λ e. Some (fault_text e) };

    fn fmt<W: Write>(&self, f: &mut Formatter<W>) -> fmt::Result {
        match self {
            OneFault::Text { cause, place } => {
                let text = ScriptError::Text {
                    cause: *cause,
                    place: *place,
                };
                write!(f, "{text}")
            }
            OneFault::Memory => f.write_str("memory"),
        }
    }
}

impl From<AllocError> for OneFault {
    ghost from_gives = { λ _ e. e ≡ Memory };

    fn from(_: AllocError) -> OneFault {
        OneFault::Memory
    }
}
