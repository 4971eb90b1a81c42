//! Why a recording was not drawn.
ghost use Rattle.bench_draw.specs.declared.fault.DrawFault.TheVariants.{Recording};
ghost use Rattle.ch11_stream.specs.declared.fault.StreamFault.TheVariants.{Memory};
ghost use Rattle.std.specs.Prelude.{◌≡◌};

use ch11_stream::StreamFault;
use std::alloc::AllocError;
use std::io;

/// Why a recording was not drawn.
#[derive(Debug, Drop)]
pub enum DrawFault {
    /// A reader of the recording could not be had for one more pass.
    Opening(io::Error),

    /// The recording is refused, its reader failed, or memory was refused.
    Recording(StreamFault),
}

impl From<AllocError> for DrawFault {
    ghost from_gives = { λ _ e. e ≡ Recording Memory };

    fn from(_e: AllocError) -> DrawFault {
        DrawFault::Recording(StreamFault::Memory)
    }
}

impl From<StreamFault> for DrawFault {
    ghost from_gives = { λ fault e. e ≡ Recording fault };

    fn from(fault: StreamFault) -> DrawFault {
        DrawFault::Recording(fault)
    }
}
