//! Why a channel was not recorded.
use std::fmt::{self, Display, Formatter, Write};

/// Why a channel was not recorded; each fault hands the sink back.
#[derive(Drop)]
pub enum ChannelFault<S> {
    /// G1: the packet limit is outside 256 to 524,288 bytes. Nothing was put into the sink.
    Limit { sink: S },
    /// U3: memory was refused. Nothing was put into the sink.
    Memory { sink: S },
    /// U4: the sink failed once it had taken so many bytes.
    Sink { sink: S, taken: u64 },
}

/// `G1`, `U3`, `U4 taken 100`.
impl<S> Display for ChannelFault<S> {
    ghost use Rattle.bench_core.specs.Codes.{channel_code};
    ghost use Rattle.std.specs.Prelude.{Some};

    ghost output = { λ e. Some (channel_code e) };

    fn fmt<W: Write>(&self, f: &mut Formatter<W>) -> fmt::Result {
        match self {
            ChannelFault::Limit { .. } => f.write_str("G1"),
            ChannelFault::Memory { .. } => f.write_str("U3"),
            ChannelFault::Sink { taken, .. } => write!(f, "U4 taken {taken}"),
        }
    }
}
