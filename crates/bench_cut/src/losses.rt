//! What is lost of each channel while its packets go over.
ghost use Rattle.bench_cut.specs.Heads.{number_for};
ghost use Rattle.bench_cut.specs.Losses.{loss_left_out, loss_over, no_loss};
ghost use Rattle.std.specs.Prelude.{◌≡◌};

/// How many channels there can be.
pub(crate) const CHANNELS: usize = 65536;

/// What is lost of a channel so far.
#[derive(Clone, Copy, Debug, PartialEq, Eq)]
pub(crate) struct ChannelLoss {
    /// How many of its packets were left out behind the first that went over, modulo 256; None where none went over.
    pub(crate) lost: Option<u8>,
    /// Whether a packet that was left out behind the last that went over had the overflow flag.
    pub(crate) owed: bool,
}

impl ChannelLoss {
    /// That of a channel without a packet.
    pub(crate) fn new() -> ChannelLoss
        ensures { result ≡ no_loss }
    {
        ChannelLoss {
            lost: None,
            owed: false,
        }
    }

    /// Behind a packet that was left out, which had the overflow flag or not.
    pub(crate) fn left_out(self, overflow: bool) -> ChannelLoss
        ensures { result ≡ loss_left_out self overflow }
    {
        ChannelLoss {
            lost: match self.lost {
                Some(lost) => Some(lost.wrapping_add(1)),
                None => None,
            },
            owed: overflow || self.owed,
        }
    }

    /// Behind a packet that went over.
    pub(crate) fn over(self) -> ChannelLoss
        ensures { result ≡ loss_over self }
    {
        ChannelLoss {
            lost: Some(self.lost.unwrap_or(0)),
            owed: false,
        }
    }

    /// The sequence number with which a packet of this one goes over.
    pub(crate) fn number(self, sequence: u8) -> u8
        ensures { result ≡ number_for self sequence }
    {
        sequence.wrapping_sub(self.lost.unwrap_or(0))
    }
}
