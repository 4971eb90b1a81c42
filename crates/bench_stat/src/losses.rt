//! What packets say of messages that are missing.
ghost use Rattle.bench_stat.specs.Details as spec;
ghost use Rattle.bench_stat.specs.PageText.{no_losses};
ghost use Rattle.ch11_reader.specs.Contents.{capped};
ghost use Rattle.bench_stat.specs.Figures.{one_if};
ghost use Rattle.ch11_reader.specs.declared.packet.Packet.{Packet as PacketValue};
ghost use Rattle.std.specs.Prelude.{◌≡◌, ℕ, ◌+◌, ◌-◌, ◌<◌, ◌^◌, ◌++◌, ◌∷◌, [], List, length};

use ch11_reader::Packet;

/// How many packets of a channel say that messages are missing.
#[derive(Clone, Copy, Debug, PartialEq, Eq)]
pub struct Losses {
    /// Those with the overflow flag.
    pub overflows: usize,
    /// Those whose sequence number does not follow that of the channel's packet before.
    pub jumps: usize,
}

impl Losses {
    /// What no packets say.
    pub(crate) fn none() -> Losses
        ensures value { result ≡ no_losses }
        ensures none { (channel : ℕ) → result ≡ spec.losses_of channel [] }
    {
        Losses {
            overflows: 0,
            jumps: 0,
        }
    }

    /// One more packet of the recording, behind fewer than 2^64 - 1.
    pub(crate) fn note(&mut self, packet: &Packet, channel: u16)
        ensures { (packets : List PacketValue) → length packets < 2 ^ 64 - 1
            → self.old ≡ spec.losses_of channel packets
            → self.new ≡ spec.losses_of channel (packets ++ packet.now ∷ []) }
    {
        self.overflows = one_more(self.overflows, has_overflow(packet, channel));
        self.jumps = one_more(self.jumps, is_jump(packet, channel));
    }
}

/// One packet more where it holds, at most 2^64 - 1.
fn one_more(count: usize, holds: bool) -> usize
    ensures { result ≡ capped (count + one_if holds) }
{
    if holds {
        count.saturating_add(1)
    } else {
        count
    }
}

fn has_overflow(packet: &Packet, channel: u16) -> bool
    ensures { result ≡ spec.overflows channel packet.now }
{
    packet.header.channel == channel && packet.header.has_overflow()
}

fn is_jump(packet: &Packet, channel: u16) -> bool
    ensures { result ≡ spec.jumps channel packet.now }
{
    packet.header.channel == channel && packet.sequence_jump
}
