//! Whether a recording says that messages are missing from it.
ghost use Rattle.bench_requests.specs.Losses.{is_marked};
ghost use Rattle.std.specs.List.{list_any};
ghost use Rattle.std.specs.Prelude.{◌≡◌};

use ch11_reader::Packet;

/// Whether this packet says that a message is missing.
fn is_marked(packet: &Packet) -> bool
    ensures { result ≡ is_marked packet.now }
{
    packet.header.has_overflow()
}

/// Whether one of these packets says that messages are missing: its overflow flag is set.
pub fn tells_of_loss(packets: &[Packet]) -> bool
    ensures { result ≡ list_any is_marked packets.now }
{
    packets.iter().any(is_marked)
}
