//! The verdict of a rule about whole packets while the recording is passed.
ghost use Rattle.bench_judge.specs.Packets as spec;
ghost use Rattle.bench_judge.specs.Packets.{ArePacketTallies, IsPacketTally};
ghost use Rattle.ch11_reader.specs.declared.packet.Packet.{Packet as PacketValue};
ghost use Rattle.std.specs.Prelude.{◌≡◌, ◌+◌, ◌-◌, ◌<◌, ◌^◌, ◌++◌, ◌∷◌, [], List, length, IfOk};

use crate::losses::one_more;
use bench_select::is_of;
use ch11_header::kinds::BUS_MESSAGES;
use ch11_reader::Packet;
use judge_rules::Rule;
use std::alloc::{AllocError, Global};

/// How many packets of messages a rule selects so far, and how many of them miss it.
#[derive(Clone, Copy, Debug, PartialEq, Eq)]
pub(crate) struct PacketTally {
    pub(crate) selected: usize,
    pub(crate) missed: usize,
}

/// Whether a packet is one of messages of the channel that a rule names, or of any where it names none.
fn selects_packet(rule: &Rule, packet: &Packet) -> bool
    ensures { result ≡ spec.selects_packet rule.now packet.now }
{
    packet.header.kind == BUS_MESSAGES && is_of(rule.channel, packet.header.channel)
}

/// Whether a rule selects a packet that has the overflow flag, or whose sequence number does not follow.
pub(crate) fn misses_packet(rule: &Rule, packet: &Packet) -> bool
    ensures { result ≡ spec.misses_packet rule.now packet.now }
{
    selects_packet(rule, packet) && (packet.header.has_overflow() || packet.sequence_jump)
}

impl PacketTally {
    /// Of no packets.
    pub(crate) fn none() -> PacketTally
        ensures { (rule : Rule) → IsPacketTally rule [] result }
    {
        PacketTally {
            selected: 0,
            missed: 0,
        }
    }

    /// One more packet, behind fewer than 2^64 - 1.
    pub(crate) fn note(&mut self, rule: &Rule, packet: &Packet)
        ensures { (packets : List PacketValue) → length packets < 2 ^ 64 - 1
            → IsPacketTally rule.now packets self.old
            → IsPacketTally rule.now (packets ++ packet.now ∷ []) self.new }
    {
        self.selected = one_more(self.selected, selects_packet(rule, packet));
        self.missed = one_more(self.missed, misses_packet(rule, packet));
    }
}

/// A tally for each rule, of no packets.
pub(crate) fn no_packets(alloc: Global, rules: &[Rule]) -> Result<Vec<PacketTally>, AllocError>
    ensures { IfOk result (λ tallies. ArePacketTallies rules.now [] tallies.items) }
{
    let mut tallies = Vec::with_capacity(alloc, rules.len())?;
    'rules: for _rule in rules {
        tallies.push(PacketTally::none())?;
    }
    Ok(tallies)
}

/// One more packet for each rule, behind fewer than 2^64 - 1.
pub(crate) fn note_packet(rules: &[Rule], tallies: &mut [PacketTally], packet: &Packet)
    requires { length tallies.old ≡ length rules.now }
    ensures { (packets : List PacketValue) → length packets < 2 ^ 64 - 1
        → ArePacketTallies rules.now packets tallies.old
        → ArePacketTallies rules.now (packets ++ packet.now ∷ []) tallies.new }
{
    'rules: for place in 0..rules.len() {
        tallies[place].note(&rules[place], packet);
    }
}
