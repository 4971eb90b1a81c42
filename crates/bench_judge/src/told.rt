//! What is told of a message or a packet that misses a rule: where it is, what was there, and what was expected.
ghost use Rattle.bench_judge.specs.Told as spec;
ghost use Rattle.std.specs.Prelude.{◌≡◌, ◌++◌, OnOk};

use crate::expected::put_expected;
use crate::numbers::put_number;
use crate::skips::file_place;
use crate::there::put_there;
use crate::verdicts::Miss;
use ch11_layout::View;
use ch11_reader::{Packet, Skip};
use judge_rules::Check;
use std::alloc::AllocError;

/// Appends what was there and what was expected; the message before it had this of what is compared.
#[tactic(auto, unfolding(crate::specs::Told::told_of))]
pub(crate) fn put_told(
    text: &mut Vec<u8>,
    check: &Check,
    before: Option<u64>,
    view: &View<'_>,
) -> Result<(), AllocError>
    ensures { OnOk result (text.new.items ≡ text.old.items ++ spec.told_of check.now before view.now) }
{
    put_there(text, check, before, view)?;
    text.extend_from_slice(b", expected")?;
    put_expected(text, check)
}

/// Appends where a message is.
#[tactic(auto, unfolding(crate::specs::Told::told_miss))]
pub fn put_miss(text: &mut Vec<u8>, miss: &Miss) -> Result<(), AllocError>
    ensures { OnOk result (text.new.items ≡ text.old.items ++ spec.told_miss miss.now) }
{
    put_number(text, b"\nmessage ", miss.number)?;
    put_number(text, b" channel ", u64::from(miss.channel))?;
    match miss.stamp {
        Some(stamp) => put_number(text, b" stamp ", stamp),
        None => text.extend_from_slice(b" stamp -"),
    }
}

/// Appends where a message is that misses a rule, and why.
#[tactic(auto, unfolding(crate::specs::Told::told_at))]
pub fn put_told_at(
    text: &mut Vec<u8>,
    miss: &Miss,
    check: &Check,
    before: Option<u64>,
    view: &View<'_>,
) -> Result<(), AllocError>
    ensures { OnOk result (text.new.items
        ≡ text.old.items ++ spec.told_at miss.now check.now before view.now) }
{
    put_miss(text, miss)?;
    text.extend_from_slice(b": ")?;
    put_told(text, check, before, view)
}

/// Appends why a packet misses a rule.
fn put_why(text: &mut Vec<u8>, packet: &Packet) -> Result<(), AllocError>
    ensures { OnOk result (text.new.items ≡ text.old.items ++ spec.packet_why packet.now) }
{
    if packet.header.has_overflow() {
        return text.extend_from_slice(b": overflow flag, expected none");
    }
    put_number(
        text,
        b": sequence number ",
        u64::from(packet.header.sequence),
    )?;
    text.extend_from_slice(b", expected the next of its channel")
}

/// Puts where a packet is that misses a rule, in the file of which these bytes were skipped, behind a label, and why.
#[tactic(auto, unfolding(crate::specs::Told::packet_told))]
pub(crate) fn put_packet(
    text: &mut Vec<u8>,
    label: &[u8],
    packet: &Packet,
    skips: &[Skip],
) -> Result<(), AllocError>
    ensures { OnOk result (text.new.items ≡ text.old.items ++ spec.packet_told label.now skips.now packet.now) }
{
    put_number(text, label, file_place(skips, packet.offset) as u64)?;
    put_number(text, b" channel ", u64::from(packet.header.channel))?;
    put_why(text, packet)
}

/// Appends how many messages were counted, and how many were expected.
#[tactic(auto, unfolding(crate::specs::Told::told_count))]
pub(crate) fn put_count(text: &mut Vec<u8>, check: &Check, counted: u64) -> Result<(), AllocError>
    ensures { OnOk result (text.new.items ≡ text.old.items ++ spec.told_count check.now counted) }
{
    put_number(text, b"count ", counted)?;
    text.extend_from_slice(b", expected")?;
    put_expected(text, check)
}
