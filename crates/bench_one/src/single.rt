//! One message on fresh terminals.
ghost use Rattle.bench_one.specs.One.{addresses_named, only_talk, packet_of_send, packet_of_text, IsRefusal};
ghost use Rattle.mil_bus.specs.Addresses.{is_fit};
ghost use Rattle.mil_monitor.specs.Observed.{observed};
ghost use Rattle.std.specs.Prelude.{◌≡◌, ◌<◌, ◌^◌, true, Ok, IfOk, IfErr};

use crate::fault::OneFault;
use arrayvec::ArrayVec;
use ch11_builder::Builder;
use ch11_f1::Record;
use frame_text::{ScriptError, read_send};
use mil_bus::{Bus, Talk};
use mil_line::Gap;
use mil_message::Message;
use mil_monitor::observe;
use mil_word::Line;
use mil_word::timing::LEAST_GAP;
use std::alloc::{AllocError, Global};

/// The packet of the message that the text spells, as in `A rx 5 1 [0001]`, run on fresh terminals at the addresses
/// that it names, at tick 0. A text that spells none is refused with its first fault (S1 to S5); then memory.
pub fn one(alloc: Global, channel: u16, version: u8, text: &[u8]) -> Result<Vec<u8>, OneFault>
    ensures packet { IfOk result (λ bytes. packet_of_text channel version text.now ≡ Ok bytes.items) }
    ensures refused { IfErr result (IsRefusal (packet_of_text channel version text.now)) }
{
    match read_send(text) {
        Ok((line, message)) => Ok(packet(alloc, channel, version, line, &message)?),
        Err(ScriptError::Text { cause, place }) => Err(OneFault::Text { cause, place }),
        Err(ScriptError::Memory { .. }) => Err(OneFault::Memory),
    }
}

/// The packet of one message.
fn packet(
    alloc: Global,
    channel: u16,
    version: u8,
    line: Line,
    message: &Message,
) -> Result<Vec<u8>, AllocError>
    ensures { IfOk result (λ bytes. bytes.items ≡ packet_of_send channel version line message.now) }
{
    let talk = only_talk(alloc, line, message)?;
    packed(alloc, channel, version, line, message, &observe(&talk))
}

/// The addresses that a message names.
fn addresses_named(message: &Message) -> ArrayVec<u8, 2>
    ensures all { result.items ≡ addresses_named message.now }
    ensures fit { is_fit result.items ≡ true }
{
    // A message is lawful by its type.
    let _lawful = message.form();
    let mut addresses = ArrayVec::new();
    for due in message.replies_due().as_slice() {
        addresses.push(due.address);
    }
    addresses
}

/// The exchange of a message on a bus with fresh terminals.
fn only_talk(alloc: Global, line: Line, message: &Message) -> Result<Talk, AllocError>
    ensures talk { IfOk result (λ talk. talk ≡ only_talk line message.now) }
    ensures start { IfOk result (λ talk. talk.start ≡ 0) }
{
    let addresses = addresses_named(message);
    match Bus::make(alloc, 0, addresses.as_slice()) {
        Ok(mut bus) => Ok(bus.exchange(line, message, Gap::of(LEAST_GAP), &[])),
        Err(_) => Err(AllocError),
    }
}

/// The packet of one record.
fn packed(
    alloc: Global,
    channel: u16,
    version: u8,
    line: Line,
    message: &Message,
    recorded: &Record,
) -> Result<Vec<u8>, AllocError>
    requires is { recorded.now ≡ observed (only_talk line message.now) }
    requires stamp { recorded.now.stamp < 2 ^ 48 }
    ensures { IfOk result (λ bytes. bytes.items ≡ packet_of_send channel version line message.now) }
{
    let Ok(mut builder) = Builder::make(alloc, channel, version, 256) else {
        return Err(AllocError);
    };
    // The first message closes no packet.
    let _ = builder.push(1, recorded);
    match builder.close() {
        Some(packet) => packet.to_vec(alloc),
        None => Ok(Vec::new(alloc)),
    }
}
