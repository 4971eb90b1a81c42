//! What the writer of a world does with an item.
ghost use Rattle.bench_core.specs.Writing.{MayCome};
ghost use Rattle.ch11_recording.specs.Items.{channel_of};
ghost use Rattle.ch11_recording.specs.WrittenFile.{met, closes, closing};
ghost use Rattle.std.specs.Prelude.{◌≡◌, ◌<◌, ◌≤◌, ◌+◌, ◌++◌, vec_len, length, if◌then◌else◌};
ghost use Rattle.std.specs.Vec.{vec_capacity};

use ch11_builder::{Builder, Pushed};
use ch11_recording::Item;

/// A packet has at most so many bytes.
pub(crate) const LONGEST: usize = 524_288;

/// The number of an item's channel.
pub(crate) fn channel_of(item: &Item) -> u16
    ensures { result ≡ channel_of item.now }
{
    match item {
        Item::Message { channel, .. } => *channel,
        Item::End { channel } => *channel,
    }
}

/// Puts a packet behind the file, which has room for it: one packet more.
fn append(file: &mut Vec<u8>, packet: &[u8]) -> u64
    requires { vec_len file.old + length packet.now ≤ vec_capacity file.old }
    ensures file { file.new.items ≡ file.old.items ++ packet.now }
    ensures one { result ≡ 1 }
{
    // There is room for it.
    let _ = file.extend_from_slice(packet);
    1
}

/// Takes an item of the builder's channel in, and puts the packet that it closes behind the file, which has room for
/// it: how many packets these are, 0 or 1.
pub(crate) fn write(builder: &mut Builder, file: &mut Vec<u8>, item: &Item) -> u64
    requires next { MayCome builder.old item.now }
    requires room { vec_len file.old + 524288 ≤ vec_capacity file.old }
    ensures held { builder.new ≡ met builder.old item.now }
    ensures file { file.new.items ≡ file.old.items ++ closing builder.old item.now }
    ensures count { result ≡ (if closes builder.old item.now then 1 else 0) }
{
    match item {
        Item::Message { number, record, .. } => match builder.push(*number, record) {
            Pushed::Closed(packet) => append(file, packet),
            Pushed::Kept => 0,
        },
        Item::End { .. } => match builder.close() {
            Some(packet) => append(file, packet),
            None => 0,
        },
    }
}
