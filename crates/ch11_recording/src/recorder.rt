//! A recording that is being written.
ghost use Rattle.ch11_builder.specs.Held.{Held, fresh, latest_number};
ghost use Rattle.ch11_recording.specs.Recording.{IsLimit, IsRecordingOf, GoesOn};
ghost use Rattle.ch11_recording.specs.WrittenFile.{Format, channel_in};
ghost use Rattle.ch11_recording.specs.declared.item.Item.TheVariants as item;
ghost use Rattle.ch11_recording.specs.declared.item.Item.{Item};
ghost use Rattle.std.specs.Prelude.{IsTrue, IsFalse};
ghost use Rattle.std.specs.Prelude.{length, map, is_ok, slice_get, Some, if◌then◌else◌, IfOk, IfErr, IsOk, OnOk};
ghost use Rattle.std.specs.Prelude.{ℕ, List, Option, true, ◌≡◌, ◌<◌, ◌≤◌, ◌^◌, ◌+◌, ◌-◌, ◌↔◌, ◌||◌, not, [], false};

use crate::open_channel::OpenChannel;
use crate::packet_writer::PacketWriter;
use ch11_builder::{BuilderError, packet_is_read_again};
use ch11_f1::Record;
use ch11_writer::{Sink, WriteFault};
use std::alloc::Global;
use std::marker::Model;

/// Writes a recording of several channels into a sink: each packet where it is closed. It has room for two packets a
/// channel, and takes no memory once it is made.
#[derive(Drop)]
pub struct Recorder<S: Sink> {
    channels: Vec<OpenChannel>,
    writer: PacketWriter<S>,
}

impl<S: Sink> Model for Recorder<S> {
    ghost use Rattle.ch11_recording.specs.Recording.{Recording};

    ghost Value = { Recording S };

    ghost view = { λ r. record { held = r.channels.items; writing = r.writer.writing; packets = r.writer.packets } };
}

/// An open channel of each number. It fails for want of memory, where the limit is in its range.
fn open_channels(
    alloc: Global,
    version: u8,
    limit: u32,
    channels: &[u16],
) -> Result<Vec<OpenChannel>, BuilderError>
    ensures { IfOk result (λ opened. opened.items
        ≡ map (λ c. fresh (channel_in (record { version = version; limit = limit }) c)) channels.now) }
{
    let mut opened = Vec::new(alloc);
    for channel in channels {
        let one = OpenChannel::make(alloc, *channel, version, limit)?;
        if opened.push(one).is_err() {
            return Err(BuilderError::Memory);
        }
    }
    Ok(opened)
}

impl<S: Sink> Recorder<S> {
    /// A recording of these channels with nothing in it. G1 where the limit is outside 256 to 524,288, then G2 where
    /// memory is refused; each hands the sink back, which took nothing.
    pub fn make(
        alloc: Global,
        version: u8,
        limit: u32,
        channels: &[u16],
        sink: S,
    ) -> Result<Recorder<S>, (BuilderError, S)>
        requires countable { S.failures sink < 2 ^ 64 - 1 }
        ensures writing { IfOk result
            (λ r. r.writing ≡ record { sink = sink; taken = 0; failed = false; finished = false }) }
        ensures begun { IfOk result
            (λ r. IsRecordingOf S.taken (record { version = version; limit = limit }) []
            (S.taken sink) channels.now [] r) }
        ensures in_range { OnOk result (IsLimit limit) }
        ensures limit { IfErr result (λ e. (e.0 ≡ BuilderError.Limit) ↔ (¬ IsLimit limit)) }
        ensures back { IfErr result (λ e. e.1 ≡ sink) }
    {
        if !(256..=524_288).contains(&limit) {
            return Err((BuilderError::Limit, sink));
        }
        match open_channels(alloc, version, limit, channels) {
            Ok(opened) => Ok(Recorder {
                channels: opened,
                writer: PacketWriter::make(sink),
            }),
            Err(_) => Err((BuilderError::Memory, sink)),
        }
    }

    /// Takes the next record of the channel at an index in, and writes the packet that it closes. False, and nothing
    /// done, where there is no such channel, the number isn't above that of the channel's record before, or the stamp
    /// isn't below 2^48.
    pub fn keep(&mut self, index: usize, number: u64, message: &Record) -> bool
        requires unfinished { self.old.writing.finished ≡ false }
        requires few { self.old.writing.taken + 524288 < 2 ^ 64 }
        ensures goes_on { IsTrue result
            → GoesOn S.taken index (λ channel. item.Message channel number message.now) self.old self.new }
        ensures refused { IsFalse result → self.new ≡ self.old }
        ensures when { (h : Held) → slice_get self.old.held index ≡ Some h → latest_number h < number
            → message.now.stamp < 2 ^ 48 → result ≡ true }
        ensures unfinished { self.new.writing.finished ≡ false }
        ensures few { self.new.writing.taken ≤ self.old.writing.taken + 524288 }
        ensures failures { S.failures self.new.writing.sink ≡ (if self.old.writing.failed || not self.new.writing.failed
            then S.failures self.old.writing.sink else S.failures self.old.writing.sink + 1) }
    {
        if index >= self.channels.len() {
            return false;
        }
        packet_is_read_again();
        let channel = &mut self.channels[index];
        channel.keep(&mut self.writer, number, message)
    }

    /// Ends the channel at an index: writes its open packet, where there is a record in it. False, and nothing done,
    /// where there is no such channel.
    pub fn end(&mut self, index: usize) -> bool
        requires unfinished { self.old.writing.finished ≡ false }
        requires few { self.old.writing.taken + 524288 < 2 ^ 64 }
        ensures goes_on { IsTrue result → GoesOn S.taken index (λ channel. item.End channel) self.old self.new }
        ensures refused { IsFalse result → self.new ≡ self.old }
        ensures when { index < length self.old.held → result ≡ true }
        ensures unfinished { self.new.writing.finished ≡ false }
        ensures few { self.new.writing.taken ≤ self.old.writing.taken + 524288 }
        ensures failures { S.failures self.new.writing.sink ≡ (if self.old.writing.failed || not self.new.writing.failed
            then S.failures self.old.writing.sink else S.failures self.old.writing.sink + 1) }
    {
        if index >= self.channels.len() {
            return false;
        }
        packet_is_read_again();
        let channel = &mut self.channels[index];
        channel.end(&mut self.writer);
        true
    }

    /// Writes the packets that stand before all others, as they are. It comes before any record.
    pub fn prologue(&mut self, bytes: &[u8])
        requires unfinished { self.old.writing.finished ≡ false }
        requires few { self.old.writing.taken + length bytes.now < 2 ^ 64 }
        ensures begun { (f : Format) (before : Option (List ℕ)) (channels : List ℕ)
            → IsRecordingOf S.taken f [] before channels [] self.old
            → IsRecordingOf S.taken f bytes.now before channels [] self.new }
        ensures unfinished { self.new.writing.finished ≡ false }
        ensures few { self.new.writing.taken ≤ self.old.writing.taken + length bytes.now }
        ensures failures { S.failures self.new.writing.sink ≡ (if self.old.writing.failed || not self.new.writing.failed
            then S.failures self.old.writing.sink else S.failures self.old.writing.sink + 1) }
    {
        self.writer.prologue(bytes);
    }

    /// Tells the sink that the recording is whole. V1 where the sink fails now or failed before, with the count of
    /// bytes that it took. After a success only `into_sink` follows.
    pub fn finish(&mut self) -> Result<(), WriteFault>
        requires unfinished { self.old.writing.finished ≡ false }
        ensures ok { IsOk result ↔ (self.new.writing.failed ≡ false) }
        ensures fault { IfErr result (λ e. e.taken ≡ self.new.writing.taken) }
        ensures same { (f : Format) (prologue : List ℕ) (before : Option (List ℕ)) (channels : List ℕ)
            (items : List Item)
            → IsRecordingOf S.taken f prologue before channels items self.old
            → IsRecordingOf S.taken f prologue before channels items self.new }
        ensures failures { S.failures self.new.writing.sink ≡ (if self.old.writing.failed || is_ok result
            then S.failures self.old.writing.sink else S.failures self.old.writing.sink + 1) }
        ensures told { OnOk result (S.finished self.new.writing.sink ≡ true) }
    {
        self.writer.finish()
    }

    /// How many packets the sink took whole. Those of the prologue are not counted, nor is a packet that was cut short.
    pub fn packets(&self) -> u64
        ensures { result ≡ self.now.packets }
    {
        self.writer.packets()
    }

    /// The sink as it stands.
    pub fn into_sink(self) -> S
        ensures { result ≡ self.writing.sink }
    {
        let Recorder {
            channels: _,
            writer,
        } = self;
        writer.into_sink()
    }
}
