//! One channel of a recording.
ghost use Rattle.ch11_builder.specs.Held.{fresh, pushed, latest_number};
ghost use Rattle.ch11_recording.specs.Counting.{Counts, WritesOn};
ghost use Rattle.ch11_recording.specs.Items.{numbered};
ghost use Rattle.ch11_recording.specs.WrittenFile.{closing, closed_by, met};
ghost use Rattle.ch11_recording.specs.declared.item.Item.TheVariants as item;
ghost use Rattle.ch11_writer.specs.Writing.{Puts, progress_of};
ghost use Rattle.std.specs.Prelude.{IsFalse};
ghost use Rattle.std.specs.Prelude.{◌≡◌, ◌<◌, ◌^◌, ◌+◌, true, false, IfOk, IsTrue};

use crate::packet_writer::PacketWriter;
use ch11_builder::{Builder, BuilderError, Pushed, packet_is_read_again, run_gives_the_packets};
use ch11_f1::Record;
use ch11_writer::Sink;
use std::alloc::Global;
use std::marker::Model;

/// Stamps of a recording are below this many ticks of 0.1 µs (IRIG 106-17 Chapter 11: a counter of 48 bits).
const STAMPS: u64 = 1 << 48;

/// A channel of a recording that is being written: its builder, and the number of the record that it took last, 0
/// before any.
#[derive(Drop)]
pub(crate) struct OpenChannel {
    builder: Builder,
    last: u64,
}

impl Model for OpenChannel {
    ghost use Rattle.ch11_builder.specs.Held.{Held, latest_number};
    ghost use Rattle.std.specs.Prelude.{◌≡◌};

    ghost Value = { Held };

    ghost view = { λ c. c.builder };

    ghost invariant = { λ c. c.last ≡ latest_number c.builder };
}

/// Takes a record into the open packet, and writes the packet that it closes, if it closes one.
fn put<S: Sink>(builder: &mut Builder, writer: &mut PacketWriter<S>, number: u64, message: &Record)
    requires number { latest_number builder.old < number }
    requires stamp { message.now.stamp < 2 ^ 48 }
    requires unfinished { writer.old.writing.finished ≡ false }
    requires few { writer.old.writing.taken + 524288 < 2 ^ 64 }
    ensures held { builder.new ≡ pushed builder.old (numbered number message.now) }
    ensures written { Puts (closing builder.old (item.Message builder.old.channel.channel number message.now))
        (progress_of S.taken writer.old.writing) (progress_of S.taken writer.new.writing) }
    ensures counted { Counts (closed_by builder.old (item.Message builder.old.channel.channel number message.now))
        writer.old writer.new }
    ensures writes { WritesOn S.failures 524288 writer.old.writing writer.new.writing }
{
    packet_is_read_again();
    if let Pushed::Closed(packet) = builder.push(number, message) {
        writer.put(packet);
    }
}

impl OpenChannel {
    /// A channel with no record yet.
    pub(crate) fn make(
        alloc: Global,
        channel: u16,
        version: u8,
        limit: u32,
    ) -> Result<OpenChannel, BuilderError>
        ensures { IfOk result (λ c. c ≡ fresh (record { channel = channel; version = version; limit = limit })) }
    {
        Ok(OpenChannel {
            builder: Builder::make(alloc, channel, version, limit)?,
            last: 0,
        })
    }

    /// Takes a record into the channel's open packet, and writes the packet that it closes, if it closes one. False,
    /// and nothing done, where the number isn't above the last or the stamp isn't below 2^48.
    pub(crate) fn keep<S: Sink>(
        &mut self,
        writer: &mut PacketWriter<S>,
        number: u64,
        message: &Record,
    ) -> bool
        requires unfinished { writer.old.writing.finished ≡ false }
        requires few { writer.old.writing.taken + 524288 < 2 ^ 64 }
        ensures held { IsTrue result
            → self.new ≡ met self.old (item.Message self.old.channel.channel number message.now) }
        ensures written { IsTrue result
            → Puts (closing self.old (item.Message self.old.channel.channel number message.now))
            (progress_of S.taken writer.old.writing) (progress_of S.taken writer.new.writing) }
        ensures counted { IsTrue result
            → Counts (closed_by self.old (item.Message self.old.channel.channel number message.now)) writer.old
            writer.new }
        ensures refused { IsFalse result → self.new ≡ self.old }
        ensures silent { IsFalse result → writer.new ≡ writer.old }
        ensures when { latest_number self.old < number → message.now.stamp < 2 ^ 48 → result ≡ true }
        ensures writes { WritesOn S.failures 524288 writer.old.writing writer.new.writing }
    {
        if number <= self.last || message.stamp >= STAMPS {
            return false;
        }
        run_gives_the_packets();
        self.last = number;
        put(&mut self.builder, writer, number, message);
        true
    }

    /// Writes the channel's open packet, where it has a record.
    pub(crate) fn end<S: Sink>(&mut self, writer: &mut PacketWriter<S>)
        requires unfinished { writer.old.writing.finished ≡ false }
        requires few { writer.old.writing.taken + 524288 < 2 ^ 64 }
        ensures held { self.new ≡ met self.old (item.End self.old.channel.channel) }
        ensures written { Puts (closing self.old (item.End self.old.channel.channel))
            (progress_of S.taken writer.old.writing) (progress_of S.taken writer.new.writing) }
        ensures counted { Counts (closed_by self.old (item.End self.old.channel.channel)) writer.old writer.new }
        ensures writes { WritesOn S.failures 524288 writer.old.writing writer.new.writing }
    {
        packet_is_read_again();
        if let Some(packet) = self.builder.close() {
            writer.put(packet);
        }
    }
}
