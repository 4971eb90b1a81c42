//! Packets on their way into a sink.
ghost use Rattle.ch11_recording.specs.Counting.{Counts, WritesOn};
ghost use Rattle.ch11_writer.specs.Writing.{IsWritten, Puts, PutsNone, progress_of};
ghost use Rattle.std.specs.Prelude.{if◌then◌else◌, IfErr, IsOk, OnOk};
ghost use Rattle.std.specs.Prelude.{◌≡◌, ◌<◌, ◌^◌, ◌+◌, ◌-◌, ◌↔◌, ◌||◌, [], ◌∷◌, true, false, length, is_ok};

use ch11_writer::{Sink, WriteFault, Writer};
use std::marker::Model;

/// Writes packets into a sink, and counts those that the sink took whole.
#[derive(Drop)]
pub(crate) struct PacketWriter<S: Sink> {
    writer: Writer<S>,
    packets: u64,
}

impl<S: Sink> Model for PacketWriter<S> {
    ghost use Rattle.ch11_recording.specs.Counting.{Counting};
    ghost use Rattle.std.specs.Prelude.{◌≤◌};

    ghost Value = { Counting S };

    ghost view = { λ w. record { writing = w.writer; packets = w.packets } };

    // No packet is empty.
    ghost invariant = { λ w. w.packets ≤ w.writer.taken };
}

impl<S: Sink> PacketWriter<S> {
    /// A writer that has written nothing.
    pub(crate) fn make(sink: S) -> PacketWriter<S>
        requires countable { S.failures sink < 2 ^ 64 - 1 }
        ensures made { result ≡ record
            { writing = record { sink = sink; taken = 0; failed = false; finished = false }; packets = 0 } }
        ensures written { IsWritten [] (S.taken sink) (progress_of S.taken result.writing) }
    {
        PacketWriter {
            writer: Writer::make(sink),
            packets: 0,
        }
    }

    /// Writes what stands in front of the packets. None of it is counted.
    pub(crate) fn prologue(&mut self, bytes: &[u8])
        requires unfinished { self.old.writing.finished ≡ false }
        requires few { self.old.writing.taken + length bytes.now < 2 ^ 64 }
        ensures packets { self.new.packets ≡ self.old.packets }
        ensures written { Puts bytes.now (progress_of S.taken self.old.writing) (progress_of S.taken self.new.writing) }
        ensures writes { WritesOn S.failures (length bytes.now) self.old.writing self.new.writing }
    {
        // A writer keeps its fault, and tells it at the end.
        let _ = self.writer.prologue(bytes);
    }

    /// Writes a packet, and counts it where the sink took all of it.
    pub(crate) fn put(&mut self, packet: &[u8])
        requires some { 0 < length packet.now }
        requires unfinished { self.old.writing.finished ≡ false }
        requires few { self.old.writing.taken + length packet.now < 2 ^ 64 }
        ensures counted { Counts (packet.now ∷ []) self.old self.new }
        ensures written { Puts packet.now (progress_of S.taken self.old.writing)
            (progress_of S.taken self.new.writing) }
        ensures writes { WritesOn S.failures (length packet.now) self.old.writing self.new.writing }
    {
        if self.writer.put(packet).is_ok() {
            self.packets += 1;
        }
    }

    /// Tells the sink that no byte follows. V1 where the sink fails now or failed before.
    pub(crate) fn finish(&mut self) -> Result<(), WriteFault>
        requires unfinished { self.old.writing.finished ≡ false }
        ensures ok { IsOk result ↔ (self.new.writing.failed ≡ false) }
        ensures fault { IfErr result (λ e. e.taken ≡ self.new.writing.taken) }
        ensures count { self.new.writing.taken ≡ self.old.writing.taken }
        ensures packets { self.new.packets ≡ self.old.packets }
        ensures written { PutsNone (progress_of S.taken self.old.writing) (progress_of S.taken self.new.writing) }
        ensures failures { S.failures self.new.writing.sink ≡ (if self.old.writing.failed || is_ok result
            then S.failures self.old.writing.sink else S.failures self.old.writing.sink + 1) }
        ensures told { OnOk result (S.finished self.new.writing.sink ≡ true) }
    {
        self.writer.finish()
    }

    /// How many packets the sink took whole.
    pub(crate) fn packets(&self) -> u64
        ensures { result ≡ self.now.packets }
    {
        self.packets
    }

    /// The sink as it stands.
    pub(crate) fn into_sink(self) -> S
        ensures { result ≡ self.writing.sink }
    {
        let PacketWriter { writer, packets: _ } = self;
        writer.into_sink()
    }
}
