//! The signals of a recording as rows.
ghost use Rattle.bench_export.specs.Between.{IsBetween, Writes};
ghost use Rattle.bench_export.specs.Choosing as choosing;
ghost use Rattle.bench_export.specs.Streaming.{Exports};
ghost use Rattle.bench_select.specs.Viewed.{Viewed, viewed_behind, viewed_in};
ghost use Rattle.bench_signals.specs.Latest.{AreWritten};
ghost use Rattle.bench_signals.specs.Sheets as spec;
ghost use Rattle.ch11_layout.specs.Stamps.{kind_of};
ghost use Rattle.csv.specs.Writing as writing;
ghost use Rattle.csv.specs.Writing.{text_written};
ghost use Rattle.std.specs.Io.KnownBytes.{Appends};
ghost use Rattle.std.specs.Prelude.{◌≡◌, ◌+◌, ◌<◌, ◌^◌, ◌||◌, ℕ, List, Option, Some, length, reverse, IfOk, OnOk};

use crate::names::names_of;
use crate::rows::Room;
use crate::sheet::Sheet;
use bench_clock::Clock;
use bench_export::{ExportFault, Exported, Place, selects_among, write_row};
use ch11_f1::Messages;
use ch11_layout::{StampKind, View};
use ch11_reader::Packet;
use ch11_stream::{Advance, Packets, StreamFault};
use csv::Writer;
use std::alloc::Global;
use std::io::Write;
use text_lines::WriteFault;

/// Writes the signals of a recording as comma-separated values: a row with the names of the columns, and then, in the
/// order of the file, a row for each value of a selected message, or a row a message. The recording is read as its
/// packets come, in memory for the largest packet of messages or of time, and where changes alone are asked for for a
/// value of each signal in each channel; one that can't be read is refused with its first fault, K1 to K5, N2 or F1 to
/// F3, and the writer may have got rows in front of it. The writer is handed back, flushed.
pub fn export_signals<R: Advance + Drop, W: Write + Drop>(
    alloc: Global,
    input: R,
    sheet: &Sheet<'_>,
    clock: &Clock,
    out: W,
) -> Result<Exported<W>, ExportFault>
    ensures { (file : List ℕ) → R.remaining input ≡ Some file
        → Exports (λ ps exported.
        Appends (W.contents out) (W.contents exported.out) (spec.signals_text sheet.now clock.now ps)
        × (exported.selected ≡ choosing.selects_any sheet.now.table.selection ps)) result file }
{
    let mut writer = Writer::from_writer(out);
    write_names(alloc, &mut writer, sheet)?;
    let selected = write_packets(alloc, input, &mut writer, sheet, clock)?;
    match writer.into_inner() {
        Ok(out) => Ok(Exported { out, selected }),
        Err(_) => Err(ExportFault::Writing(WriteFault::Device)),
    }
}

/// Writes the row of names.
fn write_names<W: Write + Drop>(
    alloc: Global,
    writer: &mut Writer<W>,
    sheet: &Sheet<'_>,
) -> Result<(), WriteFault>
    requires { IsBetween writer.old }
    ensures between { OnOk result (IsBetween writer.new) }
    ensures written { OnOk result (Writes W.contents writer.old writer.new
        (writing.row_text writing.default_writer (spec.names_of sheet.now))) }
{
    let names = names_of(alloc, sheet)?;
    write_row(writer, &names)
}

/// Writes the rows of all packets; answers whether any message was selected.
fn write_packets<R: Advance + Drop, W: Write + Drop>(
    alloc: Global,
    input: R,
    writer: &mut Writer<W>,
    sheet: &Sheet<'_>,
    clock: &Clock,
) -> Result<bool, ExportFault>
    requires { IsBetween writer.old }
    ensures { (file : List ℕ) → R.remaining input ≡ Some file
        → Exports (λ ps selected.
        Writes W.contents writer.old writer.new (spec.rows_of sheet.now clock.now (reverse (viewed_in ps)))
        × (selected ≡ choosing.selects_any sheet.now.table.selection ps)) result file }
{
    let Ok(mut packets) = Packets::over(alloc, input) else {
        return Err(ExportFault::Reading(StreamFault::Memory));
    };
    let mut room = Room::new(alloc);
    let mut selected = false;
    'packets: for _made in 0..u64::MAX {
        match packets.next() {
            Ok(Some(packet)) => {
                selected = write_packet(
                    writer, &mut room, sheet, clock, &packets, &packet, selected,
                )?;
            }
            Ok(None) => return Ok(selected),
            Err(fault) => return Err(ExportFault::Reading(fault)),
        }
    }
    Err(ExportFault::Reading(StreamFault::Device))
}

/// Writes the rows of the selected messages of the packet that was read last; answers whether any message was selected
/// before or is now.
fn write_packet<R: Advance, W: Write + Drop>(
    writer: &mut Writer<W>,
    room: &mut Room,
    sheet: &Sheet<'_>,
    clock: &Clock,
    packets: &Packets<R>,
    packet: &Packet,
    selected: bool,
) -> Result<bool, WriteFault>
    requires few { packet.now.before + length packets.now.given < 2 ^ 64 }
    requires between { IsBetween writer.old }
    ensures between { OnOk result (IsBetween writer.new) }
    ensures written { (history : List Viewed) → (got : Option (List ℕ))
        → AreWritten sheet.now clock.now got history (text_written W.contents writer.old) room.old.latest
        → packet.now.before ≡ length history
        → OnOk result (AreWritten sheet.now clock.now got
        (viewed_behind (kind_of packet.now.header) packet.now.header.channel packets.now.given history)
        (text_written W.contents writer.new) room.new.latest) }
    ensures selected { IfOk result (λ any. any ≡ (selected || choosing.selects_among sheet.now.table.selection
        (kind_of packet.now.header) packet.now.before packet.now.header.channel packets.now.given)) }
{
    write_messages(writer, room, sheet, clock, packet, packets.messages())?;
    Ok(selected || selects_among(&sheet.table.selection, packet, packets.messages()))
}

/// Writes the rows of a packet's selected messages.
fn write_messages<W: Write + Drop>(
    writer: &mut Writer<W>,
    room: &mut Room,
    sheet: &Sheet<'_>,
    clock: &Clock,
    packet: &Packet,
    messages: Messages<'_>,
) -> Result<(), WriteFault>
    requires few { packet.now.before + length messages < 2 ^ 64 }
    requires between { IsBetween writer.old }
    ensures between { OnOk result (IsBetween writer.new) }
    ensures written { (history : List Viewed) → (got : Option (List ℕ))
        → AreWritten sheet.now clock.now got history (text_written W.contents writer.old) room.old.latest
        → packet.now.before ≡ length history
        → OnOk result (AreWritten sheet.now clock.now got
        (viewed_behind (kind_of packet.now.header) packet.now.header.channel messages.entry history)
        (text_written W.contents writer.new) room.new.latest) }
{
    let channel = packet.header.channel;
    let kind = StampKind::of(&packet.header);
    let mut number = packet.before;
    let mut rest = messages;
    'messages: while let Some(seen) = rest.next() {
        number += 1;
        let place = Place { number, channel };
        room.write(writer, sheet, clock, place, &View::of(kind, &seen))?;
    }
    Ok(())
}
