//! A recording as rows.
ghost use Rattle.bench_export.specs.Between.{IsBetween, Writes};
ghost use Rattle.bench_export.specs.Choosing as choosing;
ghost use Rattle.bench_export.specs.Streaming.{Exports};
ghost use Rattle.bench_export.specs.Tables as tables;
ghost use Rattle.bench_export.specs.Tables.{export_text, packets_text, rows_text};
ghost use Rattle.csv.specs.Writing as writing;
ghost use Rattle.ch11_layout.specs.Stamps.{kind_of};
ghost use Rattle.std.specs.Io.KnownBytes.{Appends};
ghost use Rattle.std.specs.Prelude.{◌≡◌, ◌+◌, ◌<◌, ◌^◌, ◌||◌, ℕ, List, length, Some, IfOk, OnOk};

use crate::choosing::selects_among;
use crate::fault::ExportFault;
use crate::messages::{Room, write_messages, write_row};
use crate::names::names_of;
use crate::table::Table;
use bench_clock::Clock;
use ch11_reader::Packet;
use ch11_stream::{Advance, Packets, StreamFault};
use csv::Writer;
use std::alloc::Global;
use std::io::Write;
use text_lines::WriteFault;

/// What was exported of what a reader has left.
#[derive(Drop)]
pub struct Exported<W: Write> {
    /// The writer, flushed.
    pub out: W,
    /// Whether any message was selected, and so has a row.
    pub selected: bool,
}

/// Writes a recording as comma-separated values: a row with the names of the columns, and then one row a selected
/// message, in the file's order, numbered from 1 over all channels; of all bytes that a reader has left, as their
/// packets come, in memory for the largest packet of messages or of time. A recording that can't be read is refused
/// with its first fault, K1 to K5, N2 or F1 to F3, and then the writer may have got rows of packets in front of it. The
/// time of day is that of the clock at the stamp, empty where it tells none. The writer is handed back, flushed.
pub fn export<R: Advance + Drop, W: Write + Drop>(
    alloc: Global,
    input: R,
    table: &Table,
    clock: &Clock,
    out: W,
) -> Result<Exported<W>, ExportFault>
    ensures { (file : List ℕ) → R.remaining input ≡ Some file
        → Exports (λ ps exported.
        Appends (W.contents out) (W.contents exported.out) (export_text table.now clock.now ps)
        × (exported.selected ≡ choosing.selects_any table.now.selection ps)) result file }
{
    let mut writer = Writer::from_writer(out);
    write_names(alloc, &mut writer, table)?;
    let selected = write_packets(alloc, input, &mut writer, table, clock)?;
    match writer.into_inner() {
        Ok(out) => Ok(Exported { out, selected }),
        Err(_) => Err(ExportFault::Writing(WriteFault::Device)),
    }
}

/// Writes the row of names.
fn write_names<W: Write + Drop>(
    alloc: Global,
    writer: &mut Writer<W>,
    table: &Table,
) -> Result<(), WriteFault>
    requires { IsBetween writer.old }
    ensures between { OnOk result (IsBetween writer.new) }
    ensures written { OnOk result (Writes W.contents writer.old writer.new
        (writing.row_text writing.default_writer (tables.names_of table.now))) }
{
    let names = names_of(alloc, table)?;
    write_row(writer, &names)
}

/// Writes the rows of all packets; answers whether any message was selected.
fn write_packets<R: Advance + Drop, W: Write + Drop>(
    alloc: Global,
    input: R,
    writer: &mut Writer<W>,
    table: &Table,
    clock: &Clock,
) -> Result<bool, ExportFault>
    requires { IsBetween writer.old }
    ensures { (file : List ℕ) → R.remaining input ≡ Some file
        → Exports (λ ps selected.
        Writes W.contents writer.old writer.new (packets_text table.now clock.now 0 ps)
        × (selected ≡ choosing.selects_any table.now.selection ps)) result file }
{
    let Ok(mut packets) = Packets::over(alloc, input) else {
        return Err(ExportFault::Reading(StreamFault::Memory));
    };
    let mut room = Room::new(alloc);
    let mut selected = false;
    'packets: for _made in 0..u64::MAX {
        match packets.next() {
            Ok(Some(packet)) => {
                selected = write_packet(
                    writer, &mut room, table, clock, &packets, &packet, selected,
                )?;
            }
            Ok(None) => return Ok(selected),
            Err(fault) => return Err(ExportFault::Reading(fault)),
        }
    }
    Err(ExportFault::Reading(StreamFault::Device))
}

/// Writes the rows of the selected messages of the packet that was read last; answers whether any message was selected
/// before or is now.
fn write_packet<R: Advance, W: Write + Drop>(
    writer: &mut Writer<W>,
    room: &mut Room,
    table: &Table,
    clock: &Clock,
    packets: &Packets<R>,
    packet: &Packet,
    selected: bool,
) -> Result<bool, WriteFault>
    requires few { packet.now.before + length packets.now.given < 2 ^ 64 }
    requires between { IsBetween writer.old }
    ensures between { OnOk result (IsBetween writer.new) }
    ensures written { OnOk result (Writes W.contents writer.old writer.new
        (rows_text table.now clock.now
        (kind_of packet.now.header) packet.now.before packet.now.header.channel packets.now.given)) }
    ensures selected { IfOk result (λ any. any ≡ (selected || choosing.selects_among table.now.selection
        (kind_of packet.now.header) packet.now.before packet.now.header.channel packets.now.given)) }
{
    write_messages(writer, room, table, clock, packet, packets.messages())?;
    Ok(selected || selects_among(&table.selection, packet, packets.messages()))
}
