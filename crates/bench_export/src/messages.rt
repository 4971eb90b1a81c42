//! Messages as rows.
ghost use Rattle.bench_export.specs.Between.{IsBetween, Writes};
ghost use Rattle.bench_export.specs.Tables.{columns_of, other_columns_of, row_if, rows_text};
ghost use Rattle.ch11_layout.specs.Stamps.{kind_of};
ghost use Rattle.csv.specs.Writing as writing;
ghost use Rattle.std.specs.Prelude.{◌≡◌, ◌+◌, ◌<◌, ◌^◌, ◌++◌, length, OnOk};

use crate::columns::{Columns, push_columns};
use crate::fault::written;
use crate::fields::push_fields;
use crate::place::Place;
use crate::row::Row;
use crate::stamped::push_stamped;
use crate::table::Table;
use bench_clock::Clock;
use ch11_f1::Messages;
use ch11_layout::{StampKind, View};
use ch11_reader::Packet;
use csv::Writer;
use std::alloc::{AllocError, Global};
use std::io::Write;
use text_lines::WriteFault;

/// Room for a row and for a field.
#[derive(Drop)]
pub(crate) struct Room {
    pub(crate) row: Row,
    pub(crate) text: Vec<u8>,
}

impl Room {
    /// Room with nothing in it; it takes memory with the first row.
    pub(crate) fn new(alloc: Global) -> Room {
        Room {
            row: Row::new(alloc),
            text: Vec::new(alloc),
        }
    }

    /// Adds the columns of a message behind its time.
    fn fill_behind(&mut self, columns: Columns, view: &View<'_>) -> Result<(), AllocError>
        ensures { OnOk result (self.new.row ≡ self.old.row ++ other_columns_of columns view.now) }
    {
        match columns {
            Columns::Messages => push_fields(&mut self.row, &mut self.text, view),
            Columns::Frames { prefixed } => {
                push_columns(&mut self.row, &mut self.text, prefixed, view)
            }
        }
    }

    /// The columns of a message.
    fn fill(
        &mut self,
        table: &Table,
        clock: &Clock,
        place: Place,
        view: &View<'_>,
    ) -> Result<(), AllocError>
        ensures { OnOk result (self.new.row
            ≡ columns_of table.now clock.now place.number place.channel view.now) }
    {
        let (row, text) = (&mut self.row, &mut self.text);
        row.clear();
        push_stamped(row, text, table, clock, place, view)?;
        self.fill_behind(table.columns, view)
    }
}

/// Writes a row of fields.
pub fn write_row<W: Write + Drop>(writer: &mut Writer<W>, row: &Row) -> Result<(), WriteFault>
    requires { IsBetween writer.old }
    ensures between { OnOk result (IsBetween writer.new) }
    ensures written { OnOk result (Writes W.contents writer.old writer.new
        (writing.row_text writing.default_writer row.now)) }
{
    match writer.write_byte_record(row.record()) {
        Ok(()) => Ok(()),
        Err(error) => Err(written(&error)),
    }
}

/// Writes the row of a message, if it is selected.
#[tactic(auto, unfolding(crate::specs::Tables::row_if))]
fn write_selected<W: Write + Drop>(
    writer: &mut Writer<W>,
    room: &mut Room,
    table: &Table,
    clock: &Clock,
    place: Place,
    view: &View<'_>,
) -> Result<(), WriteFault>
    requires { IsBetween writer.old }
    ensures between { OnOk result (IsBetween writer.new) }
    ensures written { OnOk result (Writes W.contents writer.old writer.new
        (row_if table.now clock.now place.number place.channel view.now)) }
{
    if !table.selection.selects(place.number, place.channel, view) {
        return Ok(());
    }
    room.fill(table, clock, place, view)?;
    write_row(writer, &room.row)
}

/// Writes the rows of a packet's selected messages.
pub(crate) fn write_messages<W: Write + Drop>(
    writer: &mut Writer<W>,
    room: &mut Room,
    table: &Table,
    clock: &Clock,
    packet: &Packet,
    messages: Messages<'_>,
) -> Result<(), WriteFault>
    requires few { packet.now.before + length messages < 2 ^ 64 }
    requires between { IsBetween writer.old }
    ensures between { OnOk result (IsBetween writer.new) }
    ensures written { OnOk result (Writes W.contents writer.old writer.new
        (rows_text table.now clock.now
        (kind_of packet.now.header) packet.now.before packet.now.header.channel messages.entry)) }
{
    let channel = packet.header.channel;
    let kind = StampKind::of(&packet.header);
    let mut number = packet.before;
    let mut rest = messages;
    'rows: while let Some(seen) = rest.next() {
        number += 1;
        write_selected(
            writer,
            room,
            table,
            clock,
            Place { number, channel },
            &View::of(kind, &seen),
        )?;
    }
    Ok(())
}
