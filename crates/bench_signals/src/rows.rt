//! The rows of messages.
ghost use Rattle.bench_export.specs.Between.{IsBetween, Writes};
ghost use Rattle.bench_export.specs.Frames.{frame_row};
ghost use Rattle.bench_select.specs.Viewed.{Viewed};
ghost use Rattle.bench_signals.specs.Latest.{AreKept, IsPassed, kept_at};
ghost use Rattle.bench_signals.specs.Sheets as spec;
ghost use Rattle.bench_signals.specs.Values.{shown_if, text_in};
ghost use Rattle.std.specs.Prelude.{◌≡◌, ◌+◌, ◌++◌, ◌∷◌, [], true, if◌then◌else◌, is_some, ℕ, List, Some, None};
ghost use Rattle.std.specs.Prelude.{length, IfOk, OnOk};

use crate::latest::Latest;
use crate::sheet::{Rows, Sheet};
use bench_clock::Clock;
use bench_export::{Columns, Place, Row, push_columns, push_stamped, write_row};
use bench_select::value_in;
use ch11_layout::View;
use csv::Writer;
use signal_dictionary::Signal;
use signal_values::put_reading;
use std::alloc::{AllocError, Global};
use std::io::Write;
use text_lines::WriteFault;

/// Room for a row, for a field and for a value, and the latest values.
#[derive(Drop)]
pub(crate) struct Room {
    row: Row,
    text: Vec<u8>,
    value: Vec<u8>,
    latest: Latest,
}

/// A signal with its place in the dictionary.
#[derive(Clone, Copy)]
struct Indexed<'s> {
    index: usize,
    signal: &'s Signal,
}

/// Whether words have 0x in front of them.
fn is_prefixed(columns: Columns) -> bool
    ensures { result ≡ spec.is_prefixed columns }
{
    matches!(columns, Columns::Frames { prefixed: true })
}

impl Room {
    /// Room with nothing in it; it takes memory with the first row.
    pub(crate) fn new(alloc: Global) -> Room
        ensures { (signal channel : ℕ) → kept_at result.latest signal channel ≡ None }
    {
        Room {
            row: Row::new(alloc),
            text: Vec::new(alloc),
            value: Vec::new(alloc),
            latest: Latest::new(alloc),
        }
    }

    /// Begins a row with the columns that say which message it is and when it was.
    fn begin(
        &mut self,
        sheet: &Sheet<'_>,
        clock: &Clock,
        place: Place,
        view: &View<'_>,
    ) -> Result<(), AllocError>
        ensures row { OnOk result (self.new.row ≡ spec.front sheet.now clock.now place.number place.channel view.now) }
        ensures value { self.new.value ≡ self.old.value }
        ensures latest { self.new.latest ≡ self.old.latest }
    {
        let (row, text) = (&mut self.row, &mut self.text);
        row.clear();
        push_stamped(row, text, &sheet.table, clock, place, view)
    }

    /// Reads the value of a signal in a message of a channel; answers whether the message has the signal.
    fn read(&mut self, signal: &Signal, channel: u16, view: &View<'_>) -> Result<bool, AllocError>
        ensures value { IfOk result (λ there. (if there then Some self.new.value.items else None)
            ≡ text_in signal.now channel view.now) }
        ensures row { self.new.row ≡ self.old.row }
        ensures latest { self.new.latest ≡ self.old.latest }
    {
        let Some(reading) = value_in(signal, channel, view) else {
            return Ok(false);
        };
        self.value.clear();
        put_reading(&mut self.value, &signal.kind, reading)?;
        Ok(true)
    }

    /// Takes the value of a signal in a message of a channel; answers whether it is there and is not left out.
    fn take(
        &mut self,
        sheet: &Sheet<'_>,
        of: Indexed<'_>,
        channel: u16,
        view: &View<'_>,
    ) -> Result<bool, AllocError>
        ensures value { IfOk result (λ there. (if there then Some self.new.value.items else None)
            ≡ shown_if sheet.now.changes (text_in of.entry.signal.now channel view.now)
            (kept_at self.old.latest of.entry.index channel)) }
        ensures row { self.new.row ≡ self.old.row }
        ensures latest { OnOk result (sheet.now.changes ≡ true
            → IsPassed of.entry.index channel (text_in of.entry.signal.now channel view.now)
            self.old.latest self.new.latest) }
    {
        let there = self.read(of.signal, channel, view)?;
        if !there {
            return Ok(false);
        }
        if sheet.changes {
            self.latest.note(of.index, channel, self.value.as_slice())
        } else {
            Ok(true)
        }
    }

    /// The columns of the value that was taken last.
    fn push_value(&mut self, signal: &Signal) -> Result<(), AllocError>
        ensures row { OnOk result (self.new.row ≡ self.old.row
            ++ signal.now.name.bytes.items ∷ self.old.value.items ∷ signal.now.unit.bytes.items ∷ []) }
        ensures latest { self.new.latest ≡ self.old.latest }
    {
        self.row.push(signal.name.bytes.as_slice())?;
        self.row.push(self.value.as_slice())?;
        self.row.push(signal.unit.bytes.as_slice())
    }

    /// A cell for each signal behind those that say which message it is; answers whether a value stands there.
    fn push_cells(
        &mut self,
        sheet: &Sheet<'_>,
        channel: u16,
        view: &View<'_>,
    ) -> Result<bool, AllocError>
        ensures row { (history : List Viewed) → AreKept sheet.now history self.old.latest
            → OnOk result (self.new.row
            ≡ self.old.row ++ spec.cells sheet.now history (channel, view.now) sheet.now.signals.now) }
        ensures any { (history : List Viewed) → AreKept sheet.now history self.old.latest
            → IfOk result (λ any. any
            ≡ spec.shows_any sheet.now history (channel, view.now) sheet.now.signals.now) }
        ensures latest { (history : List Viewed) → AreKept sheet.now history self.old.latest
            → spec.is_selected sheet.now history (channel, view.now) ≡ true
            → OnOk result (AreKept sheet.now ((channel, view.now) ∷ history) self.new.latest) }
    {
        let mut any = false;
        let signals = sheet.signals;
        'signals: for index in 0..signals.len() {
            let of = Indexed {
                index,
                signal: &signals[index],
            };
            let there = self.push_cell(sheet, of, channel, view)?;
            any = there || any;
        }
        Ok(any)
    }

    /// The cell of a signal, empty where it has no value; answers whether there is one.
    fn push_cell(
        &mut self,
        sheet: &Sheet<'_>,
        of: Indexed<'_>,
        channel: u16,
        view: &View<'_>,
    ) -> Result<bool, AllocError>
        ensures row { OnOk result (self.new.row ≡ self.old.row
            ++ spec.cell_of (shown_if sheet.now.changes (text_in of.entry.signal.now channel view.now)
            (kept_at self.old.latest of.entry.index channel)) ∷ []) }
        ensures any { IfOk result (λ there. there ≡ is_some (shown_if sheet.now.changes
            (text_in of.entry.signal.now channel view.now)
            (kept_at self.old.latest of.entry.index channel))) }
        ensures latest { OnOk result (sheet.now.changes ≡ true
            → IsPassed of.entry.index channel (text_in of.entry.signal.now channel view.now)
            self.old.latest self.new.latest) }
    {
        let there = self.take(sheet, of, channel, view)?;
        if there {
            self.row.push(self.value.as_slice())?;
        } else {
            self.row.push(b"")?;
        }
        Ok(there)
    }

    /// Writes the row of a value, if the message has it and it is not left out.
    fn write_value<W: Write + Drop>(
        &mut self,
        writer: &mut Writer<W>,
        sheet: &Sheet<'_>,
        clock: &Clock,
        of: Indexed<'_>,
        place: Place,
        view: &View<'_>,
    ) -> Result<(), WriteFault>
        requires { IsBetween writer.old }
        ensures between { OnOk result (IsBetween writer.new) }
        ensures written { OnOk result (Writes W.contents writer.old writer.new
            (spec.value_row sheet.now clock.now place.number place.channel view.now of.entry.signal.now
            (shown_if sheet.now.changes (text_in of.entry.signal.now place.channel view.now)
            (kept_at self.old.latest of.entry.index place.channel)))) }
        ensures latest { OnOk result (sheet.now.changes ≡ true
            → IsPassed of.entry.index place.channel (text_in of.entry.signal.now place.channel view.now)
            self.old.latest self.new.latest) }
    {
        let there = self.take(sheet, of, place.channel, view)?;
        if there {
            self.write_told(writer, sheet, clock, of.signal, place, view)
        } else {
            Ok(())
        }
    }

    /// Writes the row of the value that was taken last.
    fn write_told<W: Write + Drop>(
        &mut self,
        writer: &mut Writer<W>,
        sheet: &Sheet<'_>,
        clock: &Clock,
        signal: &Signal,
        place: Place,
        view: &View<'_>,
    ) -> Result<(), WriteFault>
        requires { IsBetween writer.old }
        ensures between { OnOk result (IsBetween writer.new) }
        ensures written { OnOk result (Writes W.contents writer.old writer.new
            (spec.value_row sheet.now clock.now place.number place.channel view.now signal.now
            (Some self.old.value.items))) }
        ensures latest { self.new.latest ≡ self.old.latest }
    {
        self.begin(sheet, clock, place, view)?;
        self.push_value(signal)?;
        write_row(writer, &self.row)
    }

    /// Writes a row for each value of a message.
    fn write_values<W: Write + Drop>(
        &mut self,
        writer: &mut Writer<W>,
        sheet: &Sheet<'_>,
        clock: &Clock,
        place: Place,
        view: &View<'_>,
    ) -> Result<(), WriteFault>
        requires { IsBetween writer.old }
        ensures between { OnOk result (IsBetween writer.new) }
        ensures written { (history : List Viewed) → AreKept sheet.now history self.old.latest
            → place.number ≡ length history + 1 → OnOk result (Writes W.contents writer.old writer.new
            (spec.values_text sheet.now clock.now history (place.channel, view.now) sheet.now.signals.now)) }
        ensures latest { (history : List Viewed) → AreKept sheet.now history self.old.latest
            → spec.is_selected sheet.now history (place.channel, view.now) ≡ true
            → OnOk result (AreKept sheet.now ((place.channel, view.now) ∷ history) self.new.latest) }
    {
        let signals = sheet.signals;
        'signals: for index in 0..signals.len() {
            let of = Indexed {
                index,
                signal: &signals[index],
            };
            self.write_value(writer, sheet, clock, of, place, view)?;
        }
        Ok(())
    }

    /// Writes the row of a message, if it has a value that is not left out.
    fn write_message<W: Write + Drop>(
        &mut self,
        writer: &mut Writer<W>,
        sheet: &Sheet<'_>,
        clock: &Clock,
        place: Place,
        view: &View<'_>,
    ) -> Result<(), WriteFault>
        requires { IsBetween writer.old }
        ensures between { OnOk result (IsBetween writer.new) }
        ensures written { (history : List Viewed) → AreKept sheet.now history self.old.latest
            → place.number ≡ length history + 1 → OnOk result (Writes W.contents writer.old writer.new
            (spec.any_text sheet.now clock.now history (place.channel, view.now))) }
        ensures latest { (history : List Viewed) → AreKept sheet.now history self.old.latest
            → spec.is_selected sheet.now history (place.channel, view.now) ≡ true
            → OnOk result (AreKept sheet.now ((place.channel, view.now) ∷ history) self.new.latest) }
    {
        self.begin(sheet, clock, place, view)?;
        let any = self.push_cells(sheet, place.channel, view)?;
        if any {
            write_row(writer, &self.row)
        } else {
            Ok(())
        }
    }

    /// Writes the row of a message with the columns of data frames.
    fn write_frame<W: Write + Drop>(
        &mut self,
        writer: &mut Writer<W>,
        sheet: &Sheet<'_>,
        clock: &Clock,
        place: Place,
        view: &View<'_>,
    ) -> Result<(), WriteFault>
        requires { IsBetween writer.old }
        ensures between { OnOk result (IsBetween writer.new) }
        ensures written { (history : List Viewed) → AreKept sheet.now history self.old.latest
            → place.number ≡ length history + 1 → OnOk result (Writes W.contents writer.old writer.new
            (spec.frame_text sheet.now clock.now history (place.channel, view.now))) }
        ensures latest { (history : List Viewed) → AreKept sheet.now history self.old.latest
            → spec.is_selected sheet.now history (place.channel, view.now) ≡ true
            → OnOk result (AreKept sheet.now ((place.channel, view.now) ∷ history) self.new.latest) }
    {
        self.begin(sheet, clock, place, view)?;
        self.push_frame(is_prefixed(sheet.table.columns), view)?;
        // A frame has its row whether it has a value or not.
        let _any = self.push_cells(sheet, place.channel, view)?;
        write_row(writer, &self.row)
    }

    /// The columns of data frames.
    fn push_frame(&mut self, prefixed: bool, view: &View<'_>) -> Result<(), AllocError>
        ensures row { OnOk result (self.new.row ≡ self.old.row ++ frame_row prefixed view.now) }
        ensures latest { self.new.latest ≡ self.old.latest }
    {
        push_columns(&mut self.row, &mut self.text, prefixed, view)
    }

    /// Writes what a selected message has of the signals.
    fn write_rows<W: Write + Drop>(
        &mut self,
        writer: &mut Writer<W>,
        sheet: &Sheet<'_>,
        clock: &Clock,
        place: Place,
        view: &View<'_>,
    ) -> Result<(), WriteFault>
        requires { IsBetween writer.old }
        ensures between { OnOk result (IsBetween writer.new) }
        ensures written { (history : List Viewed) → AreKept sheet.now history self.old.latest
            → place.number ≡ length history + 1 → OnOk result (Writes W.contents writer.old writer.new
            (spec.rows_by sheet.now.rows sheet.now clock.now history (place.channel, view.now))) }
        ensures latest { (history : List Viewed) → AreKept sheet.now history self.old.latest
            → spec.is_selected sheet.now history (place.channel, view.now) ≡ true
            → OnOk result (AreKept sheet.now ((place.channel, view.now) ∷ history) self.new.latest) }
    {
        match sheet.rows {
            Rows::Values => self.write_values(writer, sheet, clock, place, view),
            Rows::Messages => self.write_message(writer, sheet, clock, place, view),
            Rows::Frames => self.write_frame(writer, sheet, clock, place, view),
        }
    }

    /// Writes what a message has of the signals, if it is selected.
    pub(crate) fn write<W: Write + Drop>(
        &mut self,
        writer: &mut Writer<W>,
        sheet: &Sheet<'_>,
        clock: &Clock,
        place: Place,
        view: &View<'_>,
    ) -> Result<(), WriteFault>
        requires { IsBetween writer.old }
        ensures between { OnOk result (IsBetween writer.new) }
        ensures written { (history : List Viewed) → AreKept sheet.now history self.old.latest
            → place.number ≡ length history + 1 → OnOk result (Writes W.contents writer.old writer.new
            (spec.rows_if sheet.now clock.now history (place.channel, view.now))) }
        ensures latest { (history : List Viewed) → AreKept sheet.now history self.old.latest
            → place.number ≡ length history + 1
            → OnOk result (AreKept sheet.now ((place.channel, view.now) ∷ history) self.new.latest) }
    {
        let selection = &sheet.table.selection;
        let chosen = selection.selects(place.number, place.channel, view);
        if chosen {
            self.write_rows(writer, sheet, clock, place, view)
        } else {
            Ok(())
        }
    }
}
