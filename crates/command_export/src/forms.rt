//! What messages of a recording are written as: as rows, as values of signals, or as a value change dump.

use bench_clock::Clock as RecordingClock;
use bench_export::{Columns, ExportFault, Table, export, export_waves, selects_any};
use bench_files::{Hold, Kind};
use bench_select::Selection;
use bench_signals::{Rows, Sheet, export_signals};
use ch11_stream::Advance;
use command_parts::extracting::Extract;
use command_parts::opening::{ChosenMessages, OpenWay, Opened};
use command_parts::recordings::{Recording, Times, fault_of_reading};
use command_parts::requests::CommandFault;
use command_parts::streams::flushed;
use command_parts::writing::{WriteEnd, Writes, write_chosen};
use std::alloc::Global;
use std::io::{BufWriter, IsTerminal, Write};
use std::rt::{Clock, Files};
use text_lines::WriteFault;

/// What messages are written as.
#[derive(Clone, Copy, Debug)]
pub(crate) enum FileForm {
    /// Rows of comma-separated values, one a message, with these columns, and with times of day where `timed` is set.
    Messages {
        columns: Columns,
        timed: bool,
    },
    /// Rows of the values of signals, behind these columns.
    Values {
        columns: Columns,
        timed: bool,
        /// What a row is.
        rows: Rows,
        /// Whether a value that is the one before is left out.
        changes: bool,
    },
    /// A value change dump.
    Waves,
}

impl FileForm {
    /// The kind of the file.
    fn kind(self) -> Kind {
        match self {
            FileForm::Messages { .. } | FileForm::Values { .. } => Kind::Rows,
            FileForm::Waves => Kind::Waves,
        }
    }

    /// Whether times of day are asked for.
    fn is_timed(self) -> bool {
        match self {
            FileForm::Messages { timed, .. } | FileForm::Values { timed, .. } => timed,
            FileForm::Waves => false,
        }
    }

    /// Writes messages in this form, with the signals of the dictionary in this file, if any, and with the times of day
    /// that the time packets of this channel tell, or all.
    pub(crate) fn write_file<
        'a,
        R: Files<File: Hold> + AllocGlobal + Clock,
        E: Eprint + IsTerminal,
    >(
        self,
        rt: &R,
        errors: &E,
        extract: &Extract<'a>,
        dictionary: Option<&'a str>,
        time_channel: Option<u16>,
    ) -> Result<(), CommandFault<'a>> {
        let times = Times {
            asked: self.is_timed(),
            channel: time_channel,
        };
        let opening = OpenWay::stamped(self.kind(), dictionary, times);
        write_chosen(rt, errors, extract, opening, &self)
    }

    /// Writes the messages that are chosen of a recording; answers whether there are any. A fault is that of a
    /// recording that cannot be opened.
    fn write_recording<'a, R: Files + AllocGlobal + Clock, E: Eprint + IsTerminal, W: Write + Drop>(
        self,
        recording: &Recording<'_, 'a, R, E>,
        chosen: ChosenMessages<'_>,
        clock: &RecordingClock,
        writer: W,
    ) -> Result<Result<bool, ExportFault>, CommandFault<'a>> {
        let alloc = recording.alloc();
        let first = recording.begin_reading()?;
        match self {
            FileForm::Messages { columns, timed } => {
                let table = table_of(columns, timed, chosen);
                Ok(write_rows(alloc, first, &table, clock, writer))
            }
            FileForm::Values {
                columns,
                timed,
                rows,
                changes,
            } => {
                let sheet = Sheet {
                    table: table_of(columns, timed, chosen),
                    signals: chosen.signals,
                    rows,
                    changes,
                };
                Ok(write_values(alloc, first, &sheet, clock, writer))
            }
            FileForm::Waves => {
                let second = recording.begin_reading()?;
                let selection = &chosen.selection;
                Ok(write_waves(alloc, first, second, selection, writer))
            }
        }
    }
}

impl Writes for FileForm {
    fn selects<'a, R: Files + AllocGlobal + Clock, E: Eprint + IsTerminal>(
        &self,
        opened: &Opened<'_, 'a, R, E>,
    ) -> Result<bool, CommandFault<'a>> {
        let recording = opened.recording();
        let chosen = opened.chosen()?;
        let bytes = recording.begin_reading()?;
        recording.answer(selects_any(recording.alloc(), bytes, &chosen.selection))
    }

    fn write<'a, R: Files + AllocGlobal + Clock, E: Eprint + IsTerminal, W: Write + Drop>(
        &self,
        opened: &Opened<'_, 'a, R, E>,
        clock: &RecordingClock,
        writer: W,
    ) -> Result<WriteEnd<'a>, CommandFault<'a>> {
        let recording = opened.recording();
        match self.write_recording(&recording, opened.chosen()?, clock, writer)? {
            Ok(selected) => Ok(WriteEnd::Written(selected)),
            Err(ExportFault::Reading(fault)) => Err(fault_of_reading(recording.name(), fault)),
            Err(ExportFault::Writing(fault)) => {
                Ok(WriteEnd::Failed(fault_of_writing(opened.out(), fault)))
            }
        }
    }
}

/// The table of the messages that are chosen.
fn table_of<'o>(columns: Columns, timed: bool, chosen: ChosenMessages<'o>) -> Table<'o> {
    Table {
        columns,
        timed,
        selection: chosen.selection,
    }
}

/// The fault of an out file that was not written to its end.
fn fault_of_writing<'a>(out: &'a str, fault: WriteFault) -> CommandFault<'a> {
    match fault {
        WriteFault::Memory => CommandFault::Memory,
        WriteFault::Device => CommandFault::Device(out),
    }
}

/// Writes rows of what a reader has left; answers whether any message was selected.
fn write_rows<F: Advance + Drop, W: Write + Drop>(
    alloc: Global,
    input: F,
    table: &Table,
    clock: &RecordingClock,
    writer: W,
) -> Result<bool, ExportFault> {
    let exported = export(alloc, input, table, clock, writer)?;
    Ok(exported.selected)
}

/// Writes the values of what a reader has left; answers whether any message was selected.
fn write_values<F: Advance + Drop, W: Write + Drop>(
    alloc: Global,
    input: F,
    sheet: &Sheet<'_>,
    clock: &RecordingClock,
    writer: W,
) -> Result<bool, ExportFault> {
    let exported = export_signals(alloc, input, sheet, clock, writer)?;
    Ok(exported.selected)
}

/// Writes a value change dump of a recording that two readers give; answers whether any message was selected.
fn write_waves<F: Advance + Drop, W: Write + Drop>(
    alloc: Global,
    first: F,
    second: F,
    selection: &Selection,
    writer: W,
) -> Result<bool, ExportFault> {
    let Ok(mut out) = BufWriter::new(alloc, writer) else {
        return Err(ExportFault::Writing(WriteFault::Memory));
    };
    let selected = export_waves(alloc, first, second, selection, &mut out)?;
    flushed(&mut out)?;
    Ok(selected)
}
