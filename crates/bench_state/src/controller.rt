//! What the host of the controller has asked for, as lines.
ghost use Rattle.bench_state.specs.ControllerText.{controller_lines, source_text};
ghost use Rattle.bench_state.specs.SourceRows.{dots, goes_on, opening, place_before, row_text, rows_text};
ghost use Rattle.std.specs.Io.KnownBytes.{Appends};
ghost use Rattle.controller_text.specs.Printing.{destination_text};
ghost use Rattle.std.specs.Prelude.{◌≡◌, ◌-◌, ◌++◌, None, OnOk, codes, decimal};

use crate::marks::print_end_if;
use controller_host::{Destination, Row, Source};
use controller_text::DestinationText;
use mil_host::DataWord;
use std::io;
use std::io::Write;

/// Prints where a word comes from: the word, or the next word of a ramp and what it grows by.
fn print_source<W: Write>(out: &mut W, source: Source) -> io::Result<()>
    ensures { OnOk result (Appends (W.contents out.old) (W.contents out.new) (source_text source)) }
{
    match source {
        Source::Word(word) => {
            let word = DataWord(word);
            write!(out, " {word}")
        }
        Source::Ramp { next, add } => {
            let (next, add) = (DataWord(next), DataWord(add));
            write!(out, " {next}+{add}")
        }
    }
}

/// Prints dots for so many places that have no source.
fn print_dots<W: Write>(out: &mut W, count: u8) -> io::Result<()>
    ensures { OnOk result (Appends (W.contents out.old) (W.contents out.new) (dots count)) }
{
    'dots: for _printed in 0..count {
        write!(out, " ....")?;
    }
    Ok(())
}

/// Whether a row is of the same destination as the one before it.
fn goes_on(before: Option<Row>, row: Row) -> bool
    ensures { result ≡ goes_on before row }
{
    match before {
        None => false,
        Some(other) => other.destination.is(&row.destination),
    }
}

/// The place of the row before it, where that is of the same destination; else 0.
fn place_before(before: Option<Row>, row: Row) -> u8
    ensures { result ≡ place_before before row }
{
    match before {
        None => 0,
        Some(other) => {
            if other.destination.is(&row.destination) {
                other.place
            } else {
                0
            }
        }
    }
}

/// For how many places between a row and the one before it there is no source.
fn dots_before(before: Option<Row>, row: Row) -> u8
    ensures { result ≡ row.place - place_before before row - 1 }
{
    let other = place_before(before, row);
    row.place.saturating_sub(other).saturating_sub(1)
}

/// Prints what a line of sources begins with.
fn print_destination<W: Write>(out: &mut W, destination: Destination) -> io::Result<()>
    ensures { OnOk result (Appends (W.contents out.old) (W.contents out.new)
        (codes "controller " ++ destination_text destination)) }
{
    let destination = DestinationText(destination);
    write!(out, "controller {destination}")
}

/// Begins the line of a row, where the row before it is of another destination.
fn print_opening<W: Write>(out: &mut W, before: Option<Row>, row: Row) -> io::Result<()>
    ensures { OnOk result (Appends (W.contents out.old) (W.contents out.new) (opening before row)) }
{
    if goes_on(before, row) {
        return Ok(());
    }
    print_end_if(out, before.is_some())?;
    print_destination(out, row.destination)
}

/// Prints a row behind the one before it: dots for the places between, and the source.
fn print_row<W: Write>(out: &mut W, before: Option<Row>, row: Row) -> io::Result<()>
    ensures { OnOk result (Appends (W.contents out.old) (W.contents out.new) (row_text before row)) }
{
    print_opening(out, before, row)?;
    print_dots(out, dots_before(before, row))?;
    print_source(out, row.source)
}

/// Prints the lines of sources, which stand by their places: a line for each destination, as
/// `controller rx 5 1 00AA .... 0010+FFFF`.
fn print_sources<W: Write>(out: &mut W, rows: &[Row]) -> io::Result<()>
    ensures { OnOk result (Appends (W.contents out.old) (W.contents out.new) (rows_text None rows.now)) }
{
    let mut before = None;
    for row in rows {
        print_row(out, before, *row)?;
        before = Some(*row);
    }
    print_end_if(out, before.is_some())
}

/// Prints how many messages wait.
fn print_queued<W: Write>(out: &mut W, queued: u64) -> io::Result<()>
    ensures { OnOk result (Appends (W.contents out.old) (W.contents out.new)
        (codes "controller queued " ++ (decimal queued ++ codes "\n"))) }
{
    writeln!(out, "controller queued {queued}")
}

/// Prints what the host of the controller has asked for: how many messages wait, and the sources of words; nothing
/// where there is neither.
pub(crate) fn print_controller<W: Write>(
    out: &mut W,
    queued: u64,
    sources: &[Row],
) -> io::Result<()>
    ensures { OnOk result (Appends (W.contents out.old) (W.contents out.new)
        (controller_lines queued (rows_text None sources.now))) }
{
    if queued == 0 && sources.is_empty() {
        return Ok(());
    }
    print_queued(out, queued)?;
    print_sources(out, sources)
}
