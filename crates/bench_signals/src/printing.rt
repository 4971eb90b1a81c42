//! The figures of signals as text: rows of comma-separated values, or lines for people.
ghost use Rattle.bench_signals.specs.FigureText as spec;
ghost use Rattle.bench_signals.specs.Figures.{moment_of, said_by};
ghost use Rattle.signal_values.specs.Readings.{value_of};
ghost use Rattle.signal_values.specs.Texts.{value_text};
ghost use Rattle.std.specs.Io.KnownBytes.{Appends};
ghost use Rattle.std.specs.Prelude.{Some, OnOk, map, option_map};

use crate::figures::{SignalFigures, Told};
use signal_dictionary::{Kind, Signal};
use signal_values::{Reading, put_reading};
use std::alloc::Global;
use std::io;
use std::io::Write;
use text_lines::WriteFault;

/// How many ticks of 0.1 µs a second has.
const SECOND: u64 = 10_000_000;

/// The columns of the rows of comma-separated values.
const COLUMNS: &str =
    "signal,channel,unit,messages,changes,least,least_s,greatest,greatest_s,first,first_s,last,last_s";

/// Prints figures of these signals, as `count_signals` has them: as rows of comma-separated values behind an empty
/// line, or for people. Times are seconds with seven decimals, `-` where none is known. Where there is no least and no
/// greatest value, their fields are empty, and they have no lines. It fails where the writer does, and for want of
/// memory.
pub fn print_signals<W: Write>(
    alloc: Global,
    out: &mut W,
    signals: &[Signal],
    figures: &[SignalFigures],
    rows: bool,
) -> Result<(), WriteFault>
    ensures { OnOk result (Appends (W.contents out.old) (W.contents out.new)
        (spec.figures_text rows signals.now (map said_by figures.now))) }
{
    let mut text = Vec::new(alloc);
    print_head(out, rows)?;
    for figure in figures {
        print_figure(out, &mut text, signals, figure, rows)?;
    }
    Ok(())
}

/// Prints what stands in front of the figures.
fn print_head<W: Write>(out: &mut W, rows: bool) -> io::Result<()>
    ensures { OnOk result (Appends (W.contents out.old) (W.contents out.new) (spec.head_of rows)) }
{
    if rows {
        writeln!(out, "\n{COLUMNS}")
    } else {
        writeln!(out, "signals")
    }
}

/// Prints the figures of a signal in a channel; nothing where the dictionary has no such signal. The text is room for a
/// value.
fn print_figure<W: Write>(
    out: &mut W,
    text: &mut Vec<u8>,
    signals: &[Signal],
    figure: &SignalFigures,
    rows: bool,
) -> Result<(), WriteFault>
    ensures { OnOk result (Appends (W.contents out.old) (W.contents out.new)
        (spec.figure_text rows signals.now (said_by figure.now))) }
{
    match signals.get(figure.signal) {
        Some(signal) => print_signal(out, text, signal, figure, rows),
        None => Ok(()),
    }
}

/// Prints the figures of this signal in a channel.
fn print_signal<W: Write>(
    out: &mut W,
    text: &mut Vec<u8>,
    signal: &Signal,
    figure: &SignalFigures,
    rows: bool,
) -> Result<(), WriteFault>
    ensures { OnOk result (Appends (W.contents out.old) (W.contents out.new)
        (spec.signal_text rows (said_by figure.now) (Some signal.now))) }
{
    if rows {
        print_row(out, text, signal, figure)
    } else {
        print_lines(out, text, signal, figure)
    }
}

/// Prints them as a row.
fn print_row<W: Write>(
    out: &mut W,
    text: &mut Vec<u8>,
    signal: &Signal,
    figure: &SignalFigures,
) -> Result<(), WriteFault>
    ensures { OnOk result (Appends (W.contents out.old) (W.contents out.new)
        (spec.figure_row signal.now (said_by figure.now))) }
{
    print_front(out, signal, figure)?;
    print_fields(out, text, &signal.kind, figure.least)?;
    print_fields(out, text, &signal.kind, figure.greatest)?;
    print_fields(out, text, &signal.kind, Some(figure.first))?;
    print_fields(out, text, &signal.kind, Some(figure.last))?;
    out.write_all(b"\n")?;
    Ok(())
}

/// Prints the fields in front of the values.
fn print_front<W: Write>(out: &mut W, signal: &Signal, figure: &SignalFigures) -> io::Result<()>
    ensures { OnOk result (Appends (W.contents out.old) (W.contents out.new)
        (spec.front_fields signal.now (said_by figure.now))) }
{
    let (channel, messages, changes) = (figure.channel, figure.messages, figure.changes);
    out.write_all(signal.name.bytes.as_slice())?;
    write!(out, ",{channel},")?;
    out.write_all(signal.unit.bytes.as_slice())?;
    write!(out, ",{messages},{changes}")
}

/// Prints the fields of a value and of its time, which are empty where there is none.
fn print_fields<W: Write>(
    out: &mut W,
    text: &mut Vec<u8>,
    kind: &Kind,
    told: Option<Told>,
) -> Result<(), WriteFault>
    ensures { OnOk result (Appends (W.contents out.old) (W.contents out.new)
        (spec.value_fields kind.now (option_map moment_of told))) }
{
    match told {
        Some(told) => print_known_fields(out, text, kind, told),
        None => {
            out.write_all(b",,")?;
            Ok(())
        }
    }
}

/// Prints the fields of a value and of its time.
fn print_known_fields<W: Write>(
    out: &mut W,
    text: &mut Vec<u8>,
    kind: &Kind,
    told: Told,
) -> Result<(), WriteFault>
    ensures { OnOk result (Appends (W.contents out.old) (W.contents out.new)
        (spec.value_fields kind.now (Some (moment_of told)))) }
{
    out.write_all(b",")?;
    print_value(out, text, kind, told.value)?;
    out.write_all(b",")?;
    print_time(out, told.time)?;
    Ok(())
}

/// Prints the figures of a signal in a channel for people.
fn print_lines<W: Write>(
    out: &mut W,
    text: &mut Vec<u8>,
    signal: &Signal,
    figure: &SignalFigures,
) -> Result<(), WriteFault>
    ensures { OnOk result (Appends (W.contents out.old) (W.contents out.new)
        (spec.figure_lines signal.now (said_by figure.now))) }
{
    print_head_line(out, signal, figure)?;
    print_line(out, text, &signal.kind, "least", figure.least)?;
    print_line(out, text, &signal.kind, "greatest", figure.greatest)?;
    print_line(out, text, &signal.kind, "first", Some(figure.first))?;
    print_line(out, text, &signal.kind, "last", Some(figure.last))
}

/// Prints the line in front of the values.
fn print_head_line<W: Write>(out: &mut W, signal: &Signal, figure: &SignalFigures) -> io::Result<()>
    ensures { OnOk result (Appends (W.contents out.old) (W.contents out.new)
        (spec.head_line signal.now (said_by figure.now))) }
{
    let (channel, messages, changes) = (figure.channel, figure.messages, figure.changes);
    out.write_all(b"  ")?;
    out.write_all(signal.name.bytes.as_slice())?;
    print_unit(out, signal.unit.bytes.as_slice())?;
    writeln!(
        out,
        " on channel {channel}: {messages} messages, {changes} changes"
    )
}

/// Prints a unit in brackets, nothing where there is none.
fn print_unit<W: Write>(out: &mut W, unit: &[u8]) -> io::Result<()>
    ensures { OnOk result (Appends (W.contents out.old) (W.contents out.new) (spec.unit_text unit.now)) }
{
    if unit.is_empty() {
        return Ok(());
    }
    out.write_all(b" (")?;
    out.write_all(unit)?;
    out.write_all(b")")
}

/// Prints the line of a value and of its time, none where there is no value.
fn print_line<W: Write>(
    out: &mut W,
    text: &mut Vec<u8>,
    kind: &Kind,
    label: &str,
    told: Option<Told>,
) -> Result<(), WriteFault>
    ensures { OnOk result (Appends (W.contents out.old) (W.contents out.new)
        (spec.value_line kind.now label.now (option_map moment_of told))) }
{
    match told {
        Some(told) => print_known_line(out, text, kind, label, told),
        None => Ok(()),
    }
}

/// Prints the line of a value and of its time.
fn print_known_line<W: Write>(
    out: &mut W,
    text: &mut Vec<u8>,
    kind: &Kind,
    label: &str,
    told: Told,
) -> Result<(), WriteFault>
    ensures { OnOk result (Appends (W.contents out.old) (W.contents out.new)
        (spec.value_line kind.now label.now (Some (moment_of told)))) }
{
    print_label(out, label)?;
    print_value(out, text, kind, told.value)?;
    out.write_all(b" at ")?;
    print_time(out, told.time)?;
    out.write_all(b"\n")?;
    Ok(())
}

/// Prints what a value is called in its column.
fn print_label<W: Write>(out: &mut W, label: &str) -> io::Result<()>
    ensures { OnOk result (Appends (W.contents out.old) (W.contents out.new) (spec.label_text label.now)) }
{
    write!(out, "    {label:<10}")
}

/// Prints a value.
fn print_value<W: Write>(
    out: &mut W,
    text: &mut Vec<u8>,
    kind: &Kind,
    value: Reading,
) -> Result<(), WriteFault>
    ensures { OnOk result (Appends (W.contents out.old) (W.contents out.new)
        (value_text kind.now (value_of value))) }
{
    text.clear();
    put_reading(text, kind, value)?;
    out.write_all(text.as_slice())?;
    Ok(())
}

/// Prints when a value was.
fn print_time<W: Write>(out: &mut W, time: Option<u64>) -> io::Result<()>
    ensures { OnOk result (Appends (W.contents out.old) (W.contents out.new) (spec.time_text time)) }
{
    let Some(ticks) = time else {
        return write!(out, "-");
    };
    let (seconds, rest) = (ticks / SECOND, ticks % SECOND);
    write!(out, "{seconds}.{rest:07}")
}
