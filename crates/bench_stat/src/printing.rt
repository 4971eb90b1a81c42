//! The figures of a channel and its terminals as text: aligned for people, or rows of comma-separated values.
ghost use Rattle.bench_stat.specs.ChannelText as spec;
ghost use Rattle.bench_stat.specs.Times.{between_if, between_of};
ghost use Rattle.bench_stat.specs.UnitText.{column};
ghost use Rattle.std.specs.Io.KnownBytes.{Appends};
ghost use Rattle.std.specs.List.{flat_map, list_any};
ghost use Rattle.std.specs.Prelude.{◌≡◌, ◌++◌, [], if◌then◌else◌, OnOk, codes, decimal};

use crate::channels::ChannelFigures;
use crate::counts::more;
use crate::errors::Errors;
use crate::terminals::TerminalFigures;
use crate::times::Times;
use crate::traffic::Traffic;
use crate::units::{hundredths, tenths, write_hundredths, write_time_of_day, write_us};
use mil_word::fields::ALL_TERMINALS;
use std::io;
use std::io::Write;

/// The columns of the terminals of a channel.
const COLUMNS: &str =
    "  terminal    receive   transmit       mode     errors  responses  least us   mean us  greatest us";

/// The columns of the rows of comma-separated values.
pub(crate) const NAMES: &str =
    "channel,terminal,receive,transmit,mode,errors,responses,least_us,mean_us,greatest_us";

/// The columns behind those of any row, where times of day are asked for.
pub(crate) const TIMES: &str = ",first_time,last_time";

/// Writes a row of comma-separated values for each terminal address of a channel that was called. A fault is the
/// writer's.
#[tactic(auto, unfolding(crate::specs::ChannelText::terminal_rows))]
pub(crate) fn print_rows<W: Write>(
    out: &mut W,
    figures: &ChannelFigures,
    times: Option<Times>,
) -> io::Result<()>
    ensures { OnOk result (Appends (W.contents out.old) (W.contents out.new)
        (spec.terminal_rows figures.now (between_if times))) }
{
    print_called_rows(out, figures.channel, &figures.terminals, times)
}

/// Writes the rows of those of a channel's terminal addresses that were called.
fn print_called_rows<W: Write>(
    out: &mut W,
    channel: u16,
    terminals: &[TerminalFigures],
    times: Option<Times>,
) -> io::Result<()>
    ensures { OnOk result (Appends (W.contents out.old) (W.contents out.new)
        (spec.numbered (spec.called_row channel (between_if times)) 0 terminals.now)) }
{
    for address in 0..terminals.len() {
        print_called_row(out, channel, address, &terminals[address], times)?;
    }
    Ok(())
}

/// Writes the row of a terminal address, where it was called.
fn print_called_row<W: Write>(
    out: &mut W,
    channel: u16,
    address: usize,
    terminal: &TerminalFigures,
    times: Option<Times>,
) -> io::Result<()>
    ensures { OnOk result (Appends (W.contents out.old) (W.contents out.new)
        (spec.called_row channel (between_if times) address terminal.now)) }
{
    if !terminal.is_called() {
        return Ok(());
    }
    print_row(out, channel, address, terminal)?;
    end_row(out, times)
}

/// Ends a row of comma-separated values, with the channel's times of day where they are asked for.
pub(crate) fn end_row<W: Write>(out: &mut W, times: Option<Times>) -> io::Result<()>
    ensures { OnOk result (Appends (W.contents out.old) (W.contents out.new) (spec.row_end (between_if times))) }
{
    if let Some(times) = times {
        write!(out, ",")?;
        write_time_of_day(out, times.first, "")?;
        write!(out, ",")?;
        write_time_of_day(out, times.last, "")?;
    }
    out.write_all(b"\n")
}

/// Writes how much a channel carried. The span is in µs, '-' where times are not known.
pub(crate) fn print_traffic<W: Write>(
    out: &mut W,
    traffic: &Traffic,
    times: Option<Times>,
) -> io::Result<()>
    ensures { OnOk result (Appends (W.contents out.old) (W.contents out.new)
        (spec.traffic_lines traffic.now (between_if times))) }
{
    print_span(out, traffic.known_span())?;
    print_falls(out, traffic)?;
    print_times(out, times)?;
    print_counts(out, traffic)?;
    print_load_line(out, traffic.known_load())
}

/// Writes a span in µs.
fn print_span<W: Write>(out: &mut W, span: Option<u64>) -> io::Result<()>
    ensures { OnOk result (Appends (W.contents out.old) (W.contents out.new) (spec.span_line span)) }
{
    let Some(span) = span else {
        return writeln!(out, "  span      -");
    };
    let (whole, part) = tenths(span);
    writeln!(out, "  span      {whole}.{part} us")
}

/// Writes how many messages and words a channel carried.
fn print_counts<W: Write>(out: &mut W, traffic: &Traffic) -> io::Result<()>
    ensures { OnOk result (Appends (W.contents out.old) (W.contents out.new) (spec.counts_lines traffic.now)) }
{
    let (messages, words) = (traffic.messages, traffic.words);
    writeln!(out, "  messages  {messages}\n  words     {words}")
}

/// Writes how often stamps fall, and of how many stretches the span is; nothing where they don't, or times are not
/// known.
pub(crate) fn print_falls<W: Write>(out: &mut W, traffic: &Traffic) -> io::Result<()>
    ensures { OnOk result (Appends (W.contents out.old) (W.contents out.new) (spec.falls_line traffic.now)) }
{
    let falls = traffic.stretches.falls;
    if falls == 0 || !traffic.has_times() {
        return Ok(());
    }
    if falls == 1 {
        return writeln!(
            out,
            "  stamps    fall once: the span is that of 2 stretches"
        );
    }
    let parts = more(falls, 1);
    writeln!(
        out,
        "  stamps    fall {falls} times: the span is that of {parts} stretches"
    )
}

/// Writes the times of day of the first and the last message, '-' for one that has none; nothing where neither has one.
pub(crate) fn print_times<W: Write>(out: &mut W, times: Option<Times>) -> io::Result<()>
    ensures { OnOk result (Appends (W.contents out.old) (W.contents out.new) (spec.times_line (between_if times))) }
{
    let Some(times) = times else {
        return Ok(());
    };
    if times.first.is_none() && times.last.is_none() {
        return Ok(());
    }
    print_between(out, times)
}

/// Writes the line of two times of day, '-' for one that is not known.
fn print_between<W: Write>(out: &mut W, times: Times) -> io::Result<()>
    ensures { OnOk result (Appends (W.contents out.old) (W.contents out.new)
        (spec.times_between (between_of times).0 (between_of times).1)) }
{
    write!(out, "  time      ")?;
    write_time_of_day(out, times.first, "-")?;
    write!(out, " to ")?;
    write_time_of_day(out, times.last, "-")?;
    out.write_all(b"\n")
}

/// Writes the bus load in per cent, '-' where no time passed or times are not known.
pub(crate) fn print_load_line<W: Write>(out: &mut W, load: Option<u64>) -> io::Result<()>
    ensures { OnOk result (Appends (W.contents out.old) (W.contents out.new) (spec.load_line load)) }
{
    let Some(load) = load else {
        return writeln!(out, "  bus load  -");
    };
    let (whole, part) = hundredths(load);
    writeln!(out, "  bus load  {whole}.{part:02} %")
}

/// Writes how many messages were a retry on the other line.
pub(crate) fn print_retries<W: Write>(out: &mut W, retries: u64) -> io::Result<()>
    ensures { OnOk result (Appends (W.contents out.old) (W.contents out.new) (spec.retries_line retries)) }
{
    writeln!(out, "  retries   {retries} on the other line")
}

/// Writes how many messages had an error, and how many of them each kind.
#[tactic(auto, unfolding(crate::specs::ChannelText::errors_line))]
pub(crate) fn print_errors<W: Write>(out: &mut W, errors: &Errors) -> io::Result<()>
    ensures { OnOk result (Appends (W.contents out.old) (W.contents out.new) (spec.errors_line errors.now)) }
{
    print_errors_in_front(out, errors)?;
    let (sync, unsound, other) = (errors.sync, errors.unsound, errors.other);
    writeln!(out, ", sync {sync}, unsound word {unsound}, other {other}")
}

/// Writes how many messages had an error, and how many of them one of the first two kinds.
fn print_errors_in_front<W: Write>(out: &mut W, errors: &Errors) -> io::Result<()>
    ensures { OnOk result (Appends (W.contents out.old) (W.contents out.new) (spec.errors_in_front errors.now)) }
{
    let (messages, response, words) = (errors.messages, errors.response, errors.word_count);
    write!(
        out,
        "  errors    {messages} messages: no response or late {response}, word count {words}"
    )
}

/// Writes a line for each terminal address that was called, under a line with the names of the columns; nothing where
/// none was called.
#[tactic(auto, unfolding(crate::specs::ChannelText::terminal_lines))]
pub(crate) fn print_terminals<W: Write>(
    out: &mut W,
    terminals: &[TerminalFigures],
) -> io::Result<()>
    ensures { OnOk result (Appends (W.contents out.old) (W.contents out.new) (spec.terminal_lines terminals.now)) }
{
    print_columns(out, is_any_called(terminals))?;
    for address in 0..terminals.len() {
        print_called(out, address, &terminals[address])?;
    }
    Ok(())
}

/// Whether any of these addresses was called.
fn is_any_called(terminals: &[TerminalFigures]) -> bool
    ensures { result ≡ list_any (λ t. spec.is_called t) terminals.now }
{
    for terminal in terminals {
        if terminal.is_called() {
            return true;
        }
    }
    false
}

/// Writes the names of the columns, where any address was called.
fn print_columns<W: Write>(out: &mut W, called: bool) -> io::Result<()>
    ensures { OnOk result (Appends (W.contents out.old) (W.contents out.new)
        (if called then spec.columns_line else [])) }
{
    if called {
        return writeln!(out, "{COLUMNS}");
    }
    Ok(())
}

/// Writes the line of a terminal address, where it was called.
fn print_called<W: Write>(out: &mut W, address: usize, terminal: &TerminalFigures) -> io::Result<()>
    ensures { OnOk result (Appends (W.contents out.old) (W.contents out.new)
        (spec.called_line address terminal.now)) }
{
    if !terminal.is_called() {
        return Ok(());
    }
    print_terminal(out, address, terminal)
}

/// Writes the line of a terminal address, which is 'all' for 31, the address of all terminals. Response times are in
/// µs, '-' where there was no response.
fn print_terminal<W: Write>(
    out: &mut W,
    address: usize,
    terminal: &TerminalFigures,
) -> io::Result<()>
    ensures { OnOk result (Appends (W.contents out.old) (W.contents out.new)
        (spec.terminal_line address terminal.now)) }
{
    print_address(out, address)?;
    print_call_counts(out, terminal)?;
    print_response_times(out, terminal)
}

/// Writes a terminal address in its column.
pub(crate) fn print_address<W: Write>(out: &mut W, address: usize) -> io::Result<()>
    ensures { OnOk result (Appends (W.contents out.old) (W.contents out.new) (spec.address_column address)) }
{
    if address == usize::from(ALL_TERMINALS) {
        return write!(out, "       all");
    }
    write!(out, "{address:>10}")
}

/// Writes what was counted of a terminal address in its columns.
fn print_call_counts<W: Write>(out: &mut W, terminal: &TerminalFigures) -> io::Result<()>
    ensures { OnOk result (Appends (W.contents out.old) (W.contents out.new)
        (flat_map (λ count. codes " " ++ column 10 count) (spec.counts_of terminal.now))) }
{
    let [receive, transmit, mode, errors, responses] = terminal.counts();
    write!(
        out,
        " {receive:>10} {transmit:>10} {mode:>10} {errors:>10} {responses:>10}"
    )
}

/// Writes the response times of a terminal address in their columns.
fn print_response_times<W: Write>(out: &mut W, terminal: &TerminalFigures) -> io::Result<()>
    ensures { OnOk result (Appends (W.contents out.old) (W.contents out.new)
        (spec.response_columns terminal.now (spec.mean_of terminal.now))) }
{
    let Some(mean) = terminal.mean() else {
        return writeln!(out, "         -         -            -");
    };
    let (least, least_part) = tenths(u64::from(terminal.least));
    let (mean, mean_part) = hundredths(mean);
    let (greatest, greatest_part) = tenths(u64::from(terminal.greatest));
    writeln!(
        out,
        " {least:>7}.{least_part} {mean:>6}.{mean_part:02} {greatest:>10}.{greatest_part}"
    )
}

/// Writes the row of a terminal address but its end. Response times are in µs, and empty where there was no response.
fn print_row<W: Write>(
    out: &mut W,
    channel: u16,
    address: usize,
    terminal: &TerminalFigures,
) -> io::Result<()>
    ensures { OnOk result (Appends (W.contents out.old) (W.contents out.new)
        (spec.terminal_row channel address terminal.now)) }
{
    write!(out, "{channel},{address},")?;
    print_call_fields(out, terminal)?;
    print_response_fields(out, terminal)
}

/// Writes what was counted of a terminal address, each count in front of a comma.
fn print_call_fields<W: Write>(out: &mut W, terminal: &TerminalFigures) -> io::Result<()>
    ensures { OnOk result (Appends (W.contents out.old) (W.contents out.new)
        (flat_map (λ count. decimal count ++ codes ",") (spec.counts_of terminal.now))) }
{
    let [receive, transmit, mode, errors, responses] = terminal.counts();
    write!(out, "{receive},{transmit},{mode},{errors},{responses},")
}

/// Writes the response times of a terminal address, with a comma between two of them.
fn print_response_fields<W: Write>(out: &mut W, terminal: &TerminalFigures) -> io::Result<()>
    ensures { OnOk result (Appends (W.contents out.old) (W.contents out.new)
        (spec.response_fields terminal.now (spec.mean_of terminal.now))) }
{
    let Some(mean) = terminal.mean() else {
        return write!(out, ",,");
    };
    write_us(out, u64::from(terminal.least))?;
    write!(out, ",")?;
    write_hundredths(out, mean)?;
    write!(out, ",")?;
    write_us(out, u64::from(terminal.greatest))
}
