//! The figures as rows of comma-separated values, a table for each that is asked for.
ghost use Rattle.bench_stat.specs.RowText as spec;
ghost use Rattle.bench_stat.specs.Times.{between_if};
ghost use Rattle.std.specs.Io.KnownBytes.{Appends};
ghost use Rattle.std.specs.Prelude.{OnOk};

use crate::channels::ChannelFigures;
use crate::entries::parts_of;
use crate::figure_rows::{Value, write_figures, write_value};
use crate::flows::Flow;
use crate::following_packets::ToldChannels;
use crate::printing::{NAMES, TIMES, end_row, print_rows};
use crate::shown::Shown;
use crate::slices::Slice;
use crate::times::Times;
use crate::units::{rate, write_hundredths, write_us};
use bench_clock::Clock;
use std::io;
use std::io::Write;
use text_lines::WriteFault;

/// The columns of the figures of channels.
const FIGURES: &str = "channel,figure,value";

/// The columns of the messages by terminal, direction and subaddress.
const SUBADDRESSES: &str =
    "channel,terminal,direction,subaddress,messages,errors,least_gap_us,greatest_gap_us,per_second";

/// The columns of the load over time.
const LOAD: &str = "channel,begin_us,end_us,load_percent";

/// Writes the figures as rows of comma-separated values: those of the channels where they are asked for, then those of
/// terminals or of subaddresses, then the load over time where it is asked for; each table behind a row with the names
/// of its columns, and an empty line between two of them. Times of day are those of the clock, in two rows of a
/// channel's figures, and in two columns behind the others of terminals and of subaddresses. It fails where the
/// writer does.
#[tactic(auto, unfolding(crate::specs::RowText::tables_text))]
pub fn print_tables<W: Write>(
    out: &mut W,
    told: &ToldChannels,
    figures: &[ChannelFigures],
    shown: &Shown,
    clock: &Clock,
) -> Result<(), WriteFault>
    ensures { OnOk result (Appends (W.contents out.old) (W.contents out.new)
        (spec.tables_text shown.now clock.now told.now figures.now)) }
{
    write_figures_table(out, told, figures, shown, clock)?;
    write_main_table(out, told, figures, shown, clock)?;
    write_load_table(out, told, figures, shown)?;
    Ok(())
}

/// Writes the figures of the channels behind the names of their columns, and an empty line; nothing where they are not
/// asked for.
fn write_figures_table<W: Write>(
    out: &mut W,
    told: &ToldChannels,
    figures: &[ChannelFigures],
    shown: &Shown,
    clock: &Clock,
) -> io::Result<()>
    ensures { OnOk result (Appends (W.contents out.old) (W.contents out.new)
        (spec.figures_table shown.now clock.now told.now figures.now)) }
{
    if shown.long {
        return write_long_table(out, told, figures, shown, clock);
    }
    Ok(())
}

/// Writes the figures of the channels behind the names of their columns, and an empty line.
#[tactic(auto, unfolding(crate::specs::RowText::long_table))]
fn write_long_table<W: Write>(
    out: &mut W,
    told: &ToldChannels,
    figures: &[ChannelFigures],
    shown: &Shown,
    clock: &Clock,
) -> io::Result<()>
    ensures { OnOk result (Appends (W.contents out.old) (W.contents out.new)
        (spec.long_table shown.now clock.now told.now figures.now)) }
{
    writeln!(out, "{FIGURES}")?;
    write_all_figures(out, told, figures, shown, clock)?;
    out.write_all(b"\n")
}

/// Writes the figures of the channels.
#[tactic(auto, unfolding(crate::specs::RowText::all_figure_rows))]
fn write_all_figures<W: Write>(
    out: &mut W,
    told: &ToldChannels,
    figures: &[ChannelFigures],
    shown: &Shown,
    clock: &Clock,
) -> io::Result<()>
    ensures { OnOk result (Appends (W.contents out.old) (W.contents out.new)
        (spec.all_figure_rows shown.now clock.now told.now figures.now)) }
{
    for channel in figures {
        write_figures_of(out, told, channel, shown, clock)?;
    }
    Ok(())
}

/// Writes the figures of a channel, with its times of day by the clock where they are asked for.
fn write_figures_of<W: Write>(
    out: &mut W,
    told: &ToldChannels,
    channel: &ChannelFigures,
    shown: &Shown,
    clock: &Clock,
) -> io::Result<()>
    ensures { OnOk result (Appends (W.contents out.old) (W.contents out.new)
        (spec.figures_rows_of shown.now clock.now told.now channel.now)) }
{
    let losses = told.losses(channel.channel);
    let details = told.details(channel.channel);
    write_figures(
        out,
        channel,
        &losses,
        &details,
        shown.times_of(clock, channel),
    )
}

/// Writes the rows of terminals or of subaddresses behind the names of their columns.
#[tactic(auto, unfolding(crate::specs::RowText::main_table))]
fn write_main_table<W: Write>(
    out: &mut W,
    told: &ToldChannels,
    figures: &[ChannelFigures],
    shown: &Shown,
    clock: &Clock,
) -> io::Result<()>
    ensures { OnOk result (Appends (W.contents out.old) (W.contents out.new)
        (spec.main_table shown.now clock.now told.now figures.now)) }
{
    write_names(out, shown)?;
    for channel in figures {
        write_channel(out, told, channel, shown, clock)?;
    }
    Ok(())
}

/// Writes a channel's rows of terminals or of subaddresses.
fn write_channel<W: Write>(
    out: &mut W,
    told: &ToldChannels,
    channel: &ChannelFigures,
    shown: &Shown,
    clock: &Clock,
) -> io::Result<()>
    ensures { OnOk result (Appends (W.contents out.old) (W.contents out.new)
        (spec.channel_rows shown.now clock.now told.now channel.now)) }
{
    let times = shown.times_of(clock, channel);
    if shown.by_subaddress {
        write_flows(out, channel, told.flows(channel.channel), times)
    } else {
        print_rows(out, channel, times)
    }
}

/// Writes the load over time of the channels behind an empty line and the names of its columns; nothing where it is not
/// asked for.
fn write_load_table<W: Write>(
    out: &mut W,
    told: &ToldChannels,
    figures: &[ChannelFigures],
    shown: &Shown,
) -> io::Result<()>
    ensures { OnOk result (Appends (W.contents out.old) (W.contents out.new)
        (spec.load_table shown.now told.now figures.now)) }
{
    if shown.load {
        return write_all_slices(out, told, figures);
    }
    Ok(())
}

/// Writes the load over time of the channels behind an empty line and the names of its columns.
fn write_all_slices<W: Write>(
    out: &mut W,
    told: &ToldChannels,
    figures: &[ChannelFigures],
) -> io::Result<()>
    ensures { OnOk result (Appends (W.contents out.old) (W.contents out.new)
        (spec.all_slices told.now figures.now)) }
{
    writeln!(out, "\n{LOAD}")?;
    for channel in figures {
        write_slices_of(out, told, channel)?;
    }
    Ok(())
}

/// Writes the load over time of a channel.
fn write_slices_of<W: Write>(
    out: &mut W,
    told: &ToldChannels,
    channel: &ChannelFigures,
) -> io::Result<()>
    ensures { OnOk result (Appends (W.contents out.old) (W.contents out.new)
        (spec.slices_of told.now channel.now)) }
{
    write_slices(out, channel, told.load(channel.channel))
}

/// Writes the names of the columns of subaddresses or of terminals.
fn write_names<W: Write>(out: &mut W, shown: &Shown) -> io::Result<()>
    ensures { OnOk result (Appends (W.contents out.old) (W.contents out.new) (spec.names_row shown.now)) }
{
    let names = if shown.by_subaddress {
        SUBADDRESSES
    } else {
        NAMES
    };
    let times = if shown.time { TIMES } else { "" };
    writeln!(out, "{names}{times}")
}

/// Writes a row for each terminal, direction and subaddress with messages.
#[tactic(auto, unfolding(crate::specs::RowText::entry_rows))]
fn write_flows<W: Write>(
    out: &mut W,
    figures: &ChannelFigures,
    flows: &[Flow],
    times: Option<Times>,
) -> io::Result<()>
    ensures { OnOk result (Appends (W.contents out.old) (W.contents out.new)
        (spec.entry_rows figures.now flows.now (between_if times))) }
{
    let (channel, span) = (figures.channel, figures.traffic.known_span());
    for entry in 0..flows.len() {
        write_met(out, channel, entry, &flows[entry], span, times)?;
    }
    Ok(())
}

/// Writes the row of an entry, where it has messages.
fn write_met<W: Write>(
    out: &mut W,
    channel: u16,
    entry: usize,
    flow: &Flow,
    span: Option<u64>,
    times: Option<Times>,
) -> io::Result<()>
    ensures { OnOk result (Appends (W.contents out.old) (W.contents out.new)
        (spec.met_row channel span (between_if times) entry flow.now)) }
{
    if flow.messages == 0 {
        return Ok(());
    }
    write_flow(out, channel, entry, flow, span)?;
    end_row(out, times)
}

/// Writes the row of an entry, a terminal, a direction and a subaddress, but its end. Its gaps are empty for a single
/// message, and its rate where no time passed; all three are '-' where times are not known. The span is the channel's,
/// in ticks.
#[tactic(auto, unfolding(crate::specs::RowText::entry_row))]
fn write_flow<W: Write>(
    out: &mut W,
    channel: u16,
    entry: usize,
    flow: &Flow,
    span: Option<u64>,
) -> io::Result<()>
    ensures { OnOk result (Appends (W.contents out.old) (W.contents out.new)
        (spec.entry_row channel span entry flow.now)) }
{
    let (address, direction, subaddress) = parts_of(entry);
    let (messages, errors) = (flow.messages, flow.errors);
    write!(
        out,
        "{channel},{address},{direction},{subaddress},{messages},{errors},"
    )?;
    write_flow_times(out, flow, span)
}

/// Writes the gaps and the rate of an entry.
fn write_flow_times<W: Write>(out: &mut W, flow: &Flow, span: Option<u64>) -> io::Result<()>
    ensures { OnOk result (Appends (W.contents out.old) (W.contents out.new) (spec.entry_times span flow.now)) }
{
    let Some(span) = span else {
        return write!(out, "-,-,-");
    };
    write_entry_gaps(out, flow)?;
    write_value(out, Value::Hundredths(rate(flow.messages, span)))
}

/// Writes the gaps of an entry, which are empty where there is none.
fn write_entry_gaps<W: Write>(out: &mut W, flow: &Flow) -> io::Result<()>
    ensures { OnOk result (Appends (W.contents out.old) (W.contents out.new) (spec.entry_gaps flow.now)) }
{
    if flow.greatest_gap < 1 {
        return write!(out, ",,");
    }
    write_us(out, flow.least_gap)?;
    write!(out, ",")?;
    write_us(out, flow.greatest_gap)?;
    write!(out, ",")
}

/// Writes a row for each slice of a channel's span, none where there is no span or stamps fall.
#[tactic(auto, unfolding(crate::specs::RowText::slice_rows))]
fn write_slices<W: Write>(out: &mut W, figures: &ChannelFigures, slices: &[Slice]) -> io::Result<()>
    ensures { OnOk result (Appends (W.contents out.old) (W.contents out.new)
        (spec.slice_rows figures.now slices.now)) }
{
    if !figures.traffic.has_slices() {
        return Ok(());
    }
    for slice in slices {
        write_slice(out, figures.channel, slice)?;
    }
    Ok(())
}

/// Writes the row of a slice: its begin, its end and its load.
#[tactic(auto, unfolding(crate::specs::RowText::slice_row))]
fn write_slice<W: Write>(out: &mut W, channel: u16, slice: &Slice) -> io::Result<()>
    ensures { OnOk result (Appends (W.contents out.old) (W.contents out.new)
        (spec.slice_row channel slice.now)) }
{
    write!(out, "{channel},")?;
    write_us(out, slice.begin)?;
    write!(out, ",")?;
    write_us(out, slice.end)?;
    write!(out, ",")?;
    write_hundredths(out, slice.load())?;
    out.write_all(b"\n")
}
