//! The figures of a channel as rows of comma-separated values, a row for each.
ghost use Rattle.bench_stat.specs.RowText as spec;
ghost use Rattle.bench_stat.specs.Times.{between_if};
ghost use Rattle.bench_stat.specs.ValueText.{value_text};
ghost use Rattle.std.specs.Io.KnownBytes.{Appends};
ghost use Rattle.std.specs.Prelude.{◌≡◌, OnOk};

use crate::channels::ChannelFigures;
use crate::details::Details;
use crate::errors::Errors;
use crate::flows::Flow;
use crate::losses::Losses;
use crate::replies::Replies;
use crate::times::Times;
use crate::traffic::Traffic;
use crate::units::{rate, write_hundredths, write_time_of_day, write_us};
use bench_clock::TimeOfDay;
use std::io;
use std::io::Write;

/// What stands in a row of a figure: a count, hundredths, a time in ticks, or a time of day; nothing where there is
/// none, and '-' for a time that is not known.
#[derive(Clone, Copy)]
pub(crate) enum Value {
    Count(u64),
    Hundredths(Option<u64>),
    Ticks(Option<u64>),
    Day(Option<TimeOfDay>),
    Unknown,
}

/// Writes the row of a figure.
#[tactic(auto, unfolding(crate::specs::RowText::figure_row))]
fn write_figure<W: Write>(out: &mut W, channel: u16, name: &str, value: Value) -> io::Result<()>
    ensures { OnOk result (Appends (W.contents out.old) (W.contents out.new)
        (spec.figure_row channel name.now (value_text value))) }
{
    write!(out, "{channel},{name},")?;
    write_value(out, value)?;
    out.write_all(b"\n")
}

/// Writes what stands in the row of a figure.
pub(crate) fn write_value<W: Write>(out: &mut W, value: Value) -> io::Result<()>
    ensures { OnOk result (Appends (W.contents out.old) (W.contents out.new) (value_text value)) }
{
    match value {
        Value::Count(count) => write!(out, "{count}"),
        Value::Hundredths(Some(number)) => write_hundredths(out, number),
        Value::Ticks(Some(ticks)) => write_us(out, ticks),
        Value::Day(time) => write_time_of_day(out, time, ""),
        Value::Hundredths(None) | Value::Ticks(None) => Ok(()),
        Value::Unknown => write!(out, "-"),
    }
}

/// Writes a row for each figure of a channel.
#[tactic(auto, unfolding(crate::specs::RowText::figure_rows))]
pub(crate) fn write_figures<W: Write>(
    out: &mut W,
    figures: &ChannelFigures,
    losses: &Losses,
    details: &Details,
    times: Option<Times>,
) -> io::Result<()>
    ensures { OnOk result (Appends (W.contents out.old) (W.contents out.new)
        (spec.figure_rows figures.now losses.now details.now (between_if times))) }
{
    let channel = figures.channel;
    write_losses(out, channel, losses)?;
    write_traffic(out, channel, &figures.traffic, times)?;
    write_gaps(out, channel, &details.flow, figures.traffic.has_times())?;
    write_errors(out, channel, &figures.errors, figures.retries)?;
    write_replies(out, channel, &details.replies)
}

/// Writes the rows of what packets say of messages that are missing.
#[tactic(auto, unfolding(crate::specs::RowText::loss_rows))]
fn write_losses<W: Write>(out: &mut W, channel: u16, losses: &Losses) -> io::Result<()>
    ensures { OnOk result (Appends (W.contents out.old) (W.contents out.new) (spec.loss_rows channel losses.now)) }
{
    let overflows = Value::Count(losses.overflows as u64);
    write_figure(out, channel, "overflow_packets", overflows)?;
    write_figure(
        out,
        channel,
        "sequence_jumps",
        Value::Count(losses.jumps as u64),
    )
}

/// Writes the rows of the least and the greatest gap.
#[tactic(auto, unfolding(crate::specs::RowText::gap_rows))]
fn write_gaps<W: Write>(out: &mut W, channel: u16, flow: &Flow, timed: bool) -> io::Result<()>
    ensures { OnOk result (Appends (W.contents out.old) (W.contents out.new)
        (spec.gap_rows channel timed flow.now)) }
{
    let (least, greatest) = (
        gap_of(flow, flow.least_gap),
        gap_of(flow, flow.greatest_gap),
    );
    write_gap(out, channel, "least_gap_us", timed, least)?;
    write_gap(out, channel, "greatest_gap_us", timed, greatest)
}

/// Writes the row of a gap, where times are known.
fn write_gap<W: Write>(
    out: &mut W,
    channel: u16,
    name: &str,
    timed: bool,
    gap: Option<u64>,
) -> io::Result<()>
    ensures { OnOk result (Appends (W.contents out.old) (W.contents out.new)
        (spec.gap_row channel name.now timed gap)) }
{
    write_figure(out, channel, name, if_timed(timed, Value::Ticks(gap)))
}

/// A figure of times where they are known.
fn if_timed(timed: bool, value: Value) -> Value
    ensures { value_text result ≡ spec.if_timed timed (value_text value) }
{
    if timed { value } else { Value::Unknown }
}

/// A gap of a flow, where it has one.
fn gap_of(flow: &Flow, gap: u64) -> Option<u64>
    ensures { result ≡ spec.gap_field flow.now gap }
{
    if flow.greatest_gap > 0 {
        Some(gap)
    } else {
        None
    }
}

/// Writes the rows of how much a channel carried; those of its rate and its load are empty where no time passed.
#[tactic(auto, unfolding(crate::specs::RowText::traffic_rows))]
fn write_traffic<W: Write>(
    out: &mut W,
    channel: u16,
    traffic: &Traffic,
    times: Option<Times>,
) -> io::Result<()>
    ensures { OnOk result (Appends (W.contents out.old) (W.contents out.new)
        (spec.traffic_rows channel traffic.now (between_if times))) }
{
    let (span, timed) = (traffic.span(), traffic.has_times());
    let spanned = if_timed(timed, Value::Ticks(Some(span)));
    write_figure(out, channel, "span_us", spanned)?;
    write_times(out, channel, times)?;
    write_figure(out, channel, "messages", Value::Count(traffic.messages))?;
    write_figure(out, channel, "words", Value::Count(traffic.words))?;
    let rate = if_timed(timed, Value::Hundredths(rate(traffic.messages, span)));
    write_figure(out, channel, "messages_per_second", rate)?;
    let load = if_timed(timed, Value::Hundredths(traffic.load()));
    write_figure(out, channel, "bus_load_percent", load)
}

/// Writes the rows of the times of day of the first and the last message, where they are asked for.
fn write_times<W: Write>(out: &mut W, channel: u16, times: Option<Times>) -> io::Result<()>
    ensures { OnOk result (Appends (W.contents out.old) (W.contents out.new)
        (spec.time_rows channel (between_if times))) }
{
    let Some(times) = times else {
        return Ok(());
    };
    write_figure(out, channel, "first_time", Value::Day(times.first))?;
    write_figure(out, channel, "last_time", Value::Day(times.last))
}

/// Writes a row for each kind of error, behind one for all messages with an error, then one for the retries.
#[tactic(auto, unfolding(crate::specs::RowText::error_rows))]
fn write_errors<W: Write>(
    out: &mut W,
    channel: u16,
    errors: &Errors,
    retries: u64,
) -> io::Result<()>
    ensures { OnOk result (Appends (W.contents out.old) (W.contents out.new)
        (spec.error_rows channel errors.now retries)) }
{
    write_count(out, channel, "errors", errors.messages)?;
    write_count(out, channel, "errors_response", errors.response)?;
    write_count(out, channel, "errors_word_count", errors.word_count)?;
    write_count(out, channel, "errors_sync", errors.sync)?;
    write_count(out, channel, "errors_unsound_word", errors.unsound)?;
    write_count(out, channel, "errors_other", errors.other)?;
    write_count(out, channel, "retries", retries)
}

/// Writes the row of a count.
fn write_count<W: Write>(out: &mut W, channel: u16, name: &str, count: u64) -> io::Result<()>
    ensures { OnOk result (Appends (W.contents out.old) (W.contents out.new)
        (spec.count_row channel name.now count)) }
{
    write_figure(out, channel, name, Value::Count(count))
}

/// Writes the rows of the status words and their bits.
#[tactic(auto, unfolding(crate::specs::RowText::reply_rows))]
fn write_replies<W: Write>(out: &mut W, channel: u16, replies: &Replies) -> io::Result<()>
    ensures { OnOk result (Appends (W.contents out.old) (W.contents out.new)
        (spec.reply_rows channel replies.now)) }
{
    write_count(out, channel, "status_words", replies.words)?;
    write_count(out, channel, "status_message_error", replies.message_error)?;
    write_count(
        out,
        channel,
        "status_instrumentation",
        replies.instrumentation,
    )?;
    write_count(
        out,
        channel,
        "status_service_request",
        replies.service_request,
    )?;
    write_count(out, channel, "status_reserved", replies.reserved)?;
    write_count(out, channel, "status_broadcast", replies.broadcast)?;
    write_count(out, channel, "status_busy", replies.busy)?;
    write_count(out, channel, "status_subsystem", replies.subsystem)?;
    write_count(out, channel, "status_control", replies.control)?;
    write_count(out, channel, "status_terminal", replies.terminal)
}
