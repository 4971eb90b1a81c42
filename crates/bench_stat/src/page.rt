//! The figures as a page for people, with what more is asked for.
ghost use Rattle.bench_stat.specs.PageText as spec;
ghost use Rattle.bench_stat.specs.Times.{asked_times, between_if};
ghost use Rattle.std.specs.Io.KnownBytes.{Appends};
ghost use Rattle.std.specs.Option.{option_copied};
ghost use Rattle.std.specs.Prelude.{OnOk};

use crate::channels::ChannelFigures;
use crate::details::Details;
use crate::flows::Flow;
use crate::following_packets::ToldChannels;
use crate::losses::Losses;
use crate::printing::{
    print_errors, print_falls, print_load_line, print_retries, print_terminals, print_times,
    print_traffic,
};
use crate::replies::Replies;
use crate::shown::Shown;
use crate::slices::Slice;
use crate::tables::{print_load, print_subaddresses};
use crate::times::Times;
use crate::traffic::Traffic;
use crate::units::{rate_in, write_hundredths, write_time};
use bench_clock::Clock;
use bench_names::ChannelNames;
use std::io;
use std::io::Write;
use text_lines::WriteFault;

/// Writes the figures of each channel as lines aligned for people, with what more is shown of it, which is told of the
/// same messages. Times of day are those of the clock; a channel of which it tells none has no line of them. The name
/// of a channel stands behind its number. It fails where the writer does.
pub fn print_page<W: Write>(
    out: &mut W,
    told: &ToldChannels,
    figures: &[ChannelFigures],
    shown: &Shown,
    clock: &Clock,
    names: &ChannelNames<'_>,
) -> Result<(), WriteFault> {
    if shown.long {
        print_losses(out, told, figures)?;
    }
    for channel in figures {
        print_name(out, channel.channel, names.name(channel.channel))?;
        print_channel(out, told, channel, shown, clock)?;
    }
    Ok(())
}

/// Writes which channels have packets that say that messages are missing: a line for each, in the order of their
/// figures. A fault is the writer's.
#[tactic(auto, unfolding(crate::specs::PageText::losses_lines))]
pub fn print_losses<W: Write>(
    out: &mut W,
    told: &ToldChannels,
    figures: &[ChannelFigures],
) -> io::Result<()>
    ensures { OnOk result (Appends (W.contents out.old) (W.contents out.new)
        (spec.losses_lines told.now figures.now)) }
{
    for channel in figures {
        print_loss(out, channel.channel, told.losses(channel.channel))?;
    }
    Ok(())
}

/// Writes that messages are missing from a channel, where its packets say so.
#[tactic(auto, unfolding(crate::specs::PageText::losses_line))]
fn print_loss<W: Write>(out: &mut W, channel: u16, losses: Losses) -> io::Result<()>
    ensures { OnOk result (Appends (W.contents out.old) (W.contents out.new) (spec.losses_line channel losses)) }
{
    let (overflows, jumps) = (losses.overflows, losses.jumps);
    if overflows > 0 || jumps > 0 {
        return writeln!(
            out,
            "messages are missing from channel {channel}: packets with the overflow flag {overflows}, jumps of the \
             sequence number {jumps}"
        );
    }
    Ok(())
}

/// Writes the number of a channel, and its name if it has one. A fault is the writer's.
pub fn print_name<W: Write>(out: &mut W, channel: u16, name: Option<&str>) -> io::Result<()>
    ensures { OnOk result (Appends (W.contents out.old) (W.contents out.new)
        (spec.name_line channel (option_copied name.entry))) }
{
    match name {
        Some(name) => writeln!(out, "channel {channel} {name}"),
        None => writeln!(out, "channel {channel}"),
    }
}

/// Writes the figures of a channel as lines aligned for people, with what more is shown of it, behind the line of its
/// name: its times of day are those of the clock. A fault is the writer's.
#[tactic(auto, unfolding(crate::specs::PageText::channel_lines))]
pub fn print_channel<W: Write>(
    out: &mut W,
    told: &ToldChannels,
    figures: &ChannelFigures,
    shown: &Shown,
    clock: &Clock,
) -> io::Result<()>
    ensures { OnOk result (Appends (W.contents out.old) (W.contents out.new)
        (spec.channel_lines shown.now figures.now (spec.told_at told.now figures.now.channel)
        (asked_times shown.now.time clock.now figures.now.traffic))) }
{
    let times = shown.times_of(clock, figures);
    print_head(
        out,
        figures,
        &told.details(figures.channel),
        shown.long,
        times,
    )?;
    print_table(
        out,
        figures,
        told.flows(figures.channel),
        shown.by_subaddress,
    )?;
    print_load_if(out, figures, told.load(figures.channel), shown.load)
}

/// Writes the figures of a channel but its tables.
fn print_head<W: Write>(
    out: &mut W,
    figures: &ChannelFigures,
    details: &Details,
    long: bool,
    times: Option<Times>,
) -> io::Result<()>
    ensures { OnOk result (Appends (W.contents out.old) (W.contents out.new)
        (spec.head_of long figures.now details.now (between_if times))) }
{
    if long {
        print_long_head(out, figures, details, times)
    } else {
        print_short_head(out, figures, times)
    }
}

/// Writes the figures that are always shown.
#[tactic(auto, unfolding(crate::specs::PageText::short_head))]
fn print_short_head<W: Write>(
    out: &mut W,
    figures: &ChannelFigures,
    times: Option<Times>,
) -> io::Result<()>
    ensures { OnOk result (Appends (W.contents out.old) (W.contents out.new)
        (spec.short_head figures.now (between_if times))) }
{
    print_traffic(out, &figures.traffic, times)?;
    print_errors(out, &figures.errors)?;
    print_retries(out, figures.retries)
}

/// Writes them with gaps and status words.
#[tactic(auto, unfolding(crate::specs::PageText::long_head))]
fn print_long_head<W: Write>(
    out: &mut W,
    figures: &ChannelFigures,
    details: &Details,
    times: Option<Times>,
) -> io::Result<()>
    ensures { OnOk result (Appends (W.contents out.old) (W.contents out.new)
        (spec.long_head figures.now details.now (between_if times))) }
{
    print_long_traffic(out, &figures.traffic, times)?;
    print_gaps(out, &details.flow, figures.traffic.has_times())?;
    print_errors(out, &figures.errors)?;
    print_retries(out, figures.retries)?;
    print_replies(out, &details.replies)
}

/// Writes how much a channel carried, with messages a second where any time passed. The span is in µs, ms or s by its
/// size.
#[tactic(auto, unfolding(crate::specs::PageText::long_traffic_lines))]
fn print_long_traffic<W: Write>(
    out: &mut W,
    traffic: &Traffic,
    times: Option<Times>,
) -> io::Result<()>
    ensures { OnOk result (Appends (W.contents out.old) (W.contents out.new)
        (spec.long_traffic_lines traffic.now (between_if times))) }
{
    print_long_span(out, traffic.known_span())?;
    print_falls(out, traffic)?;
    print_times(out, times)?;
    print_long_counts(out, traffic)?;
    print_load_line(out, traffic.known_load())
}

/// Writes a span in µs, ms or s by its size.
fn print_long_span<W: Write>(out: &mut W, span: Option<u64>) -> io::Result<()>
    ensures { OnOk result (Appends (W.contents out.old) (W.contents out.new) (spec.long_span_line span)) }
{
    match span {
        Some(span) => print_known_span(out, span),
        None => writeln!(out, "  span      -"),
    }
}

/// Writes a span that is known.
fn print_known_span<W: Write>(out: &mut W, span: u64) -> io::Result<()>
    ensures { OnOk result (Appends (W.contents out.old) (W.contents out.new) (spec.known_span_line span)) }
{
    write!(out, "  span      ")?;
    write_time(out, span)?;
    out.write_all(b"\n")
}

/// Writes how many messages and words a channel carried, with messages a second.
fn print_long_counts<W: Write>(out: &mut W, traffic: &Traffic) -> io::Result<()>
    ensures { OnOk result (Appends (W.contents out.old) (W.contents out.new) (spec.long_counts traffic.now)) }
{
    let (messages, words) = (traffic.messages, traffic.words);
    write!(out, "  messages  {messages}")?;
    print_rate(out, rate_in(messages, traffic.known_span()))?;
    writeln!(out, "\n  words     {words}")
}

/// Writes messages a second; nothing where no time passed.
fn print_rate<W: Write>(out: &mut W, rate: Option<u64>) -> io::Result<()>
    ensures { OnOk result (Appends (W.contents out.old) (W.contents out.new) (spec.rate_words rate)) }
{
    let Some(rate) = rate else {
        return Ok(());
    };
    write!(out, ", ")?;
    write_hundredths(out, rate)?;
    write!(out, " a second")
}

/// Writes the least and the greatest gap between two messages, '-' where there is none or times are not known.
fn print_gaps<W: Write>(out: &mut W, flow: &Flow, timed: bool) -> io::Result<()>
    ensures { OnOk result (Appends (W.contents out.old) (W.contents out.new) (spec.gaps_line flow.now timed)) }
{
    if flow.greatest_gap < 1 || !timed {
        return writeln!(out, "  gaps      -");
    }
    print_known_gaps(out, flow)
}

/// Writes gaps that are known.
fn print_known_gaps<W: Write>(out: &mut W, flow: &Flow) -> io::Result<()>
    ensures { OnOk result (Appends (W.contents out.old) (W.contents out.new) (spec.known_gaps flow.now)) }
{
    write!(out, "  gaps      ")?;
    write_time(out, flow.least_gap)?;
    write!(out, " least, ")?;
    write_time(out, flow.greatest_gap)?;
    writeln!(out, " greatest")
}

/// Writes how many status words there were, and in how many of them each bit was set.
#[tactic(auto, unfolding(crate::specs::PageText::replies_line))]
fn print_replies<W: Write>(out: &mut W, replies: &Replies) -> io::Result<()>
    ensures { OnOk result (Appends (W.contents out.old) (W.contents out.new) (spec.replies_line replies.now)) }
{
    print_replies_in_front(out, replies)?;
    let (broadcast, busy, subsystem) = (replies.broadcast, replies.busy, replies.subsystem);
    let (control, terminal) = (replies.control, replies.terminal);
    writeln!(
        out,
        ", broadcast {broadcast}, busy {busy}, subsystem {subsystem}, control {control}, terminal {terminal}"
    )
}

/// Writes how many status words there were, and in how many of them the bits 10 to 5 were set.
fn print_replies_in_front<W: Write>(out: &mut W, replies: &Replies) -> io::Result<()>
    ensures { OnOk result (Appends (W.contents out.old) (W.contents out.new) (spec.replies_in_front replies.now)) }
{
    let (words, message_error) = (replies.words, replies.message_error);
    let (instrumentation, service_request) = (replies.instrumentation, replies.service_request);
    let reserved = replies.reserved;
    write!(
        out,
        "  status    {words} words: message_error {message_error}, instrumentation {instrumentation}, \
         service_request {service_request}, reserved {reserved}"
    )
}

/// Writes the messages by terminal, or by terminal, direction and subaddress.
fn print_table<W: Write>(
    out: &mut W,
    figures: &ChannelFigures,
    flows: &[Flow],
    by_subaddress: bool,
) -> io::Result<()>
    ensures { OnOk result (Appends (W.contents out.old) (W.contents out.new)
        (spec.table_of by_subaddress figures.now flows.now)) }
{
    if by_subaddress {
        print_subaddresses(out, flows, figures.traffic.known_span())
    } else {
        print_terminals(out, &figures.terminals)
    }
}

/// Writes the load over time of a channel where it is asked for.
fn print_load_if<W: Write>(
    out: &mut W,
    figures: &ChannelFigures,
    slices: &[Slice],
    asked: bool,
) -> io::Result<()>
    ensures { OnOk result (Appends (W.contents out.old) (W.contents out.new)
        (spec.load_if asked figures.now slices.now)) }
{
    if asked {
        return print_load_of(out, &figures.traffic, slices);
    }
    Ok(())
}

/// Writes the load over time of a channel, nothing where no time passed; where stamps fall or times are not known, a
/// line in its place.
#[tactic(auto, unfolding(crate::specs::PageText::load_lines))]
fn print_load_of<W: Write>(out: &mut W, traffic: &Traffic, slices: &[Slice]) -> io::Result<()>
    ensures { OnOk result (Appends (W.contents out.old) (W.contents out.new)
        (spec.load_lines traffic.now slices.now)) }
{
    if !traffic.has_times() {
        return writeln!(out, "  load      -");
    }
    if traffic.stretches.falls > 0 {
        return writeln!(out, "  load      over time is not told where stamps fall");
    }
    if traffic.span() == 0 {
        return Ok(());
    }
    print_load(out, slices)
}
