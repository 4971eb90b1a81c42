//! `bench stat`: the figures of a recording.

use bench_clock::ReadClock;
use bench_json::{JsonLines, JsonSource};
use bench_names::ChannelNames;
use bench_select::Selection;
use bench_signals::{SignalFigures, count_signals, print_signals};
use bench_stat::{
    ChannelFigures, KindFigures, Shown, ToldChannels, print_kinds, print_page, print_tables,
    read_kinds, stat, told_channels,
};
use clap::{ArgMatches, Command};
use command_parts::dictionaries::{selection_by, signals_in};
use command_parts::looking::{tell_of_loss, tell_of_unknown, tell_of_unread};
use command_parts::options::{argument, choice, command_of, file, flag, json, time_channel};
use command_parts::recordings::{Recording, Source, Times};
use command_parts::requests::CommandFault;
use command_parts::selecting::{
    GivenSelection, given_selection, judge_selection, selection_options,
};
use command_parts::streams::{listing, on_stream, printed, unless_refused};
use signal_dictionary::Signal;
use std::alloc::{AllocError, Global};
use std::io;
use std::io::{BufWriter, IsTerminal, Write};
use std::rt::{Clock, Files};
use text_lines::WriteFault;

/// What the help of `bench stat` ends with.
const NOTES: &str = "\
Each channel with messages is told by the share of its time in which words were on the bus, its errors by their kind,
its retries, and its terminals with their commands and response times. --channel, --line, --only, --errors, --from and
--to count in some messages alone, chosen as by bench dump.

With --time a line behind the span tells the times of day (UTC) of the channel's first and last message, as bench dump
--time has them; a channel for which neither its stamps nor the recording's time packets tell them has no such line.
With --csv each row of a terminal or a subaddress ends with the two times of its channel, in columns first_time and
last_time. With --json each row is an object.

--signals DICTIONARY tells behind all that, for each signal in each channel that has it, its messages, its changes, and
its least, greatest, first and last value with their times (bench signals --help); --only then takes signal NAME too.

Example:
  bench stat flight.ch11
  bench stat --long --by subaddress flight.ch11
  bench stat --load --csv --channel 2 flight.ch11";

/// The command line of `bench stat`.
pub fn command<'a>(alloc: Global) -> Result<Command<'a>, AllocError> {
    let about = "Shows bus load, errors, retries and response times of a recording";
    let long = "Shows messages that are missing, rates, gaps, status bits and packets by type too";
    let by = "One row a terminal, or one a terminal, direction and subaddress";
    let time = "Shows the times of day of each channel's first and last message";
    let rows = [
        flag("csv", "One row of comma-separated values a terminal"),
        json().never_with(&["csv"]),
        flag("long", long),
        choice("by", "WHAT", &["terminal", "subaddress"], by),
        flag("load", "Shows the bus load over time, in twenty slices"),
        flag("time", time),
        time_channel().only_with("time"),
        file(
            "signals",
            "Shows the figures of the signals of this dictionary too",
        ),
    ];
    let arguments = [argument("RECORDING", "The Chapter 11 file to count in")];
    let selection = selection_options();
    command_of(
        alloc,
        "stat",
        about,
        NOTES,
        &[&rows, &selection, &arguments],
    )
}

/// What is to be counted in, and what is to be shown of it.
#[derive(Clone, Copy, Debug)]
pub struct Request<'a> {
    /// The file of the recording.
    pub recording: &'a str,
    /// Which of its messages.
    pub selection: GivenSelection<'a>,
    /// Whether as rows of comma-separated values, or else aligned for people.
    pub rows: bool,
    /// Whether rows are JSON lines.
    pub json: bool,
    /// What more is shown.
    pub shown: Shown,
    /// The channel whose time packets tell times of day; all where none is named.
    pub time_channel: Option<u16>,
    /// The file of a dictionary whose signals are counted, if any.
    pub signals: Option<&'a str>,
}

impl<'a> Request<'a> {
    /// The signals of the dictionary, none where no dictionary is named. A usage fault of the words comes before its
    /// own.
    fn dictionary<R: Files + AllocGlobal>(&self, rt: &R) -> Result<Vec<Signal>, CommandFault<'a>> {
        judge_selection(&self.selection)?;
        signals_in(rt, self.signals)
    }

    /// The times of day that are asked for.
    fn times(&self) -> Times {
        Times {
            asked: self.shown.time,
            channel: self.time_channel,
        }
    }
}

/// What a command line asks of `bench stat`.
pub fn request_in<'a>(given: &ArgMatches<'a>) -> Request<'a> {
    Request {
        recording: given.get_str("RECORDING").unwrap_or(""),
        selection: given_selection(given),
        rows: given.get_flag("csv") || given.get_flag("json"),
        json: given.get_flag("json"),
        shown: Shown {
            long: given.get_flag("long"),
            by_subaddress: matches!(given.get_str("by"), Some("subaddress")),
            load: given.get_flag("load"),
            time: given.get_flag("time"),
        },
        time_channel: given.get_one::<u16>("time-channel"),
        signals: given.get_str("signals"),
    }
}

/// Prints the figures of a recording, aligned for people or as rows of comma-separated values. Where a selection has no
/// messages, it says so and ends with the status of a refused input. Nothing is printed in front of the last pass over
/// the recording that it takes.
pub fn run<'a, R: Files + AllocGlobal + Print + Clock, E: Eprint + IsTerminal>(
    rt: &R,
    errors: &E,
    request: &Request<'a>,
) -> Result<(), CommandFault<'a>> {
    let signals = request.dictionary(rt)?;
    let selection = selection_by(&request.selection, request.signals, signals.as_slice())?;
    let source = Source::of(rt, errors, request.recording)?;
    let recording = source.recording(false, true);
    let stamps = recording.stamps(true)?;
    let selection = selection.counting_from(stamps.origins.as_slice());
    let counted = count(&recording, request, &selection, signals.as_slice());
    source.end();
    tell_of_unknown(errors, request.recording, &stamps);
    let counted = counted?;
    print_counted(rt, &counted, request, signals.as_slice())?;
    tell_of_unread(errors, request.recording, counted.times.unread);
    tell_of_loss(errors, &recording);
    Ok(())
}

/// What is printed of a recording.
#[derive(Drop)]
struct Counted {
    figures: Vec<ChannelFigures>,
    told: ToldChannels,
    times: ReadClock,
    front: Vec<u8>,
    kinds: Vec<KindFigures>,
    signals: Vec<SignalFigures>,
}

/// The figures of a recording, and in further passes times of day and what more is shown.
fn count<'a, R: Files + AllocGlobal + Clock, E: Eprint + IsTerminal>(
    recording: &Recording<'_, 'a, R, E>,
    request: &Request<'a>,
    selection: &Selection,
    signals: &[Signal],
) -> Result<Counted, CommandFault<'a>> {
    let bytes = recording.begin_reading()?;
    let figures = recording.answer(stat(recording.alloc(), bytes, selection))?;
    if !selection.is_all() && counts_nothing(figures.as_slice()) {
        return Err(CommandFault::NoneSelected);
    }
    let times = recording.clock(request.times())?;
    let told = told_of(recording, request, selection, figures.as_slice())?;
    let kinds = kinds_of(recording, request)?;
    let signals = signals_of(recording, request, selection, signals)?;
    Ok(Counted {
        figures,
        told,
        times,
        front: recording.front()?,
        kinds,
        signals,
    })
}

/// The figures of signals, where a dictionary is named.
fn signals_of<'a, R: Files + AllocGlobal + Clock, E: Eprint + IsTerminal>(
    recording: &Recording<'_, 'a, R, E>,
    request: &Request<'a>,
    selection: &Selection,
    signals: &[Signal],
) -> Result<Vec<SignalFigures>, CommandFault<'a>> {
    if request.signals.is_none() {
        return Ok(Vec::new(recording.alloc()));
    }
    let bytes = recording.begin_reading()?;
    let alloc = recording.alloc();
    recording.answer(count_signals(alloc, bytes, selection, signals))
}

/// What more is shown of a recording.
fn told_of<'a, R: Files + AllocGlobal + Clock, E: Eprint + IsTerminal>(
    recording: &Recording<'_, 'a, R, E>,
    request: &Request<'a>,
    selection: &Selection,
    figures: &[ChannelFigures],
) -> Result<ToldChannels, CommandFault<'a>> {
    let alloc = recording.alloc();
    if !request.shown.needs_more() {
        return Ok(ToldChannels::new(alloc));
    }
    let bytes = recording.begin_reading()?;
    let told = told_channels(alloc, bytes, selection, figures, &request.shown);
    recording.answer(told)
}

/// The packets of a recording by their type, where more is shown.
fn kinds_of<'a, R: Files + AllocGlobal + Clock, E: Eprint + IsTerminal>(
    recording: &Recording<'_, 'a, R, E>,
    request: &Request<'a>,
) -> Result<Vec<KindFigures>, CommandFault<'a>> {
    if !request.shown.long {
        return Ok(Vec::new(recording.alloc()));
    }
    let bytes = recording.begin_reading()?;
    recording.answer(read_kinds(recording.alloc(), bytes))
}

/// Whether no message was counted.
fn counts_nothing(figures: &[ChannelFigures]) -> bool {
    figures.iter().all(|channel| channel.traffic.messages == 0)
}

/// Prints the figures of a recording.
fn print_counted<'a, R: AllocGlobal + Print>(
    rt: &R,
    counted: &Counted,
    request: &Request<'a>,
    signals: &[Signal],
) -> Result<(), CommandFault<'a>> {
    if request.json {
        let out = on_stream("-", BufWriter::new(rt.alloc(), listing(rt)))?;
        let mut lines = JsonLines::over(rt.alloc(), JsonSource::Tables, out);
        let answer = print_all(rt.alloc(), &mut lines, counted, request, signals);
        return unless_refused(lines.is_refused(), printed(answer, &mut lines));
    }
    let mut out = on_stream("-", BufWriter::new(rt.alloc(), listing(rt)))?;
    let answer = print_all(rt.alloc(), &mut out, counted, request, signals);
    printed(answer, &mut out)
}

/// Prints figures, and behind them those of signals where a dictionary is named.
fn print_all<W: Write>(
    alloc: Global,
    out: &mut W,
    counted: &Counted,
    request: &Request<'_>,
    signals: &[Signal],
) -> Result<(), WriteFault> {
    print_figures(out, counted, request)?;
    if request.signals.is_some() {
        let figures = counted.signals.as_slice();
        print_signals(alloc, out, signals, figures, request.rows)?;
    }
    Ok(())
}

/// Prints figures, and what is told beside them, as rows or as a page.
fn print_figures<W: Write>(
    out: &mut W,
    counted: &Counted,
    request: &Request<'_>,
) -> Result<(), WriteFault> {
    let (told, figures) = (&counted.told, counted.figures.as_slice());
    let (shown, clock) = (&request.shown, &counted.times.clock);
    if request.rows {
        print_tables(out, told, figures, shown, clock)?;
    } else {
        let names = ChannelNames::of(counted.front.as_slice());
        print_page(out, told, figures, shown, clock, &names)?;
    }
    if shown.long {
        print_kinds(out, counted.kinds.as_slice(), request.rows)?;
    }
    Ok(())
}
