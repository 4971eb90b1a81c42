//! `bench dump --decode`, and the selection of messages of `bench dump`.

use bench_decode::{Output, Shown, decode, decode_by_time};
use bench_json::{JsonLines, JsonSource};
use clap::ArgMatches;
use command_parts::dictionaries::{selection_by, signals_in};
use command_parts::looking::{tell_of_loss, tell_of_unknown};
use command_parts::recordings::{Recording, Source};
use command_parts::requests::{CommandFault, Listing, unless_gone};
use command_parts::selecting::{GivenSelection, given_selection, judge_selection};
use command_parts::streams::unless_refused;
use command_parts::terminals::is_for_people;
use signal_dictionary::Signal;
use std::io::{self, IsTerminal, Printer, Write};
use std::rt::{Clock, Env, Files};

/// The messages that are to be shown of a recording, and how.
#[derive(Debug, Drop)]
pub struct Messages<'a> {
    /// The file of the recording.
    pub recording: &'a str,
    /// Which of its messages.
    pub selection: GivenSelection<'a>,
    /// Whether as people read them, or else as in any dump.
    pub decoded: bool,
    /// Whether a damaged recording is shown as far as it is sound.
    pub skip: bool,
    /// Whether in the order of their stamps, or else in the file's.
    pub by_time: bool,
    /// Whether lines are JSON lines.
    pub json: bool,
    /// The file of a dictionary whose signals are shown behind data words, if any.
    pub signals: Option<&'a str>,
}

impl<'a> Messages<'a> {
    /// The signals of the dictionary, none where no dictionary is named. A usage fault of the words comes before its
    /// own.
    fn dictionary<R: Files + AllocGlobal>(&self, rt: &R) -> Result<Vec<Signal>, CommandFault<'a>> {
        judge_selection(&self.selection)?;
        signals_in(rt, self.signals)
    }
}

/// Whether `bench dump` is asked for messages alone: decoded, by time, or some of them.
pub(crate) fn asks_for_messages(given: &ArgMatches<'_>) -> bool {
    given.get_flag("decode") || given.get_flag("by-time") || !given_selection(given).is_empty()
}

/// The messages that a command line asks `bench dump` for.
pub(crate) fn messages_in<'a>(given: &ArgMatches<'a>) -> Messages<'a> {
    Messages {
        recording: given.get_str("RECORDING").unwrap_or(""),
        selection: given_selection(given),
        decoded: given.get_flag("decode"),
        skip: given.get_flag("skip"),
        by_time: given.get_flag("by-time"),
        json: given.get_flag("json"),
        signals: given.get_str("signals"),
    }
}

/// Shows the messages that are asked for. Where a selection has none, it says so and ends with the status of a refused
/// input.
pub(crate) fn show_messages<
    'a,
    R: Env + Files + AllocGlobal + Print + Clock,
    E: Eprint + IsTerminal,
>(rt: &R, errors: &E, request: &Messages<'a>) -> Result<(), CommandFault<'a>> {
    let signals = request.dictionary(rt)?;
    let output = output_of(rt, request, signals.as_slice())?;
    let source = if request.by_time {
        Source::kept(rt, errors, request.recording)?
    } else {
        Source::of(rt, errors, request.recording)?
    };
    let recording = source.recording(request.skip, true);
    let stamps = recording.stamps(tells_times(&output, request.by_time))?;
    let output = output.counting_from(stamps.origins.as_slice());
    let mut out = listing_of(rt, &output);
    let (printed, is_gone) = if request.json {
        let mut lines = JsonLines::over(rt.alloc(), JsonSource::Lines, out);
        let printed = print_messages(&recording, request.by_time, &output, &mut lines);
        let told = unless_refused(lines.is_refused(), printed);
        (told, lines.inner().is_gone())
    } else {
        let printed = print_messages(&recording, request.by_time, &output, &mut out);
        (printed, out.is_gone())
    };
    source.end();
    match printed {
        Ok(count) => {
            tell_of_unknown(errors, request.recording, &stamps);
            some_selected(count, &output)?;
            tell_of_loss(errors, &recording);
            Ok(())
        }
        Err(fault) => unless_gone(is_gone, Err(fault)),
    }
}

/// Whether anything is told of times, sorted or chosen by them.
fn tells_times(output: &Output, by_time: bool) -> bool {
    output.decoded || by_time || output.selection.is_timed()
}

/// Where messages are printed. What was printed tells that there is a message among those that are asked for, so that
/// the rest decides nothing where its reader has gone; but where skips are printed among them the rest may decide.
fn listing_of<'r, R: Print>(rt: &'r R, output: &Output) -> Listing<Printer<'r, R>> {
    if output.skip && !output.selection.is_all() {
        Listing::going_on(io::writer(rt))
    } else {
        Listing::ending(io::writer(rt))
    }
}

/// What is asked for, as it is printed.
fn output_of<'a, 's, R: Env + Files + AllocGlobal>(
    rt: &R,
    request: &Messages<'a>,
    signals: &'s [Signal],
) -> Result<Output<'s>, CommandFault<'a>> {
    let selection = selection_by(&request.selection, request.signals, signals)?;
    Ok(Output {
        selection,
        signals,
        decoded: request.decoded,
        shown: if request.decoded && is_for_people(rt) {
            Shown::Colored
        } else {
            Shown::Plain
        },
        skip: request.skip,
    })
}

/// The fault of a selection that has none of the messages.
fn some_selected<'a>(count: u64, output: &Output) -> Result<(), CommandFault<'a>> {
    if count == 0 && !output.selection.is_all() {
        return Err(CommandFault::NoneSelected);
    }
    Ok(())
}

/// Prints messages of a recording and answers how many. Those in the file's order take two passes over it, of which the
/// first checks that it can be read: none is printed where it refuses it, and one that may be damaged takes the second
/// alone. To sort them wants all of its bytes, which are kept.
fn print_messages<'a, R: Files + AllocGlobal + Clock, E: Eprint + IsTerminal, W: Write>(
    recording: &Recording<'_, 'a, R, E>,
    by_time: bool,
    output: &Output,
    out: &mut W,
) -> Result<u64, CommandFault<'a>> {
    let alloc = recording.alloc();
    if by_time {
        let bytes = recording.bytes().unwrap_or(&[]);
        return recording.printed(decode_by_time(alloc, bytes, out, output));
    }
    if !output.skip {
        recording.check()?;
    }
    let bytes = recording.begin_printing()?;
    recording.printed(decode(alloc, bytes, out, output))
}
