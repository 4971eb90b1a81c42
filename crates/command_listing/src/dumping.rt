//! `bench dump`: the packets and messages of a recording as lines.

use crate::decoding::{Messages, asks_for_messages, messages_in, show_messages};
use bench_dump::{dump, dump_skipping, dump_with_times};
use bench_json::{JsonLines, JsonSource};
use clap::{ArgMatches, Command};
use command_parts::looking::{tell_of_loss, tell_of_unknown, tell_of_unread};
use command_parts::options::{argument, command_of, file, flag, json, time_channel};
use command_parts::recordings::{Recording, Source, Times};
use command_parts::requests::{CommandFault, Listing, unless_gone};
use command_parts::selecting::selection_options;
use command_parts::streams::unless_refused;
use std::alloc::{AllocError, Global};
use std::io::{self, IsTerminal, Write};
use std::rt::{Clock, Env, Files};

/// The options of `bench dump` that ask for messages alone, whose lines have no time of day.
const FOR_MESSAGES: &[&str] = &[
    "decode", "by-time", "channel", "line", "only", "errors", "from", "to",
];

/// What the help of `bench dump` ends with.
const NOTES: &str = "\
Each message is shown with its number in the file, the channel, the time stamp in ticks of 0.1 us, the block
status word, the gap times word and the bus words. Block status word, in hexadecimal digits that add up:

  2000  bus B                       0020  word count error
  1000  message error (any below)   0010  sync type error
  0800  terminal-to-terminal        0008  invalid word error
  0200  response time-out

Gap times word: the last two digits are the response time of the first reply in ticks, the first two that of
the second.

A recording with a fault is refused, and nothing is shown, unless --skip is given: then a line
`skipped OFFSET length LENGTH FAULT` stands in the place of the bytes that are no packet.

With --time each stamp is followed by its time of day, ` time YYYY-MM-DDTHH:MM:SS.fffffff` (UTC), its own where
stamps are times of day (IEEE 1588), else by the last time packet at or before it. A recording of counters without
time packets, as `bench complete --time` writes them, has none.

With --decode each message is a line as people read it, with its time in seconds, its number in the file and in
its channel, its form, status words, data words and errors by name; packets have no line. --channel, --line, --only,
--errors, --from and --to show some messages alone, numbered as in the file, decoded or not. --by-time shows them
in the order of their time stamps, all channels together, those of one stamp in the file's order. --signals
DICTIONARY shows the values of signals behind the data words (bench signals --help); --only then takes signal NAME too.
--json shows each line as an object whose keys are the words of the line.

  SELECTOR  any, rx A S, tx A S, rt A S A S (sender first), mode A C, brx S, brt A S S (sender first), bmode C
            address A, subaddress S, mode code C: a number, or * for any
  BOUND     the number of a message in the file, as 7, or a time, as 1.2s, 350ms or 12us, down to 0.1us

Example:
  bench dump flight.ch11
  bench dump --skip cut.ch11
  bench dump --decode --errors --channel 2 flight.ch11
  bench dump --decode --by-time --only \"tx 5 3\" --from 1.2s flight.ch11";

/// The command line of `bench dump`.
pub fn command<'a>(alloc: Global) -> Result<Command<'a>, AllocError> {
    let about = "Shows the packets and messages of a recording, or its first fault";
    let skip = "Shows all packets that are sound, and what was skipped between them";
    let time = "Shows the time of day behind each time stamp, by the recording's time packets";
    let by_time = "Shows messages of all channels in the order of their time stamps";
    let rows = [
        flag("skip", skip),
        flag("time", time).never_with(FOR_MESSAGES),
        time_channel().only_with("time"),
        json().never_with(&["decode"]),
        argument("RECORDING", "The Chapter 11 file to show"),
        flag(
            "decode",
            "Shows each message as people read it, on one line",
        ),
        flag("by-time", by_time),
        file(
            "signals",
            "With --decode: the dictionary of signals to show behind data words",
        )
        .only_with("decode"),
    ];
    let selection = selection_options();
    command_of(alloc, "dump", about, NOTES, &[&rows, &selection])
}

/// What `bench dump` is asked for.
#[derive(Debug, Drop)]
pub enum Request<'a> {
    /// The packets and messages of a recording.
    Packets(Packets<'a>),
    /// The messages of a recording, or some of them.
    Messages(Messages<'a>),
}

/// A recording whose packets and messages are to be shown.
#[derive(Debug, Drop)]
pub struct Packets<'a> {
    /// The file of the recording.
    pub recording: &'a str,
    /// Whether a damaged recording is shown as far as it is sound.
    pub skip: bool,
    /// Whether each stamp is followed by its time of day, and who tells it.
    pub times: Times,
    /// Whether lines are JSON lines.
    pub json: bool,
}

/// What a command line asks of `bench dump`.
pub fn request_in<'a>(given: &ArgMatches<'a>) -> Request<'a> {
    if asks_for_messages(given) {
        return Request::Messages(messages_in(given));
    }
    Request::Packets(Packets {
        recording: given.get_str("RECORDING").unwrap_or(""),
        skip: given.get_flag("skip"),
        times: Times {
            asked: given.get_flag("time"),
            channel: given.get_one::<u16>("time-channel"),
        },
        json: given.get_flag("json"),
    })
}

/// Shows what is asked for of a recording.
pub fn run<'a, R: Env + Files + AllocGlobal + Print + Clock, E: Eprint + IsTerminal>(
    rt: &R,
    errors: &E,
    request: &Request<'a>,
) -> Result<(), CommandFault<'a>> {
    match request {
        Request::Packets(packets) => show_packets(rt, errors, packets),
        Request::Messages(messages) => show_messages(rt, errors, messages),
    }
}

/// Prints the packets and messages of a recording.
fn show_packets<'a, R: Files + AllocGlobal + Print + Clock, E: Eprint + IsTerminal>(
    rt: &R,
    errors: &E,
    request: &Packets<'a>,
) -> Result<(), CommandFault<'a>> {
    let source = Source::of(rt, errors, request.recording)?;
    let recording = source.recording(request.skip, true);
    let mut out = Listing::ending(io::writer(rt));
    let (printed, is_gone) = if request.json {
        let mut lines = JsonLines::over(rt.alloc(), JsonSource::Lines, out);
        let printed = print_packets(&recording, request, &mut lines);
        let told = unless_refused(lines.is_refused(), printed);
        (told, lines.inner().is_gone())
    } else {
        let printed = print_packets(&recording, request, &mut out);
        (printed, out.is_gone())
    };
    source.end();
    let told = match printed {
        Ok(unread) => {
            tell_of_unread(errors, request.recording, unread);
            if request.times.asked {
                let stamps = recording.stamps_unseen()?;
                tell_of_unknown(errors, request.recording, &stamps);
            }
            tell_of_loss(errors, &recording);
            Ok(())
        }
        Err(fault) => Err(fault),
    };
    unless_gone(is_gone, told)
}

/// Prints a recording, or what is sound of it. Answers whether times of day are asked for and it has time packets of
/// which none can be read.
fn print_packets<'a, R: Files + AllocGlobal + Clock, E: Eprint + IsTerminal, W: Write>(
    recording: &Recording<'_, 'a, R, E>,
    request: &Packets<'a>,
    out: &mut W,
) -> Result<bool, CommandFault<'a>> {
    if request.skip {
        print_sound(recording, request.times, out)
    } else {
        print_whole(recording, request.times, out)
    }
}

/// Prints a recording in two passes over it: nothing where the first refuses it. Where the reader of what is printed
/// goes away, the rest is not read. Answers whether times of day are asked for and it has time packets of which none
/// can be read.
fn print_whole<'a, R: Files + AllocGlobal + Clock, E: Eprint + IsTerminal, W: Write>(
    recording: &Recording<'_, 'a, R, E>,
    times: Times,
    out: &mut W,
) -> Result<bool, CommandFault<'a>> {
    let alloc = recording.alloc();
    let first = recording.begin_reading()?;
    let second = recording.begin_printing()?;
    let printed = if times.asked {
        dump_with_times(alloc, first, second, times.channel, out)
    } else {
        match dump(alloc, first, second, out) {
            Ok(()) => Ok(false),
            Err(fault) => Err(fault),
        }
    };
    recording.printed(printed)
}

/// Prints what is sound of a recording in one pass; its times of day come from one before it. Answers as `print_whole`
/// does.
fn print_sound<'a, R: Files + AllocGlobal + Clock, E: Eprint + IsTerminal, W: Write>(
    recording: &Recording<'_, 'a, R, E>,
    times: Times,
    out: &mut W,
) -> Result<bool, CommandFault<'a>> {
    let read = recording.clock(times)?;
    let bytes = recording.begin_printing()?;
    let printed = dump_skipping(recording.alloc(), bytes, &read.clock, times.asked, out);
    recording.printed(printed)?;
    Ok(read.unread)
}
