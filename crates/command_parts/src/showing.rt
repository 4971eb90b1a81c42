//! Messages of a recording that are shown with their signals, as `bench draw` and `bench view` do.

use crate::extracting::Extract;
use crate::looking::tell_of_unread;
use crate::opening::{ChosenMessages, OpenWay, Opened};
use crate::options::{Row, file, time_channel};
use crate::recordings::{Recording, Times};
use bench_clock::Clock as RecordingClock;
use bench_files::{Hold, Kind};
use bench_requests::{CommandFault, write_new};
use clap::ArgMatches;
use std::io::IsTerminal;
use std::rt::{Clock, Files};

/// Which messages are shown, with which signals, and where to.
#[derive(Debug, Drop)]
pub struct Showing<'a> {
    /// Which messages, and the file to write to.
    pub extract: Extract<'a>,
    /// The channel whose time packets tell times of day; all where none is named.
    pub time_channel: Option<u16>,
    /// The file of a dictionary whose signals are shown, if any.
    pub signals: Option<&'a str>,
}

/// What is known of a recording beside its messages.
#[derive(Drop)]
pub struct Known {
    /// Its clock.
    pub clock: RecordingClock,
    /// Its first bytes, with the names of its channels.
    pub front: Vec<u8>,
    /// Whether it has time packets of which none can be read.
    unread: bool,
}

/// Messages that are shown in one text.
#[derive(Drop)]
pub struct ShownText {
    /// The text.
    pub text: Vec<u8>,
    /// How many messages are chosen.
    pub chosen: u64,
    /// How many of them the text has.
    pub shown: u64,
}

/// How messages of a recording are shown.
pub trait Shows {
    /// Shows the messages that are chosen of a recording of which this is known.
    fn show<'a, R: Files + AllocGlobal + Clock, E: Eprint + IsTerminal>(
        &self,
        recording: &Recording<'_, 'a, R, E>,
        chosen: ChosenMessages<'_>,
        known: &Known,
    ) -> Result<ShownText, CommandFault<'a>>;
}

/// The options that say with which signals, as the help describes their dictionary, and by which time packets.
pub fn showing_options<'a>(signals: &'a str) -> [Row<'a>; 2] {
    [file("signals", signals), time_channel()]
}

impl<'a> Showing<'a> {
    /// What a command line says of it.
    pub fn given(given: &ArgMatches<'a>) -> Showing<'a> {
        Showing {
            extract: Extract::given(given),
            time_channel: given.get_one::<u16>("time-channel"),
            signals: given.get_str("signals"),
        }
    }

    /// Shows the messages of a recording, or those that were selected, in a file of this kind. It takes the place of
    /// what is there once it is whole; it may be none of the files that are read. Where a selection has no message,
    /// nothing is written, and that is said.
    pub fn run<R: Files<File: Hold> + AllocGlobal + Clock, E: Eprint + IsTerminal, M: Shows>(
        &self,
        rt: &R,
        errors: &E,
        kind: Kind,
        manner: &M,
    ) -> Result<ShownText, CommandFault<'a>> {
        let extract = &self.extract;
        let opened = extract.open(rt, errors, self.opening(kind))?;
        let shown = shown_of(&opened, manner);
        opened.end(errors);
        let (shown, unread) = shown?;
        extract.judge_selected(shown.chosen > 0)?;
        write_new(rt, extract.out, kind, extract.force, shown.text.as_slice())?;
        tell_of_unread(errors, extract.recording, unread);
        Ok(shown)
    }

    /// How its recording is opened for a file of this kind.
    fn opening(&self, kind: Kind) -> OpenWay<'a> {
        let times = Times {
            asked: true,
            channel: self.time_channel,
        };
        OpenWay::stamped(kind, self.signals, times)
    }
}

/// Shows the messages that are chosen, once their recording's clock, in a pass, and its first bytes are known; and
/// answers whether the recording has time packets of which none can be read.
fn shown_of<'a, R: Files + AllocGlobal + Clock, E: Eprint + IsTerminal, M: Shows>(
    opened: &Opened<'_, 'a, R, E>,
    manner: &M,
) -> Result<(ShownText, bool), CommandFault<'a>> {
    let recording = opened.recording();
    let known = known_of(&recording, opened.opening.times)?;
    let shown = manner.show(&recording, opened.chosen()?, &known)?;
    Ok((shown, known.unread))
}

/// What is known of a recording: a pass for its clock, and its first bytes.
fn known_of<'a, R: Files + AllocGlobal + Clock, E: Eprint + IsTerminal>(
    recording: &Recording<'_, 'a, R, E>,
    times: Times,
) -> Result<Known, CommandFault<'a>> {
    let read = recording.clock(times)?;
    let front = recording.front()?;
    Ok(Known {
        clock: read.clock,
        front,
        unread: read.unread,
    })
}
