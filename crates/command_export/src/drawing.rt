//! `bench draw`: the messages of a recording as a picture.

use bench_draw::{Asked, By, DrawFault, draw};
use bench_files::{Hold, Kind};
use bench_names::ChannelNames;
use clap::{ArgMatches, Command};
use command_parts::extracting::extract_options;
use command_parts::opening::ChosenMessages;
use command_parts::options::{choice, command_of};
use command_parts::recordings::{Recording, fault_of_reading};
use command_parts::requests::CommandFault;
use command_parts::selecting::selection_options;
use command_parts::showing::{Known, Showing, ShownText, Shows, showing_options};
use std::alloc::{AllocError, Global};
use std::io::IsTerminal;
use std::rt::{Clock, Files};

/// What the help of `bench draw` ends with.
const NOTES: &str = "\
Each channel has a lane for bus A and one for bus B. Over the time that a message took stand its command words
with the terminal that they call, its data words, and the status words with the terminal that answered; over it
its number, the address, R to receive or T to transmit and the subaddress; a red mark stands for an error and its
kind. Of up to 24 messages all are labelled, of more those that have the room. Where messages are too close for
that, the load of each lane is drawn, the share of the time in percent that its messages take, by one scale for
all lanes; --from and --to show a part of them. Times are those of the recording, from tick 0 of its stamps, or
from 1970 where these are times of day. Where commands recur with a period, a dashed line marks the begin of a
frame. Where the mouse rests on a bar, a browser shows the message decoded.

With --by terminal a channel has a lane for each terminal that is called, in rising order, and one for broadcast in
place of those of its lines. It has the words that the terminal sends or is sent, so that a transfer stands in two
lanes; B stands behind the number of a message on bus B. A message without words has no terminal.

With --signals DICTIONARY (bench signals --help) each signal has a lane of its own below, for each channel that has it
(up to 64): its values over time as steps, with the least and the greatest at the left, or its names as bands; --only
then takes signal NAME too.

Example:
  bench draw flight.ch11 --out flight.svg
  bench draw flight.ch11 --out retry.svg --channel 2 --from 15 --to 20
  bench draw flight.ch11 --out terminals.svg --by terminal --to 40ms
  bench draw flight.ch11 --out speed.svg --signals avionics.signals";

/// The command line of `bench draw`.
pub fn command<'a>(alloc: Global) -> Result<Command<'a>, AllocError> {
    let about = "Draws the messages of a recording over time, as a picture for a browser";
    let out = "The file to write the picture to, as SVG";
    let rows = extract_options("The Chapter 11 file to draw", out);
    let signals = "The dictionary of signals of which each has a lane";
    let by = "Lanes by bus line, as where it is left out, or by terminal";
    let lanes = [choice("by", "WHAT", &["line", "terminal"], by)];
    let (more, selection) = (showing_options(signals), selection_options());
    command_of(
        alloc,
        "draw",
        about,
        NOTES,
        &[&rows, &lanes, &more, &selection],
    )
}

/// What is to be drawn, and where to.
#[derive(Debug, Drop)]
pub struct Request<'a> {
    /// Which messages, with which signals, and the file to write to.
    pub showing: Showing<'a>,
    /// By what the messages of a channel have lanes.
    pub by: By,
}

/// What a command line asks of `bench draw`.
pub fn request_in<'a>(given: &ArgMatches<'a>) -> Request<'a> {
    Request {
        showing: Showing::given(given),
        by: match given.get_str("by") {
            Some("terminal") => By::Terminal,
            _ => By::Line,
        },
    }
}

/// Writes the messages of a recording, or those that were selected, as a picture.
pub fn run<'a, R: Files<File: Hold> + AllocGlobal + Clock, E: Eprint + IsTerminal>(
    rt: &R,
    errors: &E,
    request: &Request<'a>,
) -> Result<(), CommandFault<'a>> {
    let _shown = request.showing.run(rt, errors, Kind::Picture, request)?;
    Ok(())
}

impl Shows for Request<'_> {
    fn show<'a, R: Files + AllocGlobal + Clock, E: Eprint + IsTerminal>(
        &self,
        recording: &Recording<'_, 'a, R, E>,
        chosen: ChosenMessages<'_>,
        known: &Known,
    ) -> Result<ShownText, CommandFault<'a>> {
        let names = ChannelNames::of(known.front.as_slice());
        let asked = Asked {
            selection: chosen.selection,
            signals: chosen.signals,
            by: self.by,
        };
        match draw(recording.alloc(), recording, &asked, &known.clock, &names) {
            Ok(drawing) => Ok(ShownText {
                text: drawing.text,
                chosen: drawing.messages,
                shown: drawing.messages,
            }),
            Err(fault) => Err(fault_of_drawing(recording.name(), fault)),
        }
    }
}

/// The fault of a recording with this name that was not drawn.
fn fault_of_drawing<'a>(name: &'a str, fault: DrawFault) -> CommandFault<'a> {
    match fault {
        DrawFault::Opening(error) => CommandFault::of_stream(name, &error),
        DrawFault::Recording(fault) => fault_of_reading(name, fault),
    }
}
