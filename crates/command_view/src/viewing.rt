//! `bench view`: the messages of a recording as one page for a browser.

use bench_files::{Hold, Kind};
use bench_names::ChannelNames;
use bench_view::{Asked, page_of, template};
use clap::{ArgMatches, Command};
use command_parts::extracting::extract_options;
use command_parts::opening::ChosenMessages;
use command_parts::options::command_of;
use command_parts::recordings::Recording;
use command_parts::requests::CommandFault;
use command_parts::selecting::selection_options;
use command_parts::showing::{Known, Showing, ShownText, Shows, showing_options};
use std::alloc::{AllocError, Global};
use std::io::IsTerminal;
use std::rt::{Clock, Files};

/// What the help of `bench view` ends with.
const NOTES: &str = "\
The page needs nothing else: no network, no program beside a browser. It shows the lanes of each channel's lines, or of
its terminals, over time, down to the words of a message; the load where messages are too close; errors at every scale;
the begins of frames; a list of the messages, by filters; and the message that is chosen decoded, as dump --decode has
it. Wheel, drag and keys move through time; ? shows the keys. The address of the page keeps what is seen, as #t=3.0s.

With --signals DICTIONARY (bench signals --help) the values of signals stand beneath the lanes over time, at the cursor
and with each message; --only then takes signal NAME too.

A page has the first 200,000 messages that were chosen, fewer where their lines take more than 38 MB; it says so.

Example:
  bench view flight.ch11 --out flight.html
  bench view flight.ch11 --out flight.html --signals avionics.signals
  bench view flight.ch11 --out part.html --channel 2 --from 3s --to 4s";

/// The command line of `bench view`.
pub fn command<'a>(alloc: Global) -> Result<Command<'a>, AllocError> {
    let about = "Makes one page of a recording's messages, to look at in a browser";
    let out = "The file to write the page to, as HTML";
    let rows = extract_options("The Chapter 11 file to look at", out);
    let signals = "The dictionary of signals whose values the page shows";
    let (more, selection) = (showing_options(signals), selection_options());
    command_of(alloc, "view", about, NOTES, &[&rows, &more, &selection])
}

/// What the page is of, and where to.
#[derive(Debug, Drop)]
pub struct Request<'a> {
    /// Which messages, with which signals, and the file to write to.
    pub showing: Showing<'a>,
}

/// What a command line asks of `bench view`.
pub fn request_in<'a>(given: &ArgMatches<'a>) -> Request<'a> {
    Request {
        showing: Showing::given(given),
    }
}

/// Writes the messages of a recording, or those that were selected, as a page, and says where it has not all of them.
pub fn run<'a, R: Files<File: Hold> + AllocGlobal + Clock, E: Eprint + IsTerminal>(
    rt: &R,
    errors: &E,
    request: &Request<'a>,
) -> Result<(), CommandFault<'a>> {
    let page = request.showing.run(rt, errors, Kind::Page, request)?;
    tell_of_more(errors, request.showing.extract.recording, &page);
    Ok(())
}

/// Says that a page has not all messages.
fn tell_of_more<E: Eprint>(errors: &E, name: &str, page: &ShownText) {
    if page.shown < page.chosen {
        let (shown, chosen) = (page.shown, page.chosen);
        // Nothing else is lost where standard error takes no more.
        let _ = eprintln!(errors;
            "bench: {name}: the page has the first {shown} of {chosen} messages; --from and --to choose others"
        );
    }
}

/// What a file is called without its folders.
fn file_name(path: &str) -> &str {
    match path.rsplit_once('/') {
        Some((_, name)) => name,
        None => path,
    }
}

impl Shows for Request<'_> {
    fn show<'a, R: Files + AllocGlobal + Clock, E: Eprint + IsTerminal>(
        &self,
        recording: &Recording<'_, 'a, R, E>,
        chosen: ChosenMessages<'_>,
        known: &Known,
    ) -> Result<ShownText, CommandFault<'a>> {
        let alloc = recording.alloc();
        let names = ChannelNames::of(known.front.as_slice());
        let asked = Asked {
            selection: chosen.selection,
            signals: chosen.signals,
            name: file_name(recording.name()),
        };
        let template = template(alloc)?;
        let input = recording.begin_reading()?;
        let made = page_of(alloc, input, &asked, &known.clock, &names, &template);
        let page = recording.answer(made)?;
        Ok(ShownText {
            text: page.text,
            chosen: page.chosen,
            shown: page.shown,
        })
    }
}
