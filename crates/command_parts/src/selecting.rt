//! The options that choose messages of a recording, for all commands that look at one.

use crate::options::{Row, channel, choice, flag, signed};
use bench_requests::CommandFault;
use bench_select::{Bound, Selection, read_bound};
use clap::ArgMatches;
use judge_rules::{RuleFault, Selector, selector_of};
use mil_word::Line;
use signal_dictionary::Signal;
use text_lines::Words;

/// What a command line says of a selection.
#[derive(Clone, Copy, Debug)]
pub struct GivenSelection<'a> {
    channel: Option<u16>,
    line: Option<&'a str>,
    only: Option<&'a str>,
    errors: bool,
    from: Option<&'a str>,
    to: Option<&'a str>,
}

impl GivenSelection<'_> {
    /// Whether no option of a selection was given.
    pub fn is_empty(&self) -> bool {
        !self.errors
            && self.channel.is_none()
            && self.line.is_none()
            && self.only.is_none()
            && self.from.is_none()
            && self.to.is_none()
    }
}

impl<'a> GivenSelection<'a> {
    /// Its bounds, where both are numbers of messages or both times, and the first is above the last.
    pub fn crossed(&self) -> Option<(&'a str, &'a str)> {
        let (from, to) = (self.from?, self.to?);
        let is_crossed = match (read_bound(from.as_bytes())?, read_bound(to.as_bytes())?) {
            (Bound::Number(first), Bound::Number(last)) => first > last,
            (Bound::Time(first), Bound::Time(last)) => first > last,
            _ => false,
        };
        if is_crossed { Some((from, to)) } else { None }
    }
}

/// The options that choose messages.
pub fn selection_options<'a>() -> [Row<'a>; 6] {
    let only =
        "Only these messages, in the words of rules, as \"tx 5 3\", \"rt * * 7 *\" or \"mode * 2\"";
    let from =
        "No message before this one: its number in the file, or a time, as 1.2s, 350ms or 12us";
    [
        channel("channel", "Only messages of this channel, 1 to 65535"),
        choice(
            "line",
            "LINE",
            &["A", "B"],
            "Only messages on this line (bus)",
        ),
        signed("only", "SELECTOR", only),
        flag("errors", "Only messages with an error"),
        signed("from", "BOUND", from),
        signed(
            "to",
            "BOUND",
            "No message behind this one, or behind this time",
        ),
    ]
}

/// What a command line says of a selection.
pub fn given_selection<'a>(given: &ArgMatches<'a>) -> GivenSelection<'a> {
    GivenSelection {
        channel: given.get_one::<u16>("channel"),
        line: given.get_str("line"),
        only: given.get_str("only"),
        errors: given.get_flag("errors"),
        from: given.get_str("from"),
        to: given.get_str("to"),
    }
}

/// The selection that a command line asks for, or the usage fault of an option that spells none.
pub fn selection_in<'a>(
    given: &GivenSelection<'a>,
) -> Result<Selection<'static>, CommandFault<'a>> {
    match only_in(given.only)? {
        Only::Any => selection_of(given, None, None),
        Only::Commands(selector) => selection_of(given, Some(selector), None),
        Only::Signal(_) => Err(CommandFault::Usage(
            "--only signal NAME asks for a signal of a dictionary, and there is none",
        )),
    }
}

/// The same of a command that has a dictionary: a signal that is asked for is one of its own.
pub fn selection_among<'a, 's>(
    given: &GivenSelection<'a>,
    signals: &'s [Signal],
) -> Result<Selection<'s>, CommandFault<'a>> {
    match only_in(given.only)? {
        Only::Any => selection_of(given, None, None),
        Only::Commands(selector) => selection_of(given, Some(selector), None),
        Only::Signal(name) => match signal_named(signals, name) {
            Some(signal) => selection_of(given, None, Some(signal)),
            None => Err(CommandFault::Usage(
                "--only signal NAME asks for a signal that the dictionary does not have",
            )),
        },
    }
}

/// The usage fault of an option of a selection, wherever its signal is looked for.
pub fn judge_selection<'a>(given: &GivenSelection<'a>) -> Result<(), CommandFault<'a>> {
    only_in(given.only)?;
    let _selection = selection_of(given, None, None)?;
    Ok(())
}

/// The signal of this name, if there is one.
fn signal_named<'s>(signals: &'s [Signal], name: &[u8]) -> Option<&'s Signal> {
    for signal in signals {
        if signal.name.bytes.as_slice() == name {
            return Some(signal);
        }
    }
    None
}

/// The selection with this selector and this signal.
fn selection_of<'a, 's>(
    given: &GivenSelection<'a>,
    selector: Option<Selector>,
    signal: Option<&'s Signal>,
) -> Result<Selection<'s>, CommandFault<'a>> {
    Ok(Selection {
        channel: given.channel,
        line: match given.line {
            Some("A") => Some(Line::A),
            Some(_) => Some(Line::B),
            None => None,
        },
        selector,
        signal,
        errors: given.errors,
        from: bound_in(
            given.from,
            "--from takes the number of a message, counted from 1, or a time, as 1.2s, 350ms or 12us",
        )?,
        to: bound_in(
            given.to,
            "--to takes the number of a message, counted from 1, or a time, as 1.2s, 350ms or 12us",
        )?,
        origins: &[],
    })
}

/// The bound that an option spells, if it is given.
fn bound_in<'a>(
    text: Option<&'a str>,
    fault: &'static str,
) -> Result<Option<Bound>, CommandFault<'a>> {
    let Some(text) = text else {
        return Ok(None);
    };
    match read_bound(text.as_bytes()) {
        Some(bound) => Ok(Some(bound)),
        None => Err(CommandFault::Usage(fault)),
    }
}

/// What messages an option chooses by what they are.
#[derive(Clone, Copy)]
enum Only<'a> {
    /// All.
    Any,
    /// Those of these commands.
    Commands(Selector),
    /// Those that have the signal of this name.
    Signal(&'a [u8]),
}

/// What the option spells, if it is given.
fn only_in<'a>(text: Option<&'a str>) -> Result<Only<'a>, CommandFault<'a>> {
    let Some(text) = text else {
        return Ok(Only::Any);
    };
    let mut words = Words::of(text.as_bytes());
    if !words.takes(b"signal") {
        return selector_in(text);
    }
    match (words.next(), words.next()) {
        (Some(name), None) => Ok(Only::Signal(name)),
        _ => Err(CommandFault::Usage("--only signal takes one name of a dictionary")),
    }
}

/// The selector that a text spells.
fn selector_in<'a>(text: &str) -> Result<Only<'a>, CommandFault<'a>> {
    match selector_of(text.as_bytes()) {
        Ok(selector) => Ok(Only::Commands(selector)),
        Err(RuleFault::Number) => Err(CommandFault::Usage(
            "--only takes a selector of rules, as \"tx 5 3\" or \"mode * 2\", with a number or * in each place",
        )),
        Err(RuleFault::Range) => Err(CommandFault::Usage(
            "--only takes addresses of 0 to 30, subaddresses of 1 to 30 and mode codes of 0 to 31",
        )),
        Err(_) => Err(CommandFault::Usage(
            "--only takes a selector of rules: any, rx A S, tx A S, rt A S A S, mode A C, brx S, brt A S S or bmode C",
        )),
    }
}
