//! The options and arguments of the commands, as rows of tables.

use clap::{Arg, ArgAction, ArgMatches, Command, value_parser};
use std::alloc::{AllocError, Global};

/// An option or an argument of a command.
#[derive(Clone, Copy)]
pub struct Row<'a> {
    name: &'a str,
    takes: Takes<'a>,
    help: &'a str,
    /// Whether it has to be given.
    required: bool,
    /// What it is where it is not given, if anything.
    default: Option<&'a str>,
    /// The option that has to be given beside it, if any.
    needed: Option<&'a str>,
    /// The options that may not be given beside it.
    excluded: &'a [&'a str],
}

/// What an option or an argument takes.
#[derive(Clone, Copy)]
enum Takes<'a> {
    /// An option without a value.
    Flag,
    /// An option with a value that the help calls so.
    Value(&'a str),
    /// An option with a value that may begin with a minus sign.
    Signed(&'a str),
    /// An option with one of these words.
    Choice(&'a str, &'a [&'a str]),
    /// An option with a number of 0 to 255.
    Byte,
    /// An option with the number of a channel, 1 to 65535.
    Channel,
    /// An option with a number of 32 bits, which the command judges.
    Number,
    /// An argument.
    Argument,
    /// An argument that is given any number of times.
    Arguments,
}

impl<'a> Row<'a> {
    /// An option or an argument that may be left out, whatever else is given.
    fn new(name: &'a str, takes: Takes<'a>, help: &'a str) -> Row<'a> {
        Row {
            name,
            takes,
            help,
            required: false,
            default: None,
            needed: None,
            excluded: &[],
        }
    }

    /// The same, which has to be given.
    pub fn required(self) -> Row<'a> {
        Row {
            required: true,
            ..self
        }
    }

    /// The same, which is this where it is not given.
    pub fn or(self, default: &'a str) -> Row<'a> {
        Row {
            default: Some(default),
            ..self
        }
    }

    /// The same, which may be given beside another option alone.
    pub fn only_with(self, needed: &'a str) -> Row<'a> {
        Row {
            needed: Some(needed),
            ..self
        }
    }

    /// The same, which may not be given beside these options.
    pub fn never_with(self, excluded: &'a [&'a str]) -> Row<'a> {
        Row { excluded, ..self }
    }

    /// The option or argument itself.
    fn arg(self, alloc: Global) -> Result<Arg<'a>, AllocError> {
        let arg = Arg::new(alloc, self.name)
            .help(self.help)
            .required(self.required);
        let arg = defaulting(self.takes.of(arg, self.name), self.default);
        let arg = arg.conflicts_with_all(self.excluded)?;
        match self.needed {
            Some(needed) => arg.requires_arg(needed),
            None => Ok(arg),
        }
    }
}

impl<'a> Takes<'a> {
    /// An option or argument of this name that takes that.
    fn of(self, arg: Arg<'a>, name: &'a str) -> Arg<'a> {
        match self {
            Takes::Flag => arg.long(name).action(ArgAction::SetTrue),
            Takes::Value(called) => arg.long(name).value_name(called),
            Takes::Signed(called) => signed_option(arg, name, called),
            Takes::Choice(called, words) => arg.long(name).value_name(called).value_parser(words),
            Takes::Byte => {
                signed_option(arg, name, "N").value_parser(value_parser!(u8).range(0..=255))
            }
            Takes::Channel => {
                signed_option(arg, name, "N").value_parser(value_parser!(u16).range(1..=65535))
            }
            Takes::Number => {
                let numbers = value_parser!(u32).range(0..=4_294_967_295);
                signed_option(arg, name, "N").value_parser(numbers)
            }
            Takes::Argument => arg,
            Takes::Arguments => arg.num_args(0usize..),
        }
    }
}

/// An option of this name with a value that the help calls so, and that may begin with a minus sign.
fn signed_option<'a>(arg: Arg<'a>, name: &'a str, called: &'a str) -> Arg<'a> {
    arg.long(name)
        .value_name(called)
        .allow_negative_numbers(true)
}

/// An option that is this where it is not given, if anything.
fn defaulting<'a>(arg: Arg<'a>, default: Option<&'a str>) -> Arg<'a> {
    match default {
        Some(default) => arg.default_value(default),
        None => arg,
    }
}

/// An option without a value.
pub fn flag<'a>(name: &'a str, help: &'a str) -> Row<'a> {
    Row::new(name, Takes::Flag, help)
}

/// An option with a value that the help calls so.
pub fn value<'a>(name: &'a str, called: &'a str, help: &'a str) -> Row<'a> {
    Row::new(name, Takes::Value(called), help)
}

/// An option with a value that the help calls so, and that may begin with a minus sign.
pub(crate) fn signed<'a>(name: &'a str, called: &'a str, help: &'a str) -> Row<'a> {
    Row::new(name, Takes::Signed(called), help)
}

/// An option with one of these words, which the help calls so.
pub fn choice<'a>(name: &'a str, called: &'a str, words: &'a [&'a str], help: &'a str) -> Row<'a> {
    Row::new(name, Takes::Choice(called, words), help)
}

/// An option with the number of a channel.
pub fn channel<'a>(name: &'a str, help: &'a str) -> Row<'a> {
    Row::new(name, Takes::Channel, help)
}

/// The channel whose time packets tell times of day.
pub fn time_channel<'a>() -> Row<'a> {
    let help = "The channel whose time packets count, 1 to 65535; all where it is left out";
    channel("time-channel", help)
}

/// An option whose number the command judges.
pub fn number<'a>(name: &'a str, help: &'a str) -> Row<'a> {
    Row::new(name, Takes::Number, help)
}

/// An option with the name of a file.
pub fn file<'a>(name: &'a str, help: &'a str) -> Row<'a> {
    value(name, "FILE", help)
}

/// The leave to replace a file that is there, whatever it is.
pub fn force<'a>() -> Row<'a> {
    flag(
        "force",
        "Replaces a file that is there even where it is not of the kind that is written",
    )
}

/// What is printed as JSON lines.
pub fn json<'a>() -> Row<'a> {
    flag(
        "json",
        "Prints JSON lines, an object each, for other programs",
    )
}

/// The data type version of what is written.
pub fn version<'a>() -> Row<'a> {
    let help = "The data type version in each packet's header, 0 to 255, as you choose it";
    Row::new("version", Takes::Byte, help)
}

/// An argument.
pub fn optional<'a>(name: &'a str, help: &'a str) -> Row<'a> {
    Row::new(name, Takes::Argument, help)
}

/// An argument that has to be given.
pub fn argument<'a>(name: &'a str, help: &'a str) -> Row<'a> {
    optional(name, help).required()
}

/// An argument that is given any number of times.
pub fn arguments<'a>(name: &'a str, help: &'a str) -> Row<'a> {
    Row::new(name, Takes::Arguments, help)
}

/// The jobs that are run.
pub fn jobs<'a>() -> Row<'a> {
    let help = "The job of a channel, as a text; 1 to 32 of them, each of another channel";
    arguments("JOB", help)
}

/// A command of this name, with what its help begins and ends with, and the options and arguments of these tables.
pub fn command_of<'a>(
    alloc: Global,
    name: &'a str,
    about: &'a str,
    notes: &'a str,
    tables: &[&[Row<'a>]],
) -> Result<Command<'a>, AllocError> {
    let mut command = Command::new(alloc, name).about(about).after_help(notes);
    for rows in tables {
        command = with_rows(alloc, command, rows)?;
    }
    Ok(command)
}

/// A command with the options and arguments of a table behind those that it has.
fn with_rows<'a>(
    alloc: Global,
    command: Command<'a>,
    rows: &[Row<'a>],
) -> Result<Command<'a>, AllocError> {
    let mut command = command;
    for row in rows {
        command = with_option(command, row.arg(alloc))?;
    }
    Ok(command)
}

/// A command with an option that could be made.
fn with_option<'a>(
    command: Command<'a>,
    option: Result<Arg<'a>, AllocError>,
) -> Result<Command<'a>, AllocError> {
    match option {
        Ok(option) => command.arg(option),
        Err(error) => Err(error),
    }
}

/// What was given for an argument that is given any number of times.
pub fn words_in<'a>(
    alloc: Global,
    given: &ArgMatches<'a>,
    name: &str,
) -> Result<Vec<&'a str>, AllocError> {
    let mut words = Vec::new(alloc);
    words.extend_from_slice(given.get_strs(name).unwrap_or(&[]))?;
    Ok(words)
}
