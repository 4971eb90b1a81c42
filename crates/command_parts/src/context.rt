//! When the lines that explain a fault, or a reply that refuses a line, stand behind it.

use clap::{Arg, ArgMatches};
use std::alloc::Global;
use std::io::IsTerminal;

/// When the lines that explain a fault, or a reply that refuses a line, stand behind it.
#[derive(Clone, Copy, Debug, PartialEq, Eq)]
pub enum Context {
    /// Behind a fault wherever it goes, as to the log of a build; behind a reply where it goes to a terminal.
    Auto,
    /// Behind both wherever they go.
    Always,
    /// Nowhere: the line of the fault, or of the reply, stands alone.
    Never,
}

impl Context {
    /// Whether they stand behind faults.
    pub fn is_shown(self) -> bool {
        match self {
            Context::Auto | Context::Always => true,
            Context::Never => false,
        }
    }

    /// Whether they stand behind replies, and go there.
    pub fn is_shown_behind_replies<E: IsTerminal>(self, errors: &E) -> bool {
        match self {
            Context::Auto => errors.is_terminal(),
            Context::Always => true,
            Context::Never => false,
        }
    }
}

/// The option that says so, of all commands.
pub fn context_option<'a>(alloc: Global) -> Arg<'a> {
    Arg::new(alloc, "context")
        .long("context")
        .value_name("WHEN")
        .value_parser(["auto", "always", "never"].as_slice())
        .default_value("auto")
        .global(true)
        .help(
            "Explains a fault in lines behind it: auto or always, or never; always explains replies of step too",
        )
}

/// What the option says.
pub fn context_in(given: &ArgMatches<'_>) -> Context {
    match given.get_str("context") {
        Some("always") => Context::Always,
        Some("never") => Context::Never,
        _ => Context::Auto,
    }
}
