//! `bench explain`: what codes mean, and what to do.

use bench_explain::{explain, print_explanation, print_list};
use clap::{ArgMatches, Command};
use command_parts::options::{arguments, command_of, words_in};
use command_parts::requests::CommandFault;
use command_parts::streams::{Printable, on_stream, print_to_output};
use std::alloc::{AllocError, Global};
use std::io;
use std::io::Write;

/// The command line of `bench explain`.
pub fn command<'a>(alloc: Global) -> Result<Command<'a>, AllocError> {
    let about = "Says what a fault means, and what to do";
    let notes = "Examples:\n  bench explain S7\n  bench explain s4 m1";
    let codes = "The code to explain, as S7 or s7, or several; all codes where there is none";
    let rows = [arguments("CODE", codes)];
    command_of(alloc, "explain", about, notes, &[&rows])
}

/// Which codes are to be explained.
#[derive(Debug, Drop)]
pub struct Request<'a> {
    /// The words that spell them; all codes where there is none.
    pub codes: Vec<&'a str>,
}

/// What a command line asks of `bench explain`.
pub fn request_in<'a>(alloc: Global, given: &ArgMatches<'a>) -> Result<Request<'a>, AllocError> {
    Ok(Request {
        codes: words_in(alloc, given, "CODE")?,
    })
}

/// Prints what codes mean, or a line for each code where none is given. A word may have several codes, separated by
/// spaces. An unknown code is refused, and nothing is printed.
pub fn run<'a, R: AllocGlobal + Print>(
    rt: &R,
    request: &Request<'a>,
) -> Result<(), CommandFault<'a>> {
    let given = request.codes.as_slice();
    for word in given {
        for code in word.split(' ') {
            if !code.is_empty() && explain(code).is_none() {
                return Err(CommandFault::Unknown(code));
            }
        }
    }
    on_stream("-", print_to_output(rt, &Codes { given }))
}

/// The codes in these words, or where there is no word all of them.
#[derive(Drop)]
struct Codes<'a> {
    given: &'a [&'a str],
}

impl<'a> Printable for Codes<'a> {
    fn print_to<W: Write>(&self, out: &mut W) -> io::Result<()> {
        if self.given.is_empty() {
            print_list(out)?;
        }
        for word in self.given {
            for code in word.split(' ') {
                if let Some(explanation) = explain(code) {
                    print_explanation(out, explanation)?;
                }
            }
        }
        Ok(())
    }
}
