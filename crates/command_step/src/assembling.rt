//! `bench assemble`: a script as an image for the bus controller.

use bench_assemble::{AssembleFault, Sizes, assemble_text, print_sizes};
use bench_files::{Hold, Kind, leads_to_output};
use clap::{ArgMatches, Command};
use command_parts::options::{argument, command_of, force};
use command_parts::replacing::may_write;
use command_parts::requests::{CommandFault, read_whole, write_new};
use command_parts::streams::{Printable, on_stream, print_to_output};
use std::alloc::{AllocError, Global};
use std::io;
use std::io::Write;
use std::rt::Files;

/// The command line of `bench assemble`.
pub fn command<'a>(alloc: Global) -> Result<Command<'a>, AllocError> {
    let about = "Assembles a script into an image for the bus controller, and prints its sizes";
    let notes = "Example:\n  bench assemble poll.script poll.bc";
    let image =
        "The file to write the image to, which is not the script; it is written only where the script is accepted";
    let rows = [
        force(),
        argument("SCRIPT", "The script to assemble, as a text"),
        argument("IMAGE", image),
    ];
    command_of(alloc, "assemble", about, notes, &[&rows])
}

/// The script that is to be assembled, and where to.
#[derive(Debug, Drop)]
pub struct Request<'a> {
    /// The file of the script.
    pub script: &'a str,
    /// The file to write the image to.
    pub image: &'a str,
    /// Whether a file of another kind may be replaced.
    pub force: bool,
}

/// What a command line asks of `bench assemble`.
pub fn request_in<'a>(given: &ArgMatches<'a>) -> Request<'a> {
    Request {
        script: given.get_str("SCRIPT").unwrap_or(""),
        image: given.get_str("IMAGE").unwrap_or(""),
        force: given.get_flag("force"),
    }
}

/// Writes the image of a script to a file, which may not be the script, and prints its sizes, to the standard error
/// where the image went to the standard output.
pub fn run<'a, R: Files<File: Hold> + AllocGlobal + Print, E: Eprint>(
    rt: &R,
    errors: &E,
    request: &Request<'a>,
) -> Result<(), CommandFault<'a>> {
    let (script, image, force) = (request.script, request.image, request.force);
    may_write(rt, image, Kind::Image, force, &[script])?;
    let text = read_whole(rt, script)?;
    let (bytes, sizes) = match assemble_text(rt.alloc(), text.as_slice()) {
        Ok(made) => made,
        Err(AssembleFault::Memory) => return Err(CommandFault::Memory),
        Err(fault) => return Err(CommandFault::Script(fault)),
    };
    let is_output = leads_to_output(rt, image);
    write_new(rt, image, Kind::Image, force, bytes.as_slice())?;
    if is_output {
        // Nothing else is lost where standard error takes no more.
        let _ = eprintln!(errors; "{sizes}");
        return Ok(());
    }
    on_stream("-", print_to_output(rt, &PrintedSizes { sizes: &sizes }))
}

/// The sizes of an image, as they are printed.
#[derive(Drop)]
struct PrintedSizes<'s> {
    sizes: &'s Sizes,
}

impl Printable for PrintedSizes<'_> {
    fn print_to<W: Write>(&self, out: &mut W) -> io::Result<()> {
        print_sizes(out, self.sizes)
    }
}
