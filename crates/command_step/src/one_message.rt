//! `bench one`: one message on fresh terminals, printed as a packet.

use bench_one::{OneFault, one, print_bytes};
use clap::{ArgMatches, Command};
use command_parts::options::{argument, channel, command_of, version};
use command_parts::requests::CommandFault;
use command_parts::streams::{Printable, on_stream, print_to_output};
use std::alloc::{AllocError, Global};
use std::io;
use std::io::Write;

/// The command line of `bench one`.
pub fn command<'a>(alloc: Global) -> Result<Command<'a>, AllocError> {
    let about = "Runs one message on fresh terminals and prints its packet";
    let notes = "Example:\n  bench one --channel 1 --version 6 \"A rx 5 1 [0001 0002 0003]\"";
    let text = "The line (bus), A or B, and the message, as in \"A rx 5 1 [0001]\"";
    let rows = [
        channel("channel", "The packet's channel, 1 to 65535").required(),
        version().required(),
        argument("TEXT", text),
    ];
    Ok(command_of(alloc, "one", about, notes, &[&rows])?.disable_version_flag(true))
}

/// The message that is to be run, and how its packet is printed.
#[derive(Debug, Drop)]
pub struct Request<'a> {
    /// The packet's channel.
    pub channel: u16,
    /// The packet's data type version.
    pub version: u8,
    /// The line (bus) and the message, as a text.
    pub text: &'a str,
}

/// What a command line asks of `bench one`.
pub fn request_in<'a>(given: &ArgMatches<'a>) -> Request<'a> {
    Request {
        channel: given.get_one::<u16>("channel").unwrap_or(1),
        version: given.get_one::<u8>("version").unwrap_or(0),
        text: given.get_str("TEXT").unwrap_or(""),
    }
}

/// Runs a message on fresh terminals, and prints its packet.
pub fn run<'a, R: AllocGlobal + Print>(
    rt: &R,
    request: &Request<'a>,
) -> Result<(), CommandFault<'a>> {
    let text = request.text.as_bytes();
    let bytes = match one(rt.alloc(), request.channel, request.version, text) {
        Ok(bytes) => bytes,
        Err(OneFault::Memory) => return Err(CommandFault::Memory),
        Err(fault) => return Err(CommandFault::Text(fault)),
    };
    let packet = PacketBytes {
        bytes: bytes.as_slice(),
    };
    on_stream("-", print_to_output(rt, &packet))
}

/// The bytes of a packet.
#[derive(Drop)]
struct PacketBytes<'a> {
    bytes: &'a [u8],
}

impl<'a> Printable for PacketBytes<'a> {
    fn print_to<W: Write>(&self, out: &mut W) -> io::Result<()> {
        print_bytes(out, self.bytes)
    }
}
