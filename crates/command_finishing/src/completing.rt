//! The complete file of a recording: the options that are common to all who write one, its faults, and how it is
//! written.

use bench_complete::{CompleteFault, Completion, Places, UtcSecond};
use clap::ArgMatches;
use command_parts::options::{Row, channel, flag, value};
use command_parts::requests::{CommandFault, read_whole};
use std::alloc::Global;
use std::io::{self, BufWriter, Write};
use std::rt::Files;

/// The channel of the time packets where none is given.
const DEFAULT_TIME_CHANNEL: u16 = 65535;

/// The option that asks for time packets.
pub fn time<'a>() -> Row<'a> {
    value(
        "time",
        "YYYY-MM-DDTHH:MM:SS",
        "The UTC time at tick 0, 1970 to 2099, for a time packet each second",
    )
}

/// The option that names their channel.
pub fn time_channel<'a>() -> Row<'a> {
    let help = "The channel of the time packets, 1 to 65535, which has no packet in the recording";
    channel("time-channel", help).or("65535")
}

/// The option that adds time packets to those that are there.
pub fn second_time<'a>() -> Row<'a> {
    flag(
        "second-time",
        "Adds time packets to a recording that has some already",
    )
    .only_with("time")
}

/// The channel of the time packets that was given, or else the default.
pub fn time_channel_in(given: &ArgMatches<'_>) -> u16 {
    given
        .get_one::<u16>("time-channel")
        .unwrap_or(DEFAULT_TIME_CHANNEL)
}

/// What a fault of the library is to the program, by the names of the recording and of the out file.
pub fn fault_of<'a>(fault: CompleteFault, recording: &'a str, out: &'a str) -> CommandFault<'a> {
    match fault {
        CompleteFault::Refused(refusal) => CommandFault::Recording(refusal),
        CompleteFault::Memory => CommandFault::Memory,
        CompleteFault::Reader => CommandFault::Device(recording),
        CompleteFault::Device => CommandFault::Device(out),
        CompleteFault::SetupSize => CommandFault::Usage(
            "the text of --setup has 1 to 524000 bytes",
        ),
        CompleteFault::SetupTwice => CommandFault::Usage(
            "--setup for a recording that has computer generated data of type 01",
        ),
        CompleteFault::TimeTwice => CommandFault::Usage(
            "--time for a recording that has time packets, without --second-time",
        ),
        CompleteFault::ChannelTaken => CommandFault::Usage(
            "--time-channel has packets in the recording",
        ),
        CompleteFault::TooLong => CommandFault::Usage(
            "--time would make more than 1000000 time packets",
        ),
    }
}

/// The text of the setup record in this file; no byte where there is none.
pub fn setup_text<'a, R: Files + AllocGlobal>(
    rt: &R,
    name: Option<&'a str>,
) -> Result<Vec<u8>, CommandFault<'a>> {
    match name {
        Some(name) => read_whole(rt, name),
        None => Ok(Vec::new(rt.alloc())),
    }
}

/// The time at tick 0.
pub fn start_of<'a>(time: Option<&'a str>) -> Result<Option<UtcSecond>, CommandFault<'a>> {
    let Some(text) = time else {
        return Ok(None);
    };
    match UtcSecond::read(text) {
        Some(start) => Ok(Some(start)),
        None => Err(CommandFault::Usage(
            "--time takes a time of 1970 to 2099 as YYYY-MM-DDTHH:MM:SS",
        )),
    }
}

/// Why a complete file was not written to its end.
#[derive(Drop)]
pub enum Unwritten {
    /// A fault of the recording, of want of memory, or of the writer.
    Completing(CompleteFault),
    /// What the out file answered.
    Out(io::Error),
}

impl From<CompleteFault> for Unwritten {
    fn from(fault: CompleteFault) -> Unwritten {
        Unwritten::Completing(fault)
    }
}

impl From<io::Error> for Unwritten {
    fn from(error: io::Error) -> Unwritten {
        Unwritten::Out(error)
    }
}

/// Writes a complete file.
pub fn write_out<W: Write + Drop, S: Places + Drop>(
    alloc: Global,
    writer: W,
    completion: Completion<'_, S>,
) -> Result<(), Unwritten> {
    let mut completion = completion;
    let mut out = BufWriter::new(alloc, writer)?;
    completion.write(alloc, &mut out)?;
    out.flush()?;
    Ok(())
}

/// That a complete file was written, or the fault, by the names of the recording and of the out file.
pub fn answer_of_writing<'a>(
    written: Result<(), Unwritten>,
    recording: &'a str,
    out: &'a str,
) -> Result<(), CommandFault<'a>> {
    match written {
        Ok(()) => Ok(()),
        Err(Unwritten::Completing(fault)) => Err(fault_of(fault, recording, out)),
        Err(Unwritten::Out(error)) => Err(CommandFault::of_stream(out, &error)),
    }
}
