//! Why `bench` stops, and with which exit status.
ghost use Rattle.bench_requests.specs.Listings.{is_of_output};
ghost use Rattle.bench_requests.specs.Status.{status_of, fault_of, fault_of_reading, fault_of_settings};
ghost use Rattle.bench_requests.specs.Status.{IsOfOut, IsOfStep};
ghost use Rattle.bench_requests.specs.declared.fault.CommandFault.TheVariants as faults;
ghost use Rattle.std.specs.Prelude.{◌≡◌};

use bench_assemble::AssembleFault;
use bench_files::{Kind, OutError};
use bench_one::OneFault;
use bench_report::ReportError;
use bench_run::RunError;
use bench_settings::WorldError;
use bench_step::StepFault;
use ch11_reader::{ReadError, Refusal};
use job_file::JobError;
use judge_rules::RuleError;
use signal_dictionary::DictionaryError;
use std::alloc::AllocError;
use std::io;
use thiserror::Error;

/// Why a command gave up; its text is what follows `bench: `.
#[derive(Debug, Drop, Error)]
pub enum CommandFault<'a> {
    /// A message's text was refused.
    #[error("{0}")]
    Text(OneFault),
    /// A script was refused.
    #[error("{0}")]
    Script(AssembleFault),
    /// A recording was refused.
    #[error("{0}")]
    Recording(Refusal),
    /// One of two recordings, the one with this name, was refused.
    #[error("{refusal}")]
    OneOfTwo { name: &'a str, refusal: Refusal },
    /// The text of a report was refused.
    #[error("{0}")]
    Report(ReportError),
    /// Jobs, report and recording do not agree, and this is the first difference.
    #[error("Y1 channel {channel} number {number}")]
    Mismatch { channel: u16, number: u32 },
    /// The text of a job was refused.
    #[error("{0}")]
    Job(JobError),
    /// Jobs, settings or a prologue were refused before anything was run.
    #[error("{0}")]
    Run(WorldError),
    /// The out file failed once it had taken so many bytes of the recording.
    #[error("U4 taken {taken}")]
    Sink { taken: u64 },
    /// A file or a stream failed; its name as given, `-` for standard input and output.
    #[error("device {0}")]
    Device(&'a str),
    /// The system refused a file or a stream, with a number that has words of its own.
    #[error("device {name}")]
    System { name: &'a str, code: i32 },
    /// There is no such code to explain.
    #[error("unknown {0}")]
    Unknown(&'a str),
    /// The text of rules was refused.
    #[error("{0}")]
    Rules(RuleError),
    /// The text of a dictionary of signals was refused.
    #[error("{0}")]
    Dictionary(DictionaryError),
    /// No message of a recording is among those that were asked for.
    #[error("no message is selected")]
    NoneSelected,
    /// A rule is not held. All was printed.
    #[error("a rule is not held")]
    NotHeld,
    /// Something in a job is probably a mistake, where this is asked for. All was printed.
    #[error("something is probably a mistake")]
    Suspicious,
    /// Two recordings differ. All was printed.
    #[error("the recordings differ")]
    Differ,
    /// Memory was refused.
    #[error("memory")]
    Memory,
    /// A usage fault: this file would be written over, since it is also the other one.
    #[error("'{written}' and '{other}' are one file, which would be written over")]
    OneFile { written: &'a str, other: &'a str },
    /// Another process is writing this file.
    #[error("device {0}")]
    Busy(&'a str),
    /// A usage fault: this file is there, and is not of the kind that would take its place.
    #[error("'{name}' is no {kind}, and would be written over; --force allows it")]
    OtherKind { name: &'a str, kind: Kind },
    /// A usage fault: what is there under the name that a file has until it is whole is of another kind.
    #[error("'{name}.part' is no part of a {kind}, and would be written over: move it away")]
    OtherPart { name: &'a str, kind: Kind },
    /// Another usage fault, which the files or the words of the command line show.
    #[error("{0}")]
    Usage(&'static str),
}

impl<'a> CommandFault<'a> {
    /// The exit status: 1 input refused, 2 usage, 3 device, 4 memory, 5 a rule is not held, recordings differ, or
    /// something is probably a mistake where this is asked for.
    pub fn status(&self) -> u8
        ensures { result ≡ status_of self.now }
    {
        match self {
            CommandFault::Text(_) | CommandFault::Script(_) | CommandFault::Recording(_) => 1,
            CommandFault::Job(_) | CommandFault::Run(_) | CommandFault::OneOfTwo { .. } => 1,
            CommandFault::Report(_) | CommandFault::Mismatch { .. } => 1,
            CommandFault::Rules(_) | CommandFault::Unknown(_) => 1,
            CommandFault::Dictionary(_) => 1,
            CommandFault::NoneSelected => 1,
            CommandFault::Sink { .. } | CommandFault::Device(_) => 3,
            CommandFault::System { .. } => 3,
            CommandFault::Memory => 4,
            CommandFault::NotHeld | CommandFault::Suspicious => 5,
            CommandFault::Differ => 5,
            CommandFault::OneFile { .. } | CommandFault::Usage(_) => 2,
            CommandFault::Busy(_) => 3,
            CommandFault::OtherKind { .. } | CommandFault::OtherPart { .. } => 2,
        }
    }

    /// Whether it is a fault of the standard output, which has no name but `-`.
    pub fn is_of_output(&self) -> bool
        ensures { result ≡ is_of_output self.now }
    {
        match self {
            CommandFault::Device(name) | CommandFault::System { name, .. } => *name == "-",
            _ => false,
        }
    }

    /// The fault of jobs and settings that may not be run.
    pub fn of_settings(error: WorldError) -> CommandFault<'a>
        ensures { result ≡ fault_of_settings error }
    {
        match error {
            WorldError::Memory => CommandFault::Memory,
            refused => CommandFault::Run(refused),
        }
    }

    /// The fault of a run that gave no recording.
    pub fn of_run<S>(error: &RunError<S>) -> CommandFault<'a>
        ensures { result ≡ fault_of error.now }
    {
        match error {
            RunError::Settings { .. } => CommandFault::Run(WorldError::Settings),
            RunError::ChannelTwice { .. } => CommandFault::Run(WorldError::ChannelTwice),
            RunError::Prologue { .. } => CommandFault::Run(WorldError::Prologue),
            RunError::Memory { .. } => CommandFault::Memory,
            RunError::Sink { taken, .. } => CommandFault::Sink { taken: *taken },
        }
    }

    /// The fault of a session that ended before its lines did, or with a refusal for memory.
    pub fn of_step(fault: &StepFault) -> CommandFault<'a>
        ensures { IsOfStep fault.now result }
    {
        match fault {
            StepFault::Refused(refusal) => CommandFault::Recording(*refusal),
            StepFault::Mismatch { channel, number } => CommandFault::Mismatch {
                channel: *channel,
                number: *number,
            },
            StepFault::Memory | StepFault::LineMemory => CommandFault::Memory,
            StepFault::Input | StepFault::Output => CommandFault::Device("-"),
        }
    }

    /// The fault of a file with this name that cannot be written by one of this kind.
    pub(crate) fn of_out(name: &'a str, kind: Kind, error: &OutError) -> CommandFault<'a>
        ensures { IsOfOut name.now kind error.now result }
    {
        match error {
            OutError::System(error) => CommandFault::of_stream(name, error),
            OutError::Busy => CommandFault::Busy(name),
            OutError::OtherKind => CommandFault::OtherKind { name, kind },
            OutError::OtherPart => CommandFault::OtherPart { name, kind },
        }
    }

    /// The fault of a file or stream with this name.
    pub fn of_stream(name: &'a str, error: &io::Error) -> CommandFault<'a> {
        if error.kind() == io::ErrorKind::OutOfMemory {
            return CommandFault::Memory;
        }
        match error.raw_os_error() {
            Some(code) => CommandFault::System { name, code },
            None => CommandFault::Device(name),
        }
    }
}

impl<'a> From<ReadError> for CommandFault<'a> {
    ghost from_gives = { λ cause e. e ≡ fault_of_reading cause };

    fn from(cause: ReadError) -> CommandFault<'a> {
        match cause {
            ReadError::Refused(refusal) => CommandFault::Recording(refusal),
            ReadError::Memory => CommandFault::Memory,
        }
    }
}

impl<'a> From<AllocError> for CommandFault<'a> {
    ghost from_gives = { λ _ e. e ≡ faults.Memory };

    fn from(_e: AllocError) -> CommandFault<'a> {
        CommandFault::Memory
    }
}
