//! What a command line names.

use command_parts::requests::RunRequest;
use command_parts::selecting::GivenSelection;

/// What a command line names, as far as its faults are explained by it; None where its command names no such thing.
#[derive(Clone, Copy)]
pub struct Named<'r, 'a> {
    /// The line (bus) and the message of `bench one`, as a text.
    pub text: Option<&'a str>,
    /// The file of a script.
    pub script: Option<&'a str>,
    /// The files of jobs.
    pub jobs: &'r [&'a str],
    /// The file of a report.
    pub report: Option<&'a str>,
    /// The file that is read as a recording.
    pub recording: Option<&'a str>,
    /// The file that is read as a recording, where it is to be made into a job.
    pub reproduced: Option<&'a str>,
    /// The file of rules.
    pub rules: Option<&'a str>,
    /// The file of a dictionary of signals.
    pub dictionary: Option<&'a str>,
    /// Which messages are asked for.
    pub selection: Option<&'r GivenSelection<'a>>,
    /// What a run is asked for.
    pub run: Option<&'r RunRequest<'a>>,
    /// Whether the recording of the run is completed.
    pub completes: bool,
    /// In which order the command takes files of more than one kind, as a line; empty where it takes one kind.
    pub order: &'static str,
}
