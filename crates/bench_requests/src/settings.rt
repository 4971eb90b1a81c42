//! What a run is asked to do, and the settings that are made of it.
ghost use Rattle.std.specs.Prelude.{◌≡◌};

use bench_settings::Settings;

/// What is to be recorded, and where to.
#[derive(Debug, Drop)]
pub struct RunRequest<'a> {
    /// The data type version in each packet header.
    pub version: u8,
    /// How many bytes a packet has at most, in range or not.
    pub limit: u32,
    /// How many items the queue holds at most, in range or not.
    pub queue: u32,
    /// Whether messages that find the queue full are refused; else buses wait while it is full.
    pub drops: bool,
    /// Whether files of another kind may be replaced.
    pub force: bool,
    /// Whether a run ends with a fault of its own where something in its jobs is probably a mistake.
    pub strict: bool,
    /// The file of the packets that stand in front of all others.
    pub prologue: Option<&'a str>,
    /// The file of the rules to judge the recording by, if any.
    pub judge: Option<&'a str>,
    /// The file of a dictionary whose signals these rules may name, if any.
    pub signals: Option<&'a str>,
    /// The file to write the recording to.
    pub out: &'a str,
    /// The file to write the report to.
    pub report: &'a str,
    /// The files of the jobs, however many.
    pub jobs: Vec<&'a str>,
}

/// The settings that a request asks for, with the bytes of its prologue. No host posts actions.
pub fn settings_of(request: &RunRequest<'_>, prologue: Vec<u8>) -> Settings
    ensures version { result.version ≡ request.now.version }
    ensures limit { result.limit ≡ request.now.limit }
    ensures queue { result.queue ≡ request.now.queue }
    ensures prologue { result.prologue.items ≡ prologue.items }
    ensures posts { result.posts ≡ 0 }
{
    Settings {
        version: request.version,
        limit: request.limit,
        queue: request.queue,
        prologue,
        posts: 0,
    }
}
