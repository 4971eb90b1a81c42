//! What is replied to a line.
ghost use Rattle.bench_step.specs.Session.{is_end, is_memory, job_text, reply_text, state_text};
ghost use Rattle.replay.specs.Moves.{OfJob};
ghost use Rattle.std.specs.Io.KnownBytes.{Appends};
ghost use Rattle.std.specs.Prelude.{◌≡◌, ◌<◌, length, MatchResult, OnOk};

use crate::help::commands;
use bench_report::Report;
use bench_state::{Detail, print_channel};
use replay::{Replay, ReplayError};
use std::io;
use std::io::Write;

/// What is replied to a line.
#[derive(Clone, Copy, Debug, PartialEq, Eq)]
pub enum Reply {
    /// The place that a move ended at.
    At(u64),
    /// Why it was not made, or a message not shown.
    Refused(ReplayError),
    /// What the terminals hold, in this detail.
    Shown(Detail),
    /// The message of a number, as people read it.
    Message(u64),
    /// The commands.
    Help,
    /// The session ends.
    Quit,
    /// The line asks nothing that a line may ask.
    Unknown,
}

impl Reply {
    /// What is replied to a move, made or not.
    pub(crate) fn to_move(replay: &Replay<'_>, moved: Result<(), ReplayError>) -> Reply
        ensures { MatchResult moved (λ _. result ≡ Reply.At replay.now.state.place) (λ e. result ≡ Reply.Refused e) }
    {
        match moved {
            Ok(()) => Reply::At(replay.place()),
            Err(fault) => Reply::Refused(fault),
        }
    }

    /// Whether memory was refused.
    pub(crate) fn is_memory(&self) -> bool
        ensures { result ≡ is_memory self.now }
    {
        matches!(self, Reply::Refused(ReplayError::Memory))
    }

    /// Whether the session ends.
    pub(crate) fn is_end(&self) -> bool
        ensures { result ≡ is_end self.now }
    {
        matches!(self, Reply::Quit)
    }

    /// Prints the reply, in the state that the line left, where the report is that of the run.
    pub(crate) fn print<W: Write>(
        &self,
        out: &mut W,
        replay: &Replay<'_>,
        report: &Report,
    ) -> io::Result<()>
        requires { report.now.channels ≡ replay.now.state.parts }
        ensures { OnOk result (Appends (W.contents out.old) (W.contents out.new)
            (reply_text self.now replay.now.state)) }
    {
        match self {
            Reply::At(place) => writeln!(out, "at {place}"),
            Reply::Refused(fault) => writeln!(out, "{fault}"),
            Reply::Shown(detail) => print_state(out, *detail, replay, report),
            Reply::Help => {
                let lines = commands();
                write!(out, "{lines}")
            }
            Reply::Message(_) | Reply::Quit => Ok(()),
            Reply::Unknown => writeln!(out, "unknown"),
        }
    }
}

/// Prints what the terminals of a channel hold.
fn print_job<W: Write>(
    out: &mut W,
    detail: Detail,
    replay: &Replay<'_>,
    report: &Report,
    index: usize,
) -> io::Result<()>
    requires report { report.now.channels ≡ replay.now.state.parts }
    requires within { index < length replay.now.state.jobs }
    ensures { OfJob replay.now.state index
        (λ job part. OnOk result (Appends (W.contents out.old) (W.contents out.new)
        (job_text detail replay.now.state job part))) }
{
    let parts = report.channels();
    if index >= parts.len() {
        return Ok(());
    }
    let machine = replay.state(index);
    print_channel(
        out,
        detail,
        replay.channel(index),
        machine.number(),
        machine,
    )
}

/// Prints what the terminals of all channels hold, in this detail and in the order of the jobs.
#[tactic(auto, unfolding(crate::specs::Session::state_text))]
fn print_state<W: Write>(
    out: &mut W,
    detail: Detail,
    replay: &Replay<'_>,
    report: &Report,
) -> io::Result<()>
    requires { report.now.channels ≡ replay.now.state.parts }
    ensures { OnOk result (Appends (W.contents out.old) (W.contents out.new) (state_text detail replay.now.state)) }
{
    for index in 0..replay.jobs() {
        print_job(out, detail, replay, report, index)?;
    }
    Ok(())
}
