//! A recording under the debugger, and the answer to a line.
ghost use Rattle.bench_decode.specs.Waiting.{no_lines};
ghost use Rattle.bench_decode.specs.declared.line.Shown.TheVariants.{Plain};
ghost use Rattle.bench_step.specs.Answering.{MayBeDebugged, IsLineAnswered, IsRefusal, opened_on};
ghost use Rattle.bench_step.specs.Commands.{asked, asked_of, show_at};
ghost use Rattle.bench_step.specs.Session.{Replies, after_reply, answer_text};
ghost use Rattle.bench_step.specs.Shown.{IsShown};
ghost use Rattle.std.specs.Io.KnownBytes.{Appends};
ghost use Rattle.std.specs.Prelude.{◌≡◌, IfOk, IfErr, OnOk};

use crate::commands::{Command, Way, read_command};
use crate::decoding::print_told;
use crate::fault::StepFault;
use crate::manners::Manner;
use crate::moves::{find_back, find_on, go_back, go_on, go_time, go_to, seek, select};
use crate::opening::open_replay;
use crate::replies::Reply;
use bench_decode::TextLine;
use bench_report::Report;
use job_file::Job;
use replay::{Replay, ReplayError};
use std::alloc::Global;
use std::io;
use std::io::Write;
use std::marker::Model;

/// A recording under the debugger, with the report of its run. Contracts see the debugger, and how lines are answered.
#[derive(Drop)]
pub(crate) struct Session<'a> {
    replay: Replay<'a>,
    report: &'a Report,
    manner: Manner,
}

impl<'a> Model for Session<'a> {
    ghost use Rattle.bench_step.specs.Answering.{SessionState};
    ghost use Rattle.job_file.specs.contracts.scripts.Script as scripts;
    ghost use Rattle.std.specs.Coded.{codes};
    ghost use Rattle.std.specs.Prelude.{◌≡◌};

    ghost Value = { SessionState };

    ghost coded = { Prim.hlevel (codes, scripts.the_row.coded) };

    ghost view = { λ s. record { debugger = s.replay.state; manner = s.manner } };

    ghost invariant = { λ s. s.report.now.channels ≡ s.replay.state.parts };
}

/// What became of a line: whether memory was refused for what it asks, and whether it ends the session.
#[derive(Clone, Copy, Debug, PartialEq, Eq)]
pub(crate) struct Answered {
    pub(crate) refused: bool,
    pub(crate) ends: bool,
}

/// Prints a reply in the state that the line left, and behind it the message that it shows, and flushes the writer.
fn print_answer<W: Write>(
    out: &mut W,
    decoded: &mut TextLine,
    manner: Manner,
    reply: &Reply,
    replay: &Replay<'_>,
    report: &Report,
) -> io::Result<()>
    requires parts { report.now.channels ≡ replay.now.state.parts }
    requires waits { decoded.old ≡ no_lines Plain }
    ensures printed { OnOk result (Appends (W.contents out.old) (W.contents out.new)
        (answer_text manner reply.now replay.now.state)) }
    ensures waits { OnOk result (decoded.new ≡ no_lines Plain) }
{
    reply.print(out, replay, report)?;
    print_told(out, decoded, manner, reply, replay.index())?;
    out.flush()
}

impl<'a> Session<'a> {
    /// A debugger that stands before the first message.
    pub(crate) fn open(
        alloc: Global,
        manner: Manner,
        jobs: Vec<Job>,
        report: &'a Report,
        recording: &'a [u8],
    ) -> Result<Session<'a>, StepFault>
        ensures shown { IfOk result
            (λ s. IsShown jobs.items report.now.channels recording.now s.debugger.jobs) }
        ensures ok { IfOk result
            (λ s. s.debugger ≡ opened_on s.debugger.jobs report.now.channels recording.now) }
        ensures manner { IfOk result (λ s. s.manner ≡ manner) }
        ensures accepted { IfOk result
            (λ s. MayBeDebugged s.debugger.jobs report.now.channels recording.now) }
        ensures refused { IfErr result (IsRefusal jobs.items report.now.channels recording.now) }
    {
        let replay = open_replay(alloc, jobs, report, recording)?;
        Ok(Session {
            replay,
            report,
            manner,
        })
    }

    /// The message of a number.
    fn show(&self, number: u64) -> Reply
        ensures lawful { Replies self.now.debugger (show_at number) result }
        ensures stays { self.now.debugger ≡ after_reply result self.now.debugger }
    {
        if self.replay.index().message(number).is_none() {
            return Reply::Refused(ReplayError::Past);
        }
        Reply::Message(number)
    }

    /// Does what a command asks.
    #[tactic(auto, using(crate::proofs::Moving::same_parts, crate::proofs::Moving::shows_place))]
    fn obey(&mut self, command: &Command) -> Reply
        ensures lawful { Replies self.old.debugger (asked_of command.now) result }
        ensures after { self.new.debugger ≡ after_reply result self.old.debugger }
        ensures manner { self.new.manner ≡ self.old.manner }
    {
        match command {
            Command::Forward(count) => go_on(&mut self.replay, *count),
            Command::Back(count) => go_back(&mut self.replay, *count),
            Command::Go(place) => go_to(&mut self.replay, *place),
            Command::GoTime(ticks) => go_time(&mut self.replay, *ticks),
            Command::Seek(sought, number) => seek(&mut self.replay, sought, *number),
            Command::Find(condition) => find_on(&mut self.replay, condition),
            Command::FindBack(condition) => find_back(&mut self.replay, condition),
            Command::Select(selector) => select(&mut self.replay, Way::On, *selector),
            Command::SelectBack(selector) => select(&mut self.replay, Way::Back, *selector),
            Command::State(detail) => Reply::Shown(*detail),
            Command::Show => self.show(self.replay.place()),
            Command::ShowAt(number) => self.show(*number),
            Command::Help => Reply::Help,
            Command::Quit => Reply::Quit,
            Command::NoCondition | Command::Unknown => Reply::Unknown,
        }
    }

    /// Does what a line asks.
    #[tactic(auto, using(crate::proofs::Asking::refused_memory))]
    fn reply_to(&mut self, alloc: Global, line: &[u8]) -> Reply
        ensures lawful { Replies self.old.debugger (asked self.old.manner line.now) result }
        ensures after { self.new.debugger ≡ after_reply result self.old.debugger }
        ensures manner { self.new.manner ≡ self.old.manner }
    {
        match read_command(alloc, self.manner, line) {
            Ok(command) => self.obey(&command),
            Err(_) => Reply::Refused(ReplayError::Memory),
        }
    }

    /// Answers a line at once: moves the debugger, prints the answer and flushes the writer. Where memory is refused
    /// for what the line asks, `memory` is printed, and the debugger stands where it stood. A fault is the writer's. No
    /// line that was decoded waits, before it and behind it.
    pub(crate) fn answer<W: Write>(
        &mut self,
        alloc: Global,
        line: &[u8],
        decoded: &mut TextLine,
        out: &mut W,
    ) -> io::Result<Answered>
        requires { decoded.old ≡ no_lines Plain }
        ensures answered { IfOk result (λ a. IsLineAnswered self.old.manner self.old.debugger self.new.debugger line.now
            (W.contents out.old) (W.contents out.new) a.refused a.ends) }
        ensures manner { self.new.manner ≡ self.old.manner }
        ensures waits { OnOk result (decoded.new ≡ no_lines Plain) }
    {
        let reply = self.reply_to(alloc, line);
        print_answer(out, decoded, self.manner, &reply, &self.replay, self.report)?;
        Ok(Answered {
            refused: reply.is_memory(),
            ends: reply.is_end(),
        })
    }
}
