//! Jobs on threads of their own, and one recording of them all; with posts of hosts, or without.
ghost use Rattle.bench_settings.specs.Lawful.{AreLawful, most_posts};
ghost use Rattle.bench_mail.specs.Mail.{IsMadeFor};
ghost use Rattle.bench_mail.specs.declared.mailbox.Mailbox.{Mailbox};
ghost use Rattle.bench_run.specs.Live.{AreInboxesOf, HaveMail, RanLive, RanOrLeftAs, LeavesLive};
ghost use Rattle.bench_run.specs.Runs.{ArePairs, Ran, RefusesNoneWithRoom, LeavesRunInSink};
ghost use Rattle.std.specs.Prelude.{◌≡◌, ◌-◌, ◌<◌, ◌≤◌, ◌^◌, length, vec_len, IfOk, IfErr, OnOk, IsTrue};

use crate::channel::Context;
use crate::ending::Before;
use crate::error::{LiveError, RunError};
use crate::gate::Gate;
use crate::ready::ready;
use crate::scope::{begin, run_ready};
use bench_mail::{Inbox, Mailbox};
use bench_report::Report;
use bench_settings::{Settings, WorldError, judge};
use ch11_recording::Recorder;
use ch11_writer::Sink;
use job_file::Job;
use std::alloc::{AllocError, Global};
use std::snapshot::Snapshot;
use std::sync::Wait;
use std::thread::Threads;

/// The mailboxes and inboxes of a run, in the order of its jobs, how many posts may be taken from each, and whether the
/// run is live: then what lines say by time and by command comes to be due beside the posts.
struct Mail<'b> {
    boxes: &'b [Mailbox],
    inboxes: Vec<Inbox>,
    is_live: bool,
    most: u32,
}

/// Runs lawful jobs.
fn run_lawful<'b, R: Threads + Wait + Sync, G: Gate, S: Sink + Drop>(
    rt: &R,
    alloc: Global,
    jobs: &'b [Job],
    settings: &'b Settings,
    mail: Mail<'b>,
    gate: &G,
    sink: S,
) -> Result<(Report, Vec<Inbox>, S), LiveError<S>>
    requires lawful { AreLawful jobs.now settings.now }
    requires most { mail.most ≤ most_posts }
    requires countable { S.failures sink < 2 ^ 64 - 1 }
    requires boxes { length mail.boxes.now ≡ length jobs.now }
    requires inboxes { length jobs.now ≡ vec_len mail.inboxes }
    requires ends { AreInboxesOf mail.boxes.now mail.inboxes.items }
    ensures { RanOrLeftAs mail.entry.is_live S.taken S.failures mail.entry.most jobs.now settings.now
        mail.entry.boxes.now mail.entry.inboxes.items sink result }
{
    let Mail {
        boxes,
        inboxes,
        is_live,
        most,
    } = mail;
    let before = Before {
        jobs,
        settings,
        boxes,
        is_live,
        most,
        inboxes: Snapshot::of(&inboxes),
        sink: Snapshot::of(&sink),
    };
    let Ok((shared, own)) = ready(alloc, jobs, settings.queue, is_live, most, inboxes) else {
        return Err(LiveError::of_memory(alloc, sink));
    };
    match Recorder::make(
        alloc,
        settings.version,
        settings.limit,
        &shared.channels,
        sink,
    ) {
        Ok(recorder) => {
            let log = begin(&shared.channels, settings, &before.sink, recorder);
            let context = Context {
                rt,
                trunk: &shared.trunk,
                gate,
            };
            run_ready(&context, &shared.channels, alloc, &before, own, log)
        }
        Err((_, sink)) => Err(LiveError::of_memory(alloc, sink)),
    }
}

/// A mailbox and an inbox for each job, to which nobody posts.
fn no_posts(alloc: Global, jobs: &[Job]) -> Result<(Vec<Mailbox>, Vec<Inbox>), AllocError>
    ensures boxes { IfOk result (λ r. vec_len r.0 ≡ length jobs.now) }
    ensures inboxes { IfOk result (λ r. vec_len r.1 ≡ length jobs.now) }
    ensures ends { IfOk result (λ r. AreInboxesOf r.0.items r.1.items) }
{
    let mut boxes = Vec::with_capacity(alloc, jobs.len())?;
    let mut inboxes = Vec::with_capacity(alloc, jobs.len())?;
    for job in jobs {
        let Ok((mailbox, _, inbox)) = Mailbox::make(alloc, job, 1) else {
            return Err(AllocError);
        };
        boxes.push_reserved(mailbox);
        inboxes.push_reserved(inbox);
    }
    Ok((boxes, inboxes))
}

/// Runs the jobs, each on a thread of its own, while the calling thread writes their messages into one recording. In
/// order: U2 where there are not 1 to 32 jobs or a setting is out of its range, U1 where a channel stands twice, U5
/// where the prologue is no list of sound packets or has one of MIL-STD-1553 messages, U3 where memory or a thread is
/// refused, U4 where the sink fails. Each hands the sink back; U2, U1 and U5 put nothing into it. After a fault of the
/// sink, or where a thread cannot be started, the channels that were started run to their ends.
///
/// What the sink took, read back, gives for each channel, in order and once, the messages that its job means, but for
/// those that the report lists as refused by a full queue; and a queue with room for all that the jobs may send refuses
/// none.
pub fn run<R: Threads + Wait + Sync, G: Gate, S: Sink + Drop>(
    rt: &R,
    alloc: Global,
    jobs: &[Job],
    settings: &Settings,
    gate: &G,
    sink: S,
) -> Result<(Report, S), RunError<S>>
    requires countable { S.failures sink < 2 ^ 64 - 1 }
    ensures lawful { OnOk result (AreLawful jobs.now settings.now) }
    ensures ran { IfOk result (λ r. Ran S.taken 0 jobs.now jobs.now settings.now sink r.0 r.1) }
    ensures room { IfOk result (λ r. RefusesNoneWithRoom 0 jobs.now settings.now r.0) }
    ensures refused { IfErr result (LeavesRunInSink S.taken S.failures jobs.now settings.now sink) }
{
    match judge(jobs, settings) {
        Ok(()) => {}
        Err(WorldError::Settings) => return Err(RunError::Settings { sink }),
        Err(WorldError::ChannelTwice) => return Err(RunError::ChannelTwice { sink }),
        Err(WorldError::Prologue) => return Err(RunError::Prologue { sink }),
        Err(WorldError::Memory) => return Err(RunError::Memory { sink }),
    }
    let Ok((boxes, inboxes)) = no_posts(alloc, jobs) else {
        return Err(RunError::Memory { sink });
    };
    let mail = Mail {
        boxes: &boxes,
        inboxes,
        is_live: false,
        most: 0,
    };
    match run_lawful(rt, alloc, jobs, settings, mail, gate, sink) {
        Ok((report, _, sink)) => Ok((report, sink)),
        Err(LiveError { fault, .. }) => Err(fault),
    }
}

/// Whether there are a mailbox and an inbox for each job, each mailbox made for the job at its place.
fn have_mail(jobs: &[Job], boxes: &[Mailbox], inboxes: &[Inbox]) -> bool
    ensures { (IsTrue result → HaveMail jobs.now boxes.now inboxes.now)
        × (HaveMail jobs.now boxes.now inboxes.now → IsTrue result) }
{
    if boxes.len() != jobs.len() {
        return false;
    }
    if inboxes.len() != jobs.len() {
        return false;
    }
    are_for(jobs, boxes)
}

/// Whether each of as many mailboxes was made for the job at its place.
fn are_for(jobs: &[Job], boxes: &[Mailbox]) -> bool
    requires { length boxes.now ≡ length jobs.now }
    ensures { (IsTrue result → ArePairs IsMadeFor boxes.now jobs.now)
        × (ArePairs IsMadeFor boxes.now jobs.now → IsTrue result) }
{
    for place in 0..jobs.len() {
        if !boxes[place].is_for(&jobs[place]) {
            return false;
        }
    }
    true
}

/// Runs the jobs as `run` does, while hosts post actions, for terminals and controllers. Before each message a
/// channel's thread takes posts from its mailbox until that is empty or `posts` of them were taken in this run; each
/// acts at that message, behind what the job placed there. One that is taken behind the last message acts nowhere, and
/// the report leaves it out. It refuses as `run` does, and U2 also stands where there are not a mailbox and an inbox
/// for each job, in the order of the jobs and made for its channel and terminals. The inboxes come back in their order,
/// but for U3; after U4 what was taken stays taken. Condition: each inbox was made with the mailbox at its place.
///
/// A live run is a run of the jobs with the posts that were placed besides their own actions.
pub fn run_live<R: Threads + Wait + Sync, G: Gate, S: Sink + Drop>(
    rt: &R,
    alloc: Global,
    jobs: &[Job],
    settings: &Settings,
    boxes: &[Mailbox],
    inboxes: Vec<Inbox>,
    gate: &G,
    sink: S,
) -> Result<(Report, Vec<Inbox>, S), LiveError<S>>
    requires countable { S.failures sink < 2 ^ 64 - 1 }
    requires ends { AreInboxesOf boxes.now inboxes.items }
    ensures lawful { OnOk result (AreLawful jobs.now settings.now × HaveMail jobs.now boxes.now inboxes.items) }
    ensures ran { IfOk result (λ r. RanLive S.taken settings.now.posts jobs.now settings.now inboxes.items sink r.0
        r.1.items r.2) }
    ensures ends { IfOk result (λ r. AreInboxesOf boxes.now r.1.items) }
    ensures room { IfOk result (λ r. RefusesNoneWithRoom settings.now.posts jobs.now settings.now r.0) }
    ensures refused { IfErr result
        (λ e. LeavesLive S.taken S.failures settings.now.posts jobs.now settings.now boxes.now inboxes.items sink
        e.fault e.inboxes.items) }
    ensures back { IfErr result (λ e. AreInboxesOf boxes.now e.inboxes.items) }
{
    if !have_mail(jobs, boxes, &inboxes) {
        let fault = RunError::Settings { sink };
        return Err(LiveError { fault, inboxes });
    }
    let fault = match judge(jobs, settings) {
        Ok(()) => {
            let mail = Mail {
                boxes,
                inboxes,
                is_live: true,
                most: settings.posts,
            };
            return run_lawful(rt, alloc, jobs, settings, mail, gate, sink);
        }
        Err(WorldError::Settings) => RunError::Settings { sink },
        Err(WorldError::ChannelTwice) => RunError::ChannelTwice { sink },
        Err(WorldError::Prologue) => RunError::Prologue { sink },
        Err(WorldError::Memory) => return Err(LiveError::of_memory(alloc, sink)),
    };
    Err(LiveError { fault, inboxes })
}
