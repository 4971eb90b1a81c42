//! The threads of a run in their scope, while the calling thread writes.
ghost use Rattle.bench_settings.specs.Lawful.{format_of};
ghost use Rattle.bench_run.specs.Ending.{MayStart, AnswersRun};
ghost use Rattle.bench_run.specs.Writer.{IsRunLogged};
ghost use Rattle.ch11_recording.specs.Recording.{IsRecordingOf};
ghost use Rattle.std.specs.Prelude.{◌≡◌, ◌≤◌, [], false, vec_capacity, IfOk};

use crate::channel::{Context, Ended};
use crate::ending::{Before, conclude, stopped};
use crate::error::LiveError;
use crate::gate::Gate;
use crate::ready::Own;
use crate::threads::{Joined, Offers, are_whole, join_all, parted, start_all};
use crate::writer::{Log, settle, write};
use bench_mail::Inbox;
use bench_report::{ChannelReport, Report};
use bench_settings::Settings;
use ch11_recording::Recorder;
use ch11_writer::Sink;
use std::alloc::{AllocError, Global};
use std::snapshot::Snapshot;
use std::sync::Wait;
use std::thread;
use std::thread::{PromisedHandle, Scope, Threads};

/// The recording with its prologue, before anything was received.
pub(crate) fn begin<S: Sink>(
    channels: &[u16],
    settings: &Settings,
    before: &Snapshot<S>,
    recorder: Recorder<S>,
) -> Log<S>
    requires begun { IsRecordingOf S.taken (format_of settings.now) []
        (S.taken before.now.value) channels.now [] recorder }
    requires fresh { recorder.writing
        ≡ record { sink = before.now.value; taken = 0; failed = false; finished = false } }
    ensures { IsRunLogged S.taken S.failures settings.now before.now.value channels.now [] result.recorder
        result.whole }
{
    // (what stands behind a reference is known once it is read)
    let _places = channels.len();
    let _before = before;
    let mut recorder = recorder;
    recorder.prologue(&settings.prologue);
    Log {
        recorder,
        whole: true,
    }
}

/// Lists in reserved memory: of the threads that run, of what is left of those that were joined, and its parts.
#[derive(Drop)]
struct Lists<'s> {
    handles: Vec<PromisedHandle<Ended, Offers<'s>>>,
    joined: Vec<Joined>,
    parts: Vec<ChannelReport>,
    inboxes: Vec<Inbox>,
}

/// Empty lists with room for so many. It fails for want of memory alone.
fn make_lists<'s>(alloc: Global, count: usize) -> Result<Lists<'s>, AllocError>
    ensures handles { IfOk result (λ l. (l.handles.items ≡ []) × (count ≤ vec_capacity l.handles)) }
    ensures joined { IfOk result (λ l. (l.joined.items ≡ []) × (count ≤ vec_capacity l.joined)) }
    ensures parts { IfOk result (λ l. (l.parts.items ≡ []) × (count ≤ vec_capacity l.parts)) }
    ensures inboxes { IfOk result (λ l. (l.inboxes.items ≡ []) × (count ≤ vec_capacity l.inboxes)) }
{
    Ok(Lists {
        handles: Vec::with_capacity(alloc, count)?,
        joined: Vec::with_capacity(alloc, count)?,
        parts: Vec::with_capacity(alloc, count)?,
        inboxes: Vec::with_capacity(alloc, count)?,
    })
}

/// Starts the threads, records what they send, and ends the recording once all was received.
fn on_threads<'s, E, R: Threads + Wait + Sync, G: Gate, S: Sink + Drop>(
    scope: &Scope<'s, E>,
    context: &Context<'s, R, G>,
    channels: &[u16],
    alloc: Global,
    before: &Before<'s, S>,
    own: Own,
    log: Log<S>,
) -> Result<(Report, Vec<Inbox>, S), LiveError<S>>
    requires { MayStart S.taken S.failures before.now context.now.trunk.now channels.now own log.recorder log.whole }
    ensures { AnswersRun S.taken S.failures before.now result }
{
    let (mut rest, mut taker, mut log) = (own.ticket, own.taker, log);
    let jobs = before.jobs;
    let Ok(lists) = make_lists(alloc, jobs.len()) else {
        return Err(stopped(alloc, before, log));
    };
    let (rt, trunk, gate) = (context.rt, context.trunk, context.gate);
    let handles = start_all(scope, context, before, own.rooms, &mut rest, lists.handles);
    let started = handles.len();
    write(rt, trunk, gate, channels, &mut taker, &mut log, started);
    let joined = join_all(rt, trunk, before, handles, &mut rest, lists.joined);
    if started < jobs.len() {
        return Err(stopped(alloc, before, log));
    }
    // A channel that was cut off has not sent all that its job means.
    if !are_whole(&joined) {
        return Err(stopped(alloc, before, log));
    }
    let (_, taker) = settle(rt, trunk, gate, channels, rest, taker, &mut log);
    let (parts, inboxes) = parted(joined, lists.parts, lists.inboxes);
    conclude(before, taker, log, parts, inboxes)
}

/// Runs the jobs in a scope of threads.
pub(crate) fn run_ready<R: Threads + Wait + Sync, G: Gate, S: Sink + Drop>(
    context: &Context<'_, R, G>,
    channels: &[u16],
    alloc: Global,
    before: &Before<'_, S>,
    own: Own,
    log: Log<S>,
) -> Result<(Report, Vec<Inbox>, S), LiveError<S>>
    requires begins { MayStart S.taken S.failures before.now context.now.trunk.now channels.now own log.recorder
        log.whole }
    ensures { AnswersRun S.taken S.failures before.now result }
{
    thread::scope(
        thread::scope_env(),
        context.rt,
        move |scope| -> Result<(Report, Vec<Inbox>, S), LiveError<S>>
            requires { MayStart S.taken S.failures before.now context.now.trunk.now channels.now own log.recorder
                log.whole }
            ensures { AnswersRun S.taken S.failures before.entry.now result }
        { on_threads(scope, context, channels, alloc, before, own, log) },
    )
}
