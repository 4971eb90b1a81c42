//! Runs that are paced, and runs while a host posts what lines ask for.
ghost use Rattle.bench_settings.specs.Lawful.{AreLawful};
ghost use Rattle.bench_live.specs.Posting.{AreHandsOf};
ghost use Rattle.bench_run.specs.Live.{AreInboxesOf, HaveMail, RanLive, LeavesLive};
ghost use Rattle.bench_run.specs.Runs.{RanOrLeft, RefusesNoneWithRoom};
ghost use Rattle.std.specs.Prelude.{◌-◌, ◌<◌, ◌^◌, IfOk, IfErr, OnOk};

use crate::desk::{Desk, Hand};
use crate::gates::SessionGate;
use crate::pace::Pace;
use crate::show::Show;
use crate::telling::post_all;
use bench_mail::Inbox;
use bench_report::Report;
use bench_run::{HoldingGate, LiveError, RunError, run, run_live};
use bench_run_command::Progress;
use bench_settings::Settings;
use ch11_writer::Sink;
use job_file::Job;
use std::alloc::{AllocError, Global};
use std::io::{BufRead, IsTerminal};
use std::rt::Clock;
use std::sync::{Arc, Wait};
use std::thread;
use std::thread::Threads;

/// How a run goes on.
#[derive(Clone, Copy, Debug)]
pub struct Pacing {
    /// Whether messages may be refused by a full queue: else buses are held.
    pub drops: bool,
    /// How bus time goes with real time; as fast as it can where there is none.
    pub pace: Option<Pace>,
}

impl Pacing {
    /// How many items may be on their way to the writer: as many as the queue holds, or more than a run has where
    /// messages may be refused.
    fn most(self, settings: &Settings) -> u32 {
        if self.drops { u32::MAX } else { settings.queue }
    }
}

/// Starts a thread that posts what the lines of an input ask for, and lets it go: the end of a run does not wait for
/// it, and where the input stays open the process ends without it. It fails where memory or the thread is refused.
pub fn start_host<
    R: Threads + Wait + Clock + Clone + Drop + Send + Sync + 'static,
    E: Eprint + Clone + Drop + Send + 'static,
    B: BufRead + Drop + Send + 'static,
>(
    rt: &R,
    alloc: Global,
    errors: &E,
    desk: &Arc<Desk, Global>,
    hands: Vec<Hand>,
    input: B,
) -> Result<(), AllocError>
    requires { AreHandsOf desk.now.value hands.items }
{
    let theirs = Arc::try_clone(desk)?;
    let own = rt.clone()?;
    let told = errors.clone()?;
    let host = thread::spawn(
        rt,
        move ||
            requires { AreHandsOf theirs.value hands.items }
        { post_all(&own, alloc, &told, &theirs, hands, input) },
    );
    match host {
        Ok(_) => Ok(()),
        Err(_) => Err(AllocError),
    }
}

/// A run that a person watches or drives: its jobs and settings, how it goes on, and where it is shown.
#[derive(Drop)]
pub struct LiveRun<'s, R, E> {
    pub rt: &'s R,
    pub alloc: Global,
    /// Where a line says how far the recording has come, as by `Progress`.
    pub errors: &'s E,
    pub jobs: &'s [Job],
    pub settings: &'s Settings,
    pub pacing: Pacing,
    /// What shows its messages, where they are shown.
    pub show: Option<&'s Show>,
}

impl<'s, R: Threads + Wait + Clock + Sync, E: Eprint + IsTerminal + Sync> LiveRun<'s, R, E> {
    /// Runs the jobs as `run` does. It answers and refuses as `run` does.
    pub fn record_paced<S: Sink + Drop>(&self, sink: S) -> Result<(Report, S), RunError<S>>
        requires { S.failures sink < 2 ^ 64 - 1 }
        ensures { RanOrLeft S.taken S.failures self.now.jobs.now self.now.settings.now sink result }
    {
        let (rt, pacing) = (self.rt, self.pacing);
        let progress = Progress::begin(rt, self.errors);
        let session = SessionGate::around(&progress, rt, rt, pacing.pace, None, self.show);
        let held = HoldingGate::around(&session, pacing.most(self.settings));
        let answer = run(rt, self.alloc, self.jobs, self.settings, &held, sink);
        progress.end();
        answer
    }

    /// Runs the jobs as `run_live` does with the mailboxes of a desk; the desk is told which scripts have ended. It
    /// answers and refuses as `run_live` does.
    pub fn record_live<S: Sink + Drop>(
        &self,
        desk: &Desk,
        inboxes: Vec<Inbox>,
        sink: S,
    ) -> Result<(Report, Vec<Inbox>, S), LiveError<S>>
        requires countable { S.failures sink < 2 ^ 64 - 1 }
        requires ends { AreInboxesOf desk.now.boxes.items inboxes.items }
        ensures lawful { OnOk result (AreLawful self.now.jobs.now self.now.settings.now
            × HaveMail self.now.jobs.now desk.now.boxes.items inboxes.items) }
        ensures ran { IfOk result (λ r. RanLive S.taken self.now.settings.now.posts self.now.jobs.now
            self.now.settings.now inboxes.items sink r.0 r.1.items r.2) }
        ensures ends { IfOk result (λ r. AreInboxesOf desk.now.boxes.items r.1.items) }
        ensures room { IfOk result (λ r. RefusesNoneWithRoom self.now.settings.now.posts self.now.jobs.now
            self.now.settings.now r.0) }
        ensures refused { IfErr result
            (λ e. LeavesLive S.taken S.failures self.now.settings.now.posts self.now.jobs.now self.now.settings.now
            desk.now.boxes.items inboxes.items sink e.fault e.inboxes.items) }
        ensures back { IfErr result (λ e. AreInboxesOf desk.now.boxes.items e.inboxes.items) }
    {
        let (rt, pacing) = (self.rt, self.pacing);
        let progress = Progress::begin(rt, self.errors);
        let session = SessionGate::around(&progress, rt, rt, pacing.pace, Some(desk), self.show);
        let held = HoldingGate::around(&session, pacing.most(self.settings));
        let (jobs, settings) = (self.jobs, self.settings);
        let answer = run_live(
            rt,
            self.alloc,
            jobs,
            settings,
            &desk.boxes,
            inboxes,
            &held,
            sink,
        );
        progress.end();
        answer
    }
}
