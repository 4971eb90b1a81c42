//! What comes of a run, once its threads have ended.
ghost use Rattle.bench_settings.specs.Lawful.{AreLawful, channels_of};
ghost use Rattle.bench_run.specs.Ending.{IsAllLive, AnswersRun};
ghost use Rattle.bench_run.specs.Live.{AreInboxesOf};
ghost use Rattle.bench_run.specs.Writer.{IsRunLogged, HasBegun};
ghost use Rattle.mil_trunk.specs.Ends.{received};
ghost use Rattle.std.specs.Prelude.{◌<◌, ◌^◌, Err};

use crate::entry::Entry;
use crate::error::{LiveError, RunError};
use crate::writer::Log;
use bench_mail::{Inbox, Mailbox};
use bench_report::{ChannelReport, Report};
use bench_settings::Settings;
use ch11_recording::{file_is_packets, recording_is_read_again};
use ch11_writer::Sink;
use job_file::Job;
use mil_trunk::Taker;
use std::alloc::Global;
use std::snapshot::Snapshot;

/// What a run began with: its jobs, settings and mailboxes, whether it is live, how many posts may be taken from each
/// inbox, and, for proofs alone, the inboxes and the sink.
#[derive(Drop)]
pub(crate) struct Before<'s, S> {
    pub(crate) jobs: &'s [Job],
    pub(crate) settings: &'s Settings,
    pub(crate) boxes: &'s [Mailbox],
    pub(crate) is_live: bool,
    pub(crate) most: u32,
    pub(crate) inboxes: Snapshot<Vec<Inbox>>,
    pub(crate) sink: Snapshot<S>,
}

/// The version has the size of its field.
fn version_fits(settings: &Settings)
    ensures { settings.now.version < 2 ^ 8 }
{
    // (its range is known once it is read)
    let _version = settings.version;
}

/// What came of a run, once every channel has ended and the writer has received all.
pub(crate) fn conclude<S: Sink>(
    before: &Before<'_, S>,
    taker: Taker<Entry>,
    log: Log<S>,
    parts: Vec<ChannelReport>,
    inboxes: Vec<Inbox>,
) -> Result<(Report, Vec<Inbox>, S), LiveError<S>>
    requires lawful { AreLawful before.now.jobs.now before.now.settings.now }
    requires all { IsAllLive before.now.settings.now.queue before.now.is_live before.now.most before.now.jobs.now
        before.now.inboxes.value.items inboxes.items parts.items (received taker) }
    requires ends { AreInboxesOf before.now.boxes.now inboxes.items }
    requires logged { IsRunLogged S.taken S.failures before.now.settings.now before.now.sink.value
        (channels_of before.now.jobs.now) (received taker) log.recorder log.whole }
    ensures { AnswersRun S.taken S.failures before.now result }
{
    recording_is_read_again();
    file_is_packets();
    version_fits(before.settings);
    let Log { recorder, whole: _ } = log;
    let mut recorder = recorder;
    let ended = recorder.finish();
    let report = Report::make(parts, recorder.packets());
    let sink = recorder.into_sink();
    match ended {
        Ok(()) => Ok((report, inboxes, sink)),
        Err(fault) => Err(LiveError {
            fault: RunError::Sink {
                sink,
                report,
                taken: fault.taken,
            },
            inboxes,
        }),
    }
}

/// Memory or a thread was refused: what the sink took is the beginning of a recording, and no inbox comes back.
pub(crate) fn stopped<S: Sink>(alloc: Global, before: &Before<'_, S>, log: Log<S>) -> LiveError<S>
    requires lawful { AreLawful before.now.jobs.now before.now.settings.now }
    requires logged { HasBegun S.taken S.failures before.now.settings.now before.now.sink.value log.recorder log.whole }
    ensures { AnswersRun S.taken S.failures before.now (Err result) }
{
    // (what stands behind a reference is known once it is read)
    let _before = before;
    let Log { recorder, whole: _ } = log;
    LiveError {
        fault: RunError::Memory {
            sink: recorder.into_sink(),
        },
        inboxes: Vec::new(alloc),
    }
}
