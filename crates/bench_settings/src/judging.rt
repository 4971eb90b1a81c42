//! Which jobs may be run, and with which settings.
ghost use Rattle.bench_settings.specs.Lawful.{AreSettingsInRange, AreLawful, RefusesJobs, channels_of};
ghost use Rattle.ch11_recording.specs.Recording.{AreDistinct};
ghost use Rattle.job_file.specs.Jobs.{JobState};
ghost use Rattle.std.specs.List.{list_any};
ghost use Rattle.std.specs.Prelude.{◌≡◌, ◌↔◌, ◌==◌, IsTrue, IsOk, OnOk, IfErr};

use crate::error::WorldError;
use crate::settings::{MOST_POSTS, Settings};
use ch11_reader::holds_no_messages;
use job_file::Job;

/// Whether these jobs may be run with these settings: U2, then U1, then U5. It takes no memory.
pub fn judge(jobs: &[Job], settings: &Settings) -> Result<(), WorldError>
    ensures lawful { OnOk result (AreLawful jobs.now settings.now) }
    ensures accepted { AreLawful jobs.now settings.now → IsOk result }
    ensures refused { IfErr result (RefusesJobs jobs.now settings.now) }
{
    if !in_range(jobs, settings) {
        return Err(WorldError::Settings);
    }
    if !all_differ(jobs) {
        return Err(WorldError::ChannelTwice);
    }
    if !holds_no_messages(&settings.prologue) {
        return Err(WorldError::Prologue);
    }
    Ok(())
}

/// Whether there are 1 to 32 jobs, and each setting is in its range.
fn in_range(jobs: &[Job], settings: &Settings) -> bool
    ensures { IsTrue result ↔ AreSettingsInRange jobs.now settings.now }
{
    (1..=32).contains(&jobs.len())
        && (256..=524_288).contains(&settings.limit)
        && (1..=4096).contains(&settings.queue)
        && settings.posts <= MOST_POSTS
}

/// Whether no two jobs have the same channel.
fn all_differ(jobs: &[Job]) -> bool
    ensures { IsTrue result ↔ AreDistinct (channels_of jobs.now) }
{
    let mut rest = jobs;
    while let Some((job, behind)) = rest.split_first() {
        if has(behind, job.channel()) {
            return false;
        }
        rest = behind;
    }
    true
}

/// Whether one of the jobs has a channel.
fn has(jobs: &[Job], channel: u16) -> bool
    ensures { result ≡ list_any (λ (j : JobState). j.channel == channel) jobs.now }
{
    jobs.iter().any(|job| job.channel() == channel)
}
