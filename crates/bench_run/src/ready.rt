//! What a run needs before its threads start.
ghost use Rattle.bench_settings.specs.Lawful.{channels_of, most_posts};
ghost use Rattle.bench_run.specs.Ending.{IsReady};
ghost use Rattle.std.specs.Prelude.{◌≡◌, ◌≤◌, length, vec_len, IfOk};

use crate::channel::Room;
use crate::entry::Entry;
use crate::threads::{bounds, rooms};
use bench_mail::Inbox;
use job_file::Job;
use mil_trunk::{Taker, Ticket, Trunk};
use std::alloc::{AllocError, Global};

/// What the threads and the writer share: the trunk, and the numbers of the channels in the order of the jobs.
#[derive(Drop)]
pub(crate) struct Shared {
    pub(crate) trunk: Trunk<Entry>,
    pub(crate) channels: Vec<u16>,
}

/// What the writer owns, and hands to the threads in part.
#[derive(Drop)]
pub(crate) struct Own {
    pub(crate) ticket: Ticket<Entry>,
    pub(crate) taker: Taker<Entry>,
    pub(crate) rooms: Vec<Room>,
}

/// All that a run needs, but for its recorder and the lists of its threads. All memory of the threads is taken here,
/// but for what lines say by time and by command in a live run. Of each inbox `most` posts may be taken.
pub(crate) fn ready(
    alloc: Global,
    jobs: &[Job],
    queue: u32,
    is_live: bool,
    most: u32,
    inboxes: Vec<Inbox>,
) -> Result<(Shared, Own), AllocError>
    requires few { length jobs.now ≤ 32 }
    requires most { most ≤ most_posts }
    requires inboxes { length jobs.now ≡ vec_len inboxes }
    ensures { IfOk result (λ r. IsReady queue is_live jobs.now most inboxes.items r.0.trunk r.0.channels.items r.1) }
{
    let bounds = bounds(alloc, jobs, most)?;
    let rooms = rooms(alloc, jobs, is_live, most, inboxes)?;
    let channels = channels(alloc, jobs)?;
    match Trunk::make(alloc, queue, &bounds) {
        Ok((trunk, ticket, taker)) => Ok((
            Shared { trunk, channels },
            Own {
                ticket,
                taker,
                rooms,
            },
        )),
        Err(_) => Err(AllocError),
    }
}

/// The numbers of the jobs' channels.
fn channels(alloc: Global, jobs: &[Job]) -> Result<Vec<u16>, AllocError>
    ensures { IfOk result (λ v. v.items ≡ channels_of jobs.now) }
{
    let mut channels = Vec::with_capacity(alloc, jobs.len())?;
    for job in jobs {
        channels.push_reserved(job.channel());
    }
    Ok(channels)
}
