//! The mailboxes of a run, and what posts into them.
ghost use Rattle.bench_live.specs.Posting.{IsOpened};
ghost use Rattle.std.specs.Prelude.{IfOk, OnOk};

use bench_mail::{Inbox, Mailbox, Poster};
use job_file::Job;
use std::alloc::{AllocError, Global};
use std::sync::atomic::{AtomicU32, Ordering};

/// How many posts a mailbox holds.
const ROOM: u32 = 4096;

/// What the channels of a run share with the thread that posts, in the order of the jobs.
#[derive(Drop)]
pub struct Desk {
    pub boxes: Vec<Mailbox>,
    pub channels: Vec<u16>,
    /// 1 where the script of the channel has ended.
    pub ended: Vec<AtomicU32>,
}

/// The right to post to a channel, and how many actions were posted with it.
#[derive(Drop)]
pub struct Hand {
    pub poster: Poster,
    pub count: u32,
}

impl Desk {
    /// The script of a channel has ended.
    pub fn end(&self, channel: u16) {
        for (one, ended) in self.channels.iter().zip(self.ended.iter()) {
            if *one == channel {
                ended.store(1, Ordering::SeqCst);
            }
        }
    }

    /// One more channel.
    fn add(
        &mut self,
        alloc: Global,
        job: &Job,
        hands: &mut Vec<Hand>,
        inboxes: &mut Vec<Inbox>,
    ) -> Result<(), AllocError>
        requires { IsOpened self.old hands.old.items inboxes.old.items }
        ensures { OnOk result (IsOpened self.new hands.new.items inboxes.new.items) }
    {
        let Ok((mailbox, poster, inbox)) = Mailbox::make(alloc, job, ROOM) else {
            return Err(AllocError);
        };
        self.channels.push(job.channel())?;
        self.ended.push(AtomicU32::new(0))?;
        self.boxes.push(mailbox)?;
        hands.push(Hand { poster, count: 0 })?;
        inboxes.push(inbox)?;
        Ok(())
    }
}

/// A desk for the jobs, with a mailbox of 4096 posts for each, the hands that post into them, and the inboxes. It fails
/// for want of memory alone.
pub fn open_desk(alloc: Global, jobs: &[Job]) -> Result<(Desk, Vec<Hand>, Vec<Inbox>), AllocError>
    ensures { IfOk result (λ r. IsOpened r.0 r.1.items r.2.items) }
{
    let mut desk = Desk {
        boxes: Vec::new(alloc),
        channels: Vec::new(alloc),
        ended: Vec::new(alloc),
    };
    let mut hands = Vec::new(alloc);
    let mut inboxes = Vec::new(alloc);
    for job in jobs {
        desk.add(alloc, job, &mut hands, &mut inboxes)?;
    }
    Ok((desk, hands, inboxes))
}
