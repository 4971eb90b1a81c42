//! Mailboxes: while a channel runs, hosts post actions for its terminals and for its controller.
ghost use Rattle.bench_mail.specs.Mail.{hosts_of, limits_of, posted, received_by, IsPosterOf, IsInboxOf, room_of};
ghost use Rattle.bench_mail.specs.Mail.{may_post, times_empty, IsMadeFor, Returns};
ghost use Rattle.bench_mail.specs.Posts.{host_of};
ghost use Rattle.mil_trunk.specs.Ends.{IsCapacity};
ghost use Rattle.mil_trunk.specs.Tags.{has, bound_of, Includes};
ghost use Rattle.mil_trunk.specs.Views.{with_tag, inside, outside};
ghost use Rattle.std.specs.Prelude.{IfOk, OnOk, IfErr, IfSome, IfNone, IsTrue};
ghost use Rattle.std.specs.Prelude.{◌≡◌, ◌<◌, ◌+◌, ◌-◌, ◌^◌, ◌↔◌, ◌⊎◌, ◌++◌, ◌∷◌, [], ℕ, true, length, min};
ghost use Rattle.std.specs.Prelude.{not, ◌&&◌, ◌||◌, Err};

use crate::error::{MailError, PostError};
use bc_machine::HostAction;
use job_file::Job;
use mil_trunk::{Tagged, Tags, Taker, Ticket, Trunk, TrunkError};
use std::alloc::Global;
use std::sync::Wait;

/// What a host asks for, of a terminal or of the controller.
#[derive(Debug, Drop)]
pub struct Post {
    /// The host, 0 to 63.
    pub host: u8,
    pub action: HostAction,
}

impl Tagged for Post {
    ghost use Rattle.bench_mail.specs.Posts.{host_of};

    ghost tag_of = { host_of };

    fn tag(&self) -> u8 {
        self.host
    }
}

/// The mailbox of a channel: any number of hosts post into it, and the channel's thread takes from it.
///
/// Threads share it by reference. Each owns its posters, or the inbox, and uses them with this mailbox alone.
#[derive(Drop)]
pub struct Mailbox {
    trunk: Trunk<Post>,
    channel: u16,
    addresses: Vec<u8>,
}

/// The right to post for some hosts. It has no bytes: its hosts, and the list of what was posted with it, are known to
/// contracts alone.
#[derive(Drop)]
pub struct Poster {
    ticket: Ticket<Post>,
}

/// The right to receive what is posted, and how often nothing was there to receive. The list of what was received with
/// it is known to contracts alone.
#[derive(Drop)]
pub struct Inbox {
    taker: Taker<Post>,
    empty: u64,
}

/// Each host posts at most 2^55 actions (own choice), far more than any run takes.
const MOST: u64 = 36_028_797_018_963_968;

impl Mailbox {
    /// An empty mailbox of `capacity` posts for the channel and the terminals of a job, the poster for all hosts 0 to
    /// 63, and the inbox. All its memory is taken here.
    ///
    /// Each host may post 2^55 actions in all. `E1` comes where the capacity is outside 1 to 4096, before any memory is
    /// asked for, and `E2` where memory is refused.
    pub fn make(
        alloc: Global,
        job: &Job,
        capacity: u32,
    ) -> Result<(Mailbox, Poster, Inbox), MailError>
        ensures ends { IfOk result (λ r. IsPosterOf r.0 r.1 × IsInboxOf r.0 r.2) }
        ensures made_for { IfOk result (λ r. IsMadeFor r.0 job.now) }
        ensures capacity { IfOk result (λ r. room_of r.0 ≡ capacity) }
        ensures hosts { IfOk result (λ r. (host : ℕ) → host < 64 → has (hosts_of r.1) host ≡ true) }
        ensures limits { IfOk result (λ r. (host : ℕ) → host < 64 → bound_of (limits_of r.1) host ≡ 2 ^ 55) }
        ensures posted { IfOk result (λ r. posted r.1 ≡ []) }
        ensures received { IfOk result (λ r. received_by r.2 ≡ []) }
        ensures lawful { OnOk result (IsCapacity capacity) }
        ensures refused { (result ≡ Err MailError.Capacity) ↔ ((capacity < 1) ⊎ (4096 < capacity)) }
    {
        if capacity < 1 || capacity > 4096 {
            return Err(MailError::Capacity);
        }
        let Ok(addresses) = job.addresses().to_vec(alloc) else {
            return Err(MailError::Memory);
        };
        match Trunk::make(alloc, capacity, &[MOST; 64]) {
            Ok((trunk, ticket, taker)) => Ok((
                Mailbox {
                    trunk,
                    channel: job.channel(),
                    addresses,
                },
                Poster { ticket },
                Inbox { taker, empty: 0 },
            )),
            Err(TrunkError::Capacity | TrunkError::Memory) => Err(MailError::Memory),
        }
    }

    /// Parts off a poster for some of a poster's hosts, with what was posted for these.
    pub fn split(&self, poster: &mut Poster, hosts: Tags) -> Poster
        requires poster { IsPosterOf self.now poster.old }
        requires hosts { Includes (hosts_of poster.old) hosts }
        ensures posters { IsPosterOf self.now poster.new × IsPosterOf self.now result }
        ensures gone { (host : ℕ) → has (hosts_of poster.new) host
            ≡ (has (hosts_of poster.old) host && not (has hosts host)) }
        ensures given { hosts_of result ≡ hosts }
        ensures limits { (limits_of poster.new ≡ limits_of poster.old) × (limits_of result ≡ limits_of poster.old) }
        ensures posted { posted poster.new ≡ outside host_of hosts (posted poster.old) }
        ensures posted_of_given { posted result ≡ inside host_of hosts (posted poster.old) }
    {
        Poster {
            ticket: self.trunk.split(&mut poster.ticket, hosts),
        }
    }

    /// Adds the hosts of another poster to a poster, and what was posted with it.
    pub fn take_in(&self, poster: &mut Poster, other: Poster)
        requires { IsPosterOf self.now poster.old × IsPosterOf self.now other }
        ensures poster { IsPosterOf self.now poster.new }
        ensures hosts { (host : ℕ)
            → has (hosts_of poster.new) host ≡ (has (hosts_of poster.old) host || has (hosts_of other) host) }
        ensures limits { limits_of poster.new ≡ limits_of poster.old }
        ensures posted { posted poster.new ≡ posted poster.old ++ posted other }
    {
        let Poster { ticket } = other;
        self.trunk.take_in(&mut poster.ticket, ticket);
    }

    /// Whether the job has the terminal that an action is for; one for the controller may always be posted.
    fn may_post(&self, action: &HostAction) -> bool
        ensures { result ≡ may_post self.now action.now }
    {
        match action {
            HostAction::Terminal { address, .. } => self.addresses.contains(address),
            HostAction::Controller(_) => true,
        }
    }

    /// Posts an action of a host, for a terminal or for the controller: it joins the mailbox at the back. `E3` comes
    /// where it is for a terminal that the job does not have, and nothing is posted; `E4` where the mailbox was full at
    /// one moment of the call. Both hand the action back.
    pub fn post<R: Wait>(
        &self,
        rt: &R,
        poster: &mut Poster,
        host: u8,
        action: HostAction,
    ) -> Result<(), PostError>
        requires poster { IsPosterOf self.now poster.old }
        requires host { has (hosts_of poster.old) host ≡ true }
        requires limit { length (with_tag host_of host (posted poster.old)) < bound_of (limits_of poster.old) host }
        ensures poster { IsPosterOf self.now poster.new }
        ensures hosts { hosts_of poster.new ≡ hosts_of poster.old }
        ensures limits { limits_of poster.new ≡ limits_of poster.old }
        ensures kept { OnOk result
            (posted poster.new ≡ posted poster.old ++ record { host = host; action = action } ∷ []) }
        ensures terminal { OnOk result (may_post self.now action ≡ true) }
        ensures refused { IfErr result (Returns self.now poster.old poster.new action) }
    {
        if !self.may_post(&action) {
            return Err(PostError::NoTerminal { action });
        }
        let post = Post { host, action };
        match self.trunk.offer(rt, &mut poster.ticket, post) {
            Ok(()) => Ok(()),
            Err(Post { action, .. }) => Err(PostError::Full { action }),
        }
    }

    /// Receives the post at the front, if there is one; where there is none, the inbox counts once more.
    pub fn take<R: Wait>(&self, rt: &R, inbox: &mut Inbox) -> Option<Post>
        requires inbox { IsInboxOf self.now inbox.old }
        ensures inbox { IsInboxOf self.now inbox.new }
        ensures taken { IfSome result (λ post. received_by inbox.new ≡ received_by inbox.old ++ post ∷ []) }
        ensures none { IfNone result (received_by inbox.new ≡ received_by inbox.old) }
        ensures counted { IfNone result (times_empty inbox.new ≡ min (times_empty inbox.old + 1) (2 ^ 64 - 1)) }
        ensures not_counted { IfSome result (λ _. times_empty inbox.new ≡ times_empty inbox.old) }
    {
        let taken = self.trunk.take(rt, &mut inbox.taker);
        if taken.is_none() {
            inbox.empty = inbox.empty.saturating_add(1);
        }
        taken
    }

    /// Whether it was made for the channel and the terminals of a job.
    pub fn is_for(&self, job: &Job) -> bool
        ensures { IsTrue result ↔ IsMadeFor self.now job.now }
    {
        self.channel == job.channel() && self.addresses.as_slice() == job.addresses()
    }

    /// Receives the post at the front, with the poster that holds all hosts. None says that all that was posted was
    /// received.
    pub fn settle<R: Wait>(
        &self,
        rt: &R,
        poster: Poster,
        inbox: Inbox,
    ) -> (Poster, Inbox, Option<Post>)
        requires ends { IsPosterOf self.now poster × IsInboxOf self.now inbox }
        requires all { (host : ℕ) → host < 64 → has (hosts_of poster) host ≡ true }
        ensures ends { IsPosterOf self.now result.0 × IsInboxOf self.now result.1 }
        ensures hosts { hosts_of result.0 ≡ hosts_of poster }
        ensures limits { limits_of result.0 ≡ limits_of poster }
        ensures posted { posted result.0 ≡ posted poster }
        ensures taken { IfSome result.2 (λ post. received_by result.1 ≡ received_by inbox ++ post ∷ []) }
        ensures none { IfNone result.2 (received_by result.1 ≡ received_by inbox) }
        ensures not_counted { times_empty result.1 ≡ times_empty inbox }
        ensures settled { IfNone result.2
            ((host : ℕ) → host < 64
            → with_tag host_of host (posted result.0) ≡ with_tag host_of host (received_by result.1)) }
    {
        let Poster { ticket } = poster;
        let Inbox { taker, empty } = inbox;
        let (ticket, taker, post) = self.trunk.settle(rt, ticket, taker);
        (Poster { ticket }, Inbox { taker, empty }, post)
    }
}
