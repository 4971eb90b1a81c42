//! One channel of a world: its controller, and what became of its messages.
ghost use Rattle.bench_core.specs.Bench.{begun_channel, with_post};
ghost use Rattle.bench_core.specs.Channels.{IsMade};
ghost use Rattle.bench_core.specs.Channels.{posts_of, may_post, after_next, queued_next, next_in, report_part};
ghost use Rattle.ch11_recording.specs.declared.item.Item.TheVariants as item;
ghost use Rattle.std.specs.Prelude.{OnErr};
ghost use Rattle.std.specs.Prelude.{◌≡◌, ◌<◌, ◌||◌, not, if◌then◌else◌, [], ◌∷◌, ◌++◌, vec_len, Some, None, IfOk, OnOk};
ghost use Rattle.std.specs.Vec.{vec_capacity};

use crate::posted::add_posted;
use bc_machine::{Actions, HostAction, Machine, Placed, Schedule};
use bench_report::ChannelReport;
use bench_settings::{MOST_POSTS, channel_report, is_for_place, ordered_actions};
use ch11_f1::Record;
use ch11_recording::{Item, record_fits};
use job_file::{Job, next_record};
use std::alloc::{AllocError, Global};
use std::marker::Model;
use std::snapshot::Snapshot;

/// A channel's terminals, its controller, the numbers that a full queue refused, whether the end mark was queued, the
/// placed actions by rising number, and how many of them were posted. Contracts see the job itself too, of which no
/// byte is kept.
#[derive(Drop)]
pub(crate) struct SteppedChannel {
    channel: u16,
    addresses: Vec<u8>,
    machine: Machine,
    refused: Vec<u32>,
    ended: bool,
    placed: Schedule,
    posts: u32,
    job: Snapshot<Job>,
}

impl Model for SteppedChannel {
    ghost use Rattle.bench_core.specs.Bench.{ChannelState};
    ghost use Rattle.bench_core.specs.Channels.{channel_state_in, IsKeptChannel};

    ghost Value = { ChannelState };

    ghost view = { channel_state_in };

    ghost invariant = { IsKeptChannel };
}

/// The end mark of a channel, once and where there is room.
fn end_mark(ended: &mut bool, channel: u16, room: bool) -> Option<Item>
    ensures ended { ended.new ≡ (ended.old || room) }
    ensures item { result ≡ (if ended.old || not room then None else Some (item.End channel)) }
{
    if *ended || !room {
        return None;
    }
    *ended = true;
    Some(Item::End { channel })
}

/// A message of a channel, where there is room; else its number is listed, for which memory is reserved.
fn message(
    refused: &mut Vec<u32>,
    channel: u16,
    number: u32,
    seen: Record,
    room: bool,
) -> Option<Item>
    requires { vec_len refused.old < vec_capacity refused.old }
    ensures refused { refused.new.items ≡ (if room then refused.old.items else (refused.old.items ++ number ∷ [])) }
    ensures item { result ≡ (if room then Some (item.Message channel number seen) else None) }
{
    if room {
        return Some(Item::Message {
            record: seen,
            channel,
            number: u64::from(number),
        });
    }
    refused.push_reserved(number);
    None
}

impl SteppedChannel {
    /// The channel of a job, before any message. It fails for want of memory alone.
    pub(crate) fn make(alloc: Global, job: &Job) -> Result<SteppedChannel, AllocError>
        ensures { IfOk result (λ l. l ≡ begun_channel job.now) }
    {
        let addresses = job.addresses().to_vec(alloc)?;
        let machine = job.machine(alloc, job.actions())?;
        let placed = Schedule::of(ordered_actions(job)?);
        // A job's script is sound by its type.
        let _sound = job.program();
        Ok(SteppedChannel {
            channel: job.channel(),
            addresses,
            machine,
            refused: Vec::new(alloc),
            ended: false,
            placed,
            posts: 0,
            job: Snapshot::of(job),
        })
    }

    /// The number of the channel, 1 to 65,535.
    pub(crate) fn channel(&self) -> u16
        ensures { result ≡ self.now.channel }
    {
        self.channel
    }

    /// Whether its bus has the terminal that an action is for; one for the controller may always be posted.
    pub(crate) fn may_post(&self, action: &HostAction) -> bool
        ensures { result ≡ may_post self.now action.now }
    {
        match action {
            HostAction::Terminal { address, .. } => self.addresses.contains(address),
            HostAction::Controller(_) => true,
        }
    }

    /// How many actions were posted.
    pub(crate) fn posts(&self) -> u32
        ensures { result ≡ posts_of self.now }
    {
        self.posts
    }

    /// Makes the channel's next message, or ends the channel behind its last one: gives what goes into the queue, where
    /// that has room, and lists a number that does not. It fails for want of memory alone, and then nothing was done.
    pub(crate) fn advance(&mut self, room: bool) -> Result<Option<Item>, AllocError>
        ensures channel { OnOk result (self.new ≡ after_next self.old (next_in self.old) room) }
        ensures item { IfOk result (λ queued. queued ≡ queued_next self.old (next_in self.old) room) }
        ensures made { OnOk result (IsMade self.new) }
        ensures err { OnErr result (self.new ≡ self.old) }
    {
        if self.ended {
            return Ok(None);
        }
        self.refused.reserve(1)?;
        let next = next_record(&mut self.machine);
        let number = self.machine.number();
        let Some(made) = next else {
            return Ok(end_mark(&mut self.ended, self.channel, room));
        };
        record_fits(&made);
        Ok(message(&mut self.refused, self.channel, number, made, room))
    }

    /// Places an action of a host at the channel's next message, behind what is placed there. It fails where memory is
    /// refused, and for an address above 30 and behind `MOST_POSTS` posts, which the steps that are played never have;
    /// then nothing was done.
    #[tactic(auto, using(crate::proofs::Posting::never_back))]
    pub(crate) fn post(&mut self, action: &HostAction) -> Result<(), AllocError>
        ensures channel { OnOk result (self.new ≡ with_post self.old action.now) }
        ensures made { OnOk result (IsMade self.new) }
        ensures err { OnErr result (self.new ≡ self.old) }
    {
        if !is_for_place(action) || self.posts >= MOST_POSTS {
            return Err(AllocError);
        }
        self.placed.room(1)?;
        self.machine.room(1)?;
        let one = Placed {
            number: self.machine.number() + 1,
            action: action.copy(),
        };
        match self.machine.place(action.copy()) {
            Ok(()) => {
                add_posted(&mut self.placed, one);
                self.posts += 1;
                Ok(())
            }
            Err(_) => Err(AllocError),
        }
    }

    /// What a report says of the channel. It fails for want of memory alone.
    pub(crate) fn report(&self) -> Result<ChannelReport, AllocError>
        ensures { IfOk result (λ r. r ≡ report_part self.now) }
    {
        let made = self.machine.number();
        let refused = self.refused.clone()?;
        let placed = Actions::of(self.placed.copy()?);
        Ok(channel_report(self.channel, made, refused, placed))
    }
}
