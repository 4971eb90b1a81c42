//! The bench of jobs, one step at a time.
ghost use Rattle.bench_core.specs.Bench.{ChannelState, begun_channel, offered, posted, taken_from, stepped};
ghost use Rattle.bench_core.specs.Channels.{after_next, queued_next, next_in, IsMade};
ghost use Rattle.bench_settings.specs.Lawful.{AreLawful, RefusesJobs};
ghost use Rattle.bench_core.specs.World.{world_of, with_bench, file_of, report_of, IsWhole};
ghost use Rattle.ch11_builder.specs.Held.{fresh};
ghost use Rattle.ch11_recording.specs.WrittenFile.{channel_in};
ghost use Rattle.std.specs.List.{AllByRecursion};
ghost use Rattle.std.specs.Prelude.{IfErr, OnOk, OnErr, MatchOption, option_to_list};
ghost use Rattle.std.specs.Prelude.{◌≡◌, ◌≢◌, ◌<◌, ◌≤◌, ◌^◌, ◌++◌, nat_lt, map, length, slice_get, Some, Option, IfOk};
ghost use Rattle.std.specs.VecDeque.{deque_capacity};

use crate::laws::bench_is_settled;
use crate::step::Step;
use crate::stepped_channel::SteppedChannel;
use crate::writing::{LONGEST, channel_of, write};
use bc_machine::HostAction;
use bench_report::Report;
use bench_settings::{Settings, WorldError, judge};
use ch11_builder::{Builder, BuilderError};
use ch11_recording::{Item, file_is_packets, latest_is_last, recording_goes_on};
use history::History;
use job_file::Job;
use std::alloc::{AllocError, Global};
use std::collections::VecDeque;
use std::marker::Model;
use std::snapshot::Snapshot;

/// The channels of jobs, their queue and the file of what its writer took. Contracts see the list of the taken items
/// too, of which no byte is kept.
#[derive(Drop)]
pub struct World {
    channels: Vec<SteppedChannel>,
    builders: Vec<Builder>,
    queue: VecDeque<Item>,
    capacity: u32,
    version: u8,
    limit: u32,
    prologue: Snapshot<Vec<u8>>,
    most: u32,
    file: Vec<u8>,
    packets: u64,
    taken: History<Item>,
}

impl Model for World {
    ghost use Rattle.bench_core.specs.World.{WorldState, state_in, IsWorld};

    ghost Value = { WorldState };

    ghost view = { state_in };

    ghost invariant = { IsWorld };
}

/// The channels of jobs.
fn channels_of(alloc: Global, jobs: &[Job]) -> Result<Vec<SteppedChannel>, AllocError>
    ensures { IfOk result (λ v. v.items ≡ map begun_channel jobs.now) }
{
    let mut channels = Vec::with_capacity(alloc, jobs.len())?;
    for job in jobs {
        channels.push(SteppedChannel::make(alloc, job)?)?;
    }
    Ok(channels)
}

/// A builder for the packets of each job's channel.
fn builders_of(
    alloc: Global,
    jobs: &[Job],
    version: u8,
    limit: u32,
) -> Result<Vec<Builder>, AllocError>
    ensures builders { IfOk result
        (λ v. v.items ≡ map (λ j. fresh (channel_in (record { version = version; limit = limit }) j.channel))
        jobs.now) }
    ensures channels { OnOk result (AllByRecursion (λ j. j.channel < 2 ^ 16) jobs.now) }
    ensures version { version < 2 ^ 8 }
{
    let mut builders = Vec::with_capacity(alloc, jobs.len())?;
    for job in jobs {
        match Builder::make(alloc, job.channel(), version, limit) {
            Ok(builder) => builders.push(builder)?,
            Err(BuilderError::Limit | BuilderError::Memory) => return Err(AllocError),
        }
    }
    Ok(builders)
}

/// The place of a channel.
fn place_of(channels: &[SteppedChannel], channel: u16) -> Option<usize>
    ensures { MatchOption result (AllByRecursion (λ (l : ChannelState). l.channel ≢ channel) channels.now)
        (λ index. slice_get (map (λ l. l.channel) channels.now) index ≡ Some channel) }
{
    let mut place = 0;
    for one in channels {
        if one.channel() == channel {
            return Some(place);
        }
        place += 1;
    }
    None
}

/// What comes next of a channel goes into the queue, where that has room. It fails for want of memory alone, and then
/// nothing was done.
fn offer_to(
    channel: &mut SteppedChannel,
    queue: &mut VecDeque<Item>,
    capacity: usize,
) -> Result<(), AllocError>
    requires room { capacity ≤ deque_capacity queue.old }
    ensures channel { OnOk result (channel.new
        ≡ after_next channel.old (next_in channel.old) (nat_lt (length queue.old.items) capacity)) }
    ensures queue { OnOk result (queue.new.items
        ≡ queue.old.items ++ option_to_list
        (queued_next channel.old (next_in channel.old) (nat_lt (length queue.old.items) capacity))) }
    ensures made { OnOk result (IsMade channel.new) }
    ensures capacity { deque_capacity queue.new ≡ deque_capacity queue.old }
    ensures same_channel { OnErr result (channel.new ≡ channel.old) }
    ensures same_queue { OnErr result (queue.new.items ≡ queue.old.items) }
{
    let room = queue.len() < capacity;
    if let Some(item) = channel.advance(room)? {
        queue.push_back_reserved(item);
    }
    Ok(())
}

impl World {
    /// The channels of jobs before any step, under the settings. U2, then U1, then U5, then U3 where memory is refused;
    /// nothing is kept of a world that is refused.
    pub fn make(alloc: Global, jobs: &[Job], settings: &Settings) -> Result<World, WorldError>
        ensures world { IfOk result (λ w. w ≡ world_of jobs.now settings.now) }
        ensures lawful { OnOk result (AreLawful jobs.now settings.now) }
        ensures refused { IfErr result (RefusesJobs jobs.now settings.now) }
    {
        judge(jobs, settings)?;
        match World::begin(alloc, jobs, settings) {
            Ok(world) => Ok(world),
            Err(_) => Err(WorldError::Memory),
        }
    }

    /// The same of what may be run. It fails for want of memory alone.
    fn begin(alloc: Global, jobs: &[Job], settings: &Settings) -> Result<World, AllocError>
        requires { AreLawful jobs.now settings.now }
        ensures { IfOk result (λ w. w ≡ world_of jobs.now settings.now) }
    {
        let channels = channels_of(alloc, jobs)?;
        let builders = builders_of(alloc, jobs, settings.version, settings.limit)?;
        let queue = VecDeque::with_capacity(alloc, settings.queue as usize)?;
        let file = settings.prologue.to_vec(alloc)?;
        Ok(World {
            channels,
            builders,
            queue,
            capacity: settings.queue,
            version: settings.version,
            limit: settings.limit,
            prologue: Snapshot::of(&settings.prologue),
            most: settings.posts,
            file,
            packets: 0,
            taken: History::none(),
        })
    }

    /// The bytes of the file so far: the prologue, and then the closed packets.
    pub fn file(&self) -> &[u8]
        ensures { result.now ≡ file_of self.now }
    {
        self.file.as_slice()
    }

    /// The queue, its front first.
    pub fn queued(&self) -> &VecDeque<Item>
        ensures { result.now.items ≡ self.now.bench.queue }
    {
        &self.queue
    }

    /// The channel at an index offers what comes next; nothing is done where there is no such channel. It fails for
    /// want of memory alone, and then nothing was done.
    fn offer(&mut self, index: usize) -> Result<(), AllocError>
        ensures ok { OnOk result (self.new ≡ with_bench self.old (offered index self.old.bench)) }
        ensures err { OnErr result (self.new ≡ self.old) }
    {
        if index >= self.channels.len() {
            return Ok(());
        }
        offer_to(
            &mut self.channels[index],
            &mut self.queue,
            self.capacity as usize,
        )
    }

    /// The writer takes the front of the queue, where there is one, and writes the packet that it closes. It fails for
    /// want of memory alone, and then nothing was done.
    fn take(&mut self) -> Result<(), AllocError>
        ensures ok { OnOk result (self.new ≡ with_bench self.old (taken_from self.old.bench.queue self.old.bench)) }
        ensures err { OnErr result (self.new ≡ self.old) }
    {
        if self.queue.is_empty() {
            return Ok(());
        }
        self.file.reserve(LONGEST)?;
        let Some(item) = self.queue.pop_front() else {
            return Ok(());
        };
        // What is queued is of one of the channels.
        let Some(index) = place_of(&self.channels, channel_of(&item)) else {
            return Ok(());
        };
        latest_is_last();
        recording_goes_on();
        file_is_packets();
        self.packets += write(&mut self.builders[index], &mut self.file, &item);
        self.taken = self.taken.put_behind(&item);
        Ok(())
    }

    /// A host posts an action for a terminal or for the controller of the channel at an index; nothing is done where
    /// there is no such channel. It fails as the channel does, and then nothing was done.
    fn post(&mut self, index: usize, action: &HostAction) -> Result<(), AllocError>
        ensures ok { OnOk result (self.new ≡ with_bench self.old (posted index action.now self.old.bench)) }
        ensures err { OnErr result (self.new ≡ self.old) }
    {
        if index >= self.channels.len() {
            return Ok(());
        }
        self.channels[index].post(action)
    }

    /// One step, which does nothing where there is no such channel. It fails for want of memory, and for a post that a
    /// channel does not take; then nothing was done.
    #[tactic(auto, unfolding(crate::specs::Bench::stepped))]
    pub(crate) fn step(&mut self, step: &Step) -> Result<(), AllocError>
        ensures ok { OnOk result (self.new ≡ with_bench self.old (stepped step.now self.old.bench)) }
        ensures err { OnErr result (self.new ≡ self.old) }
    {
        match step {
            Step::Offer(index) => self.offer(usize::from(*index)),
            Step::Take => self.take(),
            Step::Post(index, action) => self.post(usize::from(*index), action),
        }
    }

    /// The channels.
    pub(crate) fn channels(&self) -> &[SteppedChannel]
        ensures { result.now ≡ self.now.bench.channels }
    {
        self.channels.as_slice()
    }

    /// How many posts of each channel may be placed.
    pub(crate) fn most(&self) -> u32
        ensures { result ≡ self.now.most }
    {
        self.most
    }

    /// Nothing is lost, doubled or out of order.
    pub(crate) fn keeps_whole(&self)
        ensures { IsWhole self.now }
    {
        // Named for the proofs alone.
        let _ = &self.channels;
        bench_is_settled();
    }

    /// What became of each channel so far, and how many packets stand in the file behind the prologue. It fails for
    /// want of memory alone.
    pub fn report(&self, alloc: Global) -> Result<Report, AllocError>
        ensures { IfOk result (λ r. r ≡ report_of self.now) }
    {
        let mut channels = Vec::with_capacity(alloc, self.channels.len())?;
        for channel in &self.channels {
            channels.push(channel.report()?)?;
        }
        Ok(Report::make(channels, self.packets))
    }
}
