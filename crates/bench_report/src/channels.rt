//! The report of one channel.
ghost use Rattle.bc_machine.specs.declared.placed.Placed.{Placed};
ghost use Rattle.bench_report.specs.Drafts.{TakesIntoDraft, last_number, numbers, with_refused, with_placed};
ghost use Rattle.bench_report.specs.Reports.{IsPart, IsPlaced, IsPlace, IsHostAction, Rises, NeverFalls};
ghost use Rattle.std.specs.Prelude.{◌≡◌, ◌<◌, ◌≤◌, All, [], length, slice_index_or};

use crate::fault::ReportFault;
use bc_machine::{Actions, HostAction, Placed};
use std::alloc::Global;
use std::marker::Model;

/// The report of one channel: how many messages it made, the numbers of those that a full queue refused, rising, and
/// the actions of hosts that were placed, whose numbers never fall. A placed number may be above the number made.
#[derive(Drop)]
pub struct ChannelReport {
    channel: u16,
    made: u32,
    refused: Vec<u32>,
    placed: Actions,
}

impl Model for ChannelReport {
    ghost use Rattle.bench_report.specs.Reports.{ChannelPart, IsPart};

    ghost Value = { ChannelPart };

    ghost view = { λ c. record {
      channel = c.channel;
      made = c.made;
      refused = c.refused.items;
      placed = c.placed;
    } };

    ghost invariant = { λ c. IsPart
        (record { channel = c.channel; made = c.made; refused = c.refused.items; placed = c.placed }) };
}

impl ChannelReport {
    /// The report of a channel of 1 to 65,535 that made up to 1,000,000 messages. The refused numbers rise within 1 to
    /// `made`; the placed ones are 1 to 1,000,000 and never fall, at addresses of 0 to 30.
    pub fn make(channel: u16, made: u32, refused: Vec<u32>, placed: Actions) -> ChannelReport
        requires channel { 1 ≤ channel }
        requires made { made ≤ 1000000 }
        requires refused { Rises 0 made refused.items }
        requires placed { All IsPlace placed }
        requires order { NeverFalls 0 placed }
        ensures { result ≡ record { channel = channel; made = made; refused = refused.items; placed = placed } }
    {
        keep_ranges(&placed);
        ChannelReport {
            channel,
            made,
            refused,
            placed,
        }
    }

    /// A channel that made so many messages, as far as its first two lines say.
    pub(crate) fn begin(alloc: Global, channel: u16, made: u32) -> ChannelReport
        requires channel { 1 ≤ channel }
        requires made { made ≤ 1000000 }
        ensures { result ≡ record { channel = channel; made = made; refused = []; placed = [] } }
    {
        ChannelReport::make(channel, made, Vec::new(alloc), Actions::new(alloc))
    }

    /// The channel, 1 to 65,535.
    pub fn channel(&self) -> u16
        ensures value { result ≡ self.now.channel }
        ensures part { IsPart self.now }
    {
        self.channel
    }

    /// How many messages were made, 0 to 1,000,000.
    pub fn made(&self) -> u32
        ensures value { result ≡ self.now.made }
        ensures part { IsPart self.now }
    {
        self.made
    }

    /// The refused numbers, rising within 1 to the number made.
    pub fn refused(&self) -> &[u32]
        ensures value { result.now ≡ self.now.refused }
        ensures part { IsPart self.now }
    {
        &self.refused
    }

    /// The placed actions; their numbers never fall.
    pub fn placed(&self) -> &Actions
        ensures value { result.now ≡ self.now.placed }
        ensures part { IsPart self.now }
    {
        &self.placed
    }

    /// A refused number behind those that are there.
    pub(crate) fn add_refused(&mut self, number: u32) -> Result<(), ReportFault>
        ensures { TakesIntoDraft result (with_refused self.old number) self.new }
    {
        if !self.placed.is_empty() || number <= last_refused(&self.refused) || self.made < number {
            return Err(ReportFault::Order);
        }
        self.refused.push(number)?;
        Ok(())
    }

    /// A placed action behind those that are there.
    pub(crate) fn add_placed(&mut self, placed: Placed) -> Result<(), ReportFault>
        requires { IsPlaced placed }
        ensures { TakesIntoDraft result (with_placed self.old placed) self.new }
    {
        if placed.number < last_placed(&self.placed) {
            return Err(ReportFault::Order);
        }
        self.placed.push(placed)?;
        Ok(())
    }
}

/// The last refused number, and 0 where there is none.
fn last_refused(refused: &[u32]) -> u32
    ensures { result ≡ last_number 0 refused.now }
{
    match refused.last() {
        Some(number) => *number,
        None => 0,
    }
}

/// The number of the last placed action, and 0 where there is none.
fn last_placed(placed: &Actions) -> u32
    ensures { result ≡ last_number 0 (numbers placed.now) }
{
    if placed.is_empty() {
        0
    } else {
        placed.number(placed.len() - 1)
    }
}

/// Each action keeps its ranges.
fn keep_ranges(placed: &Actions)
    ensures { All (λ (p : Placed). IsHostAction p.action) placed.now }
{
    for place in 0..placed.len() {
        placed_keeps_ranges(placed, place);
    }
}

/// The action at a place keeps its ranges.
fn placed_keeps_ranges(placed: &Actions, place: usize)
    requires { place < length placed.now }
    ensures { (one : Placed) → IsHostAction (slice_index_or placed.now place one).action }
{
    match placed.whole(place) {
        Some(action) => action_keeps_ranges(action),
        None => action_keeps_ranges(&placed.get(place).action),
    }
}

/// The values of an action are in their ranges.
fn action_keeps_ranges(action: &HostAction)
    ensures { IsHostAction action.now }
{
    match action {
        HostAction::Terminal { action, .. } => action.reads_back(),
        HostAction::Controller(control) => control.keeps_ranges(),
    }
}
