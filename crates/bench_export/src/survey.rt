//! What is known of the changes of a recording before any is written.
ghost use Rattle.bench_export.specs.Changes.{changes_among};
ghost use Rattle.bench_export.specs.Merging as spec;
ghost use Rattle.bench_export.specs.Merging.{IsSurvey};
ghost use Rattle.bench_export.specs.declared.changes.Change.{Change as Item};
ghost use Rattle.ch11_layout.specs.Stamps.{kind_of};
ghost use Rattle.std.specs.Prelude.{◌≡◌, ◌+◌, ◌<◌, ◌≤◌, ◌^◌, ◌-◌, ◌++◌, ◌∷◌, [], List, length, true, false};
ghost use Rattle.std.specs.Prelude.{slice_index_or, slice_set, IfOk, OnOk};

use crate::changes::{Change, push_messages};
use bench_select::{CHANNELS, Selection, mark_channel, no_channels};
use ch11_f1::Messages;
use ch11_reader::Packet;
use std::alloc::{AllocError, Global};

/// What is known of changes.
#[derive(Drop)]
pub(crate) struct Survey {
    /// A mark for each channel, whether it has a change.
    pub(crate) marks: Vec<bool>,
    /// The least tick of a change; none where there is no change.
    pub(crate) least: Option<u128>,
    /// The greatest tick of a change, 0 where there is none.
    pub(crate) newest: u128,
    /// How many ticks a change lies at most before one in front of it in the file.
    pub(crate) lag: u128,
}

/// Whether a channel is marked.
pub(crate) fn is_marked(marks: &[bool], channel: usize) -> bool
    requires { channel < length marks.now }
    ensures { result ≡ slice_index_or marks.now channel false }
{
    marks[channel]
}

/// The channel is marked.
fn mark(marks: &mut Vec<bool>, channel: u16)
    requires { length marks.old.items ≡ CHANNELS }
    ensures marked { marks.new.items ≡ slice_set marks.old.items channel true }
    ensures many { length marks.new.items ≡ CHANNELS }
{
    mark_channel(marks, channel);
}

/// The larger one.
fn larger(one: u128, other: u128) -> u128
    ensures one { one ≤ result }
    ensures other { other ≤ result }
{
    if one < other { other } else { one }
}

/// The least tick, and one more.
fn lower(least: Option<u128>, tick: u128) -> u128
    ensures { result ≡ spec.lower least tick }
{
    match least {
        None => tick,
        Some(least) => { if least < tick { least } else { tick } }
    }
}

impl Survey {
    /// What is known of no change.
    pub(crate) fn of_none(alloc: Global) -> Result<Survey, AllocError>
        ensures many { IfOk result (λ survey. length survey.marks.items ≡ CHANNELS) }
        ensures none { IfOk result (λ survey. IsSurvey survey.marks.items survey.least survey.newest survey.lag []) }
    {
        let marks = no_channels(alloc)?;
        Ok(Survey {
            marks,
            least: None,
            newest: 0,
            lag: 0,
        })
    }

    /// Notes a change behind others.
    fn note(&mut self, change: &Change)
        requires { length self.old.marks.items ≡ CHANNELS }
        ensures many { length self.new.marks.items ≡ CHANNELS }
        ensures noted { (cs : List Item)
            → IsSurvey self.old.marks.items self.old.least self.old.newest self.old.lag cs
            → IsSurvey self.new.marks.items self.new.least self.new.newest self.new.lag (cs ++ change.now ∷ []) }
    {
        mark(&mut self.marks, change.channel);
        self.least = Some(lower(self.least, change.tick));
        self.lag = larger(self.lag, self.newest.saturating_sub(change.tick));
        self.newest = larger(self.newest, change.tick);
    }

    /// Notes changes behind others.
    fn note_all(&mut self, changes: &[Change])
        requires { length self.old.marks.items ≡ CHANNELS }
        ensures many { length self.new.marks.items ≡ CHANNELS }
        ensures noted { (cs : List Item)
            → IsSurvey self.old.marks.items self.old.least self.old.newest self.old.lag cs
            → IsSurvey self.new.marks.items self.new.least self.new.newest self.new.lag (cs ++ changes.now) }
    {
        'changes: for change in changes {
            self.note(change);
        }
    }

    /// Notes the changes of a packet's selected messages, of which the room is a scratch.
    pub(crate) fn note_packet(
        &mut self,
        room: &mut Vec<Change>,
        selection: &Selection,
        packet: &Packet,
        messages: Messages<'_>,
    ) -> Result<(), AllocError>
        requires few { packet.now.before + length messages < 2 ^ 64 }
        requires many { length self.old.marks.items ≡ CHANNELS }
        ensures many { OnOk result (length self.new.marks.items ≡ CHANNELS) }
        ensures noted { OnOk result ((cs : List Item)
            → IsSurvey self.old.marks.items self.old.least self.old.newest self.old.lag cs
            → IsSurvey self.new.marks.items self.new.least self.new.newest self.new.lag
            (cs ++ changes_among selection.now
            (kind_of packet.now.header) packet.now.before packet.now.header.channel messages.entry)) }
    {
        room.clear();
        push_messages(room, selection, packet, messages)?;
        self.note_all(room);
        Ok(())
    }

    /// The least tick, 0 where there is no change.
    pub(crate) fn first(&self) -> u128
        ensures { result ≡ spec.least_tick self.now.least }
    {
        self.least.unwrap_or(0)
    }
}
