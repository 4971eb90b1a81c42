//! Changes that wait until no other that comes can be before them.
ghost use Rattle.bench_export.specs.Changes.{AreInOrder, changes_among};
ghost use Rattle.bench_export.specs.Merging.{AreShown, IsCut, IsLag, IsMerging, last_tick};
ghost use Rattle.bench_export.specs.Waves.{changes_text};
ghost use Rattle.bench_export.specs.declared.changes.Change.{Change as Item};
ghost use Rattle.ch11_layout.specs.Stamps.{kind_of};
ghost use Rattle.std.specs.Io.KnownBytes.{Appends};
ghost use Rattle.std.specs.List.{All};
ghost use Rattle.std.specs.Prelude.{◌≡◌, ◌+◌, ◌<◌, ◌≤◌, ◌^◌, ◌++◌, [], ℕ, List, Option, length, take, IfOk, OnOk};

use crate::changes::{Change, push_messages, put_in_order};
use crate::lines::Lines;
use crate::signals::{LONGEST, put_change};
use bench_select::Selection;
use ch11_f1::Messages;
use ch11_reader::Packet;
use std::alloc::Global;
use std::io::Write;
use text_lines::WriteFault;

/// How many changes wait at least before some are written.
const ROOM: usize = 4_096;

/// Changes that wait, 48 bytes each.
#[derive(Drop)]
pub(crate) struct Merge {
    /// Those that were not written, of which the last came last.
    pub(crate) waiting: Vec<Change>,
    /// How many ticks a change lies at most before one in front of it in the file.
    pub(crate) lag: u128,
    /// The tick that was told last.
    pub(crate) last: u128,
    /// What the lines show behind the changes that were written.
    pub(crate) lines: Lines,
    /// How many wait before some are written: twice as many as waited on when that was done last, and some more.
    room: usize,
}

/// Writes changes behind a time that was told, on lines that show something; answers the time that was told last.
fn write_changes<W: Write>(
    told: u128,
    lines: &mut Lines,
    changes: &[Change],
    out: &mut W,
) -> Result<u128, WriteFault>
    ensures written { OnOk result ((cs : List Item) → AreShown lines.old.shown.items cs
        → Appends (W.contents out.old) (W.contents out.new) (changes_text told cs changes.now)) }
    ensures shown { OnOk result ((cs : List Item) → AreShown lines.old.shown.items cs
        → AreShown lines.new.shown.items (cs ++ changes.now)) }
    ensures last { IfOk result (λ last. last ≡ last_tick told changes.now) }
{
    let mut room = [0; LONGEST];
    let mut last = told;
    'changes: for change in changes {
        let start = put_change(&mut room, last, lines.of(change.wire()), change);
        out.write_all(&room[start..])?;
        lines.note(change)?;
        last = change.tick;
    }
    Ok(last)
}

/// How many changes in front have at most a tick.
fn up_to(waiting: &[Change], bound: u128) -> usize
    ensures within { result ≤ length waiting.now }
    ensures early { All (λ (d : Item). d.tick ≤ bound) (take result waiting.now) }
{
    'changes: for place in 0..waiting.len() {
        if bound < waiting[place].tick {
            return place;
        }
    }
    waiting.len()
}

/// How many changes of those that wait, by rising tick, no change can be before that comes later.
fn due_of(waiting: &[Change], lag: u128) -> usize
    ensures within { result ≤ length waiting.now }
    ensures early { (tick : ℕ) → All (λ (w : Item). w.tick ≤ tick + lag) waiting.now
        → All (λ (d : Item). d.tick ≤ tick) (take result waiting.now) }
{
    if waiting.is_empty() {
        return 0;
    }
    let newest = waiting[waiting.len() - 1].tick;
    up_to(waiting, newest.saturating_sub(lag))
}

/// Writes those that are due, and keeps the others; answers the time that was told last.
fn write_due<W: Write>(
    waiting: &mut Vec<Change>,
    lag: u128,
    told: u128,
    lines: &mut Lines,
    out: &mut W,
) -> Result<u128, WriteFault>
    ensures { IfOk result (λ last. (due : List Item) × IsCut lag waiting.old.items due waiting.new.items
        × (last ≡ last_tick told due)
        × ((cs : List Item) → AreShown lines.old.shown.items cs → AreShown lines.new.shown.items (cs ++ due))
        × ((cs : List Item) → AreShown lines.old.shown.items cs
        → Appends (W.contents out.old) (W.contents out.new) (changes_text told cs due))) }
{
    put_in_order(waiting)?;
    let due = due_of(waiting, lag);
    let rest = waiting.split_off(due)?;
    let last = write_changes(told, lines, waiting, out)?;
    *waiting = rest;
    Ok(last)
}

impl Merge {
    /// None that wait, behind a time that was told.
    pub(crate) fn behind(alloc: Global, told: u128, lag: u128) -> Merge
        ensures lag { result.lag ≡ lag }
        ensures merging { (got : Option (List ℕ))
            → IsMerging told result.lag result.last result.lines.shown.items got got [] result.waiting.items }
    {
        Merge {
            waiting: Vec::new(alloc),
            lag,
            last: told,
            lines: Lines::idle(alloc),
            room: ROOM,
        }
    }

    /// Writes those that are due, where many wait.
    fn write_many<W: Write>(&mut self, out: &mut W) -> Result<(), WriteFault>
        ensures lag { self.new.lag ≡ self.old.lag }
        ensures merging { OnOk result ((first : ℕ) (got : Option (List ℕ)) (so_far : List Item)
            → IsMerging first self.old.lag self.old.last self.old.lines.shown.items got (W.contents out.old)
            so_far self.old.waiting.items
            → IsMerging first self.new.lag self.new.last self.new.lines.shown.items got (W.contents out.new)
            so_far self.new.waiting.items) }
    {
        if self.waiting.len() < self.room {
            return Ok(());
        }
        self.last = write_due(&mut self.waiting, self.lag, self.last, &mut self.lines, out)?;
        self.room = self.waiting.len().saturating_mul(2).saturating_add(ROOM);
        Ok(())
    }

    /// Adds the changes of a packet's selected messages, and writes those that are due, where many wait.
    pub(crate) fn take_packet<W: Write>(
        &mut self,
        selection: &Selection,
        packet: &Packet,
        messages: Messages<'_>,
        out: &mut W,
    ) -> Result<(), WriteFault>
        requires { packet.now.before + length messages < 2 ^ 64 }
        ensures lag { self.new.lag ≡ self.old.lag }
        ensures merging { OnOk result ((first : ℕ) (got : Option (List ℕ)) (so_far : List Item)
            → IsMerging first self.old.lag self.old.last self.old.lines.shown.items got (W.contents out.old)
            so_far self.old.waiting.items
            → IsMerging first self.new.lag self.new.last self.new.lines.shown.items got (W.contents out.new)
            (so_far ++ changes_among selection.now
            (kind_of packet.now.header) packet.now.before packet.now.header.channel messages.entry)
            self.new.waiting.items) }
    {
        push_messages(&mut self.waiting, selection, packet, messages)?;
        self.write_many(out)?;
        Ok(())
    }

    /// Writes all that wait.
    pub(crate) fn write_rest<W: Write>(self, out: &mut W) -> Result<(), WriteFault>
        ensures { OnOk result ((first : ℕ) (got : Option (List ℕ)) (so_far : List Item)
            → IsMerging first self.lag self.last self.lines.shown.items got (W.contents out.old) so_far
            self.waiting.items
            → IsLag self.lag so_far → ((given : List Item) × AreInOrder so_far given
            × Appends got (W.contents out.new) (changes_text first [] given))) }
    {
        let mut rest = self.waiting;
        let mut lines = self.lines;
        put_in_order(&mut rest)?;
        write_changes(self.last, &mut lines, &rest, out)?;
        Ok(())
    }
}
