//! The changes of the lines of a recording over time.
ghost use Rattle.bench_export.specs.Changes as spec;
ghost use Rattle.bench_export.specs.Moments as moments;
ghost use Rattle.bench_export.specs.Showing.{shown_of};
ghost use Rattle.ch11_layout.specs.Layouts.{size_of};
ghost use Rattle.ch11_layout.specs.Stamps.{kind_of};
ghost use Rattle.std.specs.Prelude.{◌≡◌, ◌+◌, ◌<◌, ◌^◌, ◌++◌, ◌==◌, ◌&&◌, nat_lt, length, OnOk};

use crate::lines::{Shown, Wire};
use crate::moments::{WORD, begin_of};
use crate::place::Place;
use bench_select::Selection;
use ch11_f1::Messages;
use ch11_layout::{Role, StampKind, View};
use ch11_reader::Packet;
use mil_word::Command;
use std::alloc::AllocError;

/// A word on a line.
#[derive(Clone, Copy, Debug, PartialEq, Eq)]
pub struct Driven {
    /// The word's 16 bits.
    pub word: u16,
    /// What it is.
    pub role: Role,
    /// The terminal that it calls or is of, and of data words the terminal of the word in front of them; 0 to 31.
    pub terminal: u8,
    /// The number of its message, counted from 1 over the file.
    pub number: u64,
}

/// A change of a line.
#[derive(Clone, Copy, Debug, PartialEq, Eq)]
pub struct Change {
    /// When, in ticks of 0.1 µs.
    pub tick: u128,
    /// The channel of the bus.
    pub channel: u16,
    /// Whether it is line B of the bus, or else line A.
    pub on_b: bool,
    /// Whether a message with an error is on the line from here on.
    pub error: bool,
    /// The word that begins; none where the line is idle from here on.
    pub driven: Option<Driven>,
}

impl Change {
    /// The line.
    #[inline]
    pub(crate) fn wire(&self) -> Wire
        ensures on_b { result.on_b ≡ self.now.on_b }
        ensures channel { result.channel ≡ self.now.channel }
    {
        Wire {
            on_b: self.on_b,
            channel: self.channel,
        }
    }

    /// What the line shows from here on.
    #[inline]
    pub(crate) fn shown(&self) -> Shown
        ensures { result ≡ shown_of self.now }
    {
        Shown {
            driven: self.driven,
            error: self.error,
        }
    }
}

/// The terminal of the word at a place.
fn terminal_at(view: &View<'_>, place: usize) -> u8
    ensures { result ≡ spec.terminal_at view.now place }
{
    let layout = view.layout();
    let teller = match layout.role(place) {
        Role::Command | Role::Status => place,
        Role::Data => layout.data_start.saturating_sub(1),
    };
    Command::of(view.word(teller)).address()
}

/// The word at a place.
fn driven_at(view: &View<'_>, number: u64, place: usize) -> Driven
    ensures { result ≡ spec.driven_at number view.now place }
{
    let layout = view.layout();
    Driven {
        word: view.word(place),
        role: layout.role(place),
        terminal: terminal_at(view, place),
        number,
    }
}

/// A change of the line of a message.
fn change_of(
    view: &View<'_>,
    channel: u16,
    tick: u128,
    driven: Option<Driven>,
    error: bool,
) -> Change
    ensures { result ≡ spec.change_of view.now channel tick driven error }
{
    Change {
        tick,
        channel,
        on_b: view.is_on_line_b(),
        driven,
        error,
    }
}

/// Whether a message with an error is still there behind the word at a place.
fn error_behind(view: &View<'_>, place: usize) -> bool
    requires { place < size_of view.now }
    ensures { result ≡ spec.error_behind view.now place }
{
    let layout = view.layout();
    view.has_error() && place + 1 < layout.words
}

/// Whether the word behind the one at a place begins at the end of that one.
fn goes_on(view: &View<'_>, place: usize, next: u128, end: u128) -> bool
    requires { place < size_of view.now }
    ensures { result ≡ (nat_lt (place + 1) (size_of view.now) && (next == end)) }
{
    let layout = view.layout();
    place + 1 < layout.words && next == end
}

/// Adds the changes of the word at a place, which begins at a tick, as the one behind it does at another.
#[inline]
#[tactic(auto, unfolding(crate::specs::Changes::changes_at))]
fn push_word(
    changes: &mut Vec<Change>,
    message: Place,
    view: &View<'_>,
    place: usize,
    begin: u128,
    next: u128,
) -> Result<(), AllocError>
    requires within { place < size_of view.now }
    requires begin { begin ≡ moments.begin_of view.now place }
    requires next { next ≡ moments.begin_of view.now (place + 1) }
    requires small { begin < 2 ^ 100 }
    ensures { OnOk result (changes.new.items
        ≡ changes.old.items ++ spec.changes_at message.number message.channel view.now place) }
{
    let end = begin + WORD;
    let driven = driven_at(view, message.number, place);
    let error = view.has_error();
    changes.push(change_of(view, message.channel, begin, Some(driven), error))?;
    if goes_on(view, place, next, end) {
        return Ok(());
    }
    let error = error_behind(view, place);
    changes.push(change_of(view, message.channel, end, None, error))?;
    Ok(())
}

/// Adds the changes of a message.
fn push_message(
    changes: &mut Vec<Change>,
    message: Place,
    view: &View<'_>,
) -> Result<(), AllocError>
    ensures { OnOk result (changes.new.items
        ≡ changes.old.items ++ spec.changes_of message.number message.channel view.now) }
{
    let layout = view.layout();
    let mut begin = begin_of(view, 0);
    'words: for place in 0..layout.words {
        let next = begin_of(view, place + 1);
        push_word(changes, message, view, place, begin, next)?;
        begin = next;
    }
    Ok(())
}

/// Adds the changes of message n, if it is selected and its time is known.
#[tactic(auto, unfolding(crate::specs::Changes::changes_if))]
fn push_selected(
    changes: &mut Vec<Change>,
    selection: &Selection,
    message: Place,
    view: &View<'_>,
) -> Result<(), AllocError>
    ensures { OnOk result (changes.new.items
        ≡ changes.old.items ++ spec.changes_if selection.now message.number message.channel view.now) }
{
    if !selection.selects(message.number, message.channel, view) || !view.has_time() {
        return Ok(());
    }
    push_message(changes, message, view)
}

/// Adds the changes of a packet's selected messages.
pub(crate) fn push_messages(
    changes: &mut Vec<Change>,
    selection: &Selection,
    packet: &Packet,
    messages: Messages<'_>,
) -> Result<(), AllocError>
    requires { packet.now.before + length messages < 2 ^ 64 }
    ensures { OnOk result (changes.new.items ≡ changes.old.items
        ++ spec.changes_among selection.now
        (kind_of packet.now.header) packet.now.before packet.now.header.channel messages.entry) }
{
    let channel = packet.header.channel;
    let kind = StampKind::of(&packet.header);
    let mut number = packet.before;
    let mut rest = messages;
    'messages: while let Some(seen) = rest.next() {
        number += 1;
        push_selected(
            changes,
            selection,
            Place { number, channel },
            &View::of(kind, &seen),
        )?;
    }
    Ok(())
}

/// Puts changes by rising tick, those of one tick in their order.
pub(crate) fn put_in_order(changes: &mut Vec<Change>) -> Result<(), AllocError>
    ensures { OnOk result (spec.AreInOrder changes.old.items changes.new.items) }
{
    changes.sort_by_key(|change| change.tick)?;
    Ok(())
}
