//! What does not fit into the rows of placed actions, in lists beside them.
ghost use Rattle.bc_machine.specs.Beside.{IsBehind, insert_beside, no_message, nothing_beside, whole_beside};
ghost use Rattle.bc_machine.specs.Beside.{with_insert, with_whole, with_words, words_beside};
ghost use Rattle.bc_machine.specs.Hosting.{insertion_of};
ghost use Rattle.std.specs.Prelude.{◌≡◌, ◌+◌, ◌<◌, ◌≤◌, length, slice_index_or, vec_capacity, vec_len, IsTrue};
ghost use Rattle.std.specs.Prelude.{IfErr, IfOk, IfSome, OnErr, OnOk};

use crate::placed::HostAction;
use controller_host::{Control, Insertion};
use mil_host::{Action, TransmitWords};
use mil_message::Message;
use mil_word::Line;
use std::alloc::{AllocError, Global};
use std::marker::Model;

/// At most so many stand in each of the lists.
pub const MOST_BESIDE: usize = 4_294_967_295;

/// Among so many messages that were kept last one is looked for that is equal to that of an insert.
const LAST_FEW: usize = 16;

/// An inserted message in 16 bytes.
#[derive(Clone, Copy, Debug)]
pub struct KeptInsert {
    /// The tick of 0.1 µs before which it does not start, 0 to 2^47.
    pub tick: u64,
    pub line: Line,
    /// The place of its message among those that are kept.
    pub message: u32,
}

/// An inserted message that is looked at where it is kept.
#[derive(Drop)]
pub struct Inserted<'a> {
    tick: u64,
    line: Line,
    message: &'a Message,
}

impl<'a> Model for Inserted<'a> {
    ghost use Rattle.controller_host.specs.Values.{InsertionValue, latest_tick};
    ghost use Rattle.std.specs.Prelude.{◌≤◌};

    ghost Value = { InsertionValue };

    ghost view = { λ x. record { tick = x.tick; line = x.line; message = x.message.now } };

    ghost invariant = { λ x. x.tick ≤ latest_tick };
}

impl<'a> Inserted<'a> {
    /// An inserted message that stands whole.
    fn of(insertion: &'a Insertion) -> Inserted<'a>
        ensures { result ≡ insertion.now }
    {
        Inserted {
            tick: insertion.tick(),
            line: insertion.line(),
            message: insertion.message(),
        }
    }

    /// The same with a message of its own, which takes no memory.
    pub fn insertion(&self) -> Insertion
        ensures { result ≡ self.now }
    {
        Insertion::make(self.tick, self.line, self.message.copy())
    }
}

/// What placed actions take beside their rows: the data words that terminals put up, the messages that the host of the
/// controller has inserted, and all else whole; contracts see these lists, and for how many whole actions there is
/// room. An insert takes 16 bytes where its message is one of those that were kept last. Where the list of its kind has
/// no room for an action it stands whole, so room for whole actions is room for any.
#[derive(Drop)]
pub struct Beside {
    words: Vec<TransmitWords>,
    inserts: Vec<KeptInsert>,
    /// The messages of the inserts.
    messages: Vec<Message>,
    wholes: Vec<HostAction>,
}

impl Model for Beside {
    ghost use Rattle.bc_machine.specs.Beside.{BesideState, IsBeside, beside_in};

    ghost Value = { BesideState };

    ghost view = { beside_in };

    ghost invariant = { IsBeside };
}

/// Whether a list has room for one more.
fn has_room<T>(list: &Vec<T>) -> bool
    ensures room { IsTrue result → vec_len list.now < vec_capacity list.now }
    ensures few { IsTrue result → vec_len list.now < 4294967295 }
{
    list.len() < list.capacity() && list.len() < MOST_BESIDE
}

/// Whether two messages are equal.
fn is_same(one: &Message, other: &Message) -> bool
    ensures { IsTrue result → one.now ≡ other.now }
{
    one == other
}

/// The place of an equal message among the last few, if there is one.
fn place_of(messages: &[Message], message: &Message) -> Option<usize>
    ensures within { IfSome result (λ place. place < length messages.now) }
    ensures same { IfSome result (λ place. slice_index_or messages.now place no_message ≡ message.now) }
{
    let first = messages.len().saturating_sub(LAST_FEW);
    for place in first..messages.len() {
        if is_same(&messages[place], message) {
            return Some(place);
        }
    }
    None
}

/// The place of an equal message, which is put behind the others where none of the last few is equal.
fn put_message(messages: &mut Vec<Message>, message: &Message) -> u32
    requires room { vec_len messages.old < vec_capacity messages.old }
    requires few { vec_len messages.old < 4294967295 }
    ensures within { result < length messages.new.items }
    ensures same { slice_index_or messages.new.items result no_message ≡ message.now }
    ensures more { IsBehind messages.old.items messages.new.items }
{
    if let Some(place) = place_of(messages.as_slice(), message) {
        return place as u32;
    }
    let place = messages.len() as u32;
    messages.push_reserved(message.copy());
    place
}

/// Copies of data words, in their order. It fails for want of memory alone.
fn copies_of_words(alloc: Global, words: &[TransmitWords]) -> Result<Vec<TransmitWords>, AllocError>
    ensures same { IfOk result (λ v. v.items ≡ words.now) }
{
    let mut copies = Vec::with_capacity(alloc, words.len())?;
    for one in words {
        copies.push_reserved(one.copy());
    }
    Ok(copies)
}

/// Copies of actions, in their order, with room for so many more. It fails for want of memory alone.
fn copies_of(
    alloc: Global,
    wholes: &[HostAction],
    more: usize,
) -> Result<Vec<HostAction>, AllocError>
    ensures same { IfOk result (λ v. v.items ≡ wholes.now) }
    ensures room { IfOk result (λ v. length wholes.now + more ≤ vec_capacity v) }
{
    let mut copies = Vec::with_capacity(alloc, wholes.len())?;
    for one in wholes {
        copies.push_reserved(one.copy());
    }
    copies.reserve(more)?;
    Ok(copies)
}

/// The message that an action puts into the queue, if it does.
pub fn insert_of(action: &HostAction) -> Option<Inserted<'_>>
    ensures { result ≡ insertion_of action.now }
{
    match action {
        HostAction::Controller(Control::Insert(insertion)) => Some(Inserted::of(insertion)),
        _ => None,
    }
}

impl Beside {
    /// Nothing. It takes no memory.
    pub fn none(alloc: Global) -> Beside
        ensures { result.lists ≡ nothing_beside }
    {
        Beside {
            words: Vec::new(alloc),
            inserts: Vec::new(alloc),
            messages: Vec::new(alloc),
            wholes: Vec::new(alloc),
        }
    }

    /// How many actions stand whole.
    pub fn count_wholes(&self) -> usize
        ensures { result ≡ length self.now.lists.wholes }
    {
        self.wholes.len()
    }

    /// Makes room for so many whole actions more. It fails for want of memory alone.
    pub fn reserve(&mut self, more: usize) -> Result<(), AllocError>
        ensures lists { self.new.lists ≡ self.old.lists }
        ensures room { OnOk result (length self.new.lists.wholes + more ≤ self.new.capacity) }
        ensures capacity { self.old.capacity ≤ self.new.capacity }
    {
        self.wholes.reserve(more)
    }

    /// Has memory at hand where an action of this kind is kept. It fails for want of memory alone.
    fn reserve_kind(&mut self, action: &HostAction) -> Result<(), AllocError>
        ensures { self.new ≡ self.old }
    {
        match action {
            HostAction::Terminal {
                action: Action::Transmit(_),
                ..
            } => self.words.reserve(1),
            HostAction::Controller(Control::Insert(_)) => {
                self.inserts.reserve(1)?;
                self.messages.reserve(1)
            }
            _ => Ok(()),
        }
    }

    /// Makes room for an action. It fails for want of memory alone.
    pub fn reserve_for(&mut self, action: &HostAction) -> Result<(), AllocError>
        ensures lists { self.new.lists ≡ self.old.lists }
        ensures room { OnOk result (length self.new.lists.wholes < self.new.capacity) }
        ensures capacity { self.old.capacity ≤ self.new.capacity }
    {
        self.reserve_kind(action)?;
        self.reserve(1)
    }

    /// Puts data words behind the others where their list has room, and gives their place; else they come back.
    pub fn add_words(&mut self, put: TransmitWords) -> Result<u32, TransmitWords>
        ensures place { IfOk result (λ place. place ≡ length self.old.lists.words) }
        ensures added { OnOk result (self.new.lists ≡ with_words self.old.lists put) }
        ensures capacity { self.new.capacity ≡ self.old.capacity }
        ensures back { IfErr result (λ back. back ≡ put) }
        ensures same { OnErr result (self.new ≡ self.old) }
    {
        if !has_room(&self.words) {
            return Err(put);
        }
        let place = self.words.len() as u32;
        self.words.push_reserved(put);
        Ok(place)
    }

    /// Puts an inserted message behind the others where the lists have room, and gives its place; else it comes back.
    pub fn add_insert(&mut self, insertion: Insertion) -> Result<u32, Insertion>
        ensures place { IfOk result (λ place. place ≡ length self.old.lists.inserts) }
        ensures added { OnOk result (self.new.lists ≡ with_insert self.old.lists insertion) }
        ensures capacity { self.new.capacity ≡ self.old.capacity }
        ensures back { IfErr result (λ back. back ≡ insertion) }
        ensures same { OnErr result (self.new ≡ self.old) }
    {
        if !has_room(&self.inserts) {
            return Err(insertion);
        }
        if !has_room(&self.messages) {
            return Err(insertion);
        }
        let place = self.inserts.len() as u32;
        let message = put_message(&mut self.messages, insertion.message());
        self.inserts.push_reserved(KeptInsert {
            tick: insertion.tick(),
            line: insertion.line(),
            message,
        });
        Ok(place)
    }

    /// Puts a whole action behind the others, which have room for it, and gives its place.
    pub fn add_whole(&mut self, action: HostAction) -> u32
        requires room { length self.old.lists.wholes < self.old.capacity }
        requires few { length self.old.lists.wholes < 4294967295 }
        ensures place { result ≡ length self.old.lists.wholes }
        ensures added { self.new.lists ≡ with_whole self.old.lists action }
        ensures capacity { self.new.capacity ≡ self.old.capacity }
    {
        let place = self.wholes.len() as u32;
        self.wholes.push_reserved(action);
        place
    }

    /// The data words at a place.
    pub fn words(&self, place: u32) -> &TransmitWords
        requires { place < length self.now.lists.words }
        ensures { result.now ≡ words_beside self.now.lists place }
    {
        &self.words[place as usize]
    }

    /// The inserted message at a place.
    pub fn insert(&self, place: u32) -> Inserted<'_>
        requires { place < length self.now.lists.inserts }
        ensures { result ≡ insert_beside self.now.lists place }
    {
        let kept = self.inserts[place as usize];
        Inserted {
            tick: kept.tick,
            line: kept.line,
            message: &self.messages[kept.message as usize],
        }
    }

    /// The whole action at a place.
    pub fn whole(&self, place: u32) -> &HostAction
        requires { place < length self.now.lists.wholes }
        ensures { result.now ≡ whole_beside self.now.lists place }
    {
        &self.wholes[place as usize]
    }

    /// The same in memory of its own, with room for so many whole actions more. It fails for want of memory alone.
    pub fn copy(&self, alloc: Global, more: usize) -> Result<Beside, AllocError>
        ensures lists { IfOk result (λ b. b.lists ≡ self.now.lists) }
        ensures room { IfOk result (λ b. length self.now.lists.wholes + more ≤ b.capacity) }
    {
        Ok(Beside {
            words: copies_of_words(alloc, self.words.as_slice())?,
            inserts: self.inserts.as_slice().to_vec(alloc)?,
            messages: self.messages.as_slice().to_vec(alloc)?,
            wholes: copies_of(alloc, self.wholes.as_slice(), more)?,
        })
    }
}
