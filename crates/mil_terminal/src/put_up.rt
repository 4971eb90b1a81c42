//! The words that the host put up, and the ramps among them.
ghost use Rattle.mil_terminal.specs.Placing.{carried, placed, ramp_in, stepped as stepped_word, with_ramp, with_words};
ghost use Rattle.mil_terminal.specs.Slots.{put_up_slots, slot_count};
ghost use Rattle.mil_word.specs.Fields.{field_values, most_words};
ghost use Rattle.std.specs.Prelude.{◌≡◌, ℕ, ◌+◌, ◌<◌, ◌≤◌, [], length, max, slice_index_or};

use crate::blocks::Block;
use crate::exactly::push_exactly;
use arrayvec::ArrayVec;
use mil_word::fields::FIELD_VALUES;

/// Where the words put up begin.
pub const PUT_UP: usize = 2 * FIELD_VALUES;

/// Where that which replies add to them begins.
const ADDED: usize = 3 * FIELD_VALUES;

/// Where the lists begin that have 1 at a ramp.
const RAMPS: usize = 4 * FIELD_VALUES;

/// The larger of two numbers.
fn larger(one: usize, other: usize) -> usize
    ensures { result ≡ max one other }
{
    if one < other { other } else { one }
}

impl Block {
    /// Words that stay are put up at a subaddress, in place of all that stood there.
    pub fn put_words(&mut self, sub: u8, words: &[u16])
        requires sub { sub < field_values }
        requires few { length words.now ≤ most_words }
        ensures { self.new ≡ with_words self.old sub words.now }
    {
        let sub = usize::from(sub);
        self.store(PUT_UP + sub, words);
        self.store(ADDED + sub, &[]);
        self.store(RAMPS + sub, &[]);
    }

    /// Sets a word of a list, with zeros before it where there are fewer.
    fn put(&mut self, slot: usize, place: usize, value: u16)
        requires slot { slot < slot_count }
        requires place { place < most_words }
        ensures { self.new ≡ placed self.old slot place value }
    {
        let mut words = ArrayVec::<u16, 33>::new();
        let old = self.at(slot);
        push_exactly(&mut words, larger(old.len(), place + 1), old);
        words.as_mut_slice()[place] = value;
        self.store(slot, words.as_slice());
    }

    /// A ramp is put up at a place, counted from 0, of a subaddress.
    pub fn put_ramp(&mut self, sub: u8, place: u8, start: u16, add: u16)
        requires sub { sub < field_values }
        requires place { place < most_words }
        ensures { self.new ≡ with_ramp self.old sub place start add }
    {
        let sub = usize::from(sub);
        let place = usize::from(place);
        self.put(PUT_UP + sub, place, start);
        self.put(ADDED + sub, place, add);
        self.put(RAMPS + sub, place, 1);
    }

    /// What the ramp at a place, counted from 0, of a subaddress adds, if there is one.
    pub fn ramp(&self, sub: u8, place: usize) -> Option<u16>
        requires { sub < field_values }
        ensures { result ≡ ramp_in self.now sub place }
    {
        let sub = usize::from(sub);
        if word_at(self.at(RAMPS + sub), place) == 1 {
            Some(word_at(self.at(ADDED + sub), place))
        } else {
            None
        }
    }

    /// A reply has carried the first words of a subaddress, so many: the ramps among them go on.
    pub fn carry(&mut self, sub: u8, count: u8)
        requires { sub < field_values }
        ensures { self.new ≡ carried self.old sub count }
    {
        if !self.at(RAMPS + usize::from(sub)).is_empty() {
            self.step(sub, usize::from(count));
        }
    }

    /// The same, where there may be ramps.
    #[inline(never)]
    fn step(&mut self, sub: u8, count: usize)
        requires { sub < field_values }
        ensures { self.new ≡ carried self.old sub count }
    {
        let slot = PUT_UP + usize::from(sub);
        let mut words = ArrayVec::<u16, 32>::new();
        let before = self.at(slot);
        for place in 0..before.len() {
            let word = before[place];
            words.push(if place < count {
                stepped(self.ramp(sub, place), word)
            } else {
                word
            });
        }
        self.store(slot, words.as_slice());
    }

    /// The lists of received words are emptied.
    pub fn clear_received(&mut self)
        ensures cleared { (n : ℕ) → n < put_up_slots → slice_index_or self.new n [] ≡ [] }
        ensures kept { (n : ℕ) → put_up_slots ≤ n → slice_index_or self.new n [] ≡ slice_index_or self.old n [] }
        ensures long { length self.new ≡ length self.old }
    {
        for slot in 0..PUT_UP {
            self.store(slot, &[]);
        }
    }
}

/// The word at a place, 0 where there is none.
fn word_at(words: &[u16], place: usize) -> u16
    ensures { result ≡ slice_index_or words.now place 0 }
{
    match words.get(place) {
        Some(word) => *word,
        None => 0,
    }
}

/// A word after a reply that carries it.
fn stepped(ramp: Option<u16>, word: u16) -> u16
    ensures { result ≡ stepped_word ramp word }
{
    match ramp {
        Some(add) => word.wrapping_add(add),
        None => word,
    }
}
