//! The words that a terminal keeps, in one flat block.
ghost use Rattle.mil_terminal.specs.Slots.{slot_count};
ghost use Rattle.mil_word.specs.Fields.{most_words};
ghost use Rattle.std.specs.Prelude.{◌≡◌, ℕ, ◌<◌, ◌≤◌, List, [], IfOk, length, replicate, slice_set, slice_index_or};

use mil_word::fields::{FIELD_VALUES, MOST_WORDS};
use std::alloc::{AllocError, Global};
use std::marker::Model;

/// How many lists there are: five for each subaddress.
pub(crate) const SLOTS: usize = 5 * FIELD_VALUES;

/// How many words there is room for in a list.
const ROOM: usize = MOST_WORDS as usize;

/// Lists of at most 32 words each, in one block of memory: for each subaddress those received, behind them for each
/// those received from all, then for each those put up, then what replies add to these, and last where ramps stand.
#[derive(Drop)]
pub struct Block {
    pub(crate) words: Vec<u16>,
    pub(crate) counts: [u8; SLOTS],
}

impl Model for Block {
    ghost use Rattle.mil_terminal.specs.Slots.{slot_count, slots};
    ghost use Rattle.mil_word.specs.Fields.{most_words};
    ghost use Rattle.std.specs.Prelude.{◌≡◌, ℕ, ◌≤◌, ◌<◌, ◌*◌, List, length, vec_len, slice_index};

    ghost Value = { List (List ℕ) };

    ghost view = { λ b. slots b.counts b.words.items };

    ghost invariant = { λ b. (vec_len b.words ≡ most_words * slot_count) × (length b.counts ≡ slot_count)
        × ((i : ℕ) → i < slot_count → slice_index b.counts i ≤ most_words) };
}

impl Block {
    /// A block of empty lists. All its memory is taken here.
    pub fn empty(alloc: Global) -> Result<Block, AllocError>
        ensures { IfOk result (λ b. b ≡ replicate slot_count []) }
    {
        let words = vec![in alloc; 0u16; ROOM * SLOTS]?;
        Ok(Block {
            words,
            counts: [0; SLOTS],
        })
    }

    /// The words of a slot.
    pub fn at(&self, slot: usize) -> &[u16]
        requires { slot < slot_count }
        ensures value { result.now ≡ slice_index_or self.now slot [] }
        ensures few { length result.now ≤ most_words }
    {
        let start = ROOM * slot;
        &self.words[start..start + self.counts[slot] as usize]
    }

    /// Puts words into a slot, in place of those that were there.
    pub fn store(&mut self, slot: usize, words: &[u16])
        requires slot { slot < slot_count }
        requires few { length words.now ≤ most_words }
        ensures { self.new ≡ slice_set self.old slot words.now }
    {
        let start = ROOM * slot;
        self.words[start..start + words.len()].copy_from_slice(words);
        self.counts[slot] = words.len() as u8;
    }

    /// Empties all slots.
    pub fn clear(&mut self)
        ensures { self.new ≡ replicate slot_count [] }
    {
        self.counts = [0; SLOTS];
    }

    /// The same words, in a block of their own.
    pub fn copy(&self) -> Result<Block, AllocError>
        ensures { IfOk result (λ b. b ≡ self.now) }
    {
        Ok(Block {
            words: self.words.clone()?,
            counts: self.counts,
        })
    }
}
