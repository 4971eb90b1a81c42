//! The words of a terminal, packed.
ghost use Rattle.mil_terminal.specs.Slots.{entry, entries, slot_count};
ghost use Rattle.mil_word.specs.Fields.{most_words};
ghost use Rattle.std.specs.Prelude.{◌≡◌, ◌≤◌, ◌<◌, ◌++◌, IfOk, OnOk, length};

use crate::blocks::{Block, SLOTS};
use std::alloc::{AllocError, Global};
use std::marker::Model;
use std::snapshot::Snapshot;

/// What is kept of a block: for each slot that is not empty a head, which has its number and how many words it holds,
/// and the words. Contracts see the lists of the block, of which no other byte is kept.
#[derive(Drop)]
pub struct SavedBlock {
    words: Vec<u16>,
    block: Snapshot<Block>,
}

impl Model for SavedBlock {
    ghost use Rattle.mil_terminal.specs.Slots.{IsPacked};
    ghost use Rattle.std.specs.Prelude.{ℕ, List};

    ghost Value = { List (List ℕ) };

    ghost view = { λ b. b.block.value };

    ghost invariant = { λ b. IsPacked b.words.items b.block.value };
}

/// Puts what is kept of a slot behind what is kept of those before it.
#[inline]
fn put_entry(kept: &mut Vec<u16>, slot: usize, words: &[u16]) -> Result<(), AllocError>
    requires slot { slot < slot_count }
    requires few { length words.now ≤ most_words }
    ensures { OnOk result (kept.new.items ≡ kept.old.items ++ entry slot words.now) }
{
    if words.is_empty() {
        return Ok(());
    }
    kept.push((64 * slot + words.len()) as u16)?;
    kept.extend_from_slice(words)?;
    Ok(())
}

impl Block {
    /// Where its memory comes from.
    pub fn allocator(&self) -> Global {
        *self.words.allocator()
    }

    /// How many words are kept of it, heads and all.
    fn kept_len(&self) -> usize
        ensures { result ≡ length (entries 0 self.now) }
    {
        let mut len = 0;
        for count in &self.counts {
            if *count > 0 {
                len += 1 + usize::from(*count);
            }
        }
        len
    }

    /// The same words, packed, in memory for no more than them.
    pub fn save(&self) -> Result<SavedBlock, AllocError>
        ensures { IfOk result (λ b. b ≡ self.now) }
    {
        let mut words = Vec::with_capacity(*self.words.allocator(), self.kept_len())?;
        for slot in 0..SLOTS {
            put_entry(&mut words, slot, self.at(slot))?;
        }
        Ok(SavedBlock {
            words,
            block: Snapshot::of(self),
        })
    }

    /// Takes packed words in place of its own.
    pub fn restore(&mut self, saved: &SavedBlock)
        ensures { self.new ≡ saved.now }
    {
        self.clear();
        let mut rest = saved.words.as_slice();
        while let Some((head, behind)) = rest.split_first() {
            let count = usize::from(*head % 64);
            let (words, others) = behind.split_at(count);
            self.store(usize::from(*head / 64), words);
            rest = others;
        }
    }
}
