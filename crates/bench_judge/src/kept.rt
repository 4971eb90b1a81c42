//! A number of each channel that has one, of which that of the channel before is at hand.
ghost use Rattle.bench_judge.specs.Kept.{is_at, kept};
ghost use Rattle.std.specs.HashMap.{get};
ghost use Rattle.std.specs.Prelude.{◌≡◌, ◌==◌, ℕ, nat_eq, None, Some, IfOk, OnOk, if◌then◌else◌};

use std::alloc::{AllocError, Global};
use std::collections::HashMap;

/// A number of each channel that has one. Messages of one channel stand together in packets, so that of their channel
/// is kept beside those of the others.
#[derive(Drop)]
pub(crate) struct Kept {
    channel: u16,
    value: Option<u64>,
    others: HashMap<u16, u64>,
}

impl Kept {
    /// No channel has one.
    pub(crate) fn none(alloc: Global) -> Kept
        ensures { (channel : ℕ) → kept result channel ≡ None }
    {
        Kept {
            channel: 0,
            value: None,
            others: HashMap::new(alloc),
        }
    }

    /// Whether this channel's is at hand.
    #[inline]
    fn is_at(&self, channel: u16) -> bool
        ensures { result ≡ is_at self.now channel }
    {
        self.channel == channel && self.value.is_some()
    }

    /// That of a channel, if it has one.
    #[inline]
    pub(crate) fn at(&self, channel: u16) -> Option<u64>
        ensures { result ≡ kept self.now channel }
    {
        if self.is_at(channel) {
            return self.value;
        }
        self.others.get(&channel).copied()
    }

    /// Puts the number at hand to those of the others.
    fn leave(&mut self) -> Result<(), AllocError>
        ensures { OnOk result ((other : ℕ) → get nat_eq self.new.others other ≡ kept self.old other) }
    {
        let (channel, value) = (self.channel, self.value);
        match value {
            None => Ok(()),
            Some(value) => {
                self.others.insert(channel, value)?;
                Ok(())
            }
        }
    }

    /// Gives a channel a number, and answers the one that it had.
    #[inline(always)]
    pub(crate) fn put(&mut self, channel: u16, value: u64) -> Result<Option<u64>, AllocError>
        ensures before { IfOk result (λ before. before ≡ kept self.old channel) }
        ensures after { OnOk result ((other : ℕ) → kept self.new other
            ≡ (if channel == other then Some value else kept self.old other)) }
    {
        if self.is_at(channel) {
            let before = self.value;
            self.value = Some(value);
            return Ok(before);
        }
        self.change(channel, value)
    }

    /// The same, where that of another channel is at hand, or none is.
    #[inline(never)]
    fn change(&mut self, channel: u16, value: u64) -> Result<Option<u64>, AllocError>
        ensures before { IfOk result (λ before. before ≡ kept self.old channel) }
        ensures after { OnOk result ((other : ℕ) → kept self.new other
            ≡ (if channel == other then Some value else kept self.old other)) }
    {
        let before = self.at(channel);
        self.leave()?;
        self.channel = channel;
        self.value = Some(value);
        Ok(before)
    }
}
