//! The numbers of messages in their channels.
ghost use Rattle.ch11_reader.specs.Contents.{count_in};
ghost use Rattle.bench_decode.specs.Numbering.{AreCounts, ArePassed};
ghost use Rattle.std.specs.Prelude.{◌≡◌, ◌+◌, ◌∷◌, [], ℕ, List, IfOk};

use crate::messages::Place;
use std::alloc::{AllocError, Global};

/// How many channels there can be, 0 among them.
const CHANNELS: usize = 65536;

/// How many messages of each channel were passed.
#[derive(Drop)]
pub struct Numbers {
    /// A count for each channel by its number, 0 to 65535, as far as 64 bits count.
    pub counts: Vec<u64>,
}

impl Numbers {
    /// No message of any channel was passed.
    pub fn new(alloc: Global) -> Result<Numbers, AllocError>
        ensures { IfOk result (λ numbers. AreCounts [] numbers.counts.items) }
    {
        Ok(Numbers {
            counts: vec![in alloc; 0; CHANNELS]?,
        })
    }

    /// The number of the next message of a channel, counted from 1, which is passed with it.
    pub fn next(&mut self, channel: u16) -> u64
        ensures number { (p : List ℕ) → ArePassed p self.old.counts.items → result ≡ count_in channel p + 1 }
        ensures new { (p : List ℕ) → ArePassed p self.old.counts.items → AreCounts (channel ∷ p) self.new.counts.items }
    {
        let place = usize::from(channel);
        if place >= self.counts.len() {
            return 0;
        }
        let number = self.counts[place].saturating_add(1);
        self.counts[place] = number;
        number
    }

    /// Where the next message of a channel stands, which is of this number of the file and is passed with it.
    pub fn place(&mut self, number: u64, channel: u16) -> Place
        ensures same { (result.number ≡ number) × (result.channel ≡ channel) }
        ensures number { (p : List ℕ) → ArePassed p self.old.counts.items → result.in_channel ≡ count_in channel p + 1 }
        ensures new { (p : List ℕ) → ArePassed p self.old.counts.items → AreCounts (channel ∷ p) self.new.counts.items }
    {
        Place {
            number,
            channel,
            in_channel: self.next(channel),
        }
    }
}
