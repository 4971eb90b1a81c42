//! The waves of the words of a run, in room of their own.
ghost use Rattle.mil_word.specs.Wave.{wave_of};
ghost use Rattle.mil_word.specs.Words.{data_wave};
ghost use Rattle.std.specs.Prelude.{◌≡◌, ◌+◌, ◌≤◌, ◌++◌, ◌∷◌, [], length, map};

use mil_word::{Sync, Wave, Word, encode};
use std::marker::Model;

/// How many words a run has at most that is sent as it should: two commands and 32 data words.
const MOST: usize = 34;

/// Up to 34 waves, one behind the other; contracts see them as a list.
#[derive(Drop)]
pub struct Waves {
    list: [Wave; 34],
    count: usize,
}

impl Model for Waves {
    ghost use Rattle.std.specs.Prelude.{ℕ, ◌≤◌, List, take};

    ghost Value = { List ℕ };

    ghost view = { λ w. take w.count w.list };

    ghost invariant = { λ w. w.count ≤ 34 };
}

/// Puts the waves of data words into room of as many places.
#[inline]
fn fill(room: &mut [Wave], values: &[u16])
    requires { length room.old ≡ length values.now }
    ensures { room.new ≡ map data_wave values.now }
{
    for i in 0..values.len() {
        room[i] = encode(Word {
            sync: Sync::DataSync,
            value: values[i],
        });
    }
}

impl Waves {
    /// No wave.
    #[inline]
    pub fn none() -> Waves
        ensures { result ≡ [] }
    {
        Waves {
            list: [Wave::default(); MOST],
            count: 0,
        }
    }

    /// The waves in their order.
    #[inline]
    pub fn as_slice(&self) -> &[Wave]
        ensures value { result.now ≡ self.now }
        ensures few { length result.now ≤ 34 }
    {
        &self.list[..self.count]
    }

    /// Puts the wave of a word behind the others.
    #[inline]
    pub fn put(&mut self, word: Word)
        requires { length self.old + 1 ≤ 34 }
        ensures { self.new ≡ self.old ++ wave_of word ∷ [] }
    {
        self.list[self.count] = encode(word);
        self.count += 1;
    }

    /// Puts the waves of data words behind the others.
    #[inline]
    pub fn put_data(&mut self, values: &[u16])
        requires { length self.old + length values.now ≤ 34 }
        ensures { self.new ≡ self.old ++ map data_wave values.now }
    {
        let from = self.count;
        let end = from + values.len();
        let room = &mut self.list[..];
        fill(&mut room[from..end], values);
        self.count = end;
    }
}
