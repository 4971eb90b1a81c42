//! Words of a terminal that go up or down by the same from reply to reply.

use crate::hosts::{Reply, word_in};
use crate::outlook::Outlook;
use arrayvec::ArrayVec;
use mil_host::WordRamp;

/// The highest subaddress for which a host puts words up.
pub(crate) const HIGHEST_PUT_UP: u8 = 29;

/// How many words of a reply may be ramps.
const MOST_RAMPS: usize = 4;

/// The words of the two replies behind a reply that answer the same command.
#[derive(Clone, Copy, Debug)]
pub(crate) struct Coming {
    pub(crate) first: [u16; 32],
    pub(crate) second: [u16; 32],
}

/// What is added to the word at a place in each of the two replies behind a reply, if it is the same and not zero.
fn add_at(coming: &Coming, place: usize, word: u16) -> Option<u16> {
    let (first, second) = (*coming.first.get(place)?, *coming.second.get(place)?);
    let add = first.wrapping_sub(word);
    if add != 0 && second.wrapping_sub(first) == add {
        Some(add)
    } else {
        None
    }
}

/// A word that goes up or down: its place, counted from 0, itself, and what is added from reply to reply.
#[derive(Clone, Copy, Debug, Default)]
pub(crate) struct Counter {
    place: usize,
    word: u16,
    add: u16,
}

impl Counter {
    /// The ramp of the words for a subaddress.
    pub(crate) fn ramp(&self, sub: u8) -> WordRamp {
        let index = self.place.min(31) as u8 + 1;
        WordRamp::make(sub.clamp(1, HIGHEST_PUT_UP), index, self.word, self.add)
    }
}

/// The words that go up or down of those of a reply, and of the two replies behind it that answer the same command: one
/// for each word that the terminal holds otherwise. None where one of these is no ramp or may have
/// been altered, or where there are more than four.
pub(crate) fn counters_in(
    outlook: &Outlook<'_>,
    next: usize,
    held: &[u16],
    reply: &Reply<'_>,
) -> Option<ArrayVec<Counter, 4>> {
    if reply.is_odd {
        return None;
    }
    let coming = outlook.coming(next, reply.command)?;
    let mut counters: ArrayVec<Counter, 4> = ArrayVec::new();
    for place in 0..reply.words.len() {
        let word = reply.words[place];
        if word_in(held, place) == word {
            continue;
        }
        let add = add_at(&coming, place, word)?;
        if counters.as_slice().len() >= MOST_RAMPS {
            return None;
        }
        // There is room for it.
        let _ = counters.try_push(Counter { place, word, add });
    }
    Some(counters)
}
