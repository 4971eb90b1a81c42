//! Faults that make other words of those that the sender of a run gives.

use crate::explanations::Explanation;
use mil_line::Fault;
use mil_word::{Sync, Wave, Word, encode};

/// The half bits of a sync (MIL-STD-1553B 4.3.3.5.1.1).
const SYNC: u64 = 0xFC_0000_0000;

/// The second half of the parity bit.
const LAST_HALF: u64 = 1;

/// The half bits of a word.
const HALF_BITS: u64 = 0xFF_FFFF_FFFF;

/// How words of a run are altered.
#[derive(Clone, Copy, Debug)]
pub(crate) struct Alteration {
    pub(crate) run: u32,
    /// How many words of the run stand in front of those that are given.
    pub(crate) front: usize,
    /// How many words of the run are commands or status words.
    pub(crate) commands: usize,
    /// Whether altered words are unsound.
    pub(crate) unsound: bool,
    /// The sync of words that are added.
    pub(crate) added: Sync,
}

/// The place of a word in a run as faults have it.
fn index_of(place: usize) -> u32 {
    place.min(1000) as u32
}

/// The sync of a word at a place.
fn sync_at(alteration: Alteration, place: usize) -> Sync {
    if place.saturating_add(alteration.front) < alteration.commands {
        Sync::CommandSync
    } else {
        Sync::DataSync
    }
}

/// The first halves of the pairs of these information bits.
fn first_halves(bits: u16) -> u64 {
    let mut halves = 0u64;
    for place in 0..16u32 {
        if bits >> place & 1 == 1 {
            halves |= 8u64 << (2 * place);
        }
    }
    halves
}

/// The half bits in which two words of one sync differ.
fn between(sync: Sync, given: u16, wanted: u16) -> u64 {
    let one = encode(Word { sync, value: given });
    let other = encode(Word {
        sync,
        value: wanted,
    });
    one.half_bits() ^ other.half_bits()
}

/// A mask at a place.
fn mask(run: u32, place: usize, half_bits: u64) -> Fault {
    Fault::Mask {
        run,
        index: index_of(place),
        half_bits: Wave::of(half_bits & HALF_BITS),
    }
}

/// Makes a word of another.
fn replace(
    explanation: &mut Explanation,
    alteration: Alteration,
    place: usize,
    given: u16,
    wanted: u16,
) -> bool {
    let half_bits = if alteration.unsound {
        first_halves(given ^ wanted)
    } else {
        between(sync_at(alteration, place), given, wanted)
    };
    explanation.plan(mask(
        alteration.run,
        place.saturating_add(alteration.front),
        half_bits,
    ))
}

/// How many words two lists have in common at their front.
fn common_front(given: &[u16], wanted: &[u16]) -> usize {
    let mut count = 0usize;
    for place in 0..given.len().min(wanted.len()) {
        if given[place] != wanted[place] {
            break;
        }
        count = place + 1;
    }
    count
}

/// How many they have in common at their end, behind so many at the front of each.
fn common_end(given: &[u16], wanted: &[u16], front: usize) -> usize {
    let most = given.len().min(wanted.len()).saturating_sub(front);
    let mut count = 0usize;
    for from_end in 0..most {
        let one = given.get(given.len().saturating_sub(from_end + 1));
        let other = wanted.get(wanted.len().saturating_sub(from_end + 1));
        if one != other {
            break;
        }
        count = from_end + 1;
    }
    count
}

/// Adds words behind the one at a place.
fn add(explanation: &mut Explanation, alteration: Alteration, place: usize, words: &[u16]) -> bool {
    let mut whole = true;
    for value in words {
        let word = Word {
            sync: alteration.added,
            value: *value,
        };
        let (run, index) = (
            alteration.run,
            index_of(place.saturating_add(alteration.front)),
        );
        whole = explanation.plan(Fault::Add { run, index, word }) && whole;
    }
    whole
}

/// How many words in front of those at the end that are all the same.
fn in_front_of_alike(words: &[u16]) -> usize {
    let Some(last) = words.last() else {
        return 0;
    };
    let mut front = 0usize;
    for place in 0..words.len() {
        if words[place] != *last {
            front = place + 1;
        }
    }
    front
}

/// Adds words behind the last one: those at the end that are all the same by one fault, but for a first one of another
/// sync.
fn add_behind(
    explanation: &mut Explanation,
    alteration: Alteration,
    place: usize,
    words: &[u16],
) -> bool {
    let mut front = in_front_of_alike(words);
    if front == 0 && alteration.added == Sync::CommandSync {
        front = words.len().min(1);
    }
    let alike = words.len().saturating_sub(front);
    let Some(word) = words.last() else {
        return true;
    };
    if alike < 2 {
        return add(explanation, alteration, place, words);
    }
    let babble = Fault::Babble {
        run: alteration.run,
        count: index_of(alike),
        word: *word,
    };
    add(
        explanation,
        alteration,
        place,
        &words[..front.min(words.len())],
    ) && explanation.plan(babble)
}

/// Leaves out words.
fn leave_out(
    explanation: &mut Explanation,
    alteration: Alteration,
    from: usize,
    to: usize,
) -> bool {
    let mut whole = true;
    for place in from..to {
        let (run, index) = (
            alteration.run,
            index_of(place.saturating_add(alteration.front)),
        );
        whole = explanation.plan(Fault::Drop { run, index }) && whole;
    }
    whole
}

/// Plans faults that make other words of those that the sender of a run gives; false where there are not enough.
pub(crate) fn edit(
    explanation: &mut Explanation,
    alteration: Alteration,
    given: &[u16],
    wanted: &[u16],
) -> bool {
    let front = common_front(given, wanted);
    let mut end = common_end(given, wanted, front);
    if front == 0 && given.len() == end && end > 0 && wanted.len() > end {
        // Nothing is added in front of the first word: it is altered, and comes behind.
        end -= 1;
    }
    let (given_end, wanted_end) = (
        given.len().saturating_sub(end),
        wanted.len().saturating_sub(end),
    );
    let altered = given_end.min(wanted_end);
    let mut whole = true;
    for place in front..altered {
        let (Some(one), Some(other)) = (given.get(place), wanted.get(place)) else {
            break;
        };
        if one != other {
            whole = replace(explanation, alteration, place, *one, *other) && whole;
        }
    }
    let last = altered.saturating_sub(1);
    let more = &wanted[altered.min(wanted.len())..wanted_end.max(altered).min(wanted.len())];
    let added = if end == 0 {
        add_behind(explanation, alteration, last, more)
    } else {
        add(explanation, alteration, last, more)
    };
    leave_out(explanation, alteration, altered, given_end) && added && whole
}

/// Plans a fault that is not planned yet; false where it is, or can't be.
fn plan_once(explanation: &mut Explanation, fault: Fault) -> bool {
    !explanation.faults.as_slice().contains(&fault) && explanation.plan(fault)
}

/// Makes a word unsound that is read as before.
pub(crate) fn spoil(explanation: &mut Explanation, run: u32, place: usize) -> bool {
    plan_once(explanation, mask(run, place, LAST_HALF))
}

/// Gives a word the other sync.
pub(crate) fn turn(explanation: &mut Explanation, run: u32, place: usize) -> bool {
    plan_once(explanation, mask(run, place, SYNC))
}

/// The least gap that is a pause, in ticks of 0.1 µs.
const LEAST_PAUSE: u32 = 21;

/// Puts a gap in front of a word.
pub(crate) fn pause(explanation: &mut Explanation, run: u32, place: usize) -> bool {
    let index = index_of(place);
    let ticks = LEAST_PAUSE;
    plan_once(explanation, Fault::Pause { run, index, ticks })
}
