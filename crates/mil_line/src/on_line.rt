//! What the planned faults make of one run.
ghost use Rattle.mil_line.specs.Faults.{mask_at, drops, pause_at, added_at, babble_of, mutes, inverted, last_or};
ghost use Rattle.mil_line.specs.Faults.{at_once, word_under_faults, words_under_faults, altered, gap_of};
ghost use Rattle.mil_line.specs.Ranges.{is_in_range, most_sent};
ghost use Rattle.mil_word.specs.Timing.{contiguous_gap};
ghost use Rattle.std.specs.List.{list_any, list_all, filter_map, flat_map};
ghost use Rattle.std.specs.Prelude.{◌≡◌, ◌<◌, ◌≤◌, ◌^◌, take, length, map, replicate, ◌++◌, ◌∷◌, [], true};

use crate::{Fault, Gap, LineWord};
use arrayvec::ArrayVec;
use mil_word::{Sync, Wave, Word, encode};

/// How many words of a talk come on the line; none past them is sent (own choice).
pub const MOST_SENT: usize = 40;

fn is_dropped(faults: &[Fault], run: u32, index: u32) -> bool
    ensures { result ≡ list_any (drops run index) faults.now }
{
    faults.iter().any(|fault| fault.drops(run, index))
}

fn is_muted(faults: &[Fault], run: u32) -> bool
    ensures { result ≡ list_any (mutes run) faults.now }
{
    faults.iter().any(|fault| fault.mutes(run))
}

/// The wave under all masks of its place.
fn masked(faults: &[Fault], run: u32, index: u32, wave: Wave) -> Wave
    ensures { result ≡ inverted (filter_map (mask_at run index) faults.now) wave }
{
    let mut wave = wave;
    for fault in faults {
        if let Some(mask) = fault.mask(run, index) {
            wave = wave.masked(mask);
        }
    }
    wave
}

/// The gap that comes on the line where the sender of a run gives this one.
pub fn reply_gap(faults: &[Fault], run: u32, gap: Gap) -> Gap
    requires in_range { list_all is_in_range faults.now ≡ true }
    ensures { result ≡ gap_of faults.now run gap }
{
    let mut gap = gap;
    for fault in faults {
        if let Some(ticks) = fault.reply_gap(run) {
            gap = Gap::of(ticks as u16);
        }
    }
    gap
}

/// The gap before the word at a place, where it is not the first of its run.
fn paused(faults: &[Fault], run: u32, index: u32) -> Gap
    requires in_range { list_all is_in_range faults.now ≡ true }
    ensures { result ≡ last_or contiguous_gap (filter_map (pause_at run index) faults.now) }
{
    let mut gap = Gap::contiguous();
    for fault in faults {
        if let Some(pause) = fault.pause(run, index) {
            gap = Gap::of(pause as u16);
        }
    }
    gap
}

/// Puts a word behind the others while there is room.
fn put(words: &mut ArrayVec<LineWord, MOST_SENT>, room: usize, word: LineWord)
    requires small { room ≤ most_sent }
    requires within { length words.old.items ≤ room }
    ensures items { words.new.items ≡ take room (words.old.items ++ word ∷ []) }
    ensures within { length words.new.items ≤ room }
{
    if words.len() < room {
        words.push(word);
    }
}

/// Puts what is added after a place.
fn put_added(
    words: &mut ArrayVec<LineWord, MOST_SENT>,
    room: usize,
    faults: &[Fault],
    run: u32,
    index: u32,
)
    requires small { room ≤ most_sent }
    requires within { length words.old.items ≤ room }
    ensures items { words.new.items
        ≡ take room (words.old.items ++ map at_once (filter_map (added_at run index) faults.now)) }
    ensures within { length words.new.items ≤ room }
{
    for fault in faults {
        if let Some(wave) = fault.added(run, index) {
            put(words, room, LineWord::at_once(wave));
        }
    }
}

/// The word at a place as it comes on the line.
fn given_word(faults: &[Fault], run: u32, index: u32, wave: Wave) -> LineWord
    requires in_range { list_all is_in_range faults.now ≡ true }
    ensures { result ≡ word_under_faults faults.now run index wave }
{
    LineWord {
        wave: masked(faults, run, index, wave),
        gap: paused(faults, run, index),
    }
}

/// Puts what comes of the word at a place.
fn put_place(
    words: &mut ArrayVec<LineWord, MOST_SENT>,
    room: usize,
    faults: &[Fault],
    run: u32,
    index: u32,
    wave: Wave,
)
    requires small { room ≤ most_sent }
    requires within { length words.old.items ≤ room }
    requires in_range { list_all is_in_range faults.now ≡ true }
    ensures items { words.new.items ≡ take room (words.old.items ++ words_under_faults faults.now run index wave) }
    ensures within { length words.new.items ≤ room }
{
    if !is_dropped(faults, run, index) {
        put(words, room, given_word(faults, run, index, wave));
    }
    put_added(words, room, faults, run, index);
}

/// Puts so many words with a wave behind the others while there is room.
fn put_copies(words: &mut ArrayVec<LineWord, MOST_SENT>, room: usize, count: u32, wave: Wave)
    requires small { room ≤ most_sent }
    requires within { length words.old.items ≤ room }
    ensures items { words.new.items ≡ take room (words.old.items ++ map at_once (replicate count wave)) }
    ensures within { length words.new.items ≤ room }
{
    for _copy in 0..count {
        put(words, room, LineWord::at_once(wave));
    }
}

/// Puts what a fault adds behind the words of a run.
fn put_babble_of(words: &mut ArrayVec<LineWord, MOST_SENT>, room: usize, fault: &Fault, at_run: u32)
    requires small { room ≤ most_sent }
    requires within { length words.old.items ≤ room }
    ensures items { words.new.items ≡ take room (words.old.items ++ map at_once (babble_of at_run fault.now)) }
    ensures within { length words.new.items ≤ room }
{
    match fault {
        Fault::Babble { run, count, word } if *run == at_run => {
            let wave = encode(Word {
                sync: Sync::DataSync,
                value: *word,
            });
            put_copies(words, room, *count, wave);
        }
        _ => {}
    }
}

/// Puts what is added behind the words of a run.
fn put_babble(words: &mut ArrayVec<LineWord, MOST_SENT>, room: usize, faults: &[Fault], run: u32)
    requires small { room ≤ most_sent }
    requires within { length words.old.items ≤ room }
    ensures items { words.new.items
        ≡ take room (words.old.items ++ map at_once (flat_map (babble_of run) faults.now)) }
    ensures within { length words.new.items ≤ room }
{
    for fault in faults {
        put_babble_of(words, room, fault, run);
    }
}

/// What comes on the line of a run whose sender gives these waves, as far as there is room, which is at most forty
/// words.
pub fn altered(
    faults: &[Fault],
    run: u32,
    given: &[Wave],
    room: usize,
) -> ArrayVec<LineWord, MOST_SENT>
    requires room { room ≤ most_sent }
    requires few { length given.now < 2 ^ 32 }
    requires in_range { list_all is_in_range faults.now ≡ true }
    ensures { result.items ≡ take room (altered faults.now run given.now) }
{
    let mut words = ArrayVec::new();
    if is_muted(faults, run) {
        return words;
    }
    for i in 0..given.len() {
        put_place(&mut words, room, faults, run, i as u32, given[i]);
    }
    put_babble(&mut words, room, faults, run);
    words
}
