//! The words of an exchange, as they came on the line.
ghost use Rattle.mil_bus.specs.Counts.{counts_of};
ghost use Rattle.mil_bus.specs.DataRuns.{run_words};
ghost use Rattle.mil_bus.specs.Times.{end_from, is_last_or, is_controllers_last};
ghost use Rattle.mil_bus.specs.Wholes.{value_waves, whole_words, all_words, words_in, AreSome};
ghost use Rattle.mil_bus.specs.declared.talks.Sent.{Sent as SentValue};
ghost use Rattle.mil_line.specs.Ranges.{most_sent};
ghost use Rattle.mil_word.specs.Wave.{raw_of};
ghost use Rattle.std.specs.Prelude.{◌≡◌, ℕ, ◌+◌, ◌*◌, ◌<◌, ◌≤◌, ◌^◌, ◌==◌, true, false, List, [], ◌++◌, length, map};

use crate::Sent;
use crate::counted_runs::counted_runs;
use crate::counts::{TalkCounts, counted};
use crate::talk_runs::Run;
use crate::talks::lasting;
use crate::wholes::Whole;
use arrayvec::ArrayVec;
use mil_line::MOST_SENT;
use mil_message::Values;
use mil_terminal::are_small;
use mil_word::raw_bits;
use mil_word::timing::WORD_TIME;
use std::marker::Model;

/// How long a word lasts, in ticks.
const WORD: u64 = WORD_TIME as u64;

/// How many runs may be kept as a whole: a message that goes as it should has no more.
const MOST_WHOLE: usize = 3;

/// The words that came on a line, at most forty, in their order; contracts see them as those of an `ArrayVec`. A run
/// that no planned fault touches is kept as a whole, by the values of its words.
#[derive(Debug, Drop)]
pub struct SentWords {
    /// The runs that are kept as a whole.
    runs: ArrayVec<Whole, MOST_WHOLE>,
    /// The values of their words.
    values: ArrayVec<u16, MOST_SENT>,
    /// The words behind them.
    each: ArrayVec<Sent, MOST_SENT>,
}

impl Model for SentWords {
    ghost use Rattle.arrayvec.specs.ArrayVec.{ArrayVec as Items};
    ghost use Rattle.mil_bus.specs.Wholes.{all_words, AreKeptWords};
    ghost use Rattle.mil_bus.specs.declared.talks.Sent.{Sent as SentValue};
    ghost use Rattle.std.specs.Prelude.{◌++◌};

    ghost Value = { Items SentValue };

    ghost view = { λ s. record { items = all_words s.runs.items s.values.items ++ s.each.items } };

    ghost invariant = { λ s. AreKeptWords s.runs.items s.values.items s.each.items };
}

/// Puts the words of a run that is kept as a whole behind others.
fn put_words(words: &mut ArrayVec<Sent, MOST_SENT>, run: &Whole, values: &[u16])
    requires { length words.old.items + length values.now ≤ most_sent }
    ensures { words.new.items ≡ words.old.items ++ whole_words run.now values.now }
{
    for i in 0..values.len() {
        words.push(run.word(values, i));
    }
}

/// The words of runs that are kept as a whole.
fn words_of(runs: &[Whole], values: &[u16]) -> ArrayVec<Sent, MOST_SENT>
    requires counted { words_in runs.now ≡ length values.now }
    requires few { length values.now ≤ most_sent }
    ensures { result.items ≡ all_words runs.now values.now }
{
    let mut words = ArrayVec::new();
    let mut from = 0;
    for i in 0..runs.len() {
        let run = &runs[i];
        let end = from + usize::from(run.count);
        put_words(&mut words, run, &values[from..end]);
        from = end;
    }
    words
}

/// The ticks from the end of the word before to the end of a run, by the place of its first word in the talk.
#[inline]
fn lasting_all(place: usize, run: &Whole) -> u64
    requires { run.now.count ≤ most_sent }
    ensures small { result ≤ run.now.count * 2 ^ 17 }
    ensures value { (tick : ℕ) (values : List ℕ) (more : List SentValue) → length values ≡ run.now.count
        → end_from place tick (whole_words run.now values ++ more)
        ≡ end_from (place + run.now.count) (tick + result) more }
{
    if run.count == 0 {
        0
    } else {
        lasting(place, run.gap) + WORD * u64::from(run.count - 1)
    }
}

/// When the last word of runs that are kept as a whole ended, where the first started at a tick.
fn end_of_runs(runs: &[Whole], values: &[u16], start: u64) -> u64
    requires counted { words_in runs.now ≡ length values.now }
    requires few { length values.now ≤ most_sent }
    requires small { start < 2 ^ 61 }
    ensures value { (more : List SentValue)
        → end_from 0 start (all_words runs.now values.now ++ more) ≡ end_from (length values.now) result more }
    ensures soon { result ≤ start + length values.now * 2 ^ 17 }
    ensures after { start ≤ result }
{
    // Named for the proofs alone.
    let _ = values;
    let mut tick = start;
    let mut from = 0;
    for i in 0..runs.len() {
        let run = &runs[i];
        tick += lasting_all(from, run);
        from += usize::from(run.count);
    }
    tick
}

/// When the last of these words ended, which stand in the talk from a place on, where the one before ended at a tick.
fn end_of_each(sent: &[Sent], from: usize, start: u64) -> u64
    requires few { from + length sent.now ≤ most_sent }
    requires small { start < 2 ^ 61 + 2 ^ 23 }
    ensures value { result ≡ end_from from start sent.now }
    ensures soon { result ≤ start + length sent.now * 2 ^ 17 }
    ensures after { start ≤ result }
{
    let mut tick = start;
    for i in 0..sent.len() {
        tick += lasting(from + i, sent[i].gap);
    }
    tick
}

/// Whether the last word of runs that are kept as a whole was the controller's, or there is none.
fn is_controllers_run(runs: &[Whole], values: &[u16]) -> bool
    requires counted { words_in runs.now ≡ length values.now }
    requires some { AreSome runs.now }
    ensures { (more : List SentValue)
        → is_last_or true (all_words runs.now values.now ++ more) ≡ is_last_or result more }
{
    // Named for the proofs alone.
    let _ = values;
    match runs.last() {
        Some(last) => last.number == 0,
        None => true,
    }
}

/// Whether the last of these words was the controller's; where there is none, as before.
fn is_controllers_word(last: bool, sent: &[Sent]) -> bool
    ensures { result ≡ is_last_or last sent.now }
{
    let mut last = last;
    for word in sent {
        last = word.run == 0;
    }
    last
}

/// The information bits of words, each sound or not.
fn raw_of_each(sent: &[Sent]) -> ArrayVec<u16, MOST_SENT>
    requires { length sent.now ≤ most_sent }
    ensures { result.items ≡ map (λ (w : SentValue). raw_of w.wave) sent.now }
{
    let mut words = ArrayVec::new();
    for word in sent {
        words.push(raw_bits(word.wave));
    }
    words
}

impl SentWords {
    /// No word.
    #[inline]
    pub fn none() -> SentWords
        ensures { result.items ≡ [] }
    {
        SentWords {
            runs: ArrayVec::new(),
            values: ArrayVec::new(),
            each: ArrayVec::new(),
        }
    }

    /// How many there are, 0 to 40.
    #[inline]
    pub fn len(&self) -> usize
        ensures value { result ≡ length self.now.items }
        ensures few { result ≤ most_sent }
    {
        self.values.len() + self.each.len()
    }

    /// Whether there is none.
    #[inline]
    pub fn is_empty(&self) -> bool
        ensures { result ≡ (length self.now.items == 0) }
    {
        self.len() == 0
    }

    /// Drops all words.
    #[inline]
    pub fn clear(&mut self)
        ensures { self.new.items ≡ [] }
    {
        self.runs = ArrayVec::new();
        self.values = ArrayVec::new();
        self.each.clear();
    }

    /// The words one by one.
    pub fn list(&self) -> ArrayVec<Sent, MOST_SENT>
        ensures { result ≡ self.now }
    {
        let mut words = words_of(self.runs.as_slice(), self.values.as_slice());
        // There is room for all of them.
        let _ = words.try_extend_from_slice(self.each.as_slice());
        words
    }

    /// Puts the words of a run behind the others, where it can be kept as a whole: it has a word, there is room for
    /// it, and the others are kept so. Whether it was put.
    #[inline]
    pub(crate) fn put_whole(&mut self, run: &Run, values: &Values) -> bool
        ensures put { result ≡ true → self.new.items ≡ self.old.items
            ++ run_words run.now (value_waves values.now.commands values.now.words.items) }
        ensures room { result ≡ true → length self.old.items + length values.now.words.items ≤ most_sent }
        ensures some { result ≡ true → 0 < length values.now.words.items }
        ensures kept { result ≡ false → self.new ≡ self.old }
    {
        let words = values.words.as_slice();
        let room = MOST_SENT - self.values.len();
        let full = self.runs.len() == MOST_WHOLE;
        if full || !self.each.is_empty() || words.is_empty() || room < words.len() {
            return false;
        }
        are_small(words);
        self.runs.push(Whole {
            number: run.number,
            source: run.source,
            gap: run.gap,
            commands: values.commands,
            count: words.len() as u8,
        });
        // There is room for all of them.
        let _ = self.values.try_extend_from_slice(words);
        true
    }

    /// Puts words behind the others, one by one.
    pub(crate) fn put_each(&mut self, words: &[Sent])
        requires { length self.old.items + length words.now ≤ most_sent }
        ensures { self.new.items ≡ self.old.items ++ words.now }
    {
        // There is room for all of them.
        let _ = self.each.try_extend_from_slice(words);
    }

    /// When the last word ended, where the first started, or would have, at a tick.
    pub(crate) fn end(&self, start: u64) -> u64
        requires { start < 2 ^ 61 }
        ensures value { result ≡ end_from 0 start self.now.items }
        ensures soon { result ≤ start + 2 ^ 23 }
        ensures after { start ≤ result }
    {
        let tick = end_of_runs(self.runs.as_slice(), self.values.as_slice(), start);
        end_of_each(self.each.as_slice(), self.values.len(), tick)
    }

    /// Whether the last word was the controller's, or there is none.
    pub(crate) fn is_controllers_last(&self) -> bool
        ensures { result ≡ is_controllers_last self.now.items }
    {
        let last = is_controllers_run(self.runs.as_slice(), self.values.as_slice());
        is_controllers_word(last, self.each.as_slice())
    }

    /// What is seen of them, where so many commands are sent and so many replies are due.
    pub(crate) fn seen(&self, commands: u8, due: u8) -> TalkCounts
        requires { due ≤ 2 }
        ensures { result ≡ counts_of commands due self.now.items }
    {
        if self.each.is_empty() {
            counted_runs(commands, due, self.runs.as_slice(), self.values.as_slice())
        } else {
            self.seen_each(commands, due)
        }
    }

    /// The same, word by word.
    #[inline(never)]
    fn seen_each(&self, commands: u8, due: u8) -> TalkCounts
        requires { due ≤ 2 }
        ensures { result ≡ counts_of commands due self.now.items }
    {
        counted(commands, due, self.list().as_slice())
    }

    /// The information bits of the words, each sound or not.
    #[inline]
    pub fn raw_bits(&self) -> ArrayVec<u16, MOST_SENT>
        ensures { result.items ≡ map (λ (w : SentValue). raw_of w.wave) self.now.items }
    {
        if !self.each.is_empty() {
            return self.raw_each();
        }
        let mut words = ArrayVec::new();
        // There is room for all of them.
        let _ = words.try_extend_from_slice(self.values.as_slice());
        words
    }

    /// The same, word by word.
    #[inline(never)]
    fn raw_each(&self) -> ArrayVec<u16, MOST_SENT>
        ensures { result.items ≡ map (λ (w : SentValue). raw_of w.wave) self.now.items }
    {
        raw_of_each(self.list().as_slice())
    }
}
