//! What the runs of a talk that are kept as a whole come to.
ghost use Rattle.mil_bus.specs.Counts.{counts_of};
ghost use Rattle.mil_bus.specs.Wholes.{whole_words, all_words, words_in};
ghost use Rattle.mil_bus.specs.declared.talks.Sent.{Sent as SentValue};
ghost use Rattle.mil_line.specs.Ranges.{most_sent};
ghost use Rattle.mil_word.specs.declared.Sync.TheVariants.{CommandSync};
ghost use Rattle.std.specs.Prelude.{◌≡◌, ℕ, ◌+◌, ◌<◌, ◌≤◌, take, length, get_or, Some};

use crate::counts::{Came, TalkCounts};
use crate::wholes::Whole;
use mil_terminal::are_small;
use mil_word::{Sync, Word};

/// A reply that came as it should: its status word, and data words.
#[inline]
fn came_of(run: &Whole, own: &[u16]) -> Came
    requires some { 0 < length own.now }
    requires few { length own.now ≤ most_sent }
    ensures { (d : ℕ) → result ≡ record {
      gap = run.now.gap;
      first = Some (record { sync = CommandSync; value = get_or own.now 0 d });
      count = length own.now;
    } }
{
    Came {
        gap: run.gap,
        first: Some(Word {
            sync: Sync::CommandSync,
            value: own[0],
        }),
        count: own.len() as u8,
    }
}

/// Counts the words of one of the runs, which stand from a place on. The controller's, a first reply that came as it
/// should, and the data words of any run, once the first is in its place, are counted together.
#[inline]
fn note_run(
    seen: &mut TalkCounts,
    commands: u8,
    due: u8,
    run: &Whole,
    own: &[u16],
    from: usize,
    runs: &[Whole],
    values: &[u16],
)
    requires few { length (all_words runs.now values.now) ≤ most_sent }
    requires two { due ≤ 2 }
    requires within { from + length own.now ≤ length (all_words runs.now values.now) }
    requires there { (k : ℕ) (d : SentValue) → k < length own.now
        → get_or (all_words runs.now values.now) (from + k) d ≡ get_or (whole_words run.now own.now) k d }
    requires seen { seen.old ≡ counts_of commands due (take from (all_words runs.now values.now)) }
    ensures { seen.new ≡ counts_of commands due (take (from + length own.now) (all_words runs.now values.now)) }
{
    // Named for the proofs alone.
    let _ = from;
    let _ = runs;
    let _ = values;
    are_small(own);
    if run.number == 0 && run.commands == commands && seen.controllers == 0 {
        seen.lengthen(0, own.len() as u8);
        return;
    }
    if run.commands == 1 && run.number == 1 && 0 < due && seen.one.is_none() && !own.is_empty() {
        seen.one = Some(came_of(run, own));
        return;
    }
    for i in 0..own.len() {
        seen.note(commands, due, &run.word(own, i));
        let next = i + 1;
        if usize::from(run.commands) <= next && seen.goes_on(commands, due, run.number) {
            seen.lengthen(run.number, (own.len() - next) as u8);
            return;
        }
    }
}

/// What is seen of runs that are kept as a whole, where so many commands are sent and so many replies are due.
pub fn counted_runs(commands: u8, due: u8, runs: &[Whole], values: &[u16]) -> TalkCounts
    requires counted { words_in runs.now ≡ length values.now }
    requires few { length values.now ≤ most_sent }
    requires two { due ≤ 2 }
    ensures { result ≡ counts_of commands due (all_words runs.now values.now) }
{
    let mut seen = TalkCounts::none();
    let mut from = 0;
    for i in 0..runs.len() {
        let run = &runs[i];
        let end = from + usize::from(run.count);
        note_run(
            &mut seen,
            commands,
            due,
            run,
            &values[from..end],
            from,
            runs,
            values,
        );
        from = end;
    }
    seen
}
